use arena_geo::Region;
use entity_recs::{Action, Cmd, Effect, IdList, Rec, Reply, StateList, abs_box};

/// An action for tests: a player stays where it is, and its record gets the number of the command.
pub struct Staying;

impl Action for Staying {
    ghost use Rattle.trial_outcomes.specs.Staying as staying;
    ghost use Rattle.trial_outcomes.proofs.StayingLaws as laws;

    ghost meaning = { λ a. staying.meaning };

    fn region(&self, me: &Rec, cmd: &Cmd) -> Region {
        let _ = cmd;
        Region::one(abs_box(me))
    }

    fn act(&self, me: &Rec, near: &[Rec], cmd: &Cmd) -> Effect {
        let _ = near;
        Effect {
            me: Rec {
                seq: cmd.seq,
                ..*me
            },
            states: StateList::new(),
            reply: Reply {
                origin: me.origin,
                got: IdList::new(),
            },
        }
    }

    ghost validity = { λ a. laws.staying_is_valid };

    ghost locality = { λ a. laws.staying_is_local };

    ghost footprint = { λ a. laws.staying_stays_within };
}
