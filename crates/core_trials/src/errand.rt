ghost use Rattle.std.specs.Prelude.{◌≡◌};
ghost use Rattle.std.specs.List.{list_any};
ghost use Rattle.entity_recs.specs.Commands.{command_of};
ghost use Rattle.trial_outcomes.specs.Errand as errands;

use arena_geo::{Region, Vec3};
use entity_recs::{Action, Cmd, Effect, IdList, NewState, Rec, Reply, StateList, abs_box};
use trial_outcomes::{ARRIVAL, ITEM};

/// An action for tests, over a world with one item and a teleporter that each command can use. A command with bit 0 of
/// its buttons set moves its player to [`ARRIVAL`], at rest; any other leaves it where it is. The item is taken where
/// it is free.
pub struct Errand;

/// The player at rest at the point of arrival.
fn player_at_arrival(me: &Rec) -> Rec
    ensures { result ≡ errands.player_at_arrival me.now }
{
    Rec {
        origin: ARRIVAL,
        vel: Vec3::ZERO,
        ..*me
    }
}

/// The player after its command.
fn player_after(me: &Rec, cmd: &Cmd) -> Rec
    ensures { result ≡ errands.player_after me.now (command_of cmd.now) }
{
    let there = if cmd.buttons % 2 == 1 {
        player_at_arrival(me)
    } else {
        *me
    };
    Rec {
        seq: cmd.seq,
        ..there
    }
}

/// The item's new state, where it is taken in this frame.
fn new_states(free: bool, frame: u32) -> StateList
    ensures { result ≡ errands.new_states free frame }
{
    let mut states = StateList::new();
    if free {
        states.push(NewState {
            id: ITEM.id,
            state: u64::from(frame) + 1,
        });
    }
    states
}

/// The item's id, where it is taken.
fn ids_got(free: bool) -> IdList
    ensures { result ≡ errands.ids_got free }
{
    let mut got = IdList::new();
    if free {
        got.push(ITEM.id);
    }
    got
}

/// Whether the item is among the records and free.
fn has_free_item(near: &[Rec]) -> bool
    ensures { result ≡ list_any errands.is_free_item near.now }
{
    near.iter().any(|r| r.id == ITEM.id && r.state == 0)
}

impl Action for Errand {
    ghost use Rattle.trial_outcomes.specs.Errand as errands;
    ghost use Rattle.trial_outcomes.proofs.ErrandLaws as laws;

    ghost meaning = { λ a. errands.meaning };

    fn region(&self, me: &Rec, cmd: &Cmd) -> Region {
        let _ = cmd;
        let mut region = Region::one(abs_box(me));
        region.push(abs_box(&player_at_arrival(me)));
        region.push(abs_box(&ITEM));
        region
    }

    fn act(&self, me: &Rec, near: &[Rec], cmd: &Cmd) -> Effect {
        let free = has_free_item(near);
        let me = player_after(me, cmd);
        Effect {
            me,
            states: new_states(free, cmd.frame),
            reply: Reply {
                origin: me.origin,
                got: ids_got(free),
            },
        }
    }

    ghost validity = { λ a. laws.errand_is_valid };

    ghost locality = { λ a. laws.errand_is_local };

    ghost footprint = { λ a. laws.errand_stays_within };
}
