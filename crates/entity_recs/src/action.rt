ghost use Rattle.std.specs.Prelude.{◌≡◌};
ghost use Rattle.entity_recs.specs.Commands.{command_of};
ghost use Rattle.entity_recs.specs.Actions.{Meaning, IsCall, HasPlayer, HasValidity, HasLocality, HasFootprint};

use crate::cmd::Cmd;
use crate::effect::Effect;
use crate::rec::Rec;
use arena_geo::Region;

/// What a move does, with the region outside of which it reads and writes nothing.
///
/// Each implementation names the records that it takes, whatever their state. Over such records it keeps three laws.
/// Validity: the records that a move changes are again records that it takes. Locality: the effect over all live
/// records is the effect over those whose absolute box touches the region. Footprint: the player's record and each
/// record whose state the effect lists lie, before and after, inside a box of the region, and nothing else changes.
pub trait Action: Send + Sync {
    /// Which records it takes, the boxes in which a move may read and write, and what a move does.
    ghost meaning: { Self → Meaning };

    /// The region of a command of this player.
    fn region(&self, me: &Rec, cmd: &Cmd) -> Region
        requires { HasPlayer (meaning self.now).takes me.now (command_of cmd.now) }
        ensures { result ≡ (meaning self.now).region_of me.now (command_of cmd.now) };

    /// What a command of this player does among other live records, in rising id.
    fn act(&self, me: &Rec, near: &[Rec], cmd: &Cmd) -> Effect
        requires { IsCall (meaning self.now).takes me.now near.now (command_of cmd.now) }
        ensures { result ≡ (meaning self.now).effect_of me.now near.now (command_of cmd.now) };

    ghost validity: { (a : Self) → HasValidity (meaning a).takes (meaning a).effect_of };

    ghost locality: { (a : Self) → HasLocality (meaning a).takes (meaning a).region_of (meaning a).effect_of };

    ghost footprint: { (a : Self) → HasFootprint (meaning a).takes (meaning a).region_of (meaning a).effect_of };
}
