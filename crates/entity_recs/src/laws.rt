ghost use Rattle.entity_recs.specs.Laws.{RecordsHaveBoxes, AbsIgnoresState, AbsContainsBody, SizesAreKnown};
ghost use Rattle.entity_recs.specs.Laws.{BoxesAreKnown};
ghost use Rattle.entity_recs.specs.Moves.{OthersAreKnown, EffectsChangeWhatIsListed, MovesSeeAllOthers};
ghost use Rattle.entity_recs.specs.Touches.{TouchesAreKnown};
ghost use Rattle.std.specs.Prelude.{◌≡◌, Ok};

use crate::rec::Rec;
use std::alloc::AllocError;

/// The body and the absolute box of a record within its bounds are boxes: ordered on every axis, and in range.
pub fn records_have_boxes()
    ensures { RecordsHaveBoxes }
{}

/// The absolute box of a record is the same whatever its state.
pub fn abs_ignores_state()
    ensures { AbsIgnoresState }
{}

/// The absolute box of a record contains its body.
pub fn abs_contains_body()
    ensures { AbsContainsBody }
{}

/// The constants of bodies and of absolute boxes: `PLAYER_MINS` is (-4096, -4096, -6144) and `PLAYER_MAXS` (4096, 4096,
/// 8192), `ITEM_MINS` is (0, 0, 0) and `ITEM_MAXS` (8192, 8192, 14336), and the two growths are (3840, 3840, 0) and (256,
/// 256, 256). There are 64 slots, `SLOTS`, and 512 ids, `IDS`.
pub fn sizes_are_known()
    ensures { SizesAreKnown }
{}

/// An item's absolute box is larger than its body by 3,840 on x and y alone, every other one by 256 on all axes. Where a
/// record is within its bounds, a player's body reaches from (-4096, -4096, -6144) to (4096, 4096, 8192), seen from its
/// origin, an item's from (0, 0, 0) to (8192, 8192, 14336), and another one's from (0, 0, 0) to the high corner.
pub fn boxes_are_known()
    ensures { BoxesAreKnown }
{}

/// The others of an id in a world (`others_of`) are the records of all other live ids and no others. Where the live ids
/// rise and each live record has its own id, they are in rising id.
pub fn others_are_known()
    ensures { OthersAreKnown }
{}

/// An effect changes the record of its player, which is then the effect's `me`, and the states that it lists: the record of
/// another listed id differs in its state alone, which is the one that is listed first. The same ids are live, and each
/// other record is as it was.
pub fn effects_change_what_is_listed()
    ensures { EffectsChangeWhatIsListed }
{}

/// What a command does is what the action makes of its player's record, the records of all other live ids in rising id,
/// and the command; the world after it has the change of this effect, and no other.
pub fn moves_see_all_others()
    ensures { MovesSeeAllOthers }
{}

/// A player within its bounds touches (`is_touched`) exactly these records: ammunition and gems with a body that comes as
/// near to its origin as 8,192 on x and y, 6,400 below and 8,448 above; and teleporters and goals with one that comes as
/// near as 4,608 on x and y, 6,656 below and 8,704 above.
pub fn touches_are_known()
    ensures { TouchesAreKnown }
{}

/// A clone of a record is that record, and making it can't fail.
pub fn clones_are_the_records(r: &Rec) -> Result<Rec, AllocError>
    ensures { result ≡ Ok r.now }
{
    r.clone()
}
