ghost use Rattle.std.specs.Prelude.{◌≡◌, nat_lt};
ghost use Rattle.arena_geo.specs.Vectors as vectors;
ghost use Rattle.trial_outcomes.specs.Staying as staying;
ghost use Rattle.trial_outcomes.specs.Errand as errands;

use arena_geo::Vec3;
use entity_recs::{ITEM_MAXS, ITEM_MINS, Kind, PLAYER_MAXS, PLAYER_MINS, Rec};
use trial_outcomes::ITEM;

/// Whether each part is at most `far` from 0.
fn is_near(v: &Vec3, far: u32) -> bool
    ensures { result ≡ vectors.is_near far v.now }
{
    v.x.unsigned_abs() <= far && v.y.unsigned_abs() <= far && v.z.unsigned_abs() <= far
}

/// Whether the number is below 2^32, as each is.
fn is_word(n: u32) -> bool
    ensures { result ≡ nat_lt n 4294967296 }
{
    u64::from(n) < 1 << 32
}

/// Whether the record is that of a player within its bounds.
fn is_player(r: &Rec) -> bool
    ensures { result ≡ staying.is_player r.now }
{
    r.id < 64
        && is_near(&r.origin, 1_048_576)
        && is_near(&r.vel, 512_000)
        && r.mins == PLAYER_MINS
        && r.maxs == PLAYER_MAXS
        && r.flags <= 3
        && r.ammo <= 100
        && r.carry <= 8
        && is_word(r.score)
}

/// Whether the record has the item's id, place and shape.
fn is_placed(r: &Rec) -> bool
    ensures { result ≡ errands.is_placed r.now }
{
    r.id == ITEM.id && r.origin == ITEM.origin && r.mins == ITEM_MINS && r.maxs == ITEM_MAXS
}

/// Whether the record is that of the item, in whatever state.
fn is_the_item(r: &Rec) -> bool
    ensures { result ≡ errands.is_the_item r.now }
{
    is_placed(r)
        && is_near(&r.vel, 512_000)
        && r.flags <= 3
        && r.ammo <= 100
        && r.carry <= 8
        && is_word(r.score)
}

/// Whether the action takes the record: it is a player within its bounds, or the item.
pub fn is_taken(r: &Rec) -> bool
    ensures { result ≡ errands.takes r.now }
{
    match r.kind {
        Kind::Player => is_player(r) && is_word(r.seq),
        Kind::Gem => is_the_item(r) && is_word(r.seq),
        Kind::Ammo | Kind::Teleporter | Kind::Goal | Kind::Lift => false,
    }
}
