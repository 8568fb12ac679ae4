ghost use Rattle.std.specs.Prelude.{◌≡◌, ◌↔◌, None, true};
ghost use Rattle.entity_recs.specs.Records.{IsRecord};
ghost use Rattle.entity_recs.specs.Kinds.{is_item};
ghost use Rattle.item_rules.specs.Items as items;
ghost use Rattle.item_rules.specs.Items.{after_item, taken_state, IsLeft};

use entity_recs::{Kind, Rec};

/// The most ammunition that a player has.
pub const MOST_AMMO: u8 = 100;

/// How much ammunition one item gives.
pub const AMMO_OF_ITEM: u8 = 20;

/// The most gems that a player carries.
pub const MOST_GEMS: u8 = 8;

/// Whether the item is there, and the player has room for it.
fn may_take(me: &Rec, item: &Rec) -> bool
    ensures { result ≡ items.may_take me.now item.now }
{
    item.state == 0
        && match item.kind {
            Kind::Ammo => me.ammo < MOST_AMMO,
            Kind::Gem => me.carry < MOST_GEMS,
            Kind::Player | Kind::Teleporter | Kind::Goal | Kind::Lift => false,
        }
}

/// What a player that touches an item gets: ammunition, up to [`MOST_AMMO`] in all, or a gem. The answer is the item's
/// new state, the frame in which it returns, `delay` frames after this one. It is `None` exactly where the item is
/// away, or the player has [`MOST_AMMO`] or [`MOST_GEMS`] already; the player is then unchanged.
pub fn take_item(me: &mut Rec, item: &Rec, delay: u16, frame: u32) -> Option<u64>
    requires item { is_item item.now.kind ≡ true }
    requires record { IsRecord me.old }
    ensures state { result ≡ taken_state me.old item.now delay frame }
    ensures left { (result ≡ None) ↔ IsLeft me.old item.now }
    ensures player { me.new ≡ after_item me.old item.now }
    ensures record { IsRecord me.new }
{
    if !may_take(me, item) {
        return None;
    }
    match item.kind {
        Kind::Gem => me.carry += 1,
        _ => me.ammo = MOST_AMMO.min(me.ammo + AMMO_OF_ITEM),
    }
    Some(u64::from(frame) + u64::from(delay))
}
