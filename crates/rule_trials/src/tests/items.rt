ghost use Rattle.std.specs.Prelude.{◌≡◌, ◌≤◌};
ghost use Rattle.entity_recs.specs.Records.{IsRecord};

use arena_geo::Vec3;
use entity_recs::{ITEM_MAXS, ITEM_MINS, Kind, PLAYER_MAXS, PLAYER_MINS, Rec};
use item_rules::take_item;
use std::test::Fail;

/// A player at the middle, with this much.
fn player(ammo: u8, carry: u8) -> Rec
    requires ammo { ammo ≤ 100 }
    requires carry { carry ≤ 8 }
    ensures { IsRecord result }
{
    Rec {
        id: 5,
        kind: Kind::Player,
        origin: Vec3::ZERO,
        mins: PLAYER_MINS,
        maxs: PLAYER_MAXS,
        vel: Vec3::ZERO,
        flags: 1,
        ammo,
        carry,
        score: 3,
        seq: 9,
        state: 0,
    }
}

/// An item of this kind in this state.
fn item(kind: Kind, state: u64) -> Rec
    ensures { result.kind ≡ kind }
{
    Rec {
        id: 70,
        kind,
        origin: Vec3::ZERO,
        mins: ITEM_MINS,
        maxs: ITEM_MAXS,
        vel: Vec3::ZERO,
        flags: 0,
        ammo: 0,
        carry: 0,
        score: 0,
        seq: 0,
        state,
    }
}

#[test]
fn ammunition_goes_up_to_100(rt: HostRuntime) -> Result<(), Fail> {
    let ammo = item(Kind::Ammo, 0);
    let mut me = player(0, 8);
    assert_eq!(rt; take_item(&mut me, &ammo, 60, 7), Some(67));
    assert_eq!(rt; me, player(20, 8));
    let mut me = player(81, 0);
    assert_eq!(rt;
        take_item(&mut me, &ammo, 65_535, u32::MAX),
        Some(4_295_032_830)
    );
    assert_eq!(rt; me, player(100, 0));
    assert_eq!(rt; take_item(&mut me, &ammo, 60, 7), None);
    assert_eq!(rt; me, player(100, 0));
    Ok(())
}

#[test]
fn a_player_carries_up_to_8_gems(rt: HostRuntime) -> Result<(), Fail> {
    let gem = item(Kind::Gem, 0);
    let mut me = player(100, 7);
    assert_eq!(rt; take_item(&mut me, &gem, 1, 0), Some(1));
    assert_eq!(rt; me, player(100, 8));
    assert_eq!(rt; take_item(&mut me, &gem, 1, 0), None);
    let away = item(Kind::Gem, 12);
    let mut me = player(0, 0);
    assert_eq!(rt; take_item(&mut me, &away, 1, 11), None);
    assert_eq!(rt; me, player(0, 0));
    Ok(())
}
