ghost use Rattle.std.specs.Prelude.{◌≡◌, IfSome};
ghost use Rattle.entity_recs.specs.Records.{IsRecord};
ghost use Rattle.arena_actions.specs.Leaps as specs;
ghost use Rattle.arena_actions.specs.Leaps.{IsNearLeap};

use arena_geo::{Aabb, Vec3};
use arena_map::ArenaMap;
use entity_recs::{Rec, abs_box};
use std::marker::Model;

/// The most teleporters that a map has.
const MOST_LEAPS: usize = 16;

/// What a teleporter does: it moves a player whose absolute box touches its own to a place.
#[derive(Clone, Copy)]
pub struct Leap {
    /// The absolute box of the teleporter.
    pub from: Aabb,
    /// Where it moves players.
    pub to: Vec3,
}

/// The teleporters of a map, in rising id.
#[derive(Drop)]
pub struct Leaps {
    leaps: [Leap; MOST_LEAPS],
    len: usize,
}

impl Model for Leaps {
    ghost use Rattle.std.specs.Prelude.{List, take, length, All, ◌≤◌, ◌≡◌};
    ghost use Rattle.arena_actions.specs.declared.leaps.Leap.{Leap};
    ghost use Rattle.arena_actions.specs.Leaps.{IsNearLeap};

    ghost Value = { List Leap };

    ghost view = { λ l. take l.len l.leaps };

    ghost invariant = { λ l. All IsNearLeap (take l.len l.leaps) × (l.len ≤ 16) × (length l.leaps ≡ 16) };
}

/// The leap of a thing of the map, if it is a teleporter.
fn leap_of(map: &ArenaMap, thing: &Rec) -> Option<Leap>
    requires { IsRecord thing.now }
    ensures value { result ≡ specs.leap_of map.now thing.now }
    ensures near { IfSome result IsNearLeap }
{
    let to = map.dest_of(thing.id)?;
    Some(Leap {
        from: abs_box(thing),
        to,
    })
}

impl Leaps {
    ghost use Rattle.std.specs.Prelude.{◌≡◌, ◌<◌, ◌≤◌, [], ◌++◌, length, All, IfSome, IsSome};
    ghost use Rattle.std.specs.List.{cons_option};
    ghost use Rattle.arena_actions.specs.Leaps.{IsNearLeap, leaps_of};

    /// The teleporters of a map.
    pub fn of(map: &ArenaMap) -> Leaps
        ensures { result ≡ leaps_of map.now }
    {
        let nowhere = Leap {
            from: *map.bounds(),
            to: Vec3::ZERO,
        };
        let mut leaps = Leaps {
            leaps: [nowhere; MOST_LEAPS],
            len: 0,
        };
        for thing in map.entities() {
            leaps.push(leap_of(map, thing));
        }
        leaps
    }

    /// Puts a leap last, if there is one. There is room for it.
    fn push(&mut self, leap: Option<Leap>)
        requires near { IfSome leap IsNearLeap }
        requires room { IsSome leap → length self.old < 16 }
        ensures { self.new ≡ self.old ++ cons_option leap [] }
    {
        if let Some(leap) = leap {
            self.leaps[self.len] = leap;
            self.len += 1;
        }
    }

    /// The leaps in rising id.
    pub fn as_slice(&self) -> &[Leap]
        ensures value { result.now ≡ self.now }
        ensures few { length result.now ≤ 16 }
        ensures near { All IsNearLeap result.now }
    {
        &self.leaps[..self.len]
    }
}
