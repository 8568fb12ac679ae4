ghost use Rattle.std.specs.Prelude.{◌≡◌, ◌↔◌, ◌+◌, ◌≤◌, ◌<◌, length, map, nat_eq, Option};
ghost use Rattle.std.specs.Prelude.{Some, None, Err, true, All, IfOk, IfSome, OnOk, OnErr, is_some};
ghost use Rattle.std.specs.List.{IsDistinct};
ghost use Rattle.arena_geo.specs.Bounds.{bounds};
ghost use Rattle.areanode.specs.Trees.{IsTreeDepth};
ghost use Rattle.entity_recs.specs.Records.{IsRecord};
ghost use Rattle.entity_recs.specs.Kinds.{is_item};
ghost use Rattle.arena_map.specs.declared.limits.TheConstants.{MOST_THINGS};
ghost use Rattle.arena_map.specs.declared.map_fault.MapFault.{MapFault};
ghost use Rattle.arena_map.specs.declared.map_fault.MapRefusal.TheVariants.{Rule};
ghost use Rattle.arena_map.specs.Maps as maps;
ghost use Rattle.arena_map.specs.Maps.{IsMap, IsSpawn, IsDelay, IsLift, solids_of, entities_of, has_thing};
ghost use Rattle.arena_map.specs.MapLines as lines;
ghost use Rattle.arena_map.specs.MapLines.{IsWithinLimits, IsBlockLimit, is_arena, is_added};
ghost use Rattle.arena_map.specs.MapLines.{is_teleporter, is_lift};
ghost use Rattle.arena_map.specs.Rules.{broken_at_first, begun_map, broken_rule, with_line};

use crate::lift::Lift;
use crate::limits::{DEFAULT_BLOCKS, DEFAULT_DEPTH, MOST_BLOCKS};
use crate::map_fault::{MapFault, MapRefusal};
use crate::map_line::MapLine;
use crate::rules::is_wide;
use crate::settings::Settings;
use crate::things::{delay_in, dest_in, lift_data};
use arena_geo::{Aabb, Vec3};
use box_trace::{WALLS, arena_walls};
use entity_recs::{Rec, SLOTS};
use std::alloc::Global;
use std::marker::Model;

mod adding;

/// The id of the first thing.
const FIRST_THING: u16 = SLOTS as u16;

/// The settings of a map whose lines say nothing of them.
const NO_SETTINGS: Settings = Settings {
    depth: DEFAULT_DEPTH,
    names_depth: false,
    shots: false,
    most_blocks: DEFAULT_BLOCKS,
    names_blocks: false,
};

// The walls and the blocks are one list, so that a trace is handed a slice. Room for a thing is taken in all lists
// before anything is put, so a refusal of memory leaves the map as it was.
/// The map of an arena, made of its lines. It keeps the rules: each side of the arena is at least
/// [`LEAST_SIDE`](crate::LEAST_SIDE) long; each block has an inside and is inside the arena; a player at a spawn or at
/// a teleporter's destination is inside it, and so are each item, each teleporter, each goal and each lift on all its
/// way; no lift's way meets a block or another lift's; and there are no more of each than there may be.
#[derive(Drop)]
pub struct ArenaMap {
    bounds: Aabb,
    solids: Vec<Aabb>,
    spawns: Vec<Vec3>,
    things: Vec<MapLine>,
    entities: Vec<Rec>,
    shafts: Vec<Aabb>,
    settings: Settings,
}

// Clauses see the bounds, the blocks, the spawns, the lines of the things and the settings.
impl Model for ArenaMap {
    ghost use Rattle.std.specs.Prelude.{drop};
    ghost use Rattle.arena_map.specs.Maps.{MapView, map_of, IsKept};

    ghost Value = { MapView };

    ghost view = { λ m. map_of m.bounds (drop 6 m.solids.items) m.spawns.items m.things.items m.settings };

    ghost invariant = { λ m. IsKept m.bounds m.solids.items m.spawns.items m.things.items m.entities.items
        m.shafts.items m.settings };
}

impl ArenaMap {
    /// The map that the line of an arena begins, with nothing in it. `Rule` exactly where the line breaks a rule.
    pub fn new(alloc: Global, bounds: &MapLine) -> Result<ArenaMap, MapRefusal>
        requires arena { is_arena bounds.now ≡ true }
        requires limits { IsWithinLimits bounds.now }
        ensures map { IfOk result (λ map. Some map ≡ begun_map bounds.now) }
        ensures rules { IfOk result IsMap }
        ensures rule { (fault : MapFault) → (result ≡ Err (Rule fault)) ↔ (broken_at_first bounds.now ≡ Some fault) }
    {
        let MapLine::Arena { lo, hi } = *bounds else {
            unreachable!()
        };
        if !is_wide(lo, hi) {
            return Err(MapRefusal::Rule(MapFault::Arena));
        }
        let bounds = Aabb::from_corners(lo, hi);
        let mut solids = Vec::with_capacity(alloc, WALLS)?;
        solids.extend_from_slice(&arena_walls(&bounds))?;
        Ok(ArenaMap {
            bounds,
            solids,
            spawns: Vec::new(alloc),
            things: Vec::new(alloc),
            entities: Vec::new(alloc),
            shafts: Vec::new(alloc),
            settings: NO_SETTINGS,
        })
    }

    /// Adds a line, any but an arena's. `Rule` exactly where the line breaks that rule and none before it. The map is
    /// unchanged where the line isn't added.
    pub fn add(&mut self, l: &MapLine) -> Result<(), MapRefusal>
        requires no_arena { is_added l.now ≡ true }
        requires limits { IsWithinLimits l.now }
        ensures map { OnOk result (self.new ≡ with_line self.old l.now) }
        ensures unchanged { OnErr result (self.new ≡ self.old) }
        ensures rule { (fault : MapFault) → (result ≡ Err (Rule fault)) ↔ (broken_rule self.old l.now ≡ Some fault) }
    {
        match self.broken_rule(l) {
            Some(fault) => Err(MapRefusal::Rule(fault)),
            None => Ok(self.put(l)?),
        }
    }

    /// The arena's inside.
    pub fn bounds(&self) -> &Aabb
        ensures value { result.now ≡ self.now.bounds }
        ensures rules { IsMap self.now }
    {
        &self.bounds
    }

    /// Whether there is a spawn, so that a frame may come.
    pub fn ready(&self) -> bool
        ensures { result ≡ maps.is_ready self.now }
    {
        !self.spawns.is_empty()
    }

    /// The six walls, in the order low x, high x, low y, high y, low z, high z, and then the blocks in line order.
    pub fn solids(&self) -> &[Aabb]
        ensures value { result.now ≡ solids_of self.now }
        ensures few { length result.now ≤ WALLS + MOST_BLOCKS }
        ensures rules { IsMap self.now }
    {
        self.solids.as_slice()
    }

    /// The spawns in line order.
    pub fn spawns(&self) -> &[Vec3]
        ensures value { result.now ≡ self.now.spawns }
        ensures rules { IsMap self.now }
    {
        self.spawns.as_slice()
    }

    /// The depth of the tree of areanodes, 3 to 5: that of its leaves, where the root has depth 0. It is
    /// [`DEFAULT_DEPTH`] where no line names it.
    pub fn depth(&self) -> u8
        ensures value { result ≡ self.now.depth }
        ensures range { IsTreeDepth self.now.depth }
        ensures rules { IsMap self.now }
    {
        self.settings.depth
    }

    /// Whether players can shoot.
    pub fn shots(&self) -> bool
        ensures value { result ≡ self.now.shots }
        ensures rules { IsMap self.now }
    {
        self.settings.shots
    }

    /// The most blocks that the map may have, 1,024 to 4,096. It is [`DEFAULT_BLOCKS`] where no line says how many.
    pub fn most_blocks(&self) -> u16
        ensures value { result ≡ self.now.most_blocks }
        ensures range { IsBlockLimit self.now.most_blocks }
        ensures rules { IsMap self.now }
    {
        self.settings.most_blocks
    }

    /// The things of the map at the start, by id from 64 in the order of their lines.
    pub fn entities(&self) -> &[Rec]
        ensures value { result.now ≡ entities_of self.now }
        ensures few { length result.now ≤ MOST_THINGS }
        ensures records { All IsRecord result.now }
        ensures apart { IsDistinct nat_eq (map (λ r. r.id) result.now) }
        ensures rules { IsMap self.now }
    {
        self.entities.as_slice()
    }

    /// The line of the thing with this id.
    fn thing_of(&self, id: u16) -> Option<MapLine>
        ensures value { result ≡ maps.thing_of self.now id }
        ensures inside { IfSome result (maps.IsThingInside self.now.bounds) }
        ensures rules { IsMap self.now }
    {
        let things = self.things.as_slice();
        let place = id.checked_sub(FIRST_THING)?;
        things.get(usize::from(place)).copied()
    }

    /// The origin of players that this teleporter has moved, at which a player is inside the arena. `None` exactly
    /// where the id isn't a teleporter.
    pub fn dest_of(&self, id: u16) -> Option<Vec3>
        ensures some { is_some result ≡ has_thing is_teleporter self.now id }
        ensures value { result ≡ maps.dest_of self.now id }
        ensures stand { IfSome result (IsSpawn self.now.bounds) }
    {
        dest_in(&self.thing_of(id)?)
    }

    /// After how many frames this item returns, 1 to 65,535. `None` exactly where the id isn't an item.
    pub fn delay_of(&self, id: u16) -> Option<u16>
        ensures some { is_some result ≡ has_thing is_item self.now id }
        ensures value { result ≡ maps.delay_of self.now id }
        ensures delay { IfSome result IsDelay }
    {
        delay_in(&self.thing_of(id)?)
    }

    /// The data of this lift. `None` exactly where the id isn't a lift.
    pub fn lift_of(&self, id: u16) -> Option<Lift>
        ensures some { is_some result ≡ has_thing is_lift self.now id }
        ensures value { result ≡ maps.lift_of self.now id }
        ensures lift { IfSome result IsLift }
        ensures rules { IsMap self.now }
    {
        lift_data(&self.thing_of(id)?)
    }
}
