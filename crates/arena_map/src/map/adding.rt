ghost use Rattle.arena_geo.specs.declared.aabb.TheConstants.{FARTHEST};
ghost use Rattle.std.specs.Prelude.{◌≡◌, ◌+◌, ◌<◌, count_by, map, Option};
ghost use Rattle.std.specs.Prelude.{Some, None, true, OnOk, OnErr};
ghost use Rattle.arena_geo.specs.Vectors.{IsNear};
ghost use Rattle.arena_geo.specs.Bounds.{bounds};
ghost use Rattle.areanode.specs.Trees.{IsTreeDepth};
ghost use Rattle.entity_recs.specs.Kinds.{is_item};
ghost use Rattle.arena_map.specs.declared.map_fault.MapFault.{MapFault};
ghost use Rattle.arena_map.specs.declared.map_fault.MapRefusal.TheVariants.{Rule};
ghost use Rattle.arena_map.specs.declared.map_line.MapLine.TheVariants.{Block, Spawn, Depth, Shots, Blocks};
ghost use Rattle.arena_map.specs.Positions as places;
ghost use Rattle.arena_map.specs.Maps as maps;
ghost use Rattle.arena_map.specs.MapLines as lines;
ghost use Rattle.arena_map.specs.MapLines.{IsWithinLimits, IsBlockLimit, is_added, is_thing_line};
ghost use Rattle.arena_map.specs.MapLines.{is_teleporter};
ghost use Rattle.arena_map.specs.Rules as rules;
ghost use Rattle.arena_map.specs.Rules.{broken_rule, with_line, with_thing};

use crate::limits::{MOST_BOXES, MOST_ITEMS, MOST_SPAWNS};
use crate::map::{ArenaMap, FIRST_THING};
use crate::map_fault::MapFault;
use crate::map_line::MapLine;
use crate::rules::{box_between, keeps_box, keeps_item, keeps_stand, keeps_travel, shaft};
use crate::things::{push_shaft, record_of};
use arena_geo::{Aabb, Vec3};
use box_trace::WALLS;
use std::alloc::AllocError;

impl ArenaMap {
    /// The first rule that a line breaks.
    pub(super) fn broken_rule(&self, l: &MapLine) -> Option<MapFault>
        requires { IsWithinLimits l.now }
        ensures { result ≡ broken_rule self.now l.now }
    {
        if !keeps_box(&self.bounds, l) {
            Some(MapFault::Box)
        } else if !self.keeps_count(l) {
            Some(MapFault::Count)
        } else if !keeps_stand(&self.bounds, l) {
            Some(MapFault::Stand)
        } else if !keeps_item(&self.bounds, l) {
            Some(MapFault::Item)
        } else if !keeps_travel(&self.bounds, l) {
            Some(MapFault::Travel)
        } else if !self.keeps_shafts(l) {
            Some(MapFault::Shaft)
        } else {
            None
        }
    }

    /// Rule 3: there is room for one more of the line's kind.
    fn keeps_count(&self, l: &MapLine) -> bool
        ensures { result ≡ rules.keeps_count self.now l.now }
    {
        match l {
            MapLine::Arena { .. } => true,
            MapLine::Block { .. } => self.blocks().len() < usize::from(self.settings.most_blocks),
            MapLine::Spawn { .. } => self.spawns.len() < MOST_SPAWNS,
            MapLine::Item { .. } => self.items() < MOST_ITEMS,
            MapLine::Teleport { .. } => self.teleporters() < MOST_BOXES,
            MapLine::Goal { .. } => self.goals() < MOST_BOXES,
            MapLine::Lift { .. } => self.shafts.len() < MOST_BOXES,
            MapLine::Depth(_) => !self.settings.names_depth,
            MapLine::Shots => !self.settings.shots,
            MapLine::Blocks(_) => !self.settings.names_blocks && self.blocks().is_empty(),
        }
    }

    /// How many items there are.
    fn items(&self) -> usize
        ensures { result ≡ count_by lines.is_item_line self.now.things }
    {
        let is_item = |line: &&MapLine| matches!(line, MapLine::Item { .. });
        self.things.iter().filter(is_item).count()
    }

    /// How many teleporters there are.
    fn teleporters(&self) -> usize
        ensures { result ≡ count_by lines.is_teleport_line self.now.things }
    {
        let is_teleporter = |line: &&MapLine| matches!(line, MapLine::Teleport { .. });
        self.things.iter().filter(is_teleporter).count()
    }

    /// How many goals there are.
    fn goals(&self) -> usize
        ensures { result ≡ count_by lines.is_goal_line self.now.things }
    {
        let is_goal = |line: &&MapLine| matches!(line, MapLine::Goal { .. });
        self.things.iter().filter(is_goal).count()
    }

    /// Rule 8: a block overlaps no earlier shaft, and a lift's shaft no earlier block and no earlier shaft. The line
    /// keeps rule 2.
    fn keeps_shafts(&self, l: &MapLine) -> bool
        requires limits { IsWithinLimits l.now }
        requires inside { places.keeps_box self.now.bounds l.now ≡ true }
        ensures { result ≡ rules.keeps_shafts self.now l.now }
    {
        match *l {
            MapLine::Block { lo, hi } => !self.meets_shaft(&box_between(lo, hi)),
            MapLine::Lift { lo, hi, rise, .. } => {
                let own = shaft(lo, hi, rise);
                !own.is_blocked(self.blocks()) && !self.meets_shaft(&own)
            }
            _ => true,
        }
    }

    /// Whether the shaft of an earlier lift overlaps the box.
    fn meets_shaft(&self, own: &Aabb) -> bool
        ensures { result ≡ rules.meets_shaft (maps.shafts_of self.now) own.now }
    {
        self.shafts.iter().any(|shaft| shaft.overlaps(own))
    }

    /// The blocks in line order.
    fn blocks(&self) -> &[Aabb]
        ensures { result.now ≡ self.now.blocks }
    {
        &self.solids[WALLS..]
    }

    /// Puts what a line gives to the rest. The line breaks no rule.
    pub(super) fn put(&mut self, l: &MapLine) -> Result<(), AllocError>
        requires no_arena { is_added l.now ≡ true }
        requires limits { IsWithinLimits l.now }
        requires kept { broken_rule self.old l.now ≡ None }
        ensures map { OnOk result (self.new ≡ with_line self.old l.now) }
        ensures unchanged { OnErr result (self.new ≡ self.old) }
    {
        match *l {
            MapLine::Arena { .. } => unreachable!(),
            MapLine::Block { lo, hi } => self.put_block(lo, hi),
            MapLine::Spawn { at } => self.put_spawn(at),
            MapLine::Item { .. }
            | MapLine::Teleport { .. }
            | MapLine::Goal { .. }
            | MapLine::Lift { .. } => self.put_thing(l),
            MapLine::Depth(depth) => {
                self.put_depth(depth);
                Ok(())
            }
            MapLine::Shots => {
                self.put_shots();
                Ok(())
            }
            MapLine::Blocks(most) => {
                self.put_limit(most);
                Ok(())
            }
        }
    }

    /// Puts a block to the others.
    fn put_block(&mut self, lo: Vec3, hi: Vec3) -> Result<(), AllocError>
        requires lo { IsNear FARTHEST lo }
        requires hi { IsNear FARTHEST hi }
        requires kept { broken_rule self.old (Block lo hi) ≡ None }
        ensures map { OnOk result (self.new ≡ rules.with_block self.old (bounds lo hi)) }
        ensures unchanged { OnErr result (self.new ≡ self.old) }
    {
        self.solids.push(box_between(lo, hi))?;
        Ok(())
    }

    /// Puts a spawn to the others.
    fn put_spawn(&mut self, at: Vec3) -> Result<(), AllocError>
        requires near { IsNear FARTHEST at }
        requires kept { broken_rule self.old (Spawn at) ≡ None }
        ensures map { OnOk result (self.new ≡ rules.with_spawn self.old at) }
        ensures unchanged { OnErr result (self.new ≡ self.old) }
    {
        self.spawns.push(at)?;
        Ok(())
    }

    /// Puts a thing to the others, with the next id.
    fn put_thing(&mut self, l: &MapLine) -> Result<(), AllocError>
        requires thing { is_thing_line l.now ≡ true }
        requires limits { IsWithinLimits l.now }
        requires kept { broken_rule self.old l.now ≡ None }
        ensures map { OnOk result (self.new ≡ with_thing self.old l.now) }
        ensures unchanged { OnErr result (self.new ≡ self.old) }
    {
        self.things.reserve(1)?;
        self.entities.reserve(1)?;
        self.shafts.reserve(1)?;
        let id = FIRST_THING + self.things.len() as u16;
        self.entities.push_reserved(record_of(id, l));
        push_shaft(&mut self.shafts, l);
        self.things.push_reserved(*l);
        Ok(())
    }

    /// Sets the depth that a line names.
    fn put_depth(&mut self, depth: u8)
        requires limits { IsTreeDepth depth }
        requires kept { broken_rule self.old (Depth depth) ≡ None }
        ensures { self.new ≡ rules.with_depth self.old depth }
    {
        self.settings.depth = depth;
        self.settings.names_depth = true;
    }

    /// Lets players shoot.
    fn put_shots(&mut self)
        requires { broken_rule self.old Shots ≡ None }
        ensures { self.new ≡ rules.with_shots self.old }
    {
        self.settings.shots = true;
    }

    /// Sets how many blocks there may be.
    fn put_limit(&mut self, most: u16)
        requires limits { IsBlockLimit most }
        requires kept { broken_rule self.old (Blocks most) ≡ None }
        ensures { self.new ≡ rules.with_limit self.old most }
    {
        self.settings.most_blocks = most;
        self.settings.names_blocks = true;
    }
}
