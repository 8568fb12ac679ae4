ghost use Rattle.std.specs.Prelude.{◌≡◌, ℕ, ◌+◌, ◌*◌, ◌<◌, ◌≤◌, ◌==◌, if◌then◌else◌, [], map, nat_eq, replicate, All, IfOk, IsSome, None};
ghost use Rattle.std.specs.List.{find, IsDistinct};
ghost use Rattle.std.specs.Option.{option_map};
ghost use Rattle.areanode.specs.Trees.{IsTreeDepth, nodes_in, node_of};
ghost use Rattle.entity_recs.specs.Kinds.{is_solid};
ghost use Rattle.entity_recs.specs.Records.{IsRecord};
ghost use Rattle.entity_recs.specs.Bodies.{abs_of};
ghost use Rattle.link_lists.specs.Pool.{where_of};
ghost use Rattle.world_tree.specs.Live.{ids_of};
ghost use Rattle.world_tree.specs.Worlds as worlds;
ghost use Rattle.world_tree.specs.Worlds.{record_of, IsLinked};
ghost use Rattle.world_tree.specs.Queries.{near_in, touching_in, is_free, looks_for};

use crate::live_ids::LiveIds;
use crate::near_list::NearList;
use crate::steps::Steps;
use crate::walk::{
    box_at, gather, is_blocked_by_solids, record_at, touched_at, touched_triggers, unmark,
};
use areanode::Tree;
use arena_geo::{Aabb, Region};
use entity_recs::{IDS, Kind, Rec, abs_box};
use link_lists::Lists;
use std::alloc::{AllocError, Global};
use std::marker::Model;
use std::sync::ledger::Ledger;

// Each record's absolute box and the live ids in rising order are kept, so that no query computes them anew; only
// joins and leaves shift the list. Records are in vectors: an array of 512 in the value would be paid for at entry by
// each function that holds a world.
/// The live records, each linked in a list of the node of the areanode tree that its absolute box demands, as Quake's
/// `SV_LinkEdict` does: list i has the solids of node i, and the list [`Tree::nodes`] further on its triggers. Each live
/// id is in one list.
///
/// Records are found by id. Beside each record it keeps the absolute box, and of all records the ids in rising order, so
/// that no query computes them anew. Only `new` takes memory.
#[derive(Drop)]
pub struct World {
    tree: Tree,
    records: Vec<Option<Rec>>,
    boxes: Vec<Option<Aabb>>,
    live: LiveIds,
    lists: Lists,
}

// Clauses see the tree, the record at the place of each id, and the ids of each list in order.
impl Model for World {
    ghost use Rattle.world_tree.specs.Worlds.{WorldView, IsKept, world_of};

    ghost Value = { WorldView };

    ghost view = { λ w. world_of w.tree w.records.items w.lists };

    ghost invariant = { λ w. IsKept (world_of w.tree w.records.items w.lists) w.boxes.items w.live };
}

/// The list in which a record of this kind with this absolute box is linked.
fn list_for(tree: &Tree, kind: Kind, abs: &Aabb) -> u8
    ensures list { result ≡ (if is_solid kind then node_of tree.now abs.now else nodes_in tree.now.depth + node_of tree.now abs.now) }
    ensures in_range { result < 2 * nodes_in tree.now.depth }
{
    let node = tree.node_of(abs);
    if kind.is_solid() {
        node
    } else {
        tree.nodes() + node
    }
}

/// So many places without a record.
fn no_records(alloc: Global, places: usize) -> Result<Vec<Option<Rec>>, AllocError>
    ensures { IfOk result (λ records. records.items ≡ replicate places None) }
{
    vec![in alloc; None; places]
}

/// So many places without a box.
fn no_boxes(alloc: Global, places: usize) -> Result<Vec<Option<Aabb>>, AllocError>
    ensures { IfOk result (λ boxes. boxes.items ≡ replicate places None) }
{
    vec![in alloc; None; places]
}

impl World {
    /// The world over these bounds, with a tree of this depth, in which no id is live. It takes all memory that the world
    /// ever needs.
    fn empty(alloc: Global, bounds: &Aabb, depth: u8) -> Result<World, AllocError>
        requires { IsTreeDepth depth }
        ensures made { IfOk result (λ w. w ≡ worlds.empty_world bounds.now depth) }
        ensures linked { IfOk result IsLinked }
    {
        let tree = Tree::new(bounds, depth);
        Ok(World {
            tree,
            records: no_records(alloc, IDS)?,
            boxes: no_boxes(alloc, IDS)?,
            live: LiveIds::new(alloc)?,
            lists: Lists::new(alloc, IDS as u16, 2 * tree.nodes())?,
        })
    }

    /// The world over these bounds, with a tree of this depth and these records, put in one after another. The only
    /// error is that memory is refused, however many records there are.
    pub fn new(alloc: Global, bounds: &Aabb, depth: u8, start: &[Rec]) -> Result<World, AllocError>
        requires depth { IsTreeDepth depth }
        requires records { All IsRecord start.now }
        requires apart { IsDistinct nat_eq (map (λ r. r.id) start.now) }
        ensures made { IfOk result (λ w. w ≡ worlds.with_records (worlds.empty_world bounds.now depth) start.now) }
        ensures records { IfOk result (λ w. (id : ℕ) → record_of w id ≡ find (λ r. r.id == id) start.now) }
        ensures tree { IfOk result (λ w. w.tree ≡ (worlds.empty_world bounds.now depth).tree) }
        ensures linked { IfOk result IsLinked }
    {
        let mut world = World::empty(alloc, bounds, depth)?;
        for r in start {
            world.add(*r);
        }
        Ok(world)
    }

    /// Puts in a record whose id isn't live, and links it: the id goes first in its list, where Quake's `SV_LinkEdict`
    /// puts it last.
    pub fn add(&mut self, r: Rec)
        requires record { IsRecord r }
        requires not_live { record_of self.old r.id ≡ None }
        ensures world { self.new ≡ worlds.with_record self.old r }
        ensures linked { IsLinked self.new }
    {
        let place = usize::from(r.id);
        let abs = abs_box(&r);
        self.live.put(r.id);
        self.lists.insert(list_for(&self.tree, r.kind, &abs), r.id);
        self.boxes[place] = Some(abs);
        self.records[place] = Some(r);
    }

    /// Takes out the record with a live id, and unlinks the id.
    pub fn remove(&mut self, id: u16)
        requires { IsSome (record_of self.old id) }
        ensures world { self.new ≡ worlds.without_id self.old id }
        ensures linked { IsLinked self.new }
    {
        let place = usize::from(id);
        self.live.take_out(id);
        self.lists.remove(id);
        self.boxes[place] = None;
        self.records[place] = None;
    }

    /// Puts a record in place of the one with its id, which is live, and links it anew.
    pub fn relink(&mut self, r: Rec)
        requires record { IsRecord r }
        requires live { IsSome (record_of self.old r.id) }
        ensures world { self.new ≡ worlds.with_record (worlds.without_id self.old r.id) r }
        ensures linked { IsLinked self.new }
    {
        let place = usize::from(r.id);
        let moved = abs_box(&r);
        self.lists.remove(r.id);
        self.lists
            .insert(list_for(&self.tree, r.kind, &moved), r.id);
        self.boxes[place] = Some(moved);
        self.records[place] = Some(r);
    }

    /// The record with this id, and `None` exactly where the id isn't live.
    pub fn get(&self, id: u16) -> Option<Rec>
        ensures record { result ≡ record_of self.now id }
        ensures linked { IsLinked self.now }
    {
        record_at(&self.records, id)
    }

    /// The absolute box of the record with this id, and `None` exactly where the id isn't live.
    pub fn abs_box(&self, id: u16) -> Option<Aabb>
        ensures value { result ≡ option_map abs_of (record_of self.now id) }
        ensures linked { IsLinked self.now }
    {
        box_at(&self.boxes, id)
    }

    /// The live ids in rising order.
    pub fn live_ids(&self) -> &[u16]
        ensures ids { result.now ≡ ids_of self.now.records }
        ensures linked { IsLinked self.now }
    {
        self.live.as_slice()
    }

    /// The list that the id is linked in: the number of its node for a solid, and [`Tree::nodes`] more for a trigger.
    /// `None` exactly where the id isn't live.
    pub fn list_of(&self, id: u16) -> Option<u8>
        ensures list { result ≡ where_of self.now.lists id }
        ensures own { result ≡ option_map (worlds.list_for self.now.tree) (record_of self.now id) }
        ensures linked { IsLinked self.now }
    {
        self.lists.where_is(id)
    }

    /// The tree at whose nodes the records are linked.
    pub fn tree(&self) -> &Tree
        ensures tree { result.now ≡ self.now.tree }
        ensures linked { IsLinked self.now }
    {
        &self.tree
    }

    /// Makes this world as the other, which has the same tree, the order of its lists too.
    pub fn copy_from(&mut self, o: &World)
        requires { self.old.tree ≡ o.now.tree }
        ensures world { self.new ≡ o.now }
        ensures linked { IsLinked self.new }
    {
        self.records.copy_from_slice(&o.records);
        self.boxes.copy_from_slice(&o.boxes);
        self.live.copy_from(&o.live);
        self.lists.copy_from(&o.lists);
    }

    // Found ids are marked and gathered in rising id, so no sort is needed, and the proof goes id by id.
    /// Puts into the empty list, which has room for all records, the live records other than `except` whose absolute
    /// boxes touch the region, in rising id. It looks at those that are linked at the nodes visited for the region's
    /// leaves.
    pub fn near(&self, r: &Region, except: u16, out: &mut NearList)
        requires empty { out.old.items ≡ [] }
        requires room { IDS ≤ out.old.room }
        ensures records { out.new ≡ record out.old { items = near_in self.now.records r.now except } }
        ensures linked { IsLinked self.now }
    {
        let nodes = self.tree.visited_nodes(self.tree.leaves_of(r));
        let mut marks = touched_at(&self.lists, &self.boxes, r, nodes, self.tree.nodes());
        unmark(&mut marks, except);
        gather(&self.records, &marks, out);
    }

    // The looks are counted exactly, by the kit's ledger: with 'at most' a body that counts nothing would pass.
    /// Puts into the empty list, which has room for all records, the live triggers whose absolute boxes touch `abs`, in
    /// rising id, as Quake's `SV_TouchLinks`. A look is one node entered or one link followed, and each is counted: one
    /// for each node visited for the leaves of `abs`, and one for each trigger that is linked there.
    pub fn touching<L: Ledger>(&self, abs: &Aabb, out: &mut NearList, steps: &mut Steps<L>)
        requires empty { out.old.items ≡ [] }
        requires room { IDS ≤ out.old.room }
        ensures records { out.new ≡ record out.old { items = touching_in self.now.records abs.now } }
        ensures looks { steps.new ≡ steps.old + looks_for self.now abs.now }
        ensures linked { IsLinked self.now }
    {
        let region = Region::one(*abs);
        let nodes = self.tree.visited_nodes(self.tree.leaves_of(&region));
        let count = self.tree.nodes();
        let marks = touched_triggers(&self.lists, &self.boxes, &region, nodes, count, steps);
        gather(&self.records, &marks, out);
    }

    /// Whether no box of `fixed` and no body of a live solid other than `except` overlaps `body`.
    pub fn free(&self, body: &Aabb, fixed: &[Aabb], except: u16) -> bool
        ensures free { result ≡ is_free self.now.records body.now fixed.now except }
        ensures linked { IsLinked self.now }
    {
        // The live solids first: they are few, and stand where players want to join.
        !is_blocked_by_solids(&self.records, body, except) && !body.is_blocked(fixed)
    }
}
