ghost use Rattle.std.specs.Prelude.{◌≡◌};
ghost use Rattle.areanode.specs.Trees.{IsTreeDepth};

use crate::lists::{bits_below, inner_among, leaf_nodes, leaf_word, nodes_then};
use crate::near::{put_near, put_things};
use crate::near_kept::{count_players, player_bits};
use crate::queue::NodeQueue;
use crate::reading::read_record;
use crate::reads::PlayerRead;
use crate::records::find_record;
use crate::thing_bits::{ThingIndex, abs_boxes, area_of, index_of};
use areanode::Tree;
use arena_geo::{Aabb, Region};
use core_steps::NODE_HOLDERS;
use entity_recs::{Action, Cmd, Effect, NewState, Rec, abs_box};
use std::alloc::{AllocError, Global};
use std::marker::Model;
use world_tree::NearList;

/// What doesn't change while the seats make their steps: the action, the tree, and the records of the start.
#[derive(Drop)]
pub struct Rules<'a, A: Action> {
    action: &'a A,
    tree: Tree,
    /// The first leaf's node, which is also the number of inner nodes.
    first_leaf: u8,
    pub(crate) start: Vec<Rec>,
    /// The slots of the players that are live, a bit for each.
    pub(crate) players: u64,
    /// How many of the records are players'. The things of the map come after them.
    pub(crate) first_thing: usize,
    /// The absolute boxes of the things.
    pub(crate) boxes: Vec<Aabb>,
    /// A box in which all of them lie.
    pub(crate) area: Aabb,
    /// Where they lie in it.
    pub(crate) index: ThingIndex,
}

impl<'a, A: Action> Model for Rules<'a, A> {
    ghost use Rattle.core_seats.specs.Shown.{RulesView, fixed_of, IsRuledWith};

    ghost Value = { RulesView A };

    ghost view = { λ r. record { action = r.action.now; tree = r.tree; start = r.start.items } };

    ghost invariant = { λ r. IsRuledWith (fixed_of A.meaning
        (record { action = r.action.now; tree = r.tree; start = r.start.items }))
        r.start.items r.first_leaf r.players r.first_thing r.boxes.items r.area r.index };
}

impl<'a, A: Action> Rules<'a, A> {
    ghost use Rattle.std.specs.Prelude.{◌≡◌, ◌<◌, ◌≤◌, ◌+◌, ◌*◌, ◌%◌, ◌^◌, List, [], suc, map, length, All, IfOk};
    ghost use Rattle.std.specs.Prelude.{if◌then◌else◌, vec_capacity};
    ghost use Rattle.entity_recs.specs.declared.limits.TheConstants.{IDS};
    ghost use Rattle.entity_recs.specs.Actions.{HasPlayer, IsCall};
    ghost use Rattle.entity_recs.specs.Records.{IsRecord};
    ghost use Rattle.entity_recs.specs.Commands.{command_of};
    ghost use Rattle.core_steps.specs.Nodes.{is_leaf, inner_nodes, leaf_nodes, plan_of};
    ghost use Rattle.core_steps.specs.Reads.{region_in};
    ghost use Rattle.core_steps.specs.Nodes.{inner_of_two, home};
    ghost use Rattle.core_steps.specs.Reads.{things_in, record_read, near_loaded};
    ghost use Rattle.core_steps.specs.Held.{leaf_word};
    ghost use Rattle.core_steps.specs.Stands.{IsLawful, IsStart};
    ghost use Rattle.core_seats.specs.PlayerReads.{player_read_of};
    ghost use Rattle.areanode.specs.Trees.{leaves_of, visited_of, inner_in, leaves_in, nodes_in};
    ghost use Rattle.areanode.specs.declared.sizes.TheConstants.{MOST_LEAVES, MOST_NODES};
    ghost use Rattle.arena_geo.specs.Bounds.{Bounds};
    ghost use Rattle.core_seats.specs.Starts.{record_at};
    ghost use Rattle.core_seats.specs.Shown.{fixed_of, IsRuled};

    /// The rules of an action, a tree and the records of a start.
    pub fn new(
        alloc: Global,
        action: &'a A,
        tree: &Tree,
        start: &[Rec],
    ) -> Result<Rules<'a, A>, AllocError>
        requires { IsStart (fixed_of A.meaning
            (record { action = action.now; tree = tree.now; start = start.now })) }
        ensures { IfOk result (λ r. r ≡ record { action = action.now; tree = tree.now; start = start.now }) }
    {
        let first_leaf = tree.first_leaf();
        let first_thing = count_players(start);
        let boxes = abs_boxes(alloc, &start[first_thing..])?;
        let area = area_of(boxes.as_slice());
        let index = index_of(alloc, &area, boxes.as_slice())?;
        Ok(Rules {
            action,
            tree: *tree,
            first_leaf,
            start: Vec::from_slice(alloc, start)?,
            players: player_bits(start),
            first_thing,
            boxes,
            area,
            index,
        })
    }

    /// What the type keeps.
    pub fn is_ruled(&self)
        ensures { IsRuled (fixed_of A.meaning self.now) }
    {
        // To read a part of the rules is to know what their type keeps.
        let _start = &self.start;
    }

    /// The action is lawful.
    pub fn is_lawful(&self)
        ensures { IsLawful (fixed_of A.meaning self.now) }
    {
        // To read a part of the rules is to know what their type keeps.
        let _action = &self.action;
    }

    /// The record of this id at the start, if it is live.
    pub fn record(&self, id: u16) -> Option<Rec>
        ensures { result ≡ record_at self.now.start id }
    {
        find_record(self.start.as_slice(), id)
    }

    /// The depth of the tree.
    pub fn depth(&self) -> u8
        ensures value { result ≡ self.now.tree.depth }
        ensures range { IsTreeDepth self.now.tree.depth }
    {
        self.tree.depth()
    }

    /// How many records live at the start.
    pub fn count_records(&self) -> usize
        ensures value { result ≡ length (fixed_of A.meaning self.now).start.ids }
        ensures few { result ≤ IDS }
    {
        self.start.len()
    }

    /// The first leaf's node, which is also the number of inner nodes.
    pub fn first_leaf(&self) -> u8
        ensures value { result ≡ inner_nodes (fixed_of A.meaning self.now) }
        ensures few { result < MOST_LEAVES }
    {
        self.first_leaf
    }

    /// Whether the node is a leaf.
    pub fn is_leaf(&self, node: u8) -> bool
        ensures { result ≡ is_leaf (fixed_of A.meaning self.now) node }
    {
        node >= self.first_leaf
    }

    /// The region of a command whose own record was loaded so.
    pub fn region(&self, cmd: &Cmd, own: &[u64]) -> Region
        requires { HasPlayer ((A.meaning self.now.action).takes) (record_read cmd.now.slot own.now) (command_of cmd.now) }
        ensures { result ≡ region_in (fixed_of A.meaning self.now) (command_of cmd.now) own.now }
    {
        self.action.region(&read_record(cmd.slot, own), cmd)
    }

    /// The nodes of a region's leaves, rising.
    pub fn leaves(&self, region: &Region) -> NodeQueue
        ensures { result.items ≡ leaf_nodes (fixed_of A.meaning self.now) region.now }
    {
        leaf_nodes(self.first_leaf, u64::from(self.tree.leaves_of(region)))
    }

    /// The leaves of a region, bit i for leaf i, and the inner nodes that are visited for them, bit i for node i.
    pub fn node_bits(&self, region: &Region) -> (u32, u32)
        ensures leaves { result.0 ≡ leaves_of self.now.tree region.now }
        ensures inner { let depth = self.now.tree.depth in
            result.1 ≡ visited_of depth result.0 % 2 ^ inner_in depth }
    {
        let leaves = self.tree.leaves_of(region);
        (leaves, self.inner_bits(leaves))
    }

    /// The inner nodes that are visited for these leaves, bit i for node i.
    fn inner_bits(&self, leaves: u32) -> u32
        requires { leaves < 2 ^ leaves_in self.now.tree.depth }
        ensures { let depth = self.now.tree.depth in result ≡ visited_of depth leaves % 2 ^ inner_in depth }
    {
        (self.tree.visited_nodes(leaves) % (1 << self.first_leaf)) as u32
    }

    /// The nodes of a region's leaves, rising, where these are its leaves, bit i for leaf i.
    pub fn nodes_of(&self, leaves: u32) -> NodeQueue
        ensures { (region : List Bounds) → leaves ≡ leaves_of self.now.tree region
            → result.items ≡ leaf_nodes (fixed_of A.meaning self.now) region }
    {
        leaf_nodes(self.first_leaf, u64::from(leaves))
    }

    /// The nodes that are read for a region: its leaves, then the inner nodes that are visited, each rising.
    pub fn plan(&self, region: &Region) -> NodeQueue
        ensures { result.items ≡ plan_of (fixed_of A.meaning self.now) region.now }
    {
        let leaves = self.tree.leaves_of(region);
        let plan = leaf_nodes(self.first_leaf, u64::from(leaves));
        let inner = bits_below(self.tree.visited_nodes(leaves), self.first_leaf);
        nodes_then(plan, &inner)
    }

    /// The node of a record.
    pub fn home(&self, r: &Rec) -> u8
        requires { IsRecord r.now }
        ensures node { result ≡ home (fixed_of A.meaning self.now) r.now }
        ensures in_range { result < nodes_in self.now.tree.depth }
    {
        self.tree.node_of(&abs_box(r))
    }

    /// The inner ones among two nodes, rising, without repeats.
    pub fn inner_of_two(&self, a: u8, b: u8) -> NodeQueue
        ensures { result.items ≡ inner_of_two (fixed_of A.meaning self.now) a b }
    {
        inner_among(self.first_leaf, a, b)
    }

    /// Puts the ids of the things of the map whose absolute box touches a region into an empty list, in rising id. It
    /// takes no memory.
    pub fn put_things(&self, region: &Region, ids: &mut Vec<u16>)
        requires empty { ids.old.items ≡ [] }
        requires room { length (fixed_of A.meaning self.now).start.ids ≤ vec_capacity ids.old }
        ensures ids { ids.new.items ≡ things_in (fixed_of A.meaning self.now) region.now }
        ensures room { vec_capacity ids.new ≡ vec_capacity ids.old }
    {
        put_things(self.start.as_slice(), region, ids);
    }

    /// Puts the records loaded that touch a region, but this player's, into an empty list, in rising id. It has room for
    /// all records of the start.
    pub fn near(
        &self,
        region: &Region,
        slot: u8,
        others: &[PlayerRead],
        states: &[NewState],
        list: &mut NearList,
    )
        requires empty { list.old.items ≡ [] }
        requires room { length (fixed_of A.meaning self.now).start.ids ≤ list.old.room }
        ensures records { list.new.items ≡ near_loaded (fixed_of A.meaning self.now) region.now slot
            (map player_read_of others.now) states.now }
        ensures room { list.new.room ≡ list.old.room }
    {
        put_near(self.start.as_slice(), region, slot, others, states, list);
    }

    /// What a command of this player does among these records.
    pub fn act(&self, me: &Rec, near: &[Rec], cmd: &Cmd) -> Effect
        requires { IsCall ((A.meaning self.now.action).takes) me.now near.now (command_of cmd.now) }
        ensures { result ≡ (A.meaning self.now.action).effect_of me.now near.now (command_of cmd.now) }
    {
        self.action.act(me, near, cmd)
    }

    /// What a held node's word has beside the seat's number: for a leaf the leaves of the command, for an inner node 1
    /// where it is held to write.
    fn mark(&self, writing: bool, wanted: &[u8], node: u8) -> u64
        requires nodes { All (λ n. n < nodes_in self.now.tree.depth) wanted.now }
        requires few { length wanted.now ≤ MOST_NODES }
        ensures mark { result ≡ (let F = fixed_of A.meaning self.now in
            if is_leaf F node then leaf_word F wanted.now else (if writing then 1 else 0)) }
        ensures small { result ≤ 2 ^ MOST_LEAVES * MOST_NODES }
    {
        if self.is_leaf(node) {
            leaf_word(self.first_leaf, wanted)
        } else if writing {
            1
        } else {
            0
        }
    }

    /// The node's word while this seat holds it: the seat's number plus 1, and the mark above it.
    pub fn held_word(&self, number: u8, writing: bool, wanted: &[u8], node: u8) -> u64
        requires nodes { All (λ n. n < nodes_in self.now.tree.depth) wanted.now }
        requires few { length wanted.now ≤ MOST_NODES }
        ensures { result ≡ (let F = fixed_of A.meaning self.now in
            suc (number + NODE_HOLDERS * (if is_leaf F node then leaf_word F wanted.now else (if writing then 1 else 0)))) }
    {
        let mark = self.mark(writing, wanted, node);
        u64::from(number) + NODE_HOLDERS * mark + 1
    }
}
