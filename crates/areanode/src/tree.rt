ghost use Rattle.std.specs.Prelude.{◌≡◌, ◌+◌, ◌^◌, ◌<◌};
ghost use Rattle.arena_geo.specs.Regions.{IsRegion};
ghost use Rattle.areanode.specs.Words.{word_of};
ghost use Rattle.areanode.specs.Trees as trees;
ghost use Rattle.areanode.specs.Trees.{IsTreeDepth, leaves_in, inner_in, nodes_in, visited_of};
ghost use Rattle.areanode.specs.Areas.{area_at, areas_of, IsAtLevel};

use crate::ancestors::visited_nodes;
use crate::cut::{
    cut_of, is_above, is_below, part_above, part_below, reaches_above, reaches_below,
};
use crate::sizes::MOST_NODES;
use arena_geo::{Aabb, Region};
use std::marker::Model;

// The areas are carried down the recursion, so nothing depends on the depth. Places of nodes that a smaller tree
// hasn't have the root's area, so that equal trees are equal and a tree stays `Copy`.
/// The tree of areanodes over an arena, by which boxes are linked and found. Node 0 is the root; the children of node i
/// are 2i + 1 over the part of its area above its cut, and 2i + 2 over the part below. Leaf i is node
/// [`first_leaf`](Tree::first_leaf) + i.
#[derive(Clone, Copy)]
pub struct Tree {
    depth: u8,
    // Beyond the tree's nodes there is the root's area, so that trees of one depth over one arena are equal.
    areas: [Aabb; MOST_NODES],
}

impl Model for Tree {
    ghost use Rattle.areanode.specs.Trees.{TreeView};
    ghost use Rattle.areanode.specs.Areas.{area_at, areas_of, AreCut};
    ghost use Rattle.areanode.specs.Rebuilt.{areas_of-is};
    ghost use Rattle.std.proofs.Common.{ap};

    ghost Value = { TreeView };

    ghost view = { λ t. record { depth = t.depth; bounds = area_at t.areas 0 } };

    ghost invariant = { λ t. AreCut t.depth t.areas };

    ghost inverse = { λ tree. record { depth = tree.depth; areas = areas_of tree } };

    ghost inverse_ok = { λ t cut. ap (λ areas. record { depth = t.depth; areas = areas }) (areas_of-is t.depth t.areas cut) };
}

impl Tree {
    /// The tree of this depth over these bounds, as Quake's `SV_CreateAreaNode`: an inner node is cut halfway on the
    /// longer of the axes x and y, on y where neither is longer, rounded toward minus infinity.
    pub fn new(bounds: &Aabb, depth: u8) -> Tree
        requires { IsTreeDepth depth }
        ensures { result ≡ record { depth = depth; bounds = bounds.now } }
    {
        let mut areas = [*bounds; MOST_NODES];
        let first_leaf = (1 << depth) - 1;
        for node in 0..first_leaf {
            let area = areas[node];
            areas[2 * node + 1] = part_above(&area);
            areas[2 * node + 2] = part_below(&area);
        }
        Tree { depth, areas }
    }

    /// The depth of the leaves, where the root has depth 0.
    pub fn depth(&self) -> u8
        ensures value { result ≡ self.now.depth }
        ensures range { IsTreeDepth self.now.depth }
    {
        self.depth
    }

    /// The number of leaves.
    pub fn leaves(&self) -> u8
        ensures value { result ≡ leaves_in self.now.depth }
        ensures range { IsTreeDepth self.now.depth }
    {
        1 << self.depth
    }

    /// The first leaf's node, which is also the number of inner nodes.
    pub fn first_leaf(&self) -> u8
        ensures value { result ≡ inner_in self.now.depth }
        ensures range { IsTreeDepth self.now.depth }
    {
        (1 << self.depth) - 1
    }

    /// The number of nodes, the leaves among them.
    pub fn nodes(&self) -> u8
        ensures value { result ≡ nodes_in self.now.depth }
        ensures range { IsTreeDepth self.now.depth }
    {
        (2 << self.depth) - 1
    }

    /// From a node with `levels` levels below it: the first node whose cut the box meets, or the leaf.
    fn node_from(&self, node: usize, levels: u8, b: &Aabb) -> usize
        requires depth { IsTreeDepth self.now.depth }
        requires level { IsAtLevel self.now.depth levels node }
        ensures { result ≡ trees.node_from levels node (area_at (areas_of self.now) node) b.now }
    {
        if levels == 0 {
            return node;
        }
        let cut = cut_of(&self.areas[node]);
        if is_above(b, cut) {
            self.node_from(2 * node + 1, levels - 1, b)
        } else if is_below(b, cut) {
            self.node_from(2 * node + 2, levels - 1, b)
        } else {
            node
        }
    }

    /// The leaves that a box reaches from a node with `levels` levels below it, bit i for leaf i.
    fn leaves_from(&self, node: usize, levels: u8, b: &Aabb) -> u32
        requires depth { IsTreeDepth self.now.depth }
        requires level { IsAtLevel self.now.depth levels node }
        ensures { result ≡ word_of (leaves_in self.now.depth) (λ leaf.
            trees.reaches levels node (area_at (areas_of self.now) node) b.now (inner_in self.now.depth + leaf)) }
    {
        if levels == 0 {
            return 1 << (node - usize::from(self.first_leaf()));
        }
        let cut = cut_of(&self.areas[node]);
        let above = if reaches_above(b, cut) {
            self.leaves_from(2 * node + 1, levels - 1, b)
        } else {
            0
        };
        let below = if reaches_below(b, cut) {
            self.leaves_from(2 * node + 2, levels - 1, b)
        } else {
            0
        };
        above | below
    }

    /// The node at which a box is linked, as Quake's `SV_LinkEdict`: down from the root to the side of the cut on which
    /// the box lies, as long as it doesn't touch the cut. Boxes beyond the arena have nodes too.
    pub fn node_of(&self, abs: &Aabb) -> u8
        ensures node { result ≡ trees.node_of self.now abs.now }
        ensures in_range { result < nodes_in self.now.depth }
        ensures depth { IsTreeDepth self.now.depth }
    {
        self.node_from(0, self.depth, abs) as u8
    }

    /// The leaves of a region's boxes, bit i for leaf i: down from the root to each side of the cut on which a box has
    /// a point, the cut counted on both. Boxes beyond the arena have leaves too.
    pub fn leaves_of(&self, r: &Region) -> u32
        ensures leaves { result ≡ trees.leaves_of self.now r.now }
        ensures in_range { result < 2 ^ leaves_in self.now.depth }
        ensures region { IsRegion r.now }
        ensures depth { IsTreeDepth self.now.depth }
    {
        let mut leaves = 0;
        for b in r.boxes() {
            leaves |= self.leaves_from(0, self.depth, b);
        }
        leaves
    }

    /// The nodes of these leaves and all their ancestors, bit i for node i. A box that touches a region with these
    /// leaves is linked at one of them.
    pub fn visited_nodes(&self, leaves: u32) -> u64
        requires { leaves < 2 ^ leaves_in self.now.depth }
        ensures nodes { result ≡ visited_of self.now.depth leaves }
        ensures depth { IsTreeDepth self.now.depth }
    {
        visited_nodes(self.depth, leaves)
    }
}
