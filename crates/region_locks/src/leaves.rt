ghost use Rattle.std.specs.Prelude.{◌≡◌, ◌≤◌, ◌+◌};
ghost use Rattle.areanode.specs.declared.sizes.TheConstants.{MOST_LEAVES};
ghost use Rattle.areanode.specs.Words.{word_of};
ghost use Rattle.areanode.specs.Trees.{IsTreeDepth, leaf_node, leaves_in};
ghost use Rattle.core_steps.specs.Nodes.{has};

use crate::pass::Pass;
use core_seats::with_top_bit;

/// Whether the node is one of these.
fn is_among(nodes: &[u8], node: u8) -> bool
    ensures { result ≡ has nodes.now node }
{
    nodes.iter().any(|other| *other == node)
}

/// How many leaves a tree of this depth has.
fn count_leaves(depth: u8) -> u8
    requires { IsTreeDepth depth }
    ensures value { result ≡ leaves_in depth }
    ensures some { 1 ≤ result }
    ensures few { result ≤ MOST_LEAVES }
{
    1 << depth
}

/// The leaves among these nodes of a tree of this depth, bit i for leaf i.
fn leaf_bits(depth: u8, nodes: &[u8]) -> u32
    requires { IsTreeDepth depth }
    ensures { result ≡ word_of (leaves_in depth) (λ leaf. has nodes.now (leaf_node depth leaf)) }
{
    let count = count_leaves(depth);
    let first = count - 1;
    let mut word = 0;
    for leaf in 0..count {
        word = with_top_bit(word, leaf, is_among(nodes, first + leaf));
    }
    word as u32
}

impl<A> Pass<A> {
    /// The leaves of the command in hand, bit i for leaf i: none before its own record was loaded.
    pub fn leaves(&self) -> u32
        ensures { let depth = self.now.setting.depth in
            result ≡ word_of (leaves_in depth) (λ leaf. has self.now.view.wanted (leaf_node depth leaf)) }
    {
        leaf_bits(self.hand.setting().depth, self.seat.wanted.as_slice())
    }
}
