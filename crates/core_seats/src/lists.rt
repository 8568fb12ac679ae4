ghost use Rattle.std.specs.Prelude.{◌≡◌, ◌+◌, ◌<◌, ◌≤◌, ◌-◌, ◌*◌, ◌^◌, ◌++◌, All, ◌==◌, ◌||◌, ◌&&◌, [], ◌∷◌};
ghost use Rattle.std.specs.Prelude.{length, filter, map, not, if◌then◌else◌};
ghost use Rattle.std.specs.List.{range_with_len};
ghost use Rattle.areanode.specs.Words.{has_bit};
ghost use Rattle.core_steps.specs.Held.{bits_of_leaves};

use crate::queue::{NodeQueue, Queue, WordList};
use areanode::{MOST_LEAVES, MOST_NODES};
use arrayvec::ArrayVec;

/// Whether a bit of a word is set.
pub fn is_set(word: u64, i: u8) -> bool
    requires { i < 64 }
    ensures { result ≡ has_bit word i }
{
    word >> i & 1 == 1
}

/// Whether a node is one of two.
fn is_either(node: u8, a: u8, b: u8) -> bool
    ensures { result ≡ ((node == a) || (node == b)) }
{
    node == a || node == b
}

/// The numbers below `n` whose bit is set, rising.
pub fn bits_below(word: u64, n: u8) -> NodeQueue
    requires { n ≤ MOST_NODES }
    ensures numbers { result.items ≡ filter (has_bit word) (range_with_len 0 n) }
    ensures few { length result.items ≤ n }
{
    let mut numbers = Queue::new();
    for i in 0..n {
        if is_set(word, i) {
            numbers.push(i);
        }
    }
    numbers
}

/// The word with the bit of a number that is above all its bits, where that bit is to be set.
pub fn with_top_bit(word: u64, slot: u8, is_set: bool) -> u64
    requires slot { slot < 64 }
    requires below { word < 2 ^ slot }
    ensures { result ≡ (if is_set then 2 ^ slot else 0) + word }
{
    if is_set { word + (1 << slot) } else { word }
}

/// The nodes of these leaves, bit i for leaf i, rising, in a tree with this first leaf, which has one more leaf than inner
/// nodes.
pub fn leaf_nodes(first_leaf: u8, leaves: u64) -> NodeQueue
    requires { first_leaf < MOST_LEAVES }
    ensures nodes { result.items ≡ map (λ leaf. first_leaf + leaf)
        (filter (has_bit leaves) (range_with_len 0 (first_leaf + 1))) }
    ensures few { length result.items ≤ MOST_LEAVES }
{
    let mut nodes = Queue::new();
    for leaf in 0..first_leaf + 1 {
        if is_set(leaves, leaf) {
            nodes.push(first_leaf + leaf);
        }
    }
    nodes
}

/// The inner ones among two nodes, rising, without repeats, in a tree with this first leaf.
pub fn inner_among(first_leaf: u8, a: u8, b: u8) -> NodeQueue
    requires { first_leaf < MOST_LEAVES }
    ensures { result.items ≡ filter (λ node. (node == a) || (node == b)) (range_with_len 0 first_leaf) }
{
    let mut nodes = Queue::new();
    for node in 0..first_leaf {
        if is_either(node, a, b) {
            nodes.push(node);
        }
    }
    nodes
}

/// One list of nodes after another.
pub fn nodes_then(front: NodeQueue, back: &NodeQueue) -> NodeQueue
    requires { length front.items + length back.now.items ≤ MOST_NODES }
    ensures { result.items ≡ front.items ++ back.now.items }
{
    let mut nodes = front;
    for node in back.as_slice() {
        nodes.push(*node);
    }
    nodes
}

/// The leaves of these nodes, bit i for leaf i, in a tree with this first leaf.
pub fn leaf_word(first_leaf: u8, nodes: &[u8]) -> u64
    requires nodes { All (λ n. n < first_leaf + MOST_LEAVES) nodes.now }
    requires few { length nodes.now ≤ MOST_NODES }
    ensures word { result ≡ bits_of_leaves (map (λ n. n - first_leaf) nodes.now) }
    ensures small { result ≤ 2 ^ MOST_LEAVES * length nodes.now }
{
    let mut word = 0;
    for node in nodes {
        word += 1 << node.saturating_sub(first_leaf);
    }
    word
}

/// A list of words once more.
pub fn same_words(words: &[u64]) -> WordList
    requires { length words.now ≤ 6 }
    ensures { result.items ≡ words.now }
{
    let mut copy = ArrayVec::new();
    // The copy has as much room as the list itself.
    let _ = copy.try_extend_from_slice(words);
    copy
}
