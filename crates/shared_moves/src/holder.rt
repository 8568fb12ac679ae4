ghost use Rattle.std.specs.Prelude.{◌≡◌, ◌≢◌, ℕ};
ghost use Rattle.core_steps.specs.Nodes as core_nodes;
ghost use Rattle.core_steps.specs.Nodes.{Fixed};
ghost use Rattle.ruled_words.specs.Passes.{IsHolderIn};

use core_steps::{NODE_HOLDERS, TABLE_LEAVES};

/// Who holds a node.
#[derive(Clone, Copy, Debug, PartialEq, Eq)]
pub struct Holder {
    /// The number of the pass.
    pub number: u8,
    /// The leaves of its command, bit i for leaf i; 0 for an inner node.
    pub leaves: u32,
}

/// Who holds a node, which is a leaf or not, by its word.
pub fn holder_in(word: u64, is_leaf: bool) -> Holder
    requires { word ≢ 0 }
    ensures { (F : Fixed) (node : ℕ) → is_leaf ≡ core_nodes.is_leaf F node
        → IsHolderIn F word node result.number result.leaves }
{
    Holder {
        number: ((word - 1) % NODE_HOLDERS) as u8,
        leaves: if is_leaf {
            (word / NODE_HOLDERS % (1 << TABLE_LEAVES)) as u32
        } else {
            0
        },
    }
}
