ghost use Rattle.std.specs.Prelude.{◌≡◌, ◌≢◌, ℕ};
ghost use Rattle.entity_recs.specs.Commands.{Command};
ghost use Rattle.core_steps.specs.Nodes.{Fixed, inner_nodes};
ghost use Rattle.core_seats.specs.Refusals.{refused_of};
ghost use Rattle.ruled_words.specs.GivingUp.{IsRefusedBy};
ghost use Rattle.shared_moves.specs.Moves.{IsCause};

use crate::holder::holder_in;
use core_seats::Refused;

/// Why a move wasn't run: a node was held. Nothing is committed, and the move may be tried again.
#[derive(Clone, Copy, Debug, PartialEq, Eq)]
pub enum Again {
    /// One of the move's own leaves was held.
    Held {
        /// The leaf, by its number.
        leaf: u8,
        /// The number of the pass that held it.
        holder: u8,
        /// The leaves of that pass's command, bit i for leaf i.
        leaves: u32,
    },
    /// An inner node that the move's leaves visit was held.
    Busy {
        /// The node, by its number.
        node: u8,
        /// The number of the pass that held it.
        holder: u8,
    },
}

/// Why a move wasn't run, by the take that was refused, where this is the first leaf's node.
pub fn again_after(refused: &Refused, first_leaf: u8) -> Again
    requires { refused.now.word ≢ 0 }
    ensures { (F : Fixed) (passes own : ℕ) (c : Command) (number leaves : ℕ) → first_leaf ≡ inner_nodes F
        → IsRefusedBy F passes own c (refused_of refused.now) number leaves
        → IsCause F passes own c (refused_of refused.now) result }
{
    let is_leaf = refused.node >= first_leaf;
    let holder = holder_in(refused.word, is_leaf);
    if is_leaf {
        Again::Held {
            leaf: refused.node - first_leaf,
            holder: holder.number,
            leaves: holder.leaves,
        }
    } else {
        Again::Busy {
            node: refused.node,
            holder: holder.number,
        }
    }
}
