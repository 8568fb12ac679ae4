ghost use Rattle.std.specs.Prelude.{◌≡◌, ◌<◌, ◌==◌, ◌&&◌, [], ◌∷◌, not};
ghost use Rattle.areanode.specs.Words.{has_bit};
ghost use Rattle.core_steps.specs.Reads.{players_in};

use crate::point::SlotQueue;
use core_seats::{NodeQueue, Queue, is_set};

/// Whether a player's bit is set and it isn't the own player.
fn is_other(word: u64, slot: u8, own: u8) -> bool
    requires { slot < 64 }
    ensures { result ≡ (has_bit word slot && not (slot == own)) }
{
    is_set(word, slot) && slot != own
}

/// The players of a list word but one, in rising slot.
pub fn players_of(word: u64, own: u8) -> SlotQueue
    ensures { result.items ≡ players_in word own }
{
    let mut players = Queue::new();
    if word == 0 {
        return players;
    }
    for slot in 0..64u8 {
        if is_other(word, slot, own) {
            players.push(slot);
        }
    }
    players
}

/// The list of one node.
pub fn one(node: u8) -> NodeQueue
    ensures { result.items ≡ node ∷ [] }
{
    let mut nodes = Queue::new();
    nodes.push(node);
    nodes
}
