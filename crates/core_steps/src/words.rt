ghost use Rattle.std.specs.Prelude.{◌≡◌, ◌<◌, ◌+◌, ◌*◌, ◌^◌};
ghost use Rattle.core_steps.specs.Cells.{node_index, links_index, body_index, state_index};
ghost use Rattle.core_steps.specs.declared.sizes.TheConstants.{TABLE_STATES};
ghost use Rattle.core_steps.specs.Encoding.{low_half, high_half, word_of_halves, words_of, record_from};

use crate::sizes::{FIRST_LIST_WORD, FIRST_NODE_WORD, FIRST_RECORD_WORD, FIRST_STATE_WORD};
use arena_geo::Vec3;
use entity_recs::{Kind, PLAYER_MAXS, PLAYER_MINS, Rec};

/// The index of the word of a node, below [`TABLE_NODES`](crate::TABLE_NODES).
pub fn node_word(node: u8) -> u16
    ensures { result ≡ node_index node }
{
    FIRST_NODE_WORD + u16::from(node)
}

/// The index of the list word of a node, below [`TABLE_NODES`](crate::TABLE_NODES), of which bit p is set where player
/// p is linked there.
pub fn list_word(node: u8) -> u16
    ensures { result ≡ links_index node }
{
    FIRST_LIST_WORD + u16::from(node)
}

/// The index of the first of the five words of a player, of slot 0 to 63.
pub fn record_word(slot: u8) -> u16
    ensures { result ≡ body_index slot }
{
    FIRST_RECORD_WORD + 5 * u16::from(slot)
}

/// The index of the state word of an id, below [`TABLE_STATES`](crate::TABLE_STATES).
pub fn state_word(id: u16) -> u16
    requires { id < TABLE_STATES }
    ensures { result ≡ state_index id }
{
    FIRST_STATE_WORD + id
}

/// A player's record as five words: x and y; z and vx; vy and vz; score and seq, the low half first; and flags, ammo
/// and carry in a byte each.
pub type PlayerWords = [u64; 5];

/// A word of two halves.
fn halves(low: u32, high: u32) -> u64
    ensures { result ≡ word_of_halves low high }
{
    u64::from(low) + (u64::from(high) << 32)
}

/// The low half of a word.
fn low(word: u64) -> u32
    ensures { result ≡ low_half word }
{
    (word % 0x1_0000_0000) as u32
}

/// The high half of a word.
fn high(word: u64) -> u32
    ensures { result ≡ high_half word }
{
    (word >> 32) as u32
}

/// Three bytes in a word, the low one first.
fn bytes(low: u8, middle: u8, high: u8) -> u64
    ensures { result ≡ low + middle * 2 ^ 8 + high * 2 ^ 16 }
{
    u64::from(low) + u64::from(middle) * 256 + u64::from(high) * 65_536
}

/// The five words of a player's record.
pub fn encode(r: &Rec) -> PlayerWords
    ensures { result ≡ words_of r.now }
{
    [
        halves(r.origin.x.cast_unsigned(), r.origin.y.cast_unsigned()),
        halves(r.origin.z.cast_unsigned(), r.vel.x.cast_unsigned()),
        halves(r.vel.y.cast_unsigned(), r.vel.z.cast_unsigned()),
        halves(r.score, r.seq),
        bytes(r.flags, r.ammo, r.carry),
    ]
}

/// The record of the player with this id, these five words and this state.
pub fn decode(id: u16, w: &PlayerWords, state: u64) -> Rec
    ensures { result ≡ record_from id w.now state }
{
    Rec {
        id,
        kind: Kind::Player,
        origin: Vec3 {
            x: low(w[0]).cast_signed(),
            y: high(w[0]).cast_signed(),
            z: low(w[1]).cast_signed(),
        },
        mins: PLAYER_MINS,
        maxs: PLAYER_MAXS,
        vel: Vec3 {
            x: high(w[1]).cast_signed(),
            y: low(w[2]).cast_signed(),
            z: high(w[2]).cast_signed(),
        },
        flags: (w[4] % 256) as u8,
        ammo: (w[4] / 256 % 256) as u8,
        carry: (w[4] / 65_536 % 256) as u8,
        score: low(w[3]),
        seq: high(w[3]),
        state,
    }
}
