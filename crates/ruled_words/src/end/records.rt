ghost use Rattle.std.specs.Prelude.{◌≡◌, ◌≢◌, ℕ, ◌<◌, true, Some};
ghost use Rattle.std.specs.Option.{option_map};
ghost use Rattle.entity_recs.specs.declared.rec.Rec.{Rec};
ghost use Rattle.world_tree.specs.Live.{IsEntry};
ghost use Rattle.world_tree.specs.Worlds.{record_of, IsLinked};
ghost use Rattle.ruled_words.specs.Ends.{body_in, record_in};

use core_steps::{FIRST_RECORD_WORD, FIRST_STATE_WORD, PlayerWords, TABLE_WORDS, decode};
use entity_recs::{IDS, Rec};
use world_tree::World;

/// The five words of the record of the player in this slot.
fn body_in(words: &[u64; TABLE_WORDS], slot: usize) -> PlayerWords
    requires { slot < 64 }
    ensures { result ≡ body_in words.now slot }
{
    let at = usize::from(FIRST_RECORD_WORD) + 5 * slot;
    [
        words[at],
        words[at + 1],
        words[at + 2],
        words[at + 3],
        words[at + 4],
    ]
}

/// The record that the words have in place of this one: a player's is decoded, another's has a new state.
fn record_in(words: &[u64; TABLE_WORDS], r: &Rec) -> Rec
    requires { r.now.id < IDS }
    ensures { result ≡ record_in words.now r.now }
{
    let id = usize::from(r.id);
    let state = words[usize::from(FIRST_STATE_WORD) + id];
    if id < 64 {
        decode(r.id, &body_in(words, id), state)
    } else {
        Rec { state, ..*r }
    }
}

/// Whether this is a thing of the map whose state is what it was.
fn is_same_thing(words: &[u64; TABLE_WORDS], r: &Rec) -> bool
    requires { r.now.id < IDS }
    ensures { result ≡ true → record_in words.now r.now ≡ r.now }
{
    let id = usize::from(r.id);
    id >= 64 && words[usize::from(FIRST_STATE_WORD) + id] == r.state
}

/// Puts the record that the words have in place of the one with this id, if it is live, and links it anew, but
/// for a thing that stayed as it was.
fn relink(words: &[u64; TABLE_WORDS], world: &mut World, id: u16)
    requires entry { (r : Rec) → record_of world.old id ≡ Some r → IsEntry r.id (record_in words.now r) }
    ensures here { record_of world.new id ≡ option_map (record_in words.now) (record_of world.old id) }
    ensures others { (other : ℕ) → other ≢ id → record_of world.new other ≡ record_of world.old other }
    ensures tree { world.new.tree ≡ world.old.tree }
    ensures linked { IsLinked world.new }
{
    let Some(old) = world.get(id) else {
        return;
    };
    if !is_same_thing(words, &old) {
        world.relink(record_in(words, &old));
    }
}

/// Puts the record that the words have in place of each live one, and links it anew.
pub(crate) fn relink_all(words: &[u64; TABLE_WORDS], world: &mut World)
    requires entries { (id : ℕ) (r : Rec) → record_of world.old id ≡ Some r
        → IsEntry r.id (record_in words.now r) }
    ensures records { (id : ℕ) → record_of world.new id
        ≡ option_map (record_in words.now) (record_of world.old id) }
    ensures tree { world.new.tree ≡ world.old.tree }
    ensures linked { IsLinked world.new }
{
    for id in 0..IDS as u16 {
        relink(words, world, id);
    }
}
