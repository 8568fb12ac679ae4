ghost use Rattle.std.specs.Prelude.{◌≡◌, ◌≤◌, ◌*◌, ◌^◌, length};
ghost use Rattle.match_play.specs.Totals as totals;

use entity_recs::Entry;

/// How many of the ids that an entry got are those of items: a lower one is the slot of a player that was hit.
fn items_among(ids: &[u16]) -> u32
    requires { length ids.now ≤ 2 ^ 16 }
    ensures count { result ≡ totals.items_among ids.now }
    ensures bound { result ≤ length ids.now }
{
    ids.iter().filter(|id| **id >= 64).count() as u32
}

/// How many items the entries of a journal got.
pub fn items_in(entries: &[Entry]) -> u32
    requires { length entries.now ≤ 2 ^ 16 }
    ensures count { result ≡ totals.items_in entries.now }
    ensures bound { result ≤ 8 * length entries.now }
{
    let mut items = 0;
    for entry in entries {
        items += items_among(entry.reply.got.as_slice());
    }
    items
}
