ghost use Rattle.std.specs.Prelude.{◌≡◌};

use entity_recs::{Entry, IdList, Reply};

/// The reply once more. It takes no memory.
pub fn same_reply(reply: &Reply) -> Reply
    ensures { result ≡ reply.now }
{
    let mut got = IdList::new();
    for id in reply.got.as_slice() {
        // The copy has as much room as the list itself.
        let _ = got.push(*id);
    }
    Reply {
        origin: reply.origin,
        got,
    }
}

/// The entry once more. It takes no memory.
pub fn same_entry(entry: &Entry) -> Entry
    ensures { result ≡ entry.now }
{
    Entry {
        place: entry.place,
        slot: entry.slot,
        seq: entry.seq,
        reply: same_reply(&entry.reply),
    }
}
