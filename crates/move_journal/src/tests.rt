ghost use Rattle.std.specs.Prelude.{◌≡◌};

use super::*;
use arena_geo::Vec3;
use entity_recs::{Entry, IdList, Reply};
use std::alloc::Global;
use std::process::Abort;
use std::test::Fail;

/// The entry of slot 7's move with this number, at this place, which took the item 64.
fn entry(place: u64, seq: u32) -> Entry
    ensures place { result.place ≡ place }
{
    let mut got = IdList::new();
    let _fits = got.push(64);
    Entry {
        place,
        slot: 7,
        seq,
        reply: Reply {
            origin: Vec3 {
                x: 9_830,
                y: 0,
                z: 6_144,
            },
            got,
        },
    }
}

/// Compares the numbers of the entries.
fn expect(rt: &impl Abort, entries: &[Entry], seqs: &[u32]) {
    assert_eq!(rt; entries.len(), seqs.len());
    for (entry, seq) in entries.iter().zip(seqs) {
        assert_eq!(rt; entry.seq, *seq);
        assert_eq!(rt; entry.reply.got.as_slice(), [64].as_slice());
    }
}

#[test]
fn logs_keep_their_entries(rt: HostRuntime) -> Result<(), Fail> {
    let mut log = Log::new(rt.alloc(), 2)?;
    log.push(entry(3, 40));
    log.push(entry(5, 41));
    expect(&rt, log.as_slice(), &[40, 41]);
    assert_eq!(rt; log.room(), 2);
    Ok(())
}

#[test]
fn journals_keep_their_entries_until_they_are_cleared(rt: HostRuntime) -> Result<(), Fail> {
    let mut journal = Journal::new(rt.alloc(), 2)?;
    journal.push(entry(0, 40));
    expect(&rt, journal.as_slice(), &[40]);
    journal.clear();
    expect(&rt, journal.as_slice(), &[]);
    assert_eq!(rt; journal.room(), 2);
    Ok(())
}

#[test]
fn a_list_holds_sixteen_logs(rt: HostRuntime) -> Result<(), Fail> {
    let mut logs = LogList::new(rt.alloc());
    for room in 0..16 {
        assert!(rt; logs.push(Log::new(rt.alloc(), room)?));
    }
    assert!(rt; !logs.push(Log::new(rt.alloc(), 0)?));
    assert_eq!(rt; logs.as_slice().len(), 16);
    Ok(())
}

/// A list of two journals, with room for one entry and for two.
fn two_journals(alloc: Global) -> Result<JournalList, Fail> {
    let mut journals = JournalList::new(alloc);
    journals.push(Journal::new(alloc, 1)?)?;
    journals.push(Journal::new(alloc, 2)?)?;
    Ok(journals)
}

#[test]
fn journals_are_listed_in_order(rt: HostRuntime) -> Result<(), Fail> {
    let journals = two_journals(rt.alloc())?;
    let rooms: Vec<u32> = journals
        .as_slice()
        .iter()
        .map(|j| j.room())
        .collect(rt.alloc())?;
    assert_eq!(rt; rooms.as_slice(), [1, 2].as_slice());
    Ok(())
}

#[test]
fn merged_entries_are_by_place(rt: HostRuntime) -> Result<(), Fail> {
    let mut first = Log::new(rt.alloc(), 1)?;
    first.push(entry(1, 40));
    let mut second = Log::new(rt.alloc(), 2)?;
    second.push(entry(0, 41));
    second.push(entry(2, 42));
    let mut journal = Journal::new(rt.alloc(), 3)?;
    merge(&[first, second], &mut journal);
    expect(&rt, journal.as_slice(), &[41, 40, 42]);
    Ok(())
}

#[test]
fn no_log_merges_to_no_entry(rt: HostRuntime) -> Result<(), Fail> {
    let mut journal = Journal::new(rt.alloc(), 1)?;
    merge(&[], &mut journal);
    expect(&rt, journal.as_slice(), &[]);
    Ok(())
}
