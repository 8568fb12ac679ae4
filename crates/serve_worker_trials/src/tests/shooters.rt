use arena_engine::serve;
use edge_io::{MemSink, MemSource};
use shared_moves::NoGate;
use std::test::Fail;

/// Two players with ammunition, each of which shoots twice at a third one in the last frame, from two sides.
const TWO_SHOOTERS: &str =
    "arena -131072 -131072 0 131072 131072 65536\nshots\nspawn -20000 0 6144\nspawn 20000 0 6144\nspawn 0 20000 6144\nitem -20000 0 0 ammo 100\nitem 20000 0 0 ammo 100\nframe\nfrom 7 0101\nfrom 8 0101\nfrom 9 0101\nframe\nfrom 7 010201000000320000000000\nfrom 8 010201000000320000000000\nframe\nfrom 7 02020200000001326400640002\nfrom 8 02020200000001329cff640002\nfrom 7 02020300000001326400640002\nfrom 8 02020300000001329cff640002\nend\n";

/// Where the score is among the digits of a snapshot: four bytes from the 33rd on.
const SCORE: usize = 66;

/// Whether the score in the last reply to a slot is 1. `None` where there is no such reply.
fn has_a_point(output: &[u8], to: &[u8]) -> Option<bool> {
    let mut found = None;
    for line in output.split(|byte| *byte == b'\n') {
        if line.starts_with(to) {
            let digits = line.get(to.len() + SCORE..to.len() + SCORE + 8)?;
            found = Some(digits == b"01000000".as_slice());
        }
    }
    found
}

/// All four shots hit the third player, whose slot is 2. The fourth fells it, and whoever fired that one has a point.
#[test]
fn one_of_two_shooters_has_the_point(rt: HostRuntime) -> Result<(), Fail> {
    for words in [["play", "1"], ["play", "2"], ["play", "4"]] {
        let mut source = MemSource::new(TWO_SHOOTERS.as_bytes(), 1_000, &[]);
        let mut sink = MemSink::new(rt.alloc(), 10_000, 1_000)?;
        let report = serve(&rt, rt.alloc(), &words, &mut source, &mut sink, &NoGate);
        assert_eq!(rt; report.status, 0);
        let Some(last) = &report.last else {
            return Err("no journal".into());
        };
        assert_eq!(rt; last.as_slice().len(), 4);
        for entry in last.as_slice() {
            assert_eq!(rt; entry.reply.got.as_slice(), [2].as_slice());
        }
        let first = has_a_point(sink.bytes(), b"to 0 ").ok_or("a reply to slot 0")?;
        let second = has_a_point(sink.bytes(), b"to 1 ").ok_or("a reply to slot 1")?;
        assert!(rt; first != second);
    }
    Ok(())
}
