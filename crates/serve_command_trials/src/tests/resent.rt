use super::made::written;
use super::report_of;
use edge_io::{MemSink, MemSource};
use std::test::Fail;

/// Two players and three frames, from the last line of the map on.
const TWO_PLAYERS: &[u8] =
    b"lift 204800 -229376 0 229376 -204800 2560 25600 512\nframe\nfrom 1 0101\nfrom 2 0101\nframe\nfrom 2 0202020000000232300089000032ddff270101\nframe\nfrom 1 02020300000003320a000f010032e200ecff0132b200a6ff00\nfrom 2 0202030000000332300089000032ddff270101326000c30000\nend\n";

/// Three players and four frames. The seed and its first words are those of a published table.
const THREE_PLAYERS: &[u8] =
    b"512\nframe\nfrom 1 0101\nfrom 2 0101\nfrom 3 0101\nfrom 3 0202010000000132b7ffc80000\nframe\nfrom 2 0202020000000232a5ffc60000320eff2dff00\nframe\nfrom 1 02020300000003323f01d8ff00325300aaff0032350082ff00\nframe\nfrom 1 02020400000003325300aaff0032350082ff003299ff72ff00\nfrom 2 02020400000003320eff2dff0032f000330000324300daff00\nfrom 3 02020400000003320b011f010032c100a1ff0032f3ff0aff00\nend\n";

/// One player and five frames.
const ONE_PLAYER: &[u8] =
    b"512\nframe\nfrom 1 0101\nframe\nframe\nfrom 1 020203000000033223fff0fe0032f00065ff00327bffe3fe00\nframe\nframe\nfrom 1 02020500000003327bffe3fe00323b000401003252ff580000\nend\n";

/// How many lines of a text begin with `front`.
fn lines_with(text: &[u8], front: &[u8]) -> usize {
    text.split(|byte| *byte == b'\n')
        .filter(|line| line.starts_with(front))
        .count()
}

/// The lines are those that a plain program gives, which was written apart from this one.
#[test]
fn commands_are_repeated_in_the_packets_that_arrive(rt: HostRuntime) -> Result<(), Fail> {
    let rows: [([&str; 4], &[u8]); 3] = [
        (["resend", "7", "2", "3"], TWO_PLAYERS),
        (["resend", "1477776061723855037", "3", "4"], THREE_PLAYERS),
        (["resend", "18446744073709551615", "1", "5"], ONE_PLAYER),
    ];
    for (words, back) in rows {
        let (sink, status) = written(&rt, &words)?;
        assert_eq!(rt; status, 0);
        assert!(rt;
            sink.bytes()
                .starts_with(b"arena -262144 -262144 0 262144 262144 131072\n")
        );
        assert!(rt; sink.bytes().ends_with(back));
    }
    Ok(())
}

/// Although two packets of three are lost, each command of four players in nine frames is run.
#[test]
fn a_resent_recording_is_played_whole(rt: HostRuntime) -> Result<(), Fail> {
    let (recording, status) = written(&rt, &["resend", "7", "4", "9"])?;
    assert_eq!(rt; status, 0);
    assert_eq!(rt; lines_with(recording.bytes(), b"from "), 18);
    let mut source = MemSource::new(recording.bytes(), 1_000, &[]);
    let mut sink = MemSink::new(rt.alloc(), 30_000, 1_000)?;
    let report = report_of(&rt, &["play", "1"], &mut source, &mut sink);
    assert_eq!(rt; report.status, 0);
    assert_eq!(rt; lines_with(sink.bytes(), b"did "), 36);
    assert_eq!(rt; lines_with(sink.bytes(), b"no "), 0);
    assert!(rt; sink.bytes().ends_with(b"\nend 9\n"));
    Ok(())
}

#[test]
fn a_sink_without_room_has_a_front_of_a_resent_recording(rt: HostRuntime) -> Result<(), Fail> {
    let mut source = MemSource::new(&[], 1, &[]);
    let mut sink = MemSink::new(rt.alloc(), 3_000, 1_000)?;
    let report = report_of(&rt, &["resend", "7", "4", "9"], &mut source, &mut sink);
    assert_eq!(rt; report.status, 4);
    assert_eq!(rt; sink.bytes().len(), 3_000);
    Ok(())
}
