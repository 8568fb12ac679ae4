use super::statuses::expect_refused;
use super::{ARENA, write_pieces};
use std::test::Fail;

/// Recordings that begin with the arena: what comes next, a piece that is written so many times after it, and the end; and
/// the line, the fault and the rule that it is refused for.
const AFTER_THE_ARENA: [(&str, &str, u16, &str, (u64, u8, u8)); 11] = [
    ("", "a", 513, "\n", (2, 1, 0)),
    ("", "spawn 0 0\t6144\n", 1, "", (2, 2, 0)),
    ("", ARENA, 1, "", (2, 5, 0)),
    ("", "spawn 0 0 6143\n", 1, "", (2, 7, 4)),
    ("", "spawn 0 0 06144\n", 1, "", (2, 4, 0)),
    (
        "",
        "lift 0 0 0 10000 10000 100 70000 10\n",
        1,
        "",
        (2, 7, 6),
    ),
    ("", "block 0 0 0 0 10 10\n", 1, "", (2, 7, 2)),
    (
        "spawn 0 0 6144\nframe\n",
        "from 65536 -\n",
        1,
        "",
        (4, 6, 0),
    ),
    ("spawn 0 0 6144\nframe\n", "from 7\n", 1, "", (4, 4, 0)),
    (
        "spawn 0 0 6144\nframe\n",
        "from 7 -\n",
        513,
        "",
        (516, 9, 0),
    ),
    ("spawn 0 0 6144\n", "", 0, "", (3, 10, 0)),
];

#[test]
fn lines_after_the_arena_are_refused(rt: HostRuntime) -> Result<(), Fail> {
    for (front, piece, times, back, why) in AFTER_THE_ARENA {
        let text = write_pieces(rt.alloc(), front, piece, times, back)?;
        expect_refused(&rt, text.as_str(), why)?;
    }
    Ok(())
}
