ghost use Rattle.std.specs.Prelude.{◌≡◌, ◌+◌, ◌≤◌, [], ◌++◌, length, decimal};
ghost use Rattle.edge_io.specs.declared.line_buf.TheConstants.{ROOM};
ghost use Rattle.arena_engine.specs.Summaries.{right_text, summary_text};

use edge_io::LineBuf;
use itoa::Buffer;
use match_play::Totals;

/// The most bytes of the line of a match or of a right transcript, with its line feed.
pub const MOST_SUMMARY_BYTES: usize = 300;

/// Puts a name and its number last.
fn push_count(line: &mut LineBuf, name: &str, count: u64)
    requires { length line.old + length name.now + 40 ≤ ROOM }
    ensures text { line.new ≡ line.old ++ name.now ++ decimal count }
    ensures short { length line.new ≤ length line.old + length name.now + 40 }
{
    line.extend(name.as_bytes());
    line.extend(Buffer::new().format(count).as_bytes());
}

/// Puts the line of a match's totals, with its line feed, into an empty buffer.
pub fn push_summary(totals: &Totals, line: &mut LineBuf)
    requires { line.old ≡ [] }
    ensures text { line.new ≡ summary_text totals.now }
    ensures short { length line.new ≤ MOST_SUMMARY_BYTES }
{
    push_count(line, "frames ", u64::from(totals.frames));
    push_count(line, " joins ", u64::from(totals.joins));
    push_count(line, " moves ", u64::from(totals.moves));
    push_count(line, " refused ", u64::from(totals.refused));
    push_count(line, " items ", u64::from(totals.items));
    push_count(line, " scores ", totals.score);
    let _ = line.push(b'\n');
}

/// Puts the line of a right transcript, with its line feed, into an empty buffer.
pub fn push_right(frames: u32, moves: u64, line: &mut LineBuf)
    requires { line.old ≡ [] }
    ensures text { line.new ≡ right_text frames moves }
    ensures short { length line.new ≤ MOST_SUMMARY_BYTES }
{
    push_count(line, "right frames ", u64::from(frames));
    push_count(line, " moves ", moves);
    let _ = line.push(b'\n');
}
