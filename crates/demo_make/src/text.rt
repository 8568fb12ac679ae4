ghost use Rattle.std.specs.Prelude.{◌≡◌, ◌+◌, ◌*◌, ◌≤◌, [], ◌++◌, length, map};
ghost use Rattle.edge_io.specs.WholeLines.{unlines};
ghost use Rattle.arena_map.specs.Spelling.{map_line_text};
ghost use Rattle.demo_lines.specs.Spelling.{packet_text};
ghost use Rattle.demo_make.specs.GeneratedMap.{generated_lines};
ghost use Rattle.demo_make.specs.Remaining.{event_of, event_text};

use crate::generated_event::GeneratedEvent;
use crate::map_lines::{MAP_LINES, map_line};
use arena_map::print_map_line;
use edge_io::{LineBuf, ROOM};
use itoa::Buffer;
use packet_read::MOST_PACKET_BYTES;

/// How many bytes the line of an event has at the most, with its line feed.
pub const LONGEST_EVENT: usize = 140;

/// How many hexadecimal digits a packet has at the most.
const MOST_DIGITS: usize = 2 * MOST_PACKET_BYTES;

/// Puts the lines of the map at the end of `text`, which is empty. `line` is for one of them.
pub fn push_map(text: &mut LineBuf, line: &mut LineBuf)
    requires { text.old ≡ [] }
    ensures { text.new ≡ unlines (map map_line_text generated_lines) }
{
    for index in 0..MAP_LINES {
        line.clear();
        print_map_line(&map_line(index), line);
        text.extend(line.as_slice());
        text.extend(b"\n");
    }
}

/// Puts a packet at the end: its bytes as hexadecimal digits in lower case, or a dash for none.
fn push_packet(text: &mut LineBuf, bytes: &[u8])
    requires short { length bytes.now ≤ MOST_PACKET_BYTES }
    requires room { length text.old + MOST_DIGITS ≤ ROOM }
    ensures { text.new ≡ text.old ++ packet_text bytes.now }
{
    if bytes.is_empty() {
        text.extend(b"-");
        return;
    }
    let mut digits = [0; MOST_DIGITS];
    let len = 2 * bytes.len();
    hex::encode_to_slice(bytes, &mut digits[..len]).unwrap();
    text.extend(&digits[..len]);
}

/// Puts the line of an event at the end, with its line feed.
pub fn push_event(text: &mut LineBuf, event: &GeneratedEvent)
    requires { length text.old + LONGEST_EVENT ≤ ROOM }
    ensures { text.new ≡ text.old ++ event_text (event_of event.now) }
{
    match event {
        GeneratedEvent::Frame => text.extend(b"frame\n"),
        GeneratedEvent::From { port, bytes } => {
            text.extend(b"from ");
            text.extend(Buffer::new().format(*port).as_bytes());
            text.extend(b" ");
            push_packet(text, bytes.as_slice());
            text.extend(b"\n");
        }
        GeneratedEvent::End => text.extend(b"end\n"),
    }
}
