ghost use Rattle.std.specs.Prelude.{◌≡◌, ◌+◌, ◌*◌, ◌<◌, Some, None, length};
ghost use Rattle.std.specs.Bool.{OnTrue, OnFalse};
ghost use Rattle.demo_lines.specs.Packets.{packet_bytes};

use packet_read::{ArrivalBytes, MOST_BYTES};

/// Puts the packet that hexadecimal digits of either case spell, two a byte, or `-` for no byte, in place of what
/// `bytes` has. It is false exactly where the text spells none.
pub fn put_packet(text: &[u8], bytes: &mut ArrivalBytes) -> bool
    requires { length text.now < 2 * MOST_BYTES + 2 }
    ensures put { OnTrue result (packet_bytes text.now ≡ Some bytes.new) }
    ensures none { OnFalse result (packet_bytes text.now ≡ None) }
{
    *bytes = ArrivalBytes::new();
    if text == b"-".as_slice() {
        return true;
    }
    if text.is_empty() {
        return false;
    }
    let len = text.len() / 2;
    let mut decoded = [0; MOST_BYTES];
    if hex::decode_to_slice(text, &mut decoded[..len]).is_err() {
        return false;
    }
    bytes.extend(&decoded[..len]);
    true
}
