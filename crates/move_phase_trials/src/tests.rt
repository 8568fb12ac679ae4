ghost use Rattle.std.specs.Prelude.{◌≡◌, true};
ghost use Rattle.arena_map.specs.MapLines.{IsWithinLimits, is_arena};

use arena_geo::Vec3;
use arena_map::MapLine;
use packet_read::{Arrival, ArrivalBytes};

mod moving;
mod receiving;

fn at(x: i32, y: i32, z: i32) -> Vec3
    ensures { result ≡ record { x = x; y = y; z = z } }
{
    Vec3 { x, y, z }
}

/// The arena from (-131072, -131072, 0) to (131072, 131072, 65536).
fn arena() -> MapLine
    ensures arena { is_arena result ≡ true }
    ensures limits { IsWithinLimits result }
{
    MapLine::Arena {
        lo: at(-131_072, -131_072, 0),
        hi: at(131_072, 131_072, 65_536),
    }
}

/// A packet with these bytes.
fn arrival(port: u16, bytes: &[u8]) -> Arrival {
    let mut a = Arrival {
        port,
        bytes: ArrivalBytes::new(),
    };
    for byte in bytes {
        let _fits = a.bytes.push(*byte);
    }
    a
}
