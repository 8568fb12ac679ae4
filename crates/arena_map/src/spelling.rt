ghost use Rattle.std.specs.Prelude.{◌≡◌, ◌+◌, ◌≤◌, [], ◌++◌, length};
ghost use Rattle.std.specs.Fmt.{signed_decimal};
ghost use Rattle.edge_io.specs.Fields.{field_text};
ghost use Rattle.arena_map.specs.MapLines.{IsWithinLimits};
ghost use Rattle.arena_map.specs.Spelling as spelling;

use crate::map_line::MapLine;
use crate::map_word::{kind_text, word_of};
use arena_geo::Vec3;
use edge_io::{LineBuf, ROOM};
use itoa::Buffer;

/// Puts a number of at most 11 bytes and the space before it last.
fn push_number(out: &mut LineBuf, n: i32)
    requires { length out.old + 12 ≤ ROOM }
    ensures text { out.new ≡ out.old ++ field_text (signed_decimal n) }
    ensures short { length out.new ≤ length out.old + 12 }
{
    let mut buffer = Buffer::new();
    out.extend(b" ");
    out.extend(buffer.format(n).as_bytes());
}

/// Puts three coordinates last.
fn push_point(out: &mut LineBuf, at: Vec3)
    requires { length out.old + 36 ≤ ROOM }
    ensures text { out.new ≡ out.old ++ spelling.point_text at }
    ensures short { length out.new ≤ length out.old + 36 }
{
    push_number(out, at.x);
    push_number(out, at.y);
    push_number(out, at.z);
}

/// Puts two corners last.
fn push_corners(out: &mut LineBuf, lo: Vec3, hi: Vec3)
    requires { length out.old + 72 ≤ ROOM }
    ensures text { out.new ≡ out.old ++ (spelling.point_text lo ++ spelling.point_text hi) }
    ensures short { length out.new ≤ length out.old + 72 }
{
    push_point(out, lo);
    push_point(out, hi);
}

/// Puts the fields of a line last.
fn push_fields(out: &mut LineBuf, l: &MapLine)
    requires { length out.old + 108 ≤ ROOM }
    ensures { out.new ≡ out.old ++ spelling.fields_text l.now }
{
    match *l {
        MapLine::Arena { lo, hi } | MapLine::Block { lo, hi } | MapLine::Goal { lo, hi } => {
            push_corners(out, lo, hi);
        }
        MapLine::Spawn { at } => push_point(out, at),
        MapLine::Item { at, kind, delay } => {
            push_point(out, at);
            out.extend(b" ");
            out.extend(kind_text(kind));
            push_number(out, i32::from(delay));
        }
        MapLine::Teleport { lo, hi, dest } => {
            push_corners(out, lo, hi);
            push_point(out, dest);
        }
        MapLine::Lift {
            lo,
            hi,
            rise,
            speed,
        } => {
            push_corners(out, lo, hi);
            push_number(out, rise);
            push_number(out, speed);
        }
        MapLine::Depth(depth) => push_number(out, i32::from(depth)),
        MapLine::Shots => {}
        MapLine::Blocks(most) => push_number(out, i32::from(most)),
    }
}

/// Prints a line of a map, without its line feed, into `out`, which is empty. It takes no memory.
pub fn print_map_line(l: &MapLine, out: &mut LineBuf)
    requires empty { out.old ≡ [] }
    requires limits { IsWithinLimits l.now }
    ensures { out.new ≡ spelling.map_line_text l.now }
{
    out.extend(word_of(l).text());
    push_fields(out, l);
}
