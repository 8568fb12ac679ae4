//! Sources and sinks of bytes that count their faults, the lines of a source, and the fields and numbers on a line.
#![tactic(auto)]

pub use failed::Failed;
pub use field::{cut, field_at};
pub use laws::{integer_is_decimal, integers_have_form, limits_are_known, natural_is_decimal};
pub use line_buf::{LineBuf, ROOM};
pub use line_reader::{LONGEST, LineReader, NextLine};
pub use mem_sink::MemSink;
pub use mem_source::MemSource;
pub use number::{integer, is_integer, is_natural, natural};
pub use sink::Sink;
pub use source::Source;
pub use std_sink::StdSink;
pub use std_source::StdSource;
pub use whole::write_whole;

mod failed;
mod field;
mod laws;
mod line_buf;
mod line_reader;
mod mem_sink;
mod mem_source;
mod number;
mod sink;
mod source;
mod std_sink;
mod std_source;
mod whole;
