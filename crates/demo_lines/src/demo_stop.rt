ghost use Rattle.std.specs.Prelude.{◌≡◌};
ghost use Rattle.demo_lines.specs.declared.demo_stop.DemoStop.TheVariants.{NoMemory};
ghost use Rattle.demo_lines.specs.Reads.{stop_at};

use crate::line_refusal::LineRefusal;
use std::alloc::AllocError;
use thiserror::Error;

// `NoMemory` is a stop of its own: the lines taken break no rule, and no read failed. Like the other stops it is
// kept, and later calls give it again.
/// Why a recording isn't read further.
#[derive(Clone, Copy, Debug, PartialEq, Eq, Error)]
pub enum DemoStop {
    /// This line, counted from 1, has this fault, 1 to 10: the first faulty line, and the first of its faults. The rule
    /// of the map that it breaks is 1 to 8, or 0 where it breaks none.
    #[error("line {line} is refused, fault {fault}")]
    Refused { line: u64, fault: u8, rule: u8 },
    /// The source failed.
    #[error("the recording could not be read")]
    ReadFault,
    /// There was no memory left for the map.
    #[error("out of memory")]
    NoMemory,
}

impl From<AllocError> for DemoStop {
    ghost from_gives = { λ _ stop. stop ≡ NoMemory };

    fn from(_error: AllocError) -> DemoStop {
        DemoStop::NoMemory
    }
}

impl From<LineRefusal> for DemoStop {
    ghost from_gives = { λ why stop. stop ≡ stop_at why };

    fn from(why: LineRefusal) -> DemoStop {
        let LineRefusal { line, fault, rule } = why;
        DemoStop::Refused { line, fault, rule }
    }
}
