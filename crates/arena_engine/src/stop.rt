ghost use Rattle.std.specs.Prelude.{◌≡◌};
ghost use Rattle.arena_engine.specs.declared.stop.Stop.TheVariants.{NoMemory, WriteFault};
ghost use Rattle.arena_engine.specs.StopOf.{stop_of};

use demo_lines::{DemoStop, LineRefusal};
use edge_io::Failed;
use std::alloc::{AllocError, AllocFailed};
use thiserror::Error;

/// Why a recording isn't played on.
#[derive(Clone, Copy, Debug, PartialEq, Eq, Error)]
pub enum Stop {
    /// A line of the recording was refused.
    #[error("recording refused")]
    Refused(LineRefusal),
    /// The source failed.
    #[error("read fault")]
    ReadFault,
    /// The sink failed.
    #[error("write fault")]
    WriteFault,
    /// There was no memory left.
    #[error("out of memory")]
    NoMemory,
}

impl From<AllocError> for Stop {
    ghost from_gives = { λ _ stop. stop ≡ NoMemory };

    fn from(_error: AllocError) -> Stop {
        Stop::NoMemory
    }
}

impl<T: Drop> From<AllocFailed<T>> for Stop {
    ghost from_gives = { λ _ stop. stop ≡ NoMemory };

    fn from(_error: AllocFailed<T>) -> Stop {
        Stop::NoMemory
    }
}

impl From<Failed> for Stop {
    ghost from_gives = { λ _ stop. stop ≡ WriteFault };

    fn from(_error: Failed) -> Stop {
        Stop::WriteFault
    }
}

impl From<DemoStop> for Stop {
    ghost from_gives = { λ demo stop. stop ≡ stop_of demo };

    fn from(stop: DemoStop) -> Stop {
        match stop {
            DemoStop::Refused { line, fault, rule } => {
                Stop::Refused(LineRefusal { line, fault, rule })
            }
            DemoStop::ReadFault => Stop::ReadFault,
            DemoStop::NoMemory => Stop::NoMemory,
        }
    }
}
