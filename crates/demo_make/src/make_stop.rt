ghost use Rattle.std.specs.Prelude.{◌≡◌};
ghost use Rattle.demo_make.specs.declared.make_stop.MakeStop.TheVariants.{WriteFault, NoMemory};

use edge_io::Failed;
use std::alloc::AllocError;
use thiserror::Error;

/// Why a recording wasn't written whole.
#[derive(Clone, Copy, Debug, PartialEq, Eq, Error)]
pub enum MakeStop {
    /// The sink failed.
    #[error("the recording could not be written")]
    WriteFault,
    /// There was no memory for the buffers.
    #[error("out of memory")]
    NoMemory,
}

impl From<Failed> for MakeStop {
    ghost from_gives = { λ _ stop. stop ≡ WriteFault };

    fn from(_error: Failed) -> MakeStop {
        MakeStop::WriteFault
    }
}

impl From<AllocError> for MakeStop {
    ghost from_gives = { λ _ stop. stop ≡ NoMemory };

    fn from(_error: AllocError) -> MakeStop {
        MakeStop::NoMemory
    }
}
