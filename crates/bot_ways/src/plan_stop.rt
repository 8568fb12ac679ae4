ghost use Rattle.std.specs.Prelude.{◌≡◌};
ghost use Rattle.bot_ways.specs.declared.plan_stop.PlanStop.TheVariants.{WriteFault, NoMemory};

use edge_io::Failed;
use std::alloc::AllocError;
use thiserror::Error;

/// Why a plan wasn't written whole.
#[derive(Clone, Copy, Debug, PartialEq, Eq, Error)]
pub enum PlanStop {
    /// The sink failed.
    #[error("the plan could not be written")]
    WriteFault,
    /// There was no memory for the text.
    #[error("out of memory")]
    NoMemory,
}

impl From<Failed> for PlanStop {
    ghost from_gives = { λ _ stop. stop ≡ WriteFault };

    fn from(_error: Failed) -> PlanStop {
        PlanStop::WriteFault
    }
}

impl From<AllocError> for PlanStop {
    ghost from_gives = { λ _ stop. stop ≡ NoMemory };

    fn from(_error: AllocError) -> PlanStop {
        PlanStop::NoMemory
    }
}
