use thiserror::Error;

/// The outside refused a read or a write. The source or the sink counts it as a fault.
#[derive(Clone, Copy, Debug, PartialEq, Eq, Error)]
#[error("a read or a write failed")]
pub struct Failed;
