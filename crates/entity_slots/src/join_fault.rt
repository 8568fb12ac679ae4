use thiserror::Error;

/// Why a port gets no slot.
#[derive(Clone, Copy, Debug, PartialEq, Eq, Error)]
pub enum JoinFault {
    /// The port is joined already.
    #[error("the port is joined already")]
    Already,
    /// All slots are live.
    #[error("all slots are live")]
    Full,
}
