use thiserror::Error;

/// Why bytes are no snapshot: the first rule of the format that they break, in this order.
#[derive(Clone, Copy, Debug, PartialEq, Eq, Error)]
pub enum SnapFault {
    /// There are fewer bytes than 43, or than 43 and 16 for each entity that is counted.
    #[error("the snapshot is too short")]
    Short,
    /// The first byte is no known version.
    #[error("the version is unknown")]
    Version,
    /// The ids of the entities don't rise, or the player's own slot is among them.
    #[error("the entities are not in rising id, or the player is among them")]
    Order,
    /// The count of the entities or a field is out of its range.
    #[error("the count or a field is out of its range")]
    Count,
    /// There are more bytes than the count says.
    #[error("the snapshot is too long")]
    Long,
}
