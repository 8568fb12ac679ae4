use thiserror::Error;

/// Why bytes are no packet: the first rule of the format that they break, in this order.
#[derive(Clone, Copy, Debug, PartialEq, Eq, Error)]
pub enum PacketFault {
    /// There is no byte.
    #[error("the packet is empty")]
    Empty,
    /// The first byte is no known version.
    #[error("the version is unknown")]
    Version,
    /// The second byte is no kind of that version.
    #[error("the kind is unknown")]
    Kind,
    /// There are fewer bytes than the kind takes, with as many commands as are announced.
    #[error("the packet is too short")]
    Short,
    /// There are more bytes than the kind takes, with as many commands as are announced.
    #[error("the packet is too long")]
    Long,
    /// A move lasts less than 1 or more than 50 milliseconds.
    #[error("the time of the move is not 1 to 50 milliseconds")]
    Time,
    /// A move has a button that is not known in that version.
    #[error("a button is unknown")]
    Buttons,
    /// There is no command, or more than 3, or more than there are numbers from 0 to the newest.
    #[error("the number of commands is wrong")]
    Count,
}
