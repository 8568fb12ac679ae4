/// A client whose player is live.
#[derive(Clone, Copy, Debug, PartialEq, Eq)]
pub struct Client {
    /// The port that it sends from.
    pub port: u16,
    /// The number of its last accepted move since it joined, and 0 before the first one.
    pub last: u32,
    /// Whether it leaves at the end of the frame.
    pub leaves: bool,
    /// How many of its moves were accepted in this frame.
    pub moves: u8,
}

/// A live slot, and its client.
#[derive(Clone, Copy, Debug, PartialEq, Eq)]
pub struct LiveSlot {
    /// The slot, 0 to 63.
    pub slot: u8,
    /// Its client.
    pub client: Client,
}
