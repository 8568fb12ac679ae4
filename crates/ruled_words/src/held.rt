use core_seats::{LoadedPlayer, NodeQueue};

/// What a move takes, reads and writes, by the own record as it was loaded when its command began.
#[derive(Drop)]
pub struct Held {
    /// The player's slot.
    pub slot: u8,
    /// The words of the own record.
    pub own: LoadedPlayer,
    /// The leaves of its region, bit i for leaf i.
    pub leaves: u32,
    /// The inner nodes that are visited for these leaves, bit i for node i.
    pub inner: u32,
    /// The leaves' nodes, rising.
    pub wanted: NodeQueue,
}
