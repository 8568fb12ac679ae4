/// Where a move calls its gate.
#[derive(Clone, Copy, Debug, PartialEq, Eq)]
pub enum GatePoint {
    /// All leaves of the move are held, and no inner node is.
    Leaves,
    /// The effect is known; the leaves are held, and no inner node is.
    Computed,
    /// All writes are done and the inner nodes are given back; the leaves are still held.
    Committed,
}
