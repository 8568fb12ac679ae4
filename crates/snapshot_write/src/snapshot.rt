use crate::seen::SeenList;
use entity_recs::Rec;

// A value of its own, so that reading back needs no fact about a world, which readers don't have; its own record has
// state 0 by definition.
/// What a player is shown at the end of a frame.
#[derive(Drop)]
pub struct Snapshot {
    /// The number of the frame.
    pub frame: u32,
    /// The player's own record. Its id is the slot, its body is a player's, and its state is 0.
    pub own: Rec,
    /// The other entities that it sees, in rising id.
    pub seen: SeenList,
}
