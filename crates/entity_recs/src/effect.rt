use crate::lists::{IdList, StateList};
use crate::rec::Rec;
use arena_geo::Vec3;

/// The state that a record other than the player's gets.
#[derive(Clone, Copy, Debug, Default, PartialEq, Eq)]
pub struct NewState {
    /// Whose state it is.
    pub id: u16,
    /// The state.
    pub state: u64,
}

/// What a player is answered for a move.
#[derive(Debug, Drop)]
pub struct Reply {
    /// Where the player is after it, in sub-units.
    pub origin: Vec3,
    /// What it got, in rising id: a player that it hit, and the items that it took.
    pub got: IdList,
}

/// What a move does.
#[derive(Debug, Drop)]
pub struct Effect {
    /// The player's record after it.
    pub me: Rec,
    /// The new states of other records.
    pub states: StateList,
    /// What the player is answered.
    pub reply: Reply,
}

// An entry has its place, by which the entries of several logs are put in order; a `did` line doesn't print it, since
// it is the line's index in its frame.
/// What a journal holds of a move that was done.
#[derive(Debug, Drop)]
pub struct Entry {
    /// The place of the move in its journal, from 0.
    pub place: u64,
    /// Whose move it was: a slot from 0 to 63.
    pub slot: u8,
    /// The player's own number of the move.
    pub seq: u32,
    /// What the player was answered.
    pub reply: Reply,
}
