use arena_geo::Vec3;

/// What a move does.
#[derive(Clone, Copy, Debug, PartialEq, Eq)]
pub struct Moved {
    /// Where the record is now, in sub-units.
    pub origin: Vec3,
    /// The velocity that is left, in sub-units a second.
    pub vel: Vec3,
    /// Whether the move began on the ground. A jump leaves it true.
    pub ground: bool,
}
