/// The data of a lift.
#[derive(Clone, Copy, Debug, PartialEq, Eq)]
pub struct Lift {
    /// The z of its lowest place, in sub-units.
    pub low: i32,
    /// How far it rises, in sub-units.
    pub rise: i32,
    /// How far it moves in a frame, in sub-units.
    pub speed: i32,
}
