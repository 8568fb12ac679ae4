use crate::kind::Kind;
use arena_geo::Vec3;

/// One entity: a player in its slot, or a thing of the map. Lengths are in sub-units, velocities in sub-units a second.
///
/// Functions that take a record want it within its bounds, the named fact `IsRecord`: origin, velocity, flags,
/// ammunition and gems carried have limits, the id belongs to the kind, and so does the shape.
#[derive(Clone, Copy, Debug, PartialEq, Eq)]
pub struct Rec {
    /// The slot, 0 to 63, of a player; and from 64 to below [`IDS`](crate::IDS) that of a thing of the map.
    pub id: u16,
    /// What it is.
    pub kind: Kind,
    /// Where it is. The low corner of a teleporter, a goal or a lift.
    pub origin: Vec3,
    /// The low corner of the body, seen from the origin.
    pub mins: Vec3,
    /// The high corner of the body, seen from the origin.
    pub maxs: Vec3,
    /// Its velocity, in sub-units a second.
    pub vel: Vec3,
    /// Bit 0: the last move began on the ground. Bit 1: it ended in a teleporter.
    pub flags: u8,
    /// The ammunition that a player has, at most 100.
    pub ammo: u8,
    /// The gems that a player carries, at most 8.
    pub carry: u8,
    /// The gems that a player has brought to a goal, and the players that it has shot down.
    pub score: u32,
    /// The number of the last command that was done.
    pub seq: u32,
    /// For a taken item the frame in which it returns; for a lift 0 where it rises and 1 where it falls; for a player on a
    /// map with shots its damage, below 100, or 100 and the frame from which on it moves again; else 0.
    pub state: u64,
}
