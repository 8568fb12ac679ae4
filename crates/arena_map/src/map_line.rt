use arena_geo::Vec3;
use entity_recs::Kind;

/// What one line of a map says. Places and lengths are in sub-units.
///
/// Functions that take a line want its numbers within their limits, the named fact `IsWithinLimits`.
#[derive(Clone, Copy, Debug, PartialEq, Eq)]
pub enum MapLine {
    /// The arena's low corner and its high one.
    Arena {
        lo: Vec3,
        hi: Vec3,
    },
    /// A block's low corner and its high one.
    Block {
        lo: Vec3,
        hi: Vec3,
    },
    /// Players join with their origin here.
    Spawn {
        at: Vec3,
    },
    /// An item of this kind, which returns so many frames after it was taken.
    Item {
        at: Vec3,
        kind: Kind,
        delay: u16,
    },
    /// A teleporter's low corner and its high one, and the origin of players that it has moved.
    Teleport {
        lo: Vec3,
        hi: Vec3,
        dest: Vec3,
    },
    /// A goal's low corner and its high one.
    Goal {
        lo: Vec3,
        hi: Vec3,
    },
    /// A lift's low corner and its high one at its lowest place, how far it rises, and how far it moves in a frame.
    Lift {
        lo: Vec3,
        hi: Vec3,
        rise: i32,
        speed: i32,
    },
    /// The depth of the tree of areanodes: that of its leaves, where the root has depth 0.
    Depth(u8),
    /// Players can shoot.
    Shots,
    /// How many blocks there may be.
    Blocks(u16),
}
