use std::ops::{Add, Sub};

/// A place or a displacement, in sub-units (256 of them are one Quake unit), or a velocity, in sub-units a second.
#[derive(Clone, Copy, Debug, PartialEq, Eq)]
pub struct Vec3 {
    /// The part along the first axis.
    pub x: i32,
    /// The part along the second axis.
    pub y: i32,
    /// The part along the third axis, which points up.
    pub z: i32,
}

impl Add for Vec3 {
    ghost use Rattle.std.specs.Prelude.{◌≡◌};
    ghost use Rattle.arena_geo.specs.Vectors.{Fits, plus};

    type Output = Vec3;

    ghost can_add = { λ v w. Fits (plus v w) };

    ghost add_gives = { λ v w sum. sum ≡ plus v w };

    fn add(self, other: Vec3) -> Vec3 {
        Vec3 {
            x: self.x + other.x,
            y: self.y + other.y,
            z: self.z + other.z,
        }
    }
}

impl Sub for Vec3 {
    ghost use Rattle.std.specs.Prelude.{◌≡◌};
    ghost use Rattle.arena_geo.specs.Vectors.{Fits, minus};

    type Output = Vec3;

    ghost can_sub = { λ v w. Fits (minus v w) };

    ghost sub_gives = { λ v w difference. difference ≡ minus v w };

    fn sub(self, other: Vec3) -> Vec3 {
        Vec3 {
            x: self.x - other.x,
            y: self.y - other.y,
            z: self.z - other.z,
        }
    }
}

impl Vec3 {
    ghost use Rattle.std.specs.Prelude.{◌≡◌};
    ghost use Rattle.arena_geo.specs.Vectors as vectors;

    /// 0 on each axis: no displacement, and no velocity.
    pub const ZERO: Vec3 = Vec3 { x: 0, y: 0, z: 0 };

    /// The lesser part on each axis.
    pub fn min(self, other: Vec3) -> Vec3
        ensures { result ≡ vectors.least self other }
    {
        Vec3 {
            x: self.x.min(other.x),
            y: self.y.min(other.y),
            z: self.z.min(other.z),
        }
    }

    /// The greater part on each axis.
    pub fn max(self, other: Vec3) -> Vec3
        ensures { result ≡ vectors.greatest self other }
    {
        Vec3 {
            x: self.x.max(other.x),
            y: self.y.max(other.y),
            z: self.z.max(other.z),
        }
    }
}
