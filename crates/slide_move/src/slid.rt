ghost use Rattle.std.specs.Prelude.{◌≡◌};
ghost use Rattle.arena_geo.specs.Vectors.{Fits, plus};
ghost use Rattle.slide_move.specs.Slides.{slide_then, still};

use arena_geo::Vec3;

/// What a slide does.
#[derive(Clone, Copy, Debug, PartialEq, Eq)]
pub struct Slid {
    /// How far the body comes, in sub-units.
    pub shift: Vec3,
    /// The velocity that is left, in sub-units a second.
    pub vel: Vec3,
    /// Whether the body ran into a solid on x or y.
    pub side: bool,
}

impl Slid {
    /// A slide that hasn't begun.
    pub(crate) fn still(vel: Vec3) -> Slid
        ensures { result ≡ still vel }
    {
        Slid {
            shift: Vec3::ZERO,
            vel,
            side: false,
        }
    }

    /// This slide, and then the next.
    pub(crate) fn then(self, next: Slid) -> Slid
        requires { Fits (plus self.shift next.shift) }
        ensures { result ≡ slide_then self next }
    {
        Slid {
            shift: self.shift + next.shift,
            vel: next.vel,
            side: self.side || next.side,
        }
    }
}
