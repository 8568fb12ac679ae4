ghost use Rattle.std.specs.Prelude.{◌≡◌, ◌<◌};
ghost use Rattle.arena_geo.specs.Boxes as boxes;
ghost use Rattle.box_trace.specs.Traces as traces;
ghost use Rattle.box_trace.specs.Windows.{IsNearSpan, span, span_mirrored};

use crate::axis::Axis;
use arena_geo::Aabb;

/// What a box takes up on one axis, in sub-units.
#[derive(Clone, Copy)]
pub struct Span {
    /// Its low end.
    pub lo: i32,
    /// Its high end.
    pub hi: i32,
}

impl Span {
    /// What the box takes up on x.
    pub fn on_x(b: &Aabb) -> Span
        ensures value { result ≡ span b.now.lo.x b.now.hi.x }
        ensures near { IsNearSpan result }
    {
        Span {
            lo: b.lo().x,
            hi: b.hi().x,
        }
    }

    /// What the box takes up on y.
    pub fn on_y(b: &Aabb) -> Span
        ensures value { result ≡ span b.now.lo.y b.now.hi.y }
        ensures near { IsNearSpan result }
    {
        Span {
            lo: b.lo().y,
            hi: b.hi().y,
        }
    }

    /// What the box takes up on z.
    pub fn on_z(b: &Aabb) -> Span
        ensures value { result ≡ span b.now.lo.z b.now.hi.z }
        ensures near { IsNearSpan result }
    {
        Span {
            lo: b.lo().z,
            hi: b.hi().z,
        }
    }

    /// The span on the axis that points the other way.
    pub fn mirrored(self) -> Span
        requires { IsNearSpan self }
        ensures value { result ≡ span_mirrored self }
        ensures near { IsNearSpan result }
    {
        Span {
            lo: -self.hi,
            hi: -self.lo,
        }
    }

    /// Whether each span begins strictly before the other ends.
    pub fn overlaps(self, other: Span) -> bool
        ensures { result ≡ boxes.overlaps_on self.lo self.hi other.lo other.hi }
    {
        self.lo < other.hi && other.lo < self.hi
    }
}

/// The first axis on which the boxes don't overlap.
pub fn separating_axis(a: &Aabb, b: &Aabb) -> Option<Axis>
    ensures { result ≡ traces.separating_axis a.now b.now }
{
    if !Span::on_x(a).overlaps(Span::on_x(b)) {
        Some(Axis::X)
    } else if !Span::on_y(a).overlaps(Span::on_y(b)) {
        Some(Axis::Y)
    } else if !Span::on_z(a).overlaps(Span::on_z(b)) {
        Some(Axis::Z)
    } else {
        None
    }
}
