ghost use Rattle.std.specs.Prelude.{◌≡◌, ◌+◌, ◌^◌, ◌<◌};
ghost use Rattle.box_trace.specs.Meetings as meetings;

use arena_geo::Aabb;

/// A solid that a body meets on its way.
#[derive(Clone, Copy)]
pub struct Meeting {
    /// The step at which the body overlaps the solid.
    pub step: u32,
    /// The place of the solid in its list.
    pub block: u16,
    /// The solid itself.
    pub solid: Aabb,
}

impl Meeting {
    /// The same meeting in a longer list, which has so many other solids first.
    pub fn after(self, solids: usize) -> Meeting
        requires { solids + self.block < 2 ^ 16 }
        ensures { result ≡ meetings.after solids self }
    {
        Meeting {
            block: solids as u16 + self.block,
            ..self
        }
    }
}

/// The meeting at the lower step, and `first` where both are at one step.
pub fn earlier(first: Option<Meeting>, second: Option<Meeting>) -> Option<Meeting>
    ensures { result ≡ meetings.earlier first second }
{
    match (first, second) {
        (Some(a), Some(b)) if b.step < a.step => second,
        _ => first.or(second),
    }
}
