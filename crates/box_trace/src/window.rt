ghost use Rattle.std.specs.Prelude.{◌≡◌, ◌<◌, ◌≤◌, pos, unsigned_abs};
ghost use Rattle.box_trace.specs.Windows as windows;
ghost use Rattle.box_trace.specs.Windows.{IsFirstReach, IsOverlapWindow, IsNearSpan};

use crate::span::Span;
use crate::way::REACH;

/// The steps from `from` on and before `to`.
#[derive(Clone, Copy)]
pub struct Window {
    /// The first step of the window.
    pub from: u32,
    /// The first step after it.
    pub to: u32,
}

impl Window {
    /// The steps that lie in both windows. `None` where there are none.
    pub fn meet(self, other: Window) -> Option<Window>
        ensures { result ≡ windows.meet self other }
    {
        let from = self.from.max(other.from);
        let to = self.to.min(other.to);
        if from < to {
            Some(Window { from, to })
        } else {
            None
        }
    }
}

/// The first of the steps 0 to `count` at which a part of this size has come at least as far as `target`, and
/// `count + 1` where it has not even at the last one.
fn first_reach(target: i32, size: u32, count: u32) -> u32
    requires size { size ≤ count }
    requires count { count ≤ REACH }
    ensures { IsFirstReach target size count result }
{
    if target <= 0 {
        return 0;
    }
    let target = target.unsigned_abs();
    if target > size {
        return count + 1;
    }
    (u64::from(target) * u64::from(count)).div_ceil(u64::from(size)) as u32
}

/// The window of a span that moves upwards by `size`: from the step at which it has come farther than to touch the
/// other span, to the step at which it has passed it.
fn window_upwards(span: Span, other: Span, size: u32, count: u32) -> Window
    requires size { size ≤ count }
    requires count { count ≤ REACH }
    requires near { IsNearSpan span }
    requires other_near { IsNearSpan other }
    ensures { IsOverlapWindow span other (pos size) count result }
{
    Window {
        from: first_reach(other.lo - span.hi + 1, size, count),
        to: first_reach(other.hi - span.lo, size, count),
    }
}

/// The steps, up to `count`, at which the span overlaps the other, where it moves by `part` in all of them.
pub fn overlap_window(span: Span, other: Span, part: i32, count: u32) -> Window
    requires part { unsigned_abs part ≤ count }
    requires count { count ≤ REACH }
    requires near { IsNearSpan span }
    requires other_near { IsNearSpan other }
    ensures { IsOverlapWindow span other part count result }
{
    let size = part.unsigned_abs();
    if part < 0 {
        window_upwards(span.mirrored(), other.mirrored(), size, count)
    } else {
        window_upwards(span, other, size, count)
    }
}
