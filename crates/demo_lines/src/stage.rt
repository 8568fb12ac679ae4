ghost use Rattle.std.specs.Prelude.{◌≡◌};
ghost use Rattle.demo_lines.specs.Known as known;

use crate::line_fault::LineFault;

/// How far the lines of a recording have come.
#[derive(Clone, Copy, Debug, PartialEq, Eq)]
pub enum Stage {
    /// Nothing was read: the arena comes next.
    Start,
    /// There is an arena, and no frame yet.
    Map,
    /// A frame is open.
    Playing,
    /// The line `end` was read. The rest of the input is ignored.
    Ended,
    /// A line was refused for this fault. The rest of the input is ignored.
    Refused(LineFault),
}

impl Stage {
    ghost use Rattle.demo_lines.specs.Known as known;

    /// Whether the map is whole: a frame was opened, or the recording is over.
    pub fn is_map_whole(self) -> bool
        ensures { result ≡ known.is_map_whole self }
    {
        !matches!(self, Stage::Start | Stage::Map)
    }
}
