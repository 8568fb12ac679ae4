ghost use Rattle.std.specs.Prelude.{◌≡◌, ◌++◌, OnOk};
ghost use Rattle.bot_ways.specs.PlanTexts as texts;

use crate::lists::LeastList;
use crate::plan_text::PlanText;
use std::alloc::AllocError;

/// Puts the line of a way last: its waypoints.
pub fn push_way(text: &mut PlanText, way: &[u8]) -> Result<(), AllocError>
    ensures { OnOk result (text.new ≡ text.old ++ texts.way_line way.now) }
{
    text.push(b"way")?;
    for waypoint in way {
        text.push_number(u32::from(*waypoint))?;
    }
    text.push(b"\n")
}

/// Puts the line of a length last.
pub fn push_length(text: &mut PlanText, length: u32) -> Result<(), AllocError>
    ensures { OnOk result (text.new ≡ text.old ++ texts.length_line length) }
{
    text.push(b"length")?;
    text.push_number(length)?;
    text.push(b"\n")
}

/// Puts the line of the least lengths last: for each waypoint the number, or a dash where there is none.
pub fn push_least(text: &mut PlanText, least: &LeastList) -> Result<(), AllocError>
    ensures { OnOk result (text.new ≡ text.old ++ texts.least_line least.now) }
{
    text.push(b"least")?;
    for length in least.as_slice() {
        match length {
            Some(length) => text.push_number(*length)?,
            None => text.push(b" -")?,
        }
    }
    text.push(b"\n")
}
