ghost use Rattle.std.specs.Prelude.{◌≡◌, ◌≤◌, ◌++◌, length, OnOk, IfOk};
ghost use Rattle.bot_ways.specs.Moves.{waypoint_points, frames_between, frames_through, length_through};
ghost use Rattle.bot_ways.specs.PlanTexts.{frames_text};
ghost use Rattle.bot_ways.specs.Walking.{IsStride, IsSomeWalk};

use crate::edges::{distance, waypoint_point};
use crate::moves::{move_towards, moves_between};
use crate::plan_text::PlanText;
use arena_geo::Vec3;
use arena_map::ArenaMap;
use packet_read::Packet;
use std::alloc::AllocError;

/// Puts the frames last in which the bot goes from one place to another. The first of its moves has this number.
fn push_frames(text: &mut PlanText, seq: u32, from: Vec3, to: Vec3) -> Result<(), AllocError>
    requires stride { IsStride from to }
    requires few { seq ≤ 1024 }
    ensures { OnOk result (text.new ≡ text.old ++ frames_text (frames_between seq from to)) }
{
    for number in seq..seq + moves_between(from, to) {
        text.push_frame(&Packet::Move(move_towards(number, from, to)))?;
    }
    Ok(())
}

/// Puts the frames last in which the bot walks along the way, and answers the way's length.
pub fn push_walk(text: &mut PlanText, map: &ArenaMap, way: &[u8]) -> Result<u32, AllocError>
    requires walk { IsSomeWalk map.now way.now }
    requires few { length way.now ≤ 64 }
    ensures text { OnOk result (text.new ≡ text.old ++ frames_text (frames_through 1 (waypoint_points map.now way.now))) }
    ensures length { IfOk result (λ far. far ≡ length_through (waypoint_points map.now way.now)) }
{
    let mut seq = 1;
    let mut length = 0;
    for index in 1..way.len() {
        let from = waypoint_point(map, usize::from(way[index - 1]));
        let to = waypoint_point(map, usize::from(way[index]));
        push_frames(text, seq, from, to)?;
        seq += moves_between(from, to);
        length += distance(from, to);
    }
    Ok(length)
}
