ghost use Rattle.std.specs.Prelude.{◌≡◌, ◌≢◌, ◌↔◌, ◌+◌, ◌<◌, ◌≤◌, [], length, None, IsTrue, IfOk, IfSome};
ghost use Rattle.bot_ways.specs.Walks.{IsWalk, IsUnreached, HasLeast, length_to};
ghost use Rattle.bot_ways.specs.Ways.{IsWay, IsBefore, IsCertificate, IsFirstBefore};

use crate::edges::edge;
use crate::lists::{LeastList, WayList};
use crate::search::least_lengths;
use arena_map::ArenaMap;
use std::alloc::{AllocError, Global};

/// A way between spawns, and what shows that none is shorter.
#[derive(Debug, Drop)]
pub struct Plan {
    /// For each waypoint the least length of a walk from waypoint 0 to it. `None` where no walk leads there.
    pub least: LeastList,
    /// The way to the target. Empty where no walk leads there.
    pub way: WayList,
}

/// Whether two lengths differ by this step.
fn differ_by(here: u32, there: u32, step: u32) -> bool
    ensures { IsTrue result ↔ (here + step ≡ there) }
{
    here <= there && there - here == step
}

/// Whether an edge leads from one waypoint to another, and the lengths of the two differ by its length.
fn is_before(map: &ArenaMap, least: &LeastList, from: usize, to: usize) -> bool
    requires from { from < length map.now.spawns }
    requires to { to < length map.now.spawns }
    ensures { IsTrue result ↔ IsBefore map.now least.now from to }
{
    let Some(here) = least.length_to(from) else {
        return false;
    };
    let Some(there) = least.length_to(to) else {
        return false;
    };
    let Some(step) = edge(map, from, to) else {
        return false;
    };
    differ_by(here, there, step)
}

/// The least waypoint before this one.
fn waypoint_before(map: &ArenaMap, least: &LeastList, waypoint: u8) -> Option<u8>
    requires { waypoint < length map.now.spawns }
    ensures { IsFirstBefore map.now least.now waypoint result }
{
    for from in 0..map.spawns().len() {
        if is_before(map, least, from, usize::from(waypoint)) {
            return Some(from as u8);
        }
    }
    None
}

/// The way to a waypoint that has a length, from its end to waypoint 0.
fn way_back(map: &ArenaMap, least: &LeastList, target: u8) -> WayList
    requires certificate { IsCertificate map.now least.now }
    requires reached { length_to least.now target ≢ None }
    requires few { length least.now ≤ 64 }
    ensures some { result ≢ [] }
    ensures way { IsWay map.now least.now target result }
    ensures walk { IfSome (length_to least.now target) (IsWalk map.now 0 target result) }
{
    let mut way = WayList::new();
    way.push_first(target);
    let mut first = target;
    while let Some(before) = waypoint_before(map, least, first) {
        way.push_first(before);
        first = before;
    }
    way
}

/// The way to a waypoint. Empty where it has no length.
fn way_to(map: &ArenaMap, least: &LeastList, target: u8) -> WayList
    requires { IsCertificate map.now least.now }
    ensures unreached { (result ≡ []) ↔ (length_to least.now target ≡ None) }
    ensures way { IfSome (length_to least.now target) (λ n. IsWay map.now least.now target result) }
    ensures walk { IfSome (length_to least.now target) (IsWalk map.now 0 target result) }
{
    match least.length_to(usize::from(target)) {
        Some(_) => way_back(map, least, target),
        None => WayList::new(),
    }
}

// Each edge is tested over all solids of the map: a plan of the largest map takes less than a tenth of a second.
/// Plans the shortest way from the first spawn of a map to another. The waypoints are the spawns, numbered from 0 in line
/// order. An edge leads from one to another that has the same height, isn't at the same place, and is at most 65,536 away
/// on each axis, where no wall or block overlaps a player's body at the one or on its trace to the other. Lifts don't
/// matter.
pub fn plan_way(alloc: Global, map: &ArenaMap, target: u8) -> Result<Plan, AllocError>
    ensures least { IfOk result (λ plan. HasLeast map.now plan.least) }
    ensures certificate { IfOk result (λ plan. IsCertificate map.now plan.least) }
    ensures no_way { IfOk result (λ plan. (plan.way ≡ []) ↔ IsUnreached map.now target) }
    ensures way { IfOk result (λ plan. IfSome (length_to plan.least target) (λ n. IsWay map.now plan.least target plan.way)) }
    ensures walk { IfOk result (λ plan. IfSome (length_to plan.least target) (IsWalk map.now 0 target plan.way)) }
{
    let least = least_lengths(alloc, map)?;
    let way = way_to(map, &least, target);
    Ok(Plan { least, way })
}
