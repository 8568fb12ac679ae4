ghost use Rattle.std.specs.Prelude.{◌≡◌, ◌<◌, ◌≤◌, length, IfOk};
ghost use Rattle.bot_ways.specs.Ways.{IsCertificate};
ghost use Rattle.bot_ways.specs.Search.{AreTried, IsNearest};
ghost use Rattle.bot_ways.specs.Search as search;

use crate::edges::edge;
use crate::lists::LeastList;
use arena_map::ArenaMap;
use std::alloc::{AllocError, Global};

/// A waypoint that some walk leads to.
#[derive(Clone, Copy, Debug, PartialEq, Eq)]
pub struct Reached {
    /// The number of the waypoint.
    pub waypoint: usize,
    /// The length of the walk.
    pub length: u32,
}

/// The waypoint with its length, if it has one and its edges haven't been tried.
fn open_at(least: &LeastList, settled: &[bool], waypoint: usize) -> Option<Reached>
    requires { waypoint < length settled.now }
    ensures { result ≡ search.open_at least.now settled.now waypoint }
{
    if settled[waypoint] {
        return None;
    }
    let length = least.length_to(waypoint)?;
    Some(Reached { waypoint, length })
}

/// The one with the lesser length, the former where they are equal.
fn nearer(first: Option<Reached>, second: Option<Reached>) -> Option<Reached>
    ensures { result ≡ search.nearer first second }
{
    match (first, second) {
        (Some(one), Some(other)) if other.length < one.length => second,
        (None, _) => second,
        _ => first,
    }
}

/// Of the waypoints that have a length and whose edges haven't been tried, the one with the least length.
fn nearest_open(least: &LeastList, settled: &[bool]) -> Option<Reached>
    requires { length least.now ≡ length settled.now }
    ensures { IsNearest (length settled.now) least.now settled.now result }
{
    let mut nearest = None;
    for waypoint in 0..settled.len() {
        nearest = nearer(nearest, open_at(least, settled, waypoint));
    }
    nearest
}

/// The lesser of two lengths, where there are any.
fn lesser(first: Option<u32>, second: Option<u32>) -> Option<u32>
    ensures { result ≡ search.lesser first second }
{
    match (first, second) {
        (Some(one), Some(other)) => Some(one.min(other)),
        (None, _) => second,
        (Some(_), None) => first,
    }
}

/// The length of a walk that comes to a waypoint by an edge from another one. `None` where there is no edge.
fn through(map: &ArenaMap, from: Reached, to: usize) -> Option<u32>
    requires from { from.waypoint < length map.now.spawns }
    requires to { to < length map.now.spawns }
    requires few { from.length ≤ 4194304 }
    ensures { result ≡ search.through map.now from to }
{
    let step = edge(map, from.waypoint, to)?;
    Some(from.length + step)
}

/// Tries the edges from a waypoint: a length that is more than one through it becomes that one.
fn try_edges(map: &ArenaMap, from: Reached, least: &mut LeastList)
    requires count { length least.old ≡ length map.now.spawns }
    requires from { from.waypoint < length map.now.spawns }
    requires few { from.length ≤ 4194304 }
    ensures { AreTried map.now from least.old least.new }
{
    for to in 0..map.spawns().len() {
        let shortest = lesser(least.length_to(to), through(map, from, to));
        least.set(to, shortest);
    }
}

/// The least lengths of the walks from waypoint 0, by Dijkstra's search: of the waypoints that are reached, the nearest
/// whose edges haven't been tried is the next to be tried.
pub fn least_lengths(alloc: Global, map: &ArenaMap) -> Result<LeastList, AllocError>
    ensures { IfOk result (IsCertificate map.now) }
{
    let count = map.spawns().len();
    let mut settled = vec![in alloc; false; count]?;
    let mut least = LeastList::unreached(count);
    if count == 0 {
        return Ok(least);
    }
    least.set(0, Some(0));
    while let Some(nearest) = nearest_open(&least, &settled) {
        settled[nearest.waypoint] = true;
        try_edges(map, nearest, &mut least);
    }
    Ok(least)
}
