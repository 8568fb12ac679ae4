use super::{ARENA, begun, rule_of};
use arena_map::ArenaMap;
use bot_ways::{LeastList, MOST_WAYPOINTS, WayList, plan_way};
use std::alloc::Global;
use std::process::Abort;
use std::test::Fail;

/// The map of the arena and these lines.
fn map_of(alloc: Global, lines: &[&[u8]]) -> Result<ArenaMap, &'static str> {
    let mut map = begun(alloc, ARENA)?;
    for text in lines {
        if rule_of(&mut map, text)? != 0 {
            return Err("a line of the map");
        }
    }
    Ok(map)
}

/// Plans the way to a target, and compares it and the least lengths.
fn expect(
    rt: &impl Abort,
    alloc: Global,
    lines: &[&[u8]],
    target: u8,
    way: &[u8],
    least: &[Option<u32>],
) -> Result<(), Fail> {
    let map = map_of(alloc, lines)?;
    let plan = plan_way(alloc, &map, target).map_err(|_| "memory")?;
    assert_eq!(rt; plan.way.as_slice(), way);
    assert_eq!(rt; plan.least.as_slice(), least);
    Ok(())
}

#[test]
fn ways_go_round_blocks(rt: HostRuntime) -> Result<(), Fail> {
    let free: &[&[u8]] = &[
        b"spawn 0 0 6144",
        b"spawn 40000 0 6144",
        b"spawn 40000 40000 6144",
    ];
    let least = &[Some(0), Some(40_000), Some(40_000)];
    expect(&rt, rt.alloc(), free, 0, &[0], least)?;
    expect(&rt, rt.alloc(), free, 2, &[0, 2], least)?;
    expect(&rt, rt.alloc(), free, 3, &[], least)?;
    expect(&rt, rt.alloc(), free, 255, &[], least)?;
    let blocked: &[&[u8]] = &[
        b"spawn 0 0 6144",
        b"spawn 40000 0 6144",
        b"spawn 40000 40000 6144",
        b"block 15000 15000 0 25000 25000 20000",
    ];
    let least = &[Some(0), Some(40_000), Some(80_000)];
    expect(&rt, rt.alloc(), blocked, 2, &[0, 1, 2], least)
}

#[test]
fn far_waypoints_are_not_reached(rt: HostRuntime) -> Result<(), Fail> {
    let far: &[&[u8]] = &[
        b"spawn 0 0 6144",
        b"spawn 40000 0 6144",
        b"spawn 120000 0 6144",
    ];
    let least = &[Some(0), Some(40_000), None];
    expect(&rt, rt.alloc(), far, 1, &[0, 1], least)?;
    expect(&rt, rt.alloc(), far, 2, &[], least)?;
    expect(&rt, rt.alloc(), &[], 0, &[], &[])
}

#[test]
fn edges_lead_along_one_height(rt: HostRuntime) -> Result<(), Fail> {
    let heights: &[&[u8]] = &[b"spawn 0 0 6144", b"spawn 40000 0 20000"];
    expect(&rt, rt.alloc(), heights, 1, &[], &[Some(0), None])?;
    let one_place: &[&[u8]] = &[b"spawn 0 0 6144", b"spawn 0 0 6144", b"spawn -10000 0 6144"];
    let least = &[Some(0), Some(20_000), Some(10_000)];
    expect(&rt, rt.alloc(), one_place, 1, &[0, 2, 1], least)?;
    let reach: &[&[u8]] = &[
        b"spawn -32768 0 6144",
        b"spawn 32768 0 6144",
        b"spawn 32769 65536 6144",
    ];
    let least = &[Some(0), Some(65_536), Some(131_072)];
    expect(&rt, rt.alloc(), reach, 2, &[0, 1, 2], least)?;
    let inside: &[&[u8]] = &[
        b"spawn 0 0 6144",
        b"spawn 40000 0 6144",
        b"block -1000 -1000 5000 1000 1000 9000",
    ];
    expect(&rt, rt.alloc(), inside, 1, &[], &[Some(0), None])
}

#[test]
fn shorter_ways_may_have_more_edges(rt: HostRuntime) -> Result<(), Fail> {
    let detours: &[&[u8]] = &[
        b"spawn 0 0 6144",
        b"spawn 0 15000 6144",
        b"spawn 40000 15000 6144",
        b"spawn 20000 60000 6144",
        b"spawn 40000 0 6144",
        b"block 15000 -5000 0 25000 5000 20000",
    ];
    let least = &[
        Some(0),
        Some(15_000),
        Some(55_000),
        Some(60_000),
        Some(70_000),
    ];
    expect(&rt, rt.alloc(), detours, 4, &[0, 1, 2, 4], least)?;
    expect(&rt, rt.alloc(), detours, 3, &[0, 3], least)?;
    let equals: &[&[u8]] = &[
        b"spawn 0 0 6144",
        b"spawn 40000 10000 6144",
        b"spawn 40000 -10000 6144",
        b"spawn 80000 0 6144",
    ];
    let least = &[Some(0), Some(40_000), Some(40_000), Some(80_000)];
    expect(&rt, rt.alloc(), equals, 3, &[0, 1, 3], least)
}

#[test]
fn lists_hold_64(rt: HostRuntime) -> Result<(), Fail> {
    let mut least = LeastList::new();
    let mut way = WayList::new();
    for waypoint in 0..64 {
        assert!(rt; least.push(None));
        assert!(rt; way.push(waypoint));
    }
    assert!(rt; !least.push(Some(0)));
    assert!(rt; !way.push(64));
    assert_eq!(rt; least.as_slice().len(), MOST_WAYPOINTS);
    assert_eq!(rt; way.as_slice().len(), MOST_WAYPOINTS);
    Ok(())
}
