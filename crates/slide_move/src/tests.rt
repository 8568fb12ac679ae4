use crate::vector::displacement;
use crate::{GREATEST_SPEED, Slid, slide};
use arena_geo::{Aabb, Vec3};
use std::alloc::Global;
use std::process::Abort;
use std::test::Fail;

/// A slide: the body, its velocity and time, its solids, and the shift, the velocity and the side at the end.
#[derive(Clone, Copy)]
struct Row<'a> {
    body: [i32; 6],
    vel: [i32; 3],
    ms: u8,
    fixed: &'a [[i32; 6]],
    moving: &'a [[i32; 6]],
    slid: ([i32; 3], [i32; 3], bool),
}

const ROWS: [Row; 21] = [
    // a corner that is met on x and y at one step: x comes first
    Row {
        body: [-4096, -4096, 0, 4096, 4096, 14336],
        vel: [20000, 20000, 0],
        ms: 50,
        fixed: &[[4596, 4596, 0, 9000, 9000, 20000]],
        moving: &[],
        slid: ([500, 1000, 0], [0, 20000, 0], true),
    },
    // and one on y and z
    Row {
        body: [-10, -10, -10, 10, 10, 10],
        vel: [0, 2000, 2000],
        ms: 50,
        fixed: &[[-100, 40, 40, 100, 60, 60]],
        moving: &[],
        slid: ([0, 30, 100], [0, 0, 2000], true),
    },
    // a wall in each direction
    Row {
        body: [-10, -10, -10, 10, 10, 10],
        vel: [2000, 400, 0],
        ms: 50,
        fixed: &[[40, -100, -100, 60, 100, 100]],
        moving: &[],
        slid: ([30, 20, 0], [0, 400, 0], true),
    },
    Row {
        body: [-10, -10, -10, 10, 10, 10],
        vel: [-2000, 400, 0],
        ms: 50,
        fixed: &[[-60, -100, -100, -40, 100, 100]],
        moving: &[],
        slid: ([-30, 20, 0], [0, 400, 0], true),
    },
    Row {
        body: [-10, -10, -10, 10, 10, 10],
        vel: [400, 2000, 0],
        ms: 50,
        fixed: &[],
        moving: &[[-100, 40, -100, 100, 60, 100]],
        slid: ([20, 30, 0], [400, 0, 0], true),
    },
    Row {
        body: [-10, -10, -10, 10, 10, 10],
        vel: [0, -2000, 400],
        ms: 50,
        fixed: &[],
        moving: &[[-100, -60, -100, 100, -40, 100]],
        slid: ([0, -30, 20], [0, 0, 400], true),
    },
    Row {
        body: [-10, -10, -10, 10, 10, 10],
        vel: [0, 400, 2000],
        ms: 50,
        fixed: &[[-100, -100, 40, 100, 100, 60]],
        moving: &[],
        slid: ([0, 20, 30], [0, 400, 0], false),
    },
    Row {
        body: [-10, -10, -10, 10, 10, 10],
        vel: [400, 0, -2000],
        ms: 50,
        fixed: &[[-100, -100, -60, 100, 100, -40]],
        moving: &[],
        slid: ([20, 0, -30], [400, 0, 0], false),
    },
    // along a floor that it is on
    Row {
        body: [-10, -10, -10, 10, 10, 10],
        vel: [400, 0, -100],
        ms: 50,
        fixed: &[[-100, -100, -60, 100, 100, -10]],
        moving: &[],
        slid: ([20, 0, 0], [400, 0, 0], false),
    },
    // into the corner of two walls and a ceiling
    Row {
        body: [-10, -10, -10, 10, 10, 10],
        vel: [2000, 2000, 2000],
        ms: 50,
        fixed: &[
            [40, -200, -200, 60, 200, 200],
            [-200, 60, -200, 200, 80, 200],
        ],
        moving: &[[-200, -200, 80, 200, 200, 100]],
        slid: ([30, 50, 70], [0, 0, 0], true),
    },
    // inside a solid at the start and at the first step
    Row {
        body: [-10, -10, -10, 10, 10, 10],
        vel: [2000, 0, 0],
        ms: 50,
        fixed: &[[0, 0, 0, 5, 5, 5]],
        moving: &[],
        slid: ([0, 0, 0], [0, 0, 0], false),
    },
    // inside a solid at the start alone
    Row {
        body: [-10, -10, -10, 10, 10, 10],
        vel: [2000, 0, 0],
        ms: 50,
        fixed: &[[-20, -10, -10, -9, 10, 10]],
        moving: &[],
        slid: ([100, 0, 0], [2000, 0, 0], false),
    },
    // the way is cut toward 0
    Row {
        body: [-10, -10, -10, 10, 10, 10],
        vel: [-39, -19, 39],
        ms: 50,
        fixed: &[],
        moving: &[],
        slid: ([-1, 0, 1], [-39, -19, 39], false),
    },
    // no velocity
    Row {
        body: [-10, -10, -10, 10, 10, 10],
        vel: [0, 0, 0],
        ms: 1,
        fixed: &[[0, 0, 0, 5, 5, 5]],
        moving: &[],
        slid: ([0, 0, 0], [0, 0, 0], false),
    },
    // from two servers that were written apart from this one
    Row {
        body: [-4096, -4096, -6144, 4096, 4096, 8192],
        vel: [-2, -74444, -72484],
        ms: 23,
        fixed: &[],
        moving: &[
            [9574, -2954, -15356, 19716, 2619, -7030],
            [6096, -4961, -6624, 9489, 10677, 4855],
            [2532, -7317, -14743, 9850, -4743, -5042],
            [-14726, -558, -18760, -2278, 5508, -6145],
        ],
        slid: ([0, -647, -1], [-2, 0, 0], true),
    },
    Row {
        body: [-4096, -4096, -6144, 4096, 4096, 8192],
        vel: [-73652, -1, 0],
        ms: 50,
        fixed: &[
            [-7645, 3380, 8191, -7259, 10145, 12119],
            [-16623, -7280, -9537, -4096, -1041, 12],
        ],
        moving: &[
            [433, -9240, 1794, 9041, 1682, 9643],
            [6655, -11145, -18857, 8896, -4926, -6145],
            [-5650, -11012, -7192, 7887, -8719, -1789],
            [-441, -5451, -880, 2863, -3629, 2085],
        ],
        slid: ([0, 0, 0], [0, -1, 0], true),
    },
    Row {
        body: [-4096, -4096, -6144, 4096, 4096, 8192],
        vel: [8299, 0, -3228],
        ms: 50,
        fixed: &[
            [7750, 13872, 4205, 8422, 29062, 17180],
            [-4937, 12120, 2599, 1631, 14595, 14791],
            [4227, -5481, 5034, 12680, 7482, 15184],
            [-15264, 3487, -929, -11069, 8872, 5476],
        ],
        moving: &[],
        slid: ([131, 0, -161], [0, 0, -3228], true),
    },
    Row {
        body: [-4096, -4096, -6144, 4096, 4096, 8192],
        vel: [-81920, 41934, 0],
        ms: 38,
        fixed: &[
            [-12855, -12698, 25, -5251, 2836, 6695],
            [-11632, -5349, 8193, -3951, 1157, 20153],
        ],
        moving: &[
            [-14363, 13758, -5819, -2659, 21694, 8341],
            [-3870, -593, 12399, -2456, 2995, 12508],
            [-17609, 905, -11081, -4096, 4979, 746],
            [6102, -8988, 1209, 17156, 6947, 15336],
        ],
        slid: ([0, 1593, 0], [0, 41934, 0], true),
    },
    Row {
        body: [-4096, -4096, -6144, 4096, 4096, 8192],
        vel: [81920, 35690, -81920],
        ms: 26,
        fixed: &[
            [-7604, 3463, -88, -3345, 17049, 2868],
            [-3984, -12771, -2917, 1039, 2246, 10325],
        ],
        moving: &[
            [-6484, 10471, 5567, -3810, 10508, 13714],
            [4097, -2178, -8147, 5142, 2427, -2407],
            [965, 11865, -5148, 5201, 17100, 8975],
            [6153, 726, 8192, 17183, 9758, 22220],
        ],
        slid: ([0, 0, 0], [0, 0, 0], false),
    },
    Row {
        body: [-4096, -4096, -6144, 4096, 4096, 8192],
        vel: [-47927, -600000, -600000],
        ms: 16,
        fixed: &[
            [-6305, 5928, 9006, 7233, 6508, 23778],
            [4643, 252, 3188, 14783, 11422, 5868],
            [-6521, 9553, -2076, -4095, 21573, 8149],
        ],
        moving: &[],
        slid: ([-766, -9600, -9600], [-47927, -600000, -600000], false),
    },
    Row {
        body: [-4096, -4096, -6144, 4096, 4096, 8192],
        vel: [0, -20000, -20000],
        ms: 46,
        fixed: &[
            [-15952, 13783, 8191, -10303, 19175, 20271],
            [-12376, -7955, -15277, -2172, 3664, -6144],
            [-9857, -5545, 8718, -5261, 614, 10194],
        ],
        moving: &[
            [129, 2788, -8488, 227, 7868, 3147],
            [4095, 3603, -13728, 8540, 12884, -9335],
        ],
        slid: ([0, 0, 0], [0, 0, 0], false),
    },
];

fn vec3(v: [i32; 3]) -> Vec3 {
    Vec3 {
        x: v[0],
        y: v[1],
        z: v[2],
    }
}

fn aabb(b: [i32; 6]) -> Option<Aabb> {
    Aabb::new(vec3([b[0], b[1], b[2]]), vec3([b[3], b[4], b[5]]))
}

fn boxes(alloc: Global, corners: &[[i32; 6]]) -> Result<Vec<Aabb>, Fail> {
    let mut boxes = Vec::new(alloc);
    for b in corners {
        boxes.push(aabb(*b).ok_or("a box")?)?;
    }
    Ok(boxes)
}

fn agrees(
    rt: &impl Abort,
    body: &Aabb,
    vel: Vec3,
    ms: u8,
    fixed: &[Aabb],
    moving: &[Aabb],
    slid: Slid,
) {
    assert!(rt; vel.x.unsigned_abs() <= GREATEST_SPEED);
    assert!(rt; vel.y.unsigned_abs() <= GREATEST_SPEED);
    assert!(rt; vel.z.unsigned_abs() <= GREATEST_SPEED);
    assert!(rt; 1 <= ms && ms <= 50);
    assert!(rt; body.moved(displacement(vel, ms)).is_some());
    assert!(rt; fixed.len() <= 10 && moving.len() <= 10);
    assert_eq!(rt; slide(body, vel, ms, fixed, moving), slid);
}

#[test]
fn slides_agree_with_the_rows(rt: HostRuntime) -> Result<(), Fail> {
    for row in &ROWS {
        let body = aabb(row.body).ok_or("a box")?;
        let (fixed, moving) = (
            boxes(rt.alloc(), row.fixed)?,
            boxes(rt.alloc(), row.moving)?,
        );
        let (shift, vel, side) = row.slid;
        let slid = Slid {
            shift: vec3(shift),
            vel: vec3(vel),
            side,
        };
        agrees(&rt, &body, vec3(row.vel), row.ms, &fixed, &moving, slid);
    }
    Ok(())
}
