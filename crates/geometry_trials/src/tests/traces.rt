use super::box_of;
use arena_geo::{Aabb, Vec3};
use box_trace::{Hit, REACH, shift_at, step_count, trace, trace_by_steps};
use std::alloc::Global;
use std::process::Abort;
use std::test::Fail;

/// A trace: its body and displacement, its solids, and what it finds: the steps, the axis and the block.
#[derive(Clone, Copy)]
struct Row<'a> {
    body: [i32; 6],
    d: [i32; 3],
    fixed: &'a [[i32; 6]],
    moving: &'a [[i32; 6]],
    hit: (u32, Option<u8>, Option<u16>),
}

const ROWS: [Row; 22] = [
    // a wall ahead
    Row {
        body: [-4096, -4096, 0, 4096, 4096, 14336],
        d: [25600, 0, 0],
        fixed: &[[20000, -10000, 0, 30000, 10000, 20000]],
        moving: &[],
        hit: (15904, Some(0), Some(0)),
    },
    // no step at all, in the open and inside a solid
    Row {
        body: [-4096, -4096, 0, 4096, 4096, 14336],
        d: [0, 0, 0],
        fixed: &[[20000, -10000, 0, 30000, 10000, 20000]],
        moving: &[],
        hit: (0, None, None),
    },
    Row {
        body: [0, 0, 0, 10, 10, 10],
        d: [0, 0, 0],
        fixed: &[],
        moving: &[[0, 0, 0, 10, 10, 10]],
        hit: (0, None, None),
    },
    // inside a solid at the start and at the first step
    Row {
        body: [0, 0, 0, 10, 10, 10],
        d: [5, 0, 0],
        fixed: &[[2, 2, 2, 8, 8, 8]],
        moving: &[],
        hit: (0, None, Some(0)),
    },
    // inside a solid at the start alone, and then in the open
    Row {
        body: [0, 0, 0, 10, 10, 10],
        d: [20, 0, 0],
        fixed: &[[-5, 0, 0, 1, 10, 10]],
        moving: &[],
        hit: (20, None, None),
    },
    // faces that touch: ahead, and beside the way
    Row {
        body: [0, 0, 0, 10, 10, 10],
        d: [3, 0, 0],
        fixed: &[[10, 0, 0, 20, 10, 10]],
        moving: &[],
        hit: (0, Some(0), Some(0)),
    },
    Row {
        body: [0, 0, 0, 10, 10, 10],
        d: [0, 5, 0],
        fixed: &[[10, 0, 0, 20, 10, 10]],
        moving: &[],
        hit: (5, None, None),
    },
    // below 0 the parts are cut toward 0: at step 3 y has come 9 / 7 and z 15 / 7
    Row {
        body: [0, 0, 0, 10, 10, 10],
        d: [-7, -3, 0],
        fixed: &[[-100, -20, 0, 100, 0, 10]],
        moving: &[],
        hit: (2, Some(1), Some(0)),
    },
    Row {
        body: [0, 0, 0, 10, 10, 10],
        d: [-7, 0, -5],
        fixed: &[[-100, 0, -20, 100, 10, -1]],
        moving: &[],
        hit: (2, Some(2), Some(0)),
    },
    // a corner: x comes before y and z, y before z
    Row {
        body: [0, 0, 0, 10, 10, 10],
        d: [5, 5, 5],
        fixed: &[[12, 12, 12, 20, 20, 20]],
        moving: &[],
        hit: (2, Some(0), Some(0)),
    },
    Row {
        body: [0, 0, 0, 10, 10, 10],
        d: [0, 5, 5],
        fixed: &[],
        moving: &[[0, 12, 12, 10, 20, 20]],
        hit: (2, Some(1), Some(0)),
    },
    // two solids at one step, and a nearer one later in the list
    Row {
        body: [0, 0, 0, 10, 10, 10],
        d: [5, 0, 0],
        fixed: &[[12, 0, 0, 20, 10, 10]],
        moving: &[[12, 0, 0, 20, 10, 10]],
        hit: (2, Some(0), Some(0)),
    },
    Row {
        body: [0, 0, 0, 10, 10, 10],
        d: [5, 0, 0],
        fixed: &[[14, 0, 0, 20, 10, 10]],
        moving: &[[12, 0, 0, 20, 10, 10]],
        hit: (2, Some(0), Some(1)),
    },
    // a solid that is passed before the last step
    Row {
        body: [0, 0, 0, 1, 1, 1],
        d: [10, 0, 0],
        fixed: &[[3, 0, 0, 4, 1, 1]],
        moving: &[],
        hit: (2, Some(0), Some(0)),
    },
    // the longest ways, and the corners of the range
    Row {
        body: [0, 0, 0, 1, 1, 1],
        d: [-65536, 0, 0],
        fixed: &[[-65536, -5, -5, -65535, 5, 5]],
        moving: &[],
        hit: (65535, Some(0), Some(0)),
    },
    Row {
        body: [2031616, 2031616, -2097152, 2031617, 2031617, -2097151],
        d: [65535, 65535, 65536],
        fixed: &[],
        moving: &[[2097150, 2097150, -2097152, 2097152, 2097152, 2097152]],
        hit: (65534, Some(0), Some(0)),
    },
    // from two servers that were written apart from this one
    Row {
        body: [-4096, -4096, -6144, 4096, 4096, 8192],
        d: [-2, -51612, -14161],
        fixed: &[],
        moving: &[
            [9574, -2954, -15356, 19716, 2619, -7030],
            [6096, -4961, -6624, 9489, 10677, 4855],
            [2532, -7317, -14743, 9850, -4743, -5042],
            [-14726, -558, -18760, -2278, 5508, -6145],
        ],
        hit: (7, Some(2), Some(3)),
    },
    Row {
        body: [-4096, -4096, -6144, 4096, 4096, 8192],
        d: [25292, -53314, 0],
        fixed: &[
            [-8861, -13613, 2981, -4096, -5878, 16885],
            [4312, 7327, -8822, 8134, 20041, 3041],
            [4697, -8039, -7401, 4979, -5798, 3590],
            [4096, -3162, 11811, 19857, 12140, 18985],
        ],
        moving: &[
            [1138, 10243, -3759, 12334, 24553, -234],
            [572, 15492, 2375, 6933, 15858, 14828],
            [10067, -606, -2723, 13810, 2868, 9765],
            [-8388, -1044, 6114, -202, 7900, 16052],
        ],
        hit: (0, None, Some(7)),
    },
    Row {
        body: [-4096, -4096, -6144, 4096, 4096, 8192],
        d: [6639, 0, -54984],
        fixed: &[
            [7750, 13872, 4205, 8422, 29062, 17180],
            [-4937, 12120, 2599, 1631, 14595, 14791],
            [4227, -5481, 5034, 12680, 7482, 15184],
            [-15264, 3487, -929, -11069, 8872, 5476],
        ],
        moving: &[],
        hit: (1093, Some(0), Some(2)),
    },
    Row {
        body: [-4096, -4096, -6144, 4096, 4096, 8192],
        d: [-21168, 49778, -1],
        fixed: &[
            [-10815, -2580, -5806, -7324, 7810, 8891],
            [7533, 8077, -7958, 16398, 20382, -6144],
            [3775, 6849, 1836, 7304, 18951, 13440],
        ],
        moving: &[
            [2573, 9645, 12650, 5567, 16509, 14519],
            [11608, 12506, -9094, 20514, 20881, -7439],
            [-9923, 2016, -12919, 3704, 10525, -6144],
        ],
        hit: (7593, Some(0), Some(0)),
    },
    Row {
        body: [-4096, -4096, -6144, 4096, 4096, 8192],
        d: [-5, -1, 0],
        fixed: &[
            [2878, -14475, 560, 12595, -13339, 15565],
            [4096, -272, 11853, 7872, 92, 22548],
        ],
        moving: &[
            [-12786, -7734, -610, -4096, -7674, 5686],
            [2210, -4463, 3845, 9854, -4358, 11634],
            [-11483, -20012, 5999, -1134, -4096, 12788],
            [-9600, 1977, -19455, -7765, 4238, -6144],
        ],
        hit: (4, Some(1), Some(4)),
    },
    Row {
        body: [-4096, -4096, -6144, 4096, 4096, 8192],
        d: [42357, 0, 0],
        fixed: &[
            [10004, 11216, -15734, 20995, 23600, -12240],
            [4725, 4095, -249, 5590, 15286, 11126],
        ],
        moving: &[
            [-4594, -10681, 9492, 8980, -936, 17016],
            [14604, 8874, -2016, 23995, 21077, 3692],
            [-104, -2255, -23715, 6555, 3935, -8144],
        ],
        hit: (629, Some(0), Some(1)),
    },
];

fn boxes(alloc: Global, corners: &[[i32; 6]]) -> Result<Vec<Aabb>, Fail> {
    let mut boxes = Vec::new(alloc);
    for b in corners {
        boxes.push(box_of(*b).ok_or("a box")?)?;
    }
    Ok(boxes)
}

fn agree(rt: &impl Abort, body: &Aabb, d: Vec3, fixed: &[Aabb], moving: &[Aabb], hit: Hit) {
    assert!(rt; d.x.unsigned_abs() <= REACH);
    assert!(rt; d.y.unsigned_abs() <= REACH);
    assert!(rt; d.z.unsigned_abs() <= REACH);
    assert!(rt; body.moved(d).is_some());
    assert!(rt; fixed.len() <= 10 && moving.len() <= 10);
    assert_eq!(rt; trace(body, d, fixed, moving), hit);
    assert_eq!(rt; trace_by_steps(body, d, fixed, moving), hit);
}

#[test]
fn both_programs_agree_with_the_rows(rt: HostRuntime) -> Result<(), Fail> {
    for row in &ROWS {
        let body = box_of(row.body).ok_or("a box")?;
        let [x, y, z] = row.d;
        let fixed = boxes(rt.alloc(), row.fixed)?;
        let moving = boxes(rt.alloc(), row.moving)?;
        let (steps, axis, block) = row.hit;
        let hit = Hit {
            steps,
            whole: block.is_none(),
            axis,
            block,
        };
        agree(&rt, &body, Vec3 { x, y, z }, &fixed, &moving, hit);
    }
    Ok(())
}

#[test]
fn parts_are_cut_toward_zero(rt: HostRuntime) {
    let d = Vec3 { x: -7, y: -3, z: 5 };
    assert_eq!(rt; step_count(d), 7);
    for (k, y, z) in [(0, 0, 0), (2, 0, 1), (3, -1, 2), (5, -2, 3), (7, -3, 5)] {
        assert!(rt; k <= step_count(d));
        let shift = shift_at(d, k);
        assert_eq!(rt; (shift.y, shift.z), (y, z), "at step {k}");
    }
}
