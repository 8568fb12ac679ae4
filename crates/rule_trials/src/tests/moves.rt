use super::{is_near, vec3};
use arena_geo::{Aabb, Vec3};
use entity_recs::{Cmd, Kind, PLAYER_MAXS, PLAYER_MINS, Rec};
use player_move::{Moved, move_player, on_ground};
use std::alloc::Global;
use std::process::Abort;
use std::test::Fail;

/// A move, and what it gives.
#[derive(Drop)]
struct Move<'a> {
    origin: [i32; 3],
    vel: [i32; 3],
    /// Milliseconds, wish on x, wish on y, buttons.
    cmd: (u8, i16, i16, u8),
    fixed: &'a [[i32; 6]],
    moving: &'a [[i32; 6]],
    moved: ([i32; 3], [i32; 3], bool),
}

/// A body among solids, and whether it is on the ground.
#[derive(Drop)]
struct GroundTest<'a> {
    body: [i32; 6],
    fixed: &'a [[i32; 6]],
    moving: &'a [[i32; 6]],
    ground: bool,
}

/// Computed by a plain implementation written apart from this one.
const MOVES: [Move<'static>; 9] = [
    // on the ground
    Move {
        origin: [6246, 5407, -3798],
        vel: [-1, -12784, 0],
        cmd: (50, 32767, -286, 0),
        fixed: &[
            [6309, 7740, 8256, 12176, 22345, 20325],
            [-60000, -60000, -18942, 60000, 60000, -9942],
        ],
        moving: &[
            [-13941, 12969, -14912, -2710, 23420, -459],
            [12205, 13416, -11723, 26448, 23810, -8648],
            [9343, 11433, 9003, 22086, 24557, 17592],
        ],
        moved: ([8293, 5006, -3798], [40958, -8021, 0], true),
    },
    // in the air
    Move {
        origin: [-5447, -8992, -3482],
        vel: [15592, -6250, -4940],
        cmd: (26, 43, 295, 0),
        fixed: &[
            [-5497, -4489, -1126, 9249, 7061, 8166],
            [-11871, -19998, 13689, -6386, -13089, 26747],
            [-14389, -15389, 11092, -9544, -10557, 17100],
            [6139, -13015, -15600, 20967, -3991, -6907],
        ],
        moving: &[
            [11054, -7283, 3805, 21571, 7736, 4452],
            [6218, 7913, 9048, 11327, 22100, 10941],
            [-1350, -527, 6139, 5695, 6596, 7019],
            [1493, 6791, -13309, 5693, 9104, -11484],
        ],
        moved: ([-4999, -8856, -3748], [17267, 5243, -10264], false),
    },
    // no solid
    Move {
        origin: [-4265, -470, -375],
        vel: [20000, 2, -20000],
        cmd: (50, -200, -32768, 0),
        fixed: &[],
        moving: &[],
        moved: ([-3268, -860, -1887], [19953, -7801, -30240], false),
    },
    // a jump
    Move {
        origin: [-1397, -3047, -404],
        vel: [2, -62379, 0],
        cmd: (23, -291, 305, 1),
        fixed: &[
            [9006, 1511, -5591, 23778, 5180, 9748],
            [-60000, -60000, -15548, 60000, 60000, -6548],
            [3951, -60000, -15548, 33951, 60000, -3548],
        ],
        moving: &[
            [14885, 399, 4517, 18539, 11526, 10576],
            [-15430, -10223, 5888, -9191, -3302, 11017],
            [12250, -8136, 7789, 22917, -6510, 13619],
            [-7645, 3380, 7787, -7259, 10145, 11715],
        ],
        moved: ([-1696, -4168, 1077], [-13004, -48748, 64410], true),
    },
    Move {
        origin: [-5478, 2721, 8359],
        vel: [0, 0, -1],
        cmd: (36, 0, 50, 1),
        fixed: &[
            [14485, -15390, -1938, 25598, -13906, 2216],
            [-13514, -7172, -6266, -9556, 429, -4732],
            [-60000, -60000, -6785, 60000, 60000, 2215],
        ],
        moving: &[],
        moved: ([-5478, 2886, 10581], [0, 4608, 61747], true),
    },
    // stairs that are taken
    Move {
        origin: [-2438, 6804, -6409],
        vel: [3, 2157, 0],
        cmd: (50, 32767, -14310, 0),
        fixed: &[
            [-12921, -3764, -21688, -6615, 9627, -12552],
            [-9227, -12275, 9815, -5806, -11017, 16849],
            [-60000, -60000, -21553, 60000, 60000, -12553],
            [3085, -60000, -21553, 33085, 60000, -12552],
        ],
        moving: &[],
        moved: ([-562, 5985, -6408], [37536, -16392, 0], true),
    },
    Move {
        origin: [6126, -8553, 4414],
        vel: [20000, -13539, 8920],
        cmd: (29, 11233, 55, 0),
        fixed: &[
            [569, 14585, 651, 6696, 24107, 15049],
            [-60000, -60000, -10730, 60000, 60000, -1730],
            [10304, -60000, -10730, 40304, 60000, 1270],
        ],
        moving: &[
            [-13147, -15234, 12607, -3215, -8, 23782],
            [8326, -4457, -12944, 9225, 200, -3048],
            [-5442, -3250, -14196, 6967, 9272, -12717],
        ],
        moved: ([7323, -8893, 7414], [41296, -11758, 0], true),
    },
    // stairs that lead as far as the slide
    Move {
        origin: [1939, 2931, 2062],
        vel: [150045, -512000, 2],
        cmd: (28, -51, -23680, 0),
        fixed: &[
            [-13680, 9586, 13234, -9432, 9719, 24656],
            [-60000, -60000, -13082, 60000, 60000, -4082],
            [7578, -60000, -13082, 37578, 60000, 527],
        ],
        moving: &[],
        moved: ([3482, -9799, 2062], [0, -454656, 2], true),
    },
    // inside a solid
    Move {
        origin: [563, 4984, 1230],
        vel: [0, 238041, 7921],
        cmd: (33, -32768, 272, 1),
        fixed: &[
            [7919, -916, 14646, 8955, 1392, 23921],
            [4658, -15147, -15205, 12832, -2907, -9190],
            [-60000, -60000, -13914, 60000, 60000, -4914],
            [6120, -60000, -13914, 36120, 60000, -306],
        ],
        moving: &[
            [-15057, 13022, -4331, -6839, 27774, 11287],
            [-8719, 4281, -7316, -5279, 5180, 8607],
            [-3834, -5986, -8877, -1011, 6564, 3048],
            [8574, 7430, -9503, 23910, 17934, 3886],
        ],
        moved: ([563, 4984, 1230], [0, 0, 0], true),
    },
];

/// Computed by a plain implementation written apart from this one.
const GROUND_TESTS: [GroundTest<'static>; 6] = [
    GroundTest {
        body: [-4096, -4096, -6144, 4096, 4096, 8192],
        fixed: &[
            [-6802, 4097, -4183, -4753, 15143, 8351],
            [-221, 4416, -12378, 7519, 7972, -12136],
            [-67, -9258, -9523, 1419, -3581, -5779],
            [621, -4553, 699, 3576, 7484, 5622],
        ],
        moving: &[[8618, -10724, 15271, 11500, -9035, 24036]],
        ground: true,
    },
    GroundTest {
        body: [-4096, -4096, -6144, 4096, 4096, 8192],
        fixed: &[
            [-11181, 13290, 8191, 2538, 22110, 12410],
            [-13175, -15561, -7891, -10282, -3062, -6144],
            [2417, -13854, 7373, 9821, 12, 18441],
        ],
        moving: &[[8718, -871, 2620, 10194, 9837, 4603]],
        ground: true,
    },
    GroundTest {
        body: [-4096, -4096, -6144, 4096, 4096, 8192],
        fixed: &[
            [13172, 2266, 8193, 24110, 13874, 8475],
            [-3162, -11270, 13123, 12140, -4096, 28510],
            [1138, 10243, -3759, 12334, 24553, -234],
        ],
        moving: &[
            [15492, 6096, 10026, 15858, 18549, 11710],
            [5306, 6141, 6571, 9510, 21171, 11533],
            [11639, 6096, -9117, 12962, 20513, -8448],
        ],
        ground: false,
    },
    GroundTest {
        body: [2064, -1081, -2459, 7644, 691, 210],
        fixed: &[
            [252, 3188, 14885, 11422, 5868, 18539],
            [9553, -11306, -15430, 21573, -1081, -9191],
            [-8136, 685, -12091, -6510, 6515, 643],
        ],
        moving: &[
            [7644, -7645, 3380, 12983, -7259, 10145],
            [-13879, -269, -7280, -4442, 12258, -1041],
        ],
        ground: false,
    },
    GroundTest {
        body: [-4096, -4096, -6144, 4096, 4096, 8192],
        fixed: &[[4097, 6484, -3339, 11118, 19774, 6919]],
        moving: &[
            [-15524, -12727, -10335, -13619, -4097, -6888],
            [4921, -1392, 11798, 15636, 12630, 25851],
            [12931, -1928, -809, 17527, 13081, 3594],
        ],
        ground: false,
    },
    GroundTest {
        body: [-4096, -4096, -6144, 4096, 4096, 8192],
        fixed: &[],
        moving: &[
            [4096, -9019, 8610, 14356, 4451, 10121],
            [-8601, -9096, -2178, -4095, -8051, 2427],
        ],
        ground: false,
    },
];

fn aabb(b: [i32; 6]) -> Option<Aabb> {
    Aabb::new(vec3([b[0], b[1], b[2]]), vec3([b[3], b[4], b[5]]))
}

fn boxes(alloc: Global, corners: &[[i32; 6]]) -> Result<Vec<Aabb>, Fail> {
    let mut boxes = Vec::new(alloc);
    for b in corners {
        boxes.push(aabb(*b).ok_or("a box")?)?;
    }
    Ok(boxes)
}

/// The move of a player.
fn play(
    rt: &impl Abort,
    origin: Vec3,
    vel: Vec3,
    (ms, wish_x, wish_y, buttons): (u8, i16, i16, u8),
    fixed: &[Aabb],
    moving: &[Aabb],
) -> Moved {
    assert!(rt; is_near(origin, 1_048_576));
    assert!(rt; is_near(vel, 512_000));
    assert!(rt; 1 <= ms && ms <= 50);
    assert!(rt; fixed.len() <= 10 && moving.len() <= 10);
    let me = Rec {
        id: 0,
        kind: Kind::Player,
        origin,
        mins: PLAYER_MINS,
        maxs: PLAYER_MAXS,
        vel,
        flags: 0,
        ammo: 0,
        carry: 0,
        score: 0,
        seq: 0,
        state: 0,
    };
    let cmd = Cmd {
        slot: 0,
        seq: 1,
        frame: 0,
        ms,
        wish_x,
        wish_y,
        buttons,
    };
    move_player(&me, &cmd, fixed, moving)
}

#[test]
fn moves_agree_with_the_rows(rt: HostRuntime) -> Result<(), Fail> {
    for row in &MOVES {
        let (fixed, moving) = (
            boxes(rt.alloc(), row.fixed)?,
            boxes(rt.alloc(), row.moving)?,
        );
        let (to, left, ground) = row.moved;
        let moved = Moved {
            origin: vec3(to),
            vel: vec3(left),
            ground,
        };
        assert_eq!(rt;
            play(
                &rt,
                vec3(row.origin),
                vec3(row.vel),
                row.cmd,
                &fixed,
                &moving
            ),
            moved
        );
    }
    Ok(())
}

#[test]
fn ground_tests_agree_with_the_rows(rt: HostRuntime) -> Result<(), Fail> {
    for row in &GROUND_TESTS {
        let body = aabb(row.body).ok_or("a box")?;
        let (fixed, moving) = (
            boxes(rt.alloc(), row.fixed)?,
            boxes(rt.alloc(), row.moving)?,
        );
        assert!(rt; is_near(body.lo(), 1_048_576));
        assert!(rt; is_near(body.hi(), 1_048_576));
        assert_eq!(rt; on_ground(&body, &fixed, &moving), row.ground);
    }
    Ok(())
}

/// The walls of the arena from (-131072, -131072, 0) to (131072, 131072, 65536).
const WALLS: [[i32; 6]; 6] = [
    [-147456, -147456, -16384, -131072, 147456, 81920],
    [131072, -147456, -16384, 147456, 147456, 81920],
    [-147456, -147456, -16384, 147456, -131072, 81920],
    [-147456, 131072, -16384, 147456, 147456, 81920],
    [-147456, -147456, -16384, 147456, 147456, 0],
    [-147456, -147456, 65536, 147456, 147456, 81920],
];

#[test]
fn player_walks_and_jumps_in_an_arena(rt: HostRuntime) -> Result<(), Fail> {
    let walls = boxes(rt.alloc(), &WALLS)?;
    // a walk from standing, and two jumps with the button held
    for (cmd, moves) in [
        (
            (50, 320, 0, 0),
            [
                ([2048, 0, 6144], [40960, 0, 0], true),
                ([5734, 0, 6144], [73728, 0, 0], true),
                ([9830, 0, 6144], [81920, 0, 0], true),
            ],
        ),
        (
            (50, 0, 0, 1),
            [
                ([0, 0, 9088], [0, 0, 58880], true),
                ([0, 0, 11520], [0, 0, 48640], false),
                ([0, 0, 13440], [0, 0, 38400], false),
            ],
        ),
    ] {
        let (mut origin, mut vel) = (vec3([0, 0, 6144]), vec3([0, 0, 0]));
        for (to, left, ground) in moves {
            let moved = play(&rt, origin, vel, cmd, &walls, &[]);
            (origin, vel) = (vec3(to), vec3(left));
            assert_eq!(rt;
                moved,
                Moved {
                    origin,
                    vel,
                    ground
                }
            );
        }
    }
    Ok(())
}

#[test]
fn player_goes_up_a_stair_and_no_higher(rt: HostRuntime) -> Result<(), Fail> {
    // how high the stair is, where the player is then, and its velocity
    for (top, to, left) in [
        (4608, [2048, 0, 10752], [40960, 0, 0]),
        (4609, [1024, 0, 6144], [0, 0, 0]),
    ] {
        let walls = boxes(rt.alloc(), &WALLS)?;
        let stair = boxes(rt.alloc(), &[[5120, -12800, 0, 12800, 12800, top]])?;
        let moved = play(
            &rt,
            vec3([0, 0, 6144]),
            vec3([0, 0, 0]),
            (50, 320, 0, 0),
            &walls,
            &stair,
        );
        assert_eq!(rt;
            moved,
            Moved {
                origin: vec3(to),
                vel: vec3(left),
                ground: true
            }
        );
    }
    Ok(())
}
