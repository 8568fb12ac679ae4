use super::box_of;
use areanode::{LEAST_DEPTH, MOST_DEPTH, Tree};
use arena_geo::Region;
use std::process::Abort;
use std::test::Fail;

/// The arena of the rows.
const ARENA: [i32; 6] = [-131_072, -131_072, 0, 131_072, 131_072, 65_536];

/// A depth, an arena, boxes, the node of the first, the leaves of all, and the nodes visited for them, as computed by a
/// program that was written apart from this one.
#[derive(Clone, Copy)]
struct Row {
    depth: u8,
    arena: [i32; 6],
    boxes: [[i32; 6]; 3],
    node: u8,
    leaves: u32,
    nodes: u64,
}

const ROWS: [Row; 15] = [
    Row {
        depth: 4,
        arena: [271, 138, 0, 903, 472, 99],
        boxes: [
            [861, 1_054, 573, 1_430, 1_703, 1_365],
            [52, -1_076, 126, 53, -1_071, 127],
            [296, 196, -431, 297, 199, -427],
        ],
        node: 15,
        leaves: 32_769,
        nodes: 1_073_791_183,
    },
    Row {
        depth: 4,
        arena: [-118, -44, 0, 136, 464, 99],
        boxes: [
            [580, 209, -482, 600, 360, 394],
            [-100, -461, -1_117, 509, 211, -975],
            [-100, -461, -1_117, 509, 211, -975],
        ],
        node: 0,
        leaves: 65_458,
        nodes: 2_144_960_255,
    },
    Row {
        depth: 4,
        arena: [-134, 110, 0, 651, 621, 99],
        boxes: [
            [259, -148, -506, 279, -123, -467],
            [-809, -197, -796, -183, 433, -462],
            [-809, -197, -796, -183, 433, -462],
        ],
        node: 22,
        leaves: 51_328,
        nodes: 1_681_937_527,
    },
    Row {
        depth: 4,
        arena: [-50, -65, 0, 180, 796, 99],
        boxes: [
            [1_063, 320, 564, 1_089, 365, 571],
            [-389, -1_053, 1_026, -385, -1_050, 1_027],
            [374, -902, 470, 1_180, -488, 845],
        ],
        node: 0,
        leaves: 41_248,
        nodes: 1_351_641_719,
    },
    Row {
        depth: 4,
        arena: [-108, 23, 0, 747, 694, 99],
        boxes: [
            [-645, -134, -343, -257, 649, 296],
            [-353, 19, -851, -351, 21, -849],
            [320, -977, 1_040, 635, -355, 1_493],
        ],
        node: 2,
        leaves: 52_384,
        nodes: 1_716_541_047,
    },
    Row {
        depth: 4,
        arena: [62, -201, 0, 775, 669, 99],
        boxes: [
            [994, 235, 136, 996, 240, 138],
            [-550, -28, 703, -534, 24, 704],
            [326, -598, 57, 417, -562, 139],
        ],
        node: 17,
        leaves: 57_348,
        nodes: 1_879_204_175,
    },
    Row {
        depth: 4,
        arena: [-20, 285, 0, 965, 738, 99],
        boxes: [
            [1_146, 490, -941, 1_889, 634, -753],
            [337, -65, -346, 473, 672, 481],
            [-125, 626, 772, -99, 631, 842],
        ],
        node: 3,
        leaves: 12_197,
        nodes: 399_687_679,
    },
    Row {
        depth: 4,
        arena: [-52, -167, 0, 510, 770, 99],
        boxes: [
            [-996, 296, -775, -994, 300, -773],
            [-409, 842, 883, -342, 862, 965],
            [-409, 842, 883, -342, 862, 965],
        ],
        node: 28,
        leaves: 8_224,
        nodes: 269_492_823,
    },
    Row {
        depth: 3,
        arena: [258, -287, 0, 507, 168, 99],
        boxes: [
            [601, 880, 643, 602, 883, 644],
            [-935, -293, -472, -918, -273, -434],
            [-977, 472, -818, -919, 516, -764],
        ],
        node: 7,
        leaves: 133,
        nodes: 17_119,
    },
    Row {
        depth: 3,
        arena: [-129, -237, 0, 422, -144, 99],
        boxes: [
            [-626, 773, 957, 187, 1_469, 1_410],
            [-1_058, 463, 312, -970, 667, 539],
            [142, -876, 99, 146, -782, 105],
        ],
        node: 0,
        leaves: 248,
        nodes: 31_863,
    },
    Row {
        depth: 3,
        arena: [-65, 89, 0, 155, 802, 99],
        boxes: [
            [-820, -197, 994, -816, -195, 996],
            [-738, 1_073, 125, -723, 1_146, 179],
            [-738, 1_073, 125, -723, 1_146, 179],
        ],
        node: 14,
        leaves: 130,
        nodes: 16_719,
    },
    Row {
        depth: 5,
        arena: [83, -16, 0, 528, 152, 99],
        boxes: [
            [303, -771, -168, 304, -768, -164],
            [676, 651, -387, 1_508, 691, 404],
            [676, 651, -387, 1_508, 691, 404],
        ],
        node: 52,
        leaves: 2_097_153,
        nodes: 4_503_601_808_445_615,
    },
    Row {
        depth: 5,
        arena: [-22, 46, 0, 972, 558, 99],
        boxes: [
            [-539, -696, -841, -496, -616, -742],
            [420, -205, 856, 510, -110, 878],
            [-357, -695, 115, 476, 114, 229],
        ],
        node: 62,
        leaves: 3_422_584_832,
        nodes: 7_349_944_961_959_224_407,
    },
    Row {
        depth: 5,
        arena: [-137, 32, 0, 799, 520, 99],
        boxes: [
            [206, -1_161, 32, 331, -1_112, 576],
            [206, -1_161, 32, 331, -1_112, 576],
            [206, -1_161, 32, 331, -1_112, 576],
        ],
        node: 0,
        leaves: 201_359_360,
        nodes: 432_415_933_244_384_343,
    },
    Row {
        depth: 5,
        arena: [143, -266, 0, 845, -156, 99],
        boxes: [
            [-51, 926, 599, -22, 970, 650],
            [494, -801, 1_145, 510, -755, 1_205],
            [476, 662, -325, 494, 672, -271],
        ],
        node: 60,
        leaves: 537_239_552,
        nodes: 1_153_713_153_547_193_463,
    },
];

/// The tree of a depth over an arena.
fn tree_of(arena: [i32; 6], depth: u8) -> Result<Tree, &'static str> {
    if depth < LEAST_DEPTH || depth > MOST_DEPTH {
        return Err("a depth");
    }
    Ok(Tree::new(&box_of(arena).ok_or("a box")?, depth))
}

#[test]
fn boxes_are_linked_where_they_touch_no_deeper_cut(rt: HostRuntime) -> Result<(), Fail> {
    // the absolute boxes of players at (0, -4352, 6144), which ends on the root's cut, and at (0, -4353, 6144)
    for depth in [3, 4, 5] {
        let tree = tree_of(ARENA, depth)?;
        for (corners, node) in [
            ([-4_352, -8_704, -256, 4_352, 0, 14_592], 0),
            ([-4_352, -8_705, -256, 4_352, -1, 14_592], 2),
        ] {
            let b = box_of(corners).ok_or("a box")?;
            assert_eq!(rt; tree.node_of(&b), node, "{depth} {corners:?}");
        }
    }
    Ok(())
}

#[test]
fn a_box_has_leaves_on_both_sides_of_its_cuts(rt: HostRuntime) -> Result<(), Fail> {
    // the region of a player at rest in the middle
    let b = box_of([-25_088, -25_088, -25_600, 25_088, 25_088, 39_936]).ok_or("a box")?;
    for (depth, leaves, nodes) in [
        (3, 90, 11_647),
        (4, 4_680, 153_365_887),
        (5, 17_047_680, 36_609_614_189_702_527),
    ] {
        let tree = tree_of(ARENA, depth)?;
        let found = tree.leaves_of(&Region::one(b));
        assert_eq!(rt; found, leaves, "{depth}");
        assert_eq!(rt; tree.visited_nodes(found), nodes, "{depth}");
    }
    // a box that ends on the root's cut
    let b = box_of([4_096, -8_192, 0, 8_192, 0, 8_192]).ok_or("a box")?;
    let tree = tree_of(ARENA, 4)?;
    assert_eq!(rt; tree.leaves_of(&Region::one(b)), 520);
    Ok(())
}

#[test]
fn a_tree_has_a_level_of_leaves_at_its_depth(rt: HostRuntime) -> Result<(), Fail> {
    for (depth, leaves, first_leaf, nodes) in [(3, 8, 7, 15), (4, 16, 15, 31), (5, 32, 31, 63)] {
        let tree = tree_of(ARENA, depth)?;
        assert_eq!(rt; tree.depth(), depth);
        assert_eq!(rt; tree.leaves(), leaves);
        assert_eq!(rt; tree.first_leaf(), first_leaf);
        assert_eq!(rt; tree.nodes(), nodes);
    }
    Ok(())
}

/// The region of three boxes, of which the first is put in twice.
fn region_of(boxes: [[i32; 6]; 3]) -> Result<Region, &'static str> {
    let mut region = Region::one(box_of(boxes[0]).ok_or("a box")?);
    for corners in boxes {
        let _ = region.push(box_of(corners).ok_or("a box")?);
    }
    Ok(region)
}

/// Expects the node, the leaves and the visited nodes of a row.
fn expect_row(rt: &impl Abort, row: &Row) -> Result<(), Fail> {
    let arena = row.arena;
    let tree = tree_of(arena, row.depth)?;
    let first = box_of(row.boxes[0]).ok_or("a box")?;
    let region = region_of(row.boxes)?;
    assert_eq!(rt; tree.node_of(&first), row.node, "{arena:?}");
    let leaves = tree.leaves_of(&region);
    assert_eq!(rt; leaves, row.leaves, "{arena:?}");
    assert_eq!(rt; tree.visited_nodes(leaves), row.nodes, "{arena:?}");
    Ok(())
}

#[test]
fn regions_have_the_leaves_of_their_boxes(rt: HostRuntime) -> Result<(), Fail> {
    for row in &ROWS {
        expect_row(&rt, row)?;
    }
    Ok(())
}

/// The node and the leaves below a rectangle, the latter from bit 0 on.
#[derive(Clone, Copy)]
struct Found {
    node: u8,
    leaves: u32,
}

/// Cuts the rectangle from `lo` to `hi` in two, and each part again, `levels` times.
fn plain(node: u8, levels: u8, lo: [i64; 2], hi: [i64; 2], from: [i64; 2], to: [i64; 2]) -> Found {
    if levels == 0 {
        return Found { node, leaves: 1 };
    }
    let axis = if hi[0].wrapping_sub(lo[0]) > hi[1].wrapping_sub(lo[1]) {
        0
    } else {
        1
    };
    let middle = lo[axis].wrapping_add(hi[axis]) >> 1;
    let mut cut_lo = lo;
    cut_lo[axis] = middle;
    let mut cut_hi = hi;
    cut_hi[axis] = middle;
    let child = node.wrapping_mul(2).wrapping_add(1);
    let above = plain(child, levels - 1, cut_lo, hi, from, to);
    let below = plain(child.wrapping_add(1), levels - 1, lo, cut_hi, from, to);
    let under = below
        .leaves
        .wrapping_shl(1u32.wrapping_shl(u32::from(levels - 1)));
    if from[axis] > middle {
        above
    } else if to[axis] < middle {
        Found {
            node: below.node,
            leaves: under,
        }
    } else {
        Found {
            node,
            leaves: above.leaves | under,
        }
    }
}

/// Expects that the tree over an arena and the plain recursion answer alike for the square of this size from (x, y) on.
fn expect_as_plain(
    rt: &impl Abort,
    tree: &Tree,
    arena: [i32; 6],
    x: i32,
    y: i32,
    size: i32,
) -> Result<(), Fail> {
    let lo = [i64::from(arena[0]), i64::from(arena[1])];
    let hi = [i64::from(arena[3]), i64::from(arena[4])];
    let to_x = x.saturating_add(size);
    let to_y = y.saturating_add(size);
    let b = box_of([x, y, 0, to_x, to_y, 1]).ok_or("a box")?;
    let from = [i64::from(x), i64::from(y)];
    let want = plain(
        0,
        tree.depth(),
        lo,
        hi,
        from,
        [i64::from(to_x), i64::from(to_y)],
    );
    assert_eq!(rt; tree.node_of(&b), want.node, "{x} {y} {size}");
    assert_eq!(rt;
        tree.leaves_of(&Region::one(b)),
        want.leaves,
        "{x} {y} {size}"
    );
    Ok(())
}

/// Expects that the tree of a depth over an arena and the plain recursion answer alike for boxes in and beyond it.
fn expect_all_as_plain(rt: &impl Abort, arena: [i32; 6], depth: u8) -> Result<(), Fail> {
    let ends: [i32; 9] = [
        -200_000, -131_072, -65_537, -32_768, -1, 0, 40_000, 98_304, 131_073,
    ];
    let tree = tree_of(arena, depth)?;
    for x in ends {
        for y in ends {
            for size in [0i32, 32_768, 150_000] {
                expect_as_plain(rt, &tree, arena, x, y, size)?;
            }
        }
    }
    Ok(())
}

#[test]
fn tree_agrees_with_a_plain_recursion(rt: HostRuntime) -> Result<(), Fail> {
    for arena in [ARENA, [-101, -7, 0, 100, 300, 9], [5, 5, 5, 5, 5, 5]] {
        for depth in [3, 4, 5] {
            expect_all_as_plain(&rt, arena, depth)?;
        }
    }
    Ok(())
}
