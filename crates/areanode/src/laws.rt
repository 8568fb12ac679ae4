ghost use Rattle.areanode.specs.Laws.{AreasAreCutInHalf, AreasHaveTheirParts, BoxGoesToItsSide, NodeIsOnItsSide};
ghost use Rattle.areanode.specs.Laws.{LeavesAreOnItsSide, NodeIsOverLeaves, TouchingBoxesShareALeaf, TouchedNodeIsVisited, BoxHasALeaf};
ghost use Rattle.areanode.specs.Laws.{TouchedLeafIsListed, InsideAndTouchedShareALeaf, LeavesAreInRange, NodeIsInRange};
ghost use Rattle.areanode.specs.Laws.{LeavesAreWhereTheBoxTouches, RegionHasTheLeavesThatItTouches, LeavesAreReachedAtEachCut};
ghost use Rattle.areanode.specs.Laws.{LeavesLieInTheArena, LeafOverLeaf, WordHasItsBits, WordFits, SizesAreKnown};

/// An area is cut halfway on the longer of the axes x and y, and on y where neither is longer: it reaches as far beyond
/// the cut as before it, or farther by 1.
pub fn areas_are_cut_in_half()
    ensures { AreasAreCutInHalf }
{}

/// The part of an area above its cut has exactly the area's points beyond the cut, the part below those before it, and
/// both have the points on it.
pub fn areas_have_their_parts()
    ensures { AreasHaveTheirParts }
{}

/// At each inner node of its way a box goes on to the child on its side of the cut, and stays where it meets the cut.
pub fn box_goes_to_its_side()
    ensures { BoxGoesToItsSide }
{}

/// The node of a box is in the part on its side of the root's cut, and is the root where the box meets that cut.
pub fn node_is_on_its_side()
    ensures { NodeIsOnItsSide }
{}

/// The leaves of a box are all on its side of the root's cut, and on both where it meets that cut.
pub fn leaves_are_on_its_side()
    ensures { LeavesAreOnItsSide }
{}

/// The node of a box is an ancestor of, or equal to, the node of each of the box's leaves.
pub fn node_is_over_leaves()
    ensures { NodeIsOverLeaves }
{}

/// Two boxes with a common point share a leaf.
pub fn touching_boxes_share_a_leaf()
    ensures { TouchingBoxesShareALeaf }
{}

/// Where a box touches a box of a region, its node is visited for the region's leaves.
pub fn touched_node_is_visited()
    ensures { TouchedNodeIsVisited }
{}

/// A box has at least one leaf.
pub fn box_has_a_leaf()
    ensures { BoxHasALeaf }
{}

/// Where the node of a box is a leaf and the box touches a box of a region, that leaf is among the region's.
pub fn touched_leaf_is_listed()
    ensures { TouchedLeafIsListed }
{}

/// Where a box lies inside a region and touches another region, the two regions share a leaf.
pub fn inside_and_touched_share_a_leaf()
    ensures { InsideAndTouchedShareALeaf }
{}

/// A box that touches the arena has exactly the leaves whose areas it touches, seen from above and the edges counted.
pub fn leaves_are_where_the_box_touches()
    ensures { LeavesAreWhereTheBoxTouches }
{}

/// A box that touches the area of a leaf touches the arena, both seen from above.
pub fn leaves_lie_in_the_arena()
    ensures { LeavesLieInTheArena }
{}

/// In the word of a region's leaves, where each box of the region touches the arena, exactly those are set whose areas a
/// box of the region touches.
pub fn region_has_the_leaves_that_it_touches()
    ensures { RegionHasTheLeavesThatItTouches }
{}

/// A leaf is one of a box's exactly where, at each cut above the leaf, the box has a point on the leaf's side or on the
/// cut, whether or not the box touches the arena.
pub fn leaves_are_reached_at_each_cut()
    ensures { LeavesAreReachedAtEachCut }
{}

/// The leaves of a box are numbered below 2 to the power of the depth.
pub fn leaves_are_in_range()
    ensures { LeavesAreInRange }
{}

/// The node of a box is one of the tree's nodes.
pub fn node_is_in_range()
    ensures { NodeIsInRange }
{}

/// A leaf that is over a leaf is that leaf.
pub fn leaf_over_leaf()
    ensures { LeafOverLeaf }
{}

/// The bits of the word of a set are the set's tests.
pub fn word_has_its_bits()
    ensures { WordHasItsBits }
{}

/// The word of a set of numbers below n is below 2 to the power of n.
pub fn word_fits()
    ensures { WordFits }
{}

/// A tree has depth 3, 4 or 5. One of depth 5 has the most leaves, 32, and the most nodes, 63.
pub fn sizes_are_known()
    ensures { SizesAreKnown }
{}
