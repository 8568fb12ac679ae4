//! The areanode tree of an arena: at which node a box is linked, which leaves a region has, and which nodes are above
//! them.
#![tactic(auto)]

pub use laws::{
    areas_are_cut_in_half, areas_have_their_parts, box_goes_to_its_side, box_has_a_leaf,
    inside_and_touched_share_a_leaf, leaf_over_leaf, leaves_are_in_range, leaves_are_on_its_side,
    leaves_are_reached_at_each_cut, leaves_are_where_the_box_touches, leaves_lie_in_the_arena,
    node_is_in_range, node_is_on_its_side, node_is_over_leaves,
    region_has_the_leaves_that_it_touches, sizes_are_known, touched_leaf_is_listed,
    touched_node_is_visited, touching_boxes_share_a_leaf, word_fits, word_has_its_bits,
};
pub use sizes::{LEAST_DEPTH, MOST_DEPTH, MOST_LEAVES, MOST_NODES};
pub use tree::Tree;

mod ancestors;
mod cut;
mod laws;
mod sizes;
mod tree;
