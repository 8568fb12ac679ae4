/// The least depth of a tree: the depth of its leaves, where the root has depth 0.
pub const LEAST_DEPTH: u8 = 3;

/// The greatest depth of a tree.
pub const MOST_DEPTH: u8 = 5;

/// The number of leaves of a tree of the greatest depth.
pub const MOST_LEAVES: usize = 32;

/// The number of nodes of a tree of the greatest depth, the leaves among them.
pub const MOST_NODES: usize = 63;
