ghost use Rattle.std.specs.Prelude.{◌≡◌, ◌<◌};
ghost use Rattle.areanode.specs.Words.{word_of};
ghost use Rattle.areanode.specs.Trees.{IsTreeDepth, nodes_in, is_over, visited_of};

/// The bits of a node and of all its ancestors in a tree of this depth, bit i for node i.
fn path_to(depth: u8, start: usize) -> u64
    requires depth { IsTreeDepth depth }
    requires node { start < nodes_in depth }
    ensures { result ≡ word_of (nodes_in depth) (λ node. is_over depth node start) }
{
    let mut node = start;
    let mut path = 1 << node;
    for _ in 0..depth {
        node = node.saturating_sub(1) / 2;
        path |= 1 << node;
    }
    path
}

/// The nodes of these leaves of a tree of this depth and all their ancestors, bit i for node i.
pub fn visited_nodes(depth: u8, leaves: u32) -> u64
    requires { IsTreeDepth depth }
    ensures { result ≡ visited_of depth leaves }
{
    let number = 1 << depth;
    let first_leaf = number - 1;
    let mut nodes = 0;
    for leaf in 0..number {
        if leaves >> leaf & 1 == 1 {
            nodes |= path_to(depth, first_leaf + leaf);
        }
    }
    nodes
}
