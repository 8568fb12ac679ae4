/// What a map says beside its places: how deep its tree of areanodes is, whether players can shoot, and how many blocks
/// there may be.
#[derive(Clone, Copy)]
pub struct Settings {
    /// The depth of the tree.
    pub depth: u8,
    /// Whether a line names the depth.
    pub names_depth: bool,
    /// Whether a line says that players can shoot.
    pub shots: bool,
    /// The most blocks.
    pub most_blocks: u16,
    /// Whether a line says how many blocks there may be.
    pub names_blocks: bool,
}
