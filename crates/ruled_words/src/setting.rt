/// What the passes of a table know of it.
#[derive(Clone, Copy, Debug, PartialEq, Eq)]
pub struct Setting {
    /// The depth of the tree.
    pub depth: u8,
    /// How many records live in the world at the start.
    pub records: usize,
}
