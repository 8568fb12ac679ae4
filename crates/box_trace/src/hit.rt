/// The greatest number of solids that a trace may have.
pub const MOST_SOLIDS: usize = 65_535;

/// What a trace finds.
#[derive(Clone, Copy, Debug, PartialEq, Eq)]
pub struct Hit {
    /// How many steps the body goes.
    pub steps: u32,
    /// Whether the body goes all steps of its way.
    pub whole: bool,
    /// The first axis, 0 for x, 1 for y and 2 for z, on which the body and the solid that stops it don't overlap
    /// after `steps` steps. `None` where the way is whole or they overlap on all three.
    pub axis: Option<u8>,
    /// The place in the list of the solid that stops the body: of those that block the next step, the first.
    /// `None` exactly where the way is whole.
    pub block: Option<u16>,
}
