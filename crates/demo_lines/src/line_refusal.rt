/// A line of a recording that is refused.
#[derive(Clone, Copy, Debug, PartialEq, Eq)]
pub struct LineRefusal {
    /// The line's number, from 1.
    pub line: u64,
    /// Its fault, 1 to 10.
    pub fault: u8,
    /// The rule of the map that it breaks, 1 to 8, or 0 where it breaks none.
    pub rule: u8,
}
