/// The kinds of steps on the shared words.
#[derive(Clone, Copy, Debug, PartialEq, Eq)]
pub enum StepKind {
    /// A free node is taken.
    Take,
    /// A held node is given back.
    GiveBack,
    /// A node's list word is loaded.
    LoadList,
    /// A word of a record is loaded.
    Load,
    /// The count of commits grows by one.
    Commit,
    /// The own player's bit is cleared or set.
    Bit,
    /// A word of a record is stored.
    Store,
    /// The count is loaded, or a seat is made or ended.
    Count,
}

/// One step of one seat on one word.
#[derive(Clone, Copy, Debug, PartialEq, Eq)]
pub struct Step {
    /// The seat's number.
    pub seat: u8,
    /// The index of the word.
    pub word: u16,
    /// What is done with it.
    pub kind: StepKind,
}
