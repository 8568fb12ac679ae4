// One function with an enum for what it does: each place at which a step is made has a constant in it, so the enum
// costs nothing.
/// What a step does to its word.
#[derive(Clone, Copy)]
pub enum WordStep {
    /// The word stays.
    Load,
    /// The word becomes this one.
    Store(u64),
    /// The word becomes this one where it is 0.
    Take(u64),
    /// The word grows by 1.
    Count,
    /// The bit of this slot is cleared.
    Clear(u8),
    /// The bit of this slot is set.
    Set(u8),
}
