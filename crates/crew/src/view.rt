/// Whose view it is: the leader's before the helper has a seat, the leader's before it has the slot, the leader's
/// from then on, or the helper's.
pub enum Role {
    Alone,
    New,
    Leader,
    Helper,
}

/// What the leader has handed over and not taken back, or the helper has begun and not ended. No value of it is made.
pub struct View<T> {
    pub role: Role,
    pub item: Option<T>,
}
