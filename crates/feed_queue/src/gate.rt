/// Whom a feeder calls after each packet that it has sent, so that a test can hold it there.
pub trait FeedHold: Sync {
    /// Feeder `feeder`, 0 or 1, has sent `sent` packets so far.
    fn at(&self, feeder: u8, sent: u32);
}

/// A gate that lets every feeder go on.
#[derive(Drop)]
pub struct NoFeedHold;

impl FeedHold for NoFeedHold {
    fn at(&self, _feeder: u8, _sent: u32) {}
}
