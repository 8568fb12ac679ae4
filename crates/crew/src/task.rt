use std::sync::Wait;

/// What a crew does to an item.
pub trait Task: Drop {
    ghost may_run: { Self → Type 0 };

    ghost changes: { Self → Self → Type 0 };

    /// Does the work of the item, in whatever thread of the crew.
    fn run<R: Wait>(&mut self, rt: &R)
        requires may { may_run self.old }
        ensures changed { changes self.old self.new };
}
