use shared_moves::{Gate, Moment};

/// A gate that does nothing, and has the moves of each frame given to helpers, however few they are.
pub struct ForHelpers;

impl Gate for ForHelpers {
    fn at(&self, moment: &Moment) {
        let _ = moment;
    }

    fn needs_threads(&self) -> bool {
        true
    }
}
