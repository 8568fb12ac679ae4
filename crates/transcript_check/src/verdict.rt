/// What a transcript was found to be.
#[derive(Clone, Copy, Debug, PartialEq, Eq)]
pub enum Verdict {
    /// It is the output of the recording.
    Right {
        /// How many frames it has.
        frames: u32,
        /// How many moves were received in all of them.
        moves: u64,
    },
    /// It is none.
    Wrong {
        /// The number, in the whole input, of the first line of the first piece that is wrong: of a frame, or of the last
        /// line.
        line: u64,
    },
}
