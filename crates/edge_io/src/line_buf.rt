use byte_lists::ByteBuf;

/// How many bytes a [`LineBuf`] has room for: those of the longest line of output. A line of input is shorter and has
/// at most [`LONGEST`](crate::LONGEST).
pub const ROOM: usize = 16_500;

/// The bytes of a line: a list of at most [`ROOM`] bytes, whose room is reserved from the start.
pub type LineBuf = ByteBuf<ROOM>;
