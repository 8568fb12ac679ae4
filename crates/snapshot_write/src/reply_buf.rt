use crate::seen::MOST_SEEN;
use byte_lists::ByteBuf;

/// How many bytes of a snapshot come before those of the entities.
pub const HEAD: usize = 43;

/// How many bytes of a snapshot an entity takes.
pub const BLOCK: usize = 16;

/// How many bytes a [`ReplyBuf`] has room for: those of the longest snapshot, which shows
/// [`MOST_SEEN`] entities.
pub const REPLY_ROOM: usize = HEAD + BLOCK * MOST_SEEN;

/// The bytes of a snapshot: a list of at most [`REPLY_ROOM`] bytes, whose room is reserved from the start.
pub type ReplyBuf = ByteBuf<REPLY_ROOM>;
