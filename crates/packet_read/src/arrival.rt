use byte_lists::ByteArray;

/// How many bytes a packet has at the most: a line has room for no more.
pub const MOST_BYTES: usize = 252;

/// The most packets that reach the server in a frame.
pub const MOST_ARRIVALS: u32 = 512;

/// The bytes of a packet as it reached the server, at most [`MOST_BYTES`].
pub type ArrivalBytes = ByteArray<MOST_BYTES>;

/// A packet as it reached the server: the port that sent it, and its bytes.
#[derive(Drop)]
pub struct Arrival {
    /// The port that sent it.
    pub port: u16,
    /// Its bytes, whether they are a packet or not.
    pub bytes: ArrivalBytes,
}
