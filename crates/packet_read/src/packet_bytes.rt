use byte_lists::ByteArray;

/// How many bytes a [`PacketBytes`] holds at most.
pub const MOST_PACKET_BYTES: usize = 64;

/// The bytes of a packet that is written: a list of at most [`MOST_PACKET_BYTES`] bytes.
pub type PacketBytes = ByteArray<MOST_PACKET_BYTES>;
