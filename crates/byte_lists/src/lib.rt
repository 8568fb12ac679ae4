//! Lists of bytes of bounded length: on the heap, and in the value itself.
#![tactic(auto)]

pub use byte_array::ByteArray;
pub use byte_buf::ByteBuf;

mod byte_array;
mod byte_buf;
