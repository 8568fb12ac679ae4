//! Tests of the crates that read and write bytes: `edge_io`, `packet_read` and `snapshot_write`.
#![tactic(auto)]

#[cfg(test)]
mod tests;
