//! Tests of two phases of a frame, each by itself: packets are received (`client_ports`), and moves are run (`move_phase`).
#![tactic(auto)]

#[cfg(test)]
mod tests;
