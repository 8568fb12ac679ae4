//! Tests of the rules of a frame, each by itself: speeds, moves, items, triggers, shots and ticks.
#![tactic(auto)]

#[cfg(test)]
mod tests;
