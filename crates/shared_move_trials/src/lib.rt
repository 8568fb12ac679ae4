//! Tests of moves on threads: a gate holds one move while another one is tried (`shared_moves`).
#![tactic(auto)]

#[cfg(test)]
mod beside;
#[cfg(test)]
mod tests;
