//! Tests of the workers of `serve`: who runs which move, and what happens at once.
#![tactic(auto)]

#[cfg(test)]
mod tests;
