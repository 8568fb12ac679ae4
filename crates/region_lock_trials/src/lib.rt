//! Tests of the calls of `region_locks`.
#![tactic(auto)]

#[cfg(test)]
mod tests;
