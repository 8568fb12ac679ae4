//! Tests of what moves do in an arena: `arena_actions`.
#![tactic(auto)]

#[cfg(test)]
mod tests;
