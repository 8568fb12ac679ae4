//! Tests of the linked world: `world_tree`.
#![tactic(auto)]

#[cfg(test)]
mod tests;
