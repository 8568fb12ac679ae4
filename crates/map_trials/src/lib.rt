//! Tests of maps and of the ways in them: `arena_map` and `bot_ways`.
#![tactic(auto)]

#[cfg(test)]
mod tests;
