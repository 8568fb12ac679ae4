//! Tests of what `serve` does for the commands that make, match, feed, check and plan.
#![tactic(auto)]

#[cfg(test)]
mod tests;
