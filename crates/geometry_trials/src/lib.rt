//! Tests of boxes, regions, roots, trees of areanodes, traces and walls: `arena_geo`, `areanode` and `box_trace`.
#![tactic(auto)]

#[cfg(test)]
mod tests;
