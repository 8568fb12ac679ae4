//! Tests of the crates that read and write texts: `demo_lines`, `out_text`, `demo_make`, `playback` and `match_play`.
#![tactic(auto)]

#[cfg(test)]
mod tests;
