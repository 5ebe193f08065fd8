//! Tests of turns, in one thread and in several.
#![tactic(auto)]

#[cfg(test)]
mod turns;
