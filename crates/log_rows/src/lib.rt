//! The rows at a log's end, as text: per handle the newest commit that a read at a timestamp may see.
#![tactic(auto)]

mod cells;
mod clear;
mod fold;
mod rows;

pub use rows::rows_text;
