//! The files of a delta: rows in memory, rows in tiny files, and ranges of handles whose rows are
//! deleted.
#![tactic(auto)]

mod file;
mod laws;
mod tiny;

pub use file::ColumnFile;
pub use laws::{tiny_files_are_read_again, tiny_files_have_one_spelling, tiny_files_suit};
pub use pack_codec::FormError;
pub use tiny::{encode_tiny, open_tiny};

#[cfg(test)]
mod tests;
