//! What an install changes in a manifest: the edits of segments that give way to others, and what
//! they make of its state. It knows no disk.
#![tactic(auto)]

mod changes;
mod laws;
mod stored;

pub use changes::append_changes;
pub use laws::{edits_change_slots, files_then_are};
pub use stored::stored_named;
