//! Packs: versions of rows as column lists, the form that the tiny and the stable files share.
#![tactic(auto)]

mod cuts;
mod fault;
mod field;
mod heads;
mod laws;
mod lists;
mod read;
mod rows;
mod write;

pub use fault::FormError;
pub use heads::Heads;
pub use laws::{packs_are_read_again, packs_have_one_spelling, packs_suit};
pub use lists::here;
pub use read::{ended, read_pack};
pub use write::write_pack;
