//! Lists of optional values in bytes, each in one spelling: the columns of the data files.
#![tactic(auto)]

mod fault;
mod ints;
mod laws;
mod list;
mod nulls;
mod number;
mod read;
mod texts;
mod values;
mod write;

pub use fault::CodecError;
pub use ints::Ints;
pub use laws::{lists_are_read_again, lists_have_one_spelling};
pub use list::{ColumnList, ListKind, Uints};
pub use read::decode;
pub use texts::{SharedTexts, Texts};
pub use write::encode;
