//! Rows as TiDB's row format 2 keeps them: a reader that borrows the bytes, and a writer.
//! The format is that of TiDB's `util/rowcodec` and TiKV's `codec::row::v2`.
#![tactic(auto)]

mod numbers;
mod row;
mod value;
mod view;
mod write;

pub use row::{Field, RowError};
pub use value::{int, uint};
pub use view::RowView;
pub use write::{Memory, RowWriter, reads_back};
