//! Typed cells in memory: columns and schemas, versions of rows, and blocks of versions.
#![tactic(auto)]

mod block;
mod cell;
mod column;
mod handles;
mod order;
mod schema;

pub use block::Block;
pub use cell::{Cell, CellBytes, Cells, Row, Version};
pub use column::{Bound, Column, Kind, MinMax};
pub use order::is_before;
pub use schema::{MAX_COLUMNS, Schema, SchemaError};

/// Memory ran out.
#[derive(Clone, Copy, Debug, PartialEq, Eq)]
pub struct Memory;
