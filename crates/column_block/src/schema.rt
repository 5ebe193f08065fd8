// Schemas.
ghost use Rattle.std.specs.Prelude.{◌≡◌, ◌<◌, length, slice_get, Some};
ghost use Rattle.column_block.specs.Schemas.{IsSchema, schema_of, ids};
ghost use Rattle.column_block.specs.Rising.{first_fall};

use crate::column::Column;
use std::alloc::Global;
use std::marker::Model;

/// The most columns that a schema may have.
pub const MAX_COLUMNS: usize = 64;

/// Why columns make no schema.
#[derive(Clone, Copy, Debug, PartialEq, Eq)]
pub enum SchemaError {
    /// The id at this place isn't above the one before it. Places are counted from 0; one past the
    /// greatest `u32` is given as that.
    Order { at: u32 },
    /// The ids rise, but there are more than 64 columns, namely this many.
    TooMany { count: u64 },
}

/// The columns of a table: their ids rise, and there are at most 64 of them.
#[derive(Debug, Drop)]
pub struct Schema {
    columns: Vec<Column>,
}

impl Model for Schema {
    ghost use Rattle.std.specs.Prelude.{List};
    ghost use Rattle.column_block.specs.declared.column.Column.{Column};

    ghost Value = { List Column };

    ghost use Rattle.column_block.specs.Schemas.{IsSchema};

    ghost view = { λ schema. schema.columns.items };

    ghost invariant = { λ schema. IsSchema schema.columns.items };
}

impl Schema {
    /// The schema of these columns. `Order` at the first id that isn't above the one before it;
    /// else `TooMany` where there are more than 64 columns.
    pub fn new(columns: Vec<Column>) -> Result<Schema, SchemaError>
        ensures { result ≡ schema_of columns.items }
    {
        if let Some(at) = first_fall(columns.as_slice()) {
            return Err(SchemaError::Order {
                at: u32::try_from(at).unwrap_or(u32::MAX),
            });
        }
        if columns.len() > MAX_COLUMNS {
            return Err(SchemaError::TooMany {
                count: columns.len() as u64,
            });
        }
        Ok(Schema { columns })
    }

    /// The number of columns.
    pub fn len(&self) -> usize
        ensures { result ≡ length self.now }
    {
        self.columns.len()
    }

    /// The column at a place, counted from 0.
    pub fn at(&self, i: usize) -> &Column
        requires { i < length self.now }
        ensures { slice_get self.now i ≡ Some result.now }
    {
        &self.columns[i]
    }

    /// All columns, in order.
    pub fn columns(&self) -> &[Column]
        ensures all { result.now ≡ self.now }
        ensures lawful { IsSchema result.now }
    {
        self.columns.as_slice()
    }
}

// The place of the first id that isn't above the one before it.
fn first_fall(columns: &[Column]) -> Option<usize>
    ensures { result ≡ first_fall (ids columns.now) }
{
    for i in 1..columns.len() {
        if columns[i].id <= columns[i - 1].id {
            return Some(i);
        }
    }
    None
}
