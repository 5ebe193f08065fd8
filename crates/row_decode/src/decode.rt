// The cells of a row.
ghost use Rattle.std.specs.Prelude.{◌≡◌, List, ℕ, option_map, Ok, IfOk, IfErr};
ghost use Rattle.column_block.specs.Cells.{cell_at, cells_of};
ghost use Rattle.row_decode.specs.Causes.{IsCause};

use column_block::{Cell, CellBytes, Cells, Column, Kind, Schema};
use flash_list::Items;
use row_codec::{RowView, int, uint};
use std::alloc::Global;

/// Why a row has no cells under a schema.
#[derive(Clone, Copy, Debug, PartialEq, Eq)]
pub enum DecodeError {
    /// The value of this column, of an `Int` or `Uint` kind, hasn't 1, 2, 4 or 8 bytes. It is the
    /// first such column of the schema.
    Width { id: u32 },
    /// Memory ran out.
    Memory,
}

/// The cells of a row: one for each column of the schema, in its order, null where the row has no
/// value in it. Columns that the schema lacks are passed over. The bytes of values are copied.
pub fn cells(alloc: Global, row: &RowView<'_>, schema: &Schema) -> Result<Cells, DecodeError>
    ensures ok { IfOk result (λ cells. cells_of schema.now row.now ≡ Ok cells) }
    ensures err { IfErr result (IsCause (cells_of schema.now row.now)) }
{
    let columns = schema.columns();
    let Ok(mut cells) = Vec::with_capacity(alloc, columns.len()) else {
        return Err(DecodeError::Memory);
    };
    let mut near: u32 = 0;
    for column in columns {
        let value = row.value_near(column.id, near);
        if value.is_some() {
            near = near.saturating_add(1);
        }
        match cell(alloc, column, value) {
            Ok(cell) => {
                if cells.push(cell).is_err() {
                    return Err(DecodeError::Memory);
                }
            }
            Err(error) => return Err(error),
        }
    }
    Ok(Items::from_vec(cells))
}

// The cell of a column by its value.
fn cell(alloc: Global, column: &Column, value: Option<&[u8]>) -> Result<Cell, DecodeError>
    ensures ok { IfOk result (λ cell. cell_at column.now (option_map (λ bytes. bytes.now) value.entry) ≡ Ok cell) }
    ensures err { IfErr result (IsCause (cell_at column.now (option_map (λ bytes. bytes.now) value.entry))) }
{
    let Some(bytes) = value else {
        return Ok(Cell::Null);
    };
    match column.kind {
        Kind::Int => match int(bytes) {
            Some(number) => Ok(Cell::Int(number)),
            None => Err(DecodeError::Width { id: column.id }),
        },
        Kind::Uint => match uint(bytes) {
            Some(number) => Ok(Cell::Uint(number)),
            None => Err(DecodeError::Width { id: column.id }),
        },
        Kind::Bytes => match CellBytes::from_slice(alloc, bytes) {
            Ok(bytes) => Ok(Cell::Bytes(bytes)),
            Err(_) => Err(DecodeError::Memory),
        },
    }
}
