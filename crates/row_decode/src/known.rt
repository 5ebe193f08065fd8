// What a row has that a schema doesn't allow.
ghost use Rattle.std.specs.Prelude.{◌≡◌, option_map, is_ok};
ghost use Rattle.std.specs.Result.{result_err};
ghost use Rattle.column_block.specs.Cells.{cell_at, cells_of};
ghost use Rattle.row_decode.specs.Known.{unknown_column, is_known};

use column_block::{Column, Kind, Schema};
use row_codec::{RowView, int, uint};

/// The first id of the row that is no column of the schema, of those with a value and then of the
/// null ones. Takes no memory.
pub fn unknown_column(row: &RowView<'_>, schema: &Schema) -> Option<u32>
    ensures { result ≡ unknown_column schema.now row.now }
{
    let columns = schema.columns();
    for k in 0..row.count() {
        let id = row.id_at(k);
        if !is_known(columns, id) {
            return Some(id);
        }
    }
    None
}

/// The id of the first column of the schema whose value in the row has a wrong width, which is the
/// column that the row has no cells for. Takes no memory.
pub fn wrong_width(row: &RowView<'_>, schema: &Schema) -> Option<u32>
    ensures { result ≡ result_err (cells_of schema.now row.now) }
{
    let columns = schema.columns();
    let mut near: u32 = 0;
    for column in columns {
        let value = row.value_near(column.id, near);
        if value.is_some() {
            near = near.saturating_add(1);
        }
        if !has_width(column, value) {
            return Some(column.id);
        }
    }
    None
}

// Whether the value of a column has a width that the column's kind allows.
fn has_width(column: &Column, value: Option<&[u8]>) -> bool
    ensures { result ≡ is_ok (cell_at column.now (option_map (λ bytes. bytes.now) value.entry)) }
{
    let Some(bytes) = value else {
        return true;
    };
    match column.kind {
        Kind::Int => int(bytes).is_some(),
        Kind::Uint => uint(bytes).is_some(),
        Kind::Bytes => true,
    }
}

fn is_known(columns: &[Column], id: u32) -> bool
    ensures { result ≡ is_known columns.now id }
{
    columns.iter().any(|column| column.id == id)
}
