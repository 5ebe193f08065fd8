// Values that are rows of the table.
ghost use Rattle.std.specs.Prelude.{◌≡◌};
ghost use Rattle.std.specs.Result.{result_err};
ghost use Rattle.committed_log.specs.Admission.{row_fault_of};

use crate::unlawful::RowFault;
use column_block::Schema;
use row_codec::RowView;
use row_decode::{unknown_column, wrong_width};

/// Whether a value can be a row of the table: bytes in TiDB's row format 2, whose columns are all
/// of the schema, with values as wide as their columns' kinds allow. Takes no memory.
///
/// `Form` where the bytes aren't row format 2 or a column of the schema has a wrong width; then
/// `UnknownColumn` for the first column that the schema lacks, of those with a value and then of
/// the null ones.
pub fn check_row(bytes: &[u8], schema: &Schema) -> Result<(), RowFault>
    ensures { result_err result ≡ row_fault_of schema.now bytes.now }
{
    let Ok(row) = RowView::read(bytes) else {
        return Err(RowFault::Form);
    };
    if wrong_width(&row, schema).is_some() {
        return Err(RowFault::Form);
    }
    match unknown_column(&row, schema) {
        Some(id) => Err(RowFault::UnknownColumn { id }),
        None => Ok(()),
    }
}
