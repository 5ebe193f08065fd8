// Values as rows of the log's schema.
ghost use Rattle.std.specs.Prelude.{◌≡◌, IfOk};
ghost use Rattle.committed_log.specs.Reads.{cells};

use column_block::{Cells, Schema};
use flash_list::Items;
use row_codec::RowView;
use row_decode::{DecodeError, cells};
use std::alloc::{AllocError, Global};

/// The cells of the row that the value is.
pub fn cells_in(alloc: Global, value: &[u8], schema: &Schema) -> Result<Cells, AllocError>
    ensures { IfOk result (λ found. found ≡ cells schema.now value.now) }
{
    let Ok(row) = RowView::read(value) else {
        return Ok(Items::new(alloc));
    };
    match cells(alloc, &row, schema) {
        Ok(cells) => Ok(cells),
        Err(DecodeError::Width { .. }) => Ok(Items::new(alloc)),
        Err(DecodeError::Memory) => Err(AllocError),
    }
}
