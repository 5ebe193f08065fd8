// Column lists whose texts are cut with no copy.
ghost use Rattle.std.specs.Prelude.{◌≡◌, ◌<◌, IfOk};
ghost use Rattle.column_codec.specs.Laws.{count_of};
ghost use Rattle.pack_codec.specs.Rows.{cell_at};

use column_block::{Cell, Memory};
use column_codec::{ColumnList, Ints, SharedTexts, Uints};
use std::marker::Model;

// The values of a list.
#[derive(Debug, Drop)]
pub enum Values {
    Int(Ints),
    Uint(Uints),
    Bytes(SharedTexts),
}

/// A column list, of which cells are made. Cells of bytes share one piece of memory. Contracts see
/// the list.
#[derive(Debug, Drop)]
pub struct CutList {
    values: Values,
}

impl Model for CutList {
    ghost use Rattle.column_codec.specs.declared.list.ColumnList.{ColumnList};
    ghost use Rattle.pack_codec.specs.Cuts.{list_of};

    ghost Value = { ColumnList };

    ghost view = { λ it. list_of it.values };
}

impl CutList {
    /// The list, whose bytes are taken over and not copied.
    pub fn new(list: ColumnList) -> Result<CutList, Memory>
        ensures { IfOk result (λ it. it ≡ list) }
    {
        match list {
            ColumnList::Int(values) => Ok(CutList {
                values: Values::Int(values),
            }),
            ColumnList::Uint(values) => Ok(CutList {
                values: Values::Uint(values),
            }),
            ColumnList::Bytes(texts) => match SharedTexts::new(texts) {
                Ok(values) => Ok(CutList {
                    values: Values::Bytes(values),
                }),
                Err(_) => Err(Memory),
            },
        }
    }

    /// The cell of a row.
    pub fn cell(&self, i: usize) -> Result<Cell, Memory>
        requires { i < count_of self.now }
        ensures { IfOk result (λ cell. cell ≡ cell_at self.now i) }
    {
        match &self.values {
            Values::Int(values) => match values.at(i) {
                Some(number) => Ok(Cell::Int(number)),
                None => Ok(Cell::Null),
            },
            Values::Uint(values) => match values.at(i) {
                Some(number) => Ok(Cell::Uint(*number)),
                None => Ok(Cell::Null),
            },
            Values::Bytes(values) => match values.cut(i) {
                Ok(Some(bytes)) => Ok(Cell::Bytes(bytes)),
                Ok(None) => Ok(Cell::Null),
                Err(_) => Err(Memory),
            },
        }
    }
}
