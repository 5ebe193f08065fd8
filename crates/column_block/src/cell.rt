// Cells, and the rows and versions that are made of them.
ghost use Rattle.std.specs.Prelude.{◌≡◌, IfOk};

use crate::Memory;
use flash_list::{Items, SharedBytes};

/// The bytes of a cell. Copies of the cell share them, and many cells may be cut from one piece of
/// memory.
pub type CellBytes = SharedBytes;

/// What a row has in one column.
#[derive(Debug, Drop)]
pub enum Cell {
    /// No value.
    Null,
    /// A signed number.
    Int(i64),
    /// An unsigned number.
    Uint(u64),
    /// Bytes.
    Bytes(CellBytes),
}

/// The cells of a row, in the order of the schema's columns.
pub type Cells = Items<Cell>;

/// One committed state of a row.
#[derive(Debug, Drop)]
pub struct Version {
    /// The row's key in the table.
    pub handle: i64,
    /// The commit timestamp.
    pub ts: u64,
    /// Whether the commit deletes the row. A version that is gone has no cells.
    pub gone: bool,
    /// The cells, in the order of the schema's columns.
    pub cells: Cells,
}

/// A row as a read answers it.
#[derive(Debug, Drop)]
pub struct Row {
    /// The row's key in the table.
    pub handle: i64,
    /// The cells, in the order of the schema's columns.
    pub cells: Cells,
}

impl Cell {
    /// A copy of the cell. It shares the bytes of a cell of bytes, and copies none.
    pub fn copied(&self) -> Result<Cell, Memory>
        ensures { IfOk result (λ copy. copy ≡ self.now) }
    {
        match self {
            Cell::Null => Ok(Cell::Null),
            Cell::Int(number) => Ok(Cell::Int(*number)),
            Cell::Uint(number) => Ok(Cell::Uint(*number)),
            Cell::Bytes(bytes) => match bytes.share() {
                Ok(shared) => Ok(Cell::Bytes(shared)),
                Err(_) => Err(Memory),
            },
        }
    }
}
