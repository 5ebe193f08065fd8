// The files of a delta.
use column_block::Block;
use flash_io::FileId;
use flash_types::HandleRange;

/// One of the files that a segment's delta is made of, as TiFlash's column files are.
#[derive(Drop)]
pub enum ColumnFile {
    /// Rows that no file of the store has yet.
    Mem { block: Block },
    /// Rows that the tiny file of this number has.
    Tiny { file: FileId, block: Block },
    /// The rows with handles in the range are deleted.
    DeleteRange { range: HandleRange },
}
