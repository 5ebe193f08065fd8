// Files, clipped to the range of a segment.
ghost use Rattle.std.specs.Prelude.{◌≡◌, IfOk, is_some};
ghost use Rattle.segment_list.specs.Slots.{added_file, cleared_file, clip_file, file_rows, file_speaks, mem_rows, kept as kept_of};

use crate::Memory;
use column_block::Block;
use column_file::ColumnFile;
use flash_types::HandleRange;
use std::alloc::Global;

/// What a delete-range says of the handles of a range; none where it says nothing of them.
pub fn cleared_in(range: HandleRange, clears: Option<HandleRange>) -> Option<ColumnFile>
    ensures { result ≡ cleared_file range clears }
{
    let Some(other) = clears else {
        return None;
    };
    let range = range.common(&other);
    if range.is_empty() {
        return None;
    }
    Some(ColumnFile::DeleteRange { range })
}

/// The versions of a block whose handles lie in the range, in the order in which they stand there.
pub fn kept(range: HandleRange, block: &Block) -> Result<Block, Memory>
    ensures { IfOk result (λ part. part ≡ kept_of range block.now) }
{
    match block.kept(range.low, range.high) {
        Ok(part) => Ok(part),
        Err(_) => Err(Memory),
    }
}

/// What versions say of the handles of a range, as a block in memory; none where they say nothing.
pub fn added_in(range: HandleRange, adds: &Block) -> Result<Option<ColumnFile>, Memory>
    ensures { IfOk result (λ file. file ≡ added_file range adds.now) }
{
    let block = kept(range, adds)?;
    if block.len() == 0 {
        return Ok(None);
    }
    Ok(Some(ColumnFile::Mem { block }))
}

/// Whether a version lies in the range.
pub fn adds_to(range: HandleRange, adds: &Block) -> bool
    ensures { result ≡ is_some (added_file range adds.now) }
{
    adds.has_in(range.low, range.high)
}

/// How many rows a file has in memory alone.
pub fn mem_rows(file: &ColumnFile) -> u64
    ensures { result ≡ mem_rows file.now }
{
    match file {
        ColumnFile::Mem { block } => block.len() as u64,
        _ => 0,
    }
}

/// How many rows a file has.
pub fn file_rows(file: &ColumnFile) -> u64
    ensures { result ≡ file_rows file.now }
{
    match file {
        ColumnFile::Mem { block } => block.len() as u64,
        ColumnFile::Tiny { file: _, block } => block.len() as u64,
        ColumnFile::DeleteRange { range: _ } => 0,
    }
}

/// A file, clipped to a range. A tiny file stays, with no version where none lies in the range.
pub fn clipped(range: HandleRange, file: &ColumnFile) -> Result<ColumnFile, Memory>
    ensures { IfOk result (λ part. part ≡ clip_file range file.now) }
{
    match file {
        ColumnFile::Mem { block } => {
            let block = kept(range, block)?;
            Ok(ColumnFile::Mem { block })
        }
        ColumnFile::Tiny { file, block } => {
            let block = kept(range, block)?;
            Ok(ColumnFile::Tiny { file: *file, block })
        }
        ColumnFile::DeleteRange { range: other } => Ok(ColumnFile::DeleteRange {
            range: range.common(other),
        }),
    }
}

/// Whether a file can say something.
pub fn can_speak(file: &ColumnFile) -> bool
    ensures { result ≡ file_speaks file.now }
{
    match file {
        ColumnFile::Mem { block } => block.len() > 0,
        ColumnFile::Tiny { file: _, block } => block.len() > 0,
        ColumnFile::DeleteRange { range } => !range.is_empty(),
    }
}
