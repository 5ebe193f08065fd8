// What a flush makes of a slot's delta, with all memory taken.
ghost use Rattle.std.specs.Prelude.{◌≡◌, true, [], ◌∷◌, ◌++◌, IfOk, OnOk};
ghost use Rattle.delta_layer.specs.Files.{HasNoMem, is_mem, is_tiny};
ghost use Rattle.segment_list.specs.Flushes.{IsFlushOf, after_file, flushed_file};

use crate::Memory;
use column_block::Block;
use column_file::ColumnFile;
use delta_layer::DeltaLayer;
use flash_io::FileId;
use std::alloc::Global;

/// A flush of a slot's delta: its files with each block in memory as a tiny file. The tiny files of
/// the numbers from `from` on, and below `next`, are to be written before the flush is put.
#[derive(Drop)]
pub struct Flush {
    /// The files of the delta once it is flushed.
    pub layer: DeltaLayer,
    /// The number of the first block.
    pub from: FileId,
    /// The first number that the blocks leave free.
    pub next: FileId,
}

// A block with the same versions, which are shared.
fn whole(block: &Block, alloc: Global) -> Result<Block, Memory>
    ensures { IfOk result (λ whole. whole ≡ block.now) }
{
    let mut whole = Block::new(alloc);
    match whole.append(block) {
        Ok(()) => Ok(whole),
        Err(_) => Err(Memory),
    }
}

// A file once it is flushed, where a block takes this number.
fn flushed(file: &ColumnFile, number: FileId, alloc: Global) -> Result<ColumnFile, Memory>
    ensures { IfOk result (λ flushed. flushed ≡ flushed_file number file.now) }
{
    match file {
        ColumnFile::Mem { block } => {
            let block = whole(block, alloc)?;
            Ok(ColumnFile::Tiny {
                file: number,
                block,
            })
        }
        ColumnFile::Tiny { file, block } => {
            let block = whole(block, alloc)?;
            Ok(ColumnFile::Tiny { file: *file, block })
        }
        ColumnFile::DeleteRange { range } => Ok(ColumnFile::DeleteRange { range: *range }),
    }
}

// The number for the next block. `Memory` comes where there is none.
fn number_after(file: &ColumnFile, number: FileId) -> Result<FileId, Memory>
    ensures { IfOk result (λ next. next ≡ after_file number file.now) }
{
    match file {
        ColumnFile::Mem { .. } => match number.checked_add(1) {
            Some(next) => Ok(next),
            None => Err(Memory),
        },
        ColumnFile::Tiny { .. } => Ok(number),
        ColumnFile::DeleteRange { .. } => Ok(number),
    }
}

/// Whether a file is a block in memory.
pub fn is_mem(file: &ColumnFile) -> bool
    ensures { result ≡ is_mem file.now }
{
    match file {
        ColumnFile::Mem { .. } => true,
        ColumnFile::Tiny { .. } => false,
        ColumnFile::DeleteRange { .. } => false,
    }
}

/// Whether a file is a tiny one.
pub fn is_tiny(file: &ColumnFile) -> bool
    ensures { result ≡ is_tiny file.now }
{
    match file {
        ColumnFile::Mem { .. } => false,
        ColumnFile::Tiny { .. } => true,
        ColumnFile::DeleteRange { .. } => false,
    }
}

// Adds a file to a layer.
fn append(layer: &mut DeltaLayer, file: ColumnFile) -> Result<(), Memory>
    requires { is_tiny file ≡ true → HasNoMem layer.old }
    ensures { OnOk result (layer.new ≡ layer.old ++ file ∷ []) }
{
    match layer.append(file) {
        Ok(()) => Ok(()),
        Err(_) => Err(Memory),
    }
}

/// The flush of a delta, whose blocks in memory get the numbers from this one on. `Memory` comes too
/// where the numbers don't suffice.
pub fn flush_of(layer: &DeltaLayer, from: FileId, alloc: Global) -> Result<Flush, Memory>
    ensures from { IfOk result (λ flush. flush.from ≡ from) }
    ensures flush { IfOk result (IsFlushOf layer.now) }
{
    let mut new = DeltaLayer::new(alloc);
    let mut next = from;
    for i in 0..layer.files() {
        let file = flushed(layer.file(i), next, alloc)?;
        next = number_after(layer.file(i), next)?;
        append(&mut new, file)?;
    }
    Ok(Flush {
        layer: new,
        from,
        next,
    })
}
