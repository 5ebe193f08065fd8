// Two blocks that are flushed and left, and two tiny files that are compacted.
ghost use Rattle.std.specs.Prelude.{◌≡◌, ◌∷◌, ◌++◌, [], IfOk};
ghost use Rattle.column_file.specs.declared.file.ColumnFile.{ColumnFile};

use crate::layers::{show_layer, show_view};
use crate::trouble::Trouble;
use column_block::Block;
use column_file::ColumnFile;
use delta_layer::{DeltaLayer, Memory};
use std::alloc::Global;

fn joined(alloc: Global, first: &Block, second: &Block) -> Result<Block, Memory>
    ensures { IfOk result (λ both. both ≡ first.now ++ second.now) }
{
    let mut both = Block::new(alloc);
    if both.append(first).is_err() {
        return Err(Memory);
    }
    if both.append(second).is_err() {
        return Err(Memory);
    }
    Ok(both)
}

fn with_block(layer: DeltaLayer, block: Block) -> Result<DeltaLayer, Memory>
    ensures { IfOk result (λ all. all ≡ layer ++ ColumnFile.Mem block ∷ []) }
{
    let mut all = layer;
    match all.append(ColumnFile::Mem { block }) {
        Ok(()) => Ok(all),
        Err(_) => Err(Memory),
    }
}

// A layer of two blocks, the same flushed, and what comes after the first block.
fn flushed_and_rest(
    alloc: Global,
    first: Block,
    second: Block,
) -> Result<(DeltaLayer, DeltaLayer, DeltaLayer), Memory> {
    let both = joined(alloc, &first, &second)?;
    let layer = with_block(DeltaLayer::new(alloc), first)?;
    let layer = with_block(layer, second)?;
    let tiny = ColumnFile::Tiny {
        file: 3,
        block: both,
    };
    let flushed = layer.flushed(2, tiny)?;
    let rest = layer.rest(1)?;
    Ok((layer, flushed, rest))
}

// Two tiny files with the versions of two blocks, as one.
fn one_of_two(alloc: Global, first: Block, second: Block) -> Result<DeltaLayer, Memory> {
    let both = joined(alloc, &first, &second)?;
    let mut layer = DeltaLayer::new(alloc);
    let Ok(()) = layer.append(ColumnFile::Tiny {
        file: 1,
        block: first,
    }) else {
        return Err(Memory);
    };
    let Ok(()) = layer.append(ColumnFile::Tiny {
        file: 2,
        block: second,
    }) else {
        return Err(Memory);
    };
    let tiny = ColumnFile::Tiny {
        file: 3,
        block: both,
    };
    layer.compacted(0, 2, tiny)
}

/// Prints what a delta of two blocks has, what it has flushed, and what is behind its first block.
pub fn show_flushed<R: Print + AllocGlobal>(
    rt: &R,
    first: Block,
    second: Block,
) -> Result<(), Trouble> {
    let (layer, flushed, rest) = flushed_and_rest(rt.alloc(), first, second)?;
    show_view(rt, &layer.view()?)?;
    show_layer(rt, "flushed ", &flushed)?;
    show_layer(rt, "rest ", &rest)
}

/// Prints what a delta has of two tiny files that became one.
pub fn show_compacted<R: Print + AllocGlobal>(
    rt: &R,
    first: Block,
    second: Block,
) -> Result<(), Trouble> {
    let layer = one_of_two(rt.alloc(), first, second)?;
    show_layer(rt, "compacted ", &layer)
}
