// The numbers of a pack that its footer tells.
ghost use Rattle.std.specs.Prelude.{◌≡◌, ◌<◌, ◌≤◌, length, slice_range, IfOk, IsTrue};
ghost use Rattle.pack_codec.specs.Faults.{Gives};
ghost use Rattle.pack_codec.specs.Spelling.{cell_of};
ghost use Rattle.column_block.specs.Order.{rise};
ghost use Rattle.stable_file.specs.Ranges as ranges;

use crate::pack::Pack;
use crate::versions::versions_in;
use column_block::{Block, Cell, MinMax, Schema, Version};
use pack_codec::FormError;
use std::alloc::Global;

// A range with one more number.
fn widened(range: MinMax, n: i128) -> MinMax
    ensures { result ≡ ranges.widened range n }
{
    match range {
        MinMax::Empty => MinMax::Of {
            least: n,
            greatest: n,
        },
        MinMax::Of { least, greatest } => MinMax::Of {
            least: if n < least { n } else { least },
            greatest: if greatest < n { n } else { greatest },
        },
    }
}

// A range with a cell's number. Null and bytes have none.
fn with_cell(range: MinMax, cell: &Cell) -> MinMax
    ensures { result ≡ ranges.with_cell range cell.now }
{
    match cell {
        Cell::Int(n) => widened(range, *n as i128),
        Cell::Uint(n) => widened(range, *n as i128),
        Cell::Null => range,
        Cell::Bytes(_) => range,
    }
}

// A range with the number that a version has in a column.
fn with_version(range: MinMax, version: &Version, column: usize) -> MinMax
    ensures { result ≡ ranges.with_cell range (cell_of column version.now) }
{
    if version.cells.len() <= column {
        return range;
    }
    with_cell(range, version.cells.at(column))
}

// The range of the numbers that the versions from one place up to but without another have in a
// column.
pub fn range_in(block: &Block, from: usize, to: usize, column: usize) -> MinMax
    requires order { from ≤ to }
    requires within { to ≤ length block.now }
    ensures { result ≡ ranges.range_with column MinMax.Empty (slice_range block.now from to) }
{
    let mut range = MinMax::Empty;
    for i in from..to {
        range = with_version(range, block.at(i), column);
    }
    range
}

// The range of the numbers of a column.
fn range_of(block: &Block, column: usize) -> MinMax
    ensures { result ≡ ranges.range_with column MinMax.Empty block.now }
{
    range_in(block, 0, block.len(), column)
}

fn same_range(a: MinMax, b: MinMax) -> bool
    ensures { result ≡ ranges.same_range a b }
{
    match a {
        MinMax::Empty => match b {
            MinMax::Empty => true,
            MinMax::Of { .. } => false,
        },
        MinMax::Of { least, greatest } => match b {
            MinMax::Empty => false,
            MinMax::Of {
                least: low,
                greatest: high,
            } => least == low && greatest == high,
        },
    }
}

// Whether these are the ranges of the columns.
fn are_ranges(told: &[MinMax], block: &Block) -> bool
    ensures { result ≡ ranges.are_ranges told.now 0 block.now }
{
    for column in 0..told.len() {
        if !same_range(told[column], range_of(block, column)) {
            return false;
        }
    }
    true
}

pub fn handle_at(block: &Block, i: usize) -> i64
    requires { i < length block.now }
    ensures { result ≡ ranges.handle_at block.now i }
{
    block.at(i).handle
}

// Whether a pack has what its footer tells of it.
fn is_as_told(pack: &Pack, block: &Block) -> bool
    requires { 0 < length block.now }
    ensures { result ≡ ranges.is_as_told pack.now block.now }
{
    if block.len() != pack.count as usize {
        return false;
    }
    if handle_at(block, 0) != pack.low {
        return false;
    }
    if handle_at(block, block.len() - 1) != pack.high {
        return false;
    }
    are_ranges(pack.ranges.as_slice(), block)
}

// The versions of a pack that the footer tells of.
#[tactic(auto, unfolding(crate::specs::Ranges::told_at))]
pub fn told_of(
    alloc: Global,
    pack: &Pack,
    end: u64,
    bytes: &[u8],
    schema: &Schema,
) -> Result<Block, FormError>
    ensures exact { Gives (λ block. block) result (ranges.told_at pack.now end schema.now bytes.now) }
    ensures rising { IfOk result (λ block. IsTrue (rise block)) }
{
    let block = versions_in(alloc, bytes, end, pack.place, schema)?;
    if !is_as_told(pack, &block) {
        return Err(FormError::Damaged { at: pack.place });
    }
    Ok(block)
}
