// What a delta has of a segment's handles: its newest versions, and its delete-ranges.
ghost use Rattle.std.specs.Prelude.{◌≡◌, ◌∷◌, ◌++◌, [], ℤ, slice_get, if◌then◌else◌, IfOk, OnOk, Some};
ghost use Rattle.column_block.specs.declared.cell.Version.{Version};
ghost use Rattle.flash_types.specs.Ranges.{holds, is_below};
ghost use Rattle.delta_layer.specs.Files.{index_of};
ghost use Rattle.delta_layer.specs.Overlay.{any_holds, at_place, block_in, clears_in, in_range, placed, AreByLow};

use crate::Memory;
use crate::view::DeltaView;
use column_block::Block;
use column_file::ColumnFile;
use delta_index::IndexRow;
use flash_types::HandleRange;
use std::alloc::Global;

// The newest versions of a delta in a range, in order.
pub fn newest(alloc: Global, delta: &DeltaView, range: HandleRange) -> Result<Block, Memory>
    ensures { IfOk result (λ news. news ≡ placed delta.now (in_range range (index_of delta.now))) }
{
    let index = delta.index();
    let mut news = Block::new(alloc);
    for k in index.first_from(range.low)..index.len() {
        let row = index.at(k);
        if !is_below(row.handle, range.high) {
            return Ok(news);
        }
        add_within(delta, range, row, &mut news)?;
    }
    Ok(news)
}

// Whether the handle is below the end, where there is one.
fn is_below(handle: i64, high: Option<i64>) -> bool
    ensures { result ≡ is_below handle high }
{
    match high {
        None => true,
        Some(high) => handle < high,
    }
}

// Adds the version of a row that the index tells of, where its handle is in the range.
fn add_within(
    delta: &DeltaView,
    range: HandleRange,
    row: IndexRow,
    news: &mut Block,
) -> Result<(), Memory>
    ensures { (version : Version) → at_place delta.now (row.number, row.row) ≡ Some version → OnOk result (news.new ≡ (if holds range row.handle then news.old ++ version ∷ [] else news.old)) }
{
    if range.holds(row.handle) {
        return add_row(delta, row, news);
    }
    Ok(())
}

// Adds the version of a row that the index tells of.
fn add_row(delta: &DeltaView, row: IndexRow, news: &mut Block) -> Result<(), Memory>
    ensures { (version : Version) → at_place delta.now (row.number, row.row) ≡ Some version → OnOk result (news.new ≡ news.old ++ version ∷ []) }
{
    if delta.files() as u64 <= row.number {
        return Ok(());
    }
    match delta.file(row.number as usize) {
        ColumnFile::Mem { block } => add_version(block, row.row, news),
        ColumnFile::Tiny { block, .. } => add_version(block, row.row, news),
        ColumnFile::DeleteRange { .. } => Ok(()),
    }
}

// Adds the version at a place of a block.
fn add_version(block: &Block, place: u64, news: &mut Block) -> Result<(), Memory>
    ensures { (version : Version) → slice_get block.now place ≡ Some version → OnOk result (news.new ≡ news.old ++ version ∷ []) }
{
    if block.len() as u64 <= place {
        return Ok(());
    }
    let place = place as usize;
    let Ok(one) = block.slice(place, place + 1) else {
        return Err(Memory);
    };
    match news.append(&one) {
        Ok(()) => Ok(()),
        Err(_) => Err(Memory),
    }
}

// The delete-ranges of a delta, by their low ends.
pub fn clears(alloc: Global, delta: &DeltaView) -> Result<Vec<HandleRange>, Memory>
    ensures order { IfOk result (λ ranges. AreByLow ranges.items) }
    ensures same { IfOk result (λ ranges. (h : ℤ) → any_holds ranges.items h ≡ any_holds (clears_in delta.now) h) }
{
    let mut ranges = all_clears(alloc, delta)?;
    ranges.sort_unstable_by_key(|range| range.low);
    Ok(ranges)
}

// The delete-ranges of a delta, in the files' order.
fn all_clears(alloc: Global, delta: &DeltaView) -> Result<Vec<HandleRange>, Memory>
    ensures { IfOk result (λ ranges. ranges.items ≡ clears_in delta.now) }
{
    let mut ranges = Vec::new(alloc);
    for i in 0..delta.files() {
        add_clear(delta.file(i), &mut ranges)?;
    }
    Ok(ranges)
}

fn add_clear(file: &ColumnFile, ranges: &mut Vec<HandleRange>) -> Result<(), Memory>
    ensures { OnOk result (ranges.new.items ≡ ranges.old.items ++ clears_in (file.now ∷ [])) }
{
    if let ColumnFile::DeleteRange { range } = file {
        let Ok(()) = ranges.push(*range) else {
            return Err(Memory);
        };
    }
    Ok(())
}
