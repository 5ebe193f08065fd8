// The versions that are present in a segment.
ghost use Rattle.std.specs.Prelude.{◌≡◌, ◌++◌, take, map, slice_get, Some, IfOk, IsTrue};
ghost use Rattle.stable_file.specs.Faults.{HasReadCause};
ghost use Rattle.column_block.specs.Order.{Rise, rises};
ghost use Rattle.delta_layer.specs.Files.{files_of};
ghost use Rattle.delta_layer.specs.Overlay.{picked, ArePlaces};
ghost use Rattle.delta_layer.specs.Present.{ArePresent, AreWithin, GivesPresent};

use crate::Memory;
use crate::merge::{kept, merged};
use crate::newest::{clears, newest};
use crate::stable::stable_versions;
use crate::view::{DeltaView, SegmentView};
use column_block::Block;
use flash_io::Reader;
use flash_types::HandleRange;
use stable_file::ReadError;
use std::alloc::Global;

/// The versions that are present in a segment, in order of handle and timestamp. Those of the stable
/// part come first; then the files of the delta one by one, the oldest first: a block's version takes
/// the place of one with the same handle and timestamp, and a delete-range takes away the versions of
/// its handles. Only handles of the segment's range count.
///
/// It reads the stable part pack by pack. `Damaged` names the first place in the stable file that
/// isn't of the form or belies the footer, as `stable_file::read_pack` says, or the place of the first
/// pack whose versions don't rise from those of the packs before it. `Device` comes only where the
/// reader's count of faults rose.
pub fn present<R: Reader>(
    alloc: Global,
    view: &SegmentView<R::Grip>,
    reader: &mut R,
) -> Result<Block, ReadError>
    ensures exact { R.Grip.tells → GivesPresent R.Grip.bytes view.now.range view.now.stable view.now.delta result }
    ensures rising { IfOk result (λ versions. Rise versions) }
    ensures within { IfOk result (λ versions. AreWithin view.now.range versions) }
    ensures cause { HasReadCause (R.fault_count reader.old) (R.fault_count reader.new) result }
{
    let stable = stable_versions(alloc, &view.stable, reader)?;
    match present_above(alloc, view.range, stable, &view.delta) {
        Ok(versions) => Ok(versions),
        Err(_) => Err(ReadError::Memory),
    }
}

/// The versions that are present in this range, of these stable versions and the files of a delta
/// above them. It reads no device. Of the delta only the files' delete-ranges and the versions of
/// the range are looked at.
pub fn present_above(
    alloc: Global,
    range: HandleRange,
    stable: Block,
    delta: &DeltaView,
) -> Result<Block, Memory>
    requires { IsTrue (rises stable) }
    ensures { IfOk result (λ versions. ArePresent range stable (files_of delta.now) versions) }
{
    let count = stable.len();
    let news = newest(alloc, delta, range)?;
    let all = both(stable, &news)?;
    let ranges = clears(alloc, delta)?;
    let olds = kept(alloc, &all, count, range, ranges.as_slice())?;
    let places = merged(alloc, &all, olds.as_slice(), count)?;
    let versions = at_places(&all, places.as_slice())?;
    Ok(versions)
}

fn both(stable: Block, news: &Block) -> Result<Block, Memory>
    ensures { IfOk result (λ all. all ≡ stable ++ news.now) }
{
    let mut all = stable;
    match all.append(news) {
        Ok(()) => Ok(all),
        Err(_) => Err(Memory),
    }
}

fn at_places(all: &Block, places: &[u64]) -> Result<Block, Memory>
    requires { ArePlaces all.now places.now }
    ensures { IfOk result (λ block. block ≡ picked all.now places.now) }
{
    match all.permuted(places) {
        Ok(block) => Ok(block),
        Err(_) => Err(Memory),
    }
}
