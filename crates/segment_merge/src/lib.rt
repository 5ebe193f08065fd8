//! Builds the segment that takes the place of two neighbours. Building reads the segments' snapshots
//! alone, and changes nothing.
#![tactic(auto)]

mod laws;

ghost use Rattle.std.specs.Prelude.{◌≡◌, ◌<◌, ◌++◌, ◌∷◌, [], IfOk};
ghost use Rattle.delta_layer.specs.Built.{HasBuildCause, NeverOneHandle};
ghost use Rattle.delta_layer.specs.declared.built.Job.TheVariants.{Merge};
ghost use Rattle.segment_merge.specs.Joined.{joined, Touch, IsMerge, GivesMerge};

use column_block::{Block, Schema};
use delta_layer::{
    BuildError, Built, Job, Memory, Piece, SegmentView, present_for_build, stable_piece,
};
use flash_io::Reader;
use flash_list::Items;
use flash_types::HandleRange;
pub use laws::merges_are_read_again;
use std::alloc::Global;

/// Builds the merge of a segment with the next one, whose range begins where this one's ends: one
/// segment of both ranges, with the versions that are present in the first and then those of the
/// second, in packs of `pack_rows` versions.
///
/// `Damaged` names the place in its stable file where the first stable part that doesn't read fails;
/// which of the two it is isn't told. `Device` comes only where the reader's count of faults rose,
/// and `OneHandle` never.
pub fn build<R: Reader>(
    alloc: Global,
    left: &SegmentView<R::Grip>,
    right: &SegmentView<R::Grip>,
    schema: &Schema,
    pack_rows: u32,
    reader: &mut R,
) -> Result<Built<R::Grip>, BuildError>
    requires touch { Touch left.now.range right.now.range }
    requires rows { 0 < pack_rows }
    ensures shape { IfOk result (λ built. IsMerge schema.now pack_rows left.now right.now built) }
    ensures exact { R.Grip.tells → GivesMerge R.Grip.bytes left.now right.now result }
    ensures cause { HasBuildCause (R.fault_count reader.old) (R.fault_count reader.new) result }
    ensures many { NeverOneHandle result }
{
    let first = match present_for_build(alloc, left, reader) {
        Ok(first) => first,
        Err(error) => return Err(error),
    };
    let second = match present_for_build(alloc, right, reader) {
        Ok(second) => second,
        Err(error) => return Err(error),
    };
    let Ok(versions) = together(first, &second) else {
        return Err(BuildError::Memory);
    };
    let range = joined_range(&left.range, &right.range);
    let Ok(piece) = stable_piece(alloc, range, versions, schema, pack_rows) else {
        return Err(BuildError::Memory);
    };
    match merged(alloc, left, right, piece) {
        Ok(built) => Ok(built),
        Err(_) => Err(BuildError::Memory),
    }
}

fn joined_range(left: &HandleRange, right: &HandleRange) -> HandleRange
    ensures { result ≡ joined left.now right.now }
{
    HandleRange {
        low: left.low,
        high: right.high,
    }
}

// The versions of both blocks.
fn together(first: Block, second: &Block) -> Result<Block, Memory>
    ensures { IfOk result (λ all. all ≡ first ++ second.now) }
{
    let mut all = first;
    match all.append(second) {
        Ok(()) => Ok(all),
        Err(_) => Err(Memory),
    }
}

// The merge with this piece.
fn merged<G: Drop>(
    alloc: Global,
    left: &SegmentView<G>,
    right: &SegmentView<G>,
    piece: Piece,
) -> Result<Built<G>, Memory>
    ensures job { IfOk result (λ built. built.job ≡ Merge left.now.seg) }
    ensures views { IfOk result (λ built. built.views ≡ left.now ∷ right.now ∷ []) }
    ensures safe_point { IfOk result (λ built. built.safe_point ≡ 0) }
    ensures pieces { IfOk result (λ built. built.pieces ≡ piece ∷ []) }
{
    let mut pieces = Items::new(alloc);
    let Ok(()) = pieces.push(piece) else {
        return Err(Memory);
    };
    let mut views = Items::new(alloc);
    let Ok(()) = views.push(left.share()?) else {
        return Err(Memory);
    };
    let Ok(()) = views.push(right.share()?) else {
        return Err(Memory);
    };
    Ok(Built {
        job: Job::Merge(left.seg),
        views,
        safe_point: 0,
        pieces,
    })
}

#[cfg(test)]
mod tests;
