// The two segments that take the place of one.
ghost use Rattle.std.specs.Prelude.{◌≡◌, ◌<◌, ◌≤◌, ◌++◌, ◌∷◌, [], true, false, length, take, drop, int_lt, IfOk};
ghost use Rattle.std.specs.List.{AllByRecursion};
ghost use Rattle.column_block.specs.Order.{Rise};
ghost use Rattle.delta_layer.specs.Built.{HasBuildCause, NeverOneHandle};
ghost use Rattle.delta_layer.specs.Present.{AreWithin};
ghost use Rattle.delta_layer.specs.declared.built.Job.TheVariants.{Split};
ghost use Rattle.segment_split.specs.Halves.{lower, upper, AreHalves, IsCut, IsSplit, GivesSplit, HalvesPart};

use column_block::{Block, Schema, Version};
use delta_layer::{
    BuildError, Built, Job, Memory, Piece, SegmentView, present_for_build, stable_piece,
};
use flash_io::Reader;
use flash_list::Items;
use flash_types::{Handle, HandleRange};
use std::alloc::Global;

/// Builds the split of a segment at a handle: two segments, of the handles below it and of those from
/// it on, that together have the versions that are present, in packs of `pack_rows` versions. All
/// versions of a handle are in one of them.
///
/// `Damaged` names the place in the stable file where the stable part doesn't read, `Device` comes
/// only where the reader's count of faults rose, and `OneHandle` never.
pub fn build<R: Reader>(
    alloc: Global,
    view: &SegmentView<R::Grip>,
    at: Handle,
    schema: &Schema,
    pack_rows: u32,
    reader: &mut R,
) -> Result<Built<R::Grip>, BuildError>
    requires cut { IsCut view.now.range at }
    requires rows { 0 < pack_rows }
    ensures shape { IfOk result (λ built. IsSplit schema.now pack_rows at view.now built) }
    ensures exact { R.Grip.tells → GivesSplit R.Grip.bytes view.now result }
    ensures cause { HasBuildCause (R.fault_count reader.old) (R.fault_count reader.new) result }
    ensures many { NeverOneHandle result }
{
    let present = match present_for_build(alloc, view, reader) {
        Ok(present) => present,
        Err(error) => return Err(error),
    };
    let Ok((low, high)) = cut_at(&present, &view.range, at) else {
        return Err(BuildError::Memory);
    };
    let lower = lower_half(&view.range, at);
    let Ok(first) = stable_piece(alloc, lower, low, schema, pack_rows) else {
        return Err(BuildError::Memory);
    };
    let upper = upper_half(&view.range, at);
    let Ok(second) = stable_piece(alloc, upper, high, schema, pack_rows) else {
        return Err(BuildError::Memory);
    };
    match split(alloc, view, first, second) {
        Ok(built) => Ok(built),
        Err(_) => Err(BuildError::Memory),
    }
}

fn lower_half(range: &HandleRange, at: Handle) -> HandleRange
    ensures { result ≡ lower at range.now }
{
    HandleRange {
        low: range.low,
        high: Some(at),
    }
}

fn upper_half(range: &HandleRange, at: Handle) -> HandleRange
    ensures { result ≡ upper at range.now }
{
    HandleRange {
        low: at,
        high: range.high,
    }
}

// The versions below a handle, and those from it on.
fn cut_at(block: &Block, range: &HandleRange, at: Handle) -> Result<(Block, Block), Memory>
    requires rise { Rise block.now }
    requires within { AreWithin range.now block.now }
    ensures { IfOk result (λ halves. AreHalves range.now at block.now halves.0 halves.1) }
{
    let place = first_from(block, at);
    let Ok(low) = block.slice(0, place) else {
        return Err(Memory);
    };
    let Ok(high) = block.slice(place, block.len()) else {
        return Err(Memory);
    };
    Ok((low, high))
}

// The place of the first version from a handle on.
fn first_from(block: &Block, at: Handle) -> usize
    requires { Rise block.now }
    ensures within { result ≤ length block.now }
    ensures below { AllByRecursion (λ (v : Version). int_lt v.handle at ≡ true) (take result block.now) }
    ensures from { AllByRecursion (λ (v : Version). int_lt v.handle at ≡ false) (drop result block.now) }
{
    for i in 0..block.len() {
        if !is_below(block.at(i), at) {
            return i;
        }
    }
    block.len()
}

fn is_below(version: &Version, at: Handle) -> bool
    ensures { result ≡ int_lt version.now.handle at }
{
    version.handle < at
}

// The split with these pieces.
fn split<G: Drop>(
    alloc: Global,
    view: &SegmentView<G>,
    first: Piece,
    second: Piece,
) -> Result<Built<G>, Memory>
    ensures job { IfOk result (λ built. built.job ≡ Split view.now.seg) }
    ensures views { IfOk result (λ built. built.views ≡ view.now ∷ []) }
    ensures safe_point { IfOk result (λ built. built.safe_point ≡ 0) }
    ensures pieces { IfOk result (λ built. built.pieces ≡ first ∷ second ∷ []) }
{
    let mut pieces = Items::new(alloc);
    let Ok(()) = pieces.push(first) else {
        return Err(Memory);
    };
    let Ok(()) = pieces.push(second) else {
        return Err(Memory);
    };
    let mut views = Items::new(alloc);
    let Ok(()) = views.push(view.share()?) else {
        return Err(Memory);
    };
    Ok(Built {
        job: Job::Split(view.seg),
        views,
        safe_point: 0,
        pieces,
    })
}

/// Where a range can be split at a handle, each handle of it is in one of the two halves, and in one
/// alone; and the halves have no other handle.
pub fn halves_part()
    ensures { HalvesPart }
{}
