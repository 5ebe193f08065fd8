//! Builds the segment that a delta merge puts in the place of another: the versions of its delta go
//! into its stable part, and those that no read can miss are left out. Building reads the segment's
//! snapshot alone, and changes nothing.
#![tactic(auto)]

mod laws;

ghost use Rattle.std.specs.Prelude.{◌≡◌, ◌<◌, ◌∷◌, [], IfOk};
ghost use Rattle.delta_layer.specs.Built.{HasBuildCause, NeverOneHandle};
ghost use Rattle.delta_layer.specs.declared.built.Job.TheVariants.{MergeDelta};
ghost use Rattle.delta_merge.specs.Merged.{IsDeltaMerge, GivesDeltaMerge};

use column_block::Schema;
use delta_layer::{
    BuildError, Built, Job, Memory, Piece, SegmentView, present_for_build, stable_piece,
};
use flash_io::Reader;
use flash_list::Items;
use flash_types::Ts;
pub use laws::delta_merges_are_read_again;
use std::alloc::Global;
use version_gc::keep;

/// Builds the delta merge of a segment: one segment of the same range, whose versions are those of
/// the present ones that a collection at the safe point keeps, in packs of `pack_rows` versions.
///
/// `Damaged` names the place in the stable file where the stable part doesn't read, `Device` comes
/// only where the reader's count of faults rose, and `OneHandle` never.
pub fn build<R: Reader>(
    alloc: Global,
    view: &SegmentView<R::Grip>,
    safe_point: Ts,
    schema: &Schema,
    pack_rows: u32,
    reader: &mut R,
) -> Result<Built<R::Grip>, BuildError>
    requires rows { 0 < pack_rows }
    ensures shape { IfOk result (λ built. IsDeltaMerge schema.now pack_rows safe_point view.now built) }
    ensures exact { R.Grip.tells → GivesDeltaMerge R.Grip.bytes safe_point view.now result }
    ensures cause { HasBuildCause (R.fault_count reader.old) (R.fault_count reader.new) result }
    ensures many { NeverOneHandle result }
{
    let present = match present_for_build(alloc, view, reader) {
        Ok(present) => present,
        Err(error) => return Err(error),
    };
    let Ok(kept) = keep(alloc, &present, safe_point) else {
        return Err(BuildError::Memory);
    };
    let Ok(piece) = stable_piece(alloc, view.range, kept, schema, pack_rows) else {
        return Err(BuildError::Memory);
    };
    match merged(alloc, view, safe_point, piece) {
        Ok(built) => Ok(built),
        Err(_) => Err(BuildError::Memory),
    }
}

// The delta merge with this piece.
fn merged<G: Drop>(
    alloc: Global,
    view: &SegmentView<G>,
    safe_point: Ts,
    piece: Piece,
) -> Result<Built<G>, Memory>
    ensures job { IfOk result (λ built. built.job ≡ MergeDelta view.now.seg) }
    ensures views { IfOk result (λ built. built.views ≡ view.now ∷ []) }
    ensures safe_point { IfOk result (λ built. built.safe_point ≡ safe_point) }
    ensures pieces { IfOk result (λ built. built.pieces ≡ piece ∷ []) }
{
    let mut pieces = Items::new(alloc);
    let Ok(()) = pieces.push(piece) else {
        return Err(Memory);
    };
    let mut views = Items::new(alloc);
    let Ok(()) = views.push(view.share()?) else {
        return Err(Memory);
    };
    Ok(Built {
        job: Job::MergeDelta(view.seg),
        views,
        safe_point,
        pieces,
    })
}

#[cfg(test)]
mod tests;
