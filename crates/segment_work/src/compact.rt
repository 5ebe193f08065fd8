// The compaction of a segment's first run of tiny files.
ghost use Rattle.std.specs.Prelude.{◌≡◌, ◌∷◌, [], true, IfOk};
ghost use Rattle.column_file.specs.Tiny.{tiny};
ghost use Rattle.delta_layer.specs.declared.built.Job.TheVariants.{Compact};
ghost use Rattle.segment_laws.specs.Jobs.{IsCompaction, IsRun};
ghost use Rattle.segment_laws.specs.Runs.{IsFirstRun};
ghost use Rattle.segment_work.specs.Jobs.{has_run};

use crate::runs::{first_run, versions_in};
use column_block::{Block, Schema};
use column_file::encode_tiny;
use delta_layer::{Built, Job, Memory, Piece, SegmentView};
use flash_list::{Bytes, Items};
use std::alloc::Global;

// The bytes of the tiny file with these versions.
fn tiny_bytes(versions: &Block, schema: &Schema, alloc: Global) -> Result<Bytes, Memory>
    ensures { IfOk result (λ bytes. bytes ≡ tiny schema.now versions.now) }
{
    let mut bytes = Vec::new(alloc);
    match encode_tiny(alloc, versions, schema, &mut bytes) {
        Ok(()) => Ok(Items::from_vec(bytes)),
        Err(_) => Err(Memory),
    }
}

// The files from..to of a segment as one.
fn run_piece<G: Drop>(
    view: &SegmentView<G>,
    from: usize,
    to: usize,
    schema: &Schema,
    alloc: Global,
) -> Result<Piece, Memory>
    requires { IsFirstRun view.now.delta from to }
    ensures { IfOk result (IsRun schema.now view.now from to) }
{
    let versions = versions_in(&view.delta, from, to, alloc)?;
    let bytes = tiny_bytes(&versions, schema, alloc)?;
    Ok(Piece {
        range: view.range,
        versions,
        bytes,
    })
}

// The compaction with this piece.
fn compacted<G: Drop>(
    view: &SegmentView<G>,
    piece: Piece,
    alloc: Global,
) -> Result<Built<G>, Memory>
    ensures job { IfOk result (λ built. built.job ≡ Compact view.now.seg) }
    ensures views { IfOk result (λ built. built.views ≡ view.now ∷ []) }
    ensures safe_point { IfOk result (λ built. built.safe_point ≡ 0) }
    ensures pieces { IfOk result (λ built. built.pieces ≡ piece ∷ []) }
{
    let mut pieces = Items::new(alloc);
    let Ok(()) = pieces.push(piece) else {
        return Err(Memory);
    };
    let mut views = Items::new(alloc);
    let Ok(()) = views.push(view.share()?) else {
        return Err(Memory);
    };
    Ok(Built {
        job: Job::Compact(view.seg),
        views,
        safe_point: 0,
        pieces,
    })
}

/// Builds the compaction of a segment: its first run of two or more tiny files side by side as one
/// file, with the versions of all of them in the order of the files. It reads no device.
pub fn build<G: Drop>(
    view: &SegmentView<G>,
    schema: &Schema,
    alloc: Global,
) -> Result<Built<G>, Memory>
    requires { has_run view.now.delta ≡ true }
    ensures { IfOk result (λ built. IsCompaction schema.now view.now built) }
{
    let (from, to) = first_run(&view.delta);
    let piece = run_piece(view, from, to, schema, alloc)?;
    let built = compacted(view, piece, alloc)?;
    Ok(built)
}
