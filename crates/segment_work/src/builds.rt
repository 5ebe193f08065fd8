// What is built of a work.
ghost use Rattle.std.specs.Prelude.{◌≡◌, ◌<◌, [], ◌∷◌, true, IfOk, IfErr, IsErrOf};
ghost use Rattle.delta_layer.specs.Built.{HasBuildCause};
ghost use Rattle.delta_layer.specs.declared.built.BuildError.TheVariants.{Memory, OneHandle};
ghost use Rattle.delta_layer.specs.declared.built.Job.TheVariants.{Split};
ghost use Rattle.segment_laws.specs.Jobs.{FromSplit, IsBuilt, IsCompaction};
ghost use Rattle.segment_work.specs.Jobs.{has_run, is_split};
ghost use Rattle.segment_work.specs.Outcomes.{FailsAsRead, IsFrom, IsOutcome, SplitsByHandles, read_for};

use crate::compact;
use crate::work::Work;
use column_block::Schema;
use delta_layer::{BuildError, Built, Job, SegmentView};
use flash_io::Reader;
use std::alloc::Global;

// The compaction of a segment.
fn compaction<G: Drop>(
    view: &SegmentView<G>,
    schema: &Schema,
    alloc: Global,
) -> Result<Built<G>, BuildError>
    requires { has_run view.now.delta ≡ true }
    ensures built { IfOk result (λ built. IsCompaction schema.now view.now built) }
    ensures memory { IfErr result (λ error. error ≡ Memory) }
{
    match compact::build(view, schema, alloc) {
        Ok(built) => Ok(built),
        Err(_) => Err(BuildError::Memory),
    }
}

// The split of a segment at the handle in its middle.
fn split<R: Reader>(
    view: &SegmentView<R::Grip>,
    schema: &Schema,
    pack_rows: u32,
    reader: &mut R,
    alloc: Global,
) -> Result<Built<R::Grip>, BuildError>
    requires rows { 0 < pack_rows }
    ensures built { IfOk result (λ built.
        FromSplit R.Grip.tells R.Grip.bytes schema.now pack_rows built) }
    ensures job { IfOk result (λ built. built.job ≡ Split view.now.seg) }
    ensures views { IfOk result (λ built. built.views ≡ view.now ∷ []) }
    ensures safe_point { IfOk result (λ built. built.safe_point ≡ 0) }
    ensures cause { HasBuildCause (R.fault_count reader.old) (R.fault_count reader.new) result }
    ensures damaged { R.Grip.tells → FailsAsRead R.Grip.bytes (view.now ∷ []) result }
    ensures handles { R.Grip.tells → SplitsByHandles R.Grip.bytes (view.now ∷ []) result }
{
    let at = match segment_split::choose(alloc, view, reader) {
        Ok(at) => at,
        Err(error) => return Err(error),
    };
    match segment_split::build(alloc, view, at, schema, pack_rows, reader) {
        Ok(built) => Ok(built),
        Err(error) => Err(error),
    }
}

// What a work's build answers.
fn outcome<R: Reader>(
    work: &Work<R::Grip>,
    schema: &Schema,
    reader: &mut R,
    alloc: Global,
) -> Result<Built<R::Grip>, BuildError>
    ensures { IsOutcome R.Grip.tells R.Grip.bytes schema.now work.now
        (R.fault_count reader.old) (R.fault_count reader.new) result }
{
    work.is_ready();
    let views = work.views();
    let rows = work.pack_rows();
    match work.job() {
        Job::Compact(_) => compaction(&views[0], schema, alloc),
        Job::MergeDelta(_) => {
            delta_merge::build(alloc, &views[0], work.safe_point(), schema, rows, reader)
        }
        Job::Split(_) => split(&views[0], schema, rows, reader, alloc),
        Job::Merge(_) => { segment_merge::build(alloc, &views[0], &views[1], schema, rows, reader) }
    }
}

/// Builds what a work makes of its segments, as they were when it was begun: a compaction puts the
/// first run of tiny files into one, a delta merge leaves out what the work's safe point lets go, a
/// split parts the segment at the handle in its middle, and a merge joins the two. It changes
/// nothing, and a compaction reads no device.
///
/// `Damaged` names the place in its stable file where the first stable part that doesn't read
/// fails, `Device` comes only where the reader's count of faults rose, `OneHandle` of a split alone,
/// where fewer than two handles have versions, and there nothing is built. `Memory` is want of
/// memory.
pub fn build<R: Reader>(
    work: &Work<R::Grip>,
    schema: &Schema,
    reader: &mut R,
    alloc: Global,
) -> Result<Built<R::Grip>, BuildError>
    ensures built { IfOk result (λ built.
        IsBuilt R.Grip.tells R.Grip.bytes schema.now work.now.pack_rows built) }
    ensures from { IfOk result (λ built.
        IsFrom work.now.job work.now.views work.now.safe_point built) }
    ensures cause { HasBuildCause (R.fault_count reader.old) (R.fault_count reader.new) result }
    ensures damaged { R.Grip.tells →
        FailsAsRead R.Grip.bytes (read_for work.now.job work.now.views) result }
    ensures split_alone { IsErrOf result OneHandle → is_split work.now.job ≡ true }
    ensures handles { R.Grip.tells → is_split work.now.job ≡ true →
        SplitsByHandles R.Grip.bytes work.now.views result }
{
    outcome(work, schema, reader, alloc)
}
