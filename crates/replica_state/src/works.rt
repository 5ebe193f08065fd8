// Works that are begun on what is in memory, and built outside of any turn.
ghost use Rattle.std.specs.Prelude.{◌≡◌, true, is_some, IfOk, IfSome, IsErrOf};
ghost use Rattle.delta_layer.specs.Built.{HasBuildCause};
ghost use Rattle.delta_layer.specs.declared.built.BuildError.TheVariants.{OneHandle};
ghost use Rattle.segment_laws.specs.Jobs.{IsBuilt};
ghost use Rattle.segment_work.specs.Begun.{IsReady};
ghost use Rattle.segment_work.specs.Jobs.{can_begin, is_split};
ghost use Rattle.segment_work.specs.Outcomes.{FailsAsRead, IsFrom, SplitsByHandles, read_for};
ghost use Rattle.replica_state.specs.Works.{IsTask, task_of};

use crate::Memory;
use crate::state::State;
use committed_log::Logs;
use delta_layer::{BuildError, Built, Job, SegmentView};
use flash_io::Reader;
use segment_work::{Work, begin};
use std::alloc::Global;
use std::marker::Model;
use std::snapshot::Snapshot;
use std::sync::Arc;

/// A work that was begun on what a replica had in memory: its job, and the segments that the job
/// needs, as they were then. Nothing that happens to the replica later changes it. Contracts see
/// besides the whole of what was in memory then.
#[derive(Drop)]
pub struct Task<G> {
    work: Work<G>,
    logs: Arc<Logs, Global>,
    generation: u64,
    begun: Snapshot<State<G>>,
    alloc: Global,
}

impl<G> Model for Task<G> {
    ghost use Rattle.std.specs.Arc.{arc_value};
    ghost use Rattle.replica_state.specs.Works.{BegunTask, IsTaskWith};

    ghost Value = { BegunTask G };

    ghost view = { λ t. record { work = t.work; state = t.begun.value } };

    ghost invariant = { λ t. IsTaskWith (arc_value t.logs) t.generation t.work t.begun.value };
}

impl<G: Drop> Task<G> {
    /// That it was begun on a state that was in order, and can be built. It does nothing when it runs.
    pub fn told(&self)
        ensures task { IsTask self.now }
        ensures ready { IsReady self.now.work.job self.now.work.views self.now.work.pack_rows }
    {
        self.logs.told_lawful();
        self.work.is_ready();
    }

    /// The job.
    pub fn job(&self) -> Job
        ensures { result ≡ self.now.work.job }
    {
        self.work.job()
    }

    /// The segment that the job names, and for a merge the next one behind it, as they were when
    /// the work was begun.
    pub fn views(&self) -> &[SegmentView<G>]
        ensures { result.now ≡ self.now.work.views }
    {
        self.work.views()
    }

    /// The generation of the replica's files when the work was begun. The views' stable files are of
    /// it, and stand on the disk as long as those of that generation are kept.
    pub fn generation(&self) -> u64
        ensures { result ≡ self.now.state.numbers.generation }
    {
        self.generation
    }
}

impl<G: Drop> State<G> {
    /// Begins a job on the segments as they are now, at the safe point as it is now.
    ///
    /// None comes exactly where there is no segment of the job's number, where a compaction's segment
    /// has no two tiny files side by side, where a delta merge's has no file in its delta, and where
    /// no segment stands above a merge's. `Memory` is want of memory. No file is copied.
    pub fn begin_work(&self, job: Job) -> Result<Option<Task<G>>, Memory>
        ensures some { IfOk result (λ task. is_some task ≡ can_begin job self.now.slots) }
        ensures task { IfOk result (λ task. IfSome task (λ t. t ≡ task_of job self.now)) }
    {
        self.told();
        let safe_point = self.numbers.safe_point;
        let rows = self.settings.pack_rows;
        let Ok(work) = begin(&self.segments, job, safe_point, rows, self.alloc) else {
            return Err(Memory);
        };
        let Some(work) = work else {
            return Ok(None);
        };
        let Ok(logs) = Arc::try_clone(&self.logs) else {
            return Err(Memory);
        };
        Ok(Some(Task {
            work,
            logs,
            generation: self.numbers.generation,
            begun: Snapshot::of(self),
            alloc: self.alloc,
        }))
    }
}

/// Builds what a work makes of its segments, as they were when it was begun: a compaction puts the
/// first run of tiny files into one, a delta merge leaves out what the safe point of that moment lets
/// go, a split parts the segment at the handle in its middle, and a merge joins the two. It changes
/// nothing, and a compaction reads no device.
///
/// `Damaged` names the place in its stable file where the first stable part that doesn't read
/// fails, `Device` comes only where the reader's count of faults rose, `OneHandle` of a split alone,
/// where fewer than two handles have versions, and there nothing is built. `Memory` is want of
/// memory.
pub fn build<R: Reader>(task: &Task<R::Grip>, reader: &mut R) -> Result<Built<R::Grip>, BuildError>
    ensures built { IfOk result (λ built.
        IsBuilt R.Grip.tells R.Grip.bytes task.now.state.log.schema task.now.work.pack_rows built) }
    ensures from { IfOk result (λ built.
        IsFrom task.now.work.job task.now.work.views task.now.work.safe_point built) }
    ensures cause { HasBuildCause (R.fault_count reader.old) (R.fault_count reader.new) result }
    ensures damaged { R.Grip.tells →
        FailsAsRead R.Grip.bytes (read_for task.now.work.job task.now.work.views) result }
    ensures split_alone { IsErrOf result OneHandle → is_split task.now.work.job ≡ true }
    ensures handles { R.Grip.tells → is_split task.now.work.job ≡ true →
        SplitsByHandles R.Grip.bytes task.now.work.views result }
{
    segment_work::build(&task.work, task.logs.schema(), reader, task.alloc)
}
