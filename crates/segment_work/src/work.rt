// Works that were begun.
ghost use Rattle.std.specs.Prelude.{◌≡◌, ◌<◌, ◌≤◌, ◌+◌, [], ◌∷◌, ◌++◌, drop, length, map, take, is_some, IfOk, IfSome, OnOk};
ghost use Rattle.segment_list.specs.Slots.{view_of};
ghost use Rattle.segment_work.specs.Begun.{IsReady, begun, segments_for};
ghost use Rattle.segment_work.specs.Jobs.{can_begin, can_begin_on, segment_of};

use crate::runs::has_run;
use delta_layer::{Job, SegmentView};
use flash_list::Items;
use flash_types::{SegId, Ts};
use segment_list::{Memory, SegmentList, Slot};
use std::alloc::Global;
use std::marker::Model;

/// A work that was begun: its job, the segments that it needs as they were then, the safe point and
/// how many versions a pack has. Nothing that happens to the segments later changes it.
#[derive(Drop)]
pub struct Work<G> {
    job: Job,
    views: Items<SegmentView<G>>,
    safe_point: Ts,
    pack_rows: u32,
}

impl<G> Model for Work<G> {
    ghost use Rattle.segment_work.specs.Begun.{Begun, IsReady};

    ghost Value = { Begun G };

    ghost view = { λ w. record {
      job = w.job;
      views = w.views;
      safe_point = w.safe_point;
      pack_rows = w.pack_rows;
    } };

    ghost invariant = { λ w. IsReady w.job w.views w.pack_rows };
}

impl<G: Drop> Work<G> {
    /// The job.
    pub fn job(&self) -> Job
        ensures { result ≡ self.now.job }
    {
        self.job
    }

    /// The segment that the job names, and for a merge the next one behind it, as they were when
    /// the work was begun.
    pub fn views(&self) -> &[SegmentView<G>]
        ensures { result.now ≡ self.now.views }
    {
        self.views.as_slice()
    }

    /// The safe point at which a delta merge leaves versions out.
    pub fn safe_point(&self) -> Ts
        ensures { result ≡ self.now.safe_point }
    {
        self.safe_point
    }

    /// How many versions a pack has.
    pub fn pack_rows(&self) -> u32
        ensures { result ≡ self.now.pack_rows }
    {
        self.pack_rows
    }

    /// That it can be built: its packs have versions, and its views are those that its job needs.
    /// It does nothing when it runs.
    pub fn is_ready(&self)
        ensures { IsReady self.now.job self.now.views self.now.pack_rows }
    {
        let _job = &self.job;
    }
}

fn segment_of(job: Job) -> SegId
    ensures { result ≡ segment_of job }
{
    match job {
        Job::Compact(seg) => seg,
        Job::MergeDelta(seg) => seg,
        Job::Split(seg) => seg,
        Job::Merge(seg) => seg,
    }
}

// How many segments a job needs.
fn segments_for(job: Job) -> usize
    ensures { result ≡ segments_for job }
{
    match job {
        Job::Compact(_) => 1,
        Job::MergeDelta(_) => 1,
        Job::Split(_) => 1,
        Job::Merge(_) => 2,
    }
}

// Whether a job can be begun on the slot at a place.
fn can_begin_at<G: Drop>(slots: &[Slot<G>], place: usize, job: Job) -> bool
    requires { place < length slots.now }
    ensures { result ≡ can_begin_on job (drop place slots.now) }
{
    match job {
        Job::Compact(_) => has_run(slots[place].layer()),
        Job::MergeDelta(_) => 0 < slots[place].layer().files(),
        Job::Split(_) => true,
        Job::Merge(_) => place + 1 < slots.len(),
    }
}

// Adds a view of a slot.
fn add_view<G: Drop>(views: &mut Items<SegmentView<G>>, slot: &Slot<G>) -> Result<(), Memory>
    ensures { OnOk result (views.new ≡ views.old ++ view_of slot.now ∷ []) }
{
    match views.push(slot.view()?) {
        Ok(()) => Ok(()),
        Err(_) => Err(Memory),
    }
}

// The views of so many slots from a place on, as far as there are so many.
fn views_at<G: Drop>(
    slots: &[Slot<G>],
    place: usize,
    count: usize,
    alloc: Global,
) -> Result<Items<SegmentView<G>>, Memory>
    requires { place + count ≤ length slots.now }
    ensures { IfOk result (λ views. views ≡ map view_of (take count (drop place slots.now))) }
{
    let mut views = Items::new(alloc);
    for i in place..place + count {
        add_view(&mut views, &slots[i])?;
    }
    Ok(views)
}

/// Begins a job on the segments as they are now, with this safe point and so many versions a pack.
///
/// None comes exactly where there is no segment of the job's number, where a compaction's segment
/// has no two tiny files side by side, where a delta merge's has no file in its delta, and where no
/// segment stands above a merge's. The segment is found in a map and by halving; a compaction looks
/// at each of its files once.
pub fn begin<G: Drop>(
    list: &SegmentList<G>,
    job: Job,
    safe_point: Ts,
    pack_rows: u32,
    alloc: Global,
) -> Result<Option<Work<G>>, Memory>
    requires rows { 0 < pack_rows }
    ensures some { IfOk result (λ work. is_some work ≡ can_begin job list.now) }
    ensures work { IfOk result (λ work.
        IfSome work (λ w. w ≡ begun job safe_point pack_rows list.now)) }
{
    list.covers();
    let Some(place) = list.slot_with(segment_of(job)) else {
        return Ok(None);
    };
    if !can_begin_at(list.slots(), place, job) {
        return Ok(None);
    }
    let views = views_at(list.slots(), place, segments_for(job), alloc)?;
    Ok(Some(Work {
        job,
        views,
        safe_point,
        pack_rows,
    }))
}
