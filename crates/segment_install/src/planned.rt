// An install that is planned, with all memory taken, and put.
ghost use Rattle.std.specs.Prelude.{◌≡◌, ◌≤◌, ◌+◌, ◌<◌, ◌^◌, ◌∷◌, [], IfOk, IfSome, drop, length, slice_get, take, vec_capacity, vec_len};
ghost use Rattle.std.specs.List.{AllByRecursion};
ghost use Rattle.segment_list.specs.Lists.{with_slots};
ghost use Rattle.segment_install.specs.Plans.{AreHalves, AreInstalled, AreHalvesBuilt, CanInstall, CanInstallAt, CanPut, IsBothBuilt, IsCompacted, IsJoined, IsLaid, IsMerged, IsOneBuilt, IsPlan, IsRunBuilt, numbers_for};
ghost use Rattle.segment_install.specs.Slots.{Fits};
ghost use Rattle.segment_install.specs.Stale.{FitsIn};
ghost use Rattle.segment_work.specs.Begun.{segments_for};
ghost use Rattle.segment_work.specs.Jobs.{segment_of};

use crate::Memory;
use crate::made::{compacted_slot, half_slot, joined_slot, merged_slot};
use crate::part::{Files, part_of};
use delta_layer::{Built, Job, blocks_become_one};
use flash_io::FileId;
use flash_types::SegId;
use segment_list::{SegmentList, Slot};
use segment_work::first_run;
use std::alloc::Global;

/// Slots that take the place of `count` others that stand side by side, from a place on, with all
/// the memory that the putting needs.
#[derive(Drop)]
pub struct Install<G> {
    /// The place of the first slot that gives way.
    pub place: usize,
    /// How many slots give way.
    pub count: usize,
    /// The slots that take their place.
    pub slots: Vec<Slot<G>>,
    /// An empty list with room for all slots.
    pub spare: Vec<Slot<G>>,
}

/// How many numbers an install takes from the first free one on: for each piece one for its file,
/// used or not, and then one for each new segment.
pub fn numbers_for(job: Job) -> u32
    ensures { result ≡ numbers_for job }
{
    match job {
        Job::Compact(_) => 1,
        Job::MergeDelta(_) => 1,
        Job::Split(_) => 4,
        Job::Merge(_) => 2,
    }
}

// The segment that a job names.
fn segment_of(job: Job) -> SegId
    ensures { result ≡ segment_of job }
{
    match job {
        Job::Compact(seg) => seg,
        Job::MergeDelta(seg) => seg,
        Job::Split(seg) => seg,
        Job::Merge(seg) => seg,
    }
}

// How many segments give way.
fn segments_for(job: Job) -> usize
    ensures { result ≡ segments_for job }
{
    match job {
        Job::Compact(_) => 1,
        Job::MergeDelta(_) => 1,
        Job::Split(_) => 1,
        Job::Merge(_) => 2,
    }
}

// A list of one slot.
fn one<G: Drop>(slot: Slot<G>, alloc: Global) -> Result<Vec<Slot<G>>, Memory>
    ensures { IfOk result (λ slots. slots.items ≡ slot ∷ []) }
{
    let mut slots = Vec::new(alloc);
    if slots.push(slot).is_err() {
        return Err(Memory);
    }
    Ok(slots)
}

// A list of two slots.
fn two<G: Drop>(low: Slot<G>, high: Slot<G>, alloc: Global) -> Result<Vec<Slot<G>>, Memory>
    ensures { IfOk result (λ slots. slots.items ≡ low ∷ high ∷ []) }
{
    let mut slots = one(low, alloc)?;
    if slots.push(high).is_err() {
        return Err(Memory);
    }
    Ok(slots)
}

// What takes a slot's place for a compaction.
fn compacted<G: Drop>(
    slot: &Slot<G>,
    built: &Built<G>,
    first: FileId,
    alloc: Global,
) -> Result<Vec<Slot<G>>, Memory>
    requires built { IsRunBuilt slot.now.id built.now }
    requires fits { AllByRecursion (λ v. Fits v slot.now) built.now.views }
    requires laid { IsLaid first slot.now }
    ensures { IfOk result (λ news. IsCompacted first built.now slot.now news.items) }
{
    blocks_become_one();
    let (from, to) = first_run(&built.views.as_slice()[0].delta);
    let versions = &built.pieces.as_slice()[0].versions;
    let new = compacted_slot(slot, from, to, versions, first, alloc)?;
    one(new, alloc)
}

// What takes a slot's place for a delta merge.
fn merged<G: Drop>(
    slot: &Slot<G>,
    built: &Built<G>,
    files: Files<G>,
    first: FileId,
    alloc: Global,
) -> Result<Vec<Slot<G>>, Memory>
    requires built { IsOneBuilt slot.now.id built.now }
    requires fits { AllByRecursion (λ v. Fits v slot.now) built.now.views }
    requires laid { IsLaid first slot.now }
    ensures { IfOk result (λ news. IsMerged first files built.now slot.now news.items) }
{
    let taken = built.views.as_slice()[0].delta.files();
    let Files { low, high: _ } = files;
    let new = merged_slot(slot, taken, part_of(first, low), alloc)?;
    one(new, alloc)
}

// What takes a slot's place for a split.
fn halves<G: Drop>(
    slot: &Slot<G>,
    built: &Built<G>,
    files: Files<G>,
    first: FileId,
    alloc: Global,
) -> Result<Vec<Slot<G>>, Memory>
    requires built { AreHalvesBuilt slot.now.id built.now }
    requires fits { AllByRecursion (λ v. Fits v slot.now) built.now.views }
    requires laid { IsLaid first slot.now }
    requires free { first + 4 < 2 ^ 32 }
    ensures { IfOk result (λ news. AreHalves first files built.now slot.now news.items) }
{
    let taken = built.views.as_slice()[0].delta.files();
    let pieces = built.pieces.as_slice();
    let Files { low, high } = files;
    let lower = part_of(first, low);
    let upper = part_of(first + 1, high);
    let left = half_slot(first + 2, pieces[0].range, lower, taken, slot, alloc)?;
    let right = half_slot(first + 3, pieces[1].range, upper, taken, slot, alloc)?;
    two(left, right, alloc)
}

// What takes the place of two slots for a merge.
fn joined<G: Drop>(
    left: &Slot<G>,
    right: &Slot<G>,
    built: &Built<G>,
    files: Files<G>,
    first: FileId,
    alloc: Global,
) -> Result<Vec<Slot<G>>, Memory>
    requires built { IsBothBuilt left.now.id built.now }
    requires left { IfSome (slice_get built.now.views 0) (λ v. Fits v left.now) }
    requires right { IfSome (slice_get built.now.views 1) (λ v. Fits v right.now) }
    requires left_laid { IsLaid first left.now }
    requires right_laid { IsLaid first right.now }
    requires free { first + 2 < 2 ^ 32 }
    ensures { IfOk result (λ news. IsJoined first files built.now left.now right.now news.items) }
{
    let views = built.views.as_slice();
    let low_taken = views[0].delta.files();
    let high_taken = views[1].delta.files();
    let range = built.pieces.as_slice()[0].range;
    let Files { low, high: _ } = files;
    let part = part_of(first, low);
    let new = joined_slot(
        first + 1,
        range,
        part,
        low_taken,
        left,
        high_taken,
        right,
        alloc,
    )?;
    one(new, alloc)
}

// What takes the place of the slots at a place.
fn news_at<G: Drop>(
    slots: &[Slot<G>],
    place: usize,
    built: &Built<G>,
    files: Files<G>,
    first: FileId,
    alloc: Global,
) -> Result<Vec<Slot<G>>, Memory>
    requires { CanInstallAt first place built.now slots.now }
    ensures { IfOk result
        (λ news. AreInstalled built.now.job first files built.now (take
        (segments_for built.now.job) (drop place slots.now)) news.items) }
{
    match built.job {
        Job::Compact(_) => compacted(&slots[place], built, first, alloc),
        Job::MergeDelta(_) => merged(&slots[place], built, files, first, alloc),
        Job::Split(_) => halves(&slots[place], built, files, first, alloc),
        Job::Merge(_) => {
            let right = &slots[place + 1];
            joined(&slots[place], right, built, files, first, alloc)
        }
    }
}

// A list without an element that has room for the slots and for two more.
fn room_for<G: Drop>(slots: &[Slot<G>], alloc: Global) -> Result<Vec<Slot<G>>, Memory>
    ensures empty { IfOk result (λ room. vec_len room ≡ 0) }
    ensures room { IfOk result (λ room. length slots.now + 2 ≤ vec_capacity room) }
{
    let Some(count) = slots.len().checked_add(2) else {
        return Err(Memory);
    };
    match Vec::with_capacity(alloc, count) {
        Ok(room) => Ok(room),
        Err(_) => Err(Memory),
    }
}

/// Plans the install of what was built, with all memory that its putting needs. `files` are the
/// open stable files of its pieces; the numbers from `first` on are those of the pieces' files in
/// order, and then those of the new segments. `Memory` comes for want of memory alone, and where a
/// slot's rows can't be counted.
///
/// A compaction's tiny file, which has the number `first`, stands for the run of files that it was
/// built of. A delta merge's piece stands for the stable part and the files that the view has. A
/// split's halves are new segments, as is a merge's. Files that came since the views are clipped to
/// the new segments, and those that say nothing then are left out; a merge has those that are named
/// first.
pub fn plan<G: Drop>(
    list: &SegmentList<G>,
    built: &Built<G>,
    files: Files<G>,
    first: FileId,
    alloc: Global,
) -> Result<Install<G>, Memory>
    requires { CanInstall first built.now list.now }
    ensures { IfOk result (λ install. IsPlan first files built.now list.now install) }
{
    list.covers();
    list.numbers_differ();
    let Some(place) = list.slot_with(segment_of(built.job)) else {
        unreachable!();
    };
    let count = segments_for(built.job);
    let slots = news_at(list.slots(), place, built, files, first, alloc)?;
    let spare = room_for(list.slots(), alloc)?;
    Ok(Install {
        place,
        count,
        slots,
        spare,
    })
}

/// Puts a planned install. It takes no memory.
pub fn put<G: Drop>(list: &mut SegmentList<G>, install: Install<G>)
    requires { CanPut install list.old }
    ensures { list.new ≡ with_slots install.place install.count install.slots.items list.old }
{
    let Install {
        place,
        count,
        slots,
        spare,
    } = install;
    list.replace(place, count, slots, spare);
}
