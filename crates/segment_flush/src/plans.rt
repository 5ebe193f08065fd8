// Plans of flushes, with all memory taken.
ghost use Rattle.std.specs.Prelude.{◌≡◌, ◌<◌, ℕ, length, slice_get, Option, Some, None, IfOk};
ghost use Rattle.segment_list.specs.Slots.{Slotted};
ghost use Rattle.segment_flush.specs.Flushing.{after_slots, has_more, next_of, plan_of, plans_of};

use flash_io::FileId;
use segment_list::{Flush, Memory, SegmentList, Slot};
use std::alloc::Global;

/// Flushes of the slots whose files the manifest doesn't all name, none for each other slot, and the
/// first number that they leave free.
#[derive(Drop)]
pub struct Plan {
    pub flushes: Vec<Option<Flush>>,
    pub next: FileId,
}

/// Whether the manifest doesn't name all files of a slot's delta.
pub fn has_more<G: Drop>(slot: &Slot<G>) -> bool
    ensures { result ≡ has_more slot.now }
{
    !slot.tags().is_empty()
}

// The plan of one slot, if it has more.
fn plan_at<G: Drop>(
    list: &SegmentList<G>,
    place: usize,
    from: FileId,
    alloc: Global,
) -> Result<Option<Flush>, Memory>
    requires { place < length list.now }
    ensures { IfOk result (λ plan. (s : Slotted G) → slice_get list.now place ≡ Some s → plan ≡ plan_of (has_more s) from s) }
{
    if !has_more(&list.slots()[place]) {
        return Ok(None);
    }
    let flush = list.plan_flush(place, from, alloc)?;
    Ok(Some(flush))
}

// The first number that a plan leaves free.
fn after(plan: &Option<Flush>, from: FileId) -> FileId
    ensures { result ≡ next_of from plan.now }
{
    match plan {
        None => from,
        Some(flush) => flush.next,
    }
}

/// Plans the flushes of all slots that have files which the manifest doesn't name. Their blocks in
/// memory get the numbers from this one on. `Memory` comes too where the numbers don't suffice.
pub fn plan_all<G: Drop>(list: &SegmentList<G>, from: FileId, alloc: Global) -> Result<Plan, Memory>
    ensures flushes { IfOk result (λ plan. plan.flushes.items ≡ plans_of has_more from list.now) }
    ensures next { IfOk result (λ plan. plan.next ≡ after_slots has_more from list.now) }
{
    let mut flushes = Vec::new(alloc);
    let mut next = from;
    for i in 0..list.slots().len() {
        let plan = plan_at(list, i, next, alloc)?;
        next = after(&plan, next);
        if flushes.push(plan).is_err() {
            return Err(Memory);
        }
    }
    Ok(Plan { flushes, next })
}
