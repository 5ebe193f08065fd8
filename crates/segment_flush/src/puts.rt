// What is named for planned flushes, and how they are put.
ghost use Rattle.std.specs.Prelude.{◌≡◌, ◌++◌, ◌∷◌, [], ◌<◌, ◌^◌, ◌-◌, ℕ, length, set, slice_get, Some, MatchOption, OnOk};
ghost use Rattle.std.specs.List.{AllByRecursion};
ghost use Rattle.segment_list.specs.Flushes.{flushed_slot};
ghost use Rattle.segment_list.specs.Slots.{Slotted};
ghost use Rattle.segment_flush.specs.Flushing.{flushed_slots, has_more, one_flushed, plan_of, plans_of, puts_of, segment_edits, with_put};
ghost use Rattle.segment_flush.specs.Names.{stored_of};

use crate::names::stored;
use flash_io::FileId;
use manifest_form::Edit;
use segment_list::{Flush, Memory, SegmentList, Slot};
use std::alloc::Global;

// Adds an edit.
fn append(edits: &mut Vec<Edit>, edit: Edit) -> Result<(), Memory>
    ensures { OnOk result (edits.new.items ≡ edits.old.items ++ edit ∷ []) }
{
    match edits.push(edit) {
        Ok(()) => Ok(()),
        Err(_) => Err(Memory),
    }
}

// Adds an edit of a slot, if its flush is planned.
fn append_planned<G: Drop>(
    edits: &mut Vec<Edit>,
    slot: &Slot<G>,
    plan: &Option<Flush>,
    alloc: Global,
) -> Result<(), Memory>
    ensures { OnOk result ((n : ℕ) → plan.now ≡ plan_of (has_more slot.now) n slot.now
        → edits.new.items ≡ edits.old.items ++ segment_edits (with_put (has_more slot.now) (stored_of (flushed_slot n slot.now)) [])) }
{
    match plan {
        None => Ok(()),
        Some(flush) => {
            let segment = stored(slot, &flush.layer, alloc)?;
            append(edits, Edit::Segment { segment })?;
            Ok(())
        }
    }
}

/// Adds an edit for each slot that is flushed, which names all of its delta.
pub fn append_segments<G: Drop>(
    edits: &mut Vec<Edit>,
    list: &SegmentList<G>,
    from: FileId,
    flushes: &[Option<Flush>],
    alloc: Global,
) -> Result<(), Memory>
    requires { flushes.now ≡ plans_of has_more from list.now }
    ensures { OnOk result (edits.new.items ≡ edits.old.items ++ segment_edits (puts_of has_more from list.now)) }
{
    let slots = list.slots();
    for i in 0..slots.len() {
        append_planned(edits, &slots[i], &flushes[i], alloc)?;
    }
    Ok(())
}

// Puts the flush of the slot at a place, if one is planned.
fn put_at<G: Drop>(list: &mut SegmentList<G>, place: usize, plan: Option<Flush>)
    requires within { place < length list.old }
    requires planned { (s : Slotted G) → slice_get list.old place ≡ Some s → (n : ℕ) × (plan ≡ plan_of (has_more s) n s) }
    requires room { (s : Slotted G) → slice_get list.old place ≡ Some s → s.epoch < 2 ^ 64 - 1 }
    ensures { (s : Slotted G) (n : ℕ) → slice_get list.old place ≡ Some s → plan ≡ plan_of (has_more s) n s → list.new ≡ set list.old place (one_flushed (has_more s) n s) }
{
    match plan {
        None => {}
        Some(flush) => list.put_flush(place, flush),
    }
}

// The last plan, taken off; none where there is none.
fn take_last(flushes: &mut Vec<Option<Flush>>) -> Option<Option<Flush>>
    ensures { MatchOption result ((flushes.old.items ≡ []) × (flushes.new.items ≡ [])) (λ last. flushes.old.items ≡ flushes.new.items ++ last ∷ []) }
{
    flushes.pop()
}

/// Puts planned flushes. It takes no memory.
pub fn put_all<G: Drop>(list: &mut SegmentList<G>, from: FileId, mut flushes: Vec<Option<Flush>>)
    requires planned { flushes.items ≡ plans_of has_more from list.old }
    requires room { AllByRecursion (λ (s : Slotted G). s.epoch < 2 ^ 64 - 1) list.old }
    ensures { list.new ≡ flushed_slots has_more from list.old }
{
    let mut place = flushes.len();
    while place > 0 {
        place -= 1;
        let Some(plan) = take_last(&mut flushes) else {
            return;
        };
        put_at(list, place, plan);
    }
}
