// Edits that are done without memory, once there is room for them.
ghost use Rattle.std.specs.Prelude.{◌≡◌, ◌≤◌, ◌+◌, [], ℕ, ℤ, true, IfOk, OnOk, OnErr, is_some};
ghost use Rattle.std.specs.BTreeMap.{get};
ghost use Rattle.std.specs.Ordering.{nat_cmp};
ghost use Rattle.manifest_form.specs.declared.state.Edit.TheVariants as edit;
ghost use Rattle.manifest_form.specs.Slots.{place_cmp, present, turn_after, AllFit, HasRoom, HaveRoom};
ghost use Rattle.manifest_form.specs.States.{placed, without, done, with_segments, all_done};
ghost use Rattle.manifest_form.specs.Whole.{IdsDiffer};

use crate::room::{clear_room, forget_dropped, make_room};
use crate::slots::{Slots, put, take_out};
use crate::state::{Edit, State, StoredFile, StoredFiles, StoredSegment, StoredSegments};
use std::alloc::{AllocError, Global};
use std::marker::Model;
use std::mem::replace;

fn copied_files(alloc: Global, files: &[StoredFile]) -> Result<StoredFiles, AllocError>
    ensures { IfOk result (λ copy. copy ≡ files.now) }
{
    StoredFiles::from_slice(alloc, files)
}

pub fn copied_segment(alloc: Global, segment: &StoredSegment) -> Result<StoredSegment, AllocError>
    ensures { IfOk result (λ copy. copy ≡ segment.now) }
{
    let delta = copied_files(alloc, segment.delta.as_slice())?;
    Ok(StoredSegment {
        id: segment.id,
        range: segment.range,
        stable: segment.stable,
        delta,
    })
}

fn copied_edit(alloc: Global, edit: &Edit) -> Result<Edit, AllocError>
    ensures { IfOk result (λ copy. copy ≡ edit.now) }
{
    match edit {
        Edit::Next { file } => Ok(Edit::Next { file: *file }),
        Edit::Segment { segment } => {
            let segment = copied_segment(alloc, segment)?;
            Ok(Edit::Segment { segment })
        }
        Edit::Drop { id } => Ok(Edit::Drop { id: *id }),
        Edit::High { entries, chain } => Ok(Edit::High {
            entries: *entries,
            chain: *chain,
        }),
        Edit::SafePoint { ts } => Ok(Edit::SafePoint { ts: *ts }),
        Edit::Regions { file } => Ok(Edit::Regions { file: *file }),
        Edit::Count { entries } => Ok(Edit::Count { entries: *entries }),
    }
}

/// The same edits once more.
pub fn copied(alloc: Global, edits: &[Edit]) -> Result<Vec<Edit>, AllocError>
    ensures { IfOk result (λ copy. copy.items ≡ edits.now) }
{
    let mut copy = Vec::new(alloc);
    for edit in edits {
        copy.push(copied_edit(alloc, edit)?)?;
    }
    Ok(copy)
}

/// The segments of a state, with room for those that some edits put, and the edits. Contracts see
/// the segments and the edits.
#[derive(Drop)]
pub struct Ready {
    slots: Slots,
    edits: Vec<Edit>,
}

impl Model for Ready {
    ghost use Rattle.std.specs.Prelude.{List};
    ghost use Rattle.manifest_form.specs.declared.state.StoredSegment.{StoredSegment};
    ghost use Rattle.manifest_form.specs.declared.state.Edit.{Edit};

    ghost Value = { List StoredSegment × List Edit };

    ghost use Rattle.std.specs.Prelude.{is_some};
    ghost use Rattle.std.specs.BTreeMap.{get};
    ghost use Rattle.std.specs.Ordering.{nat_cmp};
    ghost use Rattle.manifest_form.specs.Slots.{place_cmp, present, AllFit, HaveRoom};

    ghost view = { λ it. (present it.slots.places.entries, it.edits.items) };

    ghost invariant = { λ it. AllFit (get nat_cmp it.slots.ids) it.slots.turn it.slots.places.entries × HaveRoom (λ q. is_some (get place_cmp it.slots.places q)) (λ i. is_some (get nat_cmp it.slots.ids i)) it.edits.items it.slots.turn };
}

// Takes the segments out of a state.
fn taken(alloc: Global, state: &mut State) -> Slots
    ensures segments { present result.places.entries ≡ state.old.segments }
    ensures fits { AllFit (get nat_cmp result.ids) result.turn result.places.entries }
    ensures state { state.new ≡ with_segments state.old [] }
{
    let segments = replace(&mut state.segments, StoredSegments::new(alloc));
    segments.slots
}

// Puts segments into a state.
fn give_back(state: &mut State, slots: Slots)
    requires fits { AllFit (get nat_cmp slots.ids) slots.turn slots.places.entries }
    ensures { state.new ≡ with_segments state.old (present slots.places.entries) }
{
    state.segments = StoredSegments { slots };
}

/// Takes the segments out of a state and makes room for the edits. Without memory the state stays
/// as it is.
pub fn make_ready(alloc: Global, state: &mut State, edits: Vec<Edit>) -> Result<Ready, AllocError>
    ensures ready { IfOk result (λ ready. ready ≡ (state.old.segments, edits.items)) }
    ensures taken { OnOk result (state.new ≡ with_segments state.old []) }
    ensures refused { OnErr result (state.new ≡ state.old) }
{
    let mut slots = taken(alloc, state);
    match make_room(&mut slots, edits.as_slice()) {
        Ok(()) => Ok(Ready { slots, edits }),
        Err(_) => {
            clear_room(&mut slots, edits.as_slice());
            give_back(state, slots);
            Err(AllocError)
        }
    }
}

/// Puts the segments back as they were.
pub fn cancel(state: &mut State, ready: Ready)
    ensures { state.new ≡ with_segments state.old ready.0 }
{
    let Ready { mut slots, edits } = ready;
    clear_room(&mut slots, edits.as_slice());
    give_back(state, slots);
}

// Puts a segment for which there is room.
fn put_ready(slots: &mut Slots, segment: StoredSegment)
    requires fits { AllFit (get nat_cmp slots.old.ids) slots.old.turn slots.old.places.entries }
    requires room { HasRoom (λ q. is_some (get place_cmp slots.old.places q)) (λ i. is_some (get nat_cmp slots.old.ids i)) (edit.Segment segment) slots.old.turn }
    ensures segments { present slots.new.places.entries ≡ placed segment (without segment.id (present slots.old.places.entries)) }
    ensures fits { AllFit (get nat_cmp slots.new.ids) slots.new.turn slots.new.places.entries }
    ensures turn { slots.new.turn ≡ slots.old.turn + 1 }
    ensures known { (i : ℕ) → is_some (get nat_cmp slots.old.ids i) ≡ true → is_some (get nat_cmp slots.new.ids i) ≡ true }
    ensures later { (q : ℤ × ℕ) → slots.old.turn ≤ q.1 → is_some (get place_cmp slots.old.places q) ≡ true → is_some (get place_cmp slots.new.places q) ≡ true }
{
    match put(slots, segment) {
        Ok(()) => {}
        Err(_) => unreachable!(),
    }
}

// Does one edit, for which there is room. The segments stand apart from the state.
fn do_one(state: &mut State, slots: &mut Slots, edit: Edit)
    requires fits { AllFit (get nat_cmp slots.old.ids) slots.old.turn slots.old.places.entries }
    requires room { HasRoom (λ q. is_some (get place_cmp slots.old.places q)) (λ i. is_some (get nat_cmp slots.old.ids i)) edit slots.old.turn }
    ensures done { with_segments state.new (present slots.new.places.entries) ≡ done (with_segments state.old (present slots.old.places.entries)) edit }
    ensures fits { AllFit (get nat_cmp slots.new.ids) slots.new.turn slots.new.places.entries }
    ensures turn { slots.new.turn ≡ turn_after edit slots.old.turn }
    ensures known { (i : ℕ) → is_some (get nat_cmp slots.old.ids i) ≡ true → is_some (get nat_cmp slots.new.ids i) ≡ true }
    ensures later { (q : ℤ × ℕ) → slots.old.turn ≤ q.1 → is_some (get place_cmp slots.old.places q) ≡ true → is_some (get place_cmp slots.new.places q) ≡ true }
{
    match edit {
        Edit::Next { file } => state.next = file,
        Edit::Segment { segment } => put_ready(slots, segment),
        Edit::Drop { id } => take_out(slots, id),
        Edit::High { entries, chain } => {
            state.high = entries;
            state.chain = chain;
        }
        Edit::SafePoint { ts } => state.safe_point = ts,
        Edit::Regions { file } => state.regions = Some(file),
        Edit::Count { entries } => state.count = Some(entries),
    }
}

// Does edits for which there is room, in order.
fn do_each(state: &mut State, slots: &mut Slots, edits: Vec<Edit>)
    requires fits { AllFit (get nat_cmp slots.old.ids) slots.old.turn slots.old.places.entries }
    requires room { HaveRoom (λ q. is_some (get place_cmp slots.old.places q)) (λ i. is_some (get nat_cmp slots.old.ids i)) edits.items slots.old.turn }
    ensures done { with_segments state.new (present slots.new.places.entries) ≡ all_done (with_segments state.old (present slots.old.places.entries)) edits.items }
    ensures fits { AllFit (get nat_cmp slots.new.ids) slots.new.turn slots.new.places.entries }
{
    for edit in edits {
        do_one(state, slots, edit);
    }
}

/// Does the edits for which there is room, in order, and puts the segments into the state. No
/// memory is taken. `same` is to be the same edits: the ids of segments that they drop are
/// forgotten.
pub fn do_all(state: &mut State, ready: Ready, same: &[Edit])
    ensures done { state.new ≡ all_done (with_segments state.old ready.0) ready.1 }

    // No two segments come to have the same id.
    ensures differ { IdsDiffer ready.0 → IdsDiffer state.new.segments }
{
    let Ready { mut slots, edits } = ready;
    do_each(state, &mut slots, edits);
    forget_dropped(&mut slots, same);
    give_back(state, slots);
}
