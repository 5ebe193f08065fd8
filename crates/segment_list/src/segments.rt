// The segments of a replica: slots that cover all handles.
ghost use Rattle.std.specs.Prelude.{◌≡◌, ◌≢◌, ◌==◌, ◌+◌, ◌-◌, ◌^◌, ◌<◌, ◌≤◌, ℕ, cond, true, List, drop, length, map, position, set, slice_get, slice_index_or, take, Some, None, IfOk, OnOk, OnErr, vec_capacity, vec_len};
ghost use Rattle.segment_list.specs.Flushes.{IsFlushOf, flushed_slot};
ghost use Rattle.std.specs.List.{All};
ghost use Rattle.std.specs.BTreeMap.{get, is_at};
ghost use Rattle.std.specs.Ordering.{nat_cmp};
ghost use Rattle.flash_types.specs.Ranges.{all_handles, holds, least_handle};
ghost use Rattle.good_replica.specs.Good.{CoversFrom};
ghost use Rattle.segment_list.specs.Lists.{AreNoted, Cover, CoverAlike, HaveNoted, NumbersDiffer, is_file_in, range_alone, with_slots};
ghost use Rattle.segment_list.specs.Slots.{Slotted, absorbed, key_of};

use crate::Memory;
use crate::flush::{Flush, flush_of};
use crate::list::{absorb_within, place_within, take_back_within};
use crate::moving::put_slots;
use crate::naming::is_file_in;
use crate::slot::Slot;
use column_block::Block;
use flash_io::FileId;
use flash_types::{Handle, HandleRange, SegId};
use std::alloc::Global;
use std::collections::BTreeMap;
use std::marker::Model;

/// The segments of a replica, which cover all handles, in their order, each with a number of its own.
/// Contracts see the list of them. Beside it stands where the segment of each number begins, as far
/// as there was memory to note it.
#[derive(Drop)]
pub struct SegmentList<G> {
    slots: Vec<Slot<G>>,
    lows: BTreeMap<SegId, Handle>,
    all_noted: bool,
}

impl<G> Model for SegmentList<G> {
    ghost use Rattle.std.specs.Prelude.{List};
    ghost use Rattle.std.specs.BTreeMap.{get};
    ghost use Rattle.std.specs.Ordering.{nat_cmp};
    ghost use Rattle.segment_list.specs.Slots.{Slotted};
    ghost use Rattle.segment_list.specs.Lists.{AreSegments};

    ghost Value = { List (Slotted G) };

    ghost view = { λ it. it.slots.items };

    ghost invariant = { λ it. AreSegments (get nat_cmp it.lows) it.all_noted it.slots.items };
}

// Notes where the segment of a number begins.
fn note(lows: &mut BTreeMap<SegId, Handle>, id: SegId, low: Handle) -> Result<(), Memory>
    ensures { OnOk result ((q : ℕ) → get nat_cmp lows.new q ≡ cond (is_at (nat_cmp id) q) (Some low) (get nat_cmp lows.old q)) }
{
    match lows.insert(id, low) {
        Ok(_) => Ok(()),
        Err(_) => Err(Memory),
    }
}

// Notes where each of the slots begins. `Memory` comes where one can't be noted.
fn note_all<G: Drop>(lows: &mut BTreeMap<SegId, Handle>, slots: &[Slot<G>]) -> Result<(), Memory>
    requires { NumbersDiffer slots.now }
    ensures { OnOk result (HaveNoted (get nat_cmp lows.old) (get nat_cmp lows.new) slots.now) }
{
    for i in 0..slots.len() {
        let slot = &slots[i];
        note(lows, slot.id(), slot.low())?;
    }
    Ok(())
}

// Notes where more slots begin, and answers whether all are noted then, where it is known whether all
// others are.
fn all_noted_with<G: Drop>(
    lows: &mut BTreeMap<SegId, Handle>,
    slots: &[Slot<G>],
    all_noted: bool,
) -> bool
    requires { NumbersDiffer slots.now }
    ensures { result ≡ true → HaveNoted (get nat_cmp lows.old) (get nat_cmp lows.new) slots.now × (all_noted ≡ true) }
{
    match note_all(lows, slots) {
        Ok(()) => all_noted,
        Err(_) => false,
    }
}

// Where the segment of each number begins.
fn lows_of<G: Drop>(slots: &[Slot<G>], alloc: Global) -> Result<BTreeMap<SegId, Handle>, Memory>
    requires { NumbersDiffer slots.now }
    ensures { IfOk result (λ lows. AreNoted (get nat_cmp lows) slots.now) }
{
    let mut lows = BTreeMap::new(alloc);
    note_all(&mut lows, slots)?;
    Ok(lows)
}

// Forgets where the segment of a number begins.
fn forget(lows: &mut BTreeMap<SegId, Handle>, id: SegId)
    ensures { (q : ℕ) → get nat_cmp lows.new q ≡ cond (is_at (nat_cmp id) q) None (get nat_cmp lows.old q) }
{
    lows.remove(&id);
}

// Forgets where the slots from a place to another begin.
fn forget_some<G: Drop>(
    lows: &mut BTreeMap<SegId, Handle>,
    slots: &[Slot<G>],
    from: usize,
    to: usize,
)
    requires order { from ≤ to }
    requires within { to ≤ length slots.now }
    ensures { (q : ℕ) → ((k : ℕ) (d : Slotted G) → from ≤ k → k < to → (slice_index_or slots.now k d).id ≢ q) → get nat_cmp lows.new q ≡ get nat_cmp lows.old q }
{
    for i in from..to {
        forget(lows, slots[i].id());
    }
}

// Where the segment of a number begins, where there was one.
fn low_of(lows: &BTreeMap<SegId, Handle>, id: SegId) -> Option<Handle>
    ensures { result ≡ get nat_cmp lows.now id }
{
    match lows.get(&id) {
        Some(low) => Some(*low),
        None => None,
    }
}

// Adds to slots that have all handles what an entry says.
fn absorb_slots<G: Drop>(
    slots: &mut Vec<Slot<G>>,
    clears: Option<HandleRange>,
    adds: &Block,
    tag: u64,
    alloc: Global,
) -> Result<(), Memory>
    requires { Cover all_handles slots.old.items }
    ensures ok { OnOk result (slots.new.items ≡ map (absorbed tag clears adds.now) slots.old.items) }
    ensures err { OnErr result (slots.new.items ≡ slots.old.items) }
{
    let all = HandleRange::all();
    absorb_within(slots.as_mut_slice(), all, clears, adds, tag, alloc)
}

// Takes it off again.
fn take_back_slots<G: Drop>(slots: &mut Vec<Slot<G>>, clears: Option<HandleRange>, adds: &Block)
    requires { Cover all_handles slots.old.items }
    ensures keys { map key_of slots.new.items ≡ map key_of slots.old.items }
    ensures back { (before : List (Slotted G)) (tag : ℕ) → slots.old.items ≡ map (absorbed tag clears adds.now) before → slots.new.items ≡ before }
{
    let all = HandleRange::all();
    take_back_within(slots.as_mut_slice(), all, clears, adds);
}

// Puts a flush of the slot at a place.
fn put_at<G: Drop>(slots: &mut Vec<Slot<G>>, place: usize, flush: Flush)
    requires within { place < length slots.old.items }
    requires planned { (s : Slotted G) → slice_get slots.old.items place ≡ Some s → IsFlushOf s.files flush }
    requires room { (s : Slotted G) → slice_get slots.old.items place ≡ Some s → s.epoch < 2 ^ 64 - 1 }
    ensures keys { map key_of slots.new.items ≡ map key_of slots.old.items }
    ensures put { (s : Slotted G) → slice_get slots.old.items place ≡ Some s → slots.new.items ≡ set slots.old.items place (flushed_slot flush.from s) }
{
    slots[place].put_flush(flush);
}

// The place of the slot that holds a handle, of slots that have all of them.
fn place_of<G: Drop>(slots: &[Slot<G>], handle: Handle) -> Option<usize>
    requires { Cover all_handles slots.now }
    ensures { result ≡ position (λ s. holds s.range handle) slots.now }
{
    place_within(slots, HandleRange::all(), handle)
}

// The place of the slot of a number, where it is noted for each slot where it begins.
fn noted_place<G: Drop>(
    lows: &BTreeMap<SegId, Handle>,
    slots: &[Slot<G>],
    id: SegId,
) -> Option<usize>
    requires cover { CoversFrom least_handle (map range_alone slots.now) }
    requires noted { AreNoted (get nat_cmp lows.now) slots.now }
    ensures { result ≡ position (λ s. s.id == id) slots.now }
{
    let Some(low) = low_of(lows, id) else {
        return None;
    };
    let Some(place) = place_of(slots, low) else {
        return None;
    };
    if slots[place].id() == id {
        return Some(place);
    }
    None
}

// The same, by looking at the slots one by one.
fn place_with<G: Drop>(slots: &[Slot<G>], id: SegId) -> Option<usize>
    ensures { result ≡ position (λ s. s.id == id) slots.now }
{
    for i in 0..slots.len() {
        if slots[i].id() == id {
            return Some(i);
        }
    }
    None
}

impl<G: Drop> SegmentList<G> {
    /// A list of these slots.
    pub fn new(slots: Vec<Slot<G>>, alloc: Global) -> Result<SegmentList<G>, Memory>
        requires cover { CoversFrom least_handle (map range_alone slots.items) }
        requires numbers { NumbersDiffer slots.items }
        ensures { IfOk result (λ list. list ≡ slots.items) }
    {
        let lows = lows_of(slots.as_slice(), alloc)?;
        Ok(SegmentList {
            slots,
            lows,
            all_noted: true,
        })
    }

    /// That the segments cover all handles. It does nothing when it runs.
    pub fn covers(&self)
        ensures { CoversFrom least_handle (map range_alone self.now) }
    {
        let _slots = &self.slots;
    }

    /// That no two segments have the same number. It does nothing when it runs.
    pub fn numbers_differ(&self)
        ensures { NumbersDiffer self.now }
    {
        let _slots = &self.slots;
    }

    /// The slots, in the order of their handles.
    pub fn slots(&self) -> &[Slot<G>]
        ensures { result.now ≡ self.now }
    {
        self.slots.as_slice()
    }

    /// The place of the slot that holds the handle, found by halving.
    pub fn slot_at(&self, handle: Handle) -> Option<usize>
        ensures { result ≡ position (λ s. holds s.range handle) self.now }
    {
        place_of(self.slots.as_slice(), handle)
    }

    /// The place of the slot of this number; none where there is none. It is found in a map and by
    /// halving, or where memory ran out for the map, by looking at the slots one by one.
    pub fn slot_with(&self, id: SegId) -> Option<usize>
        ensures { result ≡ position (λ s. s.id == id) self.now }
    {
        if self.all_noted {
            return noted_place(&self.lows, self.slots.as_slice(), id);
        }
        place_with(self.slots.as_slice(), id)
    }

    /// Adds to each slot what an entry says of its handles: a delete-range and versions, with this
    /// tag. It looks at the slots that the entry says something of alone. After `Err` each slot is as
    /// before.
    pub fn absorb_all(
        &mut self,
        clears: Option<HandleRange>,
        adds: &Block,
        tag: u64,
        alloc: Global,
    ) -> Result<(), Memory>
        ensures ok { OnOk result (self.new ≡ map (absorbed tag clears adds.now) self.old) }
        ensures err { OnErr result (self.new ≡ self.old) }
    {
        match absorb_slots(&mut self.slots, clears, adds, tag, alloc) {
            Ok(()) => Ok(()),
            Err(_) => Err(Memory),
        }
    }

    /// Takes off again from each slot what an entry added. It takes no memory.
    pub fn take_back_all(&mut self, clears: Option<HandleRange>, adds: &Block)
        ensures { (before : List (Slotted G)) (tag : ℕ) → self.old ≡ map (absorbed tag clears adds.now) before → self.new ≡ before }
    {
        take_back_slots(&mut self.slots, clears, adds);
    }

    /// A flush of the slot at a place, whose blocks in memory get the numbers from this one on.
    /// `Memory` comes too where the numbers don't suffice.
    pub fn plan_flush(&self, place: usize, from: FileId, alloc: Global) -> Result<Flush, Memory>
        requires { place < length self.now }
        ensures from { IfOk result (λ flush. flush.from ≡ from) }
        ensures flush { IfOk result (λ flush. (s : Slotted G) → slice_get self.now place ≡ Some s → IsFlushOf s.files flush) }
    {
        flush_of(self.slots[place].layer(), from, alloc)
    }

    /// Puts a flush of the slot at a place: its blocks in memory are tiny files then, and all of its
    /// delta is named. It takes no memory.
    pub fn put_flush(&mut self, place: usize, flush: Flush)
        requires within { place < length self.old }
        requires planned { (s : Slotted G) → slice_get self.old place ≡ Some s → IsFlushOf s.files flush }
        requires room { (s : Slotted G) → slice_get self.old place ≡ Some s → s.epoch < 2 ^ 64 - 1 }
        ensures { (s : Slotted G) → slice_get self.old place ≡ Some s → self.new ≡ set self.old place (flushed_slot flush.from s) }
    {
        put_at(&mut self.slots, place, flush);
    }

    /// Puts slots in the place of `count` others that stand side by side, whose handles they have.
    /// It takes no memory that it must have: all slots move to `spare`, which has no element and room
    /// for all of them; and where there is none to note a number, that one is looked for among all
    /// slots from then on.
    pub fn replace(&mut self, place: usize, count: usize, news: Vec<Slot<G>>, spare: Vec<Slot<G>>)
        requires some { 0 < count }
        requires within { place + count ≤ length self.old }
        requires cover { CoverAlike (take count (drop place self.old)) news.items }
        requires numbers { NumbersDiffer (with_slots place count news.items self.old) }
        requires empty { vec_len spare ≡ 0 }
        requires room { length (with_slots place count news.items self.old) ≤ vec_capacity spare }
        ensures { self.new ≡ with_slots place count news.items self.old }
    {
        forget_some(&mut self.lows, self.slots.as_slice(), place, place + count);
        self.all_noted = all_noted_with(&mut self.lows, news.as_slice(), self.all_noted);
        put_slots(&mut self.slots, place, count, news, spare);
    }

    /// Whether the manifest names a file for the segments: as the file of a stable part, or as a tiny
    /// file of a delta. It looks at all segments.
    pub fn is_named(&self, file: FileId) -> bool
        ensures { result ≡ is_file_in file self.now }
    {
        is_file_in(self.slots.as_slice(), file)
    }
}
