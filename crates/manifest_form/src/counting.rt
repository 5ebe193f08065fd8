// How often the ranges of segments don't go on.
ghost use Rattle.std.specs.Prelude.{◌≡◌, ◌+◌, ℕ, Some, IfSome};
ghost use Rattle.std.specs.BTreeMap.{get, IsOrdered};
ghost use Rattle.std.specs.Ordering.{nat_cmp};
ghost use Rattle.manifest_form.specs.Counting.{before, behind, Counts, end_from, fault_at, faults, first_range, next_fault};
ghost use Rattle.manifest_form.specs.Slots.{place_cmp, present, AllFit, range_of};
ghost use Rattle.manifest_form.specs.States.{least_handle, placed, without};

use crate::slots::{Place, Places, Slots, next_place, place_of};
use crate::state::{StoredSegment, StoredSegments};
use flash_types::{HandleRange, SegId};
use std::ops::Bound;

fn fault_at(from: Option<i64>, range: &HandleRange) -> u64
    ensures { result ≡ fault_at from range.now }
{
    let Some(low) = from else {
        return 1;
    };
    if range.low == low && !range.is_empty() {
        return 0;
    }
    1
}

fn next_fault(from: Option<i64>, next: Option<HandleRange>) -> u64
    ensures { result ≡ next_fault from next }
{
    match next {
        Some(range) => fault_at(from, &range),
        None => match from {
            None => 0,
            Some(_) => 1,
        },
    }
}

// Where the ranges before a place end. None: that isn't known.
fn end_before(places: &Places, place: Place) -> Option<Option<i64>>
    ensures { IfSome result (λ from. from ≡ end_from (Some least_handle) (present (before place places.now.entries))) }
{
    match places.range(..place).next_back() {
        None => Some(Some(i64::MIN)),
        Some((_, Some(segment))) => Some(segment.range.high),
        Some((_, None)) => None,
    }
}

// The next range behind a place. None: that isn't known.
fn next_behind(places: &Places, place: Place) -> Option<Option<HandleRange>>
    ensures { IfSome result (λ next. next ≡ first_range (present (behind place places.now.entries))) }
{
    match places
        .range((Bound::Excluded(place), Bound::Unbounded))
        .next()
    {
        None => Some(None),
        Some((_, Some(segment))) => Some(Some(segment.range)),
        Some((_, None)) => None,
    }
}

// How often the ranges don't go on at a place, with nothing there, and with this range. None: that
// isn't known.
fn around(places: &Places, place: Place, range: &HandleRange) -> Option<(u64, u64)>
    ensures without { IfSome result (λ n. n.0 ≡ next_fault (end_from (Some least_handle) (present (before place places.now.entries))) (first_range (present (behind place places.now.entries)))) }
    ensures with { IfSome result (λ n. n.1 ≡ fault_at (end_from (Some least_handle) (present (before place places.now.entries))) range.now + next_fault range.now.high (first_range (present (behind place places.now.entries)))) }
{
    let Some(from) = end_before(places, place) else {
        return None;
    };
    let Some(next) = next_behind(places, place) else {
        return None;
    };
    let without = next_fault(from, next);
    let first = fault_at(from, range);
    let second = next_fault(range.high, next);
    let Some(both) = first.checked_add(second) else {
        return None;
    };
    Some((without, both))
}

// The range of the segment with this id, if it stands at this place.
fn range_at(places: &Places, place: Place, id: SegId) -> Option<HandleRange>
    ensures range { result ≡ range_of id (get place_cmp places.now place) }
    ensures ordered { IsOrdered place_cmp places.now }
{
    let _ = places.len();
    match places.get(&place) {
        Some(Some(segment)) => {
            if segment.id == id {
                Some(segment.range)
            } else {
                None
            }
        }
        Some(None) => None,
        None => None,
    }
}

// How the count of faults changes where the segment with this id goes: what comes to it, and what
// goes from it. None: that isn't known.
fn loss(slots: &Slots, id: SegId) -> Option<(u64, u64)>
    requires fits { AllFit (get nat_cmp slots.now.ids) slots.now.turn slots.now.places.entries }
    ensures { IfSome result (λ n. faults (Some least_handle) (present slots.now.places.entries) + n.0 ≡ faults (Some least_handle) (without id (present slots.now.places.entries)) + n.1) }
{
    let Some(place) = place_of(&slots.ids, id) else {
        return Some((0, 0));
    };
    let Some(range) = range_at(&slots.places, place, id) else {
        return Some((0, 0));
    };
    around(&slots.places, place, &range)
}

// How the count of faults changes where a segment comes.
fn gain(slots: &Slots, segment: &StoredSegment) -> Option<(u64, u64)>
    requires fits { AllFit (get nat_cmp slots.now.ids) slots.now.turn slots.now.places.entries }
    ensures { IfSome result (λ n. faults (Some least_handle) (present slots.now.places.entries) + n.1 ≡ faults (Some least_handle) (placed segment.now (present slots.now.places.entries)) + n.0) }
{
    let place = next_place(segment, slots.turn);
    let _ = slots.places.len();
    around(&slots.places, place, &segment.range)
}

/// The count of faults after a change, where both are known.
pub fn counted(count: Option<u64>, change: Option<(u64, u64)>) -> Option<u64>
    ensures { (old new : ℕ) → Counts count old → IfSome change (λ n. old + n.0 ≡ new + n.1) → Counts result new }
{
    let Some(count) = count else {
        return None;
    };
    let Some((comes, goes)) = change else {
        return None;
    };
    let Some(sum) = count.checked_add(comes) else {
        return None;
    };
    sum.checked_sub(goes)
}

impl StoredSegments {
    /// How the count of faults changes where the segment with this id goes: what comes to it, and
    /// what goes from it. None: that isn't known.
    pub(crate) fn loss(&self, id: SegId) -> Option<(u64, u64)>
        ensures { IfSome result (λ n. faults (Some least_handle) self.now + n.0 ≡ faults (Some least_handle) (without id self.now) + n.1) }
    {
        loss(&self.slots, id)
    }

    /// How the count of faults changes where a segment comes. None: that isn't known.
    pub(crate) fn gain(&self, segment: &StoredSegment) -> Option<(u64, u64)>
        ensures { IfSome result (λ n. faults (Some least_handle) self.now + n.0 ≡ faults (Some least_handle) (placed segment.now self.now) + n.1) }
    {
        match gain(&self.slots, segment) {
            Some((without, with)) => Some((with, without)),
            None => None,
        }
    }
}
