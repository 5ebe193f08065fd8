// How a state's segments are kept: each in a slot at its place, and found by its id.
ghost use Rattle.std.specs.Prelude.{◌≡◌, ◌≢◌, ◌≤◌, ◌<◌, ◌+◌, ◌^◌, ◌++◌, ◌∷◌, [], map, ℕ, ℤ, true, false, None, Some, OnOk, OnErr, IfOk, IsOk, is_some, cond};
ghost use Rattle.std.specs.BTreeMap.{get, is_at, insert_entry, IsOrdered};
ghost use Rattle.std.specs.Map.{remove_entry};
ghost use Rattle.std.specs.Ordering.{nat_cmp};
ghost use Rattle.manifest_form.specs.Slots.{place_cmp, somes, present, AllFit, has_id};
ghost use Rattle.manifest_form.specs.States.{placed, without};
ghost use Rattle.manifest_form.specs.Whole.{HasNone};

use crate::state::StoredSegment;
use flash_types::SegId;
use std::alloc::{AllocError, Global};
use std::collections::BTreeMap;

/// Where a segment stands: its low end, and the turn at which it was put.
pub type Place = (i64, u64);

/// Segments by their places; none where there is only room for one.
pub type Places = BTreeMap<Place, Option<StoredSegment>>;

/// The places of segments by their ids.
pub type Ids = BTreeMap<SegId, Place>;

/// The segments of a state.
#[derive(Debug, Drop)]
pub struct Slots {
    pub places: Places,
    pub ids: Ids,
    /// The turn of the next segment that is put.
    pub turn: u64,
}

/// No segment. It takes no memory.
pub fn no_slots(alloc: Global) -> Slots
    ensures none { present result.places.entries ≡ [] }
    ensures fits { AllFit (get nat_cmp result.ids) result.turn result.places.entries }
{
    Slots {
        places: BTreeMap::new(alloc),
        ids: BTreeMap::new(alloc),
        turn: 0,
    }
}

pub fn place_of(ids: &Ids, id: SegId) -> Option<Place>
    ensures { result ≡ get nat_cmp ids.now id }
{
    ids.get(&id).copied()
}

// Whether the segment with this id stands at this place.
fn stands(places: &Places, place: Place, id: SegId) -> bool
    ensures stands { result ≡ has_id id (get place_cmp places.now place) }
    ensures ordered { IsOrdered place_cmp places.now }
{
    let _ = places.len();
    match places.get(&place) {
        Some(Some(segment)) => segment.id == id,
        Some(None) => false,
        None => false,
    }
}

pub fn remove_place(places: &mut Places, place: Place)
    ensures entries { places.new.entries ≡ remove_entry (is_at (place_cmp place)) places.old.entries }
    ensures others { (q : ℤ × ℕ) → get place_cmp places.new q ≡ cond (is_at (place_cmp place) q) None (get place_cmp places.old q) }
{
    let _ = places.remove(&place);
}

/// Takes a segment out, if there is one with this id. It leaves the table of ids.
pub fn take_out(slots: &mut Slots, id: SegId)
    requires fits { AllFit (get nat_cmp slots.old.ids) slots.old.turn slots.old.places.entries }
    ensures segments { present slots.new.places.entries ≡ without id (present slots.old.places.entries) }
    ensures fits { AllFit (get nat_cmp slots.new.ids) slots.new.turn slots.new.places.entries }
    ensures ids { slots.new.ids ≡ slots.old.ids }
    ensures turn { slots.new.turn ≡ slots.old.turn }
    ensures later { (q : ℤ × ℕ) → slots.old.turn ≤ q.1 → is_some (get place_cmp slots.old.places q) ≡ true → is_some (get place_cmp slots.new.places q) ≡ true }
{
    let Some(place) = place_of(&slots.ids, id) else {
        return;
    };
    if stands(&slots.places, place, id) {
        remove_place(&mut slots.places, place);
    }
}

pub fn insert_id(ids: &mut Ids, id: SegId, place: Place) -> Result<(), AllocError>
    ensures ok { OnOk result ((i : ℕ) → get nat_cmp ids.new i ≡ cond (is_at (nat_cmp id) i) (Some place) (get nat_cmp ids.old i)) }
    ensures others { (i : ℕ) → i ≢ id → get nat_cmp ids.new i ≡ get nat_cmp ids.old i }
    ensures known { is_some (get nat_cmp ids.old id) ≡ true → IsOk result }
    ensures err { OnErr result (ids.new.entries ≡ ids.old.entries) }
{
    match ids.insert(id, place) {
        Ok(_) => Ok(()),
        Err(_) => Err(AllocError),
    }
}

pub fn insert_place(
    places: &mut Places,
    place: Place,
    slot: Option<StoredSegment>,
) -> Result<(), AllocError>
    ensures entries { OnOk result (places.new.entries ≡ insert_entry place_cmp places.old.entries place slot) }
    ensures ok { OnOk result ((q : ℤ × ℕ) → get place_cmp places.new q ≡ cond (is_at (place_cmp place) q) (Some slot) (get place_cmp places.old q)) }
    ensures there { is_some (get place_cmp places.old place) ≡ true → IsOk result }
    ensures err { OnErr result (places.new.entries ≡ places.old.entries) }
    ensures ordered { IsOrdered place_cmp places.old }
{
    match places.insert(place, slot) {
        Ok(_) => Ok(()),
        Err(_) => Err(AllocError),
    }
}

pub fn next_place(segment: &StoredSegment, turn: u64) -> Place
    ensures { result ≡ (segment.now.range.low, turn) }
{
    (segment.range.low, turn)
}

// Puts a segment whose id no other has.
fn put_new(slots: &mut Slots, segment: StoredSegment) -> Result<(), AllocError>
    requires fits { AllFit (get nat_cmp slots.old.ids) slots.old.turn slots.old.places.entries }
    requires none { HasNone segment.id (present slots.old.places.entries) }
    ensures segments { OnOk result (present slots.new.places.entries ≡ placed segment (present slots.old.places.entries)) }
    ensures fits { AllFit (get nat_cmp slots.new.ids) slots.new.turn slots.new.places.entries }
    ensures turn { OnOk result (slots.new.turn ≡ slots.old.turn + 1) }
    ensures known { OnOk result ((i : ℕ) → is_some (get nat_cmp slots.old.ids i) ≡ true → is_some (get nat_cmp slots.new.ids i) ≡ true) }
    ensures later { OnOk result ((q : ℤ × ℕ) → is_some (get place_cmp slots.old.places q) ≡ true → is_some (get place_cmp slots.new.places q) ≡ true) }
    ensures room { slots.old.turn + 1 < 2 ^ 64 → is_some (get place_cmp slots.old.places (segment.range.low, slots.old.turn)) ≡ true → is_some (get nat_cmp slots.old.ids segment.id) ≡ true → IsOk result }
{
    let Some(turn) = slots.turn.checked_add(1) else {
        return Err(AllocError);
    };
    let place = next_place(&segment, slots.turn);
    let Ok(()) = insert_id(&mut slots.ids, segment.id, place) else {
        return Err(AllocError);
    };
    let Ok(()) = insert_place(&mut slots.places, place, Some(segment)) else {
        return Err(AllocError);
    };
    slots.turn = turn;
    Ok(())
}

/// Puts a segment in place of the one with its id. Where there is room for it and its id, it takes
/// no memory.
pub fn put(slots: &mut Slots, segment: StoredSegment) -> Result<(), AllocError>
    requires fits { AllFit (get nat_cmp slots.old.ids) slots.old.turn slots.old.places.entries }
    ensures segments { OnOk result (present slots.new.places.entries ≡ placed segment (without segment.id (present slots.old.places.entries))) }
    ensures fits { AllFit (get nat_cmp slots.new.ids) slots.new.turn slots.new.places.entries }
    ensures turn { OnOk result (slots.new.turn ≡ slots.old.turn + 1) }
    ensures known { OnOk result ((i : ℕ) → is_some (get nat_cmp slots.old.ids i) ≡ true → is_some (get nat_cmp slots.new.ids i) ≡ true) }
    ensures later { OnOk result ((q : ℤ × ℕ) → slots.old.turn ≤ q.1 → is_some (get place_cmp slots.old.places q) ≡ true → is_some (get place_cmp slots.new.places q) ≡ true) }
    ensures room { slots.old.turn + 1 < 2 ^ 64 → is_some (get place_cmp slots.old.places (segment.range.low, slots.old.turn)) ≡ true → is_some (get nat_cmp slots.old.ids segment.id) ≡ true → IsOk result }
{
    take_out(slots, segment.id);
    put_new(slots, segment)
}

fn forget_id(ids: &mut Ids, id: SegId)
    ensures { (i : ℕ) → i ≢ id → get nat_cmp ids.new i ≡ get nat_cmp ids.old i }
{
    let _ = ids.remove(&id);
}

/// Takes an id out of the table of ids where no segment has it.
pub fn forget(slots: &mut Slots, id: SegId)
    requires fits { AllFit (get nat_cmp slots.old.ids) slots.old.turn slots.old.places.entries }
    ensures segments { present slots.new.places.entries ≡ present slots.old.places.entries }
    ensures fits { AllFit (get nat_cmp slots.new.ids) slots.new.turn slots.new.places.entries }
    ensures turn { slots.new.turn ≡ slots.old.turn }
{
    let Some(place) = place_of(&slots.ids, id) else {
        return;
    };
    if !stands(&slots.places, place, id) {
        forget_id(&mut slots.ids, id);
    }
}

fn push_slot<'a>(
    slot: &'a Option<StoredSegment>,
    into: &mut Vec<&'a StoredSegment>,
) -> Result<(), AllocError>
    ensures { OnOk result (map (λ segment. segment.now) into.new.items ≡ map (λ segment. segment.now) into.old.items ++ somes (slot.now ∷ [])) }
{
    match slot {
        None => Ok(()),
        Some(segment) => {
            into.push(segment)?;
            Ok(())
        }
    }
}

/// All segments, in their order.
pub fn listed(alloc: Global, places: &Places) -> Result<Vec<&StoredSegment>, AllocError>
    ensures { IfOk result (λ list. map (λ segment. segment.now) list.items ≡ present places.now.entries) }
{
    let mut list = Vec::new(alloc);
    for slot in places.values() {
        push_slot(slot, &mut list)?;
    }
    Ok(list)
}
