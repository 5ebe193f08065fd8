// Room for the segments that edits put, made before they are done.
ghost use Rattle.std.specs.Prelude.{◌≡◌, ◌≤◌, ◌<◌, ◌+◌, ◌^◌, ℕ, ℤ, true, None, Some, OnOk, IfOk, is_some};
ghost use Rattle.std.specs.BTreeMap.{get};
ghost use Rattle.std.specs.Ordering.{nat_cmp};
ghost use Rattle.manifest_form.specs.Slots.{place_cmp, present, turn_after, AllFit, HasRoom, HaveRoom};

use crate::slots::{Place, Places, Slots, forget, insert_id, insert_place, remove_place};
use crate::state::Edit;
use flash_types::SegId;
use std::alloc::AllocError;

fn has_slot(places: &Places, place: Place) -> bool
    ensures { result ≡ is_some (get place_cmp places.now place) }
{
    places.get(&place).is_some()
}

fn is_vacant(places: &Places, place: Place) -> bool
    ensures { result ≡ true → get place_cmp places.now place ≡ Some None }
{
    match places.get(&place) {
        Some(None) => true,
        Some(Some(_)) => false,
        None => false,
    }
}

// Makes a slot with no segment, if there is none.
fn make_slot(slots: &mut Slots, place: Place) -> Result<(), AllocError>
    requires fits { AllFit (get nat_cmp slots.old.ids) slots.old.turn slots.old.places.entries }
    ensures segments { present slots.new.places.entries ≡ present slots.old.places.entries }
    ensures fits { AllFit (get nat_cmp slots.new.ids) slots.new.turn slots.new.places.entries }
    ensures turn { slots.new.turn ≡ slots.old.turn }
    ensures ids { slots.new.ids ≡ slots.old.ids }
    ensures made { OnOk result (is_some (get place_cmp slots.new.places place) ≡ true) }
    ensures kept { OnOk result ((q : ℤ × ℕ) → is_some (get place_cmp slots.old.places q) ≡ true → is_some (get place_cmp slots.new.places q) ≡ true) }
{
    if has_slot(&slots.places, place) {
        return Ok(());
    }
    insert_place(&mut slots.places, place, None)
}

// Takes an id into the table of ids, if it isn't there.
fn know(slots: &mut Slots, id: SegId, place: Place) -> Result<(), AllocError>
    requires fits { AllFit (get nat_cmp slots.old.ids) slots.old.turn slots.old.places.entries }
    ensures fits { AllFit (get nat_cmp slots.new.ids) slots.new.turn slots.new.places.entries }
    ensures turn { slots.new.turn ≡ slots.old.turn }
    ensures places { slots.new.places ≡ slots.old.places }
    ensures known { OnOk result (is_some (get nat_cmp slots.new.ids id) ≡ true) }
    ensures kept { OnOk result ((i : ℕ) → is_some (get nat_cmp slots.old.ids i) ≡ true → is_some (get nat_cmp slots.new.ids i) ≡ true) }
{
    if slots.ids.contains_key(&id) {
        return Ok(());
    }
    insert_id(&mut slots.ids, id, place)
}

// Makes room for a segment at this turn, and gives the next turn.
fn room_at(slots: &mut Slots, id: SegId, low: i64, turn: u64) -> Result<u64, AllocError>
    requires fits { AllFit (get nat_cmp slots.old.ids) slots.old.turn slots.old.places.entries }
    ensures segments { present slots.new.places.entries ≡ present slots.old.places.entries }
    ensures fits { AllFit (get nat_cmp slots.new.ids) slots.new.turn slots.new.places.entries }
    ensures turn { slots.new.turn ≡ slots.old.turn }
    ensures next { IfOk result (λ next. next ≡ turn + 1) }
    ensures fewer { OnOk result (turn + 1 < 2 ^ 64) }
    ensures made { OnOk result (is_some (get place_cmp slots.new.places (low, turn)) ≡ true) }
    ensures known { OnOk result (is_some (get nat_cmp slots.new.ids id) ≡ true) }
    ensures slots { OnOk result ((q : ℤ × ℕ) → is_some (get place_cmp slots.old.places q) ≡ true → is_some (get place_cmp slots.new.places q) ≡ true) }
    ensures ids { OnOk result ((i : ℕ) → is_some (get nat_cmp slots.old.ids i) ≡ true → is_some (get nat_cmp slots.new.ids i) ≡ true) }
{
    let Some(next) = turn.checked_add(1) else {
        return Err(AllocError);
    };
    let Ok(()) = make_slot(slots, (low, turn)) else {
        return Err(AllocError);
    };
    let Ok(()) = know(slots, id, (low, turn)) else {
        return Err(AllocError);
    };
    Ok(next)
}

// Makes room for the segment that an edit puts at this turn, if it puts one, and gives the next turn.
fn room_for(slots: &mut Slots, edit: &Edit, turn: u64) -> Result<u64, AllocError>
    requires fits { AllFit (get nat_cmp slots.old.ids) slots.old.turn slots.old.places.entries }
    ensures segments { present slots.new.places.entries ≡ present slots.old.places.entries }
    ensures fits { AllFit (get nat_cmp slots.new.ids) slots.new.turn slots.new.places.entries }
    ensures turn { slots.new.turn ≡ slots.old.turn }
    ensures next { IfOk result (λ next. next ≡ turn_after edit.now turn) }
    ensures room { OnOk result (HasRoom (λ q. is_some (get place_cmp slots.new.places q)) (λ i. is_some (get nat_cmp slots.new.ids i)) edit.now turn) }
    ensures slots { OnOk result ((q : ℤ × ℕ) → is_some (get place_cmp slots.old.places q) ≡ true → is_some (get place_cmp slots.new.places q) ≡ true) }
    ensures ids { OnOk result ((i : ℕ) → is_some (get nat_cmp slots.old.ids i) ≡ true → is_some (get nat_cmp slots.new.ids i) ≡ true) }
{
    match edit {
        Edit::Segment { segment } => room_at(slots, segment.id, segment.range.low, turn),
        _ => Ok(turn),
    }
}

/// Makes room for the segments that the edits put.
pub fn make_room(slots: &mut Slots, edits: &[Edit]) -> Result<(), AllocError>
    requires fits { AllFit (get nat_cmp slots.old.ids) slots.old.turn slots.old.places.entries }
    ensures segments { present slots.new.places.entries ≡ present slots.old.places.entries }
    ensures fits { AllFit (get nat_cmp slots.new.ids) slots.new.turn slots.new.places.entries }
    ensures turn { slots.new.turn ≡ slots.old.turn }
    ensures room { OnOk result (HaveRoom (λ q. is_some (get place_cmp slots.new.places q)) (λ i. is_some (get nat_cmp slots.new.ids i)) edits.now slots.new.turn) }
{
    let mut turn = slots.turn;
    for edit in edits {
        turn = room_for(slots, edit, turn)?;
    }
    Ok(())
}

// Takes a slot away that has no segment.
fn vacate(slots: &mut Slots, place: Place)
    requires fits { AllFit (get nat_cmp slots.old.ids) slots.old.turn slots.old.places.entries }
    ensures segments { present slots.new.places.entries ≡ present slots.old.places.entries }
    ensures fits { AllFit (get nat_cmp slots.new.ids) slots.new.turn slots.new.places.entries }
    ensures turn { slots.new.turn ≡ slots.old.turn }
{
    if is_vacant(&slots.places, place) {
        remove_place(&mut slots.places, place);
    }
}

// Takes away what was made for an edit at this turn, and gives the next turn.
fn clear_for(slots: &mut Slots, edit: &Edit, turn: u64) -> u64
    requires fits { AllFit (get nat_cmp slots.old.ids) slots.old.turn slots.old.places.entries }
    ensures segments { present slots.new.places.entries ≡ present slots.old.places.entries }
    ensures fits { AllFit (get nat_cmp slots.new.ids) slots.new.turn slots.new.places.entries }
{
    match edit {
        Edit::Segment { segment } => {
            vacate(slots, (segment.range.low, turn));
            forget(slots, segment.id);
            turn.saturating_add(1)
        }
        _ => turn,
    }
}

/// Takes away what was made for edits that aren't done.
pub fn clear_room(slots: &mut Slots, edits: &[Edit])
    requires fits { AllFit (get nat_cmp slots.old.ids) slots.old.turn slots.old.places.entries }
    ensures segments { present slots.new.places.entries ≡ present slots.old.places.entries }
    ensures fits { AllFit (get nat_cmp slots.new.ids) slots.new.turn slots.new.places.entries }
{
    let mut turn = slots.turn;
    for edit in edits {
        turn = clear_for(slots, edit, turn);
    }
}

// Takes the id of a segment that the edit drops out of the table of ids.
fn forget_for(slots: &mut Slots, edit: &Edit)
    requires fits { AllFit (get nat_cmp slots.old.ids) slots.old.turn slots.old.places.entries }
    ensures segments { present slots.new.places.entries ≡ present slots.old.places.entries }
    ensures fits { AllFit (get nat_cmp slots.new.ids) slots.new.turn slots.new.places.entries }
{
    match edit {
        Edit::Drop { id } => forget(slots, *id),
        _ => {}
    }
}

/// Takes the ids of dropped segments out of the table of ids.
pub fn forget_dropped(slots: &mut Slots, edits: &[Edit])
    requires fits { AllFit (get nat_cmp slots.old.ids) slots.old.turn slots.old.places.entries }
    ensures segments { present slots.new.places.entries ≡ present slots.old.places.entries }
    ensures fits { AllFit (get nat_cmp slots.new.ids) slots.new.turn slots.new.places.entries }
{
    for edit in edits {
        forget_for(slots, edit);
    }
}
