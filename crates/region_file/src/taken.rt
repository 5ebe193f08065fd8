// Ranges that were read, by their low ends.
ghost use Rattle.std.specs.Prelude.{◌≡◌, [], ◌++◌, ◌∷◌, List, false, true, OnOk, filter, int_lt};
ghost use Rattle.std.specs.List.{list_any};
ghost use Rattle.flash_types.specs.Ranges.{holds, is_below};
ghost use Rattle.flash_types.specs.declared.range.HandleRange.{HandleRange};
ghost use Rattle.region_file.specs.Regions.{meet};
ghost use Rattle.region_file.specs.Taken.{AreTaken, goes_past};

use crate::fault::TableError;
use flash_types::{Handle, HandleRange};
use std::collections::BTreeMap;
use std::collections::btree_map::Range;

/// High ends by low ends.
pub type Taken = BTreeMap<Handle, Option<Handle>>;

fn is_filled(range: HandleRange) -> bool
    ensures { result ≡ is_below range.low range.high }
{
    match range.high {
        None => true,
        Some(high) => range.low < high,
    }
}

// Those that begin within a range.
fn within(taken: &Taken, range: HandleRange) -> Range<'_, Handle, Option<Handle>>
    ensures { result ≡ filter (λ e. holds range e.0) taken.now.entries }
{
    match range.high {
        None => taken.range(range.low..),
        Some(high) => taken.range(range.low..high.max(range.low)),
    }
}

fn begins_within(taken: &Taken, range: HandleRange) -> bool
    ensures { result ≡ list_any (λ e. holds range e.0) taken.now.entries }
{
    let mut those = within(taken, range);
    match those.next() {
        None => false,
        Some(_) => true,
    }
}

// Those that begin below a handle.
fn below(taken: &Taken, handle: Handle) -> Range<'_, Handle, Option<Handle>>
    ensures { result ≡ filter (λ e. int_lt e.0 handle) taken.now.entries }
{
    taken.range(..handle)
}

fn is_below(handle: Handle, high: Option<Handle>) -> bool
    ensures { result ≡ is_below handle high }
{
    match high {
        None => true,
        Some(high) => handle < high,
    }
}

// Whether the last range of the map that begins below a handle goes past it.
fn goes_past(taken: &Taken, handle: Handle) -> bool
    ensures { result ≡ goes_past handle taken.now.entries }
{
    let mut those = below(taken, handle);
    match those.next_back() {
        None => false,
        Some((_, high)) => is_below(handle, *high),
    }
}

/// Whether a range has a handle in common with one of those that were taken.
pub fn is_met(taken: &Taken, range: HandleRange) -> bool
    ensures { (ranges : List HandleRange) → AreTaken taken.now.entries ranges → result ≡ list_any (meet range) ranges }
{
    // Gives the proof that the low ends rise.
    let _len = taken.len();
    if !is_filled(range) {
        return false;
    }
    if begins_within(taken, range) {
        return true;
    }
    goes_past(taken, range.low)
}

/// Takes one more.
pub fn take(taken: &mut Taken, range: HandleRange) -> Result<(), TableError>
    ensures { OnOk result ((ranges : List HandleRange) → AreTaken taken.old.entries ranges → list_any (meet range) ranges ≡ false → AreTaken taken.new.entries (ranges ++ range ∷ [])) }
{
    if !is_filled(range) {
        return Ok(());
    }
    match taken.insert(range.low, range.high) {
        Ok(_) => Ok(()),
        Err(_) => Err(TableError::Memory),
    }
}
