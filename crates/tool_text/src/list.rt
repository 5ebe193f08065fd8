// Lists of values that are each read in the same way.
ghost use Rattle.std.specs.Prelude.{◌≡◌, ◌≤◌, ℕ, map, Some, []};
ghost use Rattle.serde_json.specs.View.{view, items_of};
ghost use Rattle.tool_text.specs.Reading.{each, at_most, list_of, needed, given_or, field, below};
ghost use Rattle.std.specs.Fmt.{decimal};
ghost use Rattle.tool_text.specs.Misfits.{Gives, IsInside};

use crate::misfit::{Misfit, at_field, at_itself, inside};
use flash_list::Items;
use itoa::Buffer;
use serde_json::Value;
use std::alloc::Global;

/// What is read from a value of JSON.
pub trait FromJson: Sized {
    ghost use Rattle.std.specs.Prelude.{ℕ, List, Result};
    ghost use Rattle.serde_json.specs.Data.{Data};

    ghost reading: { Data → Result Self (List ℕ) };

    fn from_json(alloc: Global, value: &Value) -> Result<Self, Misfit>
        ensures { Gives result (reading (view value.now)) };
}

/// The list of a field that must be there, with at most so many items.
#[tactic(auto, unfolding(crate::specs::Reading::field), using(crate::proofs::Failing::failing))]
pub fn needed_list<T: FromJson + Drop>(
    alloc: Global,
    value: &Value,
    name: &str,
    most: usize,
) -> Result<Items<T>, Misfit>
    ensures { Gives result (field name.now (needed (list_of most T.FromJson.reading)) (view value.now)) }
{
    match value.get(name) {
        Some(found) => list_at(alloc, found, name, most),
        None => Err(at_field(alloc, name.as_bytes())),
    }
}

/// The list of a field, with at most so many items, or an empty one where it isn't there.
#[tactic(auto, unfolding(crate::specs::Reading::field), using(crate::proofs::Failing::failing))]
pub fn list_or_none<T: FromJson + Drop>(
    alloc: Global,
    value: &Value,
    name: &str,
    most: usize,
) -> Result<Items<T>, Misfit>
    ensures { Gives result (field name.now (given_or [] (list_of most T.FromJson.reading)) (view value.now)) }
{
    match value.get(name) {
        Some(found) => list_at(alloc, found, name, most),
        None => Ok(Items::new(alloc)),
    }
}

#[tactic(auto, using(crate::proofs::Failing::failing))]
fn list_at<T: FromJson + Drop>(
    alloc: Global,
    found: &Value,
    name: &str,
    most: usize,
) -> Result<Items<T>, Misfit>
    ensures { Gives result (below name.now (list_of most T.FromJson.reading (view found.now))) }
{
    match list_in(alloc, found, most) {
        Ok(items) => Ok(items),
        Err(misfit) => Err(inside(alloc, name.as_bytes(), misfit)),
    }
}

#[tactic(auto, unfolding(crate::specs::Reading::list_of), using(crate::proofs::Failing::failing))]
fn list_in<T: FromJson + Drop>(
    alloc: Global,
    value: &Value,
    most: usize,
) -> Result<Items<T>, Misfit>
    ensures { Gives result (list_of most T.FromJson.reading (view value.now)) }
{
    match value.as_array() {
        Some(values) => at_most(alloc, values.as_slice(), most),
        None => Err(at_itself(alloc)),
    }
}

#[tactic(auto, using(crate::proofs::Eaches::bounds))]
fn at_most<T: FromJson + Drop>(
    alloc: Global,
    values: &[Value],
    most: usize,
) -> Result<Items<T>, Misfit>
    ensures { Gives result (at_most most T.FromJson.reading (Some (items_of (map view values.now)))) }
{
    if values.len() > most {
        return Err(at_itself(alloc));
    }
    each_of(alloc, values)
}

fn each_of<T: FromJson + Drop>(alloc: Global, values: &[Value]) -> Result<Items<T>, Misfit>
    ensures { Gives result (each T.FromJson.reading 0 (map view values.now)) }
{
    let mut items = Items::new(alloc);
    for (place, value) in values.iter().enumerate() {
        match T::from_json(alloc, value) {
            Ok(item) => {
                let Ok(()) = items.push(item) else {
                    return Err(Misfit::Memory);
                };
            }
            Err(misfit) => {
                return Err(at_place(alloc, place, misfit));
            }
        }
    }
    Ok(items)
}

// What stands in the item at this place, seen from the list.
fn at_place(alloc: Global, place: usize, misfit: Misfit) -> Misfit
    ensures { IsInside (decimal place) misfit result }
{
    inside(alloc, Buffer::new().format(place as u64).as_bytes(), misfit)
}
