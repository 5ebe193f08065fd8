// Events of a script.
ghost use Rattle.std.specs.Prelude.{◌≡◌, codes};
ghost use Rattle.serde_json.specs.View.{view};
ghost use Rattle.tool_text.specs.Reading.{below, field, needed};
ghost use Rattle.tool_text.specs.Scripts.{is_safe_point, kind_of, named_action, plain_action, action_in, event_in};
ghost use Rattle.tool_text.specs.Misfits.{Gives};

use crate::field::needed_number;
use crate::list::FromJson;
use crate::misfit::{Misfit, at_field};
use crate::names::{Object, object_of};
use crate::read::MOST_ENTRIES;
use crate::script::{Action, Event};
use serde_json::Value;
use std::alloc::Global;

impl FromJson for Event {
    ghost use Rattle.tool_text.specs.Scripts.{event_in};

    ghost reading = { event_in };

    fn from_json(alloc: Global, value: &Value) -> Result<Event, Misfit> {
        event_of(alloc, value)
    }
}

#[tactic(auto, unfolding(crate::specs::Scripts::event_in))]
fn event_of(alloc: Global, value: &Value) -> Result<Event, Misfit>
    ensures { Gives result (event_in (view value.now)) }
{
    let safe_point = is_safe_point(value);
    object_of(alloc, kind_of(safe_point), value)?;
    let at = needed_number(alloc, value, "at", 0, MOST_ENTRIES)?;
    let action = action_in(alloc, safe_point, value)?;
    Ok(Event { at, action })
}

fn kind_of(safe_point: bool) -> Object
    ensures { result ≡ kind_of safe_point }
{
    if safe_point {
        Object::SafePoint
    } else {
        Object::Event
    }
}

#[tactic(auto, unfolding(crate::specs::Scripts::is_safe_point))]
fn is_safe_point(value: &Value) -> bool
    ensures { result ≡ is_safe_point (view value.now) }
{
    match value.get("do") {
        Some(found) => match found.as_str() {
            Some(text) => text.as_bytes() == b"safe_point".as_slice(),
            None => false,
        },
        None => false,
    }
}

#[tactic(auto, unfolding(crate::specs::Scripts::action_in))]
fn action_in(alloc: Global, safe_point: bool, value: &Value) -> Result<Action, Misfit>
    ensures { Gives result (action_in safe_point (view value.now)) }
{
    if safe_point {
        let ts = needed_number(alloc, value, "ts", 0, u64::MAX)?;
        return Ok(Action::SafePoint { ts });
    }
    needed_action(alloc, value)
}

#[tactic(auto, unfolding(crate::specs::Reading::field), using(crate::proofs::Failing::failing))]
fn needed_action(alloc: Global, value: &Value) -> Result<Action, Misfit>
    ensures { Gives result (field (codes "do") (needed plain_action) (view value.now)) }
{
    match value.get("do") {
        Some(found) => action_of(alloc, found),
        None => Err(at_field(alloc, b"do")),
    }
}

#[tactic(auto, unfolding(crate::specs::Scripts::plain_action), using(crate::proofs::Failing::failing))]
fn action_of(alloc: Global, found: &Value) -> Result<Action, Misfit>
    ensures { Gives result (below (codes "do") (plain_action (view found.now))) }
{
    match found.as_str() {
        Some(text) => match named_action(text.as_bytes()) {
            Some(action) => Ok(action),
            None => Err(at_field(alloc, b"do")),
        },
        None => Err(at_field(alloc, b"do")),
    }
}

#[tactic(auto, unfolding(crate::specs::Scripts::named_action))]
fn named_action(text: &[u8]) -> Option<Action>
    ensures { result ≡ named_action text.now }
{
    if text == b"flush".as_slice() {
        Some(Action::Flush)
    } else if text == b"compact".as_slice() {
        Some(Action::Compact)
    } else if text == b"merge_delta".as_slice() {
        Some(Action::MergeDelta)
    } else if text == b"split".as_slice() {
        Some(Action::Split)
    } else if text == b"merge".as_slice() {
        Some(Action::Merge)
    } else if text == b"checkpoint".as_slice() {
        Some(Action::Checkpoint)
    } else {
        None
    }
}
