// The names that objects may have.
ghost use Rattle.std.specs.Prelude.{◌≡◌, find, not, option_map};
ghost use Rattle.serde_json.specs.View.{view, members_view};
ghost use Rattle.tool_text.specs.Reading.{is_one_of, names_in, object_of};
ghost use Rattle.tool_text.specs.Scripts.{names_of};
ghost use Rattle.tool_text.specs.Misfits.{Gives};

use crate::misfit::{Misfit, at_field, at_itself};
use serde_json::{Map, Value};
use std::alloc::Global;

/// The objects of a script.
#[derive(Clone, Copy, Debug, PartialEq, Eq)]
pub enum Object {
    Script,
    Event,
    /// An event that sets the safe point.
    SafePoint,
    Read,
    Region,
}

/// Whether the value is such an object, with no other names than it may have.
#[tactic(auto, unfolding(crate::specs::Reading::object_of))]
pub fn object_of(alloc: Global, object: Object, value: &Value) -> Result<(), Misfit>
    ensures { Gives result (object_of (names_of object) (view value.now)) }
{
    match value.as_object() {
        Some(members) => match other_name(object, members) {
            Some(name) => Err(at_field(alloc, name.as_bytes())),
            None => Ok(()),
        },
        None => Err(at_itself(alloc)),
    }
}

// The first name, in byte order, that the object may not have.
#[tactic(auto, using(crate::proofs::Members::names_of_view))]
fn other_name(object: Object, members: &Map<String, Value>) -> Option<&str>
    ensures { option_map (λ name. name.now) result ≡ find (λ name. not (is_one_of (names_of object) name)) (names_in (members_view members.now.entries)) }
{
    for name in members.keys() {
        if !is_name(object, name.as_bytes()) {
            return Some(name.as_str());
        }
    }
    None
}

fn is_name(object: Object, name: &[u8]) -> bool
    ensures { result ≡ is_one_of (names_of object) name.now }
{
    match object {
        Object::Script => is_script_name(name),
        Object::Event => is_event_name(name),
        Object::SafePoint => is_safe_point_name(name),
        Object::Read => is_read_name(name),
        Object::Region => is_region_name(name),
    }
}

fn is_script_name(name: &[u8]) -> bool
    ensures { result ≡ is_one_of (names_of Object.Script) name.now }
{
    name == b"appliers".as_slice()
        || name == b"background".as_slice()
        || name == b"scanners".as_slice()
        || name == b"mem_rows".as_slice()
        || name == b"tiny_files".as_slice()
        || name == b"delta_rows".as_slice()
        || name == b"split_rows".as_slice()
        || name == b"join_rows".as_slice()
        || name == b"pack_rows".as_slice()
        || name == b"stop_after".as_slice()
        || name == b"events".as_slice()
        || name == b"reads".as_slice()
}

fn is_event_name(name: &[u8]) -> bool
    ensures { result ≡ is_one_of (names_of Object.Event) name.now }
{
    name == b"at".as_slice() || name == b"do".as_slice()
}

fn is_safe_point_name(name: &[u8]) -> bool
    ensures { result ≡ is_one_of (names_of Object.SafePoint) name.now }
{
    name == b"at".as_slice() || name == b"do".as_slice() || name == b"ts".as_slice()
}

fn is_read_name(name: &[u8]) -> bool
    ensures { result ≡ is_one_of (names_of Object.Read) name.now }
{
    name == b"ts".as_slice()
        || name == b"regions".as_slice()
        || name == b"low".as_slice()
        || name == b"high".as_slice()
        || name == b"after".as_slice()
}

fn is_region_name(name: &[u8]) -> bool
    ensures { result ≡ is_one_of (names_of Object.Region) name.now }
{
    name == b"id".as_slice()
        || name == b"conf_ver".as_slice()
        || name == b"version".as_slice()
        || name == b"index".as_slice()
}
