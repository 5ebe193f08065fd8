// Fields of an object that are numbers.
ghost use Rattle.std.specs.Prelude.{◌≡◌, ◌≤◌, ℕ, IfOk, IfSome};
ghost use Rattle.serde_json.specs.View.{view};
ghost use Rattle.tool_text.specs.Reading.{fits, number, signed, needed, given_or, maybe, field, below};
ghost use Rattle.tool_text.specs.Misfits.{Gives};

use crate::misfit::{Misfit, at_field};
use serde_json::Value;
use std::alloc::Global;

/// The number of a field that must be there.
#[tactic(auto, unfolding(crate::specs::Reading::field), using(crate::proofs::Failing::failing))]
pub fn needed_number(
    alloc: Global,
    value: &Value,
    name: &str,
    least: u64,
    most: u64,
) -> Result<u64, Misfit>
    ensures gives { Gives result (field name.now (needed (number least most)) (view value.now)) }
    ensures within { IfOk result (λ n. n ≤ most) }
{
    match value.get(name) {
        Some(found) => number_of(alloc, found, name, least, most),
        None => Err(at_field(alloc, name.as_bytes())),
    }
}

/// The number of a field, or a number where it isn't there.
#[tactic(auto, unfolding(crate::specs::Reading::field), using(crate::proofs::Failing::failing))]
pub fn number_or(
    alloc: Global,
    default: u64,
    value: &Value,
    name: &str,
    least: u64,
    most: u64,
) -> Result<u64, Misfit>
    requires { default ≤ most }
    ensures gives { Gives result (field name.now (given_or default (number least most)) (view value.now)) }
    ensures within { IfOk result (λ n. n ≤ most) }
{
    match value.get(name) {
        Some(found) => number_of(alloc, found, name, least, most),
        None => Ok(default),
    }
}

/// The number of a field, where it is there.
#[tactic(auto, unfolding(crate::specs::Reading::field), using(crate::proofs::Failing::failing))]
pub fn maybe_number(
    alloc: Global,
    value: &Value,
    name: &str,
    least: u64,
    most: u64,
) -> Result<Option<u64>, Misfit>
    ensures { Gives result (field name.now (maybe (number least most)) (view value.now)) }
{
    match value.get(name) {
        Some(found) => match number_of(alloc, found, name, least, most) {
            Ok(number) => Ok(Some(number)),
            Err(misfit) => Err(misfit),
        },
        None => Ok(None),
    }
}

/// The number of a field that fits 32 bits, or a number where it isn't there.
#[tactic(auto, unfolding(crate::specs::Reading::field), using(crate::proofs::Failing::failing))]
pub fn small_or(
    alloc: Global,
    default: u32,
    value: &Value,
    name: &str,
    least: u32,
    most: u32,
) -> Result<u32, Misfit>
    requires { default ≤ most }
    ensures gives { Gives result (field name.now (given_or default (number least most)) (view value.now)) }
    ensures within { IfOk result (λ n. n ≤ most) }
{
    match number_or(
        alloc,
        default as u64,
        value,
        name,
        least as u64,
        most as u64,
    ) {
        Ok(number) => Ok(number as u32),
        Err(misfit) => Err(misfit),
    }
}

/// The number with a sign of a field, or a number where it isn't there.
#[tactic(auto, unfolding(crate::specs::Reading::field), using(crate::proofs::Failing::failing))]
pub fn signed_or(alloc: Global, default: i64, value: &Value, name: &str) -> Result<i64, Misfit>
    ensures { Gives result (field name.now (given_or default signed) (view value.now)) }
{
    match value.get(name) {
        Some(found) => signed_of(alloc, found, name),
        None => Ok(default),
    }
}

/// The number with a sign of a field, where it is there.
#[tactic(auto, unfolding(crate::specs::Reading::field), using(crate::proofs::Failing::failing))]
pub fn maybe_signed(alloc: Global, value: &Value, name: &str) -> Result<Option<i64>, Misfit>
    ensures { Gives result (field name.now (maybe signed) (view value.now)) }
{
    match value.get(name) {
        Some(found) => match signed_of(alloc, found, name) {
            Ok(number) => Ok(Some(number)),
            Err(misfit) => Err(misfit),
        },
        None => Ok(None),
    }
}

#[tactic(auto, unfolding(crate::specs::Reading::number), using(crate::proofs::Failing::failing))]
fn number_of(alloc: Global, found: &Value, name: &str, least: u64, most: u64) -> Result<u64, Misfit>
    ensures gives { Gives result (below name.now (number least most (view found.now))) }
    ensures within { IfOk result (λ n. n ≤ most) }
{
    match found.as_u64() {
        Some(number) => {
            if least <= number && number <= most {
                Ok(number)
            } else {
                Err(at_field(alloc, name.as_bytes()))
            }
        }
        None => Err(at_field(alloc, name.as_bytes())),
    }
}

#[tactic(auto, unfolding(crate::specs::Reading::signed), using(crate::proofs::Failing::failing))]
fn signed_of(alloc: Global, found: &Value, name: &str) -> Result<i64, Misfit>
    ensures { Gives result (below name.now (signed (view found.now))) }
{
    match found.as_i64() {
        Some(number) => Ok(number),
        None => Err(at_field(alloc, name.as_bytes())),
    }
}
