// The lists of a pack, each behind its length.
ghost use Rattle.std.specs.Prelude.{◌≡◌, length, IfOk, IfSome};
ghost use Rattle.std.specs.Option.{is_some};
ghost use Rattle.std.specs.List.{list_all};
ghost use Rattle.column_codec.specs.Laws.{count_of};
ghost use Rattle.pack_codec.specs.Faults.{Gives, here};
ghost use Rattle.pack_codec.specs.Rows.{handles_in, stamps_in, marks_in, is_mark};
ghost use Rattle.pack_codec.specs.Reading.{any_at, any_behind, list_behind};

use crate::fault::FormError;
use column_block::Memory;
use column_codec::{CodecError, ColumnList, Ints, ListKind, Uints, decode};
use flash_list::u64_or;
use std::alloc::Global;

/// The fault of what stands in front of these bytes. `end` is the place behind them in the file.
pub fn here(end: u64, bytes: &[u8]) -> FormError
    ensures { result ≡ here end bytes.now }
{
    FormError::Damaged {
        at: end.saturating_sub(bytes.len() as u64),
    }
}

// The list of so many values that the bytes are, if they are one.
fn any_of(
    alloc: Global,
    kind: ListKind,
    count: u64,
    bytes: &[u8],
) -> Result<Option<ColumnList>, Memory>
    ensures exact { IfOk result (λ found. found ≡ any_at kind count bytes.now) }
    ensures len { IfOk result (λ found. IfSome found (λ list. count_of list ≡ count)) }
{
    match decode(alloc, bytes, kind, count) {
        Ok(list) => Ok(Some(list)),
        Err(CodecError::Memory) => Err(Memory),
        Err(_) => Ok(None),
    }
}

// What stands in the bytes behind their length, the bytes from there on, and those behind it.
#[tactic(auto, unfolding(crate::specs::Reading::any_behind))]
pub fn any_behind<'a>(
    alloc: Global,
    kind: ListKind,
    count: u64,
    end: u64,
    bytes: &'a [u8],
) -> Result<(Option<ColumnList>, &'a [u8], &'a [u8]), FormError>
    ensures exact { Gives (λ x. (x.0, x.1.now, x.2.now)) result (any_behind kind count end bytes.now) }
    ensures len { IfOk result (λ x. IfSome x.0 (λ list. count_of list ≡ count)) }
{
    let short = FormError::Damaged { at: end };
    let (size, from) = u64_or(short, bytes)?;
    if (from.len() as u64) < size {
        return Err(short);
    }
    let (part, rest) = from.split_at(size as usize);
    let found = any_of(alloc, kind, count, part)?;
    Ok((found, from, rest))
}

fn are_given<T>(values: &[Option<T>]) -> bool
    ensures { result ≡ list_all is_some values.now }
{
    for value in values {
        if value.is_none() {
            return false;
        }
    }
    true
}

fn handles_in(found: Option<ColumnList>) -> Option<Ints>
    ensures { result ≡ handles_in found }
{
    match found {
        Some(ColumnList::Int(values)) => {
            if are_given(values.as_slice()) {
                Some(values)
            } else {
                None
            }
        }
        _ => None,
    }
}

fn stamps_in(found: Option<ColumnList>) -> Option<Uints>
    ensures { result ≡ stamps_in found }
{
    match found {
        Some(ColumnList::Uint(values)) => {
            if are_given(values.as_slice()) {
                Some(values)
            } else {
                None
            }
        }
        _ => None,
    }
}

fn are_marks(values: &[Option<u64>]) -> bool
    ensures { result ≡ list_all is_mark values.now }
{
    for value in values {
        match value {
            None => return false,
            Some(mark) => {
                if *mark > 1 {
                    return false;
                }
            }
        }
    }
    true
}

fn marks_in(found: Option<ColumnList>) -> Option<Uints>
    ensures { result ≡ marks_in found }
{
    match found {
        Some(ColumnList::Uint(values)) => {
            if are_marks(values.as_slice()) {
                Some(values)
            } else {
                None
            }
        }
        _ => None,
    }
}

// The list of handles.
#[tactic(auto, unfolding(crate::specs::Reading::list_behind))]
pub fn handles_behind(
    alloc: Global,
    count: u64,
    end: u64,
    bytes: &[u8],
) -> Result<(Ints, &[u8]), FormError>
    ensures exact { Gives (λ x. (x.0, x.1.now)) result (list_behind ListKind.Int handles_in count end bytes.now) }
    ensures len { IfOk result (λ x. length x.0 ≡ count) }
{
    let (found, from, rest) = any_behind(alloc, ListKind::Int, count, end, bytes)?;
    match handles_in(found) {
        Some(handles) => Ok((handles, rest)),
        None => Err(here(end, from)),
    }
}

// The list of timestamps.
#[tactic(auto, unfolding(crate::specs::Reading::list_behind))]
pub fn stamps_behind(
    alloc: Global,
    count: u64,
    end: u64,
    bytes: &[u8],
) -> Result<(Uints, &[u8]), FormError>
    ensures exact { Gives (λ x. (x.0, x.1.now)) result (list_behind ListKind.Uint stamps_in count end bytes.now) }
    ensures len { IfOk result (λ x. length x.0 ≡ count) }
{
    let (found, from, rest) = any_behind(alloc, ListKind::Uint, count, end, bytes)?;
    match stamps_in(found) {
        Some(stamps) => Ok((stamps, rest)),
        None => Err(here(end, from)),
    }
}

// The list of marks.
#[tactic(auto, unfolding(crate::specs::Reading::list_behind))]
pub fn marks_behind(
    alloc: Global,
    count: u64,
    end: u64,
    bytes: &[u8],
) -> Result<(Uints, &[u8]), FormError>
    ensures exact { Gives (λ x. (x.0, x.1.now)) result (list_behind ListKind.Uint marks_in count end bytes.now) }
    ensures len { IfOk result (λ x. length x.0 ≡ count) }
{
    let (found, from, rest) = any_behind(alloc, ListKind::Uint, count, end, bytes)?;
    match marks_in(found) {
        Some(marks) => Ok((marks, rest)),
        None => Err(here(end, from)),
    }
}
