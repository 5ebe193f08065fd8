// The values that a version has in the lists of a pack.
ghost use Rattle.std.specs.Prelude.{◌≡◌, ◌<◌, ◌^◌, length, IfSome};
ghost use Rattle.std.specs.Option.{option_map};
ghost use Rattle.pack_codec.specs.Spelling as spelling;
ghost use Rattle.pack_codec.specs.Spelling.{UintFits, TextFits};

use column_block::{Cell, Version};

/// Which of a version's values a list has.
#[derive(Clone, Copy, Debug, PartialEq, Eq)]
pub enum Field {
    Handle,
    Stamp,
    /// 1 where the version is gone, else 0.
    Mark,
    /// The cell of the column at this place.
    Cell(usize),
}

// The cell in column k as a signed number. None where it is null, missing or of another kind.
fn int_in(k: usize, version: &Version) -> Option<i64>
    ensures { result ≡ spelling.int_in (spelling.cell_of k version.now) }
{
    if version.cells.len() <= k {
        return None;
    }
    match version.cells.at(k) {
        Cell::Int(number) => Some(*number),
        _ => None,
    }
}

// The cell in column k as an unsigned number. None where it is null, missing or of another kind.
fn uint_in(k: usize, version: &Version) -> Option<u64>
    ensures value { result ≡ spelling.uint_in (spelling.cell_of k version.now) }
    ensures fits { UintFits (spelling.uint_in (spelling.cell_of k version.now)) }
{
    if version.cells.len() <= k {
        return None;
    }
    match version.cells.at(k) {
        Cell::Uint(number) => Some(*number),
        _ => None,
    }
}

// The cell in column k as bytes. None where it is null, missing or of another kind.
fn text_in(k: usize, version: &Version) -> Option<&[u8]>
    ensures value { option_map (λ text. text.now) result ≡ spelling.text_in (spelling.cell_of k version.now) }
    ensures fits { TextFits (spelling.text_in (spelling.cell_of k version.now)) }
{
    if version.cells.len() <= k {
        return None;
    }
    match version.cells.at(k) {
        Cell::Bytes(bytes) => Some(bytes.as_slice()),
        _ => None,
    }
}

/// The field as a signed number. None where it is null, or not of this kind.
pub fn int_of(field: Field, version: &Version) -> Option<i64>
    ensures { result ≡ spelling.int_of field version.now }
{
    match field {
        Field::Handle => Some(version.handle),
        Field::Cell(k) => int_in(k, version),
        Field::Stamp => None,
        Field::Mark => None,
    }
}

fn stamp_of(version: &Version) -> u64
    ensures value { result ≡ version.now.ts }
    ensures fits { version.now.ts < 2 ^ 64 }
{
    version.ts
}

fn mark_of(version: &Version) -> u64
    ensures value { result ≡ spelling.mark_of version.now }
    ensures fits { spelling.mark_of version.now < 2 ^ 64 }
{
    if version.gone { 1 } else { 0 }
}

/// The field as an unsigned number. None where it is null, or not of this kind.
pub fn uint_of(field: Field, version: &Version) -> Option<u64>
    ensures value { result ≡ spelling.uint_of field version.now }
    ensures fits { UintFits (spelling.uint_of field version.now) }
{
    match field {
        Field::Stamp => Some(stamp_of(version)),
        Field::Mark => Some(mark_of(version)),
        Field::Cell(k) => uint_in(k, version),
        Field::Handle => None,
    }
}

/// The field as bytes. None where it is null, or not of this kind.
pub fn text_of(field: Field, version: &Version) -> Option<&[u8]>
    ensures value { option_map (λ text. text.now) result ≡ spelling.text_of field version.now }
    ensures fits { TextFits (spelling.text_of field version.now) }
{
    match field {
        Field::Cell(k) => text_in(k, version),
        Field::Handle => None,
        Field::Stamp => None,
        Field::Mark => None,
    }
}
