// The writer of a row.
ghost use Rattle.std.specs.Prelude.{◌≡◌, ◌<◌, ◌+◌, List, Ok, ◌^◌, ◌∷◌, [], ◌++◌, ℕ, length, map, slice_index, nat_lt, OnOk, OnErr, IfOk};
ghost use Rattle.std.specs.List.{list_any};
ghost use Rattle.byteorder.specs.Endian.{little_bytes};
ghost use Rattle.flash_put.specs.Appending.{Appends};
ghost use Rattle.row_codec.specs.Rows.{Row, ids_of, row_at};
ghost use Rattle.row_codec.specs.Numbers.{bytes_each};
ghost use Rattle.row_codec.specs.Writing.{IsWritable, row_bytes, body_bytes, head_bytes, is_big, packed, ends_of, value_bytes, values_of, keys_of};

use crate::numbers::Width;
use flash_list::Bytes;
use flash_put::put_bytes;
use std::alloc::Global;
use std::marker::Model;

/// Memory ran out.
#[derive(Clone, Copy, Debug, PartialEq, Eq)]
pub struct Memory;

/// The fields of a row that is to be written. The ids are given in rising order.
#[derive(Debug, Drop)]
pub struct RowWriter {
    fields: Vec<(u32, Bytes)>,
    nulls: Vec<u32>,
    alloc: Global,
}

impl Model for RowWriter {
    ghost use Rattle.std.specs.Prelude.{ℕ, List};

    ghost Value = { List (ℕ × List ℕ) × List ℕ };

    ghost use Rattle.row_codec.specs.Writing.{IsWritable};

    ghost view = { λ row. (row.fields.items, row.nulls.items) };

    ghost invariant = { λ row. IsWritable (row.fields.items, row.nulls.items) };
}

impl RowWriter {
    /// A row without columns. It takes no memory.
    pub fn new(alloc: Global) -> RowWriter
        ensures { result ≡ ([], []) }
    {
        RowWriter {
            fields: Vec::new(alloc),
            nulls: Vec::new(alloc),
            alloc,
        }
    }

    /// Adds a column that is null. After `Err` the row is as before.
    pub fn null(&mut self, id: u32) -> Result<(), Memory>
        requires above { (k : ℕ) → k < length (ids_of self.old) → slice_index (ids_of self.old) k < id }
        requires room { length (ids_of self.old) < 65535 }
        ensures ok { OnOk result (self.new ≡ (self.old.0, self.old.1 ++ id ∷ [])) }
        ensures err { OnErr result (self.new ≡ self.old) }
    {
        let Ok(()) = self.nulls.push(id) else {
            return Err(Memory);
        };
        Ok(())
    }

    /// Adds a column with a value, whose bytes are copied. After `Err` the row is as before.
    pub fn field(&mut self, id: u32, value: &[u8]) -> Result<(), Memory>
        requires above { (k : ℕ) → k < length (ids_of self.old) → slice_index (ids_of self.old) k < id }
        requires room { length (ids_of self.old) < 65535 }
        requires bytes { value_bytes self.old + length value.now < 2 ^ 32 }
        ensures ok { OnOk result (self.new ≡ (self.old.0 ++ (id, value.now) ∷ [], self.old.1)) }
        ensures err { OnErr result (self.new ≡ self.old) }
    {
        let Ok(bytes) = Bytes::from_slice(self.alloc, value) else {
            return Err(Memory);
        };
        let Ok(()) = self.fields.push((id, bytes)) else {
            return Err(Memory);
        };
        Ok(())
    }

    /// Appends the bytes of the row, in the big form exactly where an id is above 255 or the values
    /// have more than 65,535 bytes. After `Err` the bytes are as before.
    pub fn finish(&self, into: &mut Vec<u8>) -> Result<(), Memory>
        ensures ok { OnOk result (into.new.items ≡ into.old.items ++ row_bytes self.now) }
        ensures err { OnErr result (into.new.items ≡ into.old.items) }
    {
        let len = into.len();
        let written = push_row(into, self.fields.as_slice(), self.nulls.as_slice());
        if written.is_err() {
            into.truncate(len);
        }
        written
    }
}

// The bytes of a row, or for want of memory a part of them at most.
#[tactic(auto, using(flash_put::proofs::Appending::kept), unfolding(crate::specs::Writing::row_bytes))]
fn push_row(into: &mut Vec<u8>, fields: &[(u32, Bytes)], nulls: &[u32]) -> Result<(), Memory>
    requires { IsWritable (fields.now, nulls.now) }
    ensures { Appends result into.old.items (row_bytes (fields.now, nulls.now)) into.new.items }
{
    if is_big(fields, nulls) {
        push_head(into, 1, fields.len() as u16, nulls.len() as u16)?;
        push_body(into, Width::Four, Width::Four, fields, nulls)?;
        return Ok(());
    }
    push_head(into, 0, fields.len() as u16, nulls.len() as u16)?;
    push_body(into, Width::One, Width::Two, fields, nulls)?;
    Ok(())
}

// Whether the row needs the big form.
fn is_big(fields: &[(u32, Bytes)], nulls: &[u32]) -> bool
    requires { value_bytes (fields.now, nulls.now) < 2 ^ 32 }
    ensures { result ≡ is_big (fields.now, nulls.now) }
{
    if has_big_key(fields) {
        return true;
    }
    if byte_count(fields) > 65535 {
        return true;
    }
    has_big_id(nulls)
}

fn has_big_key(fields: &[(u32, Bytes)]) -> bool
    ensures { result ≡ list_any (λ value. nat_lt 255 value.0) fields.now }
{
    fields.iter().any(|field| field.0 > 255)
}

fn has_big_id(ids: &[u32]) -> bool
    ensures { result ≡ list_any (nat_lt 255) ids.now }
{
    ids.iter().any(|id| *id > 255)
}

// The number of bytes of all values.
fn byte_count(fields: &[(u32, Bytes)]) -> u64
    requires { value_bytes (fields.now, []) < 2 ^ 32 }
    ensures { result ≡ value_bytes (fields.now, []) }
{
    let mut total: u64 = 0;
    for field in fields {
        total += field.1.len() as u64;
    }
    total
}

#[tactic(auto, using(flash_put::proofs::Appending::kept))]
fn push_head(into: &mut Vec<u8>, flags: u8, count: u16, null_count: u16) -> Result<(), Memory>
    ensures { Appends result into.old.items (head_bytes flags count null_count) into.new.items }
{
    push(into, &[128, flags])?;
    push_number(into, Width::Two, count as u64)?;
    push_number(into, Width::Two, null_count as u64)?;
    Ok(())
}

#[tactic(auto, using(flash_put::proofs::Appending::kept))]
fn push_body(
    into: &mut Vec<u8>,
    id: Width,
    end: Width,
    fields: &[(u32, Bytes)],
    nulls: &[u32],
) -> Result<(), Memory>
    requires { value_bytes (fields.now, nulls.now) < 2 ^ 32 }
    ensures { Appends result into.old.items (body_bytes (bytes_each id) (bytes_each end) (fields.now, nulls.now)) into.new.items }
{
    push_keys(into, id, fields)?;
    push_nulls(into, id, nulls)?;
    push_ends(into, end, fields)?;
    push_values(into, fields)?;
    Ok(())
}

#[tactic(auto, using(flash_put::proofs::Appending::kept))]
fn push_keys(into: &mut Vec<u8>, width: Width, fields: &[(u32, Bytes)]) -> Result<(), Memory>
    ensures { Appends result into.old.items (packed (bytes_each width) (keys_of fields.now)) into.new.items }
{
    for field in fields {
        push_number(into, width, field.0 as u64)?;
    }
    Ok(())
}

#[tactic(auto, using(flash_put::proofs::Appending::kept))]
fn push_nulls(into: &mut Vec<u8>, width: Width, nulls: &[u32]) -> Result<(), Memory>
    ensures { Appends result into.old.items (packed (bytes_each width) nulls.now) into.new.items }
{
    for id in nulls {
        push_number(into, width, *id as u64)?;
    }
    Ok(())
}

#[tactic(auto, using(crate::proofs::Writing::ends_of_push, flash_put::proofs::Appending::kept))]
fn push_ends(into: &mut Vec<u8>, width: Width, fields: &[(u32, Bytes)]) -> Result<(), Memory>
    requires { value_bytes (fields.now, []) < 2 ^ 32 }
    ensures { Appends result into.old.items (packed (bytes_each width) (ends_of 0 fields.now)) into.new.items }
{
    let mut end: u64 = 0;
    for field in fields {
        end += field.1.len() as u64;
        push_number(into, width, end)?;
    }
    Ok(())
}

#[tactic(auto, using(flash_put::proofs::Appending::kept))]
fn push_values(into: &mut Vec<u8>, fields: &[(u32, Bytes)]) -> Result<(), Memory>
    ensures { Appends result into.old.items (values_of fields.now) into.new.items }
{
    for field in fields {
        push(into, field.1.as_slice())?;
    }
    Ok(())
}

// Appends the lowest bytes of a number, little-endian.
fn push_number(into: &mut Vec<u8>, width: Width, number: u64) -> Result<(), Memory>
    ensures { Appends result into.old.items (little_bytes (bytes_each width) number) into.new.items }
{
    push(into, &number.to_le_bytes()[..width.size()])
}

fn push(into: &mut Vec<u8>, bytes: &[u8]) -> Result<(), Memory>
    ensures { Appends result into.old.items bytes.now into.new.items }
{
    match put_bytes(bytes, into) {
        Ok(()) => Ok(()),
        Err(_) => Err(Memory),
    }
}

/// What is written of a row is read as that row, whatever follows it.
pub fn reads_back()
    ensures { (row : Row) (rest : List ℕ) → IsWritable row → ((k : ℕ) → k < length (ids_of row) → slice_index (ids_of row) k < 2 ^ 32) → row_at (row_bytes row ++ rest) ≡ Ok row }
{}
