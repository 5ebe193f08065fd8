// The values of rows.
ghost use Rattle.std.specs.Prelude.{◌≡◌, ◌+◌, ◌%◌, ◌^◌, ◌<◌, ◌≤◌, IfOk, OnOk, length, replicate, take};
ghost use Rattle.byteorder.specs.Endian.{little_bytes};
ghost use Rattle.generator.specs.Generated.{int_width, uint_width, fields, value};

use row_codec::{Memory, RowWriter};
use std::alloc::Global;

// The least width of a number that is signed and not negative.
fn int_width(n: u64) -> usize
    ensures width { result ≡ int_width n }
    ensures few { result ≤ 8 }
{
    if n < 1 << 7 {
        return 1;
    }
    if n < 1 << 15 {
        return 2;
    }
    if n < 1 << 31 {
        return 4;
    }
    8
}

// The least width of a number that isn't signed.
fn uint_width(n: u64) -> usize
    ensures width { result ≡ uint_width n }
    ensures few { result ≤ 8 }
{
    if n < 1 << 8 {
        return 1;
    }
    if n < 1 << 16 {
        return 2;
    }
    if n < 1 << 32 {
        return 4;
    }
    8
}

// Adds a column with the lowest bytes of a number.
fn put_row(alloc: Global, row: u64, i: u64) -> Result<RowWriter, Memory>
    ensures { IfOk result (λ writer. writer ≡ fields row i) }
{
    let mut writer = RowWriter::new(alloc);
    writer.field(1, &row.to_le_bytes()[..int_width(row)])?;
    writer.field(2, &i.to_le_bytes()[..uint_width(i)])?;
    let filler = [(i % 256) as u8; 15];
    writer.field(3, &filler[..(i % 16) as usize])?;
    Ok(writer)
}

/// The value that the transaction `i` puts at a row.
#[tactic(auto, unfolding(crate::specs::Generated::value))]
pub fn value_of(alloc: Global, row: u64, i: u64) -> Result<Vec<u8>, Memory>
    ensures { IfOk result (λ bytes. bytes.items ≡ value row i) }
{
    let writer = put_row(alloc, row, i)?;
    let mut bytes = Vec::new(alloc);
    writer.finish(&mut bytes)?;
    Ok(bytes)
}
