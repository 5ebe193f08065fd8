// The header of a manifest.
ghost use Rattle.std.specs.Prelude.{◌≡◌};
ghost use Rattle.std.specs.Int.{w16, w32};
ghost use Rattle.flash_list.specs.Steps.{seen};
ghost use Rattle.manifest_form.specs.Faults.{Gives};
ghost use Rattle.manifest_form.specs.Header.{kind_of, number_in, id_at, column_at, columns_at, version_at, header_at};

use crate::fault::Fault;
use crate::field::{here, u8_in};
use column_block::{Column, Kind};
use flash_list::{Items, u16_or, u32_or, u64_or};
use std::alloc::Global;

/// The columns of a table, their ids rising.
pub type Columns = Items<Column>;

/// What a store is of.
#[derive(Debug, Drop)]
pub struct Header {
    pub table: i64,
    pub columns: Columns,
}

const MAGIC: u32 = 0x464C_4D46;

const MOST_COLUMNS: u16 = 64;

fn kind_of(number: u8) -> Kind
    ensures { result ≡ kind_of number }
{
    match number {
        1 => Kind::Int,
        2 => Kind::Uint,
        _ => Kind::Bytes,
    }
}

#[tactic(auto, unfolding(crate::specs::Header::number_in))]
fn u16_in(
    least: u16,
    greatest: u16,
    fault: Fault,
    end: u64,
    bytes: &[u8],
) -> Result<(u16, &[u8]), Fault>
    ensures { seen (λ x. (x.0, x.1.now)) result ≡ number_in w16 least greatest fault end bytes.now }
{
    let (number, rest) = u16_or(fault, bytes)?;
    if number < least || greatest < number {
        return Err(here(end, bytes));
    }
    Ok((number, rest))
}

#[tactic(auto, unfolding(crate::specs::Header::number_in))]
fn u32_in(
    least: u32,
    greatest: u32,
    fault: Fault,
    end: u64,
    bytes: &[u8],
) -> Result<(u32, &[u8]), Fault>
    ensures { seen (λ x. (x.0, x.1.now)) result ≡ number_in w32 least greatest fault end bytes.now }
{
    let (number, rest) = u32_or(fault, bytes)?;
    if number < least || greatest < number {
        return Err(here(end, bytes));
    }
    Ok((number, rest))
}

#[tactic(auto, unfolding(crate::specs::Header::id_at))]
fn id_of(end: u64, least: u64, bytes: &[u8]) -> Result<(u32, &[u8]), Fault>
    ensures { seen (λ x. (x.0, x.1.now)) result ≡ id_at end least bytes.now }
{
    let (id, rest) = u32_or(Fault::At { at: end }, bytes)?;
    if (id as u64) < least {
        return Err(here(end, bytes));
    }
    Ok((id, rest))
}

#[tactic(auto, unfolding(crate::specs::Header::column_at))]
fn column_of(end: u64, least: u64, bytes: &[u8]) -> Result<(Column, &[u8]), Fault>
    ensures { seen (λ x. (x.0, x.1.now)) result ≡ column_at end least bytes.now }
{
    let (id, rest) = id_of(end, least, bytes)?;
    let (kind, rest) = u8_in(1, 3, Fault::At { at: end }, end, rest)?;
    let kind = kind_of(kind);
    Ok((Column { id, kind }, rest))
}

fn columns_of(alloc: Global, stop: u64, count: u16, bytes: &[u8]) -> Result<(Columns, &[u8]), Fault>
    ensures { Gives (λ x. (x.0, x.1.now)) result (columns_at stop count bytes.now) }
{
    let mut columns = Items::new(alloc);
    let mut rest = bytes;
    let mut least = 0u64;
    for _ in 0..count {
        let (column, after) = column_of(stop, least, rest)?;
        let Ok(()) = columns.push(column) else {
            return Err(Fault::Memory);
        };
        least = column.id as u64 + 1;
        rest = after;
    }
    Ok((columns, rest))
}

#[tactic(auto, unfolding(crate::specs::Header::version_at))]
fn version_of(end: u64, bytes: &[u8]) -> Result<(u16, &[u8]), Fault>
    ensures { seen (λ x. (x.0, x.1.now)) result ≡ version_at end bytes.now }
{
    let (version, rest) = u16_or(Fault::At { at: end }, bytes)?;
    if version != 1 {
        return Err(Fault::Version { found: version });
    }
    Ok((version, rest))
}

/// The header at the front of a manifest's file that ends at `end`, and what stands behind it.
#[tactic(auto, unfolding(crate::specs::Header::header_at))]
pub fn header_of(alloc: Global, end: u64, bytes: &[u8]) -> Result<(Header, &[u8]), Fault>
    ensures { Gives (λ x. (x.0, x.1.now)) result (header_at end bytes.now) }
{
    let short = Fault::At { at: end };
    let (_, rest) = u32_in(MAGIC, MAGIC, short, end, bytes)?;
    let (_, rest) = version_of(end, rest)?;
    let (table, rest) = u64_or(short, rest)?;
    let (count, rest) = u16_in(0, MOST_COLUMNS, short, end, rest)?;
    let (columns, rest) = columns_of(alloc, end, count, rest)?;
    let table = table.cast_signed();
    Ok((Header { table, columns }, rest))
}
