ghost use Rattle.std.specs.Prelude.{◌≡◌, ◌≤◌, length, IfOk};
ghost use Rattle.log_codec.specs.Faults.{Gives};
ghost use Rattle.flash_list.specs.Steps.{seen};
ghost use Rattle.log_codec.specs.Header.{id_at, column_at, columns_at, header_at, headed};

use crate::fault::FrameError;
use crate::field::{passes, u8_in, u16_in, u64_in};
use flash_list::{Items, u32_or, u64_or};
use std::alloc::Global;

/// A column of the table: its id, and its kind as the file has it, 1 for signed numbers, 2 for
/// unsigned ones and 3 for bytes.
#[derive(Clone, Copy, Debug, PartialEq, Eq)]
pub struct ColumnSpec {
    pub id: u32,
    pub kind: u8,
}

/// The columns of a table, their ids rising.
pub type ColumnSpecs = Items<ColumnSpec>;

/// What a log is of.
#[derive(Debug, Drop)]
pub struct Header {
    pub table: i64,
    pub columns: ColumnSpecs,
}

pub(crate) const MAGIC: u64 = 0x464C_4153_484C_4F47;

const MOST_COLUMNS: u16 = 64;

/// The header at the front of a log file, and the place behind it.
///
/// It is `FLASHLOG`, the version 1 in 2 bytes, the table in 8, the number of columns in 2, at most
/// 64, and for each column its id in 4 bytes and its kind in 1. Numbers are big-endian. Faults are
/// looked for from left to right, a field at a time: `Short` where the file ends inside one, `Bad`
/// where it holds what it may not. `Memory` may stand in the place of any of them and of the header.
#[tactic(auto, unfolding(crate::specs::Header::headed))]
pub fn read_header(alloc: Global, bytes: &[u8]) -> Result<(Header, usize), FrameError>
    ensures exact { Gives (λ x. x) result (headed bytes.now) }
    ensures within { IfOk result (λ x. x.1 ≤ length bytes.now) }
{
    let (header, rest) = header_of(alloc, bytes.len() as u64, bytes)?;
    Ok((header, bytes.len().saturating_sub(rest.len())))
}

#[tactic(auto, unfolding(crate::specs::Header::header_at))]
fn header_of(alloc: Global, end: u64, bytes: &[u8]) -> Result<(Header, &[u8]), FrameError>
    ensures { Gives (λ x. (x.0, x.1.now)) result (header_at end bytes.now) }
{
    let short = FrameError::Short { at: end };
    let (_, rest) = u64_in(MAGIC, MAGIC, short, end, bytes)?;
    let (_, rest) = u16_in(1, 1, short, end, rest)?;
    let (table, rest) = u64_or(short, rest)?;
    let (count, rest) = u16_in(0, MOST_COLUMNS, short, end, rest)?;
    let (columns, rest) = columns_of(alloc, end, count, rest)?;
    let table = table.cast_signed();
    Ok((Header { table, columns }, rest))
}

fn columns_of(
    alloc: Global,
    end: u64,
    count: u16,
    bytes: &[u8],
) -> Result<(ColumnSpecs, &[u8]), FrameError>
    ensures { Gives (λ x. (x.0, x.1.now)) result (columns_at end count bytes.now) }
{
    let mut columns = Items::new(alloc);
    let mut rest = bytes;
    let mut least = 0u64;
    for _ in 0..count {
        let (column, after) = column_of(end, least, rest)?;
        let Ok(()) = columns.push(column) else {
            return Err(FrameError::Memory);
        };
        least = column.id as u64 + 1;
        rest = after;
    }
    Ok((columns, rest))
}

#[tactic(auto, unfolding(crate::specs::Header::column_at))]
fn column_of(end: u64, least: u64, bytes: &[u8]) -> Result<(ColumnSpec, &[u8]), FrameError>
    ensures { seen (λ x. (x.0, x.1.now)) result ≡ column_at end least bytes.now }
{
    let short = FrameError::Short { at: end };
    let (id, rest) = id_of(end, least, bytes)?;
    let (kind, rest) = u8_in(1, 3, short, end, rest)?;
    Ok((ColumnSpec { id, kind }, rest))
}

#[tactic(auto, unfolding(crate::specs::Header::id_at))]
fn id_of(end: u64, least: u64, bytes: &[u8]) -> Result<(u32, &[u8]), FrameError>
    ensures { seen (λ x. (x.0, x.1.now)) result ≡ id_at end least bytes.now }
{
    let (id, rest) = u32_or(FrameError::Short { at: end }, bytes)?;
    if (id as u64) < least {
        return Err(passes(end, bytes));
    }
    Ok((id, rest))
}
