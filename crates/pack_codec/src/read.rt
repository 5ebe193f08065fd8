// A pack, all of the bytes.
ghost use Rattle.std.specs.Prelude.{◌≡◌, length, IfOk, IfSome};
ghost use Rattle.flash_list.specs.Steps.{seen};
ghost use Rattle.column_codec.specs.Laws.{count_of};
ghost use Rattle.pack_codec.specs.Faults.{Gives};
ghost use Rattle.pack_codec.specs.Rows.{handles_in, versions_from};
ghost use Rattle.pack_codec.specs.Counted.{HasRows, AllHaveRows, HeadsHaveRows};
ghost use Rattle.pack_codec.specs.Reading.{list_kind, list_behind, column_in, heads_at, columns_at, width_at, ended, pack_at};

use crate::cuts::CutList;
use crate::fault::FormError;
use crate::heads::Heads;
use crate::lists::{any_behind, handles_behind, here, marks_behind, stamps_behind};
use crate::rows::{block_of, null_where_gone};
use column_block::{Block, Column, Kind, Schema};
use column_codec::{ColumnList, ListKind, Uints};
use flash_list::{u16_or, u64_or};
use std::alloc::Global;

// The lists of handles, timestamps and marks.
#[tactic(auto, unfolding(crate::specs::Reading::heads_at))]
fn heads_of(alloc: Global, count: u64, end: u64, bytes: &[u8]) -> Result<(Heads, &[u8]), FormError>
    ensures exact { Gives (λ x. (x.0, x.1.now)) result (heads_at end count bytes.now) }
    ensures rows { IfOk result (λ x. HeadsHaveRows count x.0) }
{
    let (handles, rest) = handles_behind(alloc, count, end, bytes)?;
    let (stamps, rest) = stamps_behind(alloc, count, end, rest)?;
    let (marks, rest) = marks_behind(alloc, count, end, rest)?;
    let heads = Heads {
        handles,
        stamps,
        marks,
    };
    Ok((heads, rest))
}

pub fn list_kind(kind: Kind) -> ListKind
    ensures { result ≡ list_kind kind }
{
    match kind {
        Kind::Int => ListKind::Int,
        Kind::Uint => ListKind::Uint,
        Kind::Bytes => ListKind::Bytes,
    }
}

// A column's list may stand behind marks where it is null in each row that is gone.
fn column_in(marks: &Uints, count: u64, found: Option<ColumnList>) -> Option<ColumnList>
    requires marks { length marks.now ≡ count }
    requires values { IfSome found (λ list. count_of list ≡ count) }
    ensures { result ≡ column_in marks.now count found }
{
    match found {
        Some(list) => {
            if null_where_gone(marks, &list, count as usize) {
                Some(list)
            } else {
                None
            }
        }
        None => None,
    }
}

// The list of a column, as cells are made of it.
#[tactic(auto, unfolding(crate::specs::Reading::list_behind))]
fn column_of<'a>(
    alloc: Global,
    marks: &Uints,
    column: Column,
    count: u64,
    end: u64,
    bytes: &'a [u8],
) -> Result<(CutList, &'a [u8]), FormError>
    requires { length marks.now ≡ count }
    ensures exact { Gives (λ x. (x.0, x.1.now)) result (list_behind (list_kind column.kind) (column_in marks.now count) count end bytes.now) }
    ensures rows { IfOk result (λ x. HasRows count x.0) }
{
    let kind = list_kind(column.kind);
    let (found, from, rest) = any_behind(alloc, kind, count, end, bytes)?;
    match column_in(marks, count, found) {
        Some(list) => {
            let list = CutList::new(list)?;
            Ok((list, rest))
        }
        None => Err(here(end, from)),
    }
}

// The lists of the columns.
fn columns_of<'a>(
    alloc: Global,
    marks: &Uints,
    columns: &[Column],
    count: u64,
    end: u64,
    bytes: &'a [u8],
) -> Result<(Vec<CutList>, &'a [u8]), FormError>
    requires { length marks.now ≡ count }
    ensures exact { Gives (λ x. (x.0.items, x.1.now)) result (columns_at end count marks.now columns.now bytes.now) }
    ensures rows { IfOk result (λ x. AllHaveRows count x.0.items) }
{
    let mut lists = Vec::with_capacity(alloc, columns.len())?;
    let mut rest = bytes;
    for column in columns {
        let (list, behind) = column_of(alloc, marks, *column, count, end, rest)?;
        let Ok(()) = lists.push(list) else {
            return Err(FormError::Memory);
        };
        rest = behind;
    }
    Ok((lists, rest))
}

// The number of columns.
#[tactic(auto, unfolding(crate::specs::Reading::width_at))]
fn width_of(end: u64, width: usize, bytes: &[u8]) -> Result<&[u8], FormError>
    ensures { seen (λ x. x.now) result ≡ width_at end width bytes.now }
{
    let (found, rest) = u16_or(FormError::Damaged { at: end }, bytes)?;
    if found as usize != width {
        return Err(here(end, bytes));
    }
    Ok(rest)
}

/// Nothing follows: else what does is `Damaged`, by its first byte. `end` is the place behind it.
#[tactic(auto, unfolding(crate::specs::Reading::ended))]
pub fn ended(end: u64, rest: &[u8]) -> Result<(), FormError>
    ensures { result ≡ ended end rest.now }
{
    match rest {
        [] => Ok(()),
        [_, ..] => Err(here(end, rest)),
    }
}

/// The versions of the pack that the bytes are, all of them. `end` is the place behind them in the
/// file.
///
/// The form is this project's own, its numbers big-endian: the number of versions in 8 bytes, the
/// number of columns in 2, and then lists as `column_codec` writes them, each behind its length in
/// 8 bytes: the handles, the timestamps, the marks (1 where a version is gone, else 0), and one for
/// each column of the schema. A version that is gone has null in each column.
///
/// `Damaged` names the first place in the file where the bytes aren't of the form, from left to
/// right: their end where they end inside a field or a list; the number of columns where it isn't
/// the schema's; the first byte of a list that `column_codec` refuses, of handles, timestamps or
/// marks of which one is null, of marks of which one is above 1, and of a column that isn't null
/// where a version is gone; and the first byte behind the last list. `Memory` is want of memory.
#[tactic(auto, unfolding(crate::specs::Reading::pack_at))]
pub fn read_pack(alloc: Global, bytes: &[u8], end: u64, schema: &Schema) -> Result<Block, FormError>
    ensures { Gives (λ block. block) result (pack_at end schema.now bytes.now) }
{
    let columns = schema.columns();
    let (count, rest) = u64_or(FormError::Damaged { at: end }, bytes)?;
    let rest = width_of(end, columns.len(), rest)?;
    let (heads, rest) = heads_of(alloc, count, end, rest)?;
    let (lists, rest) = columns_of(alloc, &heads.marks, columns, count, end, rest)?;
    ended(end, rest)?;
    let block = block_of(alloc, count as usize, &heads, lists.as_slice())?;
    Ok(block)
}
