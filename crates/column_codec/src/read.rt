// A list of so many values, all of the bytes.
ghost use Rattle.std.specs.Prelude.{◌≡◌, IfOk};
ghost use Rattle.std.specs.Int.{w64, cast_unsigned};
ghost use Rattle.column_codec.specs.Faults.{Gives};
ghost use Rattle.column_codec.specs.Numbers.{int_at, uint_at, text_at, AllFit};
ghost use Rattle.column_codec.specs.Nulls.{nulls_from};
ghost use Rattle.column_codec.specs.Lists.{ended, of_mode, ints_of, uints_of, texts_of, list_at};

use crate::fault::CodecError;
use crate::ints::Ints;
use crate::list::{ColumnList, ListKind, Uints};
use crate::nulls::{bitmap_of, flag_of};
use crate::texts::{Texts, same_text, text_mode, texts_of};
use crate::values::{ints_of, mode_of, same_int, same_uint, uints_of};
use flash_list::Items;
use std::alloc::Global;

/// The list of `count` values that the bytes are, all of them.
///
/// The form is this project's own: a mode byte; a null byte; where it is 1, a bitmap of
/// `(count + 7) / 8` bytes, in which bit `i % 8` of byte `i / 8` is set where value `i` is null;
/// then each value that isn't null in mode 0, and in mode 1 one value for all of them. A number is
/// the shortest LEB128 of the zigzag form of its difference, wrapping at 64 bits, to the number
/// before it, and a text is its length as the shortest LEB128 and its bytes. `encode` says which
/// mode is due.
///
/// From left to right: `Short` where the bytes end inside a part, with their number; `BadByte` at a
/// mode or null byte above 1, at a null byte 1 where there are no values, at the last byte of a
/// bitmap with a spare bit or with no bit, at the last byte of a number that could be shorter, and
/// at a number's tenth byte above 1. Then `Long` at the first byte behind the list. Then `BadByte`
/// at 0 where the other mode was due. `Memory` is want of memory.
pub fn decode(
    alloc: Global,
    bytes: &[u8],
    kind: ListKind,
    count: u64,
) -> Result<ColumnList, CodecError>
    ensures { Gives (λ list. list) result (list_at kind count bytes.now) }
{
    match kind {
        ListKind::Int => int_list(alloc, bytes, count),
        ListKind::Uint => uint_list(alloc, bytes, count),
        ListKind::Bytes => text_list(alloc, bytes, count),
    }
}

#[tactic(auto, unfolding(crate::specs::Lists::list_at))]
fn int_list(alloc: Global, bytes: &[u8], count: u64) -> Result<ColumnList, CodecError>
    ensures { Gives (λ list. list) result (list_at ListKind.Int count bytes.now) }
{
    let values = ints(alloc, bytes, count)?;
    Ok(ColumnList::Int(values))
}

#[tactic(auto, unfolding(crate::specs::Lists::list_at))]
fn uint_list(alloc: Global, bytes: &[u8], count: u64) -> Result<ColumnList, CodecError>
    ensures { Gives (λ list. list) result (list_at ListKind.Uint count bytes.now) }
{
    let values = uints(alloc, bytes, count)?;
    Ok(ColumnList::Uint(values))
}

#[tactic(auto, unfolding(crate::specs::Lists::list_at))]
fn text_list(alloc: Global, bytes: &[u8], count: u64) -> Result<ColumnList, CodecError>
    ensures { Gives (λ list. list) result (list_at ListKind.Bytes count bytes.now) }
{
    let values = texts(alloc, bytes, count)?;
    Ok(ColumnList::Bytes(values))
}

#[tactic(auto, unfolding(crate::specs::Lists::ended))]
fn ended(end: u64, mode: u8, due: u8, rest: &[u8]) -> Result<(), CodecError>
    ensures { result ≡ ended end mode due rest.now }
{
    if !rest.is_empty() {
        return Err(CodecError::Long {
            at: end.saturating_sub(rest.len() as u64),
        });
    }
    if mode != due {
        return Err(CodecError::BadByte { at: 0 });
    }
    Ok(())
}

#[tactic(auto, unfolding(crate::specs::Lists::ints_of, crate::specs::Lists::list_of))]
fn ints(alloc: Global, bytes: &[u8], count: u64) -> Result<Ints, CodecError>
    ensures { Gives (λ values. values) result (ints_of count bytes.now) }
{
    let end = bytes.len() as u64;
    let (mode, rest) = flag_of(end, bytes)?;
    let (bitmap, rest) = bitmap_of(end, count, rest)?;
    let (values, rest) = int_values(alloc, end, mode, bitmap, count, rest)?;
    ended(end, mode, mode_of(values.as_slice()), rest)?;
    Ok(Ints::from_vec(values))
}

#[tactic(auto, unfolding(crate::specs::Lists::uints_of, crate::specs::Lists::list_of))]
fn uints(alloc: Global, bytes: &[u8], count: u64) -> Result<Uints, CodecError>
    ensures { Gives (λ values. values) result (uints_of count bytes.now) }
{
    let end = bytes.len() as u64;
    let (mode, rest) = flag_of(end, bytes)?;
    let (bitmap, rest) = bitmap_of(end, count, rest)?;
    let (values, rest) = uint_values(alloc, end, mode, bitmap, count, rest)?;
    ended(end, mode, mode_of(values.as_slice()), rest)?;
    Ok(Items::from_vec(values))
}

#[tactic(auto, unfolding(crate::specs::Lists::texts_of, crate::specs::Lists::list_of))]
fn texts(alloc: Global, bytes: &[u8], count: u64) -> Result<Texts, CodecError>
    ensures { Gives (λ values. values) result (texts_of count bytes.now) }
{
    let end = bytes.len() as u64;
    let (mode, rest) = flag_of(end, bytes)?;
    let (bitmap, rest) = bitmap_of(end, count, rest)?;
    let (values, rest) = text_values(alloc, end, mode, bitmap, count, rest)?;
    ended(end, mode, text_mode(&values), rest)?;
    Ok(values)
}

#[tactic(auto, unfolding(crate::specs::Lists::of_mode))]
fn int_values<'a>(
    alloc: Global,
    end: u64,
    mode: u8,
    bitmap: &[u8],
    count: u64,
    bytes: &'a [u8],
) -> Result<(Vec<Option<i64>>, &'a [u8]), CodecError>
    ensures exact { Gives (λ x. (x.0.items, x.1.now)) result (of_mode (int_at end) (cast_unsigned w64) 0 mode (nulls_from bitmap.now 0 count) bytes.now) }
    ensures fit { IfOk result (λ x. AllFit x.0.items) }
{
    if mode == 0 {
        return ints_of(alloc, end, bitmap, count, bytes);
    }
    same_int(alloc, end, bitmap, count, bytes)
}

#[tactic(auto, unfolding(crate::specs::Lists::of_mode))]
fn uint_values<'a>(
    alloc: Global,
    end: u64,
    mode: u8,
    bitmap: &[u8],
    count: u64,
    bytes: &'a [u8],
) -> Result<(Vec<Option<u64>>, &'a [u8]), CodecError>
    ensures { Gives (λ x. (x.0.items, x.1.now)) result (of_mode (uint_at end) (λ n. n) 0 mode (nulls_from bitmap.now 0 count) bytes.now) }
{
    if mode == 0 {
        return uints_of(alloc, end, bitmap, count, bytes);
    }
    same_uint(alloc, end, bitmap, count, bytes)
}

#[tactic(auto, unfolding(crate::specs::Lists::of_mode))]
fn text_values<'a>(
    alloc: Global,
    end: u64,
    mode: u8,
    bitmap: &[u8],
    count: u64,
    bytes: &'a [u8],
) -> Result<(Texts, &'a [u8]), CodecError>
    ensures { Gives (λ x. (x.0, x.1.now)) result (of_mode (text_at end) (λ _. tt) tt mode (nulls_from bitmap.now 0 count) bytes.now) }
{
    if mode == 0 {
        return texts_of(alloc, end, bitmap, count, bytes);
    }
    same_text(alloc, end, bitmap, count, bytes)
}
