// The values of a list, behind its nulls.
ghost use Rattle.std.specs.Prelude.{◌≡◌, ◌∷◌, IfOk};
ghost use Rattle.std.specs.Int.{w64, cast_unsigned};
ghost use Rattle.flash_list.specs.Steps.{seen};
ghost use Rattle.column_codec.specs.Faults.{Gives};
ghost use Rattle.column_codec.specs.Numbers.{int_at, uint_at, AllFit};
ghost use Rattle.column_codec.specs.Nulls.{nulls_from};
ghost use Rattle.column_codec.specs.Lists.{values_at, value_at, repeated, given, mode_of};

use crate::fault::CodecError;
use crate::nulls::{all_null, is_null, room};
use crate::number::{int_of, uint_of};
use std::alloc::{AllocError, Global};

// Mode 0: each number that isn't null.
pub fn ints_of<'a>(
    alloc: Global,
    end: u64,
    bitmap: &[u8],
    count: u64,
    bytes: &'a [u8],
) -> Result<(Vec<Option<i64>>, &'a [u8]), CodecError>
    ensures exact { Gives (λ x. (x.0.items, x.1.now)) result (values_at (int_at end) (cast_unsigned w64) (nulls_from bitmap.now 0 count) 0 bytes.now) }
    ensures fit { IfOk result (λ x. AllFit x.0.items) }
{
    let mut list = Vec::with_capacity(alloc, room(count, bitmap, bytes))?;
    let mut before = 0;
    let mut rest = bytes;
    for i in 0..count {
        if is_null(bitmap, i) {
            let Ok(()) = list.push(None) else {
                return Err(CodecError::Memory);
            };
        } else {
            let (n, behind) = uint_of(end, before, rest)?;
            let Ok(()) = list.push(Some(n.cast_signed())) else {
                return Err(CodecError::Memory);
            };
            before = n;
            rest = behind;
        }
    }
    Ok((list, rest))
}

// Mode 0: each number that isn't null.
pub fn uints_of<'a>(
    alloc: Global,
    end: u64,
    bitmap: &[u8],
    count: u64,
    bytes: &'a [u8],
) -> Result<(Vec<Option<u64>>, &'a [u8]), CodecError>
    ensures { Gives (λ x. (x.0.items, x.1.now)) result (values_at (uint_at end) (λ n. n) (nulls_from bitmap.now 0 count) 0 bytes.now) }
{
    let mut list = Vec::with_capacity(alloc, room(count, bitmap, bytes))?;
    let mut before = 0;
    let mut rest = bytes;
    for i in 0..count {
        if is_null(bitmap, i) {
            let Ok(()) = list.push(None) else {
                return Err(CodecError::Memory);
            };
        } else {
            let (n, behind) = uint_of(end, before, rest)?;
            let Ok(()) = list.push(Some(n)) else {
                return Err(CodecError::Memory);
            };
            before = n;
            rest = behind;
        }
    }
    Ok((list, rest))
}

// The same value wherever none is null.
pub fn repeated<T: Copy>(
    alloc: Global,
    bitmap: &[u8],
    count: u64,
    value: T,
) -> Result<Vec<Option<T>>, AllocError>
    ensures { IfOk result (λ list. list.items ≡ repeated value (nulls_from bitmap.now 0 count)) }
{
    let mut list = Vec::with_capacity(alloc, count as usize)?;
    for i in 0..count {
        if is_null(bitmap, i) {
            list.push(None)?;
        } else {
            list.push(Some(value))?;
        }
    }
    Ok(list)
}

// Mode 1: one number for all that aren't null.
#[tactic(auto, unfolding(crate::specs::Lists::value_at))]
pub fn same_int<'a>(
    alloc: Global,
    end: u64,
    bitmap: &[u8],
    count: u64,
    bytes: &'a [u8],
) -> Result<(Vec<Option<i64>>, &'a [u8]), CodecError>
    ensures exact { Gives (λ x. (x.0.items, x.1.now)) result (value_at (int_at end) (nulls_from bitmap.now 0 count) 0 bytes.now) }
    ensures fit { IfOk result (λ x. AllFit x.0.items) }
{
    if all_null(bitmap, count) {
        let list = repeated(alloc, bitmap, count, 0)?;
        return Ok((list, bytes));
    }
    let (n, rest) = int_of(end, 0, bytes)?;
    let list = repeated(alloc, bitmap, count, n)?;
    Ok((list, rest))
}

// Mode 1: one number for all that aren't null.
#[tactic(auto, unfolding(crate::specs::Lists::value_at))]
pub fn same_uint<'a>(
    alloc: Global,
    end: u64,
    bitmap: &[u8],
    count: u64,
    bytes: &'a [u8],
) -> Result<(Vec<Option<u64>>, &'a [u8]), CodecError>
    ensures { Gives (λ x. (x.0.items, x.1.now)) result (value_at (uint_at end) (nulls_from bitmap.now 0 count) 0 bytes.now) }
{
    if all_null(bitmap, count) {
        let list = repeated(alloc, bitmap, count, 0)?;
        return Ok((list, bytes));
    }
    let (n, rest) = uint_of(end, 0, bytes)?;
    let list = repeated(alloc, bitmap, count, n)?;
    Ok((list, rest))
}

// The mode that is due.
pub fn mode_of<T: Copy + PartialEq>(values: &[Option<T>]) -> u8
    ensures { result ≡ mode_of T.PartialEq.eq (given values.now) }
{
    for i in 0..values.len() {
        if let Some(x) = values[i] {
            return mode_behind(x, &values[i + 1..]);
        }
    }
    0
}

// The mode that is due where this value stands before these.
fn mode_behind<T: Copy + PartialEq>(x: T, values: &[Option<T>]) -> u8
    ensures { result ≡ mode_of T.PartialEq.eq (x ∷ given values.now) }
{
    let mut mode = 0;
    for value in values {
        match value {
            None => {}
            Some(y) => {
                if x != *y {
                    return 0;
                }
                mode = 1;
            }
        }
    }
    mode
}
