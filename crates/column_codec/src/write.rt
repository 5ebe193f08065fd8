// The one spelling of a list.
ghost use Rattle.std.specs.Prelude.{◌≡◌, ◌++◌, ◌∷◌, ◌*◌, ◌^◌, ◌<◌, ◌≤◌, [], not, length, nat_eq, OnOk, OnErr};
ghost use Rattle.std.specs.Int.{w64, cast_unsigned};
ghost use Rattle.std.specs.List.{list_all};
ghost use Rattle.flash_put.specs.Appending.{Appends};
ghost use Rattle.column_codec.specs.Numbers.{folded, AllFit};
ghost use Rattle.column_codec.specs.Lists.{given};
ghost use Rattle.column_codec.specs.Spelling as spelling;

use crate::list::ColumnList;
use crate::nulls::bitmap_len;
use crate::texts::{Texts, text_mode};
use crate::values::mode_of;
use flash_put::{put_bytes, put_u8};
use std::alloc::AllocError;

// What stands behind a number's first byte, in at most so many bytes and one.
#[tactic(auto, using(flash_put::proofs::Appending::kept), unfolding(crate::specs::Spelling::higher))]
fn put_higher(more: u32, n: u64, into: &mut Vec<u8>) -> Result<(), AllocError>
    requires { n < 2 * 128 ^ more }
    ensures { Appends result into.old.items (spelling.higher more n) into.new.items }
{
    if more == 0 || n < 128 {
        return put_u8(n as u8, into);
    }
    put_u8(128 + (n % 128) as u8, into)?;
    put_higher(more - 1, n / 128, into)
}

#[tactic(auto, using(flash_put::proofs::Appending::kept), unfolding(crate::specs::Spelling::number))]
fn put_number(n: u64, into: &mut Vec<u8>) -> Result<(), AllocError>
    ensures { Appends result into.old.items (spelling.number n) into.new.items }
{
    if n < 128 {
        return put_u8(n as u8, into);
    }
    put_u8(128 + (n % 128) as u8, into)?;
    put_higher(8, n / 128, into)
}

fn folded(d: u64) -> u64
    requires { d < 2 ^ 64 }
    ensures { result ≡ folded d }
{
    if d < 1 << 63 {
        return 2 * d;
    }
    2 * (u64::MAX - d) + 1
}

#[tactic(auto, unfolding(crate::specs::Spelling::uint))]
pub fn put_uint(before: u64, n: u64, into: &mut Vec<u8>) -> Result<(), AllocError>
    ensures { Appends result into.old.items (spelling.uint before n) into.new.items }
{
    put_number(folded(n.wrapping_sub(before)), into)
}

#[tactic(auto, using(flash_put::proofs::Appending::kept), unfolding(crate::specs::Spelling::text))]
pub fn put_text(text: &[u8], into: &mut Vec<u8>) -> Result<(), AllocError>
    ensures { Appends result into.old.items (spelling.text tt text.now) into.new.items }
{
    put_number(text.len() as u64, into)?;
    put_bytes(text, into)
}

// ---- nulls

fn none_null<T>(values: &[Option<T>]) -> bool
    ensures { result ≡ list_all not (spelling.are_null values.now) }
{
    for value in values {
        match value {
            None => return false,
            Some(_) => {}
        }
    }
    true
}

// The bit of a value, which is a spare one past the end.
fn bit<T>(values: &[Option<T>], i: usize) -> u8
    ensures value { result ≡ spelling.bit (spelling.are_null values.now) i }
    ensures least { result ≤ 1 }
{
    if i < values.len() && values[i].is_none() {
        return 1;
    }
    0
}

// The bits of eight values.
#[tactic(auto, unfolding(crate::specs::Spelling::byte))]
fn byte<T>(values: &[Option<T>], i: usize) -> u8
    requires { i ≤ length values.now }
    ensures { result ≡ spelling.byte (spelling.are_null values.now) i }
{
    bit(values, i)
        + 2 * bit(values, i + 1)
        + 4 * bit(values, i + 2)
        + 8 * bit(values, i + 3)
        + 16 * bit(values, i + 4)
        + 32 * bit(values, i + 5)
        + 64 * bit(values, i + 6)
        + 128 * bit(values, i + 7)
}

fn put_bitmap<T>(values: &[Option<T>], into: &mut Vec<u8>) -> Result<(), AllocError>
    ensures { Appends result into.old.items (spelling.bitmap (spelling.are_null values.now)) into.new.items }
{
    for j in 0..bitmap_len(values.len() as u64) {
        put_u8(byte(values, 8 * j as usize), into)?;
    }
    Ok(())
}

#[tactic(auto, using(flash_put::proofs::Appending::kept), unfolding(crate::specs::Spelling::null_part))]
pub fn put_nulls<T>(values: &[Option<T>], into: &mut Vec<u8>) -> Result<(), AllocError>
    ensures { Appends result into.old.items (spelling.null_part (spelling.are_null values.now)) into.new.items }
{
    if none_null(values) {
        return put_u8(0, into);
    }
    put_u8(1, into)?;
    put_bitmap(values, into)
}

// ---- values

fn put_ints(values: &[Option<i64>], into: &mut Vec<u8>) -> Result<(), AllocError>
    requires { AllFit values.now }
    ensures { Appends result into.old.items (spelling.each spelling.int (cast_unsigned w64) 0 (given values.now)) into.new.items }
{
    let mut before = 0;
    for value in values {
        match value {
            None => {}
            Some(n) => {
                let n = n.cast_unsigned();
                put_uint(before, n, into)?;
                before = n;
            }
        }
    }
    Ok(())
}

fn put_uints(values: &[Option<u64>], into: &mut Vec<u8>) -> Result<(), AllocError>
    ensures { Appends result into.old.items (spelling.each spelling.uint (λ n. n) 0 (given values.now)) into.new.items }
{
    let mut before = 0;
    for value in values {
        match value {
            None => {}
            Some(n) => {
                put_uint(before, *n, into)?;
                before = *n;
            }
        }
    }
    Ok(())
}

fn put_texts(texts: &Texts, into: &mut Vec<u8>) -> Result<(), AllocError>
    ensures { Appends result into.old.items (spelling.each spelling.text (λ _. tt {0}) (tt {0}) (given texts.now)) into.new.items }
{
    for i in 0..texts.len() {
        match texts.at(i) {
            None => {}
            Some(text) => put_text(text, into)?,
        }
    }
    Ok(())
}

#[tactic(auto, using(flash_put::proofs::Appending::kept))]
fn put_int_values(mode: u8, values: &[Option<i64>], into: &mut Vec<u8>) -> Result<(), AllocError>
    requires { AllFit values.now }
    ensures { Appends result into.old.items (spelling.each spelling.int (cast_unsigned w64) 0 (spelling.shown mode (given values.now))) into.new.items }
{
    if mode == 0 {
        return put_ints(values, into);
    }
    for value in values {
        match value {
            None => {}
            Some(n) => return put_uint(0, n.cast_unsigned(), into),
        }
    }
    Ok(())
}

fn put_uint_values(mode: u8, values: &[Option<u64>], into: &mut Vec<u8>) -> Result<(), AllocError>
    ensures { Appends result into.old.items (spelling.each spelling.uint (λ n. n) 0 (spelling.shown mode (given values.now))) into.new.items }
{
    if mode == 0 {
        return put_uints(values, into);
    }
    for value in values {
        match value {
            None => {}
            Some(n) => return put_uint(0, *n, into),
        }
    }
    Ok(())
}

fn put_text_values(mode: u8, texts: &Texts, into: &mut Vec<u8>) -> Result<(), AllocError>
    ensures { Appends result into.old.items (spelling.each spelling.text (λ _. tt {0}) (tt {0}) (spelling.shown mode (given texts.now))) into.new.items }
{
    if mode == 0 {
        return put_texts(texts, into);
    }
    for i in 0..texts.len() {
        match texts.at(i) {
            None => {}
            Some(text) => return put_text(text, into),
        }
    }
    Ok(())
}

// ---- lists

#[tactic(auto, using(flash_put::proofs::Appending::kept), unfolding(crate::specs::Spelling::ints))]
fn put_int_list(values: &[Option<i64>], into: &mut Vec<u8>) -> Result<(), AllocError>
    requires { AllFit values.now }
    ensures { Appends result into.old.items (spelling.ints values.now) into.new.items }
{
    let mode = mode_of(values);
    put_u8(mode, into)?;
    put_nulls(values, into)?;
    put_int_values(mode, values, into)
}

#[tactic(auto, using(flash_put::proofs::Appending::kept), unfolding(crate::specs::Spelling::uints))]
fn put_uint_list(values: &[Option<u64>], into: &mut Vec<u8>) -> Result<(), AllocError>
    ensures { Appends result into.old.items (spelling.uints values.now) into.new.items }
{
    let mode = mode_of(values);
    put_u8(mode, into)?;
    put_nulls(values, into)?;
    put_uint_values(mode, values, into)
}

#[tactic(auto, using(flash_put::proofs::Appending::kept), unfolding(crate::specs::Spelling::texts))]
fn put_text_list(texts: &Texts, into: &mut Vec<u8>) -> Result<(), AllocError>
    ensures { Appends result into.old.items (spelling.texts texts.now) into.new.items }
{
    let mode = text_mode(texts);
    put_u8(mode, into)?;
    put_text_nulls(texts, into)?;
    put_text_values(mode, texts, into)
}

fn put_text_nulls(texts: &Texts, into: &mut Vec<u8>) -> Result<(), AllocError>
    ensures { Appends result into.old.items (spelling.null_part (spelling.are_null texts.now)) into.new.items }
{
    put_nulls(texts.spans(), into)
}

#[tactic(auto, unfolding(crate::specs::Spelling::spelled))]
fn put_list(list: &ColumnList, into: &mut Vec<u8>) -> Result<(), AllocError>
    ensures { Appends result into.old.items (spelling.spelled list.now) into.new.items }
{
    match list {
        ColumnList::Int(list) => put_int_list(list.as_slice(), into),
        ColumnList::Uint(list) => put_uint_list(list.as_slice(), into),
        ColumnList::Bytes(list) => put_text_list(list, into),
    }
}

/// Writes a list at the end of `into`, in its one spelling: mode 1 exactly where there are two or
/// more values that aren't null and all are equal, and a bitmap exactly where a value is null.
///
/// For want of memory `into` is as it was.
pub fn encode(list: &ColumnList, into: &mut Vec<u8>) -> Result<(), AllocError>
    ensures ok { OnOk result (into.new.items ≡ into.old.items ++ spelling.spelled list.now) }
    ensures err { OnErr result (into.new.items ≡ into.old.items) }
{
    let len = into.len();
    let written = put_list(list, into);
    if written.is_err() {
        into.truncate(len);
    }
    written
}
