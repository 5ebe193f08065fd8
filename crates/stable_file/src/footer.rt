// The footer of a stable file.
ghost use Rattle.std.specs.Prelude.{◌≡◌, ◌+◌, ◌-◌, ◌^◌, ◌<◌, ◌≤◌, ◌==◌, length, int_lt, if◌then◌else◌, true, false, FitsSigned, IfOk, IsTrue};
ghost use Rattle.std.specs.Int.{w64};
ghost use Rattle.flash_list.specs.Steps.{seen};
ghost use Rattle.pack_codec.specs.Faults.{Gives, here};
ghost use Rattle.pack_codec.specs.Reading.{ended};
ghost use Rattle.stable_file.specs.Steps.{one_for_each, so_many};
ghost use Rattle.stable_file.specs.Footer as footer;

use crate::pack::{Before, Head, Pack};
use column_block::{Column, Kind, MinMax};
use flash_list::{Items, u8_or, u32_or, u64_or};
use pack_codec::{FormError, ended, here};
use std::alloc::Global;

// `FLSE`
pub const END_MAGIC: u32 = 0x464C_5345;

// ---- the range of a column's numbers

fn number_of(kind: Kind, bits: u64) -> i128
    ensures { result ≡ footer.number_of kind bits }
{
    match kind {
        Kind::Int => bits.cast_signed() as i128,
        Kind::Uint => bits as i128,
        Kind::Bytes => bits as i128,
    }
}

#[tactic(auto, unfolding(crate::specs::Footer::greatest_at))]
fn greatest_of(
    kind: Kind,
    end: u64,
    least: i128,
    bytes: &[u8],
) -> Result<(MinMax, &[u8]), FormError>
    ensures { seen (λ x. (x.0, x.1.now)) result ≡ footer.greatest_at kind end least bytes.now }
{
    let (bits, rest) = u64_or(FormError::Damaged { at: end }, bytes)?;
    let greatest = number_of(kind, bits);
    if greatest < least {
        return Err(here(end, bytes));
    }
    Ok((MinMax::Of { least, greatest }, rest))
}

#[tactic(auto, unfolding(crate::specs::Footer::both_at))]
fn both_of(kind: Kind, end: u64, bytes: &[u8]) -> Result<(MinMax, &[u8]), FormError>
    ensures { seen (λ x. (x.0, x.1.now)) result ≡ footer.both_at kind end bytes.now }
{
    let (bits, rest) = u64_or(FormError::Damaged { at: end }, bytes)?;
    greatest_of(kind, end, number_of(kind, bits), rest)
}

#[tactic(auto, unfolding(crate::specs::Footer::numbers_at))]
fn numbers_of(kind: Kind, end: u64, bytes: &[u8]) -> Result<(MinMax, &[u8]), FormError>
    ensures { seen (λ x. (x.0, x.1.now)) result ≡ footer.numbers_at kind end bytes.now }
{
    let (flag, rest) = u8_or(FormError::Damaged { at: end }, bytes)?;
    if flag > 1 {
        return Err(here(end, bytes));
    }
    if flag == 0 {
        return Ok((MinMax::Empty, rest));
    }
    both_of(kind, end, rest)
}

fn range_of(end: u64, column: Column, bytes: &[u8]) -> Result<(MinMax, &[u8]), FormError>
    ensures { seen (λ x. (x.0, x.1.now)) result ≡ footer.range_at end column bytes.now }
{
    match column.kind {
        Kind::Int => numbers_of(Kind::Int, end, bytes),
        Kind::Uint => numbers_of(Kind::Uint, end, bytes),
        Kind::Bytes => Ok((MinMax::Empty, bytes)),
    }
}

fn ranges_of<'a>(
    alloc: Global,
    end: u64,
    columns: &[Column],
    bytes: &'a [u8],
) -> Result<(Items<MinMax>, &'a [u8]), FormError>
    ensures { Gives (λ x. (x.0, x.1.now)) result (one_for_each (footer.range_at end) columns.now bytes.now) }
{
    let mut ranges = Items::new(alloc);
    let mut rest = bytes;
    for column in columns {
        let (range, behind) = range_of(end, *column, rest)?;
        let Ok(()) = ranges.push(range) else {
            return Err(FormError::Memory);
        };
        rest = behind;
    }
    Ok((ranges, rest))
}

// ---- the entry of a pack

#[tactic(auto, unfolding(crate::specs::Footer::u64_at))]
fn place_of<'a>(end: u64, before: &Before, bytes: &'a [u8]) -> Result<(u64, &'a [u8]), FormError>
    ensures exact { seen (λ x. (x.0, x.1.now)) result ≡ footer.u64_at end (λ n. n == before.now.place) bytes.now }
    ensures same { IfOk result (λ x. x.0 ≡ before.now.place) }
{
    let (place, rest) = u64_or(FormError::Damaged { at: end }, bytes)?;
    if place != before.place {
        return Err(here(end, bytes));
    }
    Ok((place, rest))
}

fn may_have_len(stop: u64, before: &Before, len: u64) -> bool
    ensures exact { result ≡ footer.may_have_len stop before.now len }
    ensures most { IsTrue result → len ≤ stop - before.now.place }
{
    let most = stop.saturating_sub(before.place);
    if before.left == 1 {
        return len == most;
    }
    len <= most
}

#[tactic(auto, unfolding(crate::specs::Footer::u64_at))]
fn len_of<'a>(
    end: u64,
    stop: u64,
    before: &Before,
    bytes: &'a [u8],
) -> Result<(u64, &'a [u8]), FormError>
    ensures exact { seen (λ x. (x.0, x.1.now)) result ≡ footer.u64_at end (footer.may_have_len stop before.now) bytes.now }
    ensures most { IfOk result (λ x. x.0 ≤ stop - before.now.place) }
{
    let (len, rest) = u64_or(FormError::Damaged { at: end }, bytes)?;
    if !may_have_len(stop, before, len) {
        return Err(here(end, bytes));
    }
    Ok((len, rest))
}

fn may_have_count(before: &Before, count: u32) -> bool
    ensures { result ≡ footer.may_have_count before.now count }
{
    match before.rows {
        None => 0 < count,
        Some(rows) => {
            if before.left == 1 {
                return 0 < count && count <= rows;
            }
            count == rows
        }
    }
}

#[tactic(auto, unfolding(crate::specs::Footer::u32_at))]
fn count_of<'a>(end: u64, before: &Before, bytes: &'a [u8]) -> Result<(u32, &'a [u8]), FormError>
    ensures { seen (λ x. (x.0, x.1.now)) result ≡ footer.u32_at end (footer.may_have_count before.now) bytes.now }
{
    let (count, rest) = u32_or(FormError::Damaged { at: end }, bytes)?;
    if !may_have_count(before, count) {
        return Err(here(end, bytes));
    }
    Ok((count, rest))
}

fn may_begin(before: &Before, low: i64) -> bool
    ensures { result ≡ footer.may_begin before.now low }
{
    match before.high {
        None => true,
        Some(high) => {
            if low < high {
                return false;
            }
            true
        }
    }
}

#[tactic(auto, unfolding(crate::specs::Footer::handle_at))]
fn low_of<'a>(end: u64, before: &Before, bytes: &'a [u8]) -> Result<(i64, &'a [u8]), FormError>
    ensures exact { seen (λ x. (x.0, x.1.now)) result ≡ footer.handle_at end (footer.may_begin before.now) bytes.now }
    ensures fits { IfOk result (λ x. FitsSigned w64 x.0) }
{
    let (bits, rest) = u64_or(FormError::Damaged { at: end }, bytes)?;
    let low = bits.cast_signed();
    if !may_begin(before, low) {
        return Err(here(end, bytes));
    }
    Ok((low, rest))
}

#[tactic(auto, unfolding(crate::specs::Footer::handle_at))]
fn high_of(end: u64, low: i64, bytes: &[u8]) -> Result<(i64, &[u8]), FormError>
    ensures exact { seen (λ x. (x.0, x.1.now)) result ≡ footer.handle_at end (λ high. if int_lt high low then false else true) bytes.now }
    ensures fits { IfOk result (λ x. FitsSigned w64 x.0) }
{
    let (bits, rest) = u64_or(FormError::Damaged { at: end }, bytes)?;
    let high = bits.cast_signed();
    if high < low {
        return Err(here(end, bytes));
    }
    Ok((high, rest))
}

// Place, length and number of versions.
#[tactic(auto, unfolding(crate::specs::Footer::sizes_at))]
fn sizes_of<'a>(
    end: u64,
    stop: u64,
    before: &Before,
    bytes: &'a [u8],
) -> Result<((u64, u64, u32), &'a [u8]), FormError>
    ensures exact { seen (λ x. (x.0, x.1.now)) result ≡ footer.sizes_at end stop before.now bytes.now }
    ensures reach { IfOk result (λ x. x.0.0 + x.0.1 < 2 ^ 64) }
{
    let (place, rest) = place_of(end, before, bytes)?;
    let (len, rest) = len_of(end, stop, before, rest)?;
    let (count, rest) = count_of(end, before, rest)?;
    Ok(((place, len, count), rest))
}

// The least and the greatest handle.
#[tactic(auto, unfolding(crate::specs::Footer::handles_at))]
fn handles_of<'a>(
    end: u64,
    before: &Before,
    bytes: &'a [u8],
) -> Result<((i64, i64), &'a [u8]), FormError>
    ensures exact { seen (λ x. (x.0, x.1.now)) result ≡ footer.handles_at end before.now bytes.now }
    ensures fits { IfOk result (λ x. FitsSigned w64 x.0.0 × FitsSigned w64 x.0.1) }
{
    let (low, rest) = low_of(end, before, bytes)?;
    let (high, rest) = high_of(end, low, rest)?;
    Ok(((low, high), rest))
}

#[tactic(auto, unfolding(crate::specs::Footer::head_at))]
fn head_of<'a>(
    end: u64,
    stop: u64,
    before: &Before,
    bytes: &'a [u8],
) -> Result<(Head, &'a [u8]), FormError>
    ensures exact { seen (λ x. (x.0, x.1.now)) result ≡ footer.head_at end stop before.now bytes.now }
    ensures reach { IfOk result (λ x. x.0.place + x.0.len < 2 ^ 64) }
{
    let ((place, len, count), rest) = sizes_of(end, stop, before, bytes)?;
    let ((low, high), rest) = handles_of(end, before, rest)?;
    let head = Head {
        place,
        len,
        count,
        low,
        high,
    };
    Ok((head, rest))
}

#[tactic(auto, unfolding(crate::specs::Footer::pack_entry_at))]
fn entry_of<'a>(
    alloc: Global,
    end: u64,
    stop: u64,
    columns: &[Column],
    before: &Before,
    bytes: &'a [u8],
) -> Result<(Pack, &'a [u8]), FormError>
    ensures exact { Gives (λ x. (x.0, x.1.now)) result (footer.pack_entry_at end stop columns.now before.now bytes.now) }
    ensures reach { IfOk result (λ x. x.0.place + x.0.len < 2 ^ 64) }
{
    let (head, rest) = head_of(end, stop, before, bytes)?;
    let (ranges, rest) = ranges_of(alloc, end, columns, rest)?;
    let pack = Pack {
        place: head.place,
        len: head.len,
        count: head.count,
        low: head.low,
        high: head.high,
        ranges,
    };
    Ok((pack, rest))
}

fn rows_behind(before: &Before, pack: &Pack) -> Option<u32>
    ensures { result ≡ footer.rows_behind before.now pack.now }
{
    match before.rows {
        None => Some(pack.count),
        Some(rows) => Some(rows),
    }
}

// What is known before the entry behind this one.
fn behind(before: &Before, pack: &Pack) -> Before
    requires { pack.now.place + pack.now.len < 2 ^ 64 }
    ensures { result ≡ footer.behind before.now pack.now }
{
    Before {
        left: before.left.saturating_sub(1),
        place: pack.place + pack.len,
        rows: rows_behind(before, pack),
        high: Some(pack.high),
    }
}

fn some_entries<'a>(
    alloc: Global,
    end: u64,
    stop: u64,
    columns: &[Column],
    packs: u64,
    bytes: &'a [u8],
) -> Result<(Items<Pack>, &'a [u8]), FormError>
    ensures { Gives (λ x. (x.0, x.1.now)) result (so_many (footer.pack_entry_at end stop columns.now) footer.behind packs (footer.first packs) bytes.now) }
{
    let mut entries = Items::new(alloc);
    let mut rest = bytes;
    let mut before = Before {
        left: packs,
        place: 4,
        rows: None,
        high: None,
    };
    for _ in 0..packs {
        let (pack, after) = entry_of(alloc, end, stop, columns, &before, rest)?;
        before = behind(&before, &pack);
        let Ok(()) = entries.push(pack) else {
            return Err(FormError::Memory);
        };
        rest = after;
    }
    Ok((entries, rest))
}

// So many entries, all of the bytes.
#[tactic(auto, unfolding(crate::specs::Footer::entries_at))]
fn entries_of(
    alloc: Global,
    end: u64,
    stop: u64,
    columns: &[Column],
    packs: u64,
    bytes: &[u8],
) -> Result<Items<Pack>, FormError>
    ensures { Gives (λ entries. entries) result (footer.entries_at end stop columns.now packs bytes.now) }
{
    let (entries, rest) = some_entries(alloc, end, stop, columns, packs, bytes)?;
    ended(end, rest)?;
    Ok(entries)
}

// ---- the end of the file

fn may_have_size(len: u64, front: u64, size: u64) -> bool
    ensures exact { result ≡ footer.may_have_size len front size }
    ensures within { IsTrue result → (8 ≤ size) × (size ≤ front) }
{
    8 <= size && 16 <= len && size <= len - 16 && size <= front
}

// The footer's length, in the last twelve bytes of a file.
#[tactic(auto, unfolding(crate::specs::Footer::size_at))]
pub fn size_of(len: u64, front: u64, last: &[u8]) -> Result<u64, FormError>
    ensures exact { result ≡ footer.size_at len front last.now }
    ensures within { IfOk result (λ size. (8 ≤ size) × (size ≤ front)) }
{
    let short = FormError::Damaged { at: len };
    let (size, rest) = u64_or(short, last)?;
    let (magic, _) = u32_or(short, rest)?;
    if !may_have_size(len, front, size) {
        return Err(FormError::Damaged {
            at: len.saturating_sub(12),
        });
    }
    if magic != END_MAGIC {
        return Err(FormError::Damaged {
            at: len.saturating_sub(4),
        });
    }
    Ok(size)
}

#[tactic(auto, unfolding(crate::specs::Footer::packs_at))]
fn packs_of(end: u64, bytes: &[u8]) -> Result<u64, FormError>
    ensures { result ≡ footer.packs_at end bytes.now }
{
    let (packs, _) = u64_or(FormError::Damaged { at: end }, bytes)?;
    if packs == 0 {
        return Err(here(end, bytes));
    }
    Ok(packs)
}

// The packs that a footer tells.
#[tactic(auto, unfolding(crate::specs::Footer::footer_at))]
pub fn footer_of(
    alloc: Global,
    end: u64,
    columns: &[Column],
    bytes: &[u8],
) -> Result<Items<Pack>, FormError>
    requires { 8 ≤ length bytes.now }
    ensures { Gives (λ packs. packs) result (footer.footer_at end columns.now bytes.now) }
{
    let (entries, number) = bytes.split_at(bytes.len() - 8);
    let packs = packs_of(end, number)?;
    let stop = end.saturating_sub(bytes.len() as u64);
    entries_of(alloc, end.saturating_sub(8), stop, columns, packs, entries)
}

// The packs of a file of this length, of which these are the last bytes.
#[tactic(auto, unfolding(crate::specs::Footer::tail_at))]
pub fn tail_of(
    alloc: Global,
    len: u64,
    columns: &[Column],
    tail: &[u8],
) -> Result<Items<Pack>, FormError>
    ensures { Gives (λ packs. packs) result (footer.tail_at len columns.now tail.now) }
{
    if tail.len() < 12 {
        return Err(FormError::Damaged { at: len });
    }
    let (front, last) = tail.split_at(tail.len() - 12);
    let size = size_of(len, front.len() as u64, last)?;
    let (_, behind) = front.split_at(front.len() - size as usize);
    footer_of(alloc, len.saturating_sub(12), columns, behind)
}
