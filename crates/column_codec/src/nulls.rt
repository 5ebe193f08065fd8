// Which values of a list are null.
ghost use Rattle.std.specs.Prelude.{◌≡◌, ◌<◌, ◌≤◌, ◌&&◌, length, ◌==◌, nat_lt, if◌then◌else◌};
ghost use Rattle.std.specs.List.{list_all};
ghost use Rattle.flash_list.specs.Steps.{seen};
ghost use Rattle.column_codec.specs.Nulls.{is_null, nulls_from, flag_at, bitmap_len, is_no_bitmap, bits_at, bitmap_at};

use crate::fault::CodecError;
use crate::number::bad_at;

// A byte 0 or 1.
#[tactic(auto, unfolding(crate::specs::Nulls::flag_at))]
pub fn flag_of(end: u64, bytes: &[u8]) -> Result<(u8, &[u8]), CodecError>
    ensures { seen (λ x. (x.0, x.1.now)) result ≡ flag_at end bytes.now }
{
    let [byte, rest @ ..] = bytes else {
        return Err(CodecError::Short { at: end });
    };
    if *byte > 1 {
        return Err(bad_at(end, bytes));
    }
    Ok((*byte, rest))
}

// Whether value i is null.
pub fn is_null(bitmap: &[u8], i: u64) -> bool
    ensures { result ≡ is_null bitmap.now i }
{
    let at = (i / 8) as usize;
    if at >= bitmap.len() {
        return false;
    }
    (bitmap[at] >> (i % 8)) % 2 == 1
}

pub fn bitmap_len(count: u64) -> u64
    ensures { result ≡ bitmap_len count }
{
    if count % 8 == 0 {
        return count / 8;
    }
    count / 8 + 1
}

fn is_zero(bytes: &[u8]) -> bool
    ensures { result ≡ list_all (λ b. b == 0) bytes.now }
{
    for byte in bytes {
        if *byte != 0 {
            return false;
        }
    }
    true
}

fn is_no_bitmap(count: u64, bitmap: &[u8]) -> bool
    requires some { 0 < length bitmap.now }
    requires len { length bitmap.now ≡ bitmap_len count }
    ensures { result ≡ is_no_bitmap count bitmap.now }
{
    let last = bitmap.len() - 1;
    let used = count - 8 * last as u64;
    if used < 8 && bitmap[last] >> used != 0 {
        return true;
    }
    is_zero(bitmap)
}

#[tactic(auto, unfolding(crate::specs::Nulls::bits_at))]
fn bits_of(end: u64, count: u64, bytes: &[u8]) -> Result<(&[u8], &[u8]), CodecError>
    requires { 0 < count }
    ensures { seen (λ x. (x.0.now, x.1.now)) result ≡ bits_at end count bytes.now }
{
    let len = bitmap_len(count);
    if (bytes.len() as u64) < len {
        return Err(CodecError::Short { at: end });
    }
    let (bitmap, rest) = bytes.split_at(len as usize);
    if is_no_bitmap(count, bitmap) {
        return Err(CodecError::BadByte {
            at: end.saturating_sub(bytes.len() as u64) + (len - 1),
        });
    }
    Ok((bitmap, rest))
}

#[tactic(auto, unfolding(crate::specs::Nulls::bitmap_at))]
pub fn bitmap_of(end: u64, count: u64, bytes: &[u8]) -> Result<(&[u8], &[u8]), CodecError>
    ensures { seen (λ x. (x.0.now, x.1.now)) result ≡ bitmap_at end count bytes.now }
{
    let (flag, rest) = flag_of(end, bytes)?;
    if flag == 0 {
        return Ok((&[], rest));
    }
    if count == 0 {
        return Err(bad_at(end, bytes));
    }
    bits_of(end, count, rest)
}

// Whether all values are null.
pub fn all_null(bitmap: &[u8], count: u64) -> bool
    ensures { result ≡ list_all (λ null. null) (nulls_from bitmap.now 0 count) }
{
    for i in 0..count {
        if !is_null(bitmap, i) {
            return false;
        }
    }
    true
}

// For how many values room is taken: no more than can stand in these bytes, behind a bitmap that was
// found to be as long as it must be.
pub fn room(count: u64, bitmap: &[u8], bytes: &[u8]) -> usize
    ensures { result ≡ (if length bitmap.now == 0 && nat_lt (length bytes.now) count then length bytes.now else count) }
{
    if bitmap.is_empty() && (bytes.len() as u64) < count {
        return bytes.len();
    }
    count as usize
}
