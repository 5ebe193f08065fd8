// Fields of a manifest's record.
ghost use Rattle.std.specs.Prelude.{◌≡◌};
ghost use Rattle.std.specs.Int.{w32, w64, cast_signed};
ghost use Rattle.flash_list.specs.Steps.{seen};
ghost use Rattle.manifest_form.specs.Fields.{here, byte_in, u32_at, u64_at, handle_at, high_at, high_of, range_at};

use crate::fault::Fault;
use flash_list::{u32_or, u64_or};
use flash_types::HandleRange;

/// The fault of the field with which the bytes begin: it isn't allowed, or passes `end`.
pub fn here(end: u64, bytes: &[u8]) -> Fault
    ensures { result ≡ here end bytes.now }
{
    Fault::At {
        at: end.saturating_sub(bytes.len() as u64),
    }
}

#[tactic(auto, unfolding(crate::specs::Fields::byte_in))]
pub fn u8_in(
    least: u8,
    greatest: u8,
    fault: Fault,
    end: u64,
    bytes: &[u8],
) -> Result<(u8, &[u8]), Fault>
    ensures { seen (λ x. (x.0, x.1.now)) result ≡ byte_in least greatest fault end bytes.now }
{
    match bytes {
        [] => Err(fault),
        [byte, rest @ ..] => {
            if *byte < least || greatest < *byte {
                return Err(here(end, bytes));
            }
            Ok((*byte, rest))
        }
    }
}

pub fn u32_of(end: u64, bytes: &[u8]) -> Result<(u32, &[u8]), Fault>
    ensures { seen (λ x. (x.0, x.1.now)) result ≡ u32_at end bytes.now }
{
    u32_or(here(end, bytes), bytes)
}

pub fn u64_of(end: u64, bytes: &[u8]) -> Result<(u64, &[u8]), Fault>
    ensures { seen (λ x. (x.0, x.1.now)) result ≡ u64_at end bytes.now }
{
    u64_or(here(end, bytes), bytes)
}

#[tactic(auto, unfolding(crate::specs::Fields::handle_at))]
pub fn handle_of(end: u64, bytes: &[u8]) -> Result<(i64, &[u8]), Fault>
    ensures { seen (λ x. (x.0, x.1.now)) result ≡ handle_at end bytes.now }
{
    let (bits, rest) = u64_of(end, bytes)?;
    Ok((bits.cast_signed(), rest))
}

#[tactic(auto, unfolding(crate::specs::Fields::high_at))]
fn high_of(end: u64, bytes: &[u8]) -> Result<(Option<i64>, &[u8]), Fault>
    ensures { seen (λ x. (x.0, x.1.now)) result ≡ high_at end bytes.now }
{
    let (flag, rest) = u8_in(0, 1, here(end, bytes), end, bytes)?;
    if flag < 1 {
        return Ok((None, rest));
    }
    let (high, rest) = handle_of(end, rest)?;
    Ok((Some(high), rest))
}

#[tactic(auto, unfolding(crate::specs::Fields::range_at))]
pub fn range_of(end: u64, bytes: &[u8]) -> Result<(HandleRange, &[u8]), Fault>
    ensures { seen (λ x. (x.0, x.1.now)) result ≡ range_at end bytes.now }
{
    let (low, rest) = handle_of(end, bytes)?;
    let (high, rest) = high_of(end, rest)?;
    Ok((HandleRange { low, high }, rest))
}
