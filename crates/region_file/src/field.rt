// Fields of a region file.
ghost use Rattle.std.specs.Prelude.{◌≡◌};
ghost use Rattle.std.specs.Int.{w8};
ghost use Rattle.flash_list.specs.Fields.{number_at};
ghost use Rattle.flash_list.specs.Steps.{seen};
ghost use Rattle.region_file.specs.declared.fault.TableError.TheVariants.{Damaged};
ghost use Rattle.region_file.specs.Fields.{here, u32_at, u64_at, byte_in, handle_at, high_at, range_at};

use crate::fault::TableError;
use flash_list::{u8_or, u32_or, u64_or};
use flash_types::{Handle, HandleRange};

/// The field with which the bytes begin isn't allowed. `end` is the file's length.
pub fn here(end: u64, bytes: &[u8]) -> TableError
    ensures { result ≡ here end bytes.now }
{
    TableError::Damaged {
        at: end.saturating_sub(bytes.len() as u64),
    }
}

pub fn u8_of(end: u64, bytes: &[u8]) -> Result<(u8, &[u8]), TableError>
    ensures { seen (λ x. (x.0, x.1.now)) result ≡ number_at w8 (Damaged end) bytes.now }
{
    u8_or(TableError::Damaged { at: end }, bytes)
}

pub fn u32_of(end: u64, bytes: &[u8]) -> Result<(u32, &[u8]), TableError>
    ensures { seen (λ x. (x.0, x.1.now)) result ≡ u32_at end bytes.now }
{
    u32_or(TableError::Damaged { at: end }, bytes)
}

pub fn u64_of(end: u64, bytes: &[u8]) -> Result<(u64, &[u8]), TableError>
    ensures { seen (λ x. (x.0, x.1.now)) result ≡ u64_at end bytes.now }
{
    u64_or(TableError::Damaged { at: end }, bytes)
}

#[tactic(auto, unfolding(crate::specs::Fields::byte_in))]
pub fn u8_in(least: u8, greatest: u8, end: u64, bytes: &[u8]) -> Result<(u8, &[u8]), TableError>
    ensures { seen (λ x. (x.0, x.1.now)) result ≡ byte_in least greatest end bytes.now }
{
    let (byte, rest) = u8_of(end, bytes)?;
    if byte < least || greatest < byte {
        return Err(here(end, bytes));
    }
    Ok((byte, rest))
}

#[tactic(auto, unfolding(crate::specs::Fields::handle_at))]
pub fn handle_of(end: u64, bytes: &[u8]) -> Result<(Handle, &[u8]), TableError>
    ensures { seen (λ x. (x.0, x.1.now)) result ≡ handle_at end bytes.now }
{
    let (bits, rest) = u64_of(end, bytes)?;
    Ok((bits.cast_signed(), rest))
}

#[tactic(auto, unfolding(crate::specs::Fields::high_at))]
fn high_of(end: u64, bytes: &[u8]) -> Result<(Option<Handle>, &[u8]), TableError>
    ensures { seen (λ x. (x.0, x.1.now)) result ≡ high_at end bytes.now }
{
    let (flag, rest) = u8_in(0, 1, end, bytes)?;
    if flag < 1 {
        return Ok((None, rest));
    }
    let (high, rest) = handle_of(end, rest)?;
    Ok((Some(high), rest))
}

#[tactic(auto, unfolding(crate::specs::Fields::range_at))]
pub fn range_of(end: u64, bytes: &[u8]) -> Result<(HandleRange, &[u8]), TableError>
    ensures { seen (λ x. (x.0, x.1.now)) result ≡ range_at end bytes.now }
{
    let (low, rest) = handle_of(end, bytes)?;
    let (high, rest) = high_of(end, rest)?;
    Ok((HandleRange { low, high }, rest))
}
