ghost use Rattle.std.specs.Prelude.{◌≡◌};
ghost use Rattle.std.specs.Int.{w16, w32, w64, cast_signed};
ghost use Rattle.flash_list.specs.Steps.{seen};
ghost use Rattle.log_codec.specs.Fields.{passes, number_in, byte_in};
ghost use Rattle.log_codec.specs.Frames.{handle_at};

use crate::fault::FrameError;
use flash_list::{u16_or, u32_or, u64_or};

/// The fault of the field with which the bytes begin: a value that isn't allowed, or one that
/// passes the place `end`.
pub fn passes(end: u64, bytes: &[u8]) -> FrameError
    ensures { result ≡ passes end bytes.now }
{
    FrameError::Bad {
        at: end.saturating_sub(bytes.len() as u64),
    }
}

#[tactic(auto, unfolding(crate::specs::Fields::byte_in))]
pub fn u8_in(
    least: u8,
    greatest: u8,
    fault: FrameError,
    end: u64,
    bytes: &[u8],
) -> Result<(u8, &[u8]), FrameError>
    ensures { seen (λ x. (x.0, x.1.now)) result ≡ byte_in least greatest fault end bytes.now }
{
    match bytes {
        [] => Err(fault),
        [byte, rest @ ..] => {
            if *byte < least || greatest < *byte {
                return Err(passes(end, bytes));
            }
            Ok((*byte, rest))
        }
    }
}

#[tactic(auto, unfolding(crate::specs::Fields::number_in))]
pub fn u16_in(
    least: u16,
    greatest: u16,
    fault: FrameError,
    end: u64,
    bytes: &[u8],
) -> Result<(u16, &[u8]), FrameError>
    ensures { seen (λ x. (x.0, x.1.now)) result ≡ number_in w16 least greatest fault end bytes.now }
{
    let (number, rest) = u16_or(fault, bytes)?;
    if number < least || greatest < number {
        return Err(passes(end, bytes));
    }
    Ok((number, rest))
}

#[tactic(auto, unfolding(crate::specs::Fields::number_in))]
pub fn u32_in(
    least: u32,
    greatest: u32,
    fault: FrameError,
    end: u64,
    bytes: &[u8],
) -> Result<(u32, &[u8]), FrameError>
    ensures { seen (λ x. (x.0, x.1.now)) result ≡ number_in w32 least greatest fault end bytes.now }
{
    let (number, rest) = u32_or(fault, bytes)?;
    if number < least || greatest < number {
        return Err(passes(end, bytes));
    }
    Ok((number, rest))
}

#[tactic(auto, unfolding(crate::specs::Fields::number_in))]
pub fn u64_in(
    least: u64,
    greatest: u64,
    fault: FrameError,
    end: u64,
    bytes: &[u8],
) -> Result<(u64, &[u8]), FrameError>
    ensures { seen (λ x. (x.0, x.1.now)) result ≡ number_in w64 least greatest fault end bytes.now }
{
    let (number, rest) = u64_or(fault, bytes)?;
    if number < least || greatest < number {
        return Err(passes(end, bytes));
    }
    Ok((number, rest))
}

/// A handle: a signed number of eight bytes.
#[tactic(auto, unfolding(crate::specs::Frames::handle_at))]
pub fn handle_of(end: u64, bytes: &[u8]) -> Result<(i64, &[u8]), FrameError>
    ensures { seen (λ x. (x.0, x.1.now)) result ≡ handle_at end bytes.now }
{
    let (bits, rest) = u64_or(passes(end, bytes), bytes)?;
    Ok((bits.cast_signed(), rest))
}
