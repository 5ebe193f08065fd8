// The fields at the front of some bytes, big-endian.
ghost use Rattle.std.specs.Prelude.{◌≡◌};
ghost use Rattle.std.specs.Int.{w8, w16, w32, w64};
ghost use Rattle.flash_list.specs.Steps.{seen};
ghost use Rattle.flash_list.specs.Fields.{number_at};

use byteorder::{BigEndian, ByteOrder};

/// The byte at the front, and what stands behind it. `fault` where there is none.
#[tactic(auto, unfolding(crate::specs::Fields::number_at))]
pub fn u8_or<E: Copy>(fault: E, bytes: &[u8]) -> Result<(u8, &[u8]), E>
    ensures { seen (λ x. (x.0, x.1.now)) result ≡ number_at w8 fault bytes.now }
{
    if bytes.is_empty() {
        return Err(fault);
    }
    let (front, rest) = bytes.split_at(1);
    Ok((front[0], rest))
}

/// The number of two bytes at the front, and what stands behind it. `fault` where there are fewer
/// bytes.
#[tactic(auto, unfolding(crate::specs::Fields::number_at))]
pub fn u16_or<E: Copy>(fault: E, bytes: &[u8]) -> Result<(u16, &[u8]), E>
    ensures { seen (λ x. (x.0, x.1.now)) result ≡ number_at w16 fault bytes.now }
{
    if bytes.len() < 2 {
        return Err(fault);
    }
    let (front, rest) = bytes.split_at(2);
    Ok((BigEndian::read_u16(front), rest))
}

/// The number of four bytes at the front, and what stands behind it. `fault` where there are fewer
/// bytes.
#[tactic(auto, unfolding(crate::specs::Fields::number_at))]
pub fn u32_or<E: Copy>(fault: E, bytes: &[u8]) -> Result<(u32, &[u8]), E>
    ensures { seen (λ x. (x.0, x.1.now)) result ≡ number_at w32 fault bytes.now }
{
    if bytes.len() < 4 {
        return Err(fault);
    }
    let (front, rest) = bytes.split_at(4);
    Ok((BigEndian::read_u32(front), rest))
}

/// The number of eight bytes at the front, and what stands behind it. `fault` where there are
/// fewer bytes.
#[tactic(auto, unfolding(crate::specs::Fields::number_at))]
pub fn u64_or<E: Copy>(fault: E, bytes: &[u8]) -> Result<(u64, &[u8]), E>
    ensures { seen (λ x. (x.0, x.1.now)) result ≡ number_at w64 fault bytes.now }
{
    if bytes.len() < 8 {
        return Err(fault);
    }
    let (front, rest) = bytes.split_at(8);
    Ok((BigEndian::read_u64(front), rest))
}
