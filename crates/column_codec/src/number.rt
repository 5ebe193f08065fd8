// Numbers and texts at the front of some bytes.
ghost use Rattle.std.specs.Prelude.{◌≡◌, ◌<◌, ◌*◌, ◌^◌, ◌≤◌, IfOk};
ghost use Rattle.flash_list.specs.Steps.{seen};
ghost use Rattle.column_codec.specs.Numbers.{bad_at, higher_at, number_at, unfolded, uint_at, int_at, text_at};

use crate::fault::CodecError;

// The fault of the byte with which these bytes begin.
pub fn bad_at(end: u64, bytes: &[u8]) -> CodecError
    ensures { result ≡ bad_at end bytes.now }
{
    CodecError::BadByte {
        at: end.saturating_sub(bytes.len() as u64),
    }
}

// What stands behind a number's first byte, in at most so many bytes and one.
#[tactic(auto, unfolding(crate::specs::Numbers::higher_at))]
fn higher_of(more: u32, end: u64, bytes: &[u8]) -> Result<(u64, &[u8]), CodecError>
    requires { more < 9 }
    ensures number { seen (λ x. (x.0, x.1.now)) result ≡ higher_at more end bytes.now }
    ensures below { IfOk result (λ x. x.0 < 2 * 128 ^ more) }
{
    let [byte, rest @ ..] = bytes else {
        return Err(CodecError::Short { at: end });
    };
    if more == 0 {
        if *byte == 1 {
            return Ok((1, rest));
        }
        return Err(bad_at(end, bytes));
    }
    if *byte == 0 {
        return Err(bad_at(end, bytes));
    }
    if *byte < 128 {
        return Ok((*byte as u64, rest));
    }
    let (high, rest) = higher_of(more - 1, end, rest)?;
    Ok(((*byte - 128) as u64 + 128 * high, rest))
}

#[tactic(auto, unfolding(crate::specs::Numbers::number_at))]
pub fn number_of(end: u64, bytes: &[u8]) -> Result<(u64, &[u8]), CodecError>
    ensures { seen (λ x. (x.0, x.1.now)) result ≡ number_at end bytes.now }
{
    let [byte, rest @ ..] = bytes else {
        return Err(CodecError::Short { at: end });
    };
    if *byte < 128 {
        return Ok((*byte as u64, rest));
    }
    let (high, rest) = higher_of(8, end, rest)?;
    Ok(((*byte - 128) as u64 + 128 * high, rest))
}

fn unfolded(z: u64) -> u64
    ensures { result ≡ unfolded z }
{
    if z % 2 == 0 {
        return z / 2;
    }
    u64::MAX - z / 2
}

#[tactic(auto, unfolding(crate::specs::Numbers::uint_at))]
pub fn uint_of(end: u64, before: u64, bytes: &[u8]) -> Result<(u64, &[u8]), CodecError>
    ensures { seen (λ x. (x.0, x.1.now)) result ≡ uint_at end before bytes.now }
{
    let (z, rest) = number_of(end, bytes)?;
    Ok((before.wrapping_add(unfolded(z)), rest))
}

#[tactic(auto, unfolding(crate::specs::Numbers::int_at))]
pub fn int_of(end: u64, before: u64, bytes: &[u8]) -> Result<(i64, &[u8]), CodecError>
    ensures { seen (λ x. (x.0, x.1.now)) result ≡ int_at end before bytes.now }
{
    let (n, rest) = uint_of(end, before, bytes)?;
    Ok((n.cast_signed(), rest))
}

#[tactic(auto, unfolding(crate::specs::Numbers::text_at))]
pub fn text_of(end: u64, bytes: &[u8]) -> Result<(&[u8], &[u8]), CodecError>
    ensures { seen (λ x. (x.0.now, x.1.now)) result ≡ text_at end tt bytes.now }
{
    let (size, rest) = number_of(end, bytes)?;
    if (rest.len() as u64) < size {
        return Err(CodecError::Short { at: end });
    }
    Ok(rest.split_at(size as usize))
}
