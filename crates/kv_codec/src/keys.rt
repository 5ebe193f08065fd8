ghost use Rattle.std.specs.Prelude.{◌≡◌, ◌<◌, ◌+◌, ◌^◌, ◌≤◌, length, take, drop, IfSome, Ok, Some};
ghost use Rattle.std.specs.Int.{w64, from_be_bytes};
ghost use Rattle.flash_list.specs.Steps.{seen};
ghost use Rattle.kv_codec.specs.Keys.{last_group, text_at, flipped, unflipped, record_at, parts_at, handle_in, handle_of, first_set};

use byteorder::{BigEndian, ByteOrder};

/// What is wrong with a key, and where.
#[derive(Clone, Copy, Debug, PartialEq, Eq)]
pub enum KeyError {
    /// The key ends inside a group or inside its timestamp: its length.
    Short { at: u64 },
    /// The marker at this place is below 0xF7.
    Marker { at: u64 },
    /// The pad byte at this place isn't zero; it is the first such.
    Pad { at: u64 },
    /// Bytes follow the last group: the first of them.
    Long { at: u64 },
}

const SIGN: u64 = 1 << 63;

const FULL: u8 = 0xFF;

const EMPTY: u8 = 0xF7;

// The marker of a record key's last group, which has five pads.
const LAST: u8 = 0xFA;

// `t`, above seven bytes of a table.
const TEXT: u64 = 0x74 << 56;

// `_r`, below the last byte of a table.
const LINE: u64 = 0x5F72;

const FIVE_BYTES: u64 = 1 << 40;

const THREE_BYTES: u64 = 1 << 24;

// A number with the sign bit flipped.
pub fn flip(number: i64) -> u64
    ensures { result ≡ flipped number }
{
    if number < 0 {
        (number - i64::MIN) as u64
    } else {
        number as u64 + SIGN
    }
}

fn unflip(raw: u64) -> i64
    ensures { result ≡ unflipped raw }
{
    if raw < SIGN {
        raw as i64 + i64::MIN
    } else {
        (raw - SIGN) as i64
    }
}

/// The handle, where the key is a record key of the table; none where it is well formed and isn't.
/// The key has no timestamp behind it.
///
/// A key is a text in groups of eight bytes, each with a marker behind it, as TiKV's
/// memory-comparable bytes are: 0xFF on a full group, and less by the number of zero pads on the
/// last group, which isn't full. The text of a record key is `t`, the table, `_r` and the handle,
/// each number in eight bytes, big-endian, with its sign bit flipped. Faults are looked for group by
/// group, in each the marker before the pads.
#[tactic(auto, unfolding(crate::specs::Keys::record_at))]
pub fn record_of(key: &[u8], table: i64) -> Result<Option<i64>, KeyError>
    ensures { result ≡ record_at table key.now }
{
    if let Some(handle) = handle_by_groups(key, table) {
        return Ok(Some(handle));
    }
    check_groups(key)?;
    Ok(handle_in(key, table))
}

// The handle of a record key of the table, by its three groups, each read as one number: `t` and
// seven bytes of the table; its last byte, `_r` and five bytes of the handle; three of these and the
// pads. None says nothing of the key.
fn handle_by_groups(key: &[u8], table: i64) -> Option<i64>
    ensures { IfSome result (λ handle. record_at table key.now ≡ Ok (Some handle)) }
{
    if key.len() != 27 {
        return None;
    }
    if key[8] != FULL || key[17] != FULL || key[26] != LAST {
        return None;
    }
    let table = flip(table);
    let first = group_at(key, 0);
    let second = group_at(key, 9);
    let third = group_at(key, 18);
    if first != TEXT + table / 256 {
        return None;
    }
    if second / FIVE_BYTES != (table % 256) * (1 << 16) + LINE {
        return None;
    }
    if third % FIVE_BYTES != 0 {
        return None;
    }
    Some(unflip(second % FIVE_BYTES * THREE_BYTES + third / FIVE_BYTES))
}

// The bytes of a group as a number.
fn group_at(key: &[u8], at: usize) -> u64
    requires { at + 8 ≤ length key.now }
    ensures { result ≡ from_be_bytes w64 (take 8 (drop at key.now)) }
{
    BigEndian::read_u64(&key[at..at + 8])
}

// Tells where a key's groups are wrong.
fn check_groups(key: &[u8]) -> Result<(), KeyError>
    ensures { result ≡ seen (λ _. tt) (text_at 0 key.now) }
{
    let mut at = 0u64;
    let mut rest = key;
    while let [a, b, c, d, e, f, g, h, marker, after @ ..] = rest {
        if *marker < EMPTY {
            return Err(KeyError::Marker { at: at + 8 });
        }
        if *marker < FULL {
            return check_last(
                at,
                &[*a, *b, *c, *d, *e, *f, *g, *h],
                *marker - EMPTY,
                after,
            );
        }
        at += 9;
        rest = after;
    }
    Err(KeyError::Short {
        at: key.len() as u64,
    })
}

// The group at this place is the last: so many of its bytes are of the text.
fn check_last(at: u64, group: &[u8; 8], count: u8, after: &[u8]) -> Result<(), KeyError>
    requires place { at < 2 ^ 63 }
    requires count { count ≤ 8 }
    ensures { result ≡ seen (λ _. tt) (last_group at group.now count after.now) }
{
    let (text, pads) = group.split_at(count as usize);
    match first_set(pads) {
        Some(pad) => Err(KeyError::Pad {
            at: at + text.len() as u64 + pad as u64,
        }),
        None => match after {
            [] => Ok(()),
            [_, ..] => Err(KeyError::Long { at: at + 9 }),
        },
    }
}

// The place of the first byte that isn't zero.
fn first_set(bytes: &[u8]) -> Option<usize>
    ensures place { result ≡ first_set bytes.now }
    ensures within { IfSome result (λ place. place < length bytes.now) }
{
    bytes.iter().position(|byte| *byte != 0)
}

// The handle in a well-formed key.
#[tactic(auto, unfolding(crate::specs::Keys::handle_in))]
fn handle_in(key: &[u8], table: i64) -> Option<i64>
    ensures { result ≡ handle_in table key.now }
{
    let [
        t,
        t0,
        t1,
        t2,
        t3,
        t4,
        t5,
        t6,
        _,
        t7,
        line,
        r,
        h0,
        h1,
        h2,
        h3,
        h4,
        _,
        h5,
        h6,
        h7,
        _,
        _,
        _,
        _,
        _,
        marker,
    ] = key
    else {
        return None;
    };
    if *marker != LAST {
        return None;
    }
    let text = [
        *t, *t0, *t1, *t2, *t3, *t4, *t5, *t6, *t7, *line, *r, *h0, *h1, *h2, *h3, *h4, *h5, *h6,
        *h7,
    ];
    handle_of(&text, table)
}

#[tactic(auto, unfolding(crate::specs::Keys::handle_of))]
fn handle_of(text: &[u8], table: i64) -> Option<i64>
    ensures { result ≡ handle_of table text.now }
{
    let [t, a, b, c, d, e, f, g, h, line, r, handle @ ..] = text else {
        return None;
    };
    if *t != b't' {
        return None;
    }
    if u64::from_be_bytes([*a, *b, *c, *d, *e, *f, *g, *h]) != flip(table) {
        return None;
    }
    if *line != b'_' {
        return None;
    }
    if *r != b'r' {
        return None;
    }
    match handle {
        [a, b, c, d, e, f, g, h] => Some(unflip(u64::from_be_bytes([
            *a, *b, *c, *d, *e, *f, *g, *h,
        ]))),
        _ => None,
    }
}

/// A key without its timestamp, and the timestamp: its last eight bytes, big-endian, with their bits
/// flipped. `Short` exactly where there are fewer.
#[tactic(auto, unfolding(crate::specs::Keys::parts_at))]
pub fn split_ts(key: &[u8]) -> Result<(&[u8], u64), KeyError>
    ensures { seen (λ parts. (parts.0.now, parts.1)) result ≡ parts_at key.now }
{
    if key.len() < 8 {
        return Err(KeyError::Short {
            at: key.len() as u64,
        });
    }
    let (front, ts) = key.split_at(key.len() - 8);
    let flipped = BigEndian::read_u64(ts);
    Ok((front, u64::MAX - flipped))
}
