ghost use Rattle.std.specs.Prelude.{◌≡◌, ◌<◌, ◌+◌, ◌*◌, ◌^◌, ◌≤◌, length, IfOk, IfSome};
ghost use Rattle.std.specs.Option.{option_map};
ghost use Rattle.flash_list.specs.Steps.{seen};
ghost use Rattle.kv_codec.specs.Records.{number_at, IsNumber, kind_at, short_at, sized_at, write_at, lock_kind_at, number_in, text_at, ttl_at, lock_at};
ghost use Rattle.kv_codec.specs.Views.{view, lock_view};

/// What is wrong with a record, and where.
#[derive(Clone, Copy, Debug, PartialEq, Eq)]
pub enum RecordError {
    /// The record ends inside a field: its length.
    Short { at: u64 },
    /// Another kind byte.
    Kind { byte: u8 },
    /// A number's tenth byte is above 1: that byte; or a length is negative: its first byte.
    Number { at: u64 },
}

/// What a write record says: a put, a delete, or that nothing was changed.
#[derive(Clone, Copy, Debug, PartialEq, Eq)]
pub enum WriteKind {
    Put,
    Delete,
    Lock,
    Rollback,
}

/// What a lock is for. A pessimistic lock holds a key before its transaction knows what it writes.
#[derive(Clone, Copy, Debug, PartialEq, Eq)]
pub enum LockKind {
    Put,
    Delete,
    Lock,
    Pessimistic,
}

/// A record of the lock family, as TiKV writes it: the transaction's primary key, its start
/// timestamp and its time to live in milliseconds.
#[derive(Clone, Copy, Debug)]
pub struct LockRec<'a> {
    pub kind: LockKind,
    pub primary: &'a [u8],
    pub start: u64,
    pub ttl: u64,
}

/// A record of the write family: what the transaction that began at `start` did to the key. It may
/// hold a short value.
#[derive(Clone, Copy, Debug)]
pub struct WriteRec<'a> {
    pub kind: WriteKind,
    pub start: u64,
    pub short: Option<&'a [u8]>,
}

/// Reads a write record as TiKV writes it: a kind byte, the start timestamp in LEB128, and behind a
/// `v` one byte of length and a short value. Bytes behind it are passed over, and so are all behind
/// the start where the first isn't `v`. Faults are looked for from left to right.
#[tactic(auto, unfolding(crate::specs::Records::write_at))]
pub fn read_write(value: &[u8]) -> Result<WriteRec<'_>, RecordError>
    ensures { seen view result ≡ write_at value.now }
{
    let (kind, rest) = kind_of(value)?;
    let (start, rest) = number_at(1, rest)?;
    let short = short_of(value.len() as u64, rest)?;
    Ok(WriteRec { kind, start, short })
}

#[tactic(auto, unfolding(crate::specs::Records::kind_at))]
fn kind_of(bytes: &[u8]) -> Result<(WriteKind, &[u8]), RecordError>
    ensures { seen (λ x. (x.0, x.1.now)) result ≡ kind_at bytes.now }
{
    match bytes {
        [] => Err(RecordError::Short { at: 0 }),
        [b'P', rest @ ..] => Ok((WriteKind::Put, rest)),
        [b'D', rest @ ..] => Ok((WriteKind::Delete, rest)),
        [b'L', rest @ ..] => Ok((WriteKind::Lock, rest)),
        [b'R', rest @ ..] => Ok((WriteKind::Rollback, rest)),
        [byte, ..] => Err(RecordError::Kind { byte: *byte }),
    }
}

// A number at this place. Numbers are most of what a record takes to read, so this is inlined.
#[inline(always)]
fn number_at(at: u64, bytes: &[u8]) -> Result<(u64, &[u8]), RecordError>
    requires { at + 9 < 2 ^ 64 }
    ensures { seen (λ x. (x.0, x.1.now)) result ≡ number_at 9 at bytes.now }
{
    match number_in_nine(bytes) {
        Some(found) => Ok(found),
        None => number_of(9, at, bytes),
    }
}

// A number of at most nine bytes, from its lowest bits on. None says nothing of the bytes.
#[inline(always)]
fn number_in_nine(bytes: &[u8]) -> Option<(u64, &[u8])>
    ensures { IfSome result (λ x. IsNumber 9 bytes.now x.0 x.1.now) }
{
    let mut low = 0u64;
    let mut weight = 1u64;
    let mut more = 9u32;
    let mut rest = bytes;
    while let [byte, after @ ..] = rest {
        if more == 0 {
            return None;
        }
        if *byte < 128 {
            return Some((low + weight * *byte as u64, after));
        }
        low += weight * (*byte - 128) as u64;
        weight *= 128;
        more -= 1;
        rest = after;
    }
    None
}

// A number in at most so many bytes and one.
#[tactic(auto, unfolding(crate::specs::Records::number_at))]
#[cold]
fn number_of(more: u32, at: u64, bytes: &[u8]) -> Result<(u64, &[u8]), RecordError>
    requires more { more < 10 }
    requires place { at + more < 2 ^ 64 }
    ensures number { seen (λ x. (x.0, x.1.now)) result ≡ number_at more at bytes.now }
    ensures below { IfOk result (λ x. x.0 < 2 * 128 ^ more) }
{
    let [byte, rest @ ..] = bytes else {
        return Err(RecordError::Short { at });
    };
    if more == 0 {
        if *byte > 1 {
            return Err(RecordError::Number { at });
        }
        return Ok((*byte as u64, rest));
    }
    if *byte < 128 {
        return Ok((*byte as u64, rest));
    }
    let (high, rest) = number_of(more - 1, at + 1, rest)?;
    Ok(((*byte - 128) as u64 + 128 * high, rest))
}

#[tactic(auto, unfolding(crate::specs::Records::short_at))]
fn short_of(len: u64, bytes: &[u8]) -> Result<Option<&[u8]>, RecordError>
    ensures { seen (λ x. option_map (λ s. s.now) x) result ≡ short_at len bytes.now }
{
    match bytes {
        [b'v', rest @ ..] => sized_of(len, rest),
        _ => Ok(None),
    }
}

#[tactic(auto, unfolding(crate::specs::Records::sized_at))]
fn sized_of(len: u64, bytes: &[u8]) -> Result<Option<&[u8]>, RecordError>
    ensures { seen (λ x. option_map (λ s. s.now) x) result ≡ sized_at len bytes.now }
{
    let [size, rest @ ..] = bytes else {
        return Err(RecordError::Short { at: len });
    };
    let size = *size as usize;
    if rest.len() < size {
        return Err(RecordError::Short { at: len });
    }
    Ok(Some(&rest[..size]))
}

/// Reads a lock record as TiKV writes it: a kind byte, the primary's length in the zigzag form of
/// LEB128, the primary, the start timestamp and the time to live in LEB128. The time to live is 0
/// where the record ends before it, and bytes behind it are passed over. Faults are looked for from
/// left to right.
#[tactic(auto, unfolding(crate::specs::Records::lock_at))]
pub fn read_lock(value: &[u8]) -> Result<LockRec<'_>, RecordError>
    ensures { seen lock_view result ≡ lock_at value.now }
{
    let len = value.len() as u64;
    let (kind, rest) = lock_kind_of(value)?;
    let (primary, rest) = text_of(len, rest)?;
    let (start, rest) = number_in(len, rest)?;
    let ttl = ttl_of(len, rest)?;
    Ok(LockRec {
        kind,
        primary,
        start,
        ttl,
    })
}

#[tactic(auto, unfolding(crate::specs::Records::lock_kind_at))]
fn lock_kind_of(bytes: &[u8]) -> Result<(LockKind, &[u8]), RecordError>
    ensures { seen (λ x. (x.0, x.1.now)) result ≡ lock_kind_at bytes.now }
{
    match bytes {
        [] => Err(RecordError::Short { at: 0 }),
        [b'P', rest @ ..] => Ok((LockKind::Put, rest)),
        [b'D', rest @ ..] => Ok((LockKind::Delete, rest)),
        [b'L', rest @ ..] => Ok((LockKind::Lock, rest)),
        [b'S', rest @ ..] => Ok((LockKind::Pessimistic, rest)),
        [byte, ..] => Err(RecordError::Kind { byte: *byte }),
    }
}

// A number in a record of this length.
#[inline(always)]
fn number_in(len: u64, bytes: &[u8]) -> Result<(u64, &[u8]), RecordError>
    requires { len < 2 ^ 63 }
    ensures { seen (λ x. (x.0, x.1.now)) result ≡ number_in len bytes.now }
{
    number_at(len.saturating_sub(bytes.len() as u64), bytes)
}

// A text behind its length, in a record of this length.
#[tactic(auto, unfolding(crate::specs::Records::text_at))]
fn text_of(len: u64, bytes: &[u8]) -> Result<(&[u8], &[u8]), RecordError>
    requires { len < 2 ^ 63 }
    ensures { seen (λ x. (x.0.now, x.1.now)) result ≡ text_at len bytes.now }
{
    let (size, rest) = number_in(len, bytes)?;
    if size % 2 == 1 {
        return Err(RecordError::Number {
            at: len.saturating_sub(bytes.len() as u64),
        });
    }
    let size = (size / 2) as usize;
    if rest.len() < size {
        return Err(RecordError::Short { at: len });
    }
    Ok(rest.split_at(size))
}

#[tactic(auto, unfolding(crate::specs::Records::ttl_at))]
fn ttl_of(len: u64, bytes: &[u8]) -> Result<u64, RecordError>
    requires { len < 2 ^ 63 }
    ensures { seen (λ x. x) result ≡ ttl_at len bytes.now }
{
    if bytes.is_empty() {
        return Ok(0);
    }
    let (ttl, _) = number_in(len, bytes)?;
    Ok(ttl)
}
