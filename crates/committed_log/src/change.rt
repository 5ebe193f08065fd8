// The change that an op makes.
ghost use Rattle.std.specs.Prelude.{◌≡◌, ◌+◌, ◌≤◌, ◌<◌, Ok, length, take, drop, position, nat_lt, IfOk, IfErr, IfSome, IsSome};
ghost use Rattle.kv_codec.specs.Records.{write_at};
ghost use Rattle.kv_codec.specs.Views.{view};
ghost use Rattle.committed_log.specs.Changes.{timed_key, key_at, commit_of, put_of, delete_of, change_of};
ghost use Rattle.committed_log.specs.Outcomes.{IsChange};
ghost use Rattle.committed_log.specs.declared.change.ChangeError.TheVariants.{Memory};
ghost use Rattle.committed_log.specs.Shorts.{number_len, short_place};

use crate::op::FamilyOp;
use flash_types::HandleRange;
use kv_codec::{KeyError, WriteKind, WriteRec, read_lock, read_write, record_of, split_ts};
use log_codec::{Family, Op, OpBytes};

/// Why an op's change can't be told.
#[derive(Clone, Copy, Debug, PartialEq, Eq)]
pub enum ChangeError {
    /// The key is no encoding, or a record key of a handle outside of the region.
    BadKey,
    /// The value is no record of its family.
    BadRecord,
    /// Memory ran out. It comes only where the change holds bytes of the op.
    Memory,
}

fn timed_key(table: i64, key: &[u8]) -> Result<Option<(i64, u64)>, KeyError>
    ensures { result ≡ timed_key table key.now }
{
    let (front, ts) = split_ts(key)?;
    match record_of(front, table) {
        Ok(Some(handle)) => Ok(Some((handle, ts))),
        Ok(None) => Ok(None),
        Err(error) => Err(error),
    }
}

fn key_at(table: i64, family: Family, key: &[u8]) -> Result<Option<(i64, u64)>, KeyError>
    ensures { result ≡ key_at table family key.now }
{
    match family {
        Family::Default => timed_key(table, key),
        Family::Write => timed_key(table, key),
        Family::Lock => match record_of(key, table) {
            Ok(Some(handle)) => Ok(Some((handle, 0))),
            Ok(None) => Ok(None),
            Err(error) => Err(error),
        },
    }
}

// The place of the first byte below 128, which is the last of a number in LEB128.
fn last_of_number(bytes: &[u8]) -> Option<usize>
    ensures place { result ≡ position (λ b. nat_lt b 128) bytes.now }
    ensures within { IfSome result (λ place. place < length bytes.now) }
{
    bytes.iter().position(|byte| *byte < 128)
}

// How many bytes a number in LEB128 takes.
fn number_len(bytes: &[u8]) -> usize
    ensures size { result ≡ number_len bytes.now }
    ensures few { result ≤ length bytes.now + 1 }
{
    match last_of_number(bytes) {
        Some(place) => place + 1,
        None => bytes.len() + 1,
    }
}

// Where a write record has its short value.
fn short_place(bytes: &[u8]) -> usize
    requires { 1 ≤ length bytes.now }
    ensures { result ≡ short_place bytes.now }
{
    let (_, rest) = bytes.split_at(1);
    1 + number_len(rest) + 2
}

// Some of the bytes, which are shared and not copied.
fn cut(bytes: &OpBytes, from: usize, len: usize) -> Result<OpBytes, ChangeError>
    requires { from + len ≤ length bytes.now }
    ensures ok { IfOk result (λ piece. piece ≡ take len (drop from bytes.now)) }
    ensures err { IfErr result (λ e. e ≡ Memory) }
{
    let Ok(mut rest) = bytes.share() else {
        return Err(ChangeError::Memory);
    };
    rest.advance(from);
    match rest.split_to(len) {
        Ok(piece) => Ok(piece),
        Err(_) => Err(ChangeError::Memory),
    }
}

// The short value of a write record.
fn short_of(bytes: &OpBytes, write: &WriteRec<'_>) -> Result<Option<OpBytes>, ChangeError>
    requires { write_at bytes.now ≡ Ok (view write.now) }
    ensures ok { IfOk result (λ short. short ≡ (view write.now).short) }
    ensures err { IfErr result (λ e. (e ≡ Memory) × IsSome (view write.now).short) }
{
    match write.short {
        None => Ok(None),
        Some(short) => {
            let place = short_place(bytes.as_slice());
            match cut(bytes, place, short.len()) {
                Ok(short) => Ok(Some(short)),
                Err(error) => Err(error),
            }
        }
    }
}

fn commit_of(
    handle: i64,
    ts: u64,
    bytes: &OpBytes,
    write: &WriteRec<'_>,
) -> Result<Option<FamilyOp>, ChangeError>
    requires { write_at bytes.now ≡ Ok (view write.now) }
    ensures { IsChange result (Ok (commit_of handle ts (view write.now))) }
{
    match write.kind {
        WriteKind::Put => {
            let short = match short_of(bytes, write) {
                Ok(short) => short,
                Err(error) => return Err(error),
            };
            Ok(Some(FamilyOp::Write {
                handle,
                ts,
                start: write.start,
                gone: false,
                short,
            }))
        }
        WriteKind::Delete => Ok(Some(FamilyOp::Write {
            handle,
            ts,
            start: write.start,
            gone: true,
            short: None,
        })),
        WriteKind::Lock => Ok(None),
        WriteKind::Rollback => Ok(None),
    }
}

fn put_of(
    family: Family,
    handle: i64,
    ts: u64,
    value: &OpBytes,
) -> Result<Option<FamilyOp>, ChangeError>
    ensures { IsChange result (put_of family handle ts value.now) }
{
    match family {
        Family::Default => match value.share() {
            Ok(bytes) => Ok(Some(FamilyOp::Value {
                handle,
                start: ts,
                bytes,
            })),
            Err(_) => Err(ChangeError::Memory),
        },
        Family::Lock => match read_lock(value.as_slice()) {
            Ok(lock) => Ok(Some(FamilyOp::Lock {
                handle,
                kind: lock.kind,
                start: lock.start,
            })),
            Err(_) => Err(ChangeError::BadRecord),
        },
        Family::Write => match read_write(value.as_slice()) {
            Ok(write) => commit_of(handle, ts, value, &write),
            Err(_) => Err(ChangeError::BadRecord),
        },
    }
}

fn delete_of(family: Family, handle: i64, ts: u64) -> Option<FamilyOp>
    ensures { result ≡ delete_of family handle ts }
{
    match family {
        Family::Default => Some(FamilyOp::DropValue { handle, start: ts }),
        Family::Lock => Some(FamilyOp::Unlock { handle }),
        Family::Write => None,
    }
}

/// The change that an op makes in a region with this range of handles, if any. A well-formed key
/// that is no record key of the table makes none: it is of another table, or an index key. Keys and
/// records are as TiKV writes them; a commit's short value stands in its write record.
///
/// The change shares the op's bytes, and no byte is copied. `BadKey` and `BadRecord` come exactly
/// where the op is at fault so, the key's fault first. `Memory` comes only where the change has
/// bytes to share.
pub fn change_of(table: i64, range: HandleRange, op: &Op) -> Result<Option<FamilyOp>, ChangeError>
    ensures { IsChange result (change_of table range op.now) }
{
    match key_at(table, op.family, op.key.as_slice()) {
        Err(_) => Err(ChangeError::BadKey),
        Ok(None) => Ok(None),
        Ok(Some((handle, ts))) => {
            if !range.holds(handle) {
                return Err(ChangeError::BadKey);
            }
            if op.put {
                put_of(op.family, handle, ts, &op.value)
            } else {
                Ok(delete_of(op.family, handle, ts))
            }
        }
    }
}
