// Ops of transactions on rows of table 1.
ghost use Rattle.std.specs.Prelude.{◌≡◌, ◌+◌, ◌*◌, ◌<◌, ◌^◌, ◌++◌, ◌∷◌, [], pos, IfOk, OnOk, IfSome, length, option_map};
ghost use Rattle.kv_codec.specs.Spelling as spelling;
ghost use Rattle.log_codec.specs.declared.entry.Family.TheVariants as family;
ghost use Rattle.generator.specs.Transactions.{put, delete, timed_key};

use flash_list::SharedBytes;
use kv_codec::{LockKind, WriteKind, encode_key, put_ts, write_lock, write_write};
use log_codec::{Family, Op, OpBytes};
use row_codec::Memory;
use std::alloc::Global;

fn shared(bytes: Vec<u8>) -> Result<OpBytes, Memory>
    ensures { IfOk result (λ it. it ≡ bytes.items) }
{
    match SharedBytes::from_vec(bytes) {
        Ok(it) => Ok(it),
        Err(_) => Err(Memory),
    }
}

fn key_bytes(alloc: Global, handle: i64) -> Result<Vec<u8>, Memory>
    ensures { IfOk result (λ key. key.items ≡ spelling.key (pos 1) handle) }
{
    let mut key = Vec::new(alloc);
    match encode_key(1, handle, &mut key) {
        Ok(()) => Ok(key),
        Err(_) => Err(Memory),
    }
}

fn timed_key(alloc: Global, handle: i64, ts: u64) -> Result<OpBytes, Memory>
    ensures { IfOk result (λ key. key ≡ timed_key (pos 1) handle ts) }
{
    let mut key = key_bytes(alloc, handle)?;
    match put_ts(ts, &mut key) {
        Ok(()) => shared(key),
        Err(_) => Err(Memory),
    }
}

fn lock_bytes(alloc: Global, kind: LockKind, primary: &[u8], start: u64) -> Result<OpBytes, Memory>
    ensures { IfOk result (λ it. it ≡ spelling.lock (record { kind = kind; primary = primary.now; start = start; ttl = 3000 })) }
{
    let mut bytes = Vec::new(alloc);
    match write_lock(kind, primary, start, 3000, &mut bytes) {
        Ok(()) => shared(bytes),
        Err(_) => Err(Memory),
    }
}

fn write_bytes(
    alloc: Global,
    kind: WriteKind,
    start: u64,
    short: Option<&[u8]>,
) -> Result<OpBytes, Memory>
    requires { IfSome (option_map (λ s. s.now) short) (λ s. length s < 256) }
    ensures { IfOk result (λ it. it ≡ spelling.write (record { kind = kind; start = start; short = option_map (λ s. s.now) short.entry })) }
{
    let mut bytes = Vec::new(alloc);
    match write_write(kind, start, short, &mut bytes) {
        Ok(()) => shared(bytes),
        Err(_) => Err(Memory),
    }
}

/// A value in the default family.
pub fn value_op(alloc: Global, handle: i64, start: u64, value: Vec<u8>) -> Result<Op, Memory>
    ensures { IfOk result (λ op. op ≡ put family.Default (timed_key (pos 1) handle start) value.items) }
{
    let key = timed_key(alloc, handle, start)?;
    let value = shared(value)?;
    Ok(Op {
        put: true,
        family: Family::Default,
        key,
        value,
    })
}

/// A lock whose primary is its own row.
pub fn lock_op(alloc: Global, handle: i64, kind: LockKind, start: u64) -> Result<Op, Memory>
    ensures { IfOk result (λ op. op ≡ put family.Lock (spelling.key (pos 1) handle) (spelling.lock (record { kind = kind; primary = spelling.key (pos 1) handle; start = start; ttl = 3000 }))) }
{
    let key = key_bytes(alloc, handle)?;
    let value = lock_bytes(alloc, kind, &key, start)?;
    let key = shared(key)?;
    Ok(Op {
        put: true,
        family: Family::Lock,
        key,
        value,
    })
}

/// The lock is taken away.
pub fn unlock_op(alloc: Global, handle: i64) -> Result<Op, Memory>
    ensures { IfOk result (λ op. op ≡ delete family.Lock (spelling.key (pos 1) handle)) }
{
    let key = key_bytes(alloc, handle)?;
    let key = shared(key)?;
    Ok(Op {
        put: false,
        family: Family::Lock,
        key,
        value: SharedBytes::new(),
    })
}

/// A write record.
pub fn write_op(
    alloc: Global,
    handle: i64,
    commit: u64,
    kind: WriteKind,
    start: u64,
    short: Option<&[u8]>,
) -> Result<Op, Memory>
    requires { IfSome (option_map (λ s. s.now) short) (λ s. length s < 256) }
    ensures { IfOk result (λ op. op ≡ put family.Write (timed_key (pos 1) handle commit) (spelling.write (record { kind = kind; start = start; short = option_map (λ s. s.now) short.entry }))) }
{
    let key = timed_key(alloc, handle, commit)?;
    let value = write_bytes(alloc, kind, start, short)?;
    Ok(Op {
        put: true,
        family: Family::Write,
        key,
        value,
    })
}
