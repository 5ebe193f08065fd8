// The entries of the generated log.
ghost use Rattle.std.specs.Prelude.{◌≡◌, ◌+◌, ◌-◌, ◌*◌, ◌<◌, ◌^◌, ◌∷◌, [], length, pos, negsuc, None, IfOk};
ghost use Rattle.log_codec.specs.declared.entry.Body.TheVariants as body;
ghost use Rattle.generator.specs.Generated.{transaction, value, row_of, prewritten, committed, prepared, merged, split, entry as entry_of};
ghost use Rattle.generator.specs.Transactions.{prewrite, write_op};

use crate::ops::{lock_op, unlock_op, value_op, write_op};
use crate::random::{handle_of, is_delete, is_long, region_of, row_of};
use crate::values::value_of;
use flash_list::Items;
use kv_codec::{LockKind, WriteKind};
use log_codec::{Body, Entry, Op, Ops};
use row_codec::Memory;
use std::alloc::Global;

fn one(alloc: Global, op: Op) -> Result<Ops, Memory>
    ensures { IfOk result (λ ops. ops ≡ op ∷ []) }
{
    let mut ops = Items::new(alloc);
    match ops.push(op) {
        Ok(()) => Ok(ops),
        Err(_) => Err(Memory),
    }
}

fn two(alloc: Global, first: Op, second: Op) -> Result<Ops, Memory>
    ensures { IfOk result (λ ops. ops ≡ first ∷ second ∷ []) }
{
    let mut ops = one(alloc, first)?;
    match ops.push(second) {
        Ok(()) => Ok(ops),
        Err(_) => Err(Memory),
    }
}

// The value that a transaction puts.
fn row_value(alloc: Global, x: u64, i: u64) -> Result<Vec<u8>, Memory>
    ensures value { IfOk result (λ bytes. bytes.items ≡ value (row_of x) i) }
    ensures few { IfOk result (λ bytes. length bytes.items < 256) }
{
    match value_of(alloc, row_of(x), i) {
        Ok(bytes) => Ok(bytes),
        Err(_) => Err(Memory),
    }
}

// The ops of a transaction's first entry.
fn prewrite_ops(alloc: Global, x: u64, i: u64) -> Result<Ops, Memory>
    requires { i < 2 ^ 40 }
    ensures { IfOk result (λ ops. ops ≡ prewrite (pos 1) 3000 (transaction x i)) }
{
    let handle = handle_of(x);
    let start = 10 * i + 10;
    if is_delete(x) {
        let lock = lock_op(alloc, handle, LockKind::Delete, start)?;
        return one(alloc, lock);
    }
    let lock = lock_op(alloc, handle, LockKind::Put, start)?;
    if is_long(i) {
        let bytes = row_value(alloc, x, i)?;
        let value = value_op(alloc, handle, start, bytes)?;
        return two(alloc, value, lock);
    }
    one(alloc, lock)
}

// The write record of a transaction.
fn record_op(alloc: Global, x: u64, i: u64) -> Result<Op, Memory>
    requires { i < 2 ^ 40 }
    ensures { IfOk result (λ op. op ≡ write_op (pos 1) (transaction x i)) }
{
    let handle = handle_of(x);
    let start = 10 * i + 10;
    if is_delete(x) {
        return write_op(alloc, handle, start + 5, WriteKind::Delete, start, None);
    }
    if is_long(i) {
        return write_op(alloc, handle, start + 5, WriteKind::Put, start, None);
    }
    let value = row_value(alloc, x, i)?;
    write_op(
        alloc,
        handle,
        start + 5,
        WriteKind::Put,
        start,
        Some(&value),
    )
}

/// The first entry of the transaction `i` with this random number, behind this index of its region.
pub fn prewritten(alloc: Global, x: u64, i: u64, last: u64) -> Result<Entry, Memory>
    requires few { i < 2 ^ 40 }
    requires low { last < 2 ^ 40 }
    ensures { IfOk result (λ e. e ≡ prewritten x i last) }
{
    let ops = prewrite_ops(alloc, x, i)?;
    Ok(Entry {
        region: region_of(x),
        index: last + 1,
        body: Body::Write { ops },
    })
}

/// The second one.
pub fn committed(alloc: Global, x: u64, i: u64, last: u64) -> Result<Entry, Memory>
    requires few { i < 2 ^ 40 }
    requires low { last < 2 ^ 40 }
    ensures { IfOk result (λ e. e ≡ committed x i last) }
{
    let record = record_op(alloc, x, i)?;
    let unlock = unlock_op(alloc, handle_of(x))?;
    let ops = two(alloc, record, unlock)?;
    Ok(Entry {
        region: region_of(x),
        index: last + 2,
        body: Body::Write { ops },
    })
}

/// The entry that opens region 1 with all handles.
pub fn opened() -> Entry
    ensures { result ≡ entry_of 1 5 (body.Open 1 1 (negsuc (2 ^ 63 - 1)) None) }
{
    Entry {
        region: 1,
        index: 5,
        body: Body::Open {
            conf_ver: 1,
            version: 1,
            low: i64::MIN,
            high: None,
        },
    }
}

/// The split of one of the first seven regions.
pub fn split(region: u32) -> Entry
    requires { region < 8 }
    ensures { result ≡ split region }
{
    Entry {
        region,
        index: 6,
        body: Body::Split {
            at: 1000 * region as i64,
            child: region + 1,
        },
    }
}

/// Region 8 gets ready to be merged into region 7.
pub fn prepared(last: u64) -> Entry
    requires { last < 2 ^ 40 }
    ensures { result ≡ prepared last }
{
    Entry {
        region: 8,
        index: last + 1,
        body: Body::Prepare { target: 7 },
    }
}

/// Region 7 takes region 8 in.
pub fn merged(last: u64) -> Entry
    requires { last < 2 ^ 40 }
    ensures { result ≡ merged last }
{
    Entry {
        region: 7,
        index: last + 1,
        body: Body::Commit { source: 8 },
    }
}
