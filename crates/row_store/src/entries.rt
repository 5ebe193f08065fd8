// The row store, entry by entry.
ghost use Rattle.std.specs.Prelude.{◌≡◌, OnOk, IfOk};
ghost use Rattle.committed_log.specs.Store.{after_op, after_ops, cleared, families_after, after_entry, store_of};

use crate::Stop;
use crate::regions::range_of;
use crate::store::Store;
use column_block::Memory;
use committed_log::{ChangeError, change_of};
use flash_types::HandleRange;
use log_codec::{Body, Entry, Op};
use std::alloc::Global;

/// Does an op of the entry at a position, whose region has this range.
fn do_op(
    table: i64,
    range: HandleRange,
    position: u64,
    store: &mut Store,
    op: &Op,
) -> Result<(), Memory>
    ensures { OnOk result (store.new ≡ after_op table range position store.old op.now) }
{
    match change_of(table, range, op) {
        Err(ChangeError::Memory) => Err(Memory),
        Err(ChangeError::BadKey) => Ok(()),
        Err(ChangeError::BadRecord) => Ok(()),
        Ok(None) => Ok(()),
        Ok(Some(change)) => store.change(position, change),
    }
}

fn do_ops(
    table: i64,
    range: HandleRange,
    position: u64,
    store: &mut Store,
    ops: &[Op],
) -> Result<(), Memory>
    ensures { OnOk result (store.new ≡ after_ops table range position store.old ops.now) }
{
    for op in ops {
        if do_op(table, range, position, store, op).is_err() {
            return Err(Memory);
        }
    }
    Ok(())
}

// The families after an entry of a region that has this range where it is there.
fn do_body(
    alloc: Global,
    table: i64,
    position: u64,
    there: Option<HandleRange>,
    body: &Body,
    store: &mut Store,
) -> Result<(), Memory>
    ensures { OnOk result (store.new ≡ families_after table position there body.now store.old) }
{
    match body {
        Body::Write { ops } => match there {
            Some(range) => do_ops(table, range, position, store, ops.as_slice()),
            None => Ok(()),
        },
        Body::Remove => match there {
            Some(range) => store.clear(alloc, range),
            None => Ok(()),
        },
        Body::Install { low, high, ops, .. } => install(
            alloc,
            table,
            position,
            HandleRange {
                low: *low,
                high: *high,
            },
            ops.as_slice(),
            store,
        ),
        Body::Open { .. } => Ok(()),
        Body::Split { .. } => Ok(()),
        Body::Prepare { .. } => Ok(()),
        Body::Commit { .. } => Ok(()),
        Body::Empty => Ok(()),
    }
}

fn install(
    alloc: Global,
    table: i64,
    position: u64,
    range: HandleRange,
    ops: &[Op],
    store: &mut Store,
) -> Result<(), Memory>
    ensures { OnOk result (store.new ≡ after_ops table range position (cleared range store.old) ops.now) }
{
    if store.clear(alloc, range).is_err() {
        return Err(Memory);
    }
    do_ops(table, range, position, store, ops)
}

// The store after the entry at a position.
fn do_entry(
    alloc: Global,
    table: i64,
    position: u64,
    store: &mut Store,
    entry: &Entry,
) -> Result<(), Stop>
    ensures { OnOk result (store.new ≡ after_entry table position store.old entry.now) }
{
    let there = range_of(store.state(entry.region));
    match do_body(alloc, table, position, there, &entry.body, store) {
        Ok(()) => store.advance(entry),
        Err(_) => Err(Stop::Memory),
    }
}

/// The store after these entries of a table's log.
pub fn store_of(alloc: Global, table: i64, entries: &[Entry]) -> Result<Store, Stop>
    ensures { IfOk result (λ store. store ≡ store_of table entries.now) }
{
    let mut store = Store::new(alloc);
    let mut position = 0u64;
    for entry in entries {
        if let Err(stop) = do_entry(alloc, table, position, &mut store, entry) {
            return Err(stop);
        }
        position += 1;
    }
    Ok(store)
}
