// The changes of an entry's ops.
ghost use Rattle.std.specs.Prelude.{◌≡◌, ◌<◌, ◌≤◌, ◌^◌, length, IfOk, OnOk, [], ◌++◌, Some, slice_get};
ghost use Rattle.std.specs.Option.{option_to_list};
ghost use Rattle.raft_apply.specs.Entries.{change_in, change_at, changes};

use crate::command::FamilyOps;
use column_block::Memory;
use committed_log::{ChangeError, Logs, change_of};
use flash_list::Items;
use flash_types::HandleRange;
use log_codec::Op;
use std::alloc::Global;

// Adds the change of an op, if it makes one.
fn add_change(found: &mut FamilyOps, table: i64, op: &Op) -> Result<(), Memory>
    ensures { OnOk result (found.new ≡ found.old ++ option_to_list (change_in table op.now)) }
{
    let every_handle = HandleRange {
        low: i64::MIN,
        high: None,
    };
    match change_of(table, every_handle, op) {
        Ok(Some(change)) => match found.push(change) {
            Ok(()) => Ok(()),
            Err(_) => Err(Memory),
        },
        Ok(None) => Ok(()),
        Err(ChangeError::BadKey) => Ok(()),
        Err(ChangeError::BadRecord) => Ok(()),
        Err(ChangeError::Memory) => Err(Memory),
    }
}

fn op_at(ops: &[Op], k: u32) -> &Op
    requires { k < length ops.now }
    ensures { slice_get ops.now k ≡ Some result.now }
{
    &ops[k as usize]
}

// Adds the change of the op at place k of the entry at a position, unless that is a repeat.
fn add_at(
    found: &mut FamilyOps,
    logs: &Logs,
    position: u64,
    ops: &[Op],
    k: u32,
) -> Result<(), Memory>
    requires position { position < length logs.now.entries }
    requires place { k < length ops.now }
    ensures { OnOk result (found.new ≡ found.old ++ option_to_list (change_at logs.now position ops.now k)) }
{
    if logs.repeats(position, k) {
        return Ok(());
    }
    add_change(found, logs.table(), op_at(ops, k))
}

// No changes, with room for so many.
fn with_room(alloc: Global, count: usize) -> Result<FamilyOps, Memory>
    ensures { IfOk result (λ found. found ≡ []) }
{
    match Vec::with_capacity(alloc, count) {
        Ok(list) => Ok(Items::from_vec(list)),
        Err(_) => Err(Memory),
    }
}

/// The changes of the ops of the entry at a position, in order, without those that change nothing.
pub fn changes(alloc: Global, logs: &Logs, position: u64, ops: &[Op]) -> Result<FamilyOps, Memory>
    requires position { position < length logs.now.entries }
    requires few { length ops.now < 2 ^ 32 }
    ensures { IfOk result (λ found. found ≡ changes logs.now position ops.now) }
{
    let mut found = with_room(alloc, ops.len())?;
    for k in 0..ops.len() as u32 {
        add_at(&mut found, logs, position, ops, k)?;
    }
    Ok(found)
}
