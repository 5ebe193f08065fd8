// What changes do to each family at the end.
ghost use Rattle.std.specs.Prelude.{◌≡◌, ℕ, ℤ, List, IfOk, OnOk, Some, cond};
ghost use Rattle.std.specs.BTreeMap.{get, insert_entry, is_at};
ghost use Rattle.std.specs.List.Sorted.{IsStrictlySortedBy};
ghost use Rattle.std.specs.Map.{keys_of};
ghost use Rattle.std.specs.Ordering.{int_cmp};
ghost use Rattle.committed_log.specs.Store.{Store, value_cmp};
ghost use Rattle.region_state.specs.Folding.{after_one, after_all};
ghost use Rattle.region_state.specs.Settling.{lock_change, lock_changes};
ghost use Rattle.region_state.specs.Standing.{Stands};

use column_block::Memory;
use committed_log::{FamilyOp, Lock};
use flash_types::{Handle, Ts};
use log_codec::OpBytes;
use std::alloc::Global;
use std::collections::BTreeMap;

/// What changes do to the default family: at each place a value, or none where it is taken out.
pub type ValueChanges = BTreeMap<(Handle, Ts), Option<OpBytes>>;

/// What changes do to the lock family: at each handle a lock, or none where it is taken out.
pub type LockChanges = BTreeMap<Handle, Option<Lock>>;

fn note_value(
    changes: &mut ValueChanges,
    handle: Handle,
    start: Ts,
    value: Option<OpBytes>,
) -> Result<(), Memory>
    ensures { OnOk result ((q : ℤ × ℕ) → get value_cmp changes.new q ≡ cond (is_at (value_cmp (handle, start)) q) (Some value) (get value_cmp changes.old q)) }
{
    match changes.insert((handle, start), value) {
        Ok(_) => Ok(()),
        Err(_) => Err(Memory),
    }
}

/// Adds what one change does to the default family.
pub fn change_value(changes: &mut ValueChanges, op: &FamilyOp) -> Result<(), Memory>
    ensures { OnOk result ((values : List ((ℤ × ℕ) × List ℕ)) (s : Store) → Stands values changes.old s → Stands values changes.new (after_one s op.now)) }
{
    match op {
        FamilyOp::Value {
            handle,
            start,
            bytes,
        } => {
            let Ok(bytes) = bytes.share() else {
                return Err(Memory);
            };
            note_value(changes, *handle, *start, Some(bytes))
        }
        FamilyOp::DropValue { handle, start } => note_value(changes, *handle, *start, None),
        FamilyOp::Lock { .. } => Ok(()),
        FamilyOp::Unlock { .. } => Ok(()),
        FamilyOp::Write { .. } => Ok(()),
    }
}

/// What changes do to the default family, all in order.
pub fn value_changes(alloc: Global, ops: &[FamilyOp]) -> Result<ValueChanges, Memory>
    ensures { IfOk result (λ changes. (s : Store) → IsStrictlySortedBy value_cmp (keys_of s.values) → Stands s.values changes (after_all s ops.now)) }
{
    let mut changes = BTreeMap::new(alloc);
    for op in ops {
        change_value(&mut changes, op)?;
    }
    Ok(changes)
}

fn note_lock(changes: &mut LockChanges, handle: Handle, lock: Option<Lock>) -> Result<(), Memory>
    ensures { OnOk result (changes.new.entries ≡ insert_entry int_cmp changes.old.entries handle lock) }
{
    match changes.insert(handle, lock) {
        Ok(_) => Ok(()),
        Err(_) => Err(Memory),
    }
}

// Adds what one change does to the lock family.
fn change_lock(changes: &mut LockChanges, op: &FamilyOp) -> Result<(), Memory>
    ensures { OnOk result (changes.new.entries ≡ lock_change changes.old.entries op.now) }
{
    match op {
        FamilyOp::Lock {
            handle,
            kind,
            start,
        } => note_lock(
            changes,
            *handle,
            Some(Lock {
                kind: *kind,
                start: *start,
            }),
        ),
        FamilyOp::Unlock { handle } => note_lock(changes, *handle, None),
        FamilyOp::Value { .. } => Ok(()),
        FamilyOp::DropValue { .. } => Ok(()),
        FamilyOp::Write { .. } => Ok(()),
    }
}

/// What changes do to the lock family, all in order.
pub fn lock_changes(alloc: Global, ops: &[FamilyOp]) -> Result<LockChanges, Memory>
    ensures { IfOk result (λ changes. changes.entries ≡ lock_changes ops.now) }
{
    let mut changes = BTreeMap::new(alloc);
    for op in ops {
        change_lock(&mut changes, op)?;
    }
    Ok(changes)
}
