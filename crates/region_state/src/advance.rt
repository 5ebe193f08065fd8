// Changes of the families, made where they stand.
ghost use Rattle.std.specs.Prelude.{◌≡◌, ◌≤◌, ℕ, ℤ, List, true, length, take, IfOk, OnOk, OnErr, if◌then◌else◌};
ghost use Rattle.std.specs.List.{list_all};
ghost use Rattle.committed_log.specs.Store.{Store};
ghost use Rattle.committed_log.specs.declared.store.Lock.{Lock as Held};
ghost use Rattle.region_state.specs.Folding.{after_one, after_all};
ghost use Rattle.region_state.specs.Standing.{AreOf};
ghost use Rattle.region_state.specs.Undoing.{puts_nothing, CanGoBack};

use crate::changes::{lock_changes, value_changes};
use crate::journal::Journal;
use crate::region::{Locks, Values};
use crate::settle::{make_room, settle};
use crate::union::{remove, take_out};
use column_block::Memory;
use committed_log::{FamilyOp, Lock};
use flash_types::{Handle, Ts};
use log_codec::OpBytes;
use std::alloc::Global;

/// What stood in the families where changes put something.
#[derive(Drop)]
pub struct Puts {
    values: Journal<(Handle, Ts), OpBytes>,
    locks: Journal<Handle, Lock>,
}

// Puts what a change puts. It answers whether the change takes nothing out; one that does isn't made.
fn put_one(
    values: &mut Values,
    locks: &mut Locks,
    puts: &mut Puts,
    op: &FamilyOp,
) -> Result<bool, Memory>
    ensures ok { IfOk result (λ made. (s : Store) → AreOf s values.old.entries locks.old.entries → AreOf (if made then after_one s op.now else s) values.new.entries locks.new.entries) }
    ensures back { (vs : List ((ℤ × ℕ) × List ℕ)) (ls : List (ℤ × Held)) → CanGoBack values.old.entries locks.old.entries puts.old vs ls → CanGoBack values.new.entries locks.new.entries puts.new vs ls }
{
    match op {
        FamilyOp::Value {
            handle,
            start,
            bytes,
        } => {
            let Ok(bytes) = bytes.share() else {
                return Err(Memory);
            };
            match puts.values.put(values, (*handle, *start), bytes) {
                Ok(()) => Ok(true),
                Err(_) => Err(Memory),
            }
        }
        FamilyOp::Lock {
            handle,
            kind,
            start,
        } => {
            let lock = Lock {
                kind: *kind,
                start: *start,
            };
            match puts.locks.put(locks, *handle, lock) {
                Ok(()) => Ok(true),
                Err(_) => Err(Memory),
            }
        }
        FamilyOp::DropValue { .. } => Ok(false),
        FamilyOp::Unlock { .. } => Ok(false),
        FamilyOp::Write { .. } => Ok(true),
    }
}

// Makes the changes before the first that takes something out, and answers how many they are.
fn put_first(
    values: &mut Values,
    locks: &mut Locks,
    puts: &mut Puts,
    ops: &[FamilyOp],
) -> Result<usize, Memory>
    ensures within { IfOk result (λ made. made ≤ length ops.now) }
    ensures ok { IfOk result (λ made. (s : Store) → AreOf s values.old.entries locks.old.entries → AreOf (after_all s (take made ops.now)) values.new.entries locks.new.entries) }
    ensures back { (vs : List ((ℤ × ℕ) × List ℕ)) (ls : List (ℤ × Held)) → CanGoBack values.old.entries locks.old.entries puts.old vs ls → CanGoBack values.new.entries locks.new.entries puts.new vs ls }
{
    for (k, op) in ops.iter().enumerate() {
        match put_one(values, locks, puts, op) {
            Ok(true) => {}
            Ok(false) => return Ok(k),
            Err(_) => return Err(Memory),
        }
    }
    Ok(ops.len())
}

fn puts_nothing(op: &FamilyOp) -> bool
    ensures { result ≡ puts_nothing op.now }
{
    !matches!(op, FamilyOp::Value { .. } | FamilyOp::Lock { .. })
}

fn put_nothing(ops: &[FamilyOp]) -> bool
    ensures { result ≡ list_all puts_nothing ops.now }
{
    for op in ops {
        if !puts_nothing(op) {
            return false;
        }
    }
    true
}

// Takes out what a change takes out.
fn take_one(values: &mut Values, locks: &mut Locks, op: &FamilyOp)
    requires { puts_nothing op.now ≡ true }
    ensures { (s : Store) → AreOf s values.old.entries locks.old.entries → AreOf (after_one s op.now) values.new.entries locks.new.entries }
{
    match op {
        FamilyOp::DropValue { handle, start } => remove(values, &(*handle, *start)),
        FamilyOp::Unlock { handle } => remove(locks, handle),
        _ => {}
    }
}

// Takes out what changes take out that put nothing. It takes no memory.
fn take_all(values: &mut Values, locks: &mut Locks, ops: &[FamilyOp])
    requires { list_all puts_nothing ops.now ≡ true }
    ensures { (s : Store) → AreOf s values.old.entries locks.old.entries → AreOf (after_all s ops.now) values.new.entries locks.new.entries }
{
    for op in ops {
        take_one(values, locks, op);
    }
}

// Makes changes in any order: what each key has at the end is found first. After `Err` the families
// are as before.
fn settle_all(
    alloc: Global,
    values: &mut Values,
    locks: &mut Locks,
    ops: &[FamilyOp],
) -> Result<(), Memory>
    ensures ok { OnOk result ((s : Store) → AreOf s values.old.entries locks.old.entries → AreOf (after_all s ops.now) values.new.entries locks.new.entries) }
    ensures err_values { OnErr result (values.new.entries ≡ values.old.entries) }
    ensures err_locks { OnErr result (locks.new.entries ≡ locks.old.entries) }
{
    let value_changes = value_changes(alloc, ops)?;
    let lock_changes = lock_changes(alloc, ops)?;
    let Ok(fresh) = make_room(alloc, values, &value_changes) else {
        return Err(Memory);
    };
    let Ok(_room) = make_room(alloc, locks, &lock_changes) else {
        take_out(values, &fresh);
        return Err(Memory);
    };
    settle(values, value_changes);
    settle(locks, lock_changes);
    Ok(())
}

// Makes the changes from the first on that takes something out. After `Err` the families are as
// before.
fn finish(
    alloc: Global,
    values: &mut Values,
    locks: &mut Locks,
    ops: &[FamilyOp],
) -> Result<(), Memory>
    ensures ok { OnOk result ((s : Store) → AreOf s values.old.entries locks.old.entries → AreOf (after_all s ops.now) values.new.entries locks.new.entries) }
    ensures err_values { OnErr result (values.new.entries ≡ values.old.entries) }
    ensures err_locks { OnErr result (locks.new.entries ≡ locks.old.entries) }
{
    if put_nothing(ops) {
        take_all(values, locks, ops);
        return Ok(());
    }
    settle_all(alloc, values, locks, ops)
}

// Makes all changes. After `Err` the puts lead back.
fn make_all(
    alloc: Global,
    values: &mut Values,
    locks: &mut Locks,
    puts: &mut Puts,
    ops: &[FamilyOp],
) -> Result<(), Memory>
    ensures ok { OnOk result ((s : Store) → AreOf s values.old.entries locks.old.entries → AreOf (after_all s ops.now) values.new.entries locks.new.entries) }
    ensures back { OnErr result ((vs : List ((ℤ × ℕ) × List ℕ)) (ls : List (ℤ × Held)) → CanGoBack values.old.entries locks.old.entries puts.old vs ls → CanGoBack values.new.entries locks.new.entries puts.new vs ls) }
{
    match put_first(values, locks, puts, ops) {
        Ok(made) => {
            let (_, rest) = ops.split_at(made);
            match finish(alloc, values, locks, rest) {
                Ok(()) => Ok(()),
                Err(_) => Err(Memory),
            }
        }
        Err(_) => Err(Memory),
    }
}

/// Makes the changes of an entry in the families, in order. Puts before the first change that takes
/// something out are made at once, and so is what follows it, where that puts nothing, as is so of
/// most entries: a prewrite puts and a commit takes out. After `Err` the families are as before.
pub fn advance(
    alloc: Global,
    values: &mut Values,
    locks: &mut Locks,
    ops: &[FamilyOp],
) -> Result<(), Memory>
    ensures ok { OnOk result ((s : Store) → AreOf s values.old.entries locks.old.entries → AreOf (after_all s ops.now) values.new.entries locks.new.entries) }
    ensures err_values { OnErr result (values.new.entries ≡ values.old.entries) }
    ensures err_locks { OnErr result (locks.new.entries ≡ locks.old.entries) }
{
    let mut puts = Puts {
        values: Journal::new(alloc),
        locks: Journal::new(alloc),
    };
    match make_all(alloc, values, locks, &mut puts, ops) {
        Ok(()) => Ok(()),
        Err(_) => {
            puts.values.take_back(values);
            puts.locks.take_back(locks);
            Err(Memory)
        }
    }
}
