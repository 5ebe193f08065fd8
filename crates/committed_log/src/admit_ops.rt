// The check of an entry's ops against the families, each with the changes of those before it.
ghost use Rattle.std.specs.Prelude.{◌≡◌, ◌<◌, ◌^◌, ◌++◌, ◌∷◌, if◌then◌else◌, ℕ, [], length, IfErr, OnOk, IfOk, None, option_copied, HoldsAt};
ghost use Rattle.committed_log.specs.Store.{after_change, after_op, after_ops, last_commit, is_repeated, value};
ghost use Rattle.committed_log.specs.Admission.{backdated_fault, value_fault, commit_fault, change_fault, op_fault, ops_fault_from};
ghost use Rattle.committed_log.specs.Lawful.{IsRefusal};
ghost use Rattle.committed_log.specs.Families.{Course, Holds, Returns};
ghost use Rattle.committed_log.specs.declared.op.FamilyOp.TheVariants as change;
ghost use Rattle.committed_log.specs.declared.unlawful.Unlawful.TheVariants as unlawful;
ghost use Rattle.committed_log.specs.Repeats.{repeats_change, repeats_op, repeated_from};

use crate::change::{ChangeError, change_of};
use crate::families::{Families, last_of, long_value, put_last, put_value};
use crate::op::{FamilyOp, LastCommit};
use crate::rows::check_row;
use crate::unlawful::{RowFault, Unlawful};
use column_block::Schema;
use flash_types::{Handle, HandleRange, Ts};
use log_codec::{Op, OpBytes};
use std::alloc::AllocError;

fn repeats_commit(last: Option<LastCommit>, ts: Ts, start: Ts, gone: bool) -> bool
    ensures { result ≡ is_repeated last ts start gone }
{
    match last {
        Some(c) => c.ts == ts && c.start == start && c.gone == gone,
        None => false,
    }
}

fn find_backdated_fault(last: Option<LastCommit>, ts: Ts, op: u32) -> Option<Unlawful>
    ensures { result ≡ backdated_fault last ts op }
{
    match last {
        Some(c) if ts <= c.ts => Some(Unlawful::Backdated { op, last: c.ts }),
        _ => None,
    }
}

fn find_value_fault(schema: &Schema, value: Option<&OpBytes>, op: u32) -> Option<Unlawful>
    ensures { result ≡ value_fault schema.now (option_copied value.entry) op }
{
    match value {
        Some(value) => match check_row(value.as_slice(), schema) {
            Ok(()) => None,
            Err(RowFault::Form) => Some(Unlawful::Row { op }),
            Err(RowFault::UnknownColumn { id }) => Some(Unlawful::UnknownColumn { op, id }),
        },
        None => Some(Unlawful::NoValue { op }),
    }
}

// What is wrong with a commit, against the row's last one and what the default family has.
fn find_commit_fault(
    schema: &Schema,
    last: Option<LastCommit>,
    long: Option<&OpBytes>,
    op: u32,
    commit: LastCommit,
    short: Option<&OpBytes>,
) -> Option<Unlawful>
    ensures { result ≡ commit_fault schema.now last (option_copied long.entry) op commit.ts commit.start commit.gone (option_copied short.entry) }
{
    if repeats_commit(last, commit.ts, commit.start, commit.gone) {
        return None;
    }
    if let Some(fault) = find_backdated_fault(last, commit.ts, op) {
        return Some(fault);
    }
    if commit.gone {
        return None;
    }
    match short {
        Some(value) => find_value_fault(schema, Some(value), op),
        None => find_value_fault(schema, long, op),
    }
}

// Admits a value that is put into the default family, and puts it.
fn admit_value(
    families: &mut Families,
    handle: Handle,
    start: Ts,
    bytes: OpBytes,
) -> Result<(), Unlawful>
    ghost from: { Course }
    requires holds { Holds families.old from.store }
    requires returns { Returns families.old from.before }
    ensures holds { OnOk result ((p : ℕ) → Holds families.new (after_change p from.store (change.Value handle start bytes))) }
    ensures returns { Returns families.new from.before }
    ensures memory { IfErr result (λ e. e ≡ unlawful.Memory) }
{
    match put_value(families, handle, start, Some(bytes)) {
        Ok(()) => Ok(()),
        Err(_) => Err(Unlawful::Memory),
    }
}

// Takes a value out of the default family, where there is one.
fn admit_drop(families: &mut Families, handle: Handle, start: Ts) -> Result<(), Unlawful>
    ghost from: { Course }
    requires holds { Holds families.old from.store }
    requires returns { Returns families.old from.before }
    ensures holds { OnOk result ((p : ℕ) → Holds families.new (after_change p from.store (change.DropValue handle start))) }
    ensures returns { Returns families.new from.before }
    ensures memory { IfErr result (λ e. e ≡ unlawful.Memory) }
{
    match long_value(families, handle, start) {
        None => Ok(()),
        Some(_) => match put_value(families, handle, start, None) {
            Ok(()) => Ok(()),
            Err(_) => Err(Unlawful::Memory),
        },
    }
}

// Admits a commit and notes it, but for one that says again what the row's last one says: of
// such a one it answers true.
fn admit_commit(
    schema: &Schema,
    families: &mut Families,
    op: u32,
    handle: Handle,
    commit: LastCommit,
    short: Option<&OpBytes>,
) -> Result<bool, Unlawful>
    ghost from: { Course }
    requires holds { Holds families.old from.store }
    requires returns { Returns families.old from.before }
    ensures ok { OnOk result (commit_fault schema.now (last_commit from.store.commits handle) (value from.store.values handle commit.start) op commit.ts commit.start commit.gone (option_copied short.entry) ≡ None) }
    ensures repeated { IfOk result (λ repeated. repeated ≡ is_repeated (last_commit from.store.commits handle) commit.ts commit.start commit.gone) }
    ensures holds { OnOk result ((p : ℕ) → Holds families.new (after_change p from.store (change.Write handle commit.ts commit.start commit.gone (option_copied short.entry)))) }
    ensures returns { Returns families.new from.before }
    ensures err { IfErr result (IsRefusal (commit_fault schema.now (last_commit from.store.commits handle) (value from.store.values handle commit.start) op commit.ts commit.start commit.gone (option_copied short.entry))) }
{
    let last = last_of(families, handle);
    let long = long_value(families, handle, commit.start);
    if let Some(fault) = find_commit_fault(schema, last, long, op, commit, short) {
        return Err(fault);
    }
    if repeats_commit(last, commit.ts, commit.start, commit.gone) {
        return Ok(true);
    }
    match put_last(families, handle, commit) {
        Ok(()) => Ok(false),
        Err(_) => Err(Unlawful::Memory),
    }
}

// Admits a change, and makes it.
fn admit_change(
    schema: &Schema,
    families: &mut Families,
    op: u32,
    change: FamilyOp,
) -> Result<bool, Unlawful>
    ghost from: { Course }
    requires holds { Holds families.old from.store }
    requires returns { Returns families.old from.before }
    ensures ok { OnOk result (change_fault schema.now (last_commit from.store.commits) from.store.values op change ≡ None) }
    ensures repeated { IfOk result (λ repeated. repeated ≡ repeats_change from.store change) }
    ensures holds { OnOk result ((p : ℕ) → Holds families.new (after_change p from.store change)) }
    ensures returns { Returns families.new from.before }
    ensures err { IfErr result (IsRefusal (change_fault schema.now (last_commit from.store.commits) from.store.values op change)) }
{
    match change {
        FamilyOp::Value {
            handle,
            start,
            bytes,
        } => match admit_value(families, handle, start, bytes) {
            Ok(()) => Ok(false),
            Err(fault) => Err(fault),
        },
        FamilyOp::DropValue { handle, start } => match admit_drop(families, handle, start) {
            Ok(()) => Ok(false),
            Err(fault) => Err(fault),
        },
        FamilyOp::Lock { .. } => Ok(false),
        FamilyOp::Unlock { .. } => Ok(false),
        FamilyOp::Write {
            handle,
            ts,
            start,
            gone,
            short,
        } => {
            let commit = LastCommit { ts, start, gone };
            admit_commit(schema, families, op, handle, commit, short.as_ref())
        }
    }
}

// Admits the op at place k, and does it.
fn admit_op(
    schema: &Schema,
    table: i64,
    range: HandleRange,
    _position: u64,
    families: &mut Families,
    ops: &[Op],
    k: usize,
) -> Result<bool, Unlawful>
    ghost from: { Course }
    requires place { k < length ops.now }
    requires count { length ops.now < 2 ^ 32 }
    requires holds { Holds families.old from.store }
    requires returns { Returns families.old from.before }
    ensures ok { OnOk result (HoldsAt (λ op. op_fault table schema.now range from.store k op ≡ None) ops.now k) }
    ensures repeated { IfOk result (λ repeated. HoldsAt (λ op. repeated ≡ repeats_op table range from.store op) ops.now k) }
    ensures holds { OnOk result (HoldsAt (λ op. Holds families.new (after_op table range _position from.store op)) ops.now k) }
    ensures returns { Returns families.new from.before }
    ensures err { IfErr result (λ e. HoldsAt (λ op. IsRefusal (op_fault table schema.now range from.store k op) e) ops.now k) }
{
    let op = k as u32;
    match change_of(table, range, &ops[k]) {
        Ok(Some(change)) => admit_change(schema, families, op, change),
        Ok(None) => Ok(false),
        Err(ChangeError::BadKey) => Err(Unlawful::Key { op }),
        Err(ChangeError::BadRecord) => Err(Unlawful::Record { op }),
        Err(ChangeError::Memory) => Err(Unlawful::Memory),
    }
}

// Notes the place of an op that says again what its row's last commit says.
fn note_repeat(repeated: &mut Vec<u32>, repeats: bool, k: u32) -> Result<(), AllocError>
    ensures { OnOk result (repeated.new.items ≡ repeated.old.items ++ (if repeats then k ∷ [] else [])) }
{
    if !repeats {
        return Ok(());
    }
    match repeated.push(k) {
        Ok(()) => Ok(()),
        Err(_) => Err(AllocError),
    }
}

/// Admits the ops of an entry at a position, each with the effects of those before it, and does
/// them. The places of those that say again what their row's last commit says are added to
/// `repeated`.
pub fn admit_ops(
    schema: &Schema,
    table: i64,
    range: HandleRange,
    _position: u64,
    families: &mut Families,
    ops: &[Op],
    repeated: &mut Vec<u32>,
) -> Result<(), Unlawful>
    ghost from: { Course }
    requires holds { Holds families.old from.store }
    requires returns { Returns families.old from.before }
    requires count { length ops.now < 2 ^ 32 }
    requires none { repeated.old.items ≡ [] }
    ensures ok { OnOk result (ops_fault_from table schema.now range _position from.store 0 ops.now ≡ None) }
    ensures holds { OnOk result (Holds families.new (after_ops table range _position from.store ops.now)) }
    ensures repeated { OnOk result (repeated.new.items ≡ repeated_from table range _position from.store 0 ops.now) }
    ensures returns { Returns families.new from.before }
    ensures err { IfErr result (IsRefusal (ops_fault_from table schema.now range _position from.store 0 ops.now)) }
{
    for k in 0..ops.len() {
        match admit_op(schema, table, range, _position, families, ops, k) {
            Ok(repeats) => {
                if let Err(_) = note_repeat(repeated, repeats, k as u32) {
                    return Err(Unlawful::Memory);
                }
            }
            Err(fault) => return Err(fault),
        }
    }
    Ok(())
}
