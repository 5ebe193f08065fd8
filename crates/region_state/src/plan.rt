// The versions that changes commit, told over the region as it is: nothing of it changes.
ghost use Rattle.std.specs.Prelude.{◌≡◌, ℕ, ℤ, [], ◌∷◌, ◌++◌, IfOk, OnOk, Some, None, cond, map, option_copied, option_map};
ghost use Rattle.std.specs.BTreeMap.{get, is_at};
ghost use Rattle.std.specs.Option.{option_or};
ghost use Rattle.committed_log.specs.Reads.{cells};
ghost use Rattle.committed_log.specs.Store.{Store, value_cmp, committed_value};
ghost use Rattle.region_state.specs.Folding.{version_of, committed, commits_nothing, after_one, after_all};
ghost use Rattle.std.specs.List.{list_all};
ghost use Rattle.region_state.specs.Standing.{seen, Stands, commit_of};

use crate::changes::{ValueChanges, change_value};
use crate::region::Values;
use column_block::{Block, Cells, Memory, Schema, Version};
use committed_log::FamilyOp;
use flash_list::Items;
use flash_types::{Handle, Ts};
use log_codec::OpBytes;
use row_codec::RowView;
use row_decode::{DecodeError, cells};
use std::alloc::Global;
use std::collections::BTreeMap;

fn changed<'a>(changes: &'a ValueChanges, handle: Handle, start: Ts) -> Option<&'a Option<OpBytes>>
    ensures { option_copied result ≡ get value_cmp changes.now (handle, start) }
{
    changes.get(&(handle, start))
}

fn held<'a>(values: &'a Values, handle: Handle, start: Ts) -> Option<&'a OpBytes>
    ensures { option_copied result ≡ get value_cmp values.now (handle, start) }
{
    values.get(&(handle, start))
}

// The value that is seen at a place.
fn value_at<'a>(
    values: &'a Values,
    changes: &'a ValueChanges,
    handle: Handle,
    start: Ts,
) -> Option<&'a OpBytes>
    ensures { option_copied result ≡ seen (get value_cmp changes.now (handle, start)) (get value_cmp values.now (handle, start)) }
{
    match changed(changes, handle, start) {
        Some(Some(bytes)) => Some(bytes),
        Some(None) => None,
        None => held(values, handle, start),
    }
}

// What a commit puts. The default family is looked at only for a put that has no short value.
fn committed_value<'a>(
    values: &'a Values,
    changes: &'a ValueChanges,
    handle: Handle,
    start: Ts,
    gone: bool,
    short: Option<&'a OpBytes>,
) -> Option<&'a OpBytes>
    ensures { option_copied result ≡ committed_value gone (option_copied short.entry) (seen (get value_cmp changes.now (handle, start)) (get value_cmp values.now (handle, start))) }
{
    if gone {
        return None;
    }
    match short {
        Some(bytes) => Some(bytes),
        None => value_at(values, changes, handle, start),
    }
}

// The cells of a value; none where it isn't a row of the schema.
fn cells_of(alloc: Global, bytes: &[u8], schema: &Schema) -> Result<Cells, Memory>
    ensures { IfOk result (λ found. found ≡ cells schema.now bytes.now) }
{
    let Ok(row) = RowView::read(bytes) else {
        return Ok(Items::new(alloc));
    };
    match cells(alloc, &row, schema) {
        Ok(found) => Ok(found),
        Err(DecodeError::Width { .. }) => Ok(Items::new(alloc)),
        Err(DecodeError::Memory) => Err(Memory),
    }
}

// The version of a commit.
fn version_of(
    alloc: Global,
    handle: Handle,
    ts: Ts,
    start: Ts,
    value: Option<&OpBytes>,
    schema: &Schema,
) -> Result<Version, Memory>
    ensures { IfOk result (λ version. version ≡ version_of schema.now (commit_of handle ts start (option_copied value.entry))) }
{
    match value {
        Some(bytes) => {
            let cells = cells_of(alloc, bytes.as_slice(), schema)?;
            Ok(Version {
                handle,
                ts,
                gone: false,
                cells,
            })
        }
        None => Ok(Version {
            handle,
            ts,
            gone: true,
            cells: Items::new(alloc),
        }),
    }
}

fn push(block: &mut Block, version: Version) -> Result<(), Memory>
    ensures { OnOk result (block.new ≡ block.old ++ version ∷ []) }
{
    match block.push(version) {
        Ok(()) => Ok(()),
        Err(_) => Err(Memory),
    }
}

// Adds the version of a commit.
fn commit(
    alloc: Global,
    values: &Values,
    changes: &ValueChanges,
    block: &mut Block,
    handle: Handle,
    ts: Ts,
    start: Ts,
    gone: bool,
    short: Option<&OpBytes>,
    schema: &Schema,
) -> Result<(), Memory>
    ensures { OnOk result (block.new ≡ block.old ++ version_of schema.now (commit_of handle ts start (committed_value gone (option_copied short.entry) (seen (get value_cmp changes.now (handle, start)) (get value_cmp values.now (handle, start))))) ∷ []) }
{
    let value = committed_value(values, changes, handle, start, gone, short);
    let version = version_of(alloc, handle, ts, start, value, schema)?;
    push(block, version)
}

// Does one change.
fn step(
    alloc: Global,
    values: &Values,
    changes: &mut ValueChanges,
    block: &mut Block,
    op: &FamilyOp,
    schema: &Schema,
) -> Result<(), Memory>
    ensures stands { OnOk result ((s : Store) → Stands values.now.entries changes.old s → Stands values.now.entries changes.new (after_one s op.now)) }
    ensures commits { OnOk result ((s : Store) → Stands values.now.entries changes.old s → block.new ≡ block.old ++ map (version_of schema.now) (committed s op.now)) }
{
    match op {
        FamilyOp::Value { .. } => change_value(changes, op),
        FamilyOp::DropValue { .. } => change_value(changes, op),
        FamilyOp::Lock { .. } => Ok(()),
        FamilyOp::Unlock { .. } => Ok(()),
        FamilyOp::Write {
            handle,
            ts,
            start,
            gone,
            short,
        } => commit(
            alloc,
            values,
            changes,
            block,
            *handle,
            *ts,
            *start,
            *gone,
            short.as_ref(),
            schema,
        ),
    }
}

fn commits_nothing(op: &FamilyOp) -> bool
    ensures { result ≡ commits_nothing op.now }
{
    !matches!(op, FamilyOp::Write { .. })
}

fn commit_nothing(ops: &[FamilyOp]) -> bool
    ensures { result ≡ list_all commits_nothing ops.now }
{
    for op in ops {
        if !commits_nothing(op) {
            return false;
        }
    }
    true
}

// The versions that changes commit, with what each does to the default family on the way.
fn each_version(
    alloc: Global,
    values: &Values,
    ops: &[FamilyOp],
    schema: &Schema,
) -> Result<Block, Memory>
    ensures { IfOk result (λ block. (s : Store) → s.values ≡ values.now.entries → s.commits ≡ [] → block ≡ map (version_of schema.now) (after_all s ops.now).commits) }
{
    // Gives the proof that the keys are in order.
    let _len = values.len();
    let mut block = Block::new(alloc);
    let mut changes = BTreeMap::new(alloc);
    for op in ops {
        step(alloc, values, &mut changes, &mut block, op, schema)?;
    }
    Ok(block)
}

/// The versions that changes commit, in order. Where there is no commit among them, as in a prewrite,
/// it takes no memory.
pub fn versions(
    alloc: Global,
    values: &Values,
    ops: &[FamilyOp],
    schema: &Schema,
) -> Result<Block, Memory>
    ensures { IfOk result (λ block. (s : Store) → s.values ≡ values.now.entries → s.commits ≡ [] → block ≡ map (version_of schema.now) (after_all s ops.now).commits) }
{
    if commit_nothing(ops) {
        return Ok(Block::new(alloc));
    }
    each_version(alloc, values, ops, schema)
}
