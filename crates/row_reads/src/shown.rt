// The rows that cuts of regions show.
ghost use Rattle.std.specs.Prelude.{◌≡◌, ◌++◌, [], find, OnOk, IfOk, option_map};
ghost use Rattle.std.specs.List.{fold, flat_map};
ghost use Rattle.flash_types.specs.Ranges.{holds};
ghost use Rattle.flash_types.specs.declared.refusal.Cut.{Cut as CutOf};
ghost use Rattle.committed_log.specs.Reads.{cells, row_of, shown, commits_of, shown_by, row_of_handle, rows};
ghost use Rattle.row_reads.specs.Steps.{store_at, with_handle, option_list};

use column_block::{Cells, Row, Schema};
use committed_log::Commit;
use flash_list::Items;
use flash_types::{Cut, HandleRange};
use row_codec::RowView;
use row_decode::DecodeError;
use row_store::{SmallLog, Stop, Store, place, put_entry, shown};
use std::alloc::Global;

/// The store where a region has an index: of no entries, where it never has it.
pub fn store_at(alloc: Global, log: &SmallLog<'_>, region: u32, index: u64) -> Result<Store, Stop>
    ensures { IfOk result (λ store. store ≡ store_at log.now region index) }
{
    match place(alloc, log, region, index) {
        Ok(Some(p)) if p < log.len() => log.at(alloc, p + 1),
        Ok(_) => Ok(Store::new(alloc)),
        Err(stop) => Err(stop),
    }
}

// The store whose commits a cut can see.
fn seen_by(alloc: Global, log: &SmallLog<'_>, cut: Cut) -> Result<Store, Stop>
    ensures { IfOk result (λ store. store.commits ≡ commits_of log.now cut) }
{
    store_at(alloc, log, cut.region, cut.index)
}

fn cells(alloc: Global, schema: &Schema, value: &[u8]) -> Result<Cells, Stop>
    ensures { IfOk result (λ found. found ≡ cells schema.now value.now) }
{
    let Ok(row) = RowView::read(value) else {
        return Ok(Items::new(alloc));
    };
    match row_decode::cells(alloc, &row, schema) {
        Ok(found) => Ok(found),
        Err(DecodeError::Width { .. }) => Ok(Items::new(alloc)),
        Err(DecodeError::Memory) => Err(Stop::Memory),
    }
}

fn row_of(alloc: Global, schema: &Schema, handle: i64, value: &[u8]) -> Result<Row, Stop>
    ensures { IfOk result (λ row. row ≡ row_of schema.now handle value.now) }
{
    match cells(alloc, schema, value) {
        Ok(cells) => Ok(Row { handle, cells }),
        Err(stop) => Err(stop),
    }
}

// The row that a store shows of a handle.
fn row_in(
    alloc: Global,
    schema: &Schema,
    store: &Store,
    ts: u64,
    handle: i64,
) -> Result<Option<Row>, Stop>
    ensures { IfOk result (λ row. row ≡ option_map (row_of schema.now handle) (shown store.now.commits ts handle)) }
{
    match shown(store.commits(), ts, handle) {
        None => Ok(None),
        Some(value) => match row_of(alloc, schema, handle, value) {
            Ok(row) => Ok(Some(row)),
            Err(stop) => Err(stop),
        },
    }
}

fn cut_with(cuts: &[Cut], handle: i64) -> Option<Cut>
    ensures { result ≡ find (λ (cut : CutOf). holds cut.range handle) cuts.now }
{
    for cut in cuts {
        if cut.range.holds(handle) {
            return Some(*cut);
        }
    }
    None
}

// The row that the cut with a handle shows of it.
fn row_by(
    alloc: Global,
    log: &SmallLog<'_>,
    cuts: &[Cut],
    ts: u64,
    handle: i64,
) -> Result<Option<Row>, Stop>
    ensures { IfOk result (λ row. row ≡ option_map (row_of log.now.schema handle) (shown_by log.now cuts.now ts handle)) }
{
    let Some(cut) = cut_with(cuts, handle) else {
        return Ok(None);
    };
    match seen_by(alloc, log, cut) {
        Ok(store) => row_in(alloc, log.schema, &store, ts, handle),
        Err(stop) => Err(stop),
    }
}

fn row_of_handle(
    alloc: Global,
    log: &SmallLog<'_>,
    cuts: &[Cut],
    ts: u64,
    clip: HandleRange,
    handle: i64,
) -> Result<Option<Row>, Stop>
    ensures { IfOk result (λ row. row ≡ row_of_handle log.now cuts.now ts clip handle) }
{
    if clip.holds(handle) {
        row_by(alloc, log, cuts, ts, handle)
    } else {
        Ok(None)
    }
}

// Puts the handles of commits among those that were found.
fn add_handles(found: &mut Vec<(i64, ())>, commits: &[Commit]) -> Result<(), Stop>
    ensures { OnOk result (found.new.items ≡ fold with_handle found.old.items commits.now) }
{
    for commit in commits {
        if put_entry(found, commit.handle, ()).is_err() {
            return Err(Stop::Memory);
        }
    }
    Ok(())
}

// The handles of the commits that the cuts can see, rising.
fn handles_of(alloc: Global, log: &SmallLog<'_>, cuts: &[Cut]) -> Result<Vec<(i64, ())>, Stop>
    ensures { IfOk result (λ found. found.items ≡ fold with_handle [] (flat_map (commits_of log.now) cuts.now)) }
{
    let mut found = Vec::new(alloc);
    for cut in cuts {
        let store = match seen_by(alloc, log, *cut) {
            Ok(store) => store,
            Err(stop) => return Err(stop),
        };
        if let Err(stop) = add_handles(&mut found, store.commits()) {
            return Err(stop);
        }
    }
    Ok(found)
}

fn add_row(found: &mut Vec<Row>, row: Option<Row>) -> Result<(), Stop>
    ensures { OnOk result (found.new.items ≡ found.old.items ++ option_list row) }
{
    match row {
        None => Ok(()),
        Some(row) => match found.push(row) {
            Ok(()) => Ok(()),
            Err(_) => Err(Stop::Memory),
        },
    }
}

/// The rows of the handles within the clip that the cuts' regions show at the timestamp, in rising
/// order of the handles.
pub fn rows(
    alloc: Global,
    log: &SmallLog<'_>,
    cuts: &[Cut],
    ts: u64,
    clip: HandleRange,
) -> Result<Vec<Row>, Stop>
    ensures { IfOk result (λ found. found.items ≡ rows log.now cuts.now ts clip) }
{
    let handles = match handles_of(alloc, log, cuts) {
        Ok(handles) => handles,
        Err(stop) => return Err(stop),
    };
    let mut found = Vec::new(alloc);
    for entry in &handles {
        let row = match row_of_handle(alloc, log, cuts, ts, clip, entry.0) {
            Ok(row) => row,
            Err(stop) => return Err(stop),
        };
        if let Err(stop) = add_row(&mut found, row) {
            return Err(stop);
        }
    }
    Ok(found)
}
