// The rows that a read at the log's end is shown.
ghost use Rattle.std.specs.Prelude.{◌≡◌, ◌++◌, ℕ, IfOk, OnOk};
ghost use Rattle.std.specs.Option.{is_some};
ghost use Rattle.std.specs.BTreeMap.{IsOrdered};
ghost use Rattle.std.specs.Ordering.{int_cmp};
ghost use Rattle.committed_log.specs.Log.{end};
ghost use Rattle.committed_log.specs.Numbers.{AreRoomy};
ghost use Rattle.committed_log.specs.Store.{Store, after_entry};
ghost use Rattle.committed_log.specs.Reads.{rows_at_end};
ghost use Rattle.log_rows.specs.Folds.{Holds, row_of_known, shown_rows, lines_of};
ghost use Rattle.log_rows.specs.Texts.{rows_text, last_line};

use crate::cells::cells_in;
use crate::fold::{Fold, Known};
use column_block::{Row, Schema};
use committed_log::{Logs, Regions, range_of_region, region_of, step_regions};
use flash_types::{Handle, Ts};
use log_codec::Entry;
use std::alloc::{AllocError, Global};
use std::collections::BTreeMap;
use tool_text::print_row;

/// The text of the rows that a read at the timestamp is shown at the log's end, over all handles.
pub fn rows_text(alloc: Global, logs: &Logs, ts: Ts) -> Result<Vec<u8>, AllocError>
    ensures { IfOk result (λ text. text.items ≡ rows_text (rows_at_end logs.now ts)) }
{
    let fold = folded(alloc, logs, ts)?;
    text_of(alloc, logs.schema(), &fold)
}

// What the log's entries leave.
fn folded(alloc: Global, logs: &Logs, ts: Ts) -> Result<Fold, AllocError>
    ensures holds { IfOk result (λ fold. Holds (end logs.now) ts fold.values fold.handles) }
{
    let mut fold = Fold::new(alloc, ts);
    let mut regions = BTreeMap::new(alloc);
    let mut position = 0;
    logs.told_lawful();
    while position < logs.len() {
        if let Err(error) = step(&mut fold, &mut regions, logs.table(), logs.entry(position)) {
            return Err(error);
        }
        position += 1;
    }
    Ok(fold)
}

fn step(fold: &mut Fold, regions: &mut Regions, table: i64, entry: &Entry) -> Result<(), AllocError>
    requires { AreRoomy regions.old.entries }
    ensures ts { fold.new.ts ≡ fold.old.ts }
    ensures regions { OnOk result ((p : ℕ) (s : Store) → regions.old.entries ≡ s.regions → regions.new.entries ≡ (after_entry table p s entry.now).regions) }
    ensures holds { OnOk result ((p : ℕ) (s : Store) → regions.old.entries ≡ s.regions → Holds s fold.old.ts fold.old.values fold.old.handles → Holds (after_entry table p s entry.now) fold.old.ts fold.new.values fold.new.handles) }
{
    let range = range_of_region(region_of(regions, entry.region));
    if let Err(error) = fold.entry(table, range, entry) {
        return Err(error);
    }
    step_regions(regions, entry)
}

fn text_of(alloc: Global, schema: &Schema, fold: &Fold) -> Result<Vec<u8>, AllocError>
    ensures text { IfOk result (λ text. text.items ≡ rows_text (shown_rows schema.now fold.now.handles)) }
    ensures ordered { IsOrdered int_cmp fold.now.handles }
{
    let mut text = Vec::new(alloc);
    let mut count = 0;
    for (handle, known) in fold.handles.iter() {
        if push_row(alloc, schema, *handle, known, &mut text)? {
            count += 1;
        }
    }
    push_count(alloc, &mut text, count)?;
    Ok(text)
}

// Adds the row's line, where a value is seen of the handle. The answer is whether it is.
fn push_row(
    alloc: Global,
    schema: &Schema,
    handle: Handle,
    known: &Known,
    text: &mut Vec<u8>,
) -> Result<bool, AllocError>
    ensures line { OnOk result (text.new.items ≡ text.old.items ++ lines_of (row_of_known schema.now (handle, known.now))) }
    ensures counted { IfOk result (λ shown. shown ≡ is_some (row_of_known schema.now (handle, known.now))) }
{
    let Some(seen) = &known.seen else {
        return Ok(false);
    };
    let Some(value) = &seen.value else {
        return Ok(false);
    };
    let cells = cells_in(alloc, value.as_slice(), schema)?;
    match print_row(&Row { handle, cells }, text) {
        Ok(()) => Ok(true),
        Err(_no_memory) => Err(AllocError),
    }
}

#[tactic(auto, unfolding(crate::specs::Texts::last_line))]
fn push_count(alloc: Global, text: &mut Vec<u8>, count: usize) -> Result<(), AllocError>
    ensures { OnOk result (text.new.items ≡ text.old.items ++ last_line count) }
{
    let line = format!(in alloc; "rows {count}\n")?;
    text.extend_from_slice(line.as_bytes())
}
