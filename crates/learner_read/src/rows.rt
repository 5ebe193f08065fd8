// The rows that a block of versions shows.
ghost use Rattle.std.specs.Prelude.{◌≡◌, ◌&&◌, ◌<◌, length, map, slice_get, [], ◌∷◌, ◌++◌, if◌then◌else◌, Some, IfOk, OnOk};
ghost use Rattle.std.specs.List.{list_any};
ghost use Rattle.flash_types.specs.Ranges.{holds};
ghost use Rattle.column_block.specs.Order.{Rise};
ghost use Rattle.learner_read.specs.Rows.{is_asked, is_shown, rows_within, shown_rows};
ghost use Rattle.learner_read.specs.Scans.{Pass, answers_of};

use column_block::{Block, Cells, Memory};
use flash_types::{Cut, Handle, HandleRange, Ts};
use sieve::Sieve;
use std::alloc::Global;

// Whether the range of one of the cuts holds the handle.
fn in_some(cuts: &[Cut], handle: Handle) -> bool
    ensures { result ≡ list_any (λ cut. holds cut.range handle) cuts.now }
{
    cuts.iter().any(|cut| cut.range.holds(handle))
}

// Whether a read asks for the handle.
fn is_asked(clip: HandleRange, cuts: &[Cut], handle: Handle) -> bool
    ensures { result ≡ is_asked clip cuts.now handle }
{
    if !clip.holds(handle) {
        return false;
    }
    in_some(cuts, handle)
}

// Whether the version at a place is shown at `ts`. Versions rise, so the next one tells.
fn is_shown(block: &Block, i: usize, ts: Ts) -> bool
    requires rise { Rise block.now }
    requires within { i < length block.now }
    ensures { slice_get (map (is_shown ts block.now) block.now) i ≡ Some result }
{
    let len = block.len();
    let version = block.at(i);
    if ts < version.ts {
        return false;
    }
    if version.gone {
        return false;
    }
    if i + 1 == len {
        return true;
    }
    let next = block.at(i + 1);
    if next.handle != version.handle {
        return true;
    }
    ts < next.ts
}

// Whether the version at a place is a row that the read asks for.
fn is_row(block: &Block, i: usize, ts: Ts, clip: HandleRange, cuts: &[Cut]) -> bool
    requires rise { Rise block.now }
    requires within { i < length block.now }
    ensures { slice_get (map (λ version. is_shown ts block.now version && is_asked clip cuts.now version.handle) block.now) i ≡ Some result }
{
    let version = block.at(i);
    if !is_shown(block, i, ts) {
        return false;
    }
    let handle = version.handle;
    is_asked(clip, cuts, handle)
}

/// The rows that versions in order show at a timestamp, of those whose handles are in the clip and in
/// the range of one of the cuts: of each row the newest version at or below `ts`, where it is a put.
/// The rows share the versions, so no cells are copied.
pub fn shown(
    alloc: Global,
    block: &Block,
    ts: Ts,
    clip: HandleRange,
    cuts: &[Cut],
) -> Result<Block, Memory>
    requires { Rise block.now }
    ensures { IfOk result (λ rows. rows ≡ rows_within clip cuts.now (shown_rows ts block.now)) }
{
    let mut places: Vec<u64> = Vec::new(alloc);
    for i in 0..block.len() {
        if is_row(block, i, ts, clip, cuts) {
            let Ok(()) = places.push(i as u64) else {
                return Err(Memory);
            };
        }
    }
    let rows = block.permuted(places.as_slice())?;
    Ok(rows)
}

// Adds a place, where it counts.
fn add_if(places: &mut Vec<u64>, place: usize, counts: bool) -> Result<(), Memory>
    ensures { OnOk result (places.new.items ≡ (if counts then places.old.items ++ place ∷ [] else places.old.items)) }
{
    if !counts {
        return Ok(());
    }
    match places.push(place as u64) {
        Ok(()) => Ok(()),
        Err(_) => Err(Memory),
    }
}

// The rows whose cells pass the sieve.
pub fn passing<F: Fn(&Cells) -> bool>(
    alloc: Global,
    sieve: &Sieve<F>,
    rows: &Block,
) -> Result<Block, Memory>
    requires { F.IsAlwaysCallable sieve.now.test }
    ensures { IfOk result (λ passed. Pass (answers_of F.Fn sieve.now.test) rows.now passed) }
{
    let mut places: Vec<u64> = Vec::new(alloc);
    for i in 0..rows.len() {
        let row = rows.at(i);
        add_if(&mut places, i, sieve.passes(&row.cells))?;
    }
    let passed = rows.permuted(places.as_slice())?;
    Ok(passed)
}
