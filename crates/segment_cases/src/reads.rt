// The steps of a read.
use crate::bench::Bench;
use crate::files::reader;
use crate::show::show_versions;
use crate::trouble::Trouble;
use column_block::{Block, Bound, Cell, Cells};
use delta_layer::{SegmentView, present};
use flash_mem::{MemGrip, MemReader};
use flash_types::{Cut, Epoch, HandleRange};
use learner_read::{Snapshot, scan, scan_pieces};
use sieve::Sieve;
use stable_file::ReadError;
use std::alloc::Global;

/// Prints the versions that are present in the segment.
pub fn show_present<R: Print + AllocGlobal>(rt: &R, bench: &Bench) -> Result<(), Trouble> {
    let view = bench.segment.view(&bench.deltas)?;
    let mut reader = reader(rt.alloc(), bench.segment.failing.as_slice())?;
    let versions = present(rt.alloc(), &view.share()?, &mut reader)?;
    show_versions(rt, &versions)?;
    println!(rt; "end")?;
    Ok(())
}

// A read of one region that has all handles, of the handles in the clip.
fn read_of(
    alloc: Global,
    ts: u64,
    clip: HandleRange,
    view: SegmentView<MemGrip>,
) -> Result<Snapshot<MemGrip>, Trouble> {
    let cut = Cut {
        region: 1,
        epoch: Epoch {
            conf_ver: 1,
            version: 1,
        },
        index: 6,
        range: HandleRange {
            low: i64::MIN,
            high: None,
        },
    };
    let cuts = Vec::from_array(alloc, [cut])?;
    let mut pieces = Vec::new(alloc);
    let Ok(()) = pieces.push(view) else {
        return Err(Trouble::Memory);
    };
    Ok(Snapshot::new(ts, clip, cuts, pieces, 0, 0, 8))
}

/// Takes a snapshot of the segment, which later steps don't change.
pub fn take_snapshot<R: Print + AllocGlobal>(
    rt: &R,
    bench: &mut Bench,
    ts: u64,
    clip: HandleRange,
) -> Result<(), Trouble> {
    let view = bench.segment.view(&bench.deltas)?;
    let snapshot = read_of(rt.alloc(), ts, clip, view)?;
    println!(rt;
        "at {}, {} cuts, {} pieces",
        snapshot.ts(),
        snapshot.cuts().len(),
        snapshot.pieces().len()
    )?;
    bench.snapshot = Some(snapshot);
    Ok(())
}

/// How a scan came to its end.
#[derive(Clone, Copy, Debug)]
enum End {
    Done,
    Failed(ReadError),
    Open,
}

// The rows of a scan's first thousand blocks, and how it came to its end.
fn gathered(
    alloc: Global,
    snapshot: &Snapshot<MemGrip>,
    reader: &mut MemReader,
) -> Result<(Block, End), Trouble> {
    let mut rows = Block::new(alloc);
    let all = Sieve::new(|_: &Cells| true, None);
    let mut scan = scan(alloc, snapshot, reader, &all);
    for _ in 0..1000 {
        match scan.next_block() {
            Ok(Some(block)) => rows.append(&block)?,
            Ok(None) => return Ok((rows, End::Done)),
            Err(ReadError::Memory) => return Err(Trouble::Memory),
            Err(error) => return Ok((rows, End::Failed(error))),
        }
    }
    Ok((rows, End::Open))
}

/// Scans the snapshot, and prints its rows and how it came to its end.
pub fn show_rows<R: Print + AllocGlobal>(
    rt: &R,
    snapshot: &Snapshot<MemGrip>,
    failing: &[u64],
) -> Result<(), Trouble> {
    let mut reader = reader(rt.alloc(), failing)?;
    let (rows, end) = gathered(rt.alloc(), snapshot, &mut reader)?;
    show_versions(rt, &rows)?;
    println!(rt; "{end:?}")?;
    Ok(())
}

/// Scans the snapshot, and prints how many rows it gave and how it came to its end.
pub fn show_count<R: Print + AllocGlobal>(
    rt: &R,
    snapshot: &Snapshot<MemGrip>,
    failing: &[u64],
) -> Result<(), Trouble> {
    let mut reader = reader(rt.alloc(), failing)?;
    let (rows, end) = gathered(rt.alloc(), snapshot, &mut reader)?;
    println!(rt; "{} rows, {end:?}", rows.len())?;
    Ok(())
}

// Prints what a call of a scan gave.
fn show_block<R: Print>(rt: &R, block: Result<Option<Block>, ReadError>) -> Result<(), Trouble> {
    match block {
        Ok(Some(block)) => println!(rt; "a block of {}", block.len())?,
        Ok(None) => println!(rt; "no block")?,
        Err(ReadError::Memory) => return Err(Trouble::Memory),
        Err(error) => println!(rt; "{error:?}")?,
    }
    Ok(())
}

/// Prints what so many calls give, of a scan of the pieces from a place up to and without another.
pub fn show_blocks<R: Print + AllocGlobal>(
    rt: &R,
    snapshot: &Snapshot<MemGrip>,
    failing: &[u64],
    places: (u64, u64),
    calls: u64,
) -> Result<(), Trouble> {
    let mut reader = reader(rt.alloc(), failing)?;
    let all = Sieve::new(|_: &Cells| true, None);
    let mut scan = scan_pieces(
        rt.alloc(),
        snapshot,
        places.0 as usize,
        places.1 as usize,
        &mut reader,
        &all,
    );
    for _ in 0..calls {
        show_block(rt, scan.next_block())?;
    }
    Ok(())
}

/// Prints what the first call gives of a scan of the rows that have this number in the first
/// column.
pub fn show_only<R: Print + AllocGlobal>(
    rt: &R,
    snapshot: &Snapshot<MemGrip>,
    failing: &[u64],
    number: i64,
) -> Result<(), Trouble> {
    let mut reader = reader(rt.alloc(), failing)?;
    let bound = Bound {
        column: 0,
        low: number as i128,
        high: number as i128,
    };
    let only = Sieve::new(
        move |cells: &Cells| match cells.as_slice().first() {
            Some(Cell::Int(n)) => *n == number,
            _ => false,
        },
        Some(bound),
    );
    let mut scan = scan(rt.alloc(), snapshot, &mut reader, &only);
    show_block(rt, scan.next_block())
}
