// What is left of a piece that a scan is in.
ghost use Rattle.std.specs.Prelude.{◌≡◌, ◌<◌, ◌≤◌, ◌+◌, ◌^◌, [], ◌∷◌, true, false, length, take, drop, slice_get, int_lt, Some, None, IfOk, IfErr, IfSome, IsSome, IsTrue};
ghost use Rattle.column_block.specs.Order.{rises};
ghost use Rattle.delta_layer.specs.Files.{files_of};
ghost use Rattle.stable_file.specs.Faults.{GivesOrDevice, HasReadCause};
ghost use Rattle.stable_file.specs.declared.fault.ReadError.TheVariants as errors;
ghost use Rattle.stable_file.specs.Opened.{packs_of};
ghost use Rattle.stable_file.specs.declared.pack.Pack.{Pack};
ghost use Rattle.flash_types.specs.Ranges.{is_below};
ghost use Rattle.learner_read.specs.Packs.{read_in};
ghost use Rattle.learner_read.specs.Parts.{AreAbove, AreBelow, GivesFound, GivesPast, HasRows, IsBelow, IsFound, LeftOf, PutsBefore, rest_of};
ghost use Rattle.learner_read.specs.Scans.{AreOf, AreRowsOrNone, Leaves, answers_of};

use crate::packs::is_read;
use crate::rows::{passing, shown};
use crate::snapshot::Snapshot;
use crate::state::{Below, Found, Part};
use column_block::{Block, Cells, Memory};
use delta_layer::{DeltaView, SegmentView, add_pack, present_above};
use flash_io::{Gripped, Reader};
use flash_types::{Handle, HandleRange};
use sieve::Sieve;
use stable_file::{ReadError, StableFile};
use std::alloc::Global;

// The part of a piece's range from a handle on.
fn rest_of(range: HandleRange, from: Option<Handle>) -> HandleRange
    ensures { result ≡ rest_of range from }
{
    match from {
        None => range,
        Some(from) => {
            if from <= range.low {
                range
            } else {
                range.starting_at(from)
            }
        }
    }
}

// The first place of a version whose handle isn't below this one, of versions that rise.
fn first_from(block: &Block, handle: Handle) -> usize
    requires { IsTrue (rises block.now) }
    ensures within { result ≤ length block.now }
    ensures below { AreBelow handle (take result block.now) }
    ensures above { AreAbove handle (drop result block.now) }
{
    let mut low = 0;
    let mut high = block.len();
    while low < high {
        let middle = low + (high - low) / 2;
        let version = block.at(middle);
        if version.handle < handle {
            low = middle + 1;
        } else {
            high = middle;
        }
    }
    low
}

// The rows that pass, of the handles of a range, over these stable versions and a delta.
fn rows_over<G, F: Fn(&Cells) -> bool>(
    alloc: Global,
    snapshot: &Snapshot<G>,
    sieve: &Sieve<F>,
    range: HandleRange,
    stable: Block,
    delta: &DeltaView,
) -> Result<Block, Memory>
    requires rising { IsTrue (rises stable) }
    requires callable { F.IsAlwaysCallable sieve.now.test }
    ensures exact { IfOk result (HasRows snapshot.now (answers_of F.Fn sieve.now.test) range stable (files_of delta.now)) }
    ensures rows { IfOk result (AreRowsOrNone snapshot.now) }
    ensures of { IfOk result (AreOf range) }
{
    let Ok(versions) = present_above(alloc, range, stable, delta) else {
        return Err(Memory);
    };
    let rows = shown(
        alloc,
        &versions,
        snapshot.ts(),
        snapshot.clip(),
        snapshot.cuts(),
    )?;
    match passing(alloc, sieve, &rows) {
        Ok(passed) => Ok(passed),
        Err(_) => Err(Memory),
    }
}

// Takes the rows below a handle out of what is left of a piece.
fn rows_below<G: Gripped, F: Fn(&Cells) -> bool>(
    alloc: Global,
    snapshot: &Snapshot<G>,
    sieve: &Sieve<F>,
    piece: &SegmentView<G>,
    part: Part,
    bound: Handle,
) -> Result<Below, Memory>
    requires within { is_below bound piece.now.range.high ≡ true }
    requires callable { F.IsAlwaysCallable sieve.now.test }
    ensures exact { IfOk result (λ below. PutsBefore G.Gripped.bytes snapshot.now (answers_of F.Fn sieve.now.test) piece.now part below.part bound below.rows) }
    ensures cut { IfOk result (λ below. int_lt (rest_of piece.now.range below.part.from).low bound ≡ false) }
    ensures rows { IfOk result (IsBelow snapshot.now piece.now.range) }
{
    let rest = rest_of(piece.range, part.from);
    if bound <= rest.low {
        return Ok(Below {
            rows: Block::new(alloc),
            part,
        });
    }
    let place = first_from(&part.before, bound);
    let here = part.before.slice(0, place)?;
    let before = part.before.slice(place, part.before.len())?;
    let rows = rows_over(
        alloc,
        snapshot,
        sieve,
        rest.below(bound),
        here,
        &piece.delta,
    )?;
    let part = Part {
        from: Some(bound),
        before,
        next: part.next,
    };
    Ok(Below { rows, part })
}

// Reads a pack of what is left of a piece.
fn with_pack<R: Reader>(
    alloc: Global,
    file: &StableFile<R::Grip>,
    reader: &mut R,
    part: Part,
    k: u64,
) -> Result<Part, ReadError>
    requires { k < length (packs_of file.now) }
    ensures exact { R.Grip.tells → (pack : Pack) → slice_get (packs_of file.now) k ≡ Some pack → GivesOrDevice (λ part. part.before) result (read_in R.Grip.bytes (Some file.now) part.before (pack ∷ [])) }
    ensures from { IfOk result (λ more. more.from ≡ part.from) }
    ensures cause { HasReadCause (R.fault_count reader.old) (R.fault_count reader.new) result }
{
    let from = part.from;
    let next = part.next;
    let mut before = part.before;
    match add_pack(alloc, file, reader, k, &mut before) {
        Ok(()) => Ok(Part { from, before, next }),
        Err(error) => Err(error),
    }
}

// Goes past a pack: gives the rows of the handles below its first, where there are some, or else
// reads it.
fn past_pack<R: Reader, F: Fn(&Cells) -> bool>(
    alloc: Global,
    snapshot: &Snapshot<R::Grip>,
    sieve: &Sieve<F>,
    piece: &SegmentView<R::Grip>,
    file: &StableFile<R::Grip>,
    reader: &mut R,
    part: Part,
    k: u64,
) -> Result<Below, ReadError>
    requires pack { k < length (packs_of file.now) }
    requires file { piece.now.stable ≡ Some file.now }
    requires within { (pack : Pack) → slice_get (packs_of file.now) k ≡ Some pack → is_below pack.low piece.now.range.high ≡ true }
    requires callable { F.IsAlwaysCallable sieve.now.test }
    ensures exact { R.Grip.tells → (pack : Pack) → slice_get (packs_of file.now) k ≡ Some pack → GivesPast R.Grip.bytes snapshot.now (answers_of F.Fn sieve.now.test) piece.now part pack result }
    ensures rows { IfOk result (IsBelow snapshot.now piece.now.range) }
    ensures cause { HasReadCause (R.fault_count reader.old) (R.fault_count reader.new) result }
{
    let Ok(below) = rows_below(alloc, snapshot, sieve, piece, part, file.low(k)) else {
        return Err(ReadError::Memory);
    };
    if below.rows.len() > 0 {
        return Ok(below);
    }
    match with_pack(alloc, file, reader, below.part, k) {
        Ok(part) => Ok(Below {
            rows: Block::new(alloc),
            part,
        }),
        Err(error) => Err(error),
    }
}

// The last rows of a piece, of which no pack is left.
fn last_rows<G: Gripped, F: Fn(&Cells) -> bool>(
    alloc: Global,
    snapshot: &Snapshot<G>,
    sieve: &Sieve<F>,
    piece: &SegmentView<G>,
    part: Part,
) -> Result<Found, ReadError>
    requires { F.IsAlwaysCallable sieve.now.test }
    ensures exact { IfOk result (λ found. Leaves G.Gripped.bytes snapshot.now (answers_of F.Fn sieve.now.test) piece.now (rest_of piece.now.range part.from) part.before [] found.rows None) }
    ensures last { IfOk result (λ found. found.part ≡ None) }
    ensures rows { IfOk result (IsFound snapshot.now piece.now.range) }
    ensures memory { IfErr result (λ e. e ≡ errors.Memory) }
{
    let rest = rest_of(piece.range, part.from);
    match rows_over(alloc, snapshot, sieve, rest, part.before, &piece.delta) {
        Ok(rows) => Ok(Found { rows, part: None }),
        Err(_) => Err(ReadError::Memory),
    }
}

// The next rows of a piece with a stable file.
fn next_of_file<R: Reader, F: Fn(&Cells) -> bool>(
    alloc: Global,
    snapshot: &Snapshot<R::Grip>,
    sieve: &Sieve<F>,
    piece: &SegmentView<R::Grip>,
    file: &StableFile<R::Grip>,
    reader: &mut R,
    part: Part,
) -> Result<Found, ReadError>
    requires file { piece.now.stable ≡ Some file.now }
    requires callable { F.IsAlwaysCallable sieve.now.test }
    ensures exact { R.Grip.tells → GivesFound R.Grip.bytes snapshot.now (answers_of F.Fn sieve.now.test) sieve.now.bound piece.now part result }
    ensures rows { IfOk result (IsFound snapshot.now piece.now.range) }
    ensures cause { HasReadCause (R.fault_count reader.old) (R.fault_count reader.new) result }
{
    let first = part.next;
    let mut left = part;
    for k in first..file.packs() {
        if !is_read(snapshot, sieve, piece, file, k) {
            continue;
        }
        match past_pack(alloc, snapshot, sieve, piece, file, reader, left, k) {
            Err(error) => return Err(error),
            Ok(below) => {
                let Below { rows, part } = below;
                if rows.len() > 0 {
                    return Ok(found_at(rows, part, k));
                }
                left = part;
            }
        }
    }
    last_rows(alloc, snapshot, sieve, piece, left)
}

// These rows, before the pack at a place.
fn found_at(rows: Block, part: Part, k: u64) -> Found
    ensures rows { result.rows ≡ rows }
    ensures part { IfSome result.part (λ left. (left.from ≡ part.from) × (left.before ≡ part.before) × (left.next ≡ k)) }
    ensures some { IsSome result.part }
{
    Found {
        rows,
        part: Some(Part {
            from: part.from,
            before: part.before,
            next: k,
        }),
    }
}

// The next rows of a piece.
pub fn next_of_piece<R: Reader, F: Fn(&Cells) -> bool>(
    alloc: Global,
    snapshot: &Snapshot<R::Grip>,
    sieve: &Sieve<F>,
    piece: &SegmentView<R::Grip>,
    reader: &mut R,
    part: Part,
) -> Result<Found, ReadError>
    requires { F.IsAlwaysCallable sieve.now.test }
    ensures exact { R.Grip.tells → GivesFound R.Grip.bytes snapshot.now (answers_of F.Fn sieve.now.test) sieve.now.bound piece.now part result }
    ensures rows { IfOk result (IsFound snapshot.now piece.now.range) }
    ensures cause { HasReadCause (R.fault_count reader.old) (R.fault_count reader.new) result }
{
    match &piece.stable {
        Some(file) => next_of_file(alloc, snapshot, sieve, piece, file, reader, part),
        None => last_rows(alloc, snapshot, sieve, piece, part),
    }
}
