// Scans of snapshots.
ghost use Rattle.std.specs.Prelude.{◌≡◌, ◌≤◌, ◌<◌, ◌+◌, ◌^◌, [], true, false, ℕ, length, take, drop, slice_range, IfOk, IfSome, IfErr, OnOk, None, Some, Ok, Err};
ghost use Rattle.stable_file.specs.Faults.{HasReadCause};
ghost use Rattle.stable_file.specs.declared.fault.ReadError.{ReadError};
ghost use Rattle.stable_file.specs.declared.fault.ReadError.TheVariants.{Memory};
ghost use Rattle.learner_read.specs.Left.{GivesMore, GivesStep, IsFilled, IsSomeBlock, IsStep, LeftBy, next_place};
ghost use Rattle.learner_read.specs.Parts.{GivesInPiece, IsFound, LeftIn};
ghost use Rattle.learner_read.specs.Scans.{AreRows, AreRowsOrNone, GivesNext, Scans, answers_of};

use crate::part::next_of_piece;
use crate::pieces::is_needed;
use crate::snapshot::Snapshot;
use crate::state::{Found, Part, Step};
use column_block::{Block, Cells};
use delta_layer::SegmentView;
use flash_io::Reader;
use sieve::Sieve;
use stable_file::ReadError;
use std::alloc::Global;

/// A scan of some pieces of a snapshot, one behind the other. It gives the rows that pass its sieve
/// in blocks, by rising handles, and reads a pack when it needs it.
#[derive(Drop)]
pub struct RowScan<'a, R: Reader, F: Fn(&Cells) -> bool> {
    alloc: Global,
    snapshot: &'a Snapshot<R::Grip>,
    reader: &'a mut R,
    sieve: &'a Sieve<F>,
    // the place of the piece that it is in or comes to, the end of its pieces, and what is left of
    // the piece that it is in
    next: usize,
    to: usize,
    part: Option<Part>,
    // the rows that were found, and the place of the first that wasn't given
    found: Block,
    given: usize,
    failed: Option<ReadError>,
}

/// The scan of a snapshot from its first row on, through this reader, of the rows that pass the
/// sieve. It takes no memory and reads nothing.
pub fn scan<'a, R: Reader, F: Fn(&Cells) -> bool>(
    alloc: Global,
    snapshot: &'a Snapshot<R::Grip>,
    reader: &'a mut R,
    sieve: &'a Sieve<F>,
) -> RowScan<'a, R, F>
    ensures snapshot { result.snapshot.now ≡ snapshot.now }
    ensures sieve { result.sieve.now ≡ sieve.now }
    ensures same_reader { result.reader.ghost_name ≡ reader.entry.ghost_name }
    ensures reader { result.reader.now ≡ reader.old }
    ensures start { (result.next ≡ 0) × (result.part ≡ None) × (result.found ≡ []) }
    ensures end { result.to ≡ length snapshot.now.pieces }
    ensures lawful { AreRowsOrNone result.snapshot.now result.found }
    ensures sound { result.failed ≡ None }
{
    let to = snapshot.len();
    scan_pieces(alloc, snapshot, 0, to, reader, sieve)
}

/// The scan of the pieces of a snapshot from place `from` up to and without place `to`, or their end,
/// as [`scan`] gives it of all.
pub fn scan_pieces<'a, R: Reader, F: Fn(&Cells) -> bool>(
    alloc: Global,
    snapshot: &'a Snapshot<R::Grip>,
    from: usize,
    to: usize,
    reader: &'a mut R,
    sieve: &'a Sieve<F>,
) -> RowScan<'a, R, F>
    ensures snapshot { result.snapshot.now ≡ snapshot.now }
    ensures sieve { result.sieve.now ≡ sieve.now }
    ensures same_reader { result.reader.ghost_name ≡ reader.entry.ghost_name }
    ensures reader { result.reader.now ≡ reader.old }
    ensures start { (result.next ≡ from) × (result.part ≡ None) × (result.found ≡ []) }
    ensures end { result.to ≡ to }
    ensures lawful { AreRowsOrNone result.snapshot.now result.found }
    ensures sound { result.failed ≡ None }
{
    RowScan {
        alloc,
        snapshot,
        reader,
        sieve,
        next: from,
        to,
        part: None,
        found: Block::new(alloc),
        given: 0,
        failed: None,
    }
}

// The first rows of a piece. They may be none where nothing is left of it behind them.
fn in_new<R: Reader, F: Fn(&Cells) -> bool>(
    alloc: Global,
    snapshot: &Snapshot<R::Grip>,
    sieve: &Sieve<F>,
    piece: &SegmentView<R::Grip>,
    reader: &mut R,
) -> Result<Found, ReadError>
    requires { F.IsAlwaysCallable sieve.now.test }
    ensures exact { R.Grip.tells → GivesInPiece R.Grip.bytes snapshot.now (answers_of F.Fn sieve.now.test) sieve.now.bound None piece.now result }
    ensures rows { IfOk result (IsFound snapshot.now piece.now.range) }
    ensures cause { HasReadCause (R.fault_count reader.old) (R.fault_count reader.new) result }
{
    if !is_needed(snapshot.clip(), snapshot.cuts(), piece.range) {
        return Ok(Found {
            rows: Block::new(alloc),
            part: None,
        });
    }
    next_of_piece(alloc, snapshot, sieve, piece, reader, Part::new(alloc))
}

// The next rows of a piece of which so much is left, all at first. They may be none where nothing is
// left of it behind them.
fn in_piece<R: Reader, F: Fn(&Cells) -> bool>(
    alloc: Global,
    snapshot: &Snapshot<R::Grip>,
    sieve: &Sieve<F>,
    piece: &SegmentView<R::Grip>,
    reader: &mut R,
    part: Option<Part>,
) -> Result<Found, ReadError>
    requires { F.IsAlwaysCallable sieve.now.test }
    ensures exact { R.Grip.tells → GivesInPiece R.Grip.bytes snapshot.now (answers_of F.Fn sieve.now.test) sieve.now.bound part piece.now result }
    ensures rows { IfOk result (IsFound snapshot.now piece.now.range) }
    ensures cause { HasReadCause (R.fault_count reader.old) (R.fault_count reader.new) result }
{
    match part {
        Some(part) => next_of_piece(alloc, snapshot, sieve, piece, reader, part),
        None => in_new(alloc, snapshot, sieve, piece, reader),
    }
}

// Where the scan is behind rows that were found in the piece at a place.
fn step_at(rows: Block, part: Option<Part>, k: usize) -> Step
    requires { k + 1 < 2 ^ 64 }
    ensures rows { result.rows ≡ rows }
    ensures part { result.part ≡ part }
    ensures next { result.next ≡ next_place k part }
{
    match part {
        None => Step {
            rows,
            next: k + 1,
            part: None,
        },
        Some(part) => Step {
            rows,
            next: k,
            part: Some(part),
        },
    }
}

// The lesser of two numbers.
fn lesser(a: usize, b: usize) -> usize
    ensures first { result ≤ a }
    ensures second { result ≤ b }
    ensures most { (n : ℕ) → n ≤ a → n ≤ b → n ≤ result }
{
    if a < b {
        return a;
    }
    b
}

// The next rows of the pieces from place `from` up to and without place `to`, of the first of which so
// much is left, all at first; none where none has some.
fn next_rows<R: Reader, F: Fn(&Cells) -> bool>(
    alloc: Global,
    snapshot: &Snapshot<R::Grip>,
    sieve: &Sieve<F>,
    reader: &mut R,
    from: usize,
    to: usize,
    part: Option<Part>,
) -> Result<Option<Step>, ReadError>
    requires { F.IsAlwaysCallable sieve.now.test }
    ensures exact { R.Grip.tells → GivesStep (λ next part. LeftIn R.Grip.bytes snapshot.now (answers_of F.Fn sieve.now.test) sieve.now.bound part (drop next (take to snapshot.now.pieces))) (LeftIn R.Grip.bytes snapshot.now (answers_of F.Fn sieve.now.test) sieve.now.bound part (drop from (take to snapshot.now.pieces))) result }
    ensures rows { IfOk result (λ step. IfSome step (IsStep snapshot.now)) }
    ensures cause { HasReadCause (R.fault_count reader.old) (R.fault_count reader.new) result }
{
    let end = lesser(to, snapshot.len());
    let mut left = part;
    for k in from..end {
        match in_piece(alloc, snapshot, sieve, snapshot.piece(k), reader, left) {
            Err(error) => return Err(error),
            Ok(found) => {
                let Found { rows, part } = found;
                if rows.len() > 0 {
                    return Ok(Some(step_at(rows, part, k)));
                }
                left = None;
            }
        }
    }
    Ok(None)
}

// The place behind the rows of the next block, of so many that were found and so many that were given.
fn end_of(len: usize, given: usize, most: u32) -> usize
    requires left { given < len }
    requires some { 0 < most }
    ensures some { given < result }
    ensures within { result ≤ len }
    ensures most { result ≤ given + most }
{
    let most = most as usize;
    if len - given <= most {
        return len;
    }
    given + most
}

impl<'a, R: Reader, F: Fn(&Cells) -> bool> RowScan<'a, R, F> {
    // Gives the next of the rows that were found.
    fn give(&mut self) -> Result<Option<Block>, ReadError>
        requires left { self.old.given < length self.old.found }
        ensures snapshot { self.new.snapshot.now ≡ self.old.snapshot.now }
        ensures sieve { self.new.sieve.now ≡ self.old.sieve.now }
        ensures same_reader { self.new.reader.ghost_name ≡ self.old.reader.ghost_name }
        ensures reader { self.new.reader.now ≡ self.old.reader.now }
        ensures state { (self.new.next ≡ self.old.next) × (self.new.to ≡ self.old.to) × (self.new.part ≡ self.old.part) × (self.new.found ≡ self.old.found) }
        ensures block { IfOk result (IsSomeBlock self.old.snapshot.now.pack_rows self.old.found self.old.given self.new.given) }
        ensures fails { IfErr result (λ e. (e ≡ Memory) × (self.new.failed ≡ Some e)) }
        ensures goes_on { OnOk result (self.new.failed ≡ self.old.failed) }
    {
        let to = end_of(self.found.len(), self.given, self.snapshot.pack_rows());
        let Ok(block) = self.found.slice(self.given, to) else {
            self.failed = Some(ReadError::Memory);
            return Err(ReadError::Memory);
        };
        self.given = to;
        Ok(Some(block))
    }

    // Looks for the next rows. It answers whether it found some.
    fn find(&mut self) -> Result<bool, ReadError>
        requires { F.IsAlwaysCallable self.old.sieve.now.test }
        ensures snapshot { self.new.snapshot.now ≡ self.old.snapshot.now }
        ensures sieve { self.new.sieve.now ≡ self.old.sieve.now }
        ensures same_reader { self.new.reader.ghost_name ≡ self.old.reader.ghost_name }
        ensures end { self.new.to ≡ self.old.to }
        ensures exact { R.Grip.tells → GivesMore (LeftIn R.Grip.bytes self.old.snapshot.now (answers_of F.Fn self.old.sieve.now.test) self.old.sieve.now.bound self.old.part (drop self.old.next (take self.old.to self.old.snapshot.now.pieces))) (LeftIn R.Grip.bytes self.old.snapshot.now (answers_of F.Fn self.old.sieve.now.test) self.old.sieve.now.bound self.new.part (drop self.new.next (take self.old.to self.old.snapshot.now.pieces))) self.new.found result }
        ensures rows { IfOk result (IsFilled self.old.snapshot.now self.old.found self.new.found self.old.given self.new.given) }
        ensures cause { HasReadCause (R.fault_count self.old.reader.now) (R.fault_count self.new.reader.now) result }
        ensures fails { IfErr result (λ e. (self.new.failed ≡ Some e) × (self.new.found ≡ self.old.found)) }
        ensures goes_on { OnOk result (self.new.failed ≡ self.old.failed) }
    {
        let part = self.part.take();
        match next_rows(
            self.alloc,
            self.snapshot,
            self.sieve,
            self.reader,
            self.next,
            self.to,
            part,
        ) {
            Err(error) => {
                self.failed = Some(error);
                Err(error)
            }
            Ok(None) => {
                self.next = self.to;
                Ok(false)
            }
            Ok(Some(step)) => {
                let Step { rows, next, part } = step;
                self.next = next;
                self.part = part;
                self.found = rows;
                self.given = 0;
                Ok(true)
            }
        }
    }

    /// The next rows that pass the sieve: from one to the snapshot's `pack_rows`, each version a put
    /// that is its row's newest at the snapshot's timestamp. They share the versions of the files.
    /// None where there is no row any more.
    ///
    /// A pack is read when the rows below its first handle were given. A pack isn't read whose
    /// handles, as the footer tells them, lie outside of the clip, of all cuts or of the piece's range;
    /// nor one of whose rows none may pass, by the range of the numbers in the bound's column, where
    /// neither the delta nor a neighbouring pack has a version of one of its handles. Its form isn't
    /// looked at. `Damaged` names the place in a pack that was read, where it isn't of its form or
    /// doesn't rise from those that were read before; the rows of the handles below the pack's first
    /// were given. `Device` comes only where the reader's count of faults rose. After an error each
    /// call answers the same one again, and reads nothing.
    pub fn next_block(&mut self) -> Result<Option<Block>, ReadError>
        requires { F.IsAlwaysCallable self.old.sieve.now.test }
        ensures snapshot { self.new.snapshot.now ≡ self.old.snapshot.now }
        ensures sieve { self.new.sieve.now ≡ self.old.sieve.now }
        ensures same_reader { self.new.reader.ghost_name ≡ self.old.reader.ghost_name }
        ensures end { self.new.to ≡ self.old.to }
        ensures exact { R.Grip.tells → self.old.failed ≡ None → GivesNext (LeftBy R.Grip.bytes self.old.snapshot.now (answers_of F.Fn self.old.sieve.now.test) self.old.sieve.now.bound self.old.part (drop self.old.next (take self.old.to self.old.snapshot.now.pieces)) (drop self.old.given self.old.found)) (LeftBy R.Grip.bytes self.old.snapshot.now (answers_of F.Fn self.old.sieve.now.test) self.old.sieve.now.bound self.new.part (drop self.new.next (take self.old.to self.old.snapshot.now.pieces)) (drop self.new.given self.new.found)) result }
        ensures rows { AreRowsOrNone self.old.snapshot.now self.old.found → IfOk result (λ block. IfSome block (AreRows self.old.snapshot.now)) }
        ensures lawful { AreRowsOrNone self.old.snapshot.now self.old.found → AreRowsOrNone self.old.snapshot.now self.new.found }
        ensures cause { self.old.failed ≡ None → HasReadCause (R.fault_count self.old.reader.now) (R.fault_count self.new.reader.now) result }
        ensures goes_on { OnOk result (self.new.failed ≡ None) }
        ensures fails { IfErr result (λ e. self.new.failed ≡ Some e) }
        ensures repeats { (e : ReadError) → self.old.failed ≡ Some e → (result ≡ Err e) × (self.new.next ≡ self.old.next) × (R.fault_count self.new.reader.now ≡ R.fault_count self.old.reader.now) }
    {
        if let Some(error) = self.failed {
            return Err(error);
        }
        if self.given < self.found.len() {
            return self.give();
        }
        match self.find() {
            Err(error) => Err(error),
            Ok(false) => Ok(None),
            Ok(true) => self.give(),
        }
    }
}
