// Writers of edits.
ghost use Rattle.std.specs.Prelude.{◌≡◌, ◌++◌, ◌∷◌, [], ◌<◌, ◌^◌, ◌≤◌, length, OnOk, FitsSigned};
ghost use Rattle.std.specs.Int.{w16, w32, w64, to_be_bytes};
ghost use Rattle.std.specs.List.{All, flat_map};
ghost use Rattle.flash_put.specs.Appending.{Appends};
ghost use Rattle.manifest_form.specs.Spelling as spelling;
ghost use Rattle.manifest_form.specs.Spelling.{ColumnFits, EndFits, RangeFits, NameFits, StoredFits, SegmentFits, EditFits};

use crate::state::{Edit, StoredFile, StoredSegment};
use column_block::{Column, Kind};
use flash_io::FileId;
use flash_put::{put_bytes, put_i64, put_u8, put_u16, put_u32, put_u64};
use flash_types::HandleRange;
use std::alloc::AllocError;

#[tactic(auto, using(flash_put::proofs::Appending::kept))]
fn put_end(end: i64, into: &mut Vec<u8>) -> Result<(), AllocError>
    ensures bytes { Appends result into.old.items (1 ∷ spelling.handle end) into.new.items }
    ensures fits { EndFits (Some end) }
{
    put_u8(1, into)?;
    put_i64(end, into)
}

#[tactic(auto, using(flash_put::proofs::Appending::kept))]
fn put_high(end: Option<i64>, into: &mut Vec<u8>) -> Result<(), AllocError>
    ensures bytes { Appends result into.old.items (spelling.high end) into.new.items }
    ensures fits { EndFits end }
{
    match end {
        None => put_u8(0, into),
        Some(end) => put_end(end, into),
    }
}

#[tactic(auto, using(flash_put::proofs::Appending::kept))]
fn put_range(low: i64, high: Option<i64>, into: &mut Vec<u8>) -> Result<(), AllocError>
    ensures bytes { Appends result into.old.items (spelling.handle low ++ spelling.high high) into.new.items }
    ensures fits { FitsSigned w64 low × EndFits high }
{
    put_i64(low, into)?;
    put_high(high, into)
}

// A byte that tells the kind, and a file.
#[tactic(auto, using(flash_put::proofs::Appending::kept))]
fn put_file(kind: u8, file: FileId, into: &mut Vec<u8>) -> Result<(), AllocError>
    ensures { Appends result into.old.items (kind ∷ to_be_bytes w32 file) into.new.items }
{
    put_u8(kind, into)?;
    put_u32(file, into)
}

fn put_stable(stable: Option<FileId>, into: &mut Vec<u8>) -> Result<(), AllocError>
    ensures bytes { Appends result into.old.items (spelling.stable stable) into.new.items }
    ensures fits { NameFits stable }
{
    match stable {
        None => put_u8(0, into),
        Some(file) => put_file(1, file, into),
    }
}

fn put_span(range: &HandleRange, into: &mut Vec<u8>) -> Result<(), AllocError>
    ensures bytes { Appends result into.old.items (spelling.range range.now) into.new.items }
    ensures fits { RangeFits range.now }
{
    put_range(range.low, range.high, into)
}

#[tactic(auto, using(flash_put::proofs::Appending::kept))]
fn put_cleared(range: &HandleRange, into: &mut Vec<u8>) -> Result<(), AllocError>
    ensures bytes { Appends result into.old.items (2 ∷ spelling.range range.now) into.new.items }
    ensures fits { OnOk result (RangeFits range.now) }
{
    put_u8(2, into)?;
    put_span(range, into)
}

#[tactic(auto, unfolding(crate::specs::Spelling::stored))]
fn put_stored(file: &StoredFile, into: &mut Vec<u8>) -> Result<(), AllocError>
    ensures bytes { Appends result into.old.items (spelling.stored file.now) into.new.items }
    ensures fits { OnOk result (StoredFits file.now) }
{
    match file {
        StoredFile::Tiny { file } => put_file(1, *file, into),
        StoredFile::DeleteRange { range } => put_cleared(range, into),
    }
}

fn put_each(files: &[StoredFile], into: &mut Vec<u8>) -> Result<(), AllocError>
    ensures bytes { Appends result into.old.items (flat_map spelling.stored files.now) into.new.items }
    ensures fits { OnOk result (All StoredFits files.now) }
{
    for file in files {
        put_stored(file, into)?;
    }
    Ok(())
}

#[tactic(auto, using(flash_put::proofs::Appending::kept))]
fn put_delta(files: &[StoredFile], into: &mut Vec<u8>) -> Result<(), AllocError>
    ensures bytes { Appends result into.old.items (to_be_bytes w64 (length files.now) ++ flat_map spelling.stored files.now) into.new.items }
    ensures fits { OnOk result ((length files.now < 2 ^ 64) × All StoredFits files.now) }
{
    put_u64(files.len() as u64, into)?;
    put_each(files, into)
}

// What a segment has behind its id.
#[tactic(auto, using(flash_put::proofs::Appending::kept))]
fn put_parts(segment: &StoredSegment, into: &mut Vec<u8>) -> Result<(), AllocError>
    ensures bytes { Appends result into.old.items (spelling.range segment.now.range ++ (spelling.stable segment.now.stable ++ (to_be_bytes w64 (length segment.now.delta) ++ flat_map spelling.stored segment.now.delta))) into.new.items }
    ensures fits { OnOk result (RangeFits segment.now.range × (NameFits segment.now.stable × ((length segment.now.delta < 2 ^ 64) × All StoredFits segment.now.delta))) }
{
    put_span(&segment.range, into)?;
    put_stable(segment.stable, into)?;
    put_delta(segment.delta.as_slice(), into)
}

#[tactic(auto, using(flash_put::proofs::Appending::kept), unfolding(crate::specs::Spelling::segment))]
fn put_segment(segment: &StoredSegment, into: &mut Vec<u8>) -> Result<(), AllocError>
    ensures bytes { Appends result into.old.items (2 ∷ spelling.segment segment.now) into.new.items }
    ensures fits { OnOk result (SegmentFits segment.now) }
{
    put_file(2, segment.id, into)?;
    put_parts(segment, into)
}

#[tactic(auto, using(flash_put::proofs::Appending::kept))]
fn put_mark(entries: u64, chain: &[u8], into: &mut Vec<u8>) -> Result<(), AllocError>
    ensures { Appends result into.old.items (4 ∷ (to_be_bytes w64 entries ++ chain.now)) into.new.items }
{
    put_u8(4, into)?;
    put_u64(entries, into)?;
    put_bytes(chain, into)
}

// A byte that tells the kind, and a number of 8 bytes.
#[tactic(auto, using(flash_put::proofs::Appending::kept))]
fn put_number(kind: u8, number: u64, into: &mut Vec<u8>) -> Result<(), AllocError>
    ensures { Appends result into.old.items (kind ∷ to_be_bytes w64 number) into.new.items }
{
    put_u8(kind, into)?;
    put_u64(number, into)
}

#[tactic(auto, unfolding(crate::specs::Spelling::edit))]
fn put_edit(edit: &Edit, into: &mut Vec<u8>) -> Result<(), AllocError>
    ensures bytes { Appends result into.old.items (spelling.edit edit.now) into.new.items }
    ensures fits { OnOk result (EditFits edit.now) }
{
    match edit {
        Edit::Next { file } => put_file(1, *file, into),
        Edit::Segment { segment } => put_segment(segment, into),
        Edit::Drop { id } => put_file(3, *id, into),
        Edit::High { entries, chain } => put_mark(*entries, chain, into),
        Edit::SafePoint { ts } => put_number(5, *ts, into),
        Edit::Regions { file } => put_file(6, *file, into),
        Edit::Count { entries } => put_number(7, *entries, into),
    }
}

/// Writes edits, one behind the other.
pub fn put_edits(edits: &[Edit], into: &mut Vec<u8>) -> Result<(), AllocError>
    ensures bytes { Appends result into.old.items (flat_map spelling.edit edits.now) into.new.items }
    ensures fits { OnOk result (All EditFits edits.now) }
{
    for edit in edits {
        put_edit(edit, into)?;
    }
    Ok(())
}

fn kind_byte(kind: Kind) -> u8
    ensures { result ≡ spelling.kind kind }
{
    match kind {
        Kind::Int => 1,
        Kind::Uint => 2,
        Kind::Bytes => 3,
    }
}

#[tactic(auto, using(flash_put::proofs::Appending::kept), unfolding(crate::specs::Spelling::column))]
fn put_column(id: u32, kind: Kind, into: &mut Vec<u8>) -> Result<(), AllocError>
    ensures bytes { Appends result into.old.items (spelling.column (record { id = id; kind = kind })) into.new.items }
    ensures fits { id < 2 ^ 32 }
{
    put_u32(id, into)?;
    put_u8(kind_byte(kind), into)
}

fn put_each_column(columns: &[Column], into: &mut Vec<u8>) -> Result<(), AllocError>
    ensures bytes { Appends result into.old.items (flat_map spelling.column columns.now) into.new.items }
    ensures fits { OnOk result (All ColumnFits columns.now) }
{
    for column in columns {
        put_column(column.id, column.kind, into)?;
    }
    Ok(())
}

#[tactic(auto, using(flash_put::proofs::Appending::kept))]
fn put_columns(columns: &[Column], into: &mut Vec<u8>) -> Result<(), AllocError>
    requires few { length columns.now ≤ 64 }
    ensures bytes { Appends result into.old.items (to_be_bytes w16 (length columns.now) ++ flat_map spelling.column columns.now) into.new.items }
    ensures fits { OnOk result (All ColumnFits columns.now) }
{
    put_u16(columns.len() as u16, into)?;
    put_each_column(columns, into)
}

#[tactic(auto, using(flash_put::proofs::Appending::kept))]
fn put_table(table: i64, columns: &[Column], into: &mut Vec<u8>) -> Result<(), AllocError>
    requires few { length columns.now ≤ 64 }
    ensures bytes { Appends result into.old.items (spelling.handle table ++ (to_be_bytes w16 (length columns.now) ++ flat_map spelling.column columns.now)) into.new.items }
    ensures fits { OnOk result (All ColumnFits columns.now) }
{
    put_i64(table, into)?;
    put_columns(columns, into)
}

/// Writes the header of a manifest.
#[tactic(auto, using(flash_put::proofs::Appending::kept))]
pub fn put_header(table: i64, columns: &[Column], into: &mut Vec<u8>) -> Result<(), AllocError>
    requires few { length columns.now ≤ 64 }
    ensures bytes { Appends result into.old.items (spelling.header table columns.now) into.new.items }
    ensures fits { OnOk result (FitsSigned w64 table × All ColumnFits columns.now) }
{
    put_bytes(&[b'F', b'L', b'M', b'F', 0, 1], into)?;
    put_table(table, columns, into)
}
