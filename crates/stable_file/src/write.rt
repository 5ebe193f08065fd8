// Stable files that are written.
ghost use Rattle.std.specs.Prelude.{◌≡◌, ◌+◌, ◌-◌, ◌*◌, ◌++◌, ◌<◌, ◌≤◌, ◌^◌, length, take, drop, slice_range, OnOk, OnErr, IsTrue};
ghost use Rattle.std.specs.List.{flat_map, AllByRecursion};
ghost use Rattle.flash_put.specs.Appending.{Appends};
ghost use Rattle.pack_codec.specs.Spelling.{pack, PackFits};
ghost use Rattle.column_block.specs.Order.{rise};
ghost use Rattle.stable_file.specs.Building as building;
ghost use Rattle.stable_file.specs.Building.{FileFits};

use crate::footer::END_MAGIC;
use crate::ranges::{handle_at, range_in};
use column_block::{Block, Column, Kind, Memory, MinMax, Schema};
use flash_put::{put_bytes, put_i64, put_u8, put_u32, put_u64};
use pack_codec::write_pack;
use std::alloc::{AllocError, Global};

// `FLST`
const MAGIC: u32 = 0x464C_5354;

// ---- the entry of a pack

// The last 64 bits of a number.
#[tactic(auto, unfolding(crate::specs::Building::bits))]
fn bits(n: i128) -> u64
    ensures { result ≡ building.bits n }
{
    (n.cast_unsigned() % (1 << 64)) as u64
}

fn put_number(n: i128, into: &mut Vec<u8>) -> Result<(), AllocError>
    ensures { Appends result into.old.items (building.number n) into.new.items }
{
    put_u64(bits(n), into)
}

#[tactic(auto, using(flash_put::proofs::Appending::kept))]
fn put_both(least: i128, greatest: i128, into: &mut Vec<u8>) -> Result<(), AllocError>
    ensures { Appends result into.old.items (building.number least ++ building.number greatest) into.new.items }
{
    put_number(least, into)?;
    put_number(greatest, into)
}

#[tactic(auto, using(flash_put::proofs::Appending::kept), unfolding(crate::specs::Building::numbers))]
fn put_numbers(range: MinMax, into: &mut Vec<u8>) -> Result<(), AllocError>
    ensures { Appends result into.old.items (building.numbers range) into.new.items }
{
    match range {
        MinMax::Empty => put_u8(0, into),
        MinMax::Of { least, greatest } => {
            put_u8(1, into)?;
            put_both(least, greatest, into)
        }
    }
}

// The range of a column's numbers.
fn put_range(
    block: &Block,
    from: usize,
    to: usize,
    kind: Kind,
    column: usize,
    into: &mut Vec<u8>,
) -> Result<(), AllocError>
    requires order { from ≤ to }
    requires within { to ≤ length block.now }
    ensures { Appends result into.old.items (building.range kind column (slice_range block.now from to)) into.new.items }
{
    match kind {
        Kind::Bytes => put_bytes(&[], into),
        Kind::Int => put_numbers(range_in(block, from, to, column), into),
        Kind::Uint => put_numbers(range_in(block, from, to, column), into),
    }
}

fn put_ranges(
    block: &Block,
    from: usize,
    to: usize,
    columns: &[Column],
    into: &mut Vec<u8>,
) -> Result<(), AllocError>
    requires order { from ≤ to }
    requires within { to ≤ length block.now }
    ensures { Appends result into.old.items (building.ranges columns.now 0 (slice_range block.now from to)) into.new.items }
{
    for k in 0..columns.len() {
        put_range(block, from, to, columns[k].kind, k, into)?;
    }
    Ok(())
}

// Place, length and number of versions.
#[tactic(auto, using(flash_put::proofs::Appending::kept), unfolding(crate::specs::Building::sizes))]
fn put_sizes(place: u64, len: u64, count: u32, into: &mut Vec<u8>) -> Result<(), AllocError>
    ensures { Appends result into.old.items (building.sizes place len count) into.new.items }
{
    put_u64(place, into)?;
    put_u64(len, into)?;
    put_u32(count, into)
}

// The least and the greatest handle.
#[tactic(auto, using(flash_put::proofs::Appending::kept), unfolding(crate::specs::Building::handles))]
fn put_handles(block: &Block, from: usize, to: usize, into: &mut Vec<u8>) -> Result<(), AllocError>
    requires some { from < to }
    requires within { to ≤ length block.now }
    ensures { Appends result into.old.items (building.handles (slice_range block.now from to)) into.new.items }
{
    put_i64(handle_at(block, from), into)?;
    put_i64(handle_at(block, to - 1), into)
}

#[tactic(auto, using(flash_put::proofs::Appending::kept), unfolding(crate::specs::Building::entry_of))]
fn put_entry(
    block: &Block,
    from: usize,
    to: usize,
    columns: &[Column],
    place: u64,
    len: u64,
    into: &mut Vec<u8>,
) -> Result<(), AllocError>
    requires some { from < to }
    requires few { to - from < 2 ^ 32 }
    requires within { to ≤ length block.now }
    ensures { Appends result into.old.items (building.entry_of columns.now place len (slice_range block.now from to)) into.new.items }
{
    put_sizes(place, len, (to - from) as u32, into)?;
    put_handles(block, from, to, into)?;
    put_ranges(block, from, to, columns, into)
}

// ---- packs

// A pack behind what was written from place `start` on, and its entry.
#[tactic(auto, using(flash_put::proofs::Appending::kept))]
fn put_pack(
    alloc: Global,
    block: &Block,
    from: usize,
    to: usize,
    schema: &Schema,
    start: usize,
    into: &mut Vec<u8>,
    footer: &mut Vec<u8>,
) -> Result<(), AllocError>
    requires some { from < to }
    requires few { to - from < 2 ^ 32 }
    requires within { to ≤ length block.now }
    requires start { start ≤ length into.old.items }
    ensures bytes { Appends result into.old.items (pack schema.now (slice_range block.now from to)) into.new.items }
    ensures entry { Appends result footer.old.items (building.entry schema.now (length into.old.items - start) (slice_range block.now from to)) footer.new.items }
    ensures fits { OnOk result (PackFits schema.now (slice_range block.now from to)) }
{
    let before = into.len();
    write_pack(alloc, block, from, to, schema, into)?;
    let place = (before - start) as u64;
    let len = (into.len() - before) as u64;
    put_entry(block, from, to, schema.columns(), place, len, footer)
}

// Where the cut of so many rows ends that begins at place `from`.
fn end_of(block: &Block, from: usize, rows: u32) -> usize
    requires { from ≤ length block.now }
    ensures order { from ≤ result }
    ensures within { result ≤ length block.now }
    ensures few { result ≤ from + rows }
    ensures some { from < length block.now → 0 < rows → from < result }
    ensures cut { slice_range block.now from result ≡ take rows (drop from block.now) }
    ensures rest { drop result block.now ≡ drop rows (drop from block.now) }
{
    if block.len() - from < rows as usize {
        return block.len();
    }
    from + rows as usize
}

// The packs behind what was written from place `start` on, and their entries.
fn put_packs(
    alloc: Global,
    block: &Block,
    packs: usize,
    rows: u32,
    schema: &Schema,
    start: usize,
    into: &mut Vec<u8>,
    footer: &mut Vec<u8>,
) -> Result<(), AllocError>
    requires rows { 0 < rows }
    requires reach { (packs - 1) * rows < length block.now }
    requires start { start + 4 ≡ length into.old.items }
    ensures bytes { Appends result into.old.items (flat_map (pack schema.now) (building.first_cuts packs rows block.now)) into.new.items }
    ensures entries { Appends result footer.old.items (building.entries schema.now 4 (building.first_cuts packs rows block.now)) footer.new.items }
    ensures fits { OnOk result (AllByRecursion (PackFits schema.now) (building.first_cuts packs rows block.now)) }
{
    let mut from = 0;
    for _ in 0..packs {
        let to = end_of(block, from, rows);
        put_pack(alloc, block, from, to, schema, start, into, footer)?;
        from = to;
    }
    Ok(())
}

// ---- the file

// How many packs of so many rows some versions need.
fn packs_for(versions: usize, rows: u32) -> usize
    requires some { 0 < versions }
    requires rows { 0 < rows }
    ensures exact { result ≡ building.packs_for rows versions }
    ensures reach { (result - 1) * rows < versions }
{
    (versions - 1) / rows as usize + 1
}

// A footer, its length and `FLSE`.
#[tactic(auto, using(flash_put::proofs::Appending::kept), unfolding(crate::specs::Building::ending))]
fn put_ending(footer: &[u8], into: &mut Vec<u8>) -> Result<(), AllocError>
    ensures { Appends result into.old.items (building.ending footer.now) into.new.items }
{
    put_bytes(footer, into)?;
    put_u64(footer.len() as u64, into)?;
    put_u32(END_MAGIC, into)
}

#[tactic(auto, using(flash_put::proofs::Appending::kept), unfolding(crate::specs::Building::file_of))]
fn put_file(
    alloc: Global,
    block: &Block,
    schema: &Schema,
    rows: u32,
    into: &mut Vec<u8>,
) -> Result<(), AllocError>
    requires some { 0 < length block.now }
    requires rows { 0 < rows }
    ensures bytes { Appends result into.old.items (building.file schema.now rows block.now) into.new.items }
    ensures fits { OnOk result (AllByRecursion (PackFits schema.now) (building.cuts rows block.now)) }
{
    let start = into.len();
    let packs = packs_for(block.len(), rows);
    let mut footer = Vec::new(alloc);
    put_u32(MAGIC, into)?;
    put_packs(alloc, block, packs, rows, schema, start, into, &mut footer)?;
    put_u64(packs as u64, &mut footer)?;
    put_ending(footer.as_slice(), into)
}

/// Writes the versions of a block at the end of `into`, as the bytes of a stable file whose packs
/// have `pack_rows` versions each, and the last one the rest. `attach` describes the form; a footer
/// tells of each pack its first and last handle, and the least and the greatest number of each
/// column of numbers, nulls aside.
///
/// The packs are read again as the same versions (`built_packs_are_read_again`), and the footer as
/// these packs (`built_footers_are_read_again`), where the versions suit the schema: one that is gone
/// has no cells, and any other has one for each column, null or of the column's kind. A cell that is
/// missing or of another kind is written as null.
///
/// For want of memory `into` is as it was.
pub fn build(
    alloc: Global,
    versions: &Block,
    schema: &Schema,
    pack_rows: u32,
    into: &mut Vec<u8>,
) -> Result<(), Memory>
    requires rise { IsTrue (rise versions.now) }
    requires rows { 0 < pack_rows }
    ensures ok { OnOk result (into.new.items ≡ into.old.items ++ building.file schema.now pack_rows versions.now) }
    ensures fits { OnOk result (FileFits schema.now pack_rows versions.now) }
    ensures err { OnErr result (into.new.items ≡ into.old.items) }
{
    let len = into.len();
    match put_file(alloc, versions, schema, pack_rows, into) {
        Ok(()) => Ok(()),
        Err(_) => {
            into.truncate(len);
            Err(Memory)
        }
    }
}
