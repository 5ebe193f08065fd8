// The steps of a stable file.
ghost use Rattle.std.specs.Prelude.{◌<◌};

use crate::bench::{Bench, Segment};
use crate::layers::Deltas;
use crate::trouble::Trouble;
use column_block::Schema;
use delta_layer::{Piece, present_for_build, stable_piece};
use flash_io::Disk;
use flash_mem::{MemDisk, MemGrip, MemReader};
use stable_file::{StableFile, open};
use std::alloc::Global;

/// A reader that fails at these of its calls.
pub fn reader(alloc: Global, failing: &[u64]) -> Result<MemReader, Trouble> {
    let mut disk = MemDisk::new(alloc);
    let failing = Vec::from_slice(alloc, failing)?;
    match disk.set_reader_failing(failing) {
        Ok(()) => Ok(disk.reader()),
        Err(_) => Err(Trouble::Memory),
    }
}

/// The stable file with these bytes, written to a disk and opened there.
pub fn opened(
    alloc: Global,
    bytes: &[u8],
    schema: &Schema,
) -> Result<StableFile<MemGrip>, Trouble> {
    let mut disk = MemDisk::new(alloc);
    let mut reader = disk.reader();
    let Ok(()) = disk.create(3, bytes) else {
        return Err(Trouble::Memory);
    };
    let Ok(grip) = disk.grip(3) else {
        return Err(Trouble::Memory);
    };
    Ok(open(alloc, grip, bytes.len() as u64, &mut reader, schema)?)
}

// The segment's present versions as a stable file, in packs of so many.
fn piece(alloc: Global, bench: &Bench, pack_rows: u32) -> Result<Piece, Trouble>
    requires { 0 < pack_rows }
{
    let segment = &bench.segment;
    let view = segment.view(&bench.deltas)?;
    let mut reader = reader(alloc, segment.failing.as_slice())?;
    let versions = present_for_build(alloc, &view, &mut reader)?;
    Ok(stable_piece(alloc, segment.range, versions, &segment.schema, pack_rows)?)
}

/// Makes the segment's present versions its stable part, in packs of so many, with nothing above.
pub fn build<R: Print + AllocGlobal>(
    rt: &R,
    bench: &mut Bench,
    pack_rows: u32,
) -> Result<(), Trouble> {
    if pack_rows == 0 {
        return Err(Trouble::Word);
    }
    let piece = piece(rt.alloc(), bench, pack_rows)?;
    bench.deltas = Deltas::new(rt.alloc());
    put(rt, &mut bench.segment, piece.bytes.into_vec())
}

// Makes the bytes the segment's stable file, and prints how many packs it has.
fn put<R: Print + AllocGlobal>(
    rt: &R,
    segment: &mut Segment,
    bytes: Vec<u8>,
) -> Result<(), Trouble> {
    let file = opened(rt.alloc(), bytes.as_slice(), &segment.schema)?;
    println!(rt; "{} packs", file.packs())?;
    segment.bytes = bytes;
    segment.stable = Some(file);
    Ok(())
}

// The place in the stable file that a pack begins at.
fn place(segment: &Segment, pack: u64) -> Result<u64, Trouble> {
    let Some(file) = &segment.stable else {
        return Err(Trouble::Word);
    };
    if file.packs() <= pack {
        return Err(Trouble::Word);
    }
    Ok(file.place(pack).0)
}

/// Flips the first byte of a pack, opens the file again, and prints the pack's place.
pub fn flip<R: Print + AllocGlobal>(
    rt: &R,
    segment: &mut Segment,
    pack: u64,
) -> Result<(), Trouble> {
    let at = place(segment, pack)?;
    println!(rt; "pack {pack} stands at {at}")?;
    let mut bytes = Vec::from_slice(rt.alloc(), segment.bytes.as_slice())?;
    if let Some(byte) = bytes.get_mut(at as usize) {
        *byte ^= 0xff;
    }
    put(rt, segment, bytes)
}

/// Changes the byte at a place of the stable file, and opens it again.
pub fn set_byte<R: Print + AllocGlobal>(
    rt: &R,
    segment: &mut Segment,
    at: u64,
    byte: u64,
) -> Result<(), Trouble> {
    let mut bytes = Vec::from_slice(rt.alloc(), segment.bytes.as_slice())?;
    if let Some(place) = bytes.get_mut(at as usize) {
        *place = (byte % 256) as u8;
    }
    put(rt, segment, bytes)
}
