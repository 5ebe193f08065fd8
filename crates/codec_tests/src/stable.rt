// Three versions in packs of two and one, whose file is compared with one that is written by hand,
// and read through both ways; and a hundred packs by hand, of which opening reads none.
ghost use Rattle.std.specs.Prelude.{[]};

use column_block::{Block, Cell, Cells, Column, Kind, MinMax, Schema, Version};
use flash_io::Disk;
use flash_mem::MemDisk;
use pack_codec::write_pack;
use stable_file::{ReadError, attach, build, open, pack_of, read_pack, rise as rises};
use std::alloc::Global;
use std::test::Fail;

fn schema(alloc: Global) -> Result<Schema, Fail> {
    let columns = [Column {
        id: 1,
        kind: Kind::Int,
    }];
    let schema = Schema::new(Vec::from_array(alloc, columns)?);
    Ok(schema.map_err(|_| "no schema")?)
}

// Rows 0, 1, 2, .. at 10, each with its handle as its cell.
fn versions(alloc: Global, count: i64) -> Result<Block, Fail> {
    let mut block = Block::new(alloc);
    for handle in 0..count {
        let mut cells = Cells::new(alloc);
        cells.push(Cell::Int(handle)).map_err(|_| "memory")?;
        let version = Version {
            handle,
            ts: 10,
            gone: false,
            cells,
        };
        block.push(version).map_err(|_| "memory")?;
    }
    Ok(block)
}

fn put(number: u64, footer: &mut Vec<u8>) -> Result<(), Fail> {
    footer.extend_from_slice(&number.to_be_bytes())?;
    Ok(())
}

// The file of these versions in packs of so many.
fn file_of(alloc: Global, block: &Block, rows: usize) -> Result<Vec<u8>, Fail> {
    let schema = schema(alloc)?;
    let mut file = Vec::from_slice(alloc, b"FLST")?;
    let mut footer = Vec::new(alloc);
    let mut packs = 0u64;
    let mut from = 0usize;
    for _ in 0..block.len() {
        if from < block.len() {
            let to = if block.len() - from < rows {
                block.len()
            } else {
                from + rows
            };
            let place = file.len();
            write_pack(alloc, block, from, to, &schema, &mut file)?;
            put(place as u64, &mut footer)?;
            put(file.len().saturating_sub(place) as u64, &mut footer)?;
            footer.extend_from_slice(&u32::try_from(to - from).unwrap_or(0).to_be_bytes())?;
            put(from as u64, &mut footer)?;
            put(to.saturating_sub(1) as u64, &mut footer)?;
            footer.push(1)?;
            put(from as u64, &mut footer)?;
            put(to.saturating_sub(1) as u64, &mut footer)?;
            packs = packs.saturating_add(1);
            from = to;
        }
    }
    put(packs, &mut footer)?;
    let size = footer.len() as u64;
    file.extend_from_slice(footer.as_slice())?;
    put(size, &mut file)?;
    file.extend_from_slice(b"FLSE")?;
    Ok(file)
}

// Three versions in packs of two rows, as `build` writes them.
fn three_built(alloc: Global) -> Result<Vec<u8>, Fail> {
    let mut bytes = Vec::new(alloc);
    let block = versions(alloc, 3)?;
    if rises(&block) {
        build(alloc, &block, &schema(alloc)?, 2, &mut bytes).map_err(|_| "memory")?;
    }
    Ok(bytes)
}

#[test]
fn three_versions_are_built_as_by_hand(rt: HostRuntime) -> Result<(), Fail> {
    let bytes = three_built(rt.alloc())?;
    let hand = file_of(rt.alloc(), &versions(rt.alloc(), 3)?, 2)?;
    assert_eq!(rt; bytes.as_slice(), hand.as_slice());
    Ok(())
}

#[test]
fn three_versions_are_attached_in_packs_of_two_and_one(rt: HostRuntime) -> Result<(), Fail> {
    let schema = schema(rt.alloc())?;
    let bytes = three_built(rt.alloc())?;
    let whole = bytes.as_slice();
    let file = attach(rt.alloc(), Nothing, whole.len() as u64, whole, &schema);
    let file = file.map_err(|_| "refused")?;
    assert_eq!(rt; file.packs(), 2);
    if file.packs() == 2 {
        assert_eq!(rt; file.low(0), 0);
        assert_eq!(rt; file.high(0), 1);
        assert_eq!(rt; file.low(1), 2);
        assert_eq!(rt;
            file.min_max(0, 0),
            MinMax::Of {
                least: 0,
                greatest: 1
            }
        );
        let (place, len) = file.place(1);
        let part = whole.get(place as usize..place.saturating_add(len) as usize);
        let part = part.ok_or("no pack")?;
        if place < 1000 {
            let pack = pack_of(rt.alloc(), part, place, &schema).map_err(|_| "refused")?;
            assert_eq!(rt; pack.len(), 1);
            let moved = pack_of(rt.alloc(), &[], place, &schema);
            assert!(rt; matches!(moved, Err(ReadError::Damaged { at }) if at == place));
        }
    }
    Ok(())
}

// A grip that tells nothing.
#[derive(Drop)]
struct Nothing;

impl flash_io::Gripped for Nothing {
    ghost tells = { ⊥ };

    ghost bytes = { λ _. [] };
}

// How many versions the packs of the three built ones have, through a reader and a second owner of
// the open file: as the digits of a number.
fn read_counts(alloc: Global, bytes: &[u8]) -> Result<usize, Fail> {
    let mut disk = MemDisk::new(alloc);
    disk.create(3, bytes).map_err(|_| "memory")?;
    let grip = disk.grip(3).map_err(|_| "memory")?;
    let mut reader = disk.reader();
    let file = open(
        alloc,
        grip,
        bytes.len() as u64,
        &mut reader,
        &schema(alloc)?,
    );
    let file = file.map_err(|_| "refused")?.share()?;
    let mut counts = 0usize;
    for k in 0..file.packs() {
        let pack = read_pack(&file, alloc, &mut reader, k).map_err(|_| "refused")?;
        counts = counts.saturating_mul(10).saturating_add(pack.len());
    }
    Ok(counts)
}

#[test]
fn three_built_versions_are_read_in_packs_of_two_and_one(rt: HostRuntime) -> Result<(), Fail> {
    let bytes = three_built(rt.alloc())?;
    assert_eq!(rt; read_counts(rt.alloc(), bytes.as_slice())?, 21);
    Ok(())
}

// How many of a hundred packs could be read, where the reader's fourth call fails.
fn of_a_hundred(alloc: Global, changed: usize) -> Result<(u64, Option<ReadError>), Fail> {
    let schema = schema(alloc)?;
    let mut bytes = file_of(alloc, &versions(alloc, 100)?, 1)?;
    if changed < bytes.len() {
        bytes[changed] = 77;
    }
    let mut disk = MemDisk::new(alloc);
    let failing = Vec::from_array(alloc, [4])?;
    disk.set_reader_failing(failing).map_err(|_| "memory")?;
    disk.create(3, bytes.as_slice()).map_err(|_| "memory")?;
    let grip = disk.grip(3).map_err(|_| "memory")?;
    let mut reader = disk.reader();
    let file = open(alloc, grip, bytes.len() as u64, &mut reader, &schema);
    let file = file.map_err(|_| "refused")?;
    let mut count = 0u64;
    for k in 0..file.packs() {
        match read_pack(&file, alloc, &mut reader, k) {
            Ok(_) => count = count.saturating_add(1),
            Err(error) => return Ok((count, Some(error))),
        }
    }
    Ok((count, None))
}

#[test]
fn a_hundred_packs_open_with_two_reads(rt: HostRuntime) -> Result<(), Fail> {
    let (count, error) = of_a_hundred(rt.alloc(), usize::MAX)?;
    assert_eq!(rt; count, 1);
    assert_eq!(rt; error, Some(ReadError::Device));
    Ok(())
}

#[test]
fn a_pack_that_the_footer_belies_is_named_by_its_place(rt: HostRuntime) -> Result<(), Fail> {
    // the handle of the first pack's version
    let (count, error) = of_a_hundred(rt.alloc(), 4 + 10 + 8 + 2)?;
    assert_eq!(rt; count, 0);
    assert_eq!(rt; error, Some(ReadError::Damaged { at: 4 }));
    Ok(())
}
