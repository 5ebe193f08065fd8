// One pack, whose bytes were made by hand from the form, both ways, and what is refused of it.
use column_block::{Block, Cell, CellBytes, Cells, Column, Kind, Schema, Version};
use pack_codec::{FormError, read_pack, write_pack};
use std::alloc::Global;
use std::test::Fail;

// Handle 5 has 5 and `ab` at the timestamp 10, and handle 6 is gone at 10.
const BYTES: [u8; 71] = [
    0, 0, 0, 0, 0, 0, 0, 2, 0, 2, 0, 0, 0, 0, 0, 0, 0, 4, 0, 0, 0x0A, 2, 0, 0, 0, 0, 0, 0, 0, 3, 1,
    0, 0x14, 0, 0, 0, 0, 0, 0, 0, 4, 0, 0, 0, 2, 0, 0, 0, 0, 0, 0, 0, 4, 0, 1, 2, 0x0A, 0, 0, 0, 0,
    0, 0, 0, 6, 0, 1, 2, 2, 0x61, 0x62,
];

fn schema(alloc: Global) -> Result<Schema, Fail> {
    let columns = [
        Column {
            id: 1,
            kind: Kind::Int,
        },
        Column {
            id: 2,
            kind: Kind::Bytes,
        },
    ];
    let schema = Schema::new(Vec::from_array(alloc, columns)?);
    Ok(schema.map_err(|_| "no schema")?)
}

fn two_versions(alloc: Global) -> Result<Block, Fail> {
    let mut cells = Cells::new(alloc);
    cells.push(Cell::Int(5)).map_err(|_| "memory")?;
    let text = CellBytes::from_slice(alloc, b"ab")?;
    cells.push(Cell::Bytes(text)).map_err(|_| "memory")?;
    let mut block = Block::new(alloc);
    let first = Version {
        handle: 5,
        ts: 10,
        gone: false,
        cells,
    };
    block.push(first).map_err(|_| "memory")?;
    let second = Version {
        handle: 6,
        ts: 10,
        gone: true,
        cells: Cells::new(alloc),
    };
    block.push(second).map_err(|_| "memory")?;
    Ok(block)
}

#[test]
fn a_pack_is_written_as_the_form_says(rt: HostRuntime) -> Result<(), Fail> {
    let block = two_versions(rt.alloc())?;
    let mut bytes = Vec::new(rt.alloc());
    write_pack(
        rt.alloc(),
        &block,
        0,
        block.len(),
        &schema(rt.alloc())?,
        &mut bytes,
    )?;
    assert_eq!(rt; bytes.as_slice(), BYTES.as_slice());
    Ok(())
}

#[test]
fn a_pack_is_read_as_the_form_says(rt: HostRuntime) -> Result<(), Fail> {
    let block = read_pack(rt.alloc(), &BYTES, 71, &schema(rt.alloc())?);
    let block = block.map_err(|_| "refused")?;
    assert_eq!(rt; block.len(), 2);
    if block.len() == 2 {
        let first = block.at(0);
        assert_eq!(rt; first.handle, 5);
        assert_eq!(rt; first.ts, 10);
        assert!(rt; !first.gone);
        assert!(rt; matches!(first.cells.as_slice(), [Cell::Int(5), Cell::Bytes(_)]));
        let second = block.at(1);
        assert_eq!(rt; second.handle, 6);
        assert!(rt; second.gone);
        assert!(rt; second.cells.is_empty());
    }
    Ok(())
}

// The refusal of the pack with one byte changed, in a file where 100 bytes stand before it.
fn refusal(alloc: Global, place: usize, byte: u8) -> Result<Option<FormError>, Fail> {
    let mut bytes = Vec::from_slice(alloc, &BYTES)?;
    if place < bytes.len() {
        bytes[place] = byte;
    }
    let read = read_pack(alloc, bytes.as_slice(), 171, &schema(alloc)?);
    Ok(read.err())
}

#[test]
fn each_refusal_stands_at_its_place(rt: HostRuntime) -> Result<(), Fail> {
    let damaged = |at: u64| Some(FormError::Damaged { at });
    // the number of columns; a list past the end; a spare bit; the mode of equal timestamps; a
    // mark of 2; a cell where the row is gone
    assert_eq!(rt; refusal(rt.alloc(), 9, 3)?, damaged(108));
    assert_eq!(rt; refusal(rt.alloc(), 17, 200)?, damaged(171));
    assert_eq!(rt; refusal(rt.alloc(), 55, 6)?, damaged(153));
    assert_eq!(rt; refusal(rt.alloc(), 30, 0)?, damaged(130));
    assert_eq!(rt; refusal(rt.alloc(), 44, 4)?, damaged(141));
    assert_eq!(rt; refusal(rt.alloc(), 54, 0)?, damaged(153));
    let schema = schema(rt.alloc())?;
    let cut = read_pack(rt.alloc(), &BYTES[..70], 170, &schema);
    assert_eq!(rt; cut.err(), damaged(170));
    Ok(())
}
