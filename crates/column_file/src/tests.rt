// A tiny file goes both ways, and is refused where it is cut or isn't one.
use super::*;
use column_block::{Block, Cell, CellBytes, Cells, Column, Kind, Schema, Version};
use std::alloc::Global;
use std::test::Fail;

fn schema(alloc: Global) -> Result<Schema, Fail> {
    let columns = [
        Column {
            id: 1,
            kind: Kind::Uint,
        },
        Column {
            id: 2,
            kind: Kind::Bytes,
        },
    ];
    let schema = Schema::new(Vec::from_array(alloc, columns)?);
    Ok(schema.map_err(|_| "no schema")?)
}

fn two_versions(alloc: Global) -> Result<Block, Fail> {
    let mut cells = Cells::new(alloc);
    cells.push(Cell::Uint(u64::MAX)).map_err(|_| "memory")?;
    let text = CellBytes::from_slice(alloc, b"ab")?;
    cells.push(Cell::Bytes(text)).map_err(|_| "memory")?;
    let mut block = Block::new(alloc);
    let first = Version {
        handle: i64::MIN,
        ts: 10,
        gone: true,
        cells: Cells::new(alloc),
    };
    block.push(first).map_err(|_| "memory")?;
    let second = Version {
        handle: 6,
        ts: 11,
        gone: false,
        cells,
    };
    block.push(second).map_err(|_| "memory")?;
    Ok(block)
}

#[test]
fn two_versions_are_read_back(rt: HostRuntime) -> Result<(), Fail> {
    let schema = schema(rt.alloc())?;
    let block = two_versions(rt.alloc())?;
    let mut bytes = Vec::new(rt.alloc());
    encode_tiny(rt.alloc(), &block, &schema, &mut bytes)?;
    assert!(rt; bytes.as_slice().starts_with(b"FLTN"));
    let opened = open_tiny(rt.alloc(), 7, bytes.as_slice(), &schema);
    let Ok(ColumnFile::Tiny { file, block }) = opened else {
        assert!(rt; false, "refused");
        return Ok(());
    };
    assert_eq!(rt; file, 7);
    assert_eq!(rt; block.len(), 2);
    if block.len() == 2 {
        assert_eq!(rt; block.handle(0), i64::MIN);
        assert!(rt; block.at(0).gone);
        let cells = block.at(1).cells.as_slice();
        assert!(rt; matches!(cells, [Cell::Uint(u64::MAX), Cell::Bytes(_)]));
    }
    Ok(())
}

#[test]
fn files_that_are_cut_or_begin_otherwise_are_damaged(rt: HostRuntime) -> Result<(), Fail> {
    let schema = schema(rt.alloc())?;
    let block = two_versions(rt.alloc())?;
    let mut bytes = Vec::new(rt.alloc());
    encode_tiny(rt.alloc(), &block, &schema, &mut bytes)?;
    let len = bytes.len();
    if len > 0 {
        let cut = open_tiny(rt.alloc(), 7, &bytes[..len - 1], &schema);
        let at = len as u64 - 1;
        assert!(rt; matches!(cut, Err(FormError::Damaged { at: place }) if place == at));
        bytes[0] = b'f';
        let other = open_tiny(rt.alloc(), 7, bytes.as_slice(), &schema);
        assert!(rt; matches!(other, Err(FormError::Damaged { at: 0 })));
    }
    let short = open_tiny(rt.alloc(), 7, b"FLT", &schema);
    assert!(rt; matches!(short, Err(FormError::Damaged { at: 3 })));
    Ok(())
}
