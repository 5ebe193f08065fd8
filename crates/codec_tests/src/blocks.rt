// Blocks and schemas: the happy path of each call that allocates, and what a schema refuses.
use column_block::{Block, Cell, CellBytes, Cells, Column, Kind, Schema, SchemaError, Version};
use std::alloc::Global;
use std::test::Fail;

fn version(alloc: Global, handle: i64) -> Version {
    Version {
        handle,
        ts: 10,
        gone: false,
        cells: Cells::new(alloc),
    }
}

fn column(id: u32) -> Column {
    Column {
        id,
        kind: Kind::Int,
    }
}

#[test]
fn blocks_share_their_versions(rt: HostRuntime) -> Result<(), Fail> {
    let mut block = Block::new(rt.alloc());
    block.push(version(rt.alloc(), 5)).map_err(|_| "memory")?;
    block.push(version(rt.alloc(), 6)).map_err(|_| "memory")?;
    assert_eq!(rt; block.len(), 2);
    assert_eq!(rt; block.ts(1), 10);

    let part = block.slice(1, 2)?;
    assert_eq!(rt; part.len(), 1);
    assert_eq!(rt; part.handle(0), 6);

    let turned = block.permuted(&[1, 0])?;
    assert_eq!(rt; turned.len(), 2);
    assert_eq!(rt; turned.handle(0), 6);
    assert_eq!(rt; turned.at(1).handle, 5);

    block.append(&turned)?;
    assert_eq!(rt; block.len(), 4);
    assert_eq!(rt; block.handle(1), 6);
    assert_eq!(rt; block.handle(2), 6);
    assert_eq!(rt; block.handle(3), 5);
    Ok(())
}

#[test]
fn versions_within_a_range_are_kept(rt: HostRuntime) -> Result<(), Fail> {
    let mut block = Block::new(rt.alloc());
    block.push(version(rt.alloc(), 9)).map_err(|_| "memory")?;
    block.push(version(rt.alloc(), -2)).map_err(|_| "memory")?;
    let part = block.kept(-2, Some(9))?;
    assert_eq!(rt; part.len(), 1);
    assert_eq!(rt; part.at(0).handle, -2);
    assert!(rt; block.has_in(9, None));
    assert!(rt; !block.has_in(10, None));
    Ok(())
}

#[test]
fn schemas_have_rising_ids(rt: HostRuntime) -> Result<(), Fail> {
    let falls = Vec::from_array(rt.alloc(), [column(2), column(1)])?;
    assert_eq!(rt;
        Schema::new(falls).err(),
        Some(SchemaError::Order { at: 1 })
    );
    let good = Schema::new(Vec::from_array(rt.alloc(), [column(1), column(2)])?);
    let schema = good.ok().ok_or("no schema")?;
    assert_eq!(rt; schema.len(), 2);
    assert_eq!(rt; schema.at(1).id, 2);

    let mut many = Vec::new(rt.alloc());
    for id in 0..65 {
        many.push(column(id))?;
    }
    assert_eq!(rt;
        Schema::new(many).err(),
        Some(SchemaError::TooMany { count: 65 })
    );
    Ok(())
}

#[test]
fn a_copy_has_the_same_bytes(rt: HostRuntime) -> Result<(), Fail> {
    let bytes = CellBytes::from_slice(rt.alloc(), b"ab")?;
    let cell = Cell::Bytes(bytes);
    let Cell::Bytes(copy) = cell.copied()? else {
        assert!(rt; false, "another kind");
        return Ok(());
    };
    assert_eq!(rt; copy.as_slice(), b"ab".as_slice());
    assert!(rt; matches!(Cell::Int(-7).copied(), Ok(Cell::Int(-7))));
    Ok(())
}
