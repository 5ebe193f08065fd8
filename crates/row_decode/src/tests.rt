// The cells of rows whose bytes were written out by hand.
use crate::{DecodeError, cells, unknown_column, wrong_width};
use column_block::{Cell, Column, Kind, Schema};
use row_codec::RowView;
use std::alloc::Global;
use std::test::Fail;

const SMALL: [u8; 15] = [128, 0, 2, 0, 0, 0, 1, 2, 1, 0, 3, 0, 5, 0x61, 0x62];

const WITH_NULL: [u8; 11] = [128, 0, 1, 0, 1, 0, 1, 2, 1, 0, 1];

const THREE_BYTES: [u8; 12] = [128, 0, 1, 0, 0, 0, 1, 3, 0, 1, 2, 3];

fn schema(alloc: Global) -> Result<Schema, Fail> {
    let number = Column {
        id: 1,
        kind: Kind::Int,
    };
    let bytes = Column {
        id: 2,
        kind: Kind::Bytes,
    };
    let columns = Vec::from_array(alloc, [number, bytes])?;
    Ok(Schema::new(columns).ok().ok_or("no schema")?)
}

#[test]
fn a_number_and_bytes(rt: HostRuntime) -> Result<(), Fail> {
    let schema = schema(rt.alloc())?;
    let row = RowView::read(&SMALL).ok().ok_or("no row")?;
    let found = cells(rt.alloc(), &row, &schema)?;
    assert_eq!(rt; found.len(), 2);
    assert!(rt; matches!(found.at(0), Cell::Int(5)));
    let Cell::Bytes(bytes) = found.at(1) else {
        assert!(rt; false, "another kind");
        return Ok(());
    };
    assert_eq!(rt; bytes.as_slice(), b"ab".as_slice());
    Ok(())
}

#[test]
fn a_number_and_null(rt: HostRuntime) -> Result<(), Fail> {
    let schema = schema(rt.alloc())?;
    let row = RowView::read(&WITH_NULL).ok().ok_or("no row")?;
    let found = cells(rt.alloc(), &row, &schema)?;
    assert_eq!(rt; found.len(), 2);
    assert!(rt; matches!(found.at(0), Cell::Int(1)));
    assert!(rt; matches!(found.at(1), Cell::Null));
    assert_eq!(rt; unknown_column(&row, &schema), None);
    Ok(())
}

#[test]
fn a_wrong_width(rt: HostRuntime) -> Result<(), Fail> {
    let schema = schema(rt.alloc())?;
    let row = RowView::read(&THREE_BYTES).ok().ok_or("no row")?;
    assert_eq!(rt;
        cells(rt.alloc(), &row, &schema).err(),
        Some(DecodeError::Width { id: 1 })
    );
    assert_eq!(rt; wrong_width(&row, &schema), Some(1));
    Ok(())
}
