// Rows of both forms, against bytes that were written out by hand.
use row_codec::{Field, RowError, RowView, RowWriter, int, uint};
use std::test::Fail;

const SMALL: [u8; 15] = [128, 0, 2, 0, 0, 0, 1, 2, 1, 0, 3, 0, 5, 0x61, 0x62];

const WITH_NULL: [u8; 11] = [128, 0, 1, 0, 1, 0, 1, 2, 1, 0, 1];

const BIG: [u8; 15] = [128, 1, 1, 0, 0, 0, 0x2c, 1, 0, 0, 1, 0, 0, 0, 7];

#[test]
fn fields_of_the_small_form(rt: HostRuntime) -> Result<(), Fail> {
    let row = RowView::read(&SMALL).ok().ok_or("no row")?;
    assert_eq!(rt; row.count(), 2);
    assert!(rt; matches!(row.get(1), Some(Field::Value([5]))));
    assert!(rt; matches!(row.get(2), Some(Field::Value([0x61, 0x62]))));
    assert!(rt; row.get(3).is_none());
    assert!(rt; matches!(row.value_near(2, 0), Some([0x61, 0x62])));
    let row = RowView::read(&WITH_NULL).ok().ok_or("no row")?;
    assert!(rt; matches!(row.get(1), Some(Field::Value([1]))));
    assert!(rt; matches!(row.get(2), Some(Field::Null)));
    Ok(())
}

#[test]
fn a_field_of_the_big_form(rt: HostRuntime) -> Result<(), Fail> {
    let row = RowView::read(&BIG).ok().ok_or("no row")?;
    assert!(rt; matches!(row.get(300), Some(Field::Value([7]))));
    Ok(())
}

#[test]
fn refusals_at_their_places(rt: HostRuntime) {
    assert_eq!(rt; RowView::read(&[]).err(), Some(RowError::Short { at: 0 }));
    assert_eq!(rt;
        RowView::read(&[127]).err(),
        Some(RowError::Version { byte: 127 })
    );
    assert_eq!(rt;
        RowView::read(&SMALL[..11]).err(),
        Some(RowError::Short { at: 11 })
    );
    assert_eq!(rt;
        RowView::read(&SMALL[..14]).err(),
        Some(RowError::Offset { at: 1 })
    );
    let falls = [128, 0, 0, 0, 2, 0, 2, 2];
    assert_eq!(rt;
        RowView::read(&falls).err(),
        Some(RowError::Order { at: 1 })
    );
}

#[test]
fn numbers_of_each_width(rt: HostRuntime) {
    assert_eq!(rt; int(&[0xff]), Some(-1));
    assert_eq!(rt; int(&[0, 0x80]), Some(-32768));
    assert_eq!(rt; uint(&[0xff]), Some(255));
    assert_eq!(rt; int(&[1, 2, 3]), None);
}

#[test]
fn the_small_form_and_the_big_form(rt: HostRuntime) -> Result<(), Fail> {
    let mut row = RowWriter::new(rt.alloc());
    row.field(1, &[5])?;
    row.field(2, b"ab")?;
    let mut bytes = Vec::new(rt.alloc());
    row.finish(&mut bytes)?;
    assert_eq!(rt; bytes.as_slice(), SMALL.as_slice());

    let mut row = RowWriter::new(rt.alloc());
    row.field(1, &[1])?;
    row.null(2)?;
    let mut bytes = Vec::new(rt.alloc());
    row.finish(&mut bytes)?;
    assert_eq!(rt; bytes.as_slice(), WITH_NULL.as_slice());

    let mut row = RowWriter::new(rt.alloc());
    row.field(300, &[7])?;
    let mut bytes = Vec::new(rt.alloc());
    row.finish(&mut bytes)?;
    assert_eq!(rt; bytes.as_slice(), BIG.as_slice());
    Ok(())
}
