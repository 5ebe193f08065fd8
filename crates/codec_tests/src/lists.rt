// The table of the format, both ways, and the refusals that it names.
use column_codec::{CodecError, ColumnList, Ints, ListKind, SharedTexts, Texts, decode, encode};
use std::alloc::Global;
use std::test::Fail;

fn ints(alloc: Global, values: &[Option<i64>]) -> Result<ColumnList, Fail> {
    let mut list = Ints::with_room(alloc, values.len())?;
    for value in values {
        list.push(*value).map_err(|_| "memory")?;
    }
    Ok(ColumnList::Int(list))
}

fn bytes_of(alloc: Global, list: &ColumnList) -> Result<Vec<u8>, Fail> {
    let mut bytes = Vec::new(alloc);
    encode(list, &mut bytes)?;
    Ok(bytes)
}

fn error_of(alloc: Global, bytes: &[u8], kind: ListKind, count: u64) -> Option<CodecError> {
    decode(alloc, bytes, kind, count).err()
}

#[test]
fn numbers_are_written_as_the_table_says(rt: HostRuntime) -> Result<(), Fail> {
    let list = ints(rt.alloc(), &[Some(5), Some(5), Some(4), None])?;
    assert_eq!(rt;
        bytes_of(rt.alloc(), &list)?.as_slice(),
        [0, 1, 8, 0x0A, 0, 1].as_slice()
    );
    let list = ints(rt.alloc(), &[Some(7), Some(7)])?;
    assert_eq!(rt;
        bytes_of(rt.alloc(), &list)?.as_slice(),
        [1, 0, 0x0E].as_slice()
    );
    let list = ints(rt.alloc(), &[Some(7)])?;
    assert_eq!(rt;
        bytes_of(rt.alloc(), &list)?.as_slice(),
        [0, 0, 0x0E].as_slice()
    );
    let list = ints(rt.alloc(), &[])?;
    assert_eq!(rt; bytes_of(rt.alloc(), &list)?.as_slice(), [0, 0].as_slice());
    let list = ints(rt.alloc(), &[Some(i64::MIN), Some(i64::MAX)])?;
    assert_eq!(rt;
        bytes_of(rt.alloc(), &list)?.as_slice(),
        [0, 0, 255, 255, 255, 255, 255, 255, 255, 255, 255, 1, 1].as_slice()
    );
    Ok(())
}

#[test]
fn numbers_are_read_as_the_table_says(rt: HostRuntime) -> Result<(), Fail> {
    let list = decode(rt.alloc(), &[0, 1, 8, 0x0A, 0, 1], ListKind::Int, 4);
    let Ok(ColumnList::Int(list)) = list else {
        assert!(rt; false, "no list");
        return Ok(());
    };
    assert!(rt; matches!(list.as_slice(), [Some(5), Some(5), Some(4), None]));
    let list = decode(rt.alloc(), &[1, 0, 0x0E], ListKind::Uint, 2);
    let Ok(ColumnList::Uint(list)) = list else {
        assert!(rt; false, "no list");
        return Ok(());
    };
    assert!(rt; matches!(list.as_slice(), [Some(7), Some(7)]));
    Ok(())
}

#[test]
fn texts_go_both_ways(rt: HostRuntime) -> Result<(), Fail> {
    let mut list = Texts::new(rt.alloc());
    list.push(Some(b"ab"))?;
    list.push(Some(b""))?;
    let bytes = bytes_of(rt.alloc(), &ColumnList::Bytes(list))?;
    assert_eq!(rt; bytes.as_slice(), [0, 0, 2, 0x61, 0x62, 0].as_slice());
    let list = decode(rt.alloc(), bytes.as_slice(), ListKind::Bytes, 2);
    let Ok(ColumnList::Bytes(list)) = list else {
        assert!(rt; false, "no list");
        return Ok(());
    };
    assert_eq!(rt; list.len(), 2);
    if list.len() == 2 {
        assert!(rt; matches!(list.at(0), Some(b"ab")));
        assert!(rt; matches!(list.at(1), Some(b"")));
    }
    Ok(())
}

#[test]
fn cuts_of_texts_outlive_the_list(rt: HostRuntime) -> Result<(), Fail> {
    let mut list = Texts::with_room(rt.alloc(), 3, 4)?;
    list.push(Some(b"ab"))?;
    list.push(None)?;
    list.push(Some(b"cd"))?;
    let list = SharedTexts::new(list)?;
    assert_eq!(rt; list.len(), 3);
    if list.len() == 3 {
        let first = list.cut(0)?;
        let none = list.cut(1)?;
        let last = list.cut(2)?;
        drop(list);
        assert!(rt; none.is_none());
        assert!(rt; first.is_some_and(|text| text.as_slice() == b"ab".as_slice()));
        assert!(rt; last.is_some_and(|text| text.as_slice() == b"cd".as_slice()));
    }
    Ok(())
}

#[test]
fn each_refusal_stands_at_its_place(rt: HostRuntime) {
    let read = |bytes: &[u8], count: u64| error_of(rt.alloc(), bytes, ListKind::Int, count);
    assert_eq!(rt;
        read(&[0, 0, 0x0E, 0], 2),
        Some(CodecError::BadByte { at: 0 })
    );
    assert_eq!(rt; read(&[0, 0, 0x0E, 0], 1), Some(CodecError::Long { at: 3 }));
    assert_eq!(rt; read(&[2], 1), Some(CodecError::BadByte { at: 0 }));
    assert_eq!(rt; read(&[0], 1), Some(CodecError::Short { at: 1 }));
    assert_eq!(rt; read(&[0, 1], 0), Some(CodecError::BadByte { at: 1 }));
    assert_eq!(rt; read(&[0, 1], 9), Some(CodecError::Short { at: 2 }));
    assert_eq!(rt; read(&[0, 1, 0, 2], 9), Some(CodecError::BadByte { at: 3 }));
    assert_eq!(rt; read(&[0, 1, 0, 0], 9), Some(CodecError::BadByte { at: 3 }));
    assert_eq!(rt;
        read(&[0, 0, 0x80, 0], 1),
        Some(CodecError::BadByte { at: 3 })
    );
    assert_eq!(rt; read(&[0, 0, 0x80], 1), Some(CodecError::Short { at: 3 }));
    assert_eq!(rt;
        read(&[0, 0, 255, 255, 255, 255, 255, 255, 255, 255, 255, 2], 1),
        Some(CodecError::BadByte { at: 11 })
    );
    assert_eq!(rt; read(&[1, 0, 0x0E], 1), Some(CodecError::BadByte { at: 0 }));
}
