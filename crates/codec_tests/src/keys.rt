use kv_codec::{
    LockKind, RecordError, WriteKind, encode_key, put_ts, read_lock, read_write, record_of,
    split_ts, write_lock, write_write,
};
use std::test::*;

const KEY: [u8; 35] = [
    0x74, 0x80, 0, 0, 0, 0, 0, 0, 0xFF, 0x01, 0x5F, 0x72, 0x80, 0, 0, 0, 0, 0xFF, 0, 0, 0x05, 0, 0,
    0, 0, 0, 0xFA, 0xFF, 0xFF, 0xFF, 0xFF, 0xFF, 0xFF, 0xFF, 0xF5,
];

const RECORD: [u8; 19] = [
    0x50, 0x07, 0x76, 0x0F, 0x80, 0x00, 0x02, 0, 0, 0, 0x01, 0x02, 0x01, 0x00, 0x03, 0x00, 0x05,
    0x61, 0x62,
];

#[test]
fn a_record_key_with_its_timestamp(rt: HostRuntime) -> Result<(), Fail> {
    let (key, ts) = split_ts(&KEY).ok().ok_or("a timestamp")?;
    assert_eq!(rt; ts, 10);
    assert_eq!(rt; record_of(key, 1), Ok(Some(5)));
    assert_eq!(rt; record_of(key, 2), Ok(None));
    Ok(())
}

#[test]
fn a_write_record_with_its_value(rt: HostRuntime) -> Result<(), Fail> {
    let record = read_write(&RECORD).ok().ok_or("a record")?;
    assert_eq!(rt; record.kind, WriteKind::Put);
    assert_eq!(rt; record.start, 7);
    assert_eq!(rt; record.short, Some(&RECORD[4..]));
    Ok(())
}

#[test]
fn a_record_key_is_written_with_its_timestamp(rt: HostRuntime) -> Result<(), Fail> {
    let mut key = Vec::new(rt.alloc());
    encode_key(1, 5, &mut key)?;
    put_ts(10, &mut key)?;
    assert_eq!(rt; key.as_slice(), KEY.as_slice());
    Ok(())
}

#[test]
fn records_are_written(rt: HostRuntime) -> Result<(), Fail> {
    let mut record = Vec::new(rt.alloc());
    write_write(WriteKind::Put, 7, Some(&RECORD[4..]), &mut record)?;
    assert_eq!(rt; record.as_slice(), RECORD.as_slice());
    let mut lock = Vec::new(rt.alloc());
    write_lock(LockKind::Put, b"a", 8, 0, &mut lock)?;
    assert_eq!(rt; lock.as_slice(), [0x50, 2, 0x61, 8, 0].as_slice());
    Ok(())
}

#[test]
fn a_lock_is_read(rt: HostRuntime) -> Result<(), Fail> {
    let lock = read_lock(&[0x50, 2, 0x61, 8, 0]).ok().ok_or("a lock")?;
    assert_eq!(rt; lock.kind, LockKind::Put);
    assert_eq!(rt; lock.primary, b"a".as_slice());
    assert_eq!(rt; (lock.start, lock.ttl), (8, 0));
    assert_eq!(rt;
        read_lock(&[0x50, 1, 8, 0]).err(),
        Some(RecordError::Number { at: 1 })
    );
    assert_eq!(rt;
        read_lock(&[0x50, 4, 0x61]).err(),
        Some(RecordError::Short { at: 3 })
    );
    Ok(())
}
