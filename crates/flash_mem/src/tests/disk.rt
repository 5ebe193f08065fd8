use crate::MemDisk;
use flash_io::{Disk, DiskFault, FileId, Reader};
use std::alloc::Global;
use std::test::*;

fn read_back(alloc: Global) -> Result<Vec<u8>, DiskFault> {
    let mut disk = MemDisk::new(alloc);
    disk.create(3, &[1, 2])?;
    let mut into = Vec::new(alloc);
    disk.read(3, 0, 9, &mut into)?;
    Ok(into)
}

fn read_written(alloc: Global) -> Result<Vec<u8>, DiskFault> {
    let mut disk = MemDisk::new(alloc);
    disk.create(3, &[1, 2])?;
    disk.write_at(3, 1, &[5, 6, 7])?;
    let mut into = Vec::new(alloc);
    disk.read(3, 1, 2, &mut into)?;
    Ok(into)
}

fn read_gripped(alloc: Global) -> Result<Vec<u8>, DiskFault> {
    let mut disk = MemDisk::new(alloc);
    disk.create(3, &[1, 2])?;
    let grip = disk.grip(3)?;
    let mut into = Vec::new(alloc);
    disk.reader().read_at(&grip, 1, 9, &mut into)?;
    Ok(into)
}

fn read_after_a_crash(alloc: Global) -> Result<Option<u8>, DiskFault> {
    let mut disk = MemDisk::new(alloc);
    disk.create(3, &[1, 2])?;
    disk.sync(3)?;
    let Ok(disk) = disk.crash(7) else {
        return Err(DiskFault::Memory);
    };
    let Some(content) = disk.files.get(&3) else {
        return Ok(None);
    };
    Ok(content.last().copied())
}

fn list_two(alloc: Global) -> Result<Vec<FileId>, DiskFault> {
    let mut disk = MemDisk::new(alloc);
    disk.create(7, b"x")?;
    disk.create(3, b"y")?;
    disk.list(alloc)
}

#[test]
fn files_are_read_written_listed_and_gripped(rt: HostRuntime) {
    let alloc = rt.alloc();
    let read = read_back(alloc).expect(&rt, "no fault");
    assert_eq!(rt; read.as_slice(), [1u8, 2].as_slice());
    let read = read_written(alloc).expect(&rt, "no fault");
    assert_eq!(rt; read.as_slice(), [5u8, 6].as_slice());
    let read = read_gripped(alloc).expect(&rt, "no fault");
    assert_eq!(rt; read.as_slice(), [2u8].as_slice());
    let last = read_after_a_crash(alloc).expect(&rt, "no fault");
    assert_eq!(rt; last, Some(2));
    let list = list_two(alloc).expect(&rt, "no fault");
    assert_eq!(rt; list.as_slice(), [3u32, 7].as_slice());
}

#[test]
fn listed_calls_fail_and_are_counted(rt: HostRuntime) {
    let mut disk = MemDisk::new(rt.alloc());
    disk.set_failing(vec![in rt.alloc(); 1, 3].expect(&rt, "room"));
    assert_eq!(rt; disk.create(1, b"a"), Err(DiskFault::Failed));
    assert_eq!(rt; disk.create(1, b"b"), Ok(()));
    assert_eq!(rt; disk.create(1, b"c"), Err(DiskFault::Failed));
    assert_eq!(rt; disk.faults(), 2);
    let kept = disk.files.get(&1).expect(&rt, "the file is there");
    assert_eq!(rt; kept.as_slice(), b"b".as_slice());
}

#[test]
fn a_reader_fails_at_its_own_listed_call(rt: HostRuntime) {
    let mut disk = MemDisk::new(rt.alloc());
    let second = vec![in rt.alloc(); 2].expect(&rt, "room");
    assert!(rt; disk.set_reader_failing(second).is_ok());
    disk.create(1, b"ab").expect(&rt, "room");
    let grip = disk.grip(1).expect(&rt, "room");
    let mut into = Vec::new(rt.alloc());
    let mut reader = disk.reader();
    assert_eq!(rt; reader.read_at(&grip, 0, 1, &mut into), Ok(1));
    assert_eq!(rt;
        reader.read_at(&grip, 1, 1, &mut into),
        Err(DiskFault::Failed)
    );
    assert_eq!(rt; reader.read_at(&grip, 1, 1, &mut into), Ok(1));
    assert_eq!(rt; into.as_slice(), b"ab".as_slice());
    disk.retire(reader);
    assert_eq!(rt; disk.reader_faults, 1);
    assert_eq!(rt; disk.faults(), 0);
}
