use crate::HostDisk;
use flash_io::{Disk, DiskFault, Reader};
use std::alloc::Global;
use std::fs;
use std::fs::File;
use std::os::unix::fs::symlink;
use std::rt::Files;
use std::test::*;

// A disk whose threads may each have a reader, and share the grips.
fn serves_threads<D: Disk + Send>(_disk: &D)
where
    D::Reader: Send,
    <D::Reader as Reader>::Grip: Send + Sync,
{}

// What a disk in a directory gave, beside another in the same directory.
#[derive(Drop)]
struct Given {
    files: Vec<u32>,
    bytes: Vec<u8>,
    gripped: Vec<u8>,
    other: Result<Vec<u32>, DiskFault>,
    other_faults: u64,
}

fn run_calls<R: Files<File = File> + AllocGlobal + Clone + Drop>(
    rt: &R,
    dir: &str,
) -> Result<Given, DiskFault> {
    let alloc = rt.alloc();
    let mut disk = HostDisk::new(rt, dir)?;
    disk.create(7, b"old")?;
    disk.create(7, b"x")?;
    disk.create(3, b"abc")?;
    disk.write_at(3, 1, b"xyz")?;
    disk.sync(3)?;
    let grip = disk.grip(3)?;
    disk.remove(7)?;
    let files = disk.list(alloc)?;
    let mut bytes = Vec::new(alloc);
    disk.read(3, 1, 9, &mut bytes)?;
    let mut reader = disk.reader();
    let mut gripped = Vec::new(alloc);
    reader.read_at(&grip, 0, 2, &mut gripped)?;
    disk.retire(reader);
    let mut second = HostDisk::new(rt, dir)?;
    let other = second.list(alloc);
    Ok(Given {
        files,
        bytes,
        gripped,
        other,
        other_faults: second.faults(),
    })
}

#[test]
fn a_directory_is_a_disk_for_one(rt: HostRuntime) {
    let _ = fs::remove_dir_all(&rt, "disk_of_the_test");
    assert!(rt; fs::create_dir(&rt, "disk_of_the_test").is_ok());
    assert!(rt; fs::write(&rt, "disk_of_the_test/other", b"passed over").is_ok());
    assert!(rt; fs::create_dir(&rt, "disk_of_the_test/f0000000005").is_ok());
    assert!(rt; symlink(&rt, "other", "disk_of_the_test/f0000000006").is_ok());
    let given = run_calls(&rt, "disk_of_the_test").expect(&rt, "no fault");
    assert_eq!(rt; given.files.as_slice(), [3u32].as_slice());
    assert_eq!(rt; given.bytes.as_slice(), b"xyz".as_slice());
    assert_eq!(rt; given.gripped.as_slice(), b"ax".as_slice());
    assert!(rt; fs::metadata(&rt, "disk_of_the_test/f0000000003").is_ok());
    assert!(rt; matches!(given.other, Err(DiskFault::Failed)));
    assert_eq!(rt; given.other_faults, 1);
    assert!(rt; fs::remove_dir_all(&rt, "disk_of_the_test").is_ok());
}

#[test]
fn a_missing_directory_fails_at_the_first_call(rt: HostRuntime) {
    let mut disk = HostDisk::new(&rt, "no_such_directory").expect(&rt, "room");
    serves_threads(&disk);
    assert!(rt; disk.list(rt.alloc()).is_err());
    assert_eq!(rt; disk.faults(), 1);
}
