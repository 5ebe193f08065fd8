use crate::MemDisk;
use flash_io::{Disk, DiskFault};
use std::alloc::Global;
use std::test::*;

// The disk after so many calls of a create, two writes, a sync, a write and a remove, of a file
// that held `old`.
fn after(alloc: Global, calls: u32) -> Result<MemDisk, DiskFault> {
    let mut disk = MemDisk::new(alloc);
    disk.create(1, b"old")?;
    disk.sync(1)?;
    disk.create(1, b"new")?;
    if calls == 1 {
        return Ok(disk);
    }
    disk.write_at(1, 3, b"er")?;
    disk.write_at(1, 0, b"NE")?;
    if calls == 3 {
        return Ok(disk);
    }
    disk.sync(1)?;
    if calls == 4 {
        return Ok(disk);
    }
    disk.write_at(1, 0, b"x")?;
    disk.remove(1)?;
    Ok(disk)
}

// How often a crash left each kind of file.
#[derive(Default, Debug, PartialEq, Eq, Clone, Copy)]
struct Kinds {
    absent: u32,
    empty: u32,
    old: u32,
    new: u32,
    torn: u32,
}

fn count_kinds(alloc: Global, calls: u32) -> Result<Kinds, DiskFault> {
    let mut kinds = Kinds::default();
    for k in 0..256u64 {
        let disk = after(alloc, calls)?;
        let Ok(left) = disk.crash(k) else {
            return Err(DiskFault::Memory);
        };
        count_kind(&left, &mut kinds);
    }
    Ok(kinds)
}

fn count_kind(disk: &MemDisk, kinds: &mut Kinds) {
    let Some(content) = disk.files.get(&1) else {
        kinds.absent = kinds.absent.saturating_add(1);
        return;
    };
    let bytes = content.as_slice();
    if bytes.is_empty() {
        kinds.empty = kinds.empty.saturating_add(1);
    } else if bytes == b"old".as_slice() {
        kinds.old = kinds.old.saturating_add(1);
    } else if bytes == b"NEwer".as_slice() {
        kinds.new = kinds.new.saturating_add(1);
    } else {
        kinds.torn = kinds.torn.saturating_add(1);
    }
}

#[test]
fn before_a_sync_a_crash_leaves_every_kind_of_file(rt: HostRuntime) {
    let kinds = count_kinds(rt.alloc(), 3).expect(&rt, "no fault");
    assert!(rt; kinds.absent > 0);
    assert!(rt; kinds.empty > 0);
    assert!(rt; kinds.old > 0);
    assert!(rt; kinds.new > 0);
    assert!(rt; kinds.torn > 0);
}

#[test]
fn after_a_sync_a_crash_leaves_the_synced_file(rt: HostRuntime) {
    let kinds = count_kinds(rt.alloc(), 4).expect(&rt, "no fault");
    assert_eq!(rt; kinds.new, 256);
}

#[test]
fn a_removed_file_is_gone_or_back(rt: HostRuntime) {
    let kinds = count_kinds(rt.alloc(), 6).expect(&rt, "no fault");
    assert!(rt; kinds.absent > 0);
    assert!(rt; kinds.new > 0);
    assert_eq!(rt; kinds.empty, 0);
    assert_eq!(rt; kinds.old, 0);
}
