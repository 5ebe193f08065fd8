// Stores that are made again where making them failed, and disks that are refused.
use crate::making::schema;
use crate::opening::settle;
use flash_io::Disk;
use flash_mem::MemDisk;
use manifest::{create, open};
use std::alloc::{AllocError, Global};
use std::io;

// A disk of which these two calls fail.
fn failing_twice(alloc: Global, one: u64, two: u64) -> Result<MemDisk, AllocError> {
    let failing = Vec::from_slice(alloc, &[one, two])?;
    let mut disk = MemDisk::new(alloc);
    disk.set_failing(failing);
    Ok(disk)
}

// Makes a store where nothing was committed.
fn make_again<D: Disk>(alloc: Global, disk: &mut D) {
    let Ok(None) = open(alloc, disk) else {
        return;
    };
    let Ok(schema) = schema(alloc) else {
        return;
    };
    let _ = create(alloc, disk, 9, &schema, [3; 32]);
}

// Whether a store is found after two tries that failed and a crash, in the place of which one is
// made where there is none. None where there is no store in the end.
fn was_made(alloc: Global, one: u64, two: u64, k: u64) -> Option<bool> {
    let mut disk = failing_twice(alloc, one, two).ok()?;
    make_again(alloc, &mut disk);
    make_again(alloc, &mut disk);
    let left = disk.crash(k).ok()?;
    let settled = settle(alloc, left)?;
    let after = settled.store.into_disk().crash(k).ok()?;
    match settle(alloc, after) {
        Some(again) if again.was_there => Some(settled.was_there),
        _ => None,
    }
}

/// Lets two calls of the disk fail while a store is made twice. Prints after how many of sixty such
/// tries a store is found, is made anew, or isn't there.
pub fn run_twice<R: Print + AllocGlobal>(rt: &R) -> io::Result<()> {
    for one in 1..14u64 {
        let mut found: u64 = 0;
        let mut anew: u64 = 0;
        let mut wrong: u64 = 0;
        for more in 1..16u64 {
            for k in 0..4u64 {
                match was_made(rt.alloc(), one, one + more, k) {
                    Some(true) => found = found.saturating_add(1),
                    Some(false) => anew = anew.saturating_add(1),
                    None => wrong = wrong.saturating_add(1),
                }
            }
        }
        println!(rt; "call {one} and a later one: {found} found, {anew} made anew, {wrong} WRONG")?;
    }
    Ok(())
}
