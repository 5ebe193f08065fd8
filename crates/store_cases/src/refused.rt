// Disks that have what was given, as they are opened.
use crate::opening::state_text;
use flash_io::{Disk, DiskFault};
use flash_mem::MemDisk;
use manifest::open;
use std::alloc::Global;
use std::io;

// A disk with these bytes in file 0, if any are given, and with these in file 1.
fn with_files(alloc: Global, root: Option<&[u8]>, bytes: &[u8]) -> Result<MemDisk, DiskFault> {
    let mut disk = MemDisk::new(alloc);
    if let Some(root) = root {
        disk.create(0, root)?;
    }
    disk.create(1, bytes)?;
    Ok(disk)
}

fn show_open<R: Print + AllocGlobal>(rt: &R, root: Option<&[u8]>, bytes: &[u8]) -> io::Result<()> {
    let Ok(mut disk) = with_files(rt.alloc(), root, bytes) else {
        return println!(rt; "want of memory");
    };
    match open(rt.alloc(), &mut disk) {
        Ok(None) => println!(rt; "nothing committed"),
        Ok(Some(manifest)) => match state_text(rt.alloc(), manifest.state()) {
            Some(text) => println!(rt; "{text}"),
            None => println!(rt; "want of memory"),
        },
        Err(error) => println!(rt; "{error:?}"),
    }
}

fn bytes_of(alloc: Global, digits: &str) -> Option<Vec<u8>> {
    hex::decode(alloc, digits).ok()
}

/// Prints what an opening answers of a disk whose files 0 and 1 have these bytes, in hexadecimal
/// with an `x` before them; the root may be `-`, and then it isn't there.
pub fn run_open<R: Print + AllocGlobal>(rt: &R, words: &str) -> io::Result<()> {
    let Some((root, file)) = words.split_once(' ') else {
        return println!(rt; "no such disk");
    };
    let root = match root.strip_prefix("x") {
        Some(digits) => bytes_of(rt.alloc(), digits),
        None => None,
    };
    let Some(digits) = file.strip_prefix("x") else {
        return println!(rt; "no such disk");
    };
    let Some(bytes) = bytes_of(rt.alloc(), digits) else {
        return println!(rt; "no such disk");
    };
    match root {
        Some(root) => show_open(rt, Some(root.as_slice()), bytes.as_slice()),
        None => show_open(rt, None, bytes.as_slice()),
    }
}
