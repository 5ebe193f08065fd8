// What is found on a disk.
ghost use Rattle.std.specs.Prelude.{◌≡◌, true, Contains};

use crate::making::make;
use flash_io::{Disk, FileId};
use manifest::open;
use manifest_form::State;
use replica_store::Store;
use std::alloc::Global;
use std::string::String;

/// A store, and whether it was there.
#[derive(Drop)]
pub struct Settled<D: Disk> {
    pub store: Store<D>,
    pub was_there: bool,
}

/// The store that a disk has, made sure of, or a new one where nothing was committed. None where it
/// is refused or a call fails.
pub fn settle<D: Disk>(alloc: Global, mut disk: D) -> Option<Settled<D>> {
    match open(alloc, &mut disk) {
        Ok(None) => match make(alloc, disk) {
            Ok(store) => Some(Settled {
                store,
                was_there: false,
            }),
            Err(_) => None,
        },
        Ok(Some(mut manifest)) => {
            if manifest.steady(&mut disk).is_err() {
                return None;
            }
            Some(Settled {
                store: Store::made(disk, manifest),
                was_there: true,
            })
        }
        Err(_) => None,
    }
}

// Whether this file is one of these.
fn lists(list: &[FileId], file: FileId) -> bool
    ensures { result ≡ true → Contains list.now file }
{
    for listed in list {
        if *listed == file {
            return true;
        }
    }
    false
}

// The bytes of a file that is there.
fn content<D: Disk>(alloc: Global, store: &mut Store<D>, file: FileId) -> Option<Vec<u8>> {
    let Ok(list) = store.list(alloc) else {
        return None;
    };
    if !lists(list.as_slice(), file) {
        return None;
    }
    store.read_whole(alloc, file).ok()
}

// The region file, and its bytes. None where they aren't there.
fn regions_text<D: Disk>(alloc: Global, store: &mut Store<D>) -> Option<String> {
    let Some(file) = store.state().regions else {
        return format!(in alloc; "no regions").ok();
    };
    let bytes = content(alloc, store, file)?;
    let digits = hex::encode(alloc, bytes.as_slice()).ok()?;
    format!(in alloc; "regions {file} x{digits}").ok()
}

/// All that is named but the region file.
pub fn state_text(alloc: Global, state: &State) -> Option<String> {
    let chain = hex::encode(alloc, &state.chain).ok()?;
    let segments = state.segments.list(alloc).ok()?;
    let next = state.next;
    let point = state.safe_point;
    let high = state.high;
    let count = state.count;
    format!(in alloc;
        "next {next}, safe point {point}, high {high} x{chain}, count {count:?}, {segments:?}"
    ).ok()
}

/// All that a store has named, with the bytes of its region file. None where they aren't there.
pub fn text_of<D: Disk>(alloc: Global, store: &mut Store<D>) -> Option<String> {
    let regions = regions_text(alloc, store)?;
    let named = state_text(alloc, store.state())?;
    format!(in alloc; "{regions}, {named}").ok()
}

/// The numbers of the disk's files that nothing needs, each with a plus before it.
pub fn strays_text<D: Disk>(alloc: Global, store: &mut Store<D>) -> Option<String> {
    let strays = store.strays(alloc, &[]).ok()?;
    let mut text = String::new(alloc);
    for stray in strays.iter() {
        let one = format!(in alloc; "+{stray}").ok()?;
        text.push_str(one.as_str()).ok()?;
    }
    Some(text)
}
