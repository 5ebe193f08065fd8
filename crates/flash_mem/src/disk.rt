// A disk in memory. It keeps what it had at first and each call since.
ghost use Rattle.std.specs.Prelude.{◌≡◌, ◌≤◌, ◌+◌, vec_len, ℕ};
ghost use Rattle.std.specs.Vec.{vec_capacity};
ghost use Rattle.std.specs.Ordering.{nat_cmp};
ghost use Rattle.std.specs.BTreeMap.{btree_map_len};
ghost use Rattle.std.specs.BTreeSet.{btree_set_len, contains};
ghost use Rattle.flash_mem.specs.Files.{image_of};
ghost use Rattle.flash_mem.specs.History.{seen_at_last};
ghost use Rattle.flash_mem.specs.Laws.{IsSettled};

use crate::contents::Files;
use crate::history::Call;
use flash_io::FileId;
use std::alloc::Global;
use std::collections::BTreeSet;
use std::sync::Arc;

/// A disk in memory. It tells its content, fails at chosen calls, and can crash at any moment.
///
/// A call takes time that grows with the logarithm of the number of files, with the bytes of the
/// call, and with the list of the calls that are to fail. The first write to a file after a crash,
/// or while a grip holds the file, also copies it.
#[derive(Drop)]
pub struct MemDisk {
    pub(crate) alloc: Global,
    pub(crate) base: Files,
    pub(crate) files: Files,
    pub(crate) history: Vec<Call>,
    pub(crate) unsynced: BTreeSet<FileId>,
    pub(crate) failing: Vec<u64>,
    pub(crate) calls: u64,
    pub(crate) faults: u64,
    pub(crate) reader_failing: Option<Arc<Vec<u64>>>,
    pub(crate) reader_faults: u64,

    // A read gives what the calls have left.
    ghost reads: { (f : ℕ) → image_of files f ≡ seen_at_last (image_of base) history.items f },

    // The record has room for a removal of each file, and for a sync of each unsynced one.
    ghost room: { vec_len history + btree_map_len files + btree_set_len unsynced ≤ vec_capacity history },

    // A file that hasn't changed since its last sync is on the disk.
    ghost settled: { IsSettled (image_of base) history.items (contains nat_cmp unsynced) (image_of files) },
}

/// A file's bytes, which the disk shares.
#[derive(Drop)]
pub struct MemGrip {
    pub(crate) bytes: Arc<Vec<u8>>,
}

/// A reader of what is gripped. It fails at the calls that the disk listed for its readers when it
/// made this one, counted from 1 for each reader.
#[derive(Drop)]
pub struct MemReader {
    pub(crate) failing: Option<Arc<Vec<u64>>>,
    pub(crate) calls: u64,
    pub(crate) faults: u64,
}
