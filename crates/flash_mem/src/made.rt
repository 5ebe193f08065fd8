// How a disk in memory is made, and which of its calls fail.
ghost use Rattle.std.specs.Prelude.{◌≡◌, ◌≤◌, ◌↔◌, ◌+◌, [], ℕ, vec_len, IfOk, OnOk, OnErr, None};
ghost use Rattle.std.specs.Vec.{vec_capacity};
ghost use Rattle.std.specs.BTreeMap.{btree_map_len};
ghost use Rattle.flash_io.specs.Image.{Image};
ghost use Rattle.flash_mem.specs.Files.{image_of, listed};
ghost use Rattle.flash_mem.specs.Laws.{MayLeave};

use crate::contents::Files;
use crate::crash::{copied, image_after};
use crate::disk::MemDisk;
use crate::history::Call;
use crate::memory::Memory;
use flash_io::{Disk, Reader};
use std::alloc::{AllocError, Global};
use std::collections::{BTreeMap, BTreeSet};
use std::sync::Arc;

impl MemDisk {
    /// A disk with no file, of which no call fails.
    pub fn new(alloc: Global) -> MemDisk
        ensures empty { (file : ℕ) → ⟦<MemDisk as Disk>⟧.files result file ≡ None }
        ensures durable { (image : Image) → ⟦<MemDisk as Disk>⟧.may_leave result image → image ≡ ⟦<MemDisk as Disk>⟧.files result }
        ensures counts { (⟦<MemDisk as Disk>⟧.fault_count result ≡ 0) × (⟦<MemDisk as Disk>⟧.reader_fault_count result ≡ 0) }
        ensures spared { ⟦<MemDisk as Disk>⟧.never_fails result × (listed result.reader_failing ≡ []) }
    {
        MemDisk {
            alloc,
            base: BTreeMap::new(alloc),
            files: BTreeMap::new(alloc),
            history: Vec::new(alloc),
            unsynced: BTreeSet::new(alloc),
            failing: Vec::new(alloc),
            calls: 0,
            faults: 0,
            reader_failing: None,
            reader_faults: 0,
        }
    }

    /// Lets these calls of the disk fail, counted from 1 since it was made, in the place of those
    /// that were listed before. All calls count that answer a `Result`. A call that is to fail
    /// changes nothing but counts.
    pub fn set_failing(&mut self, failing: Vec<u64>)
        ensures calls { self.new.calls ≡ self.old.calls }
        ensures failing { self.new.failing.items ≡ failing.items }
        ensures files { ⟦<MemDisk as Disk>⟧.files self.new ≡ ⟦<MemDisk as Disk>⟧.files self.old }
        ensures images { (image : Image) → ⟦<MemDisk as Disk>⟧.may_leave self.new image ↔ ⟦<MemDisk as Disk>⟧.may_leave self.old image }
        ensures time { (⟦<MemDisk as Disk>⟧.moment self.new ≡ ⟦<MemDisk as Disk>⟧.moment self.old) × ((t : ℕ) (image : Image) → ⟦<MemDisk as Disk>⟧.left_since self.new t image ↔ ⟦<MemDisk as Disk>⟧.left_since self.old t image) }
        ensures counts { (⟦<MemDisk as Disk>⟧.fault_count self.new ≡ ⟦<MemDisk as Disk>⟧.fault_count self.old) × (⟦<MemDisk as Disk>⟧.reader_fault_count self.new ≡ ⟦<MemDisk as Disk>⟧.reader_fault_count self.old) }
    {
        self.failing = failing;
    }

    /// Lets these calls of each reader fail that is made from now on, counted from 1 for each.
    /// `Memory` leaves the list as it was.
    pub fn set_reader_failing(&mut self, failing: Vec<u64>) -> Result<(), Memory>
        ensures calls { self.new.calls ≡ self.old.calls }
        ensures failing { OnOk result (listed self.new.reader_failing ≡ failing.items) }
        ensures kept { OnErr result (listed self.new.reader_failing ≡ listed self.old.reader_failing) }
        ensures own { self.new.failing.items ≡ self.old.failing.items }
        ensures files { ⟦<MemDisk as Disk>⟧.files self.new ≡ ⟦<MemDisk as Disk>⟧.files self.old }
        ensures images { (image : Image) → ⟦<MemDisk as Disk>⟧.may_leave self.new image ↔ ⟦<MemDisk as Disk>⟧.may_leave self.old image }
        ensures time { (⟦<MemDisk as Disk>⟧.moment self.new ≡ ⟦<MemDisk as Disk>⟧.moment self.old) × ((t : ℕ) (image : Image) → ⟦<MemDisk as Disk>⟧.left_since self.new t image ↔ ⟦<MemDisk as Disk>⟧.left_since self.old t image) }
        ensures counts { (⟦<MemDisk as Disk>⟧.fault_count self.new ≡ ⟦<MemDisk as Disk>⟧.fault_count self.old) × (⟦<MemDisk as Disk>⟧.reader_fault_count self.new ≡ ⟦<MemDisk as Disk>⟧.reader_fault_count self.old) }
    {
        match Arc::new(self.alloc, failing) {
            Ok(list) => {
                self.reader_failing = Some(list);
                Ok(())
            }
            Err(_) => Err(Memory),
        }
    }

    /// The disk after a crash at this moment: an image that the crash may leave, chosen by `k`. It
    /// is a disk that was just made, with counts at 0 and no call that fails. After `Memory` the
    /// disk is gone.
    pub fn crash(self, k: u64) -> Result<MemDisk, Memory>
        ensures left { IfOk result (λ disk. ⟦<MemDisk as Disk>⟧.may_leave self (⟦<MemDisk as Disk>⟧.files disk)) }
        ensures durable { IfOk result (λ disk. (image : Image) → ⟦<MemDisk as Disk>⟧.may_leave disk image → image ≡ ⟦<MemDisk as Disk>⟧.files disk) }
        ensures counts { IfOk result (λ disk. (⟦<MemDisk as Disk>⟧.fault_count disk ≡ 0) × (⟦<MemDisk as Disk>⟧.reader_fault_count disk ≡ 0)) }
        ensures spared { IfOk result (λ disk. ⟦<MemDisk as Disk>⟧.never_fails disk × (listed disk.reader_failing ≡ [])) }
    {
        let alloc = self.alloc;
        let files = image_after(alloc, self.base, &self.history, k)?;
        let base = copied(&files)?;
        let history = room_for(alloc, &files)?;
        Ok(MemDisk {
            alloc,
            base,
            files,
            history,
            unsynced: BTreeSet::new(alloc),
            failing: Vec::new(alloc),
            calls: 0,
            faults: 0,
            reader_failing: None,
            reader_faults: 0,
        })
    }
}

// An empty record with room for a removal of each file.
fn room_for(alloc: Global, files: &Files) -> Result<Vec<Call>, AllocError>
    ensures empty { IfOk result (λ history. history.items ≡ []) }
    ensures room { IfOk result (λ history. vec_len history + btree_map_len files.now ≤ vec_capacity history) }
{
    Vec::with_capacity(alloc, files.len())
}
