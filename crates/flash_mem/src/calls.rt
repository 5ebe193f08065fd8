// The disk in memory as a disk.
ghost use Rattle.std.specs.Prelude.{◌≡◌, ◌++◌, ⊤, [], length, take, drop, ℕ, IfOk, OnOk, OnErr};
ghost use Rattle.flash_io.specs.Image.{HasPart};
ghost use Rattle.flash_io.specs.DiskFaults.{HasDiskCause};
ghost use Rattle.flash_mem.specs.Files.{image_of, bytes_of, listed};
ghost use Rattle.flash_mem.specs.Laws.{MayLeave, LeftSince, counts, only, earlier, leaves_files_of};

use crate::disk::{MemDisk, MemGrip, MemReader};
use crate::failing::fails;
use crate::history::{numbers, put, put_over, settle, take};
use flash_io::{Disk, DiskFault, Failed, FileId, Gripped, Reader};
use std::alloc::Global;
use std::sync::Arc;

impl Gripped for MemGrip {
    ghost tells = { ⊤ };

    ghost bytes = { λ grip. bytes_of grip.bytes };
}

impl Reader for MemReader {
    type Grip = MemGrip;

    ghost fault_count = { λ reader. reader.faults };

    /// It fails only where the call is listed.
    fn read_at(
        &mut self,
        grip: &MemGrip,
        at: u64,
        len: u32,
        into: &mut Vec<u8>,
    ) -> Result<usize, DiskFault>
        ensures appended { IfOk result (λ n. HasPart n len into.old.items into.new.items) }
        ensures told { OnOk result (into.new.items ≡ into.old.items ++ take len (drop at (bytes_of grip.now.bytes))) }
        ensures kept { OnErr result (into.new.items ≡ into.old.items) }
        ensures cause { HasDiskCause self.old.faults self.new.faults result }
        ensures failing { self.new.failing ≡ self.old.failing }
        ensures spared { listed self.old.failing ≡ [] → self.new.faults ≡ self.old.faults }
    {
        if fails(listed_of(&self.failing), &mut self.calls, &mut self.faults) {
            return Err(DiskFault::Failed);
        }
        let piece = part(&grip.bytes, at, len);
        into.extend_from_slice(piece)?;
        Ok(piece.len())
    }
}

// The calls of a shared list, of which there may be none.
fn listed_of(failing: &Option<Arc<Vec<u64>>>) -> &[u64]
    ensures { result.now ≡ listed failing.now }
{
    match failing {
        Some(list) => list,
        None => &[],
    }
}

// The bytes from `at` on, at most `len`.
fn part(bytes: &[u8], at: u64, len: u32) -> &[u8]
    ensures { result.now ≡ take len (drop at bytes.now) }
{
    if at >= bytes.len() as u64 {
        return &bytes[..0];
    }
    let rest = &bytes[at as usize..];
    if (len as usize) < rest.len() {
        &rest[..len as usize]
    } else {
        rest
    }
}

impl Disk for MemDisk {
    type Reader = MemReader;

    ghost tells = { ⊤ };

    ghost files = { λ disk. image_of disk.files };

    ghost may_leave = { λ disk. MayLeave (image_of disk.base) disk.history.items };

    ghost moment = { λ disk. length disk.history.items };

    ghost left_since = { λ disk. LeftSince (image_of disk.base) disk.history.items };

    ghost fault_count = { λ disk. disk.faults };

    ghost never_fails = { λ disk. disk.failing.items ≡ [] };

    ghost reader_fault_count = { λ disk. disk.reader_faults };

    ghost counts_now = { λ disk. counts (image_of disk.base) disk.history.items };

    ghost since_earlier = { λ disk. earlier (image_of disk.base) disk.history.items };

    ghost only_now = { λ disk. only (image_of disk.base) disk.history.items };

    ghost leaves_files = { λ disk _. leaves_files_of (image_of disk.base) disk.history.items (image_of disk.files) disk.reads };

    ghost told = { λ disk c left. tt };

    ghost grips_tell = { λ tells. tt };

    ghost tells_grips = { λ tells. tt };

    fn create(&mut self, file: FileId, bytes: &[u8]) -> Result<(), DiskFault> {
        if fails(&self.failing, &mut self.calls, &mut self.faults) {
            return Err(DiskFault::Failed);
        }
        let copy = bytes.to_vec(self.alloc)?;
        let kept = bytes.to_vec(self.alloc)?;
        let content = Arc::new(self.alloc, copy)?;
        put(
            &mut self.files,
            &mut self.history,
            &mut self.unsynced,
            file,
            content,
            kept,
        )?;
        Ok(())
    }

    fn write_at(&mut self, file: FileId, at: u64, bytes: &[u8]) -> Result<(), DiskFault> {
        if fails(&self.failing, &mut self.calls, &mut self.faults) {
            return Err(DiskFault::Failed);
        }
        let kept = bytes.to_vec(self.alloc)?;
        put_over(
            self.alloc,
            &mut self.files,
            &mut self.history,
            &mut self.unsynced,
            file,
            at,
            kept,
        )?;
        Ok(())
    }

    fn read(
        &mut self,
        file: FileId,
        at: u64,
        len: u32,
        into: &mut Vec<u8>,
    ) -> Result<usize, DiskFault> {
        if fails(&self.failing, &mut self.calls, &mut self.faults) {
            return Err(DiskFault::Failed);
        }
        let Some(bytes) = self.files.get(&file) else {
            return Ok(0);
        };
        let piece = part(bytes, at, len);
        into.extend_from_slice(piece)?;
        Ok(piece.len())
    }

    fn len(&mut self, file: FileId) -> Result<u64, Failed> {
        if fails(&self.failing, &mut self.calls, &mut self.faults) {
            return Err(Failed);
        }
        match self.files.get(&file) {
            Some(bytes) => Ok(bytes.len() as u64),
            None => Ok(0),
        }
    }

    fn sync(&mut self, file: FileId) -> Result<(), Failed> {
        if fails(&self.failing, &mut self.calls, &mut self.faults) {
            return Err(Failed);
        }
        settle(&self.files, &mut self.history, &mut self.unsynced, file);
        Ok(())
    }

    fn remove(&mut self, file: FileId) -> Result<(), Failed> {
        if fails(&self.failing, &mut self.calls, &mut self.faults) {
            return Err(Failed);
        }
        take(&mut self.files, &mut self.history, &mut self.unsynced, file);
        Ok(())
    }

    fn list(&mut self, alloc: Global) -> Result<Vec<FileId>, DiskFault> {
        if fails(&self.failing, &mut self.calls, &mut self.faults) {
            return Err(DiskFault::Failed);
        }
        Ok(numbers(alloc, &self.files)?)
    }

    fn grip(&mut self, file: FileId) -> Result<MemGrip, DiskFault> {
        if fails(&self.failing, &mut self.calls, &mut self.faults) {
            return Err(DiskFault::Failed);
        }
        match self.files.get(&file) {
            Some(bytes) => Ok(MemGrip {
                bytes: Arc::try_clone(bytes)?,
            }),
            // The file is there.
            None => Err(DiskFault::Memory),
        }
    }

    /// It fails only at the calls that are listed for readers.
    fn reader(&self) -> MemReader
        ensures count { result.faults ≡ 0 }
        ensures spared { listed self.now.reader_failing ≡ [] → listed result.failing ≡ [] }
    {
        MemReader {
            failing: shared(&self.reader_failing),
            calls: 0,
            faults: 0,
        }
    }

    fn retire(&mut self, reader: MemReader) {
        self.reader_faults = self.reader_faults.saturating_add(reader.faults);
    }

    fn faults(&self) -> u64 {
        self.faults
    }
}

// The same list once more. One that has as many owners as can be counted is shared with no more.
fn shared(failing: &Option<Arc<Vec<u64>>>) -> Option<Arc<Vec<u64>>>
    ensures { listed failing.now ≡ [] → listed result ≡ [] }
{
    match failing {
        Some(list) => Arc::try_clone(list).ok(),
        None => None,
    }
}
