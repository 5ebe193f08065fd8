// A directory as a disk.
ghost use Rattle.std.specs.Prelude.{◌≡◌, None, IfOk};

use crate::directory::Directory;
use crate::reader::{HostGrip, HostReader};
use crate::standing::{Standing, fault_of, unchanged};
use flash_io::{Disk, DiskFault, Failed, FileId};
use std::alloc::{AllocError, Global};
use std::fs::File;
use std::rt::Files;

/// A directory as a disk: the file of number n is the regular file that is named `f` and n as ten
/// digits; other names are passed over, and so are directories and links of such a name. It tells
/// nothing of its content.
///
/// Nothing is done before the first call, which locks the file `lock` in the directory. A call
/// fails where another holds that lock, or where the directory isn't there. Want of memory is
/// `Memory` only where nothing was changed yet. Once a sync has failed, each later call fails.
#[derive(Drop)]
pub struct HostDisk<R: Files<File = File> + AllocGlobal + Clone + Drop> {
    directory: Directory<R>,
    standing: Standing,
    reader_faults: u64,
}

impl<R: Files<File = File> + AllocGlobal + Clone + Drop> HostDisk<R> {
    /// A disk in this directory, which isn't looked at yet. An error is want of memory.
    pub fn new(rt: &R, dir: &str) -> Result<HostDisk<R>, AllocError>
        ensures { IfOk result (λ disk. (⟦<HostDisk<R> as Disk>⟧.fault_count disk ≡ 0) × (⟦<HostDisk<R> as Disk>⟧.reader_fault_count disk ≡ 0)) }
    {
        Ok(HostDisk {
            directory: Directory::new(rt, dir)?,
            standing: Standing {
                faults: 0,
                lost: false,
            },
            reader_faults: 0,
        })
    }
}

impl<R: Files<File = File> + AllocGlobal + Clone + Drop> Disk for HostDisk<R> {
    type Reader = HostReader<R>;

    ghost tells = { ⊥ };

    ghost files = { λ _ _. None };

    ghost may_leave = { λ _ _. ⊥ };

    ghost moment = { λ _. 0 };

    ghost left_since = { λ _ _ _. ⊥ };

    ghost fault_count = { λ disk. disk.standing.faults };

    ghost never_fails = { λ _. ⊥ };

    ghost reader_fault_count = { λ disk. disk.reader_faults };

    ghost counts_now = { λ _ _ _ _ left. left };

    ghost since_earlier = { λ _ _ _ _ _ left. left };

    ghost only_now = { λ _ _ left. left };

    ghost leaves_files = { λ _ tells. tells };

    ghost told = { λ _ _ left. left };

    ghost grips_tell = { λ tells. tells };

    ghost tells_grips = { λ tells. tells };

    fn create(&mut self, file: FileId, bytes: &[u8]) -> Result<(), DiskFault> {
        self.standing.enter()?;
        let answer = self.directory.create(file, bytes);
        self.standing.faulted(answer)
    }

    fn write_at(&mut self, file: FileId, at: u64, bytes: &[u8]) -> Result<(), DiskFault> {
        self.standing.enter()?;
        let answer = self.directory.write_at(file, at, bytes);
        self.standing.faulted(answer)
    }

    fn read(
        &mut self,
        file: FileId,
        at: u64,
        len: u32,
        into: &mut Vec<u8>,
    ) -> Result<usize, DiskFault> {
        self.standing.enter()?;
        let answer = self.directory.read(file, at, len, into);
        self.standing.faulted(answer)
    }

    fn len(&mut self, file: FileId) -> Result<u64, Failed> {
        self.standing.enter()?;
        let answer = self.directory.len(file);
        self.standing.failed(answer)
    }

    fn sync(&mut self, file: FileId) -> Result<(), Failed> {
        self.standing.enter()?;
        let answer = self.directory.sync(file);
        self.standing.synced(answer)
    }

    fn remove(&mut self, file: FileId) -> Result<(), Failed> {
        self.standing.enter()?;
        let answer = self.directory.remove(file);
        self.standing.failed(answer)
    }

    fn list(&mut self, alloc: Global) -> Result<Vec<FileId>, DiskFault> {
        self.standing.enter()?;
        match self.directory.list(alloc) {
            Ok(list) => Ok(list),
            Err(error) => self.standing.faulted(Err(fault_of(&error))),
        }
    }

    fn grip(&mut self, file: FileId) -> Result<HostGrip, DiskFault> {
        self.standing.enter()?;
        let answer = unchanged(self.directory.grip(file));
        let stamp = self.standing.faulted(answer)?;
        Ok(HostGrip { file, stamp })
    }

    fn reader(&self) -> HostReader<R> {
        HostReader {
            opened: self.directory.opened(),
            faults: 0,
        }
    }

    fn retire(&mut self, reader: HostReader<R>) {
        self.reader_faults = self.reader_faults.saturating_add(reader.faults);
    }

    fn faults(&self) -> u64 {
        self.standing.faults
    }
}
