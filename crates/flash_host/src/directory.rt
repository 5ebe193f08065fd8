// The files of a directory.
ghost use Rattle.std.specs.Prelude.{◌≡◌, IfOk, OnErr};
ghost use Rattle.std.specs.Ordering.{nat_cmp};
ghost use Rattle.std.specs.List.Sorted.{IsStrictlySortedBy};
ghost use Rattle.flash_io.specs.Image.{HasPart};

use crate::opened::{Opened, Stamp, stamp_of};
use crate::part::read_part;
use crate::paths::number_of;
use crate::place::Place;
use crate::standing::{fault_of, unchanged};
use flash_io::{DiskFault, FileId};
use std::alloc::{AllocError, Global};
use std::collections::BTreeSet;
use std::fs::{DirEntry, File, OpenOptions};
use std::io::ErrorKind;
use std::os::unix::fs::FileExt;
use std::rt::Files;
use std::{fs, io};

/// The files of a directory, of which the one that was used last is kept open.
#[derive(Drop)]
pub struct Directory<R: Files<File = File> + AllocGlobal + Clone + Drop> {
    rt: R,
    place: Place,
    // Open for reading and writing.
    last: Option<(FileId, File)>,
    // Whether a name may not have reached the device.
    names_changed: bool,
}

impl<R: Files<File = File> + AllocGlobal + Clone + Drop> Directory<R> {
    pub fn new(rt: &R, dir: &str) -> Result<Directory<R>, AllocError> {
        let place = Place::new(rt.alloc(), dir)?;
        Ok(Directory {
            rt: rt.clone()?,
            place,
            last: None,
            names_changed: true,
        })
    }

    // The file, open for reading and writing.
    fn open(&mut self, file: FileId) -> io::Result<&File> {
        self.place.hold(&self.rt)?;
        if !self.is_last(file) {
            let path = self.place.file_path(file)?;
            let opened = OpenOptions::new()
                .read(true)
                .write(true)
                .open(&self.rt, path)?;
            self.last = Some((file, opened));
        }
        match &self.last {
            Some((_, opened)) => Ok(opened),
            None => Err(io::Error::from(ErrorKind::NotFound)),
        }
    }

    fn is_last(&self, file: FileId) -> bool {
        match &self.last {
            Some((last, _)) => *last == file,
            None => false,
        }
    }

    /// Makes a new file. One that is there is removed before, so that no crash mixes the two. From
    /// then on each error is a failure.
    pub fn create(&mut self, file: FileId, bytes: &[u8]) -> Result<(), DiskFault> {
        unchanged(self.clear(file))?;
        match self.make(file, bytes) {
            Ok(()) => Ok(()),
            Err(_) => Err(DiskFault::Failed),
        }
    }

    // Removes the file where it is there. An error leaves it.
    fn clear(&mut self, file: FileId) -> io::Result<()> {
        match self.remove(file) {
            Ok(()) => Ok(()),
            Err(error) if error.kind() == ErrorKind::NotFound => Ok(()),
            Err(error) => Err(error),
        }
    }

    // Makes a file that isn't there.
    fn make(&mut self, file: FileId, bytes: &[u8]) -> io::Result<()> {
        self.names_changed = true;
        let path = self.place.file_path(file)?;
        let opened = OpenOptions::new()
            .read(true)
            .write(true)
            .create_new(true)
            .open(&self.rt, path)?;
        opened.write_all_at(bytes, 0)?;
        self.last = Some((file, opened));
        Ok(())
    }

    /// Writes over a part of a file. Once it is open each error is a failure.
    pub fn write_at(&mut self, file: FileId, at: u64, bytes: &[u8]) -> Result<(), DiskFault> {
        match self.open(file) {
            Ok(opened) => match opened.write_all_at(bytes, at) {
                Ok(()) => Ok(()),
                Err(_) => Err(DiskFault::Failed),
            },
            Err(error) => Err(fault_of(&error)),
        }
    }

    /// Appends a part of a file. An error leaves `into` as it was.
    pub fn read(
        &mut self,
        file: FileId,
        at: u64,
        len: u32,
        into: &mut Vec<u8>,
    ) -> Result<usize, DiskFault>
        ensures appended { IfOk result (λ n. HasPart n len into.old.items into.new.items) }
        ensures kept { OnErr result (into.new.items ≡ into.old.items) }
    {
        match self.open(file) {
            Ok(opened) => read_part(opened, at, len, into),
            Err(error) => Err(fault_of(&error)),
        }
    }

    pub fn len(&mut self, file: FileId) -> io::Result<u64> {
        Ok(self.open(file)?.metadata()?.len())
    }

    /// Makes a file last, and names that may not have reached the device.
    pub fn sync(&mut self, file: FileId) -> io::Result<()> {
        self.open(file)?.sync_all()?;
        if self.names_changed {
            self.place.sync_names()?;
            self.names_changed = false;
        }
        Ok(())
    }

    pub fn remove(&mut self, file: FileId) -> io::Result<()> {
        self.place.hold(&self.rt)?;
        self.last = None;
        let path = self.place.file_path(file)?;
        for _ in 0..u64::MAX {
            match fs::remove_file(&self.rt, path) {
                Err(error) if error.kind() == ErrorKind::Interrupted => {}
                answer => return answer,
            }
        }
        Err(io::Error::from(ErrorKind::Interrupted))
    }

    /// The numbers of the files, rising.
    pub fn list(&mut self, alloc: Global) -> io::Result<Vec<FileId>>
        ensures { IfOk result (λ list. IsStrictlySortedBy nat_cmp list.items) }
    {
        self.place.hold(&self.rt)?;
        let mut numbers = BTreeSet::new(alloc);
        for entry in fs::read_dir(&self.rt, self.place.dir())? {
            match entry {
                Ok(entry) => {
                    if let Some(file) = number_of_entry(&entry)? {
                        numbers.insert(file)?;
                    }
                }
                // A name that isn't text is passed over like other names.
                Err(error) if error.kind() == ErrorKind::InvalidFilename => {}
                Err(error) => return Err(error),
            }
        }
        Ok(in_order(alloc, &numbers)?)
    }

    /// What tells the file from others that had its number.
    pub fn grip(&mut self, file: FileId) -> io::Result<Stamp> {
        Ok(stamp_of(&self.open(file)?.metadata()?))
    }

    /// What opens the files of grips, or None where there isn't memory for it.
    pub fn opened(&self) -> Option<Opened<R>> {
        Opened::new(&self.rt, self.place.dir()).ok()
    }
}

// The number of a file, or None where this isn't a regular file that has the name of one.
fn number_of_entry<R: Files<File = File> + AllocGlobal + Clone + Drop>(
    entry: &DirEntry<R, Global>,
) -> io::Result<Option<FileId>> {
    let Some(file) = number_of(entry.file_name()) else {
        return Ok(None);
    };
    if entry.file_type()?.is_file() {
        Ok(Some(file))
    } else {
        Ok(None)
    }
}

fn in_order(alloc: Global, numbers: &BTreeSet<FileId>) -> Result<Vec<FileId>, AllocError>
    ensures { IfOk result (λ list. IsStrictlySortedBy nat_cmp list.items) }
{
    let mut list = Vec::new(alloc);
    for file in numbers {
        list.push(*file)?;
    }
    Ok(list)
}
