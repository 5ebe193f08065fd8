// The files that a reader has open.
ghost use Rattle.std.specs.Prelude.{◌<◌, length, IfOk, IfSome};

use crate::paths::Paths;
use flash_io::FileId;
use std::alloc::AllocError;
use std::fs::{File, Metadata};
use std::io::ErrorKind;
use std::os::unix::fs::MetadataExt;
use std::rt::Files;
use std::{fs, io};

/// What tells a file from one that is made later under its name.
#[derive(Clone, Copy, PartialEq, Eq)]
pub struct Stamp {
    inode: u64,
    written: i64,
    written_nanos: i64,
    len: u64,
}

/// The stamp of a file.
pub fn stamp_of(metadata: &Metadata) -> Stamp {
    Stamp {
        inode: metadata.ino(),
        written: metadata.mtime(),
        written_nanos: metadata.mtime_nsec(),
        len: metadata.len(),
    }
}

/// Some files of a directory, open for reading. They are opened as they are asked for, and the one
/// that was opened first is closed when there are too many.
#[derive(Drop)]
pub struct Opened<R: Files<File = File> + AllocGlobal + Clone + Drop> {
    rt: R,
    paths: Paths,
    files: Vec<(FileId, File)>,
}

// How many files are open at a time.
const MOST: usize = 8;

impl<R: Files<File = File> + AllocGlobal + Clone + Drop> Opened<R> {
    pub fn new(rt: &R, dir: &str) -> Result<Opened<R>, AllocError> {
        let alloc = rt.alloc();
        Ok(Opened {
            rt: rt.clone()?,
            paths: Paths::new(alloc, dir)?,
            files: Vec::with_capacity(alloc, MOST)?,
        })
    }

    /// The file, open for reading. It is an error where it isn't the one of this stamp.
    pub fn get(&mut self, file: FileId, stamp: Stamp) -> io::Result<&File> {
        let place = self.place(file, stamp)?;
        Ok(&self.files[place].1)
    }

    // The place of the file among the open ones, where it is put if it isn't there.
    fn place(&mut self, file: FileId, stamp: Stamp) -> io::Result<usize>
        ensures { IfOk result (λ place. place < length self.new.files.items) }
    {
        if let Some(place) = place_of(&self.files, file) {
            return Ok(place);
        }
        let opened = fs::open(&self.rt, self.paths.file_path(file)?)?;
        if stamp_of(&opened.metadata()?) != stamp {
            return Err(io::Error::from(ErrorKind::NotFound));
        }
        if self.files.len() >= MOST {
            self.files.remove(0);
        }
        let place = self.files.len();
        self.files.push((file, opened))?;
        Ok(place)
    }
}

// The place of the file among these.
fn place_of(files: &[(FileId, File)], file: FileId) -> Option<usize>
    ensures { IfSome result (λ place. place < length files.now) }
{
    for (place, (other, _)) in files.iter().enumerate() {
        if *other == file {
            return Some(place);
        }
    }
    None
}
