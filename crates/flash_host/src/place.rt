// The directory that a disk holds.
use crate::paths::Paths;
use flash_io::FileId;
use std::alloc::{AllocError, Global};
use std::fs::{File, OpenOptions};
use std::io::ErrorKind;
use std::rt::Files;
use std::{fs, io};

/// A directory, which is opened and locked at the first call that needs it.
#[derive(Drop)]
pub struct Place {
    paths: Paths,
    held: Option<Held>,
}

// The open directory, and the lock that keeps others out.
#[derive(Drop)]
struct Held {
    dir: File,
    _lock: File,
}

// The name of the file that is locked.
const LOCK: &str = "lock";

impl Place {
    pub fn new(alloc: Global, dir: &str) -> Result<Place, AllocError> {
        Ok(Place {
            paths: Paths::new(alloc, dir)?,
            held: None,
        })
    }

    /// The path of a file.
    pub fn file_path(&mut self, file: FileId) -> io::Result<&str> {
        self.paths.file_path(file)
    }

    /// Opens and locks the directory, where that is still to do. One that is held by another is an
    /// error.
    pub fn hold<R: Files<File = File>>(&mut self, rt: &R) -> io::Result<()> {
        if self.held.is_some() {
            return Ok(());
        }
        let dir = fs::open(rt, self.paths.dir())?;
        let path = self.paths.named(LOCK)?;
        let lock = OpenOptions::new().write(true).create(true).open(rt, path)?;
        lock.try_lock()?;
        self.held = Some(Held { dir, _lock: lock });
        Ok(())
    }

    /// Makes the names in the directory last.
    pub fn sync_names(&self) -> io::Result<()> {
        match &self.held {
            Some(held) => held.dir.sync_all(),
            None => Err(io::Error::from(ErrorKind::NotFound)),
        }
    }

    /// The directory's path.
    pub fn dir(&self) -> &str {
        self.paths.dir()
    }
}
