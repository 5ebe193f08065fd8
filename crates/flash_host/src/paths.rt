// The names of a disk's files.
use flash_io::FileId;
use std::alloc::{AllocError, Global};
use std::io;
use std::io::ErrorKind;

/// The paths of the files of a directory. The room for each is made at first.
#[derive(Drop)]
pub struct Paths {
    dir: String,
    // The directory's path with room for a name.
    path: String,
}

// The length of each file's name.
const NAME_LEN: usize = 11;

impl Paths {
    pub fn new(alloc: Global, dir: &str) -> Result<Paths, AllocError> {
        let mut path = String::with_capacity(alloc, dir.len().saturating_add(1 + NAME_LEN))?;
        path.push_str(dir)?;
        Ok(Paths {
            dir: String::from_str(alloc, dir)?,
            path,
        })
    }

    /// The directory's path.
    pub fn dir(&self) -> &str {
        self.dir.as_str()
    }

    /// The path of a name in the directory.
    pub fn named(&mut self, name: &str) -> io::Result<&str> {
        self.path.clear();
        self.path.push_str(self.dir.as_str())?;
        self.path.push('/')?;
        self.path.push_str(name)?;
        Ok(self.path.as_str())
    }

    /// The path of a file: `f` and its number as ten digits.
    pub fn file_path(&mut self, file: FileId) -> io::Result<&str> {
        let mut name = [b'f'; NAME_LEN];
        let mut rest = file;
        for i in 1..NAME_LEN {
            name[NAME_LEN - i] = b'0' + (rest % 10) as u8;
            rest /= 10;
        }
        match std::str::from_utf8(&name) {
            Ok(name) => self.named(name),
            Err(_) => Err(io::Error::from(ErrorKind::InvalidFilename)),
        }
    }
}

/// The number of the file of this name, or None for other names.
pub fn number_of(name: &str) -> Option<FileId> {
    let digits = name.strip_prefix('f')?;
    if digits.len() != 10 || !digits.bytes().all(|byte| byte.is_ascii_digit()) {
        return None;
    }
    digits.parse::<FileId>().ok()
}
