// Files that went out of use.
use flash_io::FileId;

/// A file that the manifest names no more, and the generation of the last state that named it.
#[derive(Clone, Copy, Debug, PartialEq, Eq)]
pub struct Retired {
    pub file: FileId,
    pub generation: u64,
}
