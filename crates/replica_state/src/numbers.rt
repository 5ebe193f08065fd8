// The numbers that a store keeps, and those that an opening begins.
use flash_types::Ts;

/// Numbers of a replica.
#[derive(Clone, Copy, Debug, PartialEq, Eq)]
pub struct Numbers {
    /// High as it was when the store was opened: rows of entries below it may have been in its files
    /// then.
    pub mark: u64,
    /// Below this timestamp no read is answered.
    pub safe_point: Ts,
    /// Rows of entries below this position may be in the store's files.
    pub high: u64,
    /// The least number that no file and no segment was given.
    pub next: u32,
    /// How often a file went out of use since the opening.
    pub generation: u64,
    /// Files that went out of use at a generation below this one may be gone.
    pub kept_from: u64,
}
