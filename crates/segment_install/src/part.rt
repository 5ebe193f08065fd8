// What an install is given beside what was built.
ghost use Rattle.std.specs.Prelude.{◌≡◌};
ghost use Rattle.segment_install.specs.Plans.{part_of};

use flash_io::FileId;
use stable_file::StableFile;

/// The open stable files of what was built, the lower piece's first. A piece without a version has
/// none, and a compaction has none at all.
#[derive(Drop)]
pub struct Files<G> {
    /// That of the first piece.
    pub low: Option<StableFile<G>>,
    /// That of the second piece.
    pub high: Option<StableFile<G>>,
}

/// A stable file that was written, and its number.
#[derive(Drop)]
pub struct Part<G> {
    /// The number.
    pub number: FileId,
    /// The open file.
    pub file: StableFile<G>,
}

/// A stable file with its number, where there is one.
pub fn part_of<G: Drop>(number: FileId, file: Option<StableFile<G>>) -> Option<Part<G>>
    ensures { result ≡ part_of number file }
{
    match file {
        None => None,
        Some(file) => Some(Part { number, file }),
    }
}
