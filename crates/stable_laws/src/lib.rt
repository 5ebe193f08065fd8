//! Laws of whole stable files, which callers may use: they do nothing when they run.
#![tactic(auto)]

ghost use Rattle.stable_laws.specs.Files.{EqualReadsAreOfEqualFiles, FilesHaveOneSpelling};

use stable_file::footers_have_one_spelling;

/// What is read as a stable file is, behind its first four bytes, the one spelling of the versions
/// that were read, in these packs. The first four bytes no call reads.
pub fn files_have_one_spelling()
    ensures { FilesHaveOneSpelling }
{
    footers_have_one_spelling();
}

/// Two files that are read as the same versions in packs are equal behind their first four bytes.
pub fn equal_reads_are_of_equal_files()
    ensures { EqualReadsAreOfEqualFiles }
{
    files_have_one_spelling();
}
