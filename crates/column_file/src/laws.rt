// Laws of tiny files, which callers may use: they do nothing when they run.
ghost use Rattle.column_file.specs.Laws.{TinyFilesAreReadAgain, TinyFilesHaveOneSpelling, TinyFilesSuit};

/// Versions that suit a schema and are written as a tiny file are read again as the same versions.
pub fn tiny_files_are_read_again()
    ensures { TinyFilesAreReadAgain }
{}

/// What is read of a tiny file suits the schema that it is read with.
pub fn tiny_files_suit()
    ensures { TinyFilesSuit }
{}

/// Bytes that are read as a tiny file are the one spelling of its versions: two byte strings that read
/// as the same versions are equal.
pub fn tiny_files_have_one_spelling()
    ensures { TinyFilesHaveOneSpelling }
{}
