// Laws of stable files, which callers may use: they do nothing when they run.
ghost use Rattle.stable_file.specs.Laws.{BuiltFootersAreReadAgain, BuiltPacksAreReadAgain, FootersHaveOneSpelling, RangesTellOfRows, TailsTellTheWhole};

/// The packs of a stable file of versions that rise and suit a schema have these versions together,
/// and each is read again as the versions that it has, wherever it stands.
pub fn built_packs_are_read_again()
    ensures { BuiltPacksAreReadAgain }
{}

/// The footer of a stable file of such versions, whose numbers have 64 bits, is read as the packs that
/// the file has: each at its place, behind the one before it, with its length, its number of versions,
/// its first and last handle, and the range of each column's numbers. So it is from the whole file, as
/// `open` reads it, and from its last bytes, as `attach` takes them.
pub fn built_footers_are_read_again()
    ensures { BuiltFootersAreReadAgain }
{}

/// The last bytes of a file, which reach to its footer, tell the packs that the whole file tells.
pub fn tails_tell_the_whole()
    ensures { TailsTellTheWhole }
{}

/// What `min_max` means to a sieve: each version of a pack that was read has in that column no number,
/// or one of the range.
pub fn ranges_tell_of_rows()
    ensures { RangesTellOfRows }
{}

/// Bytes that are read as a footer are the one spelling of the packs that it tells.
pub fn footers_have_one_spelling()
    ensures { FootersHaveOneSpelling }
{}
