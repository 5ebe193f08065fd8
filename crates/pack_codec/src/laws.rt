// Laws of packs, which callers may use: they do nothing when they run.
ghost use Rattle.pack_codec.specs.Laws.{PacksAreReadAgain, PacksHaveOneSpelling, PacksSuit};

/// Versions that suit a schema and are written are read again as the same versions.
pub fn packs_are_read_again()
    ensures { PacksAreReadAgain }
{}

/// What is read of a pack suits the schema that it is read with.
pub fn packs_suit()
    ensures { PacksSuit }
{}

/// Bytes that are read as a pack are the one spelling of its versions: two byte strings that read as
/// the same versions are equal.
pub fn packs_have_one_spelling()
    ensures { PacksHaveOneSpelling }
{}
