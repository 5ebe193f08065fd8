// Laws of lists, which callers may use: they do nothing when they run.
ghost use Rattle.column_codec.specs.Laws.{ListsAreReadAgain, ListsHaveOneSpelling};

/// A list that is written is read again as the same list: its numbers have 64 bits, and the
/// lengths of its texts too.
pub fn lists_are_read_again()
    ensures { ListsAreReadAgain }
{}

/// Bytes that are read as a list are the one spelling of it, of the kind and the number of values
/// that were asked for; so no other bytes are read as that list.
pub fn lists_have_one_spelling()
    ensures { ListsHaveOneSpelling }
{}
