// Laws of the format, which callers may use: they do nothing when they run.
ghost use Rattle.log_codec.specs.Laws.{FramesAreReadAgain, FramesHaveOneSpelling, HeadersAreReadAgain, HeadersHaveOneSpelling};

/// A frame that was written is read again as its entry, whatever stands before and behind it.
pub fn frames_are_read_again()
    ensures { FramesAreReadAgain }
{}

/// A frame that is read is the one spelling of its entry, and the entry can be written.
pub fn frames_have_one_spelling()
    ensures { FramesHaveOneSpelling }
{}

/// A header that was written is read again, whatever stands behind it.
pub fn headers_are_read_again()
    ensures { HeadersAreReadAgain }
{}

/// A header that is read is the one spelling of what it says, which can be written.
pub fn headers_have_one_spelling()
    ensures { HeadersHaveOneSpelling }
{}
