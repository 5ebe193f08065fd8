// What holds of the format, whatever a program does.
ghost use Rattle.manifest_form.specs.Laws.{EditsAreReadAgain, HeadersAreReadAgain};
ghost use Rattle.manifest_form.specs.Whole.{WholeStatesAreDoneAgain};

/// Edits that are written are read again.
pub fn edits_are_read_again()
    ensures { EditsAreReadAgain }
{}

/// A header that is written is read again.
pub fn headers_are_read_again()
    ensures { HeadersAreReadAgain }
{}

/// A state that is written whole is made again, with the greater Next, in a file of the old Next's
/// number.
pub fn whole_states_are_done_again()
    ensures { WholeStatesAreDoneAgain }
{}
