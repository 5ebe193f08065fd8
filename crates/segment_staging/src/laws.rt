// Laws of slots that are flushed, which callers may use. They do nothing when they run.
ghost use Rattle.segment_staging.specs.Laws.{FlushedSlotsAreNamed, FlushedSlotsAreRead};

/// What is named of slots once they are flushed is read in each image that has what was named of them
/// and what their flushes write.
pub fn flushed_slots_are_read<G>()
    ensures { FlushedSlotsAreRead G }
{}

/// A flush names more files, each of which has a new number.
pub fn flushed_slots_are_named<G>()
    ensures { FlushedSlotsAreNamed G }
{}
