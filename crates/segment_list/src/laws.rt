// Laws of what files say, which callers may use. They do nothing when they run.
ghost use Rattle.segment_list.specs.Laws.{AbsorbedListsSayTheEntry, AbsorbedSlotsSayTheEntry, AbsorbedSlotsStayInOrder, ClippedFilesSayTheirPart, CoveredHandlesHaveASlot, FlushedFilesAreRepacked, FlushedSlotsAreInOrder, GatheredFilesSayTheirPart, OneSlotHasAHandle};

/// What a slot's files say after an entry, with their tags, is what they said with the entry's two
/// files behind, clipped to the slot, where these say something.
pub fn absorbed_slots_say_the_entry<G>()
    ensures { AbsorbedSlotsSayTheEntry G }
{}

/// Files that are clipped to a range say what the files said, clipped.
pub fn clipped_files_say_their_part()
    ensures { ClippedFilesSayTheirPart }
{}

/// A slot that was in order is so after an entry.
pub fn absorbed_slots_stay_in_order<G>()
    ensures { AbsorbedSlotsStayInOrder G }
{}

/// Where the slots cover the handles, one of them has the handle.
pub fn covered_handles_have_a_slot<G>()
    ensures { CoveredHandlesHaveASlot G }
{}

/// Where the slots cover the handles, no two of them have the same handle.
pub fn one_slot_has_a_handle<G>()
    ensures { OneSlotHasAHandle G }
{}

/// The same of all slots, however their stable parts are read.
pub fn absorbed_lists_say_the_entry<G>()
    ensures { AbsorbedListsSayTheEntry G }
{}

/// Files that are gathered say what they said, clipped.
pub fn gathered_files_say_their_part()
    ensures { GatheredFilesSayTheirPart }
{}

/// The files of a flushed delta came from it by flushes, or are the same where no block was in memory.
pub fn flushed_files_are_repacked()
    ensures { FlushedFilesAreRepacked }
{}

/// A slot that was in order is so once it is flushed.
pub fn flushed_slots_are_in_order<G>()
    ensures { FlushedSlotsAreInOrder G }
{}
