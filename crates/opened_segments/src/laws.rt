// Laws of what is opened, which callers may use: they do nothing when they run.
ghost use Rattle.opened_segments.specs.Laws.{OpenedSegmentsAreRead, ReadSegmentsHaveNoFault, ReadableSegmentsAreThere};

/// Where an image has segments whose files all read, the slots that were opened have what these
/// segments have, and their stable parts read.
pub fn opened_segments_are_read<G>()
    ensures { OpenedSegmentsAreRead G }
{}

/// Where the stable parts of the slots read, the image has the segments of the slots.
pub fn readable_segments_are_there<G>()
    ensures { ReadableSegmentsAreThere G }
{}

/// Where an image has segments whose files all read, no fault is found.
pub fn read_segments_have_no_fault()
    ensures { ReadSegmentsHaveNoFault }
{}
