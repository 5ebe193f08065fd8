// Laws of slots that are flushed, which callers may use. They do nothing when they run.
ghost use Rattle.segment_flush.specs.Laws.{FlushedSlotsAreRenewed, OneSlotIsFlushed};

/// In the manifest slots that are flushed change in their places.
pub fn flushed_slots_are_renewed<G>()
    ensures { FlushedSlotsAreRenewed G }
{}

/// Where one slot is flushed, all others stay.
pub fn one_slot_is_flushed<G>()
    ensures { OneSlotIsFlushed G }
{}
