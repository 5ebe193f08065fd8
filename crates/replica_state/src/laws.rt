// Laws of what is in memory, which callers may use. They do nothing when they run.
ghost use Rattle.replica_state.specs.Applying.{AppliedStatesKeepSets};
ghost use Rattle.replica_state.specs.Installs.{InstalledSlotsAreInOrder};

/// Applying an entry changes no set of what was applied by an earlier moment, and with it all that is
/// applied is told.
pub fn applied_states_keep_sets<G>()
    ensures { AppliedStatesKeepSets G }
{}

/// The slots of a planned install are in order beside those that stay.
pub fn installed_slots_are_in_order<G>()
    ensures { InstalledSlotsAreInOrder G }
{}
