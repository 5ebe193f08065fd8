// Laws of the slots of an install, which callers may use. They do nothing when they run.
ghost use Rattle.std.specs.Prelude.{ℕ, List};
ghost use Rattle.column_block.specs.declared.column.Column.{Column};
ghost use Rattle.delta_layer.specs.declared.built.Built.{Built};
ghost use Rattle.segment_laws.specs.Jobs.{IsBuilt};
ghost use Rattle.segment_install.specs.Goodness.{InstallsKeepAll, InstallsKeepCounts, InstallsKeepOrder};
ghost use Rattle.segment_install.specs.Plans.{IsBuiltFor};
ghost use Rattle.segment_install.specs.Told.{CompactedSlotsSayTheRun, HalfSlotsSayTheirPart, JoinedSlotsSayBoth, MergedSlotsSayTheRest};

use flash_io::Gripped;

/// The slot of a delta merge says its own versions, and above them what came since.
pub fn merged_slots_say_the_rest<G>()
    ensures { MergedSlotsSayTheRest G }
{}

/// A half of a split says its own versions, and above them its part of what came since.
pub fn half_slots_say_their_part<G>()
    ensures { HalfSlotsSayTheirPart G }
{}

/// The slot of a merge says its own versions, and above them what came since to both, each kept to
/// its own handles, what is named first.
pub fn joined_slots_say_both<G>()
    ensures { JoinedSlotsSayBoth G }
{}

/// The slot of a compaction says the versions of the run in the run's place.
pub fn compacted_slots_say_the_run<G>()
    ensures { CompactedSlotsSayTheRun G }
{}

/// What is built of a work has as many views and pieces as its job makes, of the ranges that it
/// makes.
pub fn builds_can_be_installed<G: Gripped>()
    ensures { (columns : List Column) (rows : ℕ) (built : Built G)
        → IsBuilt G.Gripped.tells G.Gripped.bytes columns rows built → IsBuiltFor built.job built }
{}

/// Where what is there at each count was good, it is so once an install is put; and so is all that
/// is there.
pub fn installs_keep_good<G: Gripped>()
    ensures counts { InstallsKeepCounts G.Gripped.tells G.Gripped.bytes }
    ensures all { InstallsKeepAll G.Gripped.tells G.Gripped.bytes }
{}

/// Slots that are in order give way to slots that are.
pub fn installs_keep_order<G>()
    ensures { InstallsKeepOrder G }
{}
