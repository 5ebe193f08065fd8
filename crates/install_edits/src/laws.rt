// Laws of the edits of an install, which callers may use. They do nothing when they run.
ghost use Rattle.install_edits.specs.Laws.{EditsChangeSlots, FilesThenAre};

/// Where some slots give way to others, the edits make the state that names the slots then, and leave
/// all else. A store may have it, if the new numbers are below Next.
pub fn edits_change_slots<G>()
    ensures { EditsChangeSlots G }
{}

/// The files that are named then are those of the new slots and of the slots that stay: a file that
/// was named and isn't among these went out of use.
pub fn files_then_are<G>()
    ensures { FilesThenAre G }
{}
