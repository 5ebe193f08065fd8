// Laws of scans, which callers may use: they do nothing when they run.
ghost use Rattle.std.specs.Prelude.{List, Option};
ghost use Rattle.column_block.specs.declared.column.Bound.{Bound};
ghost use Rattle.delta_layer.specs.declared.view.SegmentView.{SegmentView};
ghost use Rattle.learner_read.specs.Laws.{ScansAreTheReadRule, ScansFollow, WellScansAreWhole};
ghost use Rattle.learner_read.specs.Scans.{answers_of};
ghost use Rattle.learner_read.specs.declared.snapshot.Snapshot.{Snapshot};

use column_block::Cells;
use flash_io::Gripped;

/// The rows of a scan that ends without damage are the read rule over the versions that are present
/// in its pieces: of each handle that is asked for, of a piece whose packs are all of the form, the
/// cells that it shows at the timestamp, where they pass the test, and no row where it shows nothing
/// or they don't pass. Handles rise, each once. So packs that are left unread hold nothing back.
pub fn scans_are_the_read_rule<G: Gripped, F: Fn(&Cells) -> bool>()
    ensures { ScansAreTheReadRule G.Gripped.bytes F.Fn }
{}

/// A scan of pieces whose packs are all of the form meets no damage.
pub fn well_scans_are_whole<G: Gripped, F: Fn(&Cells) -> bool>()
    ensures { WellScansAreWhole G.Gripped.bytes F.Fn }
{}

/// The scan of some pieces and others behind them is the scan of the first, and then that of the
/// others; where it meets damage in the first, it ends there.
pub fn scans_follow<G: Gripped, F: Fn(&Cells) -> bool>()
    ensures { (snapshot : Snapshot G) (f : F) (bound : Option Bound) (first others : List (SegmentView G)) → ScansFollow G.Gripped.bytes snapshot (answers_of F.Fn f) bound first others }
{}
