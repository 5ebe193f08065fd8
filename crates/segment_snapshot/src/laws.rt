// Laws of snapshots, which callers may use. They do nothing when they run.
ghost use Rattle.std.specs.Prelude.{◌≡◌, ◌<◌, ℕ, Bool, None, Some, Option, Ok, List, length, map};
ghost use Rattle.std.specs.List.{AllByRecursion};
ghost use Rattle.column_block.specs.declared.cell.Cell.{Cell};
ghost use Rattle.column_block.specs.declared.cell.Version.{Version};
ghost use Rattle.column_block.specs.declared.column.Bound.{Bound};
ghost use Rattle.column_block.specs.declared.column.Column.{Column};
ghost use Rattle.flash_types.specs.Asks.{Asked};
ghost use Rattle.flash_types.specs.declared.range.HandleRange.{HandleRange};
ghost use Rattle.flash_types.specs.declared.refusal.Cut.{Cut};
ghost use Rattle.committed_log.specs.Applied.{IsClosed};
ghost use Rattle.committed_log.specs.Lawful.{IsLawful};
ghost use Rattle.committed_log.specs.Log.{Log};
ghost use Rattle.committed_log.specs.Replies.{AreCuts, refused};
ghost use Rattle.good_replica.specs.Good.{AreGood};
ghost use Rattle.delta_layer.specs.declared.view.SegmentView.{SegmentView};
ghost use Rattle.stable_file.specs.Footer.{tail_at};
ghost use Rattle.stable_file.specs.declared.pack.Pack.{Pack};
ghost use Rattle.learner_read.specs.Packs.{packs_in};
ghost use Rattle.learner_read.specs.Scans.{Scans, answers_of};
ghost use Rattle.learner_read.specs.declared.snapshot.Snapshot.{Snapshot};
ghost use Rattle.segment_list.specs.Slots.{Slotted};
ghost use Rattle.segment_snapshot.specs.Rights.{AreReadable, IsRightScan, TellBound, TellColumns, answers_as, whole};
ghost use Rattle.segment_snapshot.specs.Views.{IsSnapshotOf, needed_views};

use column_block::Cells;
use flash_io::Gripped;

/// A snapshot of a replica's segments gives the log's rows to each scan, where the segments are
/// good for the log and read, the read isn't refused, and the cuts are those of its regions.
pub fn good_segments_give_right_scans<G>()
    ensures { (bytes : G → List ℕ) (log : Log) → IsLawful log
        → (A : ℕ → Bool) → IsClosed log A
        → (m safe : ℕ) (slots : List (Slotted G))
        → AreReadable bytes slots → AreGood log A m safe (map (whole bytes) slots)
        → (ask : Asked) → refused log ask A safe m ≡ None
        → (cuts : List Cut) → AreCuts log A ask.regions cuts
        → (count generation pack_rows : ℕ) (snapshot : Snapshot G)
        → IsSnapshotOf slots ask.ts ask.clip cuts count generation pack_rows snapshot
        → IsRightScan bytes log A ask snapshot }
{}

/// Where all that a closure may answer is what a function gives, its scans are those by the
/// function.
pub fn scans_by_a_function<G: Gripped, F: Fn(&Cells) -> bool>()
    ensures { (snapshot : Snapshot G) (f : F) (passes : List Cell → Bool)
        → ((cells : List Cell) (answer : Bool) → answers_of F.Fn f cells answer
        → passes cells ≡ answer)
        → (bound : Option Bound) (pieces : List (SegmentView G))
        → (found : List Version) (damage : Option ℕ)
        → Scans G.Gripped.bytes snapshot (answers_of F.Fn f) bound pieces found damage
        → Scans G.Gripped.bytes snapshot (answers_as passes) bound pieces found damage }
{}

/// The footer of a stable file that was opened tells of each column of the schema.
pub fn footers_tell_each_column()
    ensures { (len : ℕ) (columns : List Column) (tail : List ℕ) (packs : List Pack)
        → tail_at len columns tail ≡ Ok packs → TellColumns (length columns) packs }
{}

/// Footers that tell of so many columns tell of the column of a bound that is one of them; where
/// there is no bound nothing is asked of them. A snapshot has the stable files of its segments.
pub fn columns_tell_a_bound<G>()
    ensures none { (pieces : List (SegmentView G)) → TellBound None pieces }
    ensures some { (bound : Bound) (columns : ℕ) (pieces : List (SegmentView G))
        → bound.column < columns
        → AllByRecursion (λ piece. TellColumns columns (packs_in piece.stable)) pieces
        → TellBound (Some bound) pieces }
    ensures shared { (clip : HandleRange) (cuts : List Cut) (columns : ℕ)
        → (slots : List (Slotted G))
        → AllByRecursion (λ slot. TellColumns columns (packs_in slot.stable)) slots
        → (pieces : List (SegmentView G)) → pieces ≡ needed_views clip cuts slots
        → AllByRecursion (λ piece. TellColumns columns (packs_in piece.stable)) pieces }
{}
