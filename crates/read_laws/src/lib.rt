//! A read of a replica whose pieces are good gives the rows of the log.
#![tactic(auto)]

ghost use Rattle.std.specs.Prelude.{◌≡◌, ℕ, ℤ, Bool, true, int_le, List, filter, map};
ghost use Rattle.column_block.specs.declared.cell.Cell.{Cell};
ghost use Rattle.column_block.specs.declared.cell.Row.{Row};
ghost use Rattle.column_block.specs.declared.cell.Version.{Version};
ghost use Rattle.flash_types.specs.declared.range.HandleRange.{HandleRange};
ghost use Rattle.flash_types.specs.declared.refusal.Cut.{Cut};
ghost use Rattle.committed_log.specs.Applied.{IsClosed};
ghost use Rattle.committed_log.specs.Lawful.{IsLawful};
ghost use Rattle.committed_log.specs.Log.{Log};
ghost use Rattle.committed_log.specs.Reads.{rows};
ghost use Rattle.good_replica.specs.Good.{CoversFrom};
ghost use Rattle.good_replica.specs.Trail.{Segment};
ghost use Rattle.delta_layer.specs.declared.view.SegmentView.{SegmentView};
ghost use Rattle.learner_read.specs.Rows.{is_asked};
ghost use Rattle.read_laws.specs.Reads.{AreReadOf, HasNeeded, TellRead, row_in};

/// What is read of pieces is those of the log's rows at the cuts and the timestamp that pass, where
/// each cut is of a settled region, each handle that is wanted is of a piece, each piece is good, and
/// the timestamp isn't below the safe point. Where each row passes, it is the log's rows.
pub fn good_pieces_give_the_rows<G>()
    ensures passing { (bytes : G → List ℕ) (log : Log) → IsLawful log
        → (A : ℕ → Bool) → IsClosed log A
        → (m safe : ℕ) (cuts : List Cut) (ts : ℕ) (clip : HandleRange) (pieces : List (SegmentView G))
        → TellRead bytes log A m safe cuts ts clip pieces
        → (passes : List Cell → Bool) (found : List Version)
        → AreReadOf bytes passes cuts ts clip pieces found
        → map row_in found ≡ filter (λ (row : Row). passes row.cells) (rows log cuts ts clip) }
    ensures all { (bytes : G → List ℕ) (log : Log) → IsLawful log
        → (A : ℕ → Bool) → IsClosed log A
        → (m safe : ℕ) (cuts : List Cut) (ts : ℕ) (clip : HandleRange) (pieces : List (SegmentView G))
        → TellRead bytes log A m safe cuts ts clip pieces
        → (found : List Version)
        → AreReadOf bytes (λ _. true) cuts ts clip pieces found
        → map row_in found ≡ rows log cuts ts clip }
{}

/// Where segments cover the handles, each handle that a read asks for is of one that the read needs:
/// so a snapshot may share the needed segments alone.
pub fn asked_handles_are_covered()
    ensures { (low : ℤ) (segments : List Segment) → CoversFrom low segments
        → (clip : HandleRange) (cuts : List Cut) → int_le low clip.low ≡ true
        → (h : ℤ) → is_asked clip cuts h ≡ true
        → HasNeeded clip cuts segments h }
{}
