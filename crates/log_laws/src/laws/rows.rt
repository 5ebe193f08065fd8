// What tells the rows of a read.
ghost use Rattle.std.specs.Prelude.{◌≡◌, ℕ, ℤ, Some, Option, List};
ghost use Rattle.column_block.specs.declared.cell.Row.{Row};
ghost use Rattle.flash_types.specs.declared.range.HandleRange.{HandleRange};
ghost use Rattle.flash_types.specs.declared.refusal.Cut.{Cut};
ghost use Rattle.committed_log.specs.Laws.{AreRowsBy};
ghost use Rattle.committed_log.specs.Log.{Log};
ghost use Rattle.committed_log.specs.Reads.{rows};
ghost use Rattle.log_laws.specs.Rows.{AreFound};

/// A rule determines the rows that are by it, in rising order of handles.
pub fn rules_determine_rows()
    ensures { (rule : ℤ → Option Row) → ((h : ℤ) (row : Row) → rule h ≡ Some row → row.handle ≡ h) → (xs ys : List Row) → AreRowsBy rule xs → AreRowsBy rule ys → xs ≡ ys }
{}

/// Rows that rise by handle and have, of each handle that the read wants, the cells that the commits
/// of its cut show, and no row of another handle, are the rows of the read.
pub fn found_rows_are_the_rows()
    ensures { (log : Log) (cuts : List Cut) (ts : ℕ) (clip : HandleRange) (found : List Row) → AreFound log cuts ts clip found → found ≡ rows log cuts ts clip }
{}
