// What holds of the values that a log commits.
ghost use Rattle.std.specs.Prelude.{◌≡◌, ℕ, List, Some, None};
ghost use Rattle.std.specs.List.{Contains};
ghost use Rattle.column_block.specs.Suiting.{CellsFit};
ghost use Rattle.committed_log.specs.Admission.{row_fault_of};
ghost use Rattle.committed_log.specs.Lawful.{IsLawful};
ghost use Rattle.committed_log.specs.Log.{Log, at};
ghost use Rattle.committed_log.specs.Reads.{cells};
ghost use Rattle.committed_log.specs.declared.store.Commit.{Commit};

/// Each value that is committed is a row of the table: it can be read, with no column that the schema
/// lacks, and has one cell for each column, which is null or of the column's kind.
pub fn committed_values_are_rows()
    ensures row { (log : Log) → IsLawful log → (p : ℕ) (c : Commit) → Contains (at log p).commits c → (value : List ℕ) → c.value ≡ Some value → row_fault_of log.schema value ≡ None }
    ensures cells { (log : Log) → IsLawful log → (p : ℕ) (c : Commit) → Contains (at log p).commits c → (value : List ℕ) → c.value ≡ Some value → CellsFit log.schema (cells log.schema value) }
{}
