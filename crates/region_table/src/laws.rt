//! Laws of region tables, which callers may use: each function does nothing when it runs, and its
//! contract is a law.
ghost use Rattle.std.specs.Prelude.{◌≡◌, ◌<◌, ◌≤◌, ℕ, Bool, true, false, None, Some, length};
ghost use Rattle.committed_log.specs.Applied.{applied, is_ready};
ghost use Rattle.committed_log.specs.Lawful.{IsLawful};
ghost use Rattle.committed_log.specs.Log.{Log};
ghost use Rattle.committed_log.specs.Regions.{index_of};
ghost use Rattle.region_file.specs.Spelling.{CanBeWritten};
ghost use Rattle.region_table.specs.Applying.{apply_fault, IsBehind};
ghost use Rattle.region_table.specs.Counting.{applied_in};
ghost use Rattle.region_table.specs.Lawful.{AtEachSet, WhereDone, WhereEarly, OfRegions, OfTables};
ghost use Rattle.region_table.specs.Lawful.{HasOneSet, CountsOneMore, IsReadAgain};
ghost use Rattle.region_table.specs.Table.{Table, IsTableAt, empty_table, state_in};

/// The table without regions is that of each log where no entry is applied.
pub fn empty_tables_agree()
    ensures { (log : Log) → IsTableAt log (λ _. false) empty_table }
{}

/// An entry can be applied exactly where it is ready: where it isn't applied, and the set stays closed
/// with it.
pub fn faults_tell_ready()
    ensures ready { AtEachSet (λ log A p e. apply_fault log A p e ≡ None → is_ready log A p ≡ true) }
    ensures none { AtEachSet (λ log A p e. is_ready log A p ≡ true → apply_fault log A p e ≡ None) }
{}

/// Where an entry is told as done, it is applied, and its region has come to its index or further:
/// the index that is told is the region's.
pub fn done_is_applied()
    ensures applied { WhereDone (λ log A p e r last. A p ≡ true) }
    ensures region { WhereDone (λ log A p e r last. r ≡ e.region) }
    ensures last { WhereDone (λ log A p e r last. index_of (applied log A r) ≡ Some last) }
    ensures high { WhereDone (λ log A p e r last. e.index ≤ last) }
{}

/// Where an entry is told as early, it isn't applied, and the index that is told is that of the region
/// that is behind, and below the one that is wanted.
pub fn early_is_behind()
    ensures out { WhereEarly (λ log A p r last wants. A p ≡ false) }
    ensures last { WhereEarly (λ log A p r last wants. last ≡ index_of (applied log A r)) }
    ensures behind { WhereEarly (λ log A p r last wants. IsBehind last wants) }
{}

/// At a table's set its regions are as the applied entries leave them. So `applied`, `cut` and
/// `live_after` are the set's: they are told by these states.
pub fn states_are_the_sets()
    ensures { OfTables (λ log A t. (r : ℕ) → state_in t.regions r ≡ applied log A r) }
{}

/// A set is told by the regions that it leaves: a position is in it exactly where its region has come
/// to its index. So a table, and the regions of a file, are those of one set at most.
pub fn tables_tell_their_set()
    ensures told { OfRegions (λ log A regions. (p : ℕ) → A p ≡ applied_in log regions p) }
    ensures one { (log : Log) → IsLawful log → (t : Table) → HasOneSet log t }
{}

/// One position more counts one more.
pub fn one_more_counts_one_more()
    ensures { (log : Log) (A : ℕ → Bool) (p : ℕ) → A p ≡ false → p < length log.entries → CountsOneMore log A p }
{}

/// What is written of the table of a log is read again as the same regions: no handle lies in the
/// ranges of two of them. `RegionTable::write_file` ensures that they can be written.
pub fn written_tables_are_read_again()
    ensures { OfRegions (λ log A regions. CanBeWritten regions → IsReadAgain regions) }
{}
