// What holds of reads.
ghost use Rattle.std.specs.Prelude.{◌≡◌, ◌≤◌, ℕ, ℤ, Bool, true, None, List, filter, option_map};
ghost use Rattle.std.specs.List.{Contains};
ghost use Rattle.flash_types.specs.Asks.{Asked};
ghost use Rattle.flash_types.specs.Ranges.{holds};
ghost use Rattle.flash_types.specs.declared.ask.AskRegion.{AskRegion};
ghost use Rattle.flash_types.specs.declared.range.HandleRange.{HandleRange};
ghost use Rattle.flash_types.specs.declared.refusal.Cut.{Cut};
ghost use Rattle.committed_log.specs.Laws.{AreRowsBy, CommitsRise};
ghost use Rattle.committed_log.specs.Lawful.{IsLawful};
ghost use Rattle.committed_log.specs.Log.{Log, at, end};
ghost use Rattle.committed_log.specs.ReadIndex.{IsReadIndex, IsAnswered, IsReadAt, NoneClears};
ghost use Rattle.committed_log.specs.Reads.{commits_at, row_of_handle, rows, rows_at_end, row_of, shown};
ghost use Rattle.committed_log.specs.Replies.{first_lock, refused};
ghost use Rattle.committed_log.specs.Store.{Lock};

/// The rows of a read are those that the read rule shows, in rising order of handles.
pub fn rows_are_by_the_rule()
    ensures read { (log : Log) (cuts : List Cut) (ts : ℕ) (clip : HandleRange) → AreRowsBy (row_of_handle log cuts ts clip) (rows log cuts ts clip) }
    ensures at_end { (log : Log) (ts : ℕ) → AreRowsBy (λ h. option_map (row_of log.schema h) (shown (end log).commits ts h)) (rows_at_end log ts) }
{}

/// In a lawful log the commits on a handle, since it was last taken away, have rising timestamps.
pub fn commits_rise()
    ensures { (log : Log) → IsLawful log → (p : ℕ) → CommitsRise (at log p).commits }
{}

/// The first lock in the way of a read of a range is found in each part that has the range.
pub fn first_locks_are_local()
    ensures { (locks : List (ℤ × Lock)) (part range : HandleRange) (ts : ℕ) → ((h : ℤ) → holds range h ≡ true → holds part h ≡ true) → first_lock (filter (λ (l : ℤ × Lock). holds part l.0) locks) range ts ≡ first_lock locks range ts }
{}

/// A read that isn't refused is answered, of each region that it asks about, at the index where the
/// applied entries leave the region: not below the asked index, with the asked epoch, and with no
/// lock in the way.
pub fn reads_are_answered()
    ensures { (log : Log) → IsLawful log → (A : ℕ → Bool) (ask : Asked) (safe mark : ℕ) → refused log ask A safe mark ≡ None → (asked : AskRegion) → Contains ask.regions asked → IsReadAt log A ask.ts asked }
{}

/// Two reads of a region at one timestamp, each answered at an index that isn't below a read index
/// for it, show the same of a handle that the region has at all three, where no Remove or Install
/// took the handle away between them.
pub fn reads_past_a_read_index_agree()
    ensures { (log : Log) → IsLawful log → (r k ts : ℕ) (base : HandleRange) → IsReadIndex log r k ts base →
        (i j : ℕ) (a b : HandleRange) → k ≤ i → k ≤ j → IsAnswered log r i ts a → IsAnswered log r j ts b →
        (h : ℤ) → holds base h ≡ true → holds a h ≡ true → holds b h ≡ true → NoneClears log r i j h →
        shown (commits_at log r i) ts h ≡ shown (commits_at log r j) ts h }
{}
