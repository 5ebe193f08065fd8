// What good replicas show, and what stays of rows that no entry touches.
ghost use Rattle.std.specs.Prelude.{◌≡◌, ◌≤◌, ◌<◌, ℕ, ℤ, Bool, true, false, Option, Some, List, option_map};
ghost use Rattle.column_block.specs.declared.cell.Cell.{Cell};
ghost use Rattle.column_block.specs.declared.cell.Row.{Row};
ghost use Rattle.flash_types.specs.Ranges.{holds};
ghost use Rattle.flash_types.specs.declared.range.HandleRange.{HandleRange};
ghost use Rattle.flash_types.specs.declared.refusal.Cut.{Cut};
ghost use Rattle.committed_log.specs.Applied.{IsClosed, applied, is_settled};
ghost use Rattle.committed_log.specs.Lawful.{IsLawful};
ghost use Rattle.committed_log.specs.Laws.{touches};
ghost use Rattle.committed_log.specs.Log.{Log, at};
ghost use Rattle.committed_log.specs.Reads.{cells, commits_at, rows, shown};
ghost use Rattle.committed_log.specs.Regions.{range_of, index_of};
ghost use Rattle.committed_log.specs.Store.{value, lock};
ghost use Rattle.good_replica.specs.Front.{front};
ghost use Rattle.good_replica.specs.Good.{IsGoodOn};
ghost use Rattle.good_replica.specs.Shown.{AreShown};
ghost use Rattle.good_replica.specs.Shows.{Shows};
ghost use Rattle.good_replica.specs.Trail.{Trail, present};
ghost use Rattle.good_replica.specs.Versions.{Versions, written};

/// The present versions of a good handle show, from the safe point on, what the row store shows at
/// the index of the region that has the handle, where that region is settled for the mark.
pub fn settled_regions_show_rows()
    ensures { (log : Log) → IsLawful log → (A : ℕ → Bool) → IsClosed log A → (r i m safe ts : ℕ) (range : HandleRange) → range_of (applied log A r) ≡ Some range → index_of (applied log A r) ≡ Some i → is_settled log A m r ≡ true →
        (h : ℤ) (t : Trail) → holds range h ≡ true → safe ≤ ts → IsGoodOn log h (front log A h) m safe t →
        Shows (present t) ts (option_map (cells log.schema) (shown (commits_at log r i) ts h)) }
{}

/// Rows that the present versions of good handles show, at cuts of settled regions, are the rows of
/// the read.
pub fn good_handles_give_the_rows()
    ensures { (log : Log) → IsLawful log → (A : ℕ → Bool) → IsClosed log A → (m safe : ℕ) (cuts : List Cut) (ts : ℕ) (clip : HandleRange) (found : List Row) → AreShown log A m safe cuts ts clip found → found ≡ rows log cuts ts clip }
{}

/// Versions show one row at a timestamp, or none.
pub fn versions_show_one_row()
    ensures { (all : Versions) (ts : ℕ) (a b : Option (List Cell)) → Shows all ts a → Shows all ts b → a ≡ b }
{}

/// While no entry touches a handle, its versions, its values in the default family and its lock stay.
pub fn untouched_rows_stay()
    ensures versions { (log : Log) → IsLawful log → (h : ℤ) (p q : ℕ) → p ≤ q → ((x : ℕ) → p ≤ x → x < q → touches log h x ≡ false) → (ts : ℕ) → written log h q ts ≡ written log h p ts }
    ensures values { (log : Log) → IsLawful log → (h : ℤ) (p q : ℕ) → p ≤ q → ((x : ℕ) → p ≤ x → x < q → touches log h x ≡ false) → (start : ℕ) → value (at log q).values h start ≡ value (at log p).values h start }
    ensures lock { (log : Log) → IsLawful log → (h : ℤ) (p q : ℕ) → p ≤ q → ((x : ℕ) → p ≤ x → x < q → touches log h x ≡ false) → lock (at log q).locks h ≡ lock (at log p).locks h }
{}
