// What holds of the entries that a replica has applied.
ghost use Rattle.std.specs.Prelude.{◌≡◌, ◌≤◌, ◌<◌, ℕ, ℤ, Bool, true, false, List, Some, None, length, slice_get, nat_lt, ◌||◌};
ghost use Rattle.flash_types.specs.declared.range.HandleRange.{HandleRange};
ghost use Rattle.log_codec.specs.declared.entry.Entry.{Entry};
ghost use Rattle.committed_log.specs.Applied.{acts_at, left_at, IsClosed, is_ready, with_position, applied, next, next_of, state};
ghost use Rattle.committed_log.specs.Lawful.{IsLawful};
ghost use Rattle.committed_log.specs.Laws.{region_at, IsInside, HasGrown, IsFirstOut, waits_no_more, touches};
ghost use Rattle.committed_log.specs.Log.{Log};
ghost use Rattle.committed_log.specs.Regions.{Region, Gone, region, range_of, index_of, regions_after};

/// In a closed set the next entry of a region that has handles is the one after its index; a region
/// that is gone has none.
pub fn next_is_by_index()
    ensures there { (log : Log) → IsLawful log → (A : ℕ → Bool) → IsClosed log A → (r i : ℕ) (range : HandleRange) → range_of (applied log A r) ≡ Some range → index_of (applied log A r) ≡ Some i → next log A r ≡ next_of log r i }
    ensures gone { (log : Log) → IsLawful log → (A : ℕ → Bool) → IsClosed log A → (r last : ℕ) → applied log A r ≡ Gone last → next log A r ≡ None }
{}

/// An entry is ready exactly where the closed set stays closed with it.
pub fn ready_is_closed()
    ensures closed { (log : Log) (A : ℕ → Bool) (p : ℕ) → IsClosed log A → is_ready log A p ≡ true → IsClosed log (with_position A p) }
    ensures ready { (log : Log) (A : ℕ → Bool) (p : ℕ) → A p ≡ false → IsClosed log (with_position A p) → is_ready log A p ≡ true }
{}

/// Whether an entry that isn't applied is ready is told by what the closed set leaves of its region
/// and of the source of its commit.
pub fn regions_tell_ready()
    ensures { (log : Log) → IsLawful log → (A : ℕ → Bool) → IsClosed log A → (p : ℕ) (e : Entry) → slice_get log.entries p ≡ Some e → A p ≡ false → is_ready log A p ≡ waits_no_more log A p e }
{}

/// Of the regions that a ready entry acts on, the closed set leaves what the log has before the
/// entry, and with the entry what it has after it. The other regions stay.
pub fn ready_entries_extend()
    ensures before { (log : Log) → IsLawful log → (A : ℕ → Bool) → IsClosed log A → (p r : ℕ) → is_ready log A p ≡ true → acts_at log r p ≡ true → applied log A r ≡ region_at log r p }
    ensures after { (log : Log) → IsLawful log → (A : ℕ → Bool) → IsClosed log A → (p r : ℕ) → is_ready log A p ≡ true → acts_at log r p ≡ true → applied log (with_position A p) r ≡ left_at log r p }
    ensures others { (log : Log) → IsLawful log → (A : ℕ → Bool) → IsClosed log A → (p r : ℕ) → is_ready log A p ≡ true → acts_at log r p ≡ false → applied log (with_position A p) r ≡ applied log A r }
{}

/// A table of the regions at a closed set becomes, by a ready entry alone, that at the set with it.
pub fn tables_go_on()
    ensures { (log : Log) → IsLawful log → (A : ℕ → Bool) → IsClosed log A → (p : ℕ) (e : Entry) → slice_get log.entries p ≡ Some e → is_ready log A p ≡ true → (table : List (ℕ × Region)) → ((r : ℕ) → region table r ≡ applied log A r) → (r : ℕ) → region (regions_after table e) r ≡ applied log (with_position A p) r }
{}

/// The least position that isn't applied is ready.
pub fn first_is_ready()
    ensures { (log : Log) (A : ℕ → Bool) (p : ℕ) → IsFirstOut log A p → is_ready log A p ≡ true }
{}

/// The positions below a number are a closed set, and so are the positions of two closed sets.
pub fn prefixes_are_closed()
    ensures below { (log : Log) (n : ℕ) → n ≤ length log.entries → IsClosed log (λ p. nat_lt p n) }
    ensures union { (log : Log) (A B : ℕ → Bool) → IsClosed log A → IsClosed log B → IsClosed log (λ p. A p || B p) }
{}

/// A closed set has, with an entry that touches a handle, each earlier one that touches it.
pub fn touches_are_closed()
    ensures { (log : Log) → IsLawful log → (h : ℤ) (A : ℕ → Bool) → IsClosed log A → (p q : ℕ) → A p ≡ true → touches log h p ≡ true → q < p → touches log h q ≡ true → A q ≡ true }
{}

/// What a set leaves of a region that has handles is the region's state at its index.
pub fn states_are_by_index()
    ensures { (log : Log) → IsLawful log → (A : ℕ → Bool) (r i : ℕ) (range : HandleRange) → range_of (applied log A r) ≡ Some range → index_of (applied log A r) ≡ Some i → state log r i ≡ applied log A r }
{}

/// Two closed sets that leave each region at the same index are one.
pub fn indexes_tell_a_set()
    ensures { (log : Log) → IsLawful log → (A B : ℕ → Bool) → IsClosed log A → IsClosed log B → ((r : ℕ) → index_of (applied log A r) ≡ index_of (applied log B r)) → (p : ℕ) → A p ≡ B p }
{}

/// As more entries are applied a region stays born, its index doesn't fall, and where it is gone it
/// stays so with its index; its next entry doesn't come earlier, and it stays settled.
pub fn applied_sets_grow()
    ensures { (log : Log) → IsLawful log → (B A : ℕ → Bool) → IsInside B A → (r : ℕ) → HasGrown log B A r }
{}
