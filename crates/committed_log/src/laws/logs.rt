// What holds of the positions of a log.
ghost use Rattle.std.specs.Prelude.{◌≡◌, ◌≤◌, ◌+◌, ◌^◌, ℕ, suc, ℤ, Bool, false, List, Some, length};
ghost use Rattle.std.specs.Ordering.{int_eq};
ghost use Rattle.flash_types.specs.declared.range.HandleRange.{HandleRange};
ghost use Rattle.log_codec.specs.declared.entry.Entry.{Entry};
ghost use Rattle.committed_log.specs.Applied.{acts_at, left_at, place, state, IsClosed, applied};
ghost use Rattle.committed_log.specs.Lawful.{IsLawful};
ghost use Rattle.committed_log.specs.Laws.{IsSorted, longer, region_at, AreDisjoint, AreSameOn, AreSameWithin, touches, AreBelow, IsLastActing};
ghost use Rattle.committed_log.specs.Log.{Log, at};
ghost use Rattle.committed_log.specs.Regions.{range_of, index_of};

/// At every position the store has its regions, values and locks in the order of their keys.
pub fn maps_are_sorted()
    ensures { (log : Log) (p : ℕ) → IsSorted (at log p) }
{}

/// A longer log has the same store at each position of the log, the same places and states of the
/// indexes that the log gives, the same regions at each set of its positions, and its closed sets.
pub fn longer_logs_agree()
    ensures stores { (log : Log) (more : List Entry) (p : ℕ) → p ≤ length log.entries → at (longer log more) p ≡ at log p }
    ensures places { (log : Log) (more : List Entry) (r i p : ℕ) → place log r i ≡ Some p → place (longer log more) r i ≡ Some p }
    ensures states { (log : Log) (more : List Entry) (r i p : ℕ) → place log r i ≡ Some p → state (longer log more) r i ≡ state log r i }
    ensures sets { (log : Log) (more : List Entry) (A : ℕ → Bool) → IsClosed log A → (r : ℕ) → applied (longer log more) A r ≡ applied log A r }
    ensures closed { (log : Log) (more : List Entry) (A : ℕ → Bool) → IsClosed log A → IsClosed (longer log more) A }
    ensures lawful { (log : Log) (more : List Entry) → IsLawful (longer log more) → IsLawful log }
{}

/// An entry that doesn't act on a region leaves its state; and where the region has handles and the
/// log is lawful, the values, locks and commits on these. One that doesn't touch a handle leaves
/// the values, locks and commits on it.
pub fn entries_are_local()
    ensures state { (log : Log) (r p : ℕ) → acts_at log r p ≡ false → left_at log r p ≡ region_at log r p }
    ensures families { (log : Log) → IsLawful log → (r p : ℕ) (range : HandleRange) → range_of (region_at log r p) ≡ Some range → acts_at log r p ≡ false → AreSameWithin range (at log p) (at log (suc p)) }
    ensures handle { (log : Log) → IsLawful log → (h : ℤ) (p : ℕ) → touches log h p ≡ false → AreSameOn (λ k. int_eq k h) (at log p) (at log (suc p)) }
{}

/// In a lawful log no handle lies in two regions at once.
pub fn handles_have_one_owner()
    ensures { (log : Log) → IsLawful log → (p : ℕ) → AreDisjoint (at log p).regions }
{}

/// In a lawful log the last entry that acted on a region gave it its index and left it as it is,
/// while it has handles. (A region that was taken into another keeps the index of its prepare.)
pub fn places_are_last()
    ensures { (log : Log) → IsLawful log → (r p i : ℕ) (range : HandleRange) → range_of (region_at log r p) ≡ Some range → index_of (region_at log r p) ≡ Some i → IsLastActing log r p i }
{}

/// In a lawful log a region's index is below 2^63, and the numbers of its epoch are below 2^62 and
/// as many more as there were entries.
pub fn numbers_stay_in_range()
    ensures { (log : Log) → IsLawful log → (p r : ℕ) → AreBelow (2 ^ 63) (2 ^ 62 + p) (region_at log r p) }
{}
