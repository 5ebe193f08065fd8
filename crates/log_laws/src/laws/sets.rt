// What holds of the regions at a set of applied entries.
ghost use Rattle.std.specs.Prelude.{◌≡◌, ◌≢◌, ◌≤◌, ℕ, ℤ, Bool, true, false, List, Some, length, nat_lt};
ghost use Rattle.std.specs.List.{AllPairs, Contains};
ghost use Rattle.flash_types.specs.Asks.{AreDistinct};
ghost use Rattle.flash_types.specs.Ranges.{holds};
ghost use Rattle.flash_types.specs.declared.ask.AskRegion.{AskRegion};
ghost use Rattle.flash_types.specs.declared.range.HandleRange.{HandleRange};
ghost use Rattle.flash_types.specs.declared.refusal.Cut.{Cut};
ghost use Rattle.committed_log.specs.Applied.{IsClosed, applied};
ghost use Rattle.committed_log.specs.Lawful.{IsLawful};
ghost use Rattle.committed_log.specs.Laws.{owned, region_at};
ghost use Rattle.committed_log.specs.Log.{Log};
ghost use Rattle.committed_log.specs.Regions.{range_of};
ghost use Rattle.committed_log.specs.declared.region.Region.TheVariants.{Unborn, Gone};
ghost use Rattle.committed_log.specs.Replies.{AreCuts};
ghost use Rattle.log_laws.specs.Sets.{makes_at, ends_at};

/// Where the first `n` entries are applied, each region is as the log has it after them.
pub fn prefixes_have_the_regions()
    ensures { (log : Log) → IsLawful log → (n r : ℕ) → applied log (λ p. nat_lt p n) r ≡ region_at log r n }
{}

/// At a closed set no handle lies in two regions, in the ranges of two regions, or in two cuts of a
/// read, whose regions differ.
pub fn regions_are_apart()
    ensures one { (log : Log) → IsLawful log → (A : ℕ → Bool) → IsClosed log A → (h : ℤ) (q r : ℕ) → owned (applied log A q) h ≡ true → owned (applied log A r) h ≡ true → q ≡ r }
    ensures ranges { (log : Log) → IsLawful log → (A : ℕ → Bool) → IsClosed log A → (q r : ℕ) → q ≢ r → (a b : HandleRange) → range_of (applied log A q) ≡ Some a → range_of (applied log A r) ≡ Some b → (h : ℤ) → holds a h ≡ true → holds b h ≡ false }
    ensures cuts { (log : Log) → IsLawful log → (A : ℕ → Bool) → IsClosed log A → (regions : List AskRegion) → AreDistinct regions → (cuts : List Cut) → AreCuts log A regions cuts → AllPairs (λ (a b : Cut). (h : ℤ) → holds a.range h ≡ true → holds b.range h ≡ false) cuts }
{}

/// A region is unborn exactly where no applied entry made it: neither an Open or an Install of it, nor
/// the split of which it is the child.
pub fn made_regions_are_born()
    ensures unborn { (log : Log) → IsLawful log → (A : ℕ → Bool) → IsClosed log A → (r : ℕ) → ((p : ℕ) → A p ≡ true → makes_at log r p ≡ false) → applied log A r ≡ Unborn }
    ensures unmade { (log : Log) → IsLawful log → (A : ℕ → Bool) (r : ℕ) → applied log A r ≡ Unborn → (p : ℕ) → A p ≡ true → makes_at log r p ≡ false }
{}

/// A region is gone exactly where an applied entry ended it: its Remove, or the commit of a merge of
/// which it is the source.
pub fn ended_regions_are_gone()
    ensures gone { (log : Log) → IsLawful log → (A : ℕ → Bool) (r p : ℕ) → A p ≡ true → ends_at log r p ≡ true → (index : ℕ) × (applied log A r ≡ Gone index) }
    ensures ended { (log : Log) → IsLawful log → (A : ℕ → Bool) (r index : ℕ) → applied log A r ≡ Gone index → (p : ℕ) × (A p ≡ true) × (ends_at log r p ≡ true) }
{}
