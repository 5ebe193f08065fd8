// The entries that change regions.
ghost use Rattle.std.specs.Prelude.{◌≡◌, ℕ, suc, ℤ, false, [], List, Option, Some, None, slice_get};
ghost use Rattle.log_codec.specs.declared.entry.Entry.{Entry};
ghost use Rattle.log_codec.specs.declared.entry.Body.TheVariants as body;
ghost use Rattle.committed_log.specs.Applied.{acts_at};
ghost use Rattle.committed_log.specs.Lawful.{IsLawful};
ghost use Rattle.committed_log.specs.Log.{Log, at};
ghost use Rattle.committed_log.specs.Regions.{region};
ghost use Rattle.committed_log.specs.declared.region.Region.TheVariants.{Gone};
ghost use Rattle.good_replica.specs.Effect.{added};
ghost use Rattle.region_state.specs.Folding.{folded};
ghost use Rattle.region_state.specs.State.{State, born, prepared, lower_of, upper_of, absorbed};
ghost use Rattle.region_steps.specs.Steps.{has, HasNoOps};

/// An entry that opens a region makes one without rows.
pub fn opens_are_born()
    ensures { (log : Log) → IsLawful log
        → (p : ℕ) (e : Entry) (conf_ver version : ℕ) (low : ℤ) (high : Option ℤ)
        → slice_get log.entries p ≡ Some e → e.body ≡ body.Open conf_ver version low high
        → has log (suc p) e.region ≡ Some (born (record { low = low; high = high }) (record { conf_ver = conf_ver; version = version }) e.index) }
{}

/// An entry that splits a region leaves the lower part to it, and makes the upper part of its child.
pub fn splits_part()
    ensures lower { (log : Log) → IsLawful log
        → (p : ℕ) (e : Entry) (at : ℤ) (child : ℕ) (s : State) → slice_get log.entries p ≡ Some e
        → e.body ≡ body.Split at child → has log p e.region ≡ Some s
        → has log (suc p) e.region ≡ Some (lower_of s at e.index) }
    ensures upper { (log : Log) → IsLawful log
        → (p : ℕ) (e : Entry) (at : ℤ) (child : ℕ) (s : State) → slice_get log.entries p ≡ Some e
        → e.body ≡ body.Split at child → has log p e.region ≡ Some s
        → has log (suc p) child ≡ Some (upper_of s at) }
{}

/// An entry that prepares a region does to it what the call does.
pub fn prepares_prepare()
    ensures { (log : Log) → IsLawful log → (p : ℕ) (e : Entry) (target : ℕ) (s : State)
        → slice_get log.entries p ≡ Some e → e.body ≡ body.Prepare target
        → has log p e.region ≡ Some s
        → has log (suc p) e.region ≡ Some (prepared s target e.index) }
{}

/// An entry that commits a merge makes of its region and the source what the call makes of them, and
/// the source is gone with the index that its prepare gave it.
pub fn commits_join()
    ensures target { (log : Log) → IsLawful log → (p : ℕ) (e : Entry) (source : ℕ) (s other : State)
        → slice_get log.entries p ≡ Some e → e.body ≡ body.Commit source
        → has log p e.region ≡ Some s → has log p source ≡ Some other
        → has log (suc p) e.region ≡ Some (absorbed s other e.index) }
    ensures source { (log : Log) → IsLawful log → (p : ℕ) (e : Entry) (source : ℕ) (other : State)
        → slice_get log.entries p ≡ Some e → e.body ≡ body.Commit source
        → has log p source ≡ Some other
        → region (at log (suc p)).regions source ≡ Gone other.descriptor.index }
{}

/// An entry that removes a region leaves nothing of it.
pub fn removes_remove()
    ensures { (log : Log) → IsLawful log → (p : ℕ) (e : Entry) → slice_get log.entries p ≡ Some e
        → e.body ≡ body.Remove → has log (suc p) e.region ≡ None }
{}

/// An empty entry folds no change.
pub fn empties_fold_nothing()
    ensures { (log : Log) → IsLawful log → (p : ℕ) (e : Entry) (s : State)
        → slice_get log.entries p ≡ Some e → e.body ≡ body.Empty → has log p e.region ≡ Some s
        → has log (suc p) e.region ≡ Some (folded s e.index []) }
{}

/// A region that an entry doesn't act on stays.
pub fn others_stay()
    ensures { (log : Log) → IsLawful log → (p r : ℕ) → acts_at log r p ≡ false
        → has log (suc p) r ≡ has log p r }
{}

/// An entry without ops adds no versions.
pub fn only_ops_add()
    ensures { (log : Log) (p : ℕ) (e : Entry) → slice_get log.entries p ≡ Some e → HasNoOps e.body
        → added log p ≡ [] }
{}
