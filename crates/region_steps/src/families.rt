// The entries that change families.
ghost use Rattle.std.specs.Prelude.{◌≡◌, ℕ, ℤ, List, Option, Some, slice_get};
ghost use Rattle.log_codec.specs.declared.entry.Entry.{Entry};
ghost use Rattle.log_codec.specs.declared.entry.Op.{Op};
ghost use Rattle.log_codec.specs.declared.entry.Body.TheVariants as body;
ghost use Rattle.committed_log.specs.Lawful.{IsLawful};
ghost use Rattle.committed_log.specs.Log.{Log};
ghost use Rattle.raft_apply.specs.Entries.{changes};
ghost use Rattle.region_state.specs.State.{State, born};
ghost use Rattle.region_steps.specs.Steps.{has, IsFold};

/// An entry of ops does to its region what a fold of its changes does, and adds the versions that
/// these commit.
pub fn writes_are_folded()
    ensures { (log : Log) → IsLawful log → (p : ℕ) (e : Entry) (ops : List Op) (s : State)
        → slice_get log.entries p ≡ Some e → e.body ≡ body.Write ops → has log p e.region ≡ Some s
        → IsFold log p e s (changes log p ops) }
{}

/// An entry that installs a snapshot makes its region of its changes, which are folded into a region
/// without rows.
pub fn installs_are_folded()
    ensures { (log : Log) → IsLawful log
        → (p : ℕ) (e : Entry) (conf_ver version : ℕ) (low : ℤ) (high : Option ℤ) (ops : List Op)
        → slice_get log.entries p ≡ Some e → e.body ≡ body.Install conf_ver version low high ops
        → IsFold log p e (born (record { low = low; high = high }) (record { conf_ver = conf_ver; version = version }) e.index) (changes log p ops) }
{}
