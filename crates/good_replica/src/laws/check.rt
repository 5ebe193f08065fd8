// Goodness, computed.
ghost use Rattle.std.specs.Prelude.{◌≡◌, ℕ, ℤ, Bool, true, List};
ghost use Rattle.committed_log.specs.Log.{Log};
ghost use Rattle.good_replica.specs.Check.{is_good, lists};
ghost use Rattle.good_replica.specs.Good.{AreGood};
ghost use Rattle.good_replica.specs.Trail.{Segment};

/// The finite check answers yes exactly where the replica is good, if the handles are listed that
/// the log and the files speak of.
pub fn check_tells_goodness()
    ensures good { (log : Log) (A : ℕ → Bool) (m safe : ℕ) (handles : List ℤ) (segments : List Segment) → lists log handles segments ≡ true → is_good log A m safe handles segments ≡ true → AreGood log A m safe segments }
    ensures all { (log : Log) (A : ℕ → Bool) (m safe : ℕ) (handles : List ℤ) (segments : List Segment) → lists log handles segments ≡ true → AreGood log A m safe segments → is_good log A m safe handles segments ≡ true }
{}
