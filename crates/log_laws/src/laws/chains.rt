// What holds of the digests along a log.
ghost use Rattle.std.specs.Prelude.{◌≡◌, ◌≤◌, ◌-◌, ℕ, length, take, drop, fold};
ghost use Rattle.committed_log.specs.Digest.{extended_by};
ghost use Rattle.committed_log.specs.Log.{Log};
ghost use Rattle.log_laws.specs.Chains.{chain_at};
ghost use Rattle.log_laws.specs.Longer.{GoesOn};

/// The digest of the first `n` entries is that of the first `m`, extended by those between them.
#[tactic(auto, using(crate::proofs::Digests::chain_extended))]
pub fn chains_are_extended()
    ensures { (log : Log) (m n : ℕ) → m ≤ n → fold extended_by (chain_at log m) (take (n - m) (drop m log.entries)) ≡ chain_at log n }
{}

/// A longer log has the digests of the log.
pub fn chains_go_on()
    ensures { (short long : Log) → GoesOn short long → (n : ℕ) → n ≤ length short.entries → chain_at long n ≡ chain_at short n }
{}
