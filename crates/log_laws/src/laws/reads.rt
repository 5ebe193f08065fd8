// What holds of a read that isn't refused.
ghost use Rattle.std.specs.Prelude.{◌≡◌, ◌≤◌, ℕ, Bool, true, None, List};
ghost use Rattle.std.specs.List.{Contains};
ghost use Rattle.flash_types.specs.Asks.{Asked};
ghost use Rattle.flash_types.specs.declared.ask.AskRegion.{AskRegion};
ghost use Rattle.flash_types.specs.declared.refusal.Cut.{Cut};
ghost use Rattle.committed_log.specs.Applied.{is_settled};
ghost use Rattle.committed_log.specs.Lawful.{IsLawful};
ghost use Rattle.committed_log.specs.Log.{Log};
ghost use Rattle.committed_log.specs.ReadIndex.{IsReadAt};
ghost use Rattle.committed_log.specs.Replies.{AreCuts, refused};
ghost use Rattle.log_laws.specs.Rows.{IsSettledCut};

/// A read that isn't refused has a timestamp from the safe point on, and each region that it asks for
/// is settled for the mark and is answered: it is there, at the asked index or above, with the asked
/// epoch and with no lock in the way.
pub fn reads_are_allowed()
    ensures time { (log : Log) (A : ℕ → Bool) (ask : Asked) (safe mark : ℕ) → refused log ask A safe mark ≡ None → safe ≤ ask.ts }
    ensures settled { (log : Log) (A : ℕ → Bool) (ask : Asked) (safe mark : ℕ) → refused log ask A safe mark ≡ None → (asked : AskRegion) → Contains ask.regions asked → is_settled log A mark asked.region ≡ true }
    ensures answered { (log : Log) → IsLawful log → (A : ℕ → Bool) (ask : Asked) (safe mark : ℕ) → refused log ask A safe mark ≡ None → (asked : AskRegion) → Contains ask.regions asked → IsReadAt log A ask.ts asked }
{}

/// Each of its cuts is of a settled region as the applied entries leave it.
pub fn cuts_are_settled()
    ensures { (log : Log) (A : ℕ → Bool) (ask : Asked) (safe mark : ℕ) → refused log ask A safe mark ≡ None → (cuts : List Cut) → AreCuts log A ask.regions cuts → (cut : Cut) → Contains cuts cut → IsSettledCut log A mark cut }
{}
