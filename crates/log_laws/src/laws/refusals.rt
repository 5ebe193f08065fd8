// What holds of a read that is refused.
ghost use Rattle.std.specs.Prelude.{◌≡◌, ◌≢◌, ℕ, Bool, Some, None};
ghost use Rattle.std.specs.List.{Contains};
ghost use Rattle.flash_types.specs.Asks.{Asked};
ghost use Rattle.flash_types.specs.declared.ask.AskRegion.{AskRegion};
ghost use Rattle.flash_types.specs.declared.refusal.Refusal.{Refusal};
ghost use Rattle.committed_log.specs.Applied.{IsClosed, applied};
ghost use Rattle.committed_log.specs.Lawful.{IsLawful};
ghost use Rattle.committed_log.specs.Log.{Log};
ghost use Rattle.committed_log.specs.declared.region.Region.TheVariants.{Gone};
ghost use Rattle.committed_log.specs.Replies.{refused};
ghost use Rattle.log_laws.specs.Refusals.{IsSo};

/// Every refusal is true, at the index that it reports: by its kind, the timestamp is below the safe
/// point; or of a region that the read asks for, it is unborn, behind the asked index, not settled for
/// the mark, at another epoch, gone, or has a lock in the way, of which the reported one stands at the
/// least handle.
pub fn refusals_are_so()
    ensures { (log : Log) → IsLawful log → (A : ℕ → Bool) → IsClosed log A → (ask : Asked) (safe mark : ℕ) (why : Refusal) → refused log ask A safe mark ≡ Some why → IsSo log ask A safe mark why }
{}

/// A read that asks for a region which is gone is refused. (That it is gone at the log's end isn't
/// enough: the entry that ends it may not be applied.)
pub fn gone_regions_are_refused()
    ensures { (log : Log) (A : ℕ → Bool) (ask : Asked) (safe mark : ℕ) (asked : AskRegion) → Contains ask.regions asked → (index : ℕ) → applied log A asked.region ≡ Gone index → refused log ask A safe mark ≢ None }
{}
