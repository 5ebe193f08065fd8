// What holds of replies that are right for a set between two.
ghost use Rattle.std.specs.Prelude.{ℕ, Bool, Option, ◌≤◌, length};
ghost use Rattle.column_block.specs.declared.column.Bound.{Bound};
ghost use Rattle.flash_types.specs.Asks.{Asked};
ghost use Rattle.committed_log.specs.Lawful.{IsLawful};
ghost use Rattle.committed_log.specs.Laws.{IsInside};
ghost use Rattle.committed_log.specs.Log.{Log};
ghost use Rattle.committed_log.specs.Replies.{Reply};
ghost use Rattle.log_laws.specs.Between.{IsRightBetween};
ghost use Rattle.log_laws.specs.Longer.{GoesOn};

/// A reply that is right by one set between two stays so for a smaller lower set and a larger upper
/// one, and in a longer log, where the mark isn't past the end of the shorter one.
pub fn replies_stay_right_between()
    ensures wider { (log : Log) (ask : Asked) (bound : Option Bound) (lower upper less more : ℕ → Bool) (safe mark : ℕ) (reply : Reply) → IsInside less lower → IsInside upper more → IsRightBetween log ask bound lower upper safe mark reply → IsRightBetween log ask bound less more safe mark reply }
    ensures longer { (short long : Log) → GoesOn short long → IsLawful short → (ask : Asked) (bound : Option Bound) (lower upper : ℕ → Bool) (safe mark : ℕ) (reply : Reply) → mark ≤ length short.entries → IsRightBetween short ask bound lower upper safe mark reply → IsRightBetween long ask bound lower upper safe mark reply }
{}
