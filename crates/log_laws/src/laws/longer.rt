// What a longer log says as the log does, of entries that are applied in the log.
ghost use Rattle.std.specs.Prelude.{◌≡◌, ◌≤◌, ℕ, Bool, List, Option, length};
ghost use Rattle.column_block.specs.declared.column.Bound.{Bound};
ghost use Rattle.flash_types.specs.Asks.{Asked};
ghost use Rattle.flash_types.specs.declared.ask.AskRegion.{AskRegion};
ghost use Rattle.flash_types.specs.declared.range.HandleRange.{HandleRange};
ghost use Rattle.flash_types.specs.declared.refusal.Cut.{Cut};
ghost use Rattle.committed_log.specs.Applied.{IsClosed, applied};
ghost use Rattle.committed_log.specs.Lawful.{IsLawful};
ghost use Rattle.committed_log.specs.Log.{Log};
ghost use Rattle.committed_log.specs.Reads.{rows};
ghost use Rattle.committed_log.specs.Replies.{AreCuts, IsRight, Reply, refused};
ghost use Rattle.log_laws.specs.Longer.{GoesOn};

/// A set that is closed in the log is closed in the longer one, and leaves each region the same.
pub fn longer_logs_have_the_regions()
    ensures lawful { (short long : Log) → GoesOn short long → IsLawful long → IsLawful short }
    ensures closed { (short long : Log) → GoesOn short long → (A : ℕ → Bool) → IsClosed short A → IsClosed long A }
    ensures regions { (short long : Log) → GoesOn short long → (A : ℕ → Bool) → IsClosed short A → (r : ℕ) → applied long A r ≡ applied short A r }
{}

/// A read of cuts that the log gives has the same rows.
pub fn longer_logs_give_the_same_rows()
    ensures { (short long : Log) → GoesOn short long → IsLawful short → (A : ℕ → Bool) (regions : List AskRegion) (cuts : List Cut) → AreCuts short A regions cuts → (ts : ℕ) (clip : HandleRange) → rows long cuts ts clip ≡ rows short cuts ts clip }
{}

/// A read is refused in the same way, where the mark isn't past the end of the shorter log; and a reply
/// that is right stays right.
#[tactic(auto, using(crate::proofs::Onward::refused_on))]
pub fn longer_logs_answer_the_same()
    ensures refusal { (short long : Log) → GoesOn short long → IsLawful short → (A : ℕ → Bool) → IsClosed short A → (ask : Asked) (safe mark : ℕ) → mark ≤ length short.entries → refused long ask A safe mark ≡ refused short ask A safe mark }
    ensures reply { (short long : Log) → GoesOn short long → IsLawful short → (A : ℕ → Bool) → IsClosed short A → (ask : Asked) (bound : Option Bound) (safe mark : ℕ) (reply : Reply) → mark ≤ length short.entries → IsRight short ask bound A safe mark reply → IsRight long ask bound A safe mark reply }
{}
