// The laws.
ghost use Rattle.std.specs.Prelude.{◌≡◌, ◌<◌, ◌≤◌, ℕ, Bool, List, length};
ghost use Rattle.committed_log.specs.Lawful.{IsLawful};
ghost use Rattle.replica_state.specs.Applying.{HasApplied};
ghost use Rattle.replica_state.specs.Core.{Core, IsCore, full};
ghost use Rattle.segment_list.specs.Slots.{Slotted};
ghost use Rattle.replica_state.specs.Changes.{AllNamed, checkpointed, with_flushes, with_safe_point};
ghost use Rattle.segment_flush.specs.Flushing.{after_slots, has_more};
ghost use Rattle.good_state.specs.Follows.{StateFollows};
ghost use Rattle.good_state.specs.Good.{IsGoodState, committed_set, segments_at};

/// A state follows itself, and following carries over two steps.
pub fn states_follow<G>()
    ensures itself { (s : Core G) → StateFollows s s }
    ensures on { (x y z : Core G) → StateFollows x y → StateFollows y z → StateFollows x z }
{}

/// An entry that is applied.
pub fn applies_keep_good<G>()
    ensures follows { (old new : Core G) (p : ℕ) → IsCore old → IsLawful old.log → HasApplied old p new → StateFollows new old }
    ensures good { (bytes : G → List ℕ) (old new : Core G) (p : ℕ) → IsCore old → IsLawful old.log → HasApplied old p new → IsGoodState bytes old → IsGoodState bytes new }
    ensures committed { (old new : Core G) (p : ℕ) → IsCore old → IsLawful old.log → HasApplied old p new → committed_set new ≡ committed_set old }
    ensures named { (bytes : G → List ℕ) (old new : Core G) (p : ℕ) → IsCore old → IsLawful old.log → HasApplied old p new → segments_at bytes old.committed new ≡ segments_at bytes old.committed old }
{}

/// A higher safe point.
pub fn safe_points_keep_good<G>()
    ensures follows { (s : Core G) (ts : ℕ) → s.numbers.safe_point ≤ ts → StateFollows (with_safe_point ts s) s }
    ensures good { (bytes : G → List ℕ) (s : Core G) (ts : ℕ) → s.numbers.safe_point ≤ ts → IsGoodState bytes s → IsGoodState bytes (with_safe_point ts s) }
{}

/// Slots that are flushed, where High becomes a number that no applied entry's is above, nor the old
/// High, nor that is past the log.
pub fn flushes_keep_good<G>()
    ensures follows { (s : Core G) (p : Slotted G → Bool) (high : ℕ) → IsCore s → s.numbers.high ≤ high → StateFollows (with_flushes p high s) s }
    ensures good { (bytes : G → List ℕ) (s : Core G) (p : Slotted G → Bool) (high : ℕ)
        → IsCore s → IsLawful s.log
        → s.highest ≤ high → s.numbers.high ≤ high → high ≤ length s.log.entries
        → IsGoodState bytes s
        → IsGoodState bytes (with_flushes p high s) }
{}

/// A checkpoint, where High is past all that is applied: all that is applied is committed, and what is
/// named is the same at each count.
pub fn checkpoints_keep_good<G>()
    ensures follows { (s : Core G) (next high generation : ℕ) → IsCore s
        → after_slots has_more s.numbers.next s.slots < next → s.numbers.high ≤ high → s.numbers.generation ≤ generation
        → StateFollows (checkpointed next high generation s) s }
    ensures good { (bytes : G → List ℕ) (s : Core G) (next high generation : ℕ)
        → IsCore s → IsLawful s.log
        → s.highest ≤ high → s.numbers.high ≤ high → high ≤ length s.log.entries
        → IsGoodState bytes s
        → IsGoodState bytes (checkpointed next high generation s) }
    ensures committed { (s : Core G) (next high generation : ℕ) → IsCore s → committed_set (checkpointed next high generation s) ≡ full s }
    ensures named { (bytes : G → List ℕ) (s : Core G) → AllNamed s.slots → (j k : ℕ) → segments_at bytes j s ≡ segments_at bytes k s }
{}
