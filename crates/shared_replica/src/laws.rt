// Laws of what a seat has seen, which callers may use. They do nothing when they run.
ghost use Rattle.std.specs.Prelude.{◌≡◌, ◌⊎◌, ◌<◌, ℕ, true};
ghost use Rattle.committed_log.specs.Lawful.{IsLawful};
ghost use Rattle.committed_log.specs.Laws.{HasGrown};
ghost use Rattle.replica.specs.Learner.{Learner};
ghost use Rattle.replica_state.specs.Core.{full};
ghost use Rattle.shared_replica.specs.Turns.{TurnFollows};

use flash_io::{Disk, Reader};

/// What stays of a replica that was seen in a turn, in each later one of the same turn: what was
/// applied stays so, no region's index falls, a region that is gone or settled stays so, and only
/// entries below the bound come.
pub fn what_was_seen_stays<D: Disk>()
    ensures regions { (bound before : ℕ) (new old : Learner D D.Reader.Grip) → IsLawful old.core.log
        → TurnFollows D.Disk D.Reader.Grip.bytes bound new before old
        → (region : ℕ) → HasGrown old.core.log (full old.core) (full new.core) region }
    ensures below { (bound before p : ℕ) (new old : Learner D D.Reader.Grip)
        → TurnFollows D.Disk D.Reader.Grip.bytes bound new before old
        → full new.core p ≡ true → (full old.core p ≡ true) ⊎ (p < bound) }
{}
