// What a range clears.
ghost use Rattle.std.specs.Prelude.{◌≡◌, ℕ, ℤ, List, IfOk, filter, not};
ghost use Rattle.flash_types.specs.Ranges.{holds};
ghost use Rattle.committed_log.specs.declared.store.Commit.{Commit as Committed};
ghost use Rattle.committed_log.specs.declared.store.Lock.{Lock as Locked};

use column_block::Memory;
use committed_log::{Commit, Lock};
use flash_types::HandleRange;
use log_codec::OpBytes;
use std::alloc::Global;

/// The values of handles outside of a range.
pub fn values_outside(
    alloc: Global,
    range: HandleRange,
    values: Vec<((i64, u64), OpBytes)>,
) -> Result<Vec<((i64, u64), OpBytes)>, Memory>
    ensures { IfOk result (λ kept. kept.items ≡ filter (λ (e : (ℤ × ℕ) × List ℕ). not (holds range e.0.0)) values.items) }
{
    let mut kept = Vec::new(alloc);
    for entry in values {
        if !range.holds(entry.0.0) && kept.push(entry).is_err() {
            return Err(Memory);
        }
    }
    Ok(kept)
}

/// The locks of handles outside of a range.
pub fn locks_outside(
    alloc: Global,
    range: HandleRange,
    locks: Vec<(i64, Lock)>,
) -> Result<Vec<(i64, Lock)>, Memory>
    ensures { IfOk result (λ kept. kept.items ≡ filter (λ (e : ℤ × Locked). not (holds range e.0)) locks.items) }
{
    let mut kept = Vec::new(alloc);
    for entry in locks {
        if !range.holds(entry.0) && kept.push(entry).is_err() {
            return Err(Memory);
        }
    }
    Ok(kept)
}

/// The commits on handles outside of a range.
pub fn commits_outside(
    alloc: Global,
    range: HandleRange,
    commits: Vec<Commit>,
) -> Result<Vec<Commit>, Memory>
    ensures { IfOk result (λ kept. kept.items ≡ filter (λ (c : Committed). not (holds range c.handle)) commits.items) }
{
    let mut kept = Vec::new(alloc);
    for commit in commits {
        if !range.holds(commit.handle) && kept.push(commit).is_err() {
            return Err(Memory);
        }
    }
    Ok(kept)
}
