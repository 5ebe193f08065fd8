// What a store shows to a read, and what is in the read's way.
ghost use Rattle.std.specs.Prelude.{◌≡◌, option_map};
ghost use Rattle.committed_log.specs.Reads.{shown};
ghost use Rattle.committed_log.specs.Replies.{may_commit, blocks, first_lock};

use crate::store::newest;
use committed_log::{Commit, Lock};
use flash_types::HandleRange;
use kv_codec::LockKind;

/// The value that a read at a timestamp is shown of a handle.
pub fn shown(commits: &[Commit], ts: u64, handle: i64) -> Option<&[u8]>
    ensures { option_map (λ value. value.now) result ≡ shown commits.now ts handle }
{
    match newest(commits, Some(ts), handle) {
        None => None,
        Some(commit) => match &commit.value {
            None => None,
            Some(value) => Some(value.as_slice()),
        },
    }
}

fn may_commit(kind: LockKind) -> bool
    ensures { result ≡ may_commit kind }
{
    match kind {
        LockKind::Put => true,
        LockKind::Delete => true,
        LockKind::Lock => false,
        LockKind::Pessimistic => false,
    }
}

/// The lock at the least handle of a range that is in the way of a read.
pub fn first_lock(locks: &[(i64, Lock)], range: HandleRange, ts: u64) -> Option<(i64, Lock)>
    ensures { result ≡ first_lock locks.now range ts }
{
    for lock in locks {
        if range.holds(lock.0) && may_commit(lock.1.kind) && lock.1.start <= ts {
            return Some(*lock);
        }
    }
    None
}
