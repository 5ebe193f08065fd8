// Locks that are in the way of a read.
ghost use Rattle.std.specs.Prelude.{◌≡◌, option_map, filter};
ghost use Rattle.flash_types.specs.Ranges.{holds};
ghost use Rattle.committed_log.specs.Replies.{first_lock, may_commit};
ghost use Rattle.region_state.specs.Blocking.{blocks_at};

use crate::region::Locks;
use committed_log::Lock;
use flash_types::{Handle, HandleRange, Ts};
use kv_codec::LockKind;
use std::collections::btree_map::Range;
use std::ops::Bound;

fn may_commit(kind: LockKind) -> bool
    ensures { result ≡ may_commit kind }
{
    match kind {
        LockKind::Put => true,
        LockKind::Delete => true,
        LockKind::Lock => false,
        LockKind::Pessimistic => false,
    }
}

// A lock of a transaction that may commit at or below the timestamp.
fn blocks(lock: Lock, ts: Ts) -> bool
    ensures { result ≡ blocks_at ts lock }
{
    may_commit(lock.kind) && lock.start <= ts
}

// The locks of a range, by handle.
fn locks_in(locks: &Locks, range: HandleRange) -> Range<'_, Handle, Lock>
    ensures { result ≡ filter (λ l. holds range l.0) locks.now.entries }
{
    match range.high {
        None => locks.range(range.low..),
        Some(high) => locks.range(range.low..high.max(range.low)),
    }
}

/// The lock at the least handle of a range that is in the way of a read at a timestamp, with the
/// start of its transaction.
pub fn first_lock(locks: &Locks, range: HandleRange, ts: Ts) -> Option<(Handle, Ts)>
    ensures { result ≡ option_map (λ l. (l.0, l.1.start)) (first_lock locks.now.entries range ts) }
{
    for (handle, lock) in locks_in(locks, range) {
        if blocks(*lock, ts) {
            return Some((*handle, lock.start));
        }
    }
    None
}
