// What a read saw of a region, and why a read is refused.
use crate::range::{Handle, HandleRange};
use crate::{Epoch, RegionId, Ts};

/// The state of a region that an answered read is of.
#[derive(Clone, Copy, Debug, PartialEq, Eq)]
pub struct Cut {
    pub region: RegionId,
    pub epoch: Epoch,
    /// The applied index.
    pub index: u64,
    pub range: HandleRange,
}

/// What a read waits for.
#[derive(Clone, Copy, Debug, PartialEq, Eq)]
pub enum Wants {
    /// The region's applied index is to be at least this one.
    Index(u64),
    /// The entry at position `next` is to be applied: entries below `mark` may already have rows
    /// in the store's files.
    Mark { next: u64, mark: u64 },
}

/// Why a read gets no rows.
#[derive(Clone, Copy, Debug, PartialEq, Eq)]
pub enum Refusal {
    /// The timestamp is below the safe point: versions that it would need may be collected.
    BelowSafePoint {
        safe_point: Ts,
    },
    /// The region isn't there yet (`applied` is none), or not as far as the read needs it.
    NotYet {
        region: RegionId,
        applied: Option<u64>,
        wants: Wants,
    },
    /// The region has another epoch, or is gone (`found` is none).
    EpochNotMatch {
        region: RegionId,
        index: u64,
        found: Option<Epoch>,
    },
    /// A lock of a running transaction, which started at `start`, stands in the way at `handle`.
    Locked {
        region: RegionId,
        index: u64,
        handle: Handle,
        start: Ts,
    },
}
