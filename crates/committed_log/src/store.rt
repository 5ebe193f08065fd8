// What the lock and the write family have.
use flash_types::{Handle, Ts};
use kv_codec::LockKind;
use log_codec::OpBytes;

/// A lock on a row by the transaction that began at `start`.
#[derive(Clone, Copy, Debug, PartialEq, Eq)]
pub struct Lock {
    pub kind: LockKind,
    pub start: Ts,
}

/// A committed put of a row, or with no value a delete: its timestamp, that of its transaction's
/// start, and the position of the entry that has it.
#[derive(Debug, Drop)]
pub struct Commit {
    pub handle: Handle,
    pub ts: Ts,
    pub start: Ts,
    pub value: Option<OpBytes>,
    pub position: u64,
}
