// What an op does to the column families.
use flash_types::{Handle, Ts};
use kv_codec::LockKind;
use log_codec::OpBytes;

/// A change of one of TiKV's column families.
#[derive(Debug, Drop)]
pub enum FamilyOp {
    /// A value too long for its write record is put into the default family.
    Value {
        handle: Handle,
        start: Ts,
        bytes: OpBytes,
    },
    /// Such a value is taken out.
    DropValue {
        handle: Handle,
        start: Ts,
    },
    /// A transaction that began at `start` locks a row.
    Lock {
        handle: Handle,
        kind: LockKind,
        start: Ts,
    },
    /// A row's lock is taken out.
    Unlock {
        handle: Handle,
    },
    /// A transaction that began at `start` commits a put or a delete of a row. A put has a short
    /// value, or else its value stands in the default family.
    Write {
        handle: Handle,
        ts: Ts,
        start: Ts,
        gone: bool,
        short: Option<OpBytes>,
    },
}

/// A row's last commit, without its value: `gone` says that it is a delete.
#[derive(Clone, Copy, Debug, PartialEq, Eq)]
pub struct LastCommit {
    pub ts: Ts,
    pub start: Ts,
    pub gone: bool,
}

/// How an op is at fault: by its key, or by its record.
#[derive(Clone, Copy, Debug, PartialEq, Eq)]
pub enum OpFault {
    BadKey,
    BadRecord,
}
