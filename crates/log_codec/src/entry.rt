use flash_list::{Items, SharedBytes};

/// The bytes of an op's key or value. They are shared with the other ops of the frame.
pub type OpBytes = SharedBytes;

/// The ops of an entry, in order.
pub type Ops = Items<Op>;

/// A column family of TiKV: values too long to stand in their write record, locks, and write
/// records.
#[derive(Clone, Copy, Debug, PartialEq, Eq)]
pub enum Family {
    Default,
    Lock,
    Write,
}

/// A put, or a delete, which has no value.
#[derive(Debug, Drop)]
pub struct Op {
    pub put: bool,
    pub family: Family,
    pub key: OpBytes,
    pub value: OpBytes,
}

/// What an entry does.
#[derive(Debug, Drop)]
pub enum Body {
    /// The region is born with the handles from `low` up to and without `high`, and no rows.
    Open {
        conf_ver: u64,
        version: u64,
        low: i64,
        high: Option<i64>,
    },
    /// The ops change the region's families, in order.
    Write {
        ops: Ops,
    },
    /// The child is born with the handles from `at` up.
    Split {
        at: i64,
        child: u32,
    },
    /// The region gets ready to be merged into the target.
    Prepare {
        target: u32,
    },
    /// The region takes the handles and families of the source.
    Commit {
        source: u32,
    },
    /// The region is gone.
    Remove,
    /// The region is born with what the ops put.
    Install {
        conf_ver: u64,
        version: u64,
        low: i64,
        high: Option<i64>,
        ops: Ops,
    },
    /// Nothing but the index changes.
    Empty,
}

/// An entry of a region's log.
#[derive(Debug, Drop)]
pub struct Entry {
    pub region: u32,
    pub index: u64,
    pub body: Body,
}

/// An entry, and the place behind its frame.
#[derive(Debug, Drop)]
pub struct Frame {
    pub entry: Entry,
    pub end: usize,
}
