// Why an entry is refused.
use flash_types::{Handle, RegionId, Ts};

/// The state of a region, without what it has.
#[derive(Clone, Copy, Debug, PartialEq, Eq)]
pub enum RegionState {
    Unborn,
    Live,
    Prepared,
    Gone,
}

/// Why a value can't be a row of the table.
#[derive(Clone, Copy, Debug, PartialEq, Eq)]
pub enum RowFault {
    /// It isn't row format 2, or a column of the schema has a width that its kind doesn't allow.
    Form,
    /// It has this column, which the schema lacks: the first such, non-null ids before null ones.
    UnknownColumn { id: u32 },
}

/// Why an entry can't follow a log. Ops are counted from 0.
#[derive(Clone, Copy, Debug, PartialEq, Eq)]
pub enum Unlawful {
    /// The log has 1,048,576 entries already.
    Count,
    /// This region isn't in the state that the entry needs; it is in this one.
    Region {
        region: RegionId,
        state: RegionState,
    },
    /// The index isn't the region's next one, which is this.
    Index {
        wants: u64,
    },
    /// A range is empty, or this handle has a region already; a split at this handle leaves a part
    /// empty; or the ranges of a merge don't touch, of which the source begins at this handle.
    Range {
        handle: Handle,
    },
    /// The key is no encoding, or a record key of a handle outside of the region.
    Key {
        op: u32,
    },
    /// The value is no record of its family.
    Record {
        op: u32,
    },
    /// The commit isn't later than the row's last one.
    Backdated {
        op: u32,
        last: Ts,
    },
    /// A put has no short value and none in the default family.
    NoValue {
        op: u32,
    },
    /// The value isn't row format 2, or a column's value has a wrong width.
    Row {
        op: u32,
    },
    /// The value has a column that the schema lacks.
    UnknownColumn {
        op: u32,
        id: u32,
    },
    /// Memory ran out.
    Memory,
}
