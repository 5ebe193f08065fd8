// What an entry says.
use committed_log::FamilyOp;
use flash_list::Items;
use flash_types::{Epoch, Handle, HandleRange, RegionId};

/// Changes of column families, in order.
pub type FamilyOps = Items<FamilyOp>;

/// What an entry does to its region, as a command of its Raft group.
#[derive(Debug, Drop)]
pub enum Command {
    /// The region is born with these handles and no rows.
    Open {
        epoch: Epoch,
        range: HandleRange,
    },
    /// The changes are made to the families of the region's handles.
    Write {
        ops: FamilyOps,
    },
    /// The child is born with the handles from `at` up.
    Split {
        at: Handle,
        child: RegionId,
    },
    /// The region gets ready to be merged into the target.
    Prepare {
        target: RegionId,
    },
    /// The region takes the handles and the families of the source.
    Commit {
        source: RegionId,
    },
    /// The region is gone.
    Remove,
    /// The region is born with what the changes put. What there was of its handles is cleared.
    Install {
        epoch: Epoch,
        range: HandleRange,
        ops: FamilyOps,
    },
    /// Nothing but the index changes.
    Empty,
}

/// An entry of the log, with its position there. It needs no turn, and outlives the borrow of the
/// log: keys and records are read, and values share the log's bytes. Ops that change nothing are
/// left out: records that say again what their row's last commit says, keys of other tables and of
/// indexes, lock and rollback records, and deletes in the write family.
#[derive(Debug, Drop)]
pub struct Parsed {
    pub position: u64,
    pub region: RegionId,
    pub index: u64,
    pub command: Command,
}
