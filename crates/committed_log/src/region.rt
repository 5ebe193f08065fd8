// What a region is at one moment.
use flash_types::{Epoch, HandleRange, RegionId};

/// A region that is there: the handles that it has, its epoch and its last index.
#[derive(Clone, Copy, Debug, PartialEq, Eq)]
pub struct Descriptor {
    pub range: HandleRange,
    pub epoch: Epoch,
    pub index: u64,
}

/// A region isn't born yet, is live, is prepared to be merged into a target, or is gone, with its
/// last index. A region that is gone never comes back.
#[derive(Clone, Copy, Debug, PartialEq, Eq)]
pub enum Region {
    Unborn,
    Live(Descriptor),
    Prepared(Descriptor, RegionId),
    Gone(u64),
}
