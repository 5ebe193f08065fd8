// The table of a replica's regions.
ghost use Rattle.std.specs.Prelude.{◌≡◌, [], None};
ghost use Rattle.committed_log.specs.Regions.{index_of};
ghost use Rattle.committed_log.specs.Replies.{cut_of};
ghost use Rattle.region_table.specs.Table.{empty_table, state_in, state_there};

use committed_log::Region;
use flash_types::{Cut, RegionId};
use region_file::{Entries, Entry};
use std::alloc::Global;
use std::collections::BTreeMap;
use std::marker::Model;

/// The regions that are born, by number.
pub type Regions = Entries;

/// What is counted of a log's entries.
#[derive(Clone, Copy, Debug, PartialEq, Eq)]
pub struct Counted {
    /// How many are applied.
    pub count: u64,
    /// The position of the first that isn't applied; the log's length where all are.
    pub first: u64,
}

/// Positions of entries.
pub type Positions = BTreeMap<u64, ()>;

/// The regions of a replica, as its applied entries leave them. Contracts see those that are born in
/// the order of their numbers, what is counted of the log, and the positions of the entries that come
/// next for the regions that are there, in order.
#[derive(Drop)]
pub struct RegionTable {
    pub(crate) regions: Regions,
    pub(crate) counted: Counted,
    pub(crate) nexts: Positions,
    pub(crate) alloc: Global,
}

impl Model for RegionTable {
    ghost use Rattle.region_table.specs.Table.{Table};

    ghost Value = { Table };

    ghost view = { λ t. record { regions = t.regions.entries; counted = t.counted; nexts = t.nexts.entries } };
}

// The state of a region that is there.
fn state_there(region: &region_state::Region) -> Region
    ensures { result ≡ state_there region.now }
{
    let there = region.descriptor();
    match region.target() {
        None => Region::Live(there),
        Some(target) => Region::Prepared(there, target),
    }
}

/// The state in which a table has a region.
pub fn state_of(regions: &Regions, id: RegionId) -> Region
    ensures { result ≡ state_in regions.now.entries id }
{
    match regions.get(&id) {
        None => Region::Unborn,
        Some(Entry::Gone { index }) => Region::Gone(*index),
        Some(Entry::There { region }) => state_there(region),
    }
}

/// The last index of a region that is born.
pub fn index_of(state: Region) -> Option<u64>
    ensures { result ≡ index_of state }
{
    match state {
        Region::Unborn => None,
        Region::Live(there) => Some(there.index),
        Region::Prepared(there, _) => Some(there.index),
        Region::Gone(index) => Some(index),
    }
}

fn cut_of(id: RegionId, state: Region) -> Option<Cut>
    ensures { result ≡ cut_of id state }
{
    match state {
        Region::Live(there) => Some(Cut {
            region: id,
            epoch: there.epoch,
            index: there.index,
            range: there.range,
        }),
        Region::Prepared(there, _) => Some(Cut {
            region: id,
            epoch: there.epoch,
            index: there.index,
            range: there.range,
        }),
        Region::Unborn => None,
        Region::Gone(_) => None,
    }
}

impl RegionTable {
    /// The table where no entry is applied: every region is unborn. It takes no memory.
    pub fn empty(alloc: Global) -> RegionTable
        ensures { result ≡ empty_table }
    {
        RegionTable {
            regions: BTreeMap::new(alloc),
            counted: Counted { count: 0, first: 0 },
            nexts: BTreeMap::new(alloc),
            alloc,
        }
    }

    /// The last index of a region that was applied, where it is born; it stays where the region is
    /// gone.
    pub fn applied(&self, region: RegionId) -> Option<u64>
        ensures { result ≡ index_of (state_in self.now.regions region) }
    {
        index_of(state_of(&self.regions, region))
    }

    /// What a read of a region sees: its epoch, its index and its range. None exactly where the region
    /// is neither live nor prepared.
    pub fn cut(&self, region: RegionId) -> Option<Cut>
        ensures { result ≡ cut_of region (state_in self.now.regions region) }
    {
        cut_of(region, state_of(&self.regions, region))
    }
}
