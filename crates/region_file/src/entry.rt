// What a region file has of a region.
use flash_types::RegionId;
use region_state::Region;
use std::collections::BTreeMap;

/// A region that was born: gone, with its last index, or there with its families, live or prepared
/// to be merged into a target.
#[derive(Drop)]
pub enum Entry {
    Gone { index: u64 },
    There { region: Region },
}

/// The regions that were born, by id.
pub type Entries = BTreeMap<RegionId, Entry>;
