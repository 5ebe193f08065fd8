// The regions that are there, one after the other.
ghost use Rattle.std.specs.Prelude.{◌≡◌, filter};
ghost use Rattle.std.specs.List.Sorted.{IsStrictlySortedBy};
ghost use Rattle.std.specs.Map.{keys_of};
ghost use Rattle.std.specs.Ordering.{nat_cmp};
ghost use Rattle.region_table.specs.Live.{is_above, asked_kept, first_asked, next_there, IsLeastThere};

use crate::table::{RegionTable, Regions};
use flash_types::{AskRegion, RegionId};
use region_file::Entry;
use std::collections::btree_map::Range;
use std::ops::Bound;

// The regions above one, or all.
fn above(regions: &Regions, after: Option<RegionId>) -> Range<'_, RegionId, Entry>
    ensures { result ≡ filter (λ e. is_above after e.0) regions.now.entries }
{
    match after {
        None => regions.range(0..),
        Some(id) => regions.range((Bound::Excluded(id), Bound::<RegionId>::Unbounded)),
    }
}

// What an ask says of a region that is there.
fn asked(id: RegionId, kept: &Entry) -> Option<AskRegion>
    ensures { result ≡ asked_kept (id, kept.now) }
{
    match kept {
        Entry::Gone { .. } => None,
        Entry::There { region } => Some(AskRegion {
            region: id,
            epoch: region.epoch(),
            index: region.index(),
        }),
    }
}

fn first_above(regions: &Regions, after: Option<RegionId>) -> Option<AskRegion>
    ensures { result ≡ next_there regions.now.entries after }
{
    for (id, kept) in above(regions, after) {
        if let Some(found) = asked(*id, kept) {
            return Some(found);
        }
    }
    None
}

impl RegionTable {
    /// The live or prepared region with the least number above that of `region`, or of all for none,
    /// with its epoch and its index. None exactly where there is none.
    pub fn live_after(&self, region: Option<RegionId>) -> Option<AskRegion>
        ensures ordered { IsStrictlySortedBy nat_cmp (keys_of self.now.regions) }
        ensures first { result ≡ next_there self.now.regions region }
        ensures least { IsLeastThere self.now.regions region result }
    {
        // Give the proof that the regions are in order.
        let _regions = self.regions.len();
        first_above(&self.regions, region)
    }
}
