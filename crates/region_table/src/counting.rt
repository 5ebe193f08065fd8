// Which entries are applied, and how many.
ghost use Rattle.std.specs.Prelude.{◌≡◌, ◌<◌, ℕ, Bool, length};
ghost use Rattle.region_table.specs.Counting.{has_reached, applied_in};
ghost use Rattle.region_table.specs.Table.{AtItsSet, size_of};

use crate::table::{RegionTable, Regions, index_of, state_of};
use committed_log::Logs;

/// Whether a region with this last index has come to an index.
pub fn has_reached(last: Option<u64>, index: u64) -> bool
    ensures { result ≡ has_reached last index }
{
    match last {
        None => false,
        Some(last) => index <= last,
    }
}

/// Whether the entry at a position is applied: its region has come to its index.
pub fn is_applied(logs: &Logs, regions: &Regions, position: u64) -> bool
    requires { position < length logs.now.entries }
    ensures { result ≡ applied_in logs.now regions.now.entries position }
{
    let entry = logs.entry(position);
    has_reached(index_of(state_of(regions, entry.region)), entry.index)
}

impl RegionTable {
    /// How many entries of the log are applied. It takes constant time.
    pub fn count(&self, logs: &Logs) -> u64
        ensures { AtItsSet logs.now self.now (λ A. result ≡ size_of logs.now A) }
    {
        let _len = logs.len();
        self.counted.count
    }
}
