// The file of a checkpoint, opened.
ghost use Rattle.std.specs.Bool.{Decides};
ghost use Rattle.std.specs.List.Sorted.{IsStrictlySortedBy};
ghost use Rattle.std.specs.Map.{keys_of};
ghost use Rattle.std.specs.Ordering.{nat_cmp};
ghost use Rattle.std.specs.Prelude.{◌≡◌, IfOk, IfErr};
ghost use Rattle.region_table.specs.Opening.{IsOpened, IsOpenFault, IsRegionsFault};
ghost use Rattle.region_table.specs.Table.{Agrees};

use crate::agree::applied_anew;
use crate::table::{RegionTable, Regions};
use committed_log::Logs;
use region_file::{TableError, read_regions, same_regions};
use std::alloc::Global;

/// Why the file of a checkpoint isn't opened.
#[derive(Clone, Copy, Debug, PartialEq, Eq)]
pub enum OpenFault {
    /// What stands from this place of the file on isn't of the form.
    Damaged { at: u64 },
    /// It is of the form, and no set of entries of the log leaves these regions.
    OtherLog,
    /// Memory ran out.
    Memory,
}

impl RegionTable {
    // Whether it has these regions.
    fn has_regions(&self, regions: &Regions) -> bool
        ensures is { Decides result (regions.now.entries ≡ self.now.regions) }
        ensures own { IsStrictlySortedBy nat_cmp (keys_of self.now.regions) }
        ensures others { IsStrictlySortedBy nat_cmp (keys_of regions.now.entries) }
    {
        let _own = self.regions.len();
        let _others = regions.len();
        same_regions(regions, &self.regions)
    }
}

// The table of the log that has these regions.
fn open_regions(alloc: Global, logs: &Logs, regions: &Regions) -> Result<RegionTable, OpenFault>
    ensures ok { IfOk result (λ t. (t.regions ≡ regions.now.entries) × Agrees logs.now t) }
    ensures err { IfErr result (IsRegionsFault logs.now regions.now.entries) }
{
    logs.told_lawful();
    match applied_anew(alloc, logs, regions) {
        Ok(Some(anew)) => {
            if !anew.has_regions(regions) {
                return Err(OpenFault::OtherLog);
            }
            Ok(anew)
        }
        Ok(None) => Err(OpenFault::OtherLog),
        Err(_) => Err(OpenFault::Memory),
    }
}

impl RegionTable {
    /// The table of the log whose regions a file has, counted. `Damaged` names the first place of the
    /// file that isn't of the form, as `region_file::read_regions` does; `OtherLog` comes exactly where
    /// the file is of the form and the log has no closed set of entries that leaves these regions;
    /// `Memory` is want of memory.
    ///
    /// It goes over the log, and takes as long as to apply the entries that the file tells are applied.
    /// No later call goes over the log again, but for `agrees`.
    pub fn opened(alloc: Global, bytes: &[u8], logs: &Logs) -> Result<RegionTable, OpenFault>
        ensures ok { IfOk result (IsOpened logs.now bytes.now) }
        ensures err { IfErr result (IsOpenFault logs.now bytes.now) }
    {
        match read_regions(alloc, bytes) {
            Ok(regions) => open_regions(alloc, logs, &regions),
            Err(TableError::Damaged { at }) => Err(OpenFault::Damaged { at }),
            Err(TableError::Memory) => Err(OpenFault::Memory),
        }
    }
}
