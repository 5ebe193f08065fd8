// The file of a checkpoint's regions.
ghost use Rattle.std.specs.Prelude.{◌≡◌, ◌++◌, OnOk, OnErr};
ghost use Rattle.region_file.specs.Spelling as spelling;
ghost use Rattle.region_file.specs.Spelling.{CanBeWritten};

use crate::table::RegionTable;
use column_block::Memory;
use region_file::write_regions;

impl RegionTable {
    /// Writes the table's regions behind what `into` has, as the file of a checkpoint's regions
    /// (docs/FORMATS.md): `opened` reads it. After `Memory` `into` is as before. It takes time by the
    /// bytes that it writes.
    pub fn write_file(&self, into: &mut Vec<u8>) -> Result<(), Memory>
        ensures ok { OnOk result (into.new.items ≡ into.old.items ++ spelling.file self.now.regions) }
        ensures fits { OnOk result (CanBeWritten self.now.regions) }
        ensures err { OnErr result (into.new.items ≡ into.old.items) }
    {
        write_regions(&self.regions, into)
    }
}
