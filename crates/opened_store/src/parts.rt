// What a store has besides its manifest.
ghost use Rattle.std.specs.Prelude.{◌≡◌, IfOk, IfErr, IsErrOf};
ghost use Rattle.flash_io.specs.Faults.{Rose};
ghost use Rattle.flash_io.specs.Runs.{Counted, Untouched};
ghost use Rattle.manifest.specs.Stores.{has_of};
ghost use Rattle.store_image.specs.Images.{columns_in};
ghost use Rattle.opened_store.specs.Causes.{ArePartsDamaged, IsDamageOr};
ghost use Rattle.opened_store.specs.Opening.{AreParts, ArePartsIn};

use crate::fault::OpenCause;
use crate::regions::table_of;
use committed_log::Logs;
use flash_io::{Disk, Reader};
use manifest::Manifest;
use opened_segments::opened_segments;
use region_table::RegionTable;
use segment_list::SegmentList;
use std::alloc::Global;

/// The table of a store's regions, and its segments.
#[derive(Drop)]
pub struct Parts<G> {
    pub table: RegionTable,
    pub segments: SegmentList<G>,
}

/// The table of the log whose regions the manifest's region file has, and the segments as the files
/// hold them that the manifest names. Of each stable file it reads the footer alone.
///
/// `Damaged` comes exactly where one of these files isn't as it is to be, and names the first such:
/// the region file (`table_of`), then the segments' (`opened_segments`). It leaves the disk as it was.
pub fn parts_of<D: Disk>(
    disk: &mut D,
    manifest: &Manifest,
    logs: &Logs,
    alloc: Global,
) -> Result<Parts<<D::Reader as Reader>::Grip>, OpenCause>
    ensures parts { IfOk result (λ p. AreParts logs.now manifest.now.state p.table p.segments) }
    ensures read { D.tells → IfOk result (λ p. ArePartsIn D.Reader.Grip.bytes (columns_in logs.now) manifest.now.file (D.files disk.old) manifest.now.state p.table p.segments) }
    ensures cause { D.tells → IfErr result (IsDamageOr (ArePartsDamaged logs.now manifest.now.file (D.files disk.old) (has_of manifest.now))) }
    ensures untouched { Untouched D.files D.may_leave D.moment D.left_since disk.old disk.new }
    ensures counted { Counted D.fault_count D.reader_fault_count D.never_fails disk.old disk.new }
    ensures device { IsErrOf result OpenCause.Device → Rose (D.fault_count disk.old) (D.fault_count disk.new) }
{
    let state = manifest.state();
    let own = manifest.file();
    let table = match table_of(disk, own, state.regions, logs, alloc) {
        Ok(table) => table,
        Err(cause) => return Err(cause),
    };
    match opened_segments(disk, own, state, logs.schema(), alloc) {
        Ok(segments) => Ok(Parts { table, segments }),
        Err(fault) => Err(OpenCause::from(fault)),
    }
}
