// The table of the regions that a store has.
ghost use Rattle.std.specs.Prelude.{◌≡◌, Some, IfOk, IfErr, IsErrOf};
ghost use Rattle.flash_io.specs.Faults.{Rose};
ghost use Rattle.flash_io.specs.Runs.{Counted, Untouched};
ghost use Rattle.region_table.specs.Opening.{IsOpened};
ghost use Rattle.region_table.specs.Table.{Agrees};
ghost use Rattle.opened_store.specs.Causes.{AreRegionsDamaged, IsDamageOr, IsFaultOfFile};
ghost use Rattle.opened_store.specs.Errors.{of_regions};
ghost use Rattle.opened_store.specs.Opening.{AreRegionsOpened};

use crate::fault::OpenCause;
use committed_log::Logs;
use flash_io::{Disk, FileId};
use opened_segments::data_of;
use region_table::{OpenFault, RegionTable, empty_tables_agree};
use std::alloc::Global;

// The cause of a fault that the region file has.
fn cause_of(file: FileId, fault: OpenFault) -> OpenCause
    ensures { result ≡ of_regions file fault }
{
    match fault {
        OpenFault::Damaged { at } => OpenCause::Damaged { file, at },
        OpenFault::OtherLog => OpenCause::Damaged { file, at: 0 },
        OpenFault::Memory => OpenCause::Memory,
    }
}

// The table whose regions these bytes of a file are.
fn table_in(
    file: FileId,
    bytes: &[u8],
    logs: &Logs,
    alloc: Global,
) -> Result<RegionTable, OpenCause>
    ensures ok { IfOk result (IsOpened logs.now bytes.now) }
    ensures err { IfErr result (IsDamageOr (IsFaultOfFile logs.now file (Some bytes.now))) }
    ensures device { IsErrOf result OpenCause.Device → ⊥ }
{
    match RegionTable::opened(alloc, bytes, logs) {
        Ok(table) => Ok(table),
        Err(fault) => Err(cause_of(file, fault)),
    }
}

// The table whose regions a file has.
fn table_at<D: Disk>(
    disk: &mut D,
    own: FileId,
    file: FileId,
    logs: &Logs,
    alloc: Global,
) -> Result<RegionTable, OpenCause>
    ensures agrees { IfOk result (Agrees logs.now) }
    ensures read { D.tells → IfOk result (AreRegionsOpened own (D.files disk.old) (Some file)) }
    ensures cause { D.tells → IfErr result (IsDamageOr (AreRegionsDamaged logs.now own (D.files disk.old) (Some file))) }
    ensures untouched { Untouched D.files D.may_leave D.moment D.left_since disk.old disk.new }
    ensures counted { Counted D.fault_count D.reader_fault_count D.never_fails disk.old disk.new }
    ensures device { IsErrOf result OpenCause.Device → Rose (D.fault_count disk.old) (D.fault_count disk.new) }
{
    let list = match disk.list(alloc) {
        Ok(list) => list,
        Err(fault) => return Err(OpenCause::from(fault)),
    };
    match data_of(disk, own, list.as_slice(), file, alloc) {
        Ok(bytes) => table_in(file, bytes.as_slice(), logs, alloc),
        Err(fault) => Err(OpenCause::from(fault)),
    }
}

/// The table of the log whose regions a store's region file has; the empty one where the store names
/// no such file. `Damaged` comes exactly where the file isn't there or isn't of the form, at that
/// place, or where no closed set of the log's entries leaves these regions, at 0. It leaves the disk
/// as it was.
pub fn table_of<D: Disk>(
    disk: &mut D,
    own: FileId,
    file: Option<FileId>,
    logs: &Logs,
    alloc: Global,
) -> Result<RegionTable, OpenCause>
    ensures agrees { IfOk result (Agrees logs.now) }
    ensures read { D.tells → IfOk result (AreRegionsOpened own (D.files disk.old) file) }
    ensures cause { D.tells → IfErr result (IsDamageOr (AreRegionsDamaged logs.now own (D.files disk.old) file)) }
    ensures untouched { Untouched D.files D.may_leave D.moment D.left_since disk.old disk.new }
    ensures counted { Counted D.fault_count D.reader_fault_count D.never_fails disk.old disk.new }
    ensures device { IsErrOf result OpenCause.Device → Rose (D.fault_count disk.old) (D.fault_count disk.new) }
{
    empty_tables_agree();
    match file {
        Some(file) => table_at(disk, own, file, logs, alloc),
        None => Ok(RegionTable::empty(alloc)),
    }
}
