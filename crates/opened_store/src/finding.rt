// The store that a disk has, or one that is made.
ghost use Rattle.std.specs.Bool.{Decides};
ghost use Rattle.std.specs.Prelude.{◌≡◌, IfOk, IfErr, IsErrOf};
ghost use Rattle.flash_io.specs.Faults.{Rose};
ghost use Rattle.flash_io.specs.Runs.{Counted};
ghost use Rattle.log_laws.specs.Chains.{chain_at};
ghost use Rattle.manifest.specs.Made.{IsFresh};
ghost use Rattle.manifest.specs.Stores.{IsKept, IsNew, has_of};
ghost use Rattle.store_image.specs.Images.{columns_in};
ghost use Rattle.opened_store.specs.Causes.{IsCause, IsOfLog, IsRefusal};
ghost use Rattle.opened_store.specs.Opening.{IsFound, IsUntouchedBy, KeepsDisk};

use crate::fault::OpenCause;
use column_block::Column;
use committed_log::Logs;
use flash_io::Disk;
use manifest::{Manifest, create, open};
use std::alloc::Global;

fn same_columns(a: &[Column], b: &[Column]) -> bool
    ensures { Decides result (a.now ≡ b.now) }
{
    a == b
}

fn same_chain(a: [u8; 32], b: [u8; 32]) -> bool
    ensures { Decides result (a ≡ b) }
{
    a == b
}

// Whether the store is of the log.
fn is_of_log(manifest: &Manifest, logs: &Logs) -> bool
    ensures { Decides result (IsOfLog logs.now (has_of manifest.now)) }
{
    if manifest.table() != logs.table() {
        return false;
    }
    if !same_columns(manifest.columns(), logs.schema().columns()) {
        return false;
    }
    let state = manifest.state();
    if state.high > logs.len() {
        return false;
    }
    same_chain(state.chain, logs.chain(state.high))
}

// A new store of the log.
fn made<D: Disk>(disk: &mut D, logs: &Logs, alloc: Global) -> Result<Manifest, OpenCause>
    requires new { D.tells → IsNew (D.files disk.old) }
    ensures fresh { IfOk result (IsFresh logs.now.table (columns_in logs.now) (chain_at logs.now 0)) }
    ensures kept { IfOk result (IsKept (D.may_leave disk.new)) }
    ensures cause { IfErr result (λ e. IsRefusal e → ⊥) }
    ensures keeps { D.tells → KeepsDisk D.Disk logs.now disk.old disk.new }
    ensures counted { Counted D.fault_count D.reader_fault_count D.never_fails disk.old disk.new }
    ensures device { IsErrOf result OpenCause.Device → Rose (D.fault_count disk.old) (D.fault_count disk.new) }
{
    match create(alloc, disk, logs.table(), logs.schema(), logs.chain(0)) {
        Ok(manifest) => Ok(manifest),
        Err(error) => Err(OpenCause::from(error)),
    }
}

/// Opens the store that the disk has, which is to be one of the log, or makes a new one where
/// nothing was ever committed.
///
/// Each cause comes exactly where the disk reads so: `NotAStore` where file 0 isn't there and another
/// file is; `Version` and `Damaged` as the root and the manifest are; `OtherLog` where the store is
/// of another table or other columns, or the log has fewer entries than the store's High, or another
/// digest for them. After these causes the disk is as it was. `Memory` and `Device` may also come
/// where a store was to be made, and its making may have begun.
pub fn found<D: Disk>(disk: &mut D, logs: &Logs, alloc: Global) -> Result<Manifest, OpenCause>
    ensures found { IfOk result (IsFound D.Disk logs.now disk.old disk.new) }
    ensures cause { D.tells → IfErr result (IsCause logs.now (D.files disk.old)) }
    ensures untouched { IfErr result (λ e. IsUntouchedBy D.Disk e disk.old disk.new) }
    ensures keeps { D.tells → KeepsDisk D.Disk logs.now disk.old disk.new }
    ensures counted { Counted D.fault_count D.reader_fault_count D.never_fails disk.old disk.new }
    ensures device { IsErrOf result OpenCause.Device → Rose (D.fault_count disk.old) (D.fault_count disk.new) }
{
    match open(alloc, disk) {
        Ok(Some(manifest)) => {
            if !is_of_log(&manifest, logs) {
                return Err(OpenCause::OtherLog {
                    entries: manifest.state().high,
                });
            }
            Ok(manifest)
        }
        Ok(None) => made(disk, logs, alloc),
        Err(error) => Err(OpenCause::from(error)),
    }
}
