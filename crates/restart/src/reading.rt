// What a disk has for a replica.
ghost use Rattle.std.specs.Prelude.{◌≡◌, ℕ, Bool, true, OnOk, IfOk, IfErr, IsErrOf};
ghost use Rattle.flash_io.specs.Crash.{LeavesOnly, NoNew};
ghost use Rattle.flash_io.specs.Faults.{Rose};
ghost use Rattle.flash_io.specs.Runs.{Counted};
ghost use Rattle.manifest.specs.Stores.{IsKept, IsRead};
ghost use Rattle.opened_store.specs.Causes.{IsCause, IsRefusal};
ghost use Rattle.opened_store.specs.Opening.{IsUntouchedBy, KeepsDisk};
ghost use Rattle.restart.specs.Ready.{IsReady, StandsAsBefore};

use committed_log::Logs;
use flash_io::{Disk, Reader};
use manifest::Manifest;
use opened_store::{OpenCause, Parts, found, parts_of};
use std::alloc::Global;

// Makes sure that every image of the disk has what the manifest has; one that was just made has it.
fn made_sure<D: Disk>(disk: &mut D, manifest: &mut Manifest) -> Result<(), OpenCause>
    requires read { IsRead D.tells (D.files disk.old) manifest.old }
    requires made { manifest.old.steadied ≡ true → IsKept (D.may_leave disk.old) manifest.old }
    ensures kept { OnOk result (IsKept (D.may_leave disk.new) manifest.new) }
    ensures done { OnOk result (manifest.new ≡ record manifest.old { steadied = true }) }
    ensures files { D.files disk.new ≡ D.files disk.old }
    ensures none_new { NoNew (D.may_leave disk.old) (D.may_leave disk.new) }
    ensures any_moment { LeavesOnly D.moment D.left_since disk.old disk.new (D.may_leave disk.old) }
    ensures cause { IfErr result (λ e. IsRefusal e → ⊥) }
    ensures counted { Counted D.fault_count D.reader_fault_count D.never_fails disk.old disk.new }
    ensures device { IsErrOf result OpenCause.Device → Rose (D.fault_count disk.old) (D.fault_count disk.new) }
{
    if manifest.steadied() {
        return Ok(());
    }
    match manifest.steady(disk) {
        Ok(()) => Ok(()),
        Err(_) => Err(OpenCause::Device),
    }
}

/// What the disk has for a replica of the log, in each image, or why it can't be opened. Nothing is
/// changed but where a store is made: the rest is read, and the manifest synced.
pub fn read<D: Disk>(
    disk: &mut D,
    logs: &Logs,
    alloc: Global,
) -> Result<(Manifest, Parts<<D::Reader as Reader>::Grip>), OpenCause>
    ensures ready { IfOk result (λ r. IsReady D.Disk D.Reader.Grip.bytes logs.now disk.new r.0 r.1.table r.1.segments) }
    ensures stands { D.tells → OnOk result (StandsAsBefore D.Disk logs.now disk.old disk.new) }
    ensures cause { D.tells → IfErr result (IsCause logs.now (D.files disk.old)) }
    ensures untouched { D.tells → IfErr result (λ e. IsUntouchedBy D.Disk e disk.old disk.new) }
    ensures keeps { D.tells → KeepsDisk D.Disk logs.now disk.old disk.new }
    ensures counted { Counted D.fault_count D.reader_fault_count D.never_fails disk.old disk.new }
    ensures device { IsErrOf result OpenCause.Device → Rose (D.fault_count disk.old) (D.fault_count disk.new) }
{
    let mut manifest = match found(disk, logs, alloc) {
        Ok(manifest) => manifest,
        Err(cause) => return Err(cause),
    };
    let parts = match parts_of(disk, &manifest, logs, alloc) {
        Ok(parts) => parts,
        Err(cause) => return Err(cause),
    };
    match made_sure(disk, &mut manifest) {
        Ok(()) => Ok((manifest, parts)),
        Err(cause) => Err(cause),
    }
}
