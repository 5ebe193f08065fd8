// Opening a replica.
ghost use Rattle.std.specs.Prelude.{◌≡◌, ℕ, Bool, IfOk, IfErr, Ok};
ghost use Rattle.std.specs.Arc.{arc_value};
ghost use Rattle.flash_io.specs.Faults.{Rose};
ghost use Rattle.flash_io.specs.Runs.{Counted};
ghost use Rattle.flash_types.specs.Settings.{AreSettings};
ghost use Rattle.opened_store.specs.Causes.{IsCause};
ghost use Rattle.opened_store.specs.Opening.{IsUntouchedBy, KeepsDisk};
ghost use Rattle.opened_store.specs.declared.fault.OpenCause.TheVariants as causes;
ghost use Rattle.replica.specs.Learner.{Sound};
ghost use Rattle.store_image.specs.Sound.{IsSound};
ghost use Rattle.restart.specs.Ready.{IsReady};
ghost use Rattle.restart.specs.Restart.{IsReopened, HasSet, disk_of, numbers_of};

use crate::reading::read;
use crate::refusal::OpenError;
use committed_log::Logs;
use flash_io::{Disk, Reader};
use flash_types::Settings;
use manifest::Manifest;
use manifest_form::State as Named;
use opened_store::Parts;
use replica::Replica;
use replica_state::{Numbers, State};
use replica_store::Store;
use std::alloc::Global;
use std::sync::Arc;

fn numbers_of(named: &Named) -> Numbers
    ensures { result ≡ numbers_of named.now }
{
    Numbers {
        mark: named.high,
        safe_point: named.safe_point,
        high: named.high,
        next: named.next,
        generation: 0,
        kept_from: 0,
    }
}

// The replica of what was read.
fn made<D: Disk>(
    disk: D,
    manifest: Manifest,
    parts: Parts<<D::Reader as Reader>::Grip>,
    logs: Arc<Logs, Global>,
    settings: Settings,
    alloc: Global,
) -> Replica<D>
    requires ready { IsReady D.Disk D.Reader.Grip.bytes (arc_value logs) disk manifest parts.table parts.segments }
    requires settings { AreSettings settings }
    ensures opened { IsReopened (arc_value logs) settings result }
    ensures disk { result.store.disk ≡ disk }
    ensures faults { result.store.opened_faults ≡ D.fault_count disk }
    ensures sound { D.tells → IsSound (arc_value logs) (D.files disk) (D.may_leave disk) → Sound D.Disk D.Reader.Grip.bytes result }
    ensures set { D.tells → HasSet (arc_value logs) (D.files disk) result.core }
{
    logs.told_lawful();
    let numbers = numbers_of(manifest.state());
    let Parts { table, segments } = parts;
    let state = State::opened(logs, segments, table, numbers, settings, alloc);
    Replica::made(Store::made(disk, manifest), state, alloc)
}

/// Opens the replica of a log that a disk has, as it was when its store was last committed; on a disk
/// on which nothing was ever committed it is a new one.
///
/// On a sound disk the applied entries are those of the set for which the disk, as it reads, stands,
/// the segments hold what the files hold, the safe point is the store's, its mark is High, and the
/// replica is sound. On any disk an error but `Device` and `Memory` tells why the disk, as it reads,
/// has no store of the log (`OpenCause`), and then it is as it was. Files that nothing names stay.
///
/// Whatever it answers, a sound disk stays sound, and each image of any moment is one of those that a
/// crash could leave before, or stands for what the disk stood for.
pub fn open<D: Disk>(
    disk: D,
    logs: Arc<Logs, Global>,
    settings: Settings,
    alloc: Global,
) -> Result<Replica<D>, OpenError<D>>
    requires settings { AreSettings settings }
    ensures opened { IfOk result (IsReopened (arc_value logs) settings) }
    ensures faults { IfOk result (λ r. r.store.opened_faults ≡ D.fault_count r.store.disk) }
    ensures cause { D.tells → IfErr result (λ e. IsCause (arc_value logs) (D.files disk) e.cause) }
    ensures untouched { D.tells → IfErr result (λ e. IsUntouchedBy D.Disk e.cause disk e.disk) }
    ensures keeps { D.tells → KeepsDisk D.Disk (arc_value logs) disk (disk_of result) }
    ensures sound { D.tells → IsSound (arc_value logs) (D.files disk) (D.may_leave disk) → IfOk result (Sound D.Disk D.Reader.Grip.bytes) }
    ensures set { D.tells → IfOk result (λ r. HasSet (arc_value logs) (D.files disk) r.core) }
    ensures counted { Counted D.fault_count D.reader_fault_count D.never_fails disk (disk_of result) }
    ensures device { IfErr result (λ e. e.cause ≡ causes.Device → Rose (D.fault_count disk) (D.fault_count e.disk)) }
{
    let mut disk = disk;
    match read(&mut disk, &logs, alloc) {
        Ok((manifest, parts)) => Ok(made(disk, manifest, parts, logs, settings, alloc)),
        Err(cause) => Err(OpenError { disk, cause }),
    }
}
