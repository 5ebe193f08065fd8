// A gated file: a front, and records behind gates. A record counts where its gate is open, that is
// 1, and so are those before it.
ghost use Rattle.std.specs.Prelude.{◌≡◌, ◌⊎◌, ◌≤◌, ◌<◌, ◌+◌, ◌-◌, ◌^◌, ◌++◌, [], ◌∷◌, List, ℕ, length, OnOk, IfOk, IsErrOf};
ghost use Rattle.std.specs.Int.{w64, to_be_bytes};
ghost use Rattle.flash_io.specs.Image.{SameBut};
ghost use Rattle.flash_io.specs.Crash.{OneFile, LeavesOnly};
ghost use Rattle.flash_io.specs.Faults.{Rose};
ghost use Rattle.flash_put.specs.Appending.{Appends};
ghost use Rattle.manifest.specs.Gated.{record_of, with_record, IsSteady, IsBeforeOrAfter};

use crate::durable::write_durable;
use crate::fault::CommitError;
use flash_io::{Disk, FileId};
use flash_put::{put_bytes, put_u8, put_u64};
use std::alloc::{AllocError, Global};

// The greatest place of a gate.
const MOST: u64 = (1 << 63) - 1;

#[tactic(auto, using(flash_put::proofs::Appending::kept))]
pub fn put_record(bytes: &[u8], into: &mut Vec<u8>) -> Result<(), AllocError>
    ensures { Appends result into.old.items (to_be_bytes w64 (length bytes.now) ++ (bytes.now ++ 0 ∷ [])) into.new.items }
{
    put_u64(bytes.len() as u64, into)?;
    put_bytes(bytes, into)?;
    put_u8(0, into)
}

// What stands behind a gate: the record, and the next closed gate.
fn record_of(alloc: Global, bytes: &[u8]) -> Result<Vec<u8>, AllocError>
    ensures { IfOk result (λ behind. behind.items ≡ record_of bytes.now) }
{
    let mut behind = Vec::new(alloc);
    put_record(bytes, &mut behind)?;
    Ok(behind)
}

/// Adds a record behind the closed gate at `at`, in four calls of the device: the record is written
/// behind the gate and synced, and then the gate is opened and synced. `Memory` also where the next
/// gate would stand past the greatest place.
pub fn commit<D: Disk>(
    alloc: Global,
    disk: &mut D,
    file: FileId,
    at: u64,
    bytes: &[u8],
) -> Result<(), CommitError>
    requires steady { (part : List ℕ) × (length part ≡ at) × IsSteady file part (D.may_leave disk.old) }
    ensures committed { (part : List ℕ) → length part ≡ at → IsSteady file part (D.may_leave disk.old)
        → OnOk result (IsSteady file (with_record part bytes.now) (D.may_leave disk.new)) }

    // At each moment of the call a crash leaves the records from before it, with the new one or without, and all other files as they were.
    ensures any_moment { (part : List ℕ) → length part ≡ at → IsSteady file part (D.may_leave disk.old)
        → LeavesOnly D.moment D.left_since disk.old disk.new (OneFile file (D.may_leave disk.old) (IsBeforeOrAfter part bytes.now)) }
    ensures memory { (part : List ℕ) → length part ≡ at → IsSteady file part (D.may_leave disk.old)
        → IsErrOf result CommitError.Memory → IsSteady file part (D.may_leave disk.new) }
    ensures room { OnOk result (at + 9 + length bytes.now < 2 ^ 63) }
    ensures others { SameBut file (D.files disk.old) (D.files disk.new) }
    ensures device { IsErrOf result CommitError.Device → Rose (D.fault_count disk.old) (D.fault_count disk.new) }
    ensures counted { D.fault_count disk.old ≤ D.fault_count disk.new }
    ensures spared { D.never_fails disk.old → D.never_fails disk.new × (D.fault_count disk.new ≡ D.fault_count disk.old) }
    ensures readers { D.reader_fault_count disk.new ≡ D.reader_fault_count disk.old }
{
    let behind = record_of(alloc, bytes)?;
    if at > MOST || behind.len() as u64 > MOST - at {
        return Err(CommitError::Memory);
    }
    write_durable(disk, file, at + 1, behind.as_slice())?;
    write_durable(disk, file, at, &[1])?;
    Ok(())
}
