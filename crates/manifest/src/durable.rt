// Writes that are on the disk before they are answered.
ghost use Rattle.std.specs.Prelude.{◌≡◌, ◌≤◌, ◌<◌, ◌+◌, ◌++◌, List, ℕ, length, take, drop, Some, OnOk, IsErrOf};
ghost use Rattle.flash_io.specs.Image.{Image, SameBut, Holds};
ghost use Rattle.flash_io.specs.Crash.{Created, Durable, OneFile, Elsewhere, TornFile, LeavesOnly, NoNew};
ghost use Rattle.flash_io.specs.DiskFaults.{HasDiskCause};
ghost use Rattle.manifest.specs.Gated.{overwritten};

use flash_io::{Disk, DiskFault, Failed, FileId};

/// Writes and syncs. At each moment of the call a crash leaves this file as it was or torn, and all others as they were.
pub fn write_durable<D: Disk>(
    disk: &mut D,
    file: FileId,
    at: u64,
    bytes: &[u8],
) -> Result<(), DiskFault>
    requires durable { (content : List ℕ) × (at ≤ length content) × Durable file content (D.may_leave disk.old) }
    ensures written { (content : List ℕ) → Durable file content (D.may_leave disk.old) → OnOk result (Durable file (overwritten content at bytes.now) (D.may_leave disk.new)) }
    ensures any_moment { (content : List ℕ) → Durable file content (D.may_leave disk.old)
        → LeavesOnly D.moment D.left_since disk.old disk.new (OneFile file (D.may_leave disk.old) (TornFile at (length bytes.now) (Some content))) }
    ensures others { SameBut file (D.files disk.old) (D.files disk.new) }
    ensures memory { IsErrOf result DiskFault.Memory → (D.files disk.new ≡ D.files disk.old) × NoNew (D.may_leave disk.old) (D.may_leave disk.new) }
    ensures spared { D.never_fails disk.old → D.never_fails disk.new × (D.fault_count disk.new ≡ D.fault_count disk.old) }
    ensures cause { HasDiskCause (D.fault_count disk.old) (D.fault_count disk.new) result }
    ensures readers { D.reader_fault_count disk.new ≡ D.reader_fault_count disk.old }
{
    disk.write_at(file, at, bytes)?;
    match disk.sync(file) {
        Ok(()) => Ok(()),
        Err(Failed) => Err(DiskFault::Failed),
    }
}

/// Creates the file with these bytes and syncs it. At each moment of the call a crash leaves all other files as they were.
pub fn stage<D: Disk>(disk: &mut D, file: FileId, bytes: &[u8]) -> Result<(), DiskFault>
    ensures created { OnOk result (Durable file bytes.now (D.may_leave disk.new)) }
    ensures read { D.tells → OnOk result (Holds (D.files disk.new) file bytes.now) }
    ensures any_moment { LeavesOnly D.moment D.left_since disk.old disk.new (Elsewhere file (D.may_leave disk.old)) }
    ensures made { LeavesOnly D.moment D.left_since disk.old disk.new (λ c. (d : Image) × D.may_leave disk.old d × Created file (length bytes.now) d c) }
    ensures others { SameBut file (D.files disk.old) (D.files disk.new) }
    ensures memory { IsErrOf result DiskFault.Memory → (D.files disk.new ≡ D.files disk.old) × NoNew (D.may_leave disk.old) (D.may_leave disk.new) }
    ensures spared { D.never_fails disk.old → D.never_fails disk.new × (D.fault_count disk.new ≡ D.fault_count disk.old) }
    ensures cause { HasDiskCause (D.fault_count disk.old) (D.fault_count disk.new) result }
    ensures readers { D.reader_fault_count disk.new ≡ D.reader_fault_count disk.old }
{
    disk.create(file, bytes)?;
    match disk.sync(file) {
        Ok(()) => Ok(()),
        Err(Failed) => Err(DiskFault::Failed),
    }
}
