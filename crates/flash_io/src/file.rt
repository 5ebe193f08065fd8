// Reading a whole file of a disk.
ghost use Rattle.std.specs.Prelude.{◌≡◌, [], OnOk, IfOk};
ghost use Rattle.flash_io.specs.Image.{IsThere, Holds};
ghost use Rattle.flash_io.specs.DiskFaults.{HasDiskCause};
ghost use Rattle.flash_io.specs.Runs.{Untouched, Counted};

use crate::disk::{Disk, FileId};
use crate::fault::DiskFault;
use std::alloc::Global;

// The bytes that are asked for at a time.
const PIECE: u32 = 1 << 20;

// Appends all bytes of a file. An error leaves some bytes more.
fn append_file<D: Disk>(disk: &mut D, file: FileId, into: &mut Vec<u8>) -> Result<(), DiskFault>
    requires there { D.tells → IsThere (D.files disk.old) file }
    requires empty { into.old.items ≡ [] }
    ensures told { D.tells → OnOk result (Holds (D.files disk.old) file into.new.items) }
    ensures untouched { Untouched D.files D.may_leave D.moment D.left_since disk.old disk.new }
    ensures counted { Counted D.fault_count D.reader_fault_count D.never_fails disk.old disk.new }
    ensures cause { HasDiskCause (D.fault_count disk.old) (D.fault_count disk.new) result }
{
    for _ in 0..u64::MAX {
        let at = into.len() as u64;
        let count = disk.read(file, at, PIECE, into)?;
        if count < PIECE as usize {
            return Ok(());
        }
    }
    // More bytes than there are places.
    Err(DiskFault::Memory)
}

/// All bytes of a file. It leaves the disk as it reads and what a crash may leave of it, whatever it
/// answers: `Failed` where a read failed, `Memory` where there wasn't memory for the bytes.
pub fn read_file<D: Disk>(alloc: Global, disk: &mut D, file: FileId) -> Result<Vec<u8>, DiskFault>
    requires there { D.tells → IsThere (D.files disk.old) file }
    ensures told { D.tells → IfOk result (λ bytes. Holds (D.files disk.old) file bytes.items) }
    ensures untouched { Untouched D.files D.may_leave D.moment D.left_since disk.old disk.new }
    ensures counted { Counted D.fault_count D.reader_fault_count D.never_fails disk.old disk.new }
    ensures cause { HasDiskCause (D.fault_count disk.old) (D.fault_count disk.new) result }
{
    let mut bytes = Vec::new(alloc);
    append_file(disk, file, &mut bytes)?;
    Ok(bytes)
}
