// Files of data, that a state names.
ghost use Rattle.std.specs.Prelude.{◌≡◌, ◌≢◌, ◌↔◌, ◌⊎◌, ℕ, true, false, None, Some, IfOk, IsErrOf, Contains};
ghost use Rattle.std.specs.List.Sorted.{IsStrictlyIncreasing};
ghost use Rattle.flash_io.specs.Faults.{Rose};
ghost use Rattle.flash_io.specs.Image.{IsThere};
ghost use Rattle.flash_io.specs.Runs.{Counted, Untouched};
ghost use Rattle.opened_segments.specs.Faults.{data_in, IsLost};

use crate::fault::OpenFault;
use flash_io::{Disk, FileId, read_file};
use std::alloc::Global;

/// Whether the file may have data: a disk lists it, and it is neither the root nor the manifest's.
pub fn is_data(own: FileId, list: &[FileId], file: FileId) -> bool
    requires { IsStrictlyIncreasing list.now }
    ensures there { result ≡ true → (file ≢ 0) × (file ≢ own) × Contains list.now file }
    ensures absent { result ≡ false → (file ≡ 0) ⊎ ((file ≡ own) ⊎ (Contains list.now file → ⊥)) }
{
    if file == 0 {
        return false;
    }
    if file == own {
        return false;
    }
    list.binary_search(&file).is_ok()
}

/// All bytes of a file that has data. `Damaged` at 0 where it isn't there.
pub fn data_of<D: Disk>(
    disk: &mut D,
    own: FileId,
    list: &[FileId],
    file: FileId,
    alloc: Global,
) -> Result<Vec<u8>, OpenFault>
    requires rising { IsStrictlyIncreasing list.now }
    requires each { D.tells → (f : ℕ) → Contains list.now f ↔ IsThere (D.files disk.old) f }
    ensures told { D.tells → IfOk result (λ bytes. data_in own (D.files disk.old) file ≡ Some bytes.items) }
    ensures lost { D.tells → IsLost own (D.files disk.old) file result }
    ensures untouched { Untouched D.files D.may_leave D.moment D.left_since disk.old disk.new }
    ensures counted { Counted D.fault_count D.reader_fault_count D.never_fails disk.old disk.new }
    ensures device { IsErrOf result OpenFault.Device → Rose (D.fault_count disk.old) (D.fault_count disk.new) }
{
    if !is_data(own, list, file) {
        return Err(OpenFault::Damaged { file, at: 0 });
    }
    let bytes = read_file(alloc, disk, file)?;
    Ok(bytes)
}
