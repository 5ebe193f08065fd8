// Files that the next commit may name.
ghost use Rattle.std.specs.Prelude.{◌≡◌, ◌≤◌, OnOk, IsErrOf};
ghost use Rattle.flash_io.specs.Image.{SameBut, Holds};
ghost use Rattle.flash_io.specs.Crash.{Durable, Elsewhere, LeavesOnly, NoNew};
ghost use Rattle.flash_io.specs.Faults.{Rose};
ghost use Rattle.flash_io.specs.Runs.{Counted};
ghost use Rattle.manifest.specs.Stores.{IsKept};

use crate::durable::stage;
use crate::fault::CommitError;
use crate::store::Manifest;
use flash_io::{Disk, FileId};

impl Manifest {
    /// Creates the file with these bytes and syncs it. Its number isn't below the state's Next, so
    /// the state doesn't name it. Whatever it answers, all other files are as they were, as they
    /// read and in what a crash leaves at each moment.
    pub fn stage<D: Disk>(
        &self,
        disk: &mut D,
        file: FileId,
        bytes: &[u8],
    ) -> Result<(), CommitError>
        requires fresh { self.now.state.next ≤ file }
        ensures created { OnOk result (Durable file bytes.now (D.may_leave disk.new)) }
        ensures read { D.tells → OnOk result (Holds (D.files disk.new) file bytes.now) }
        ensures any_moment { LeavesOnly D.moment D.left_since disk.old disk.new (Elsewhere file (D.may_leave disk.old)) }
        ensures others { SameBut file (D.files disk.old) (D.files disk.new) }
        ensures kept { IsKept (D.may_leave disk.old) self.now → IsKept (D.may_leave disk.new) self.now }
        ensures memory { IsErrOf result CommitError.Memory → (D.files disk.new ≡ D.files disk.old) × NoNew (D.may_leave disk.old) (D.may_leave disk.new) }
        ensures counted { Counted D.fault_count D.reader_fault_count D.never_fails disk.old disk.new }
        ensures device { IsErrOf result CommitError.Device → Rose (D.fault_count disk.old) (D.fault_count disk.new) }
    {
        let _next = self.state.next;
        stage(disk, file, bytes)?;
        Ok(())
    }
}
