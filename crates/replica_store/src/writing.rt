// What a store writes, names and removes.
ghost use Rattle.std.specs.Prelude.{◌≡◌, ◌≤◌, ℕ, true, false, None, OnOk, OnErr, IsErrOf};
ghost use Rattle.flash_io.specs.Crash.{Elsewhere, Removed};
ghost use Rattle.flash_io.specs.Image.{Image, IsThere, SameBut};
ghost use Rattle.manifest_form.specs.States.{all_done, is_formed};
ghost use Rattle.replica_store.specs.Naming.{is_named};
ghost use Rattle.replica_store.specs.Store.{AsBefore, BeforeOrAfter, Counted, HasFailed, IsCommitted, IsKeptOn, IsStaged, LeavesAlways, NamesNothing};

use crate::store::Store;
use flash_io::{Disk, Failed, FileId};
use manifest::CommitError;
use manifest_form::Edit;

impl<D: Disk> Store<D> {
    /// Creates the file with these bytes and syncs it, for a later commit to name it. Its number
    /// isn't below Next, so nothing names it now. Whatever it answers, all other files are as they
    /// were, as they read and in what a crash leaves at each moment; `Memory` leaves the disk as it
    /// was.
    pub fn stage(&mut self, file: FileId, bytes: &[u8]) -> Result<(), CommitError>
        requires fresh { self.old.manifest.state.next ≤ file }
        ensures named { NamesNothing D.Disk self.old self.new }
        ensures staged { OnOk result (IsStaged D.Disk file bytes.now self.new) }
        ensures any_moment { LeavesAlways D.Disk self.old self.new (Elsewhere file (D.may_leave self.old.disk)) }
        ensures others { SameBut file (D.files self.old.disk) (D.files self.new.disk) }
        ensures memory { IsErrOf result CommitError.Memory → AsBefore D.Disk self.old self.new }
        ensures counted { Counted D.Disk self.old self.new }
        ensures device { IsErrOf result CommitError.Device → HasFailed D.Disk self.old self.new }
    {
        self.manifest.stage(&mut self.disk, file, bytes)
    }

    /// Does the edits, in order, on the disk and here; a crash leaves all of them or none. The files
    /// that they name were staged before. At any error the manifest here is as it was: after
    /// `Memory` it is the one of each image too; after `Device` the disk may have either state, and
    /// the store is wrecked.
    pub fn commit(&mut self, edits: &[Edit]) -> Result<(), CommitError>
        requires kept { IsKeptOn D.Disk self.old }
        requires formed { is_formed self.old.manifest.file (all_done self.old.manifest.state edits.now) ≡ true }
        ensures opened_faults { self.new.opened_faults ≡ self.old.opened_faults }
        ensures done { OnOk result (IsCommitted D.Disk edits.now self.old self.new) }
        ensures refused { OnErr result (self.new.manifest ≡ self.old.manifest) }
        ensures memory { IsErrOf result CommitError.Memory → IsKeptOn D.Disk self.new }
        ensures any_moment { LeavesAlways D.Disk self.old self.new (BeforeOrAfter D.Disk edits.now self.old) }
        ensures others { SameBut self.old.manifest.file (D.files self.old.disk) (D.files self.new.disk) }
        ensures counted { Counted D.Disk self.old self.new }
        ensures device { IsErrOf result CommitError.Device → HasFailed D.Disk self.old self.new }
    {
        self.manifest.commit(&mut self.disk, edits)
    }

    /// Removes a file that nothing names: neither the root, the manifest's nor one of the state's. A
    /// crash may bring it back as it was; all others stay.
    pub fn remove(&mut self, file: FileId) -> Result<(), Failed>
        requires there { D.tells → IsThere (D.files self.old.disk) file }
        requires unnamed { is_named self.old.manifest.file self.old.manifest.state file ≡ false }
        ensures named { NamesNothing D.Disk self.old self.new }
        ensures gone { D.tells → OnOk result (D.files self.new.disk file ≡ None) }
        ensures any_moment { LeavesAlways D.Disk self.old self.new (λ c. (d : Image) × D.may_leave self.old.disk d × Removed file d c) }
        ensures others { SameBut file (D.files self.old.disk) (D.files self.new.disk) }
        ensures counted { Counted D.Disk self.old self.new }
        ensures device { OnErr result (HasFailed D.Disk self.old self.new) }
    {
        self.disk.remove(file)
    }
}
