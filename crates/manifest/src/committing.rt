// Commits of edits.
ghost use Rattle.std.specs.Prelude.{◌≡◌, true, OnOk, OnErr, IfOk, IsErrOf};
ghost use Rattle.std.specs.List.{All, flat_map};
ghost use Rattle.flash_io.specs.Image.{SameBut};
ghost use Rattle.flash_io.specs.Crash.{LeavesOnly};
ghost use Rattle.flash_io.specs.Faults.{Rose};
ghost use Rattle.manifest_form.specs.Spelling as spelling;
ghost use Rattle.manifest_form.specs.Spelling.{EditFits};
ghost use Rattle.manifest_form.specs.States.{all_done, is_formed};
ghost use Rattle.flash_io.specs.Runs.{Counted};
ghost use Rattle.manifest.specs.Runs.{OldOrNew};
ghost use Rattle.manifest.specs.Stores.{IsKept, Becomes, has_of, has_with};

use crate::fault::CommitError;
use crate::gated::commit;
use crate::store::Manifest;
use flash_io::Disk;
use manifest_form::{Edit, cancel, copied, do_all, make_ready, put_edits};
use std::alloc::{AllocError, Global};

// The bytes of a record.
pub fn spelled(alloc: Global, edits: &[Edit]) -> Result<Vec<u8>, AllocError>
    ensures bytes { IfOk result (λ bytes. bytes.items ≡ flat_map spelling.edit edits.now) }
    ensures fits { OnOk result (All EditFits edits.now) }
{
    let mut bytes = Vec::new(alloc);
    put_edits(edits, &mut bytes)?;
    Ok(bytes)
}

impl Manifest {
    /// Does the edits, in order, on the disk and here; a crash leaves all of them or none. The
    /// state after them has the form that a store may have. It makes four calls of the disk: the
    /// record is written behind the closed gate and synced, and then the gate is opened and
    /// synced. `Memory`, also where the next gate would stand past 2^63, changes nothing; after
    /// `Device` the disk may have either state, and the manifest isn't used again.
    pub fn commit<D: Disk>(&mut self, disk: &mut D, edits: &[Edit]) -> Result<(), CommitError>
        requires steadied { self.old.steadied ≡ true }
        requires kept { IsKept (D.may_leave disk.old) self.old }
        requires formed { is_formed self.old.file (all_done self.old.state edits.now) ≡ true }
        ensures done { OnOk result (Becomes self.old (all_done self.old.state edits.now) self.new) }
        ensures kept { OnOk result (IsKept (D.may_leave disk.new) self.new) }

        // At each moment of the call a crash leaves the old state or the new one, and all other files as they were.
        ensures any_moment { LeavesOnly D.moment D.left_since disk.old disk.new (OldOrNew (D.may_leave disk.old) self.old.file (has_of self.old) (has_with self.old (all_done self.old.state edits.now))) }
        ensures refused { OnErr result (self.new ≡ self.old) }
        ensures memory { IsErrOf result CommitError.Memory → IsKept (D.may_leave disk.new) self.new }
        ensures others { SameBut self.old.file (D.files disk.old) (D.files disk.new) }
        ensures counted { Counted D.fault_count D.reader_fault_count D.never_fails disk.old disk.new }
        ensures device { IsErrOf result CommitError.Device → Rose (D.fault_count disk.old) (D.fault_count disk.new) }
    {
        let alloc = self.alloc;
        let bytes = spelled(alloc, edits)?;
        let copies = copied(alloc, edits)?;
        let ready = make_ready(alloc, &mut self.state, copies)?;
        match commit(alloc, disk, self.file, self.at, bytes.as_slice()) {
            Ok(()) => {
                self.at += 9 + bytes.len() as u64;
                do_all(&mut self.state, ready, edits);
                Ok(())
            }
            Err(error) => {
                cancel(&mut self.state, ready);
                Err(error)
            }
        }
    }
}
