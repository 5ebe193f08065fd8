// Going on in a new manifest file.
ghost use Rattle.std.specs.Prelude.{◌≡◌, ◌≢◌, ◌<◌, ◌+◌, ℕ, true, Ok, OnOk, OnErr, IfOk, IsErrOf};
ghost use Rattle.flash_io.specs.Crash.{LeavesOnly};
ghost use Rattle.flash_io.specs.Faults.{Rose};
ghost use Rattle.manifest_form.specs.declared.recover.Recovered.{Recovered};
ghost use Rattle.manifest_form.specs.Walk.{manifest_of};
ghost use Rattle.manifest.specs.declared.store.Manifest.{Manifest};
ghost use Rattle.flash_io.specs.Runs.{Counted};
ghost use Rattle.manifest.specs.Rolled.{raised, Rolls, IsNamedNext, OldOrRolled};
ghost use Rattle.manifest.specs.Stores.{IsKept, has_of, has_with};

use crate::creating::{file_bytes, read_back};
use crate::fault::CommitError;
use crate::gated::commit;
use crate::store::Manifest;
use flash_io::Disk;
use manifest_form::{RootEnd, whole_edits};
use std::alloc::AllocError;

// The next manifest's file, whose first record gives the whole state.
fn whole_bytes(manifest: &Manifest) -> Result<Vec<u8>, AllocError>
    requires room { manifest.now.state.next < 4294967295 }
    ensures { IfOk result (λ bytes. manifest_of manifest.now.state.next bytes.items ≡ Ok (has_with manifest.now (raised manifest.now.state))) }
{
    let alloc = manifest.alloc;
    let edits = whole_edits(alloc, manifest.state.next + 1, &manifest.state)?;
    let columns = manifest.columns.as_slice();
    let bytes = file_bytes(alloc, manifest.table, columns, edits.as_slice())?;
    Ok(bytes)
}

// The next file's number, and the place of the root's next gate.
fn next_end(manifest: &Manifest) -> Result<RootEnd, AllocError>
    ensures { IfOk result (λ name. (name.file ≡ manifest.now.state.next) × (name.at ≡ manifest.now.root_at + 13)) }
{
    match manifest.root_at.checked_add(13) {
        Some(at) => Ok(RootEnd {
            file: manifest.state.next,
            at,
        }),
        None => Err(AllocError),
    }
}

// The manifest that these bytes of the next file make.
fn next_manifest(manifest: &Manifest, bytes: &[u8]) -> Result<Manifest, CommitError>
    requires whole { manifest_of manifest.now.state.next bytes.now ≡ Ok (has_with manifest.now (raised manifest.now.state)) }
    ensures rolls { IfOk result (Rolls manifest.now) }
    ensures named { IfOk result (IsNamedNext manifest.now bytes.now) }
    ensures device { IsErrOf result CommitError.Device → ⊥ }
{
    let name = next_end(manifest)?;
    read_back(manifest.alloc, name, bytes)
}

// Makes the next file with these bytes, and then names it.
fn move_on<D: Disk>(manifest: &Manifest, disk: &mut D, bytes: &[u8]) -> Result<(), CommitError>
    requires kept { IsKept (D.may_leave disk.old) manifest.now }
    requires room { manifest.now.state.next < 4294967295 }
    ensures kept { OnOk result ((next : Manifest) → IsNamedNext manifest.now bytes.now next → IsKept (D.may_leave disk.new) next) }
    ensures any_moment { (has : Recovered) → manifest_of manifest.now.state.next bytes.now ≡ Ok has
        → LeavesOnly D.moment D.left_since disk.old disk.new (OldOrRolled (D.may_leave disk.old) manifest.now.file manifest.now.state.next (has_of manifest.now) has) }
    ensures memory { IsErrOf result CommitError.Memory → IsKept (D.may_leave disk.new) manifest.now }
    ensures others { (file : ℕ) → file ≢ 0 → file ≢ manifest.now.state.next → D.files disk.new file ≡ D.files disk.old file }
    ensures counted { Counted D.fault_count D.reader_fault_count D.never_fails disk.old disk.new }
    ensures device { IsErrOf result CommitError.Device → Rose (D.fault_count disk.old) (D.fault_count disk.new) }
{
    let next = manifest.state.next;
    let name = next.to_be_bytes();
    manifest.stage(disk, next, bytes)?;
    commit(manifest.alloc, disk, 0, manifest.root_at, &name)
}

impl Manifest {
    /// Goes on in a new manifest file, so that the journal is short again. Its number is the
    /// state's Next, which must leave room for one more, and its first record gives the whole
    /// state with Next raised by 1. The file is made and synced, and then its number is committed
    /// to the root: six calls of the disk. A crash leaves the old file or the new one named. The
    /// old file stays until it is removed.
    ///
    /// `Memory` leaves the store and this value as they were, but for a file that isn't named;
    /// after `Device` the disk may have either, and the manifest isn't used again.
    pub fn roll<D: Disk>(&mut self, disk: &mut D) -> Result<(), CommitError>
        requires steadied { self.old.steadied ≡ true }
        requires kept { IsKept (D.may_leave disk.old) self.old }
        requires room { self.old.state.next < 4294967295 }
        ensures done { OnOk result (Rolls self.old self.new) }
        ensures kept { OnOk result (IsKept (D.may_leave disk.new) self.new) }

        // At each moment of the call a crash leaves the old store or the new one, whole, and all files but the root and the new one as they were.
        ensures any_moment { LeavesOnly D.moment D.left_since disk.old disk.new (OldOrRolled (D.may_leave disk.old) self.old.file self.old.state.next (has_of self.old) (has_with self.old (raised self.old.state))) }
        ensures refused { OnErr result (self.new ≡ self.old) }
        ensures memory { IsErrOf result CommitError.Memory → IsKept (D.may_leave disk.new) self.new }
        ensures others { (file : ℕ) → file ≢ 0 → file ≢ self.old.state.next → D.files disk.new file ≡ D.files disk.old file }
        ensures counted { Counted D.fault_count D.reader_fault_count D.never_fails disk.old disk.new }
        ensures device { IsErrOf result CommitError.Device → Rose (D.fault_count disk.old) (D.fault_count disk.new) }
    {
        let bytes = whole_bytes(self)?;
        let next = next_manifest(self, bytes.as_slice())?;
        move_on(self, disk, bytes.as_slice())?;
        *self = next;
        Ok(())
    }
}
