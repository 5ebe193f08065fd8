// The removal of files that nothing needs.
ghost use Rattle.std.specs.Prelude.{◌≡◌, ℕ, false, None, OnOk, IfOk, IsErrOf, Contains};
ghost use Rattle.std.specs.List.Sorted.{IsStrictlyIncreasing};
ghost use Rattle.flash_io.specs.Image.{IsThere};
ghost use Rattle.replica_store.specs.Naming.{is_named};
ghost use Rattle.replica_store.specs.Store.{Counted, HasFailed, LeavesAlways, NamesNothing, Untouched};
ghost use Rattle.store_clearing.specs.Clearing.{HasCleared, HasKnownAlone, IsCleared, IsLeftBut, KeepsKnown, SameButThese};

use flash_io::{Disk, FileId};
use manifest::CommitError;
use replica_store::Store;
use std::alloc::Global;

// Removes files that are there and aren't named, in this order.
fn remove_all<D: Disk>(store: &mut Store<D>, files: &[FileId]) -> Result<(), CommitError>
    requires rising { IsStrictlyIncreasing files.now }
    requires there { D.tells → (file : ℕ) → Contains files.now file → IsThere (D.files store.old.disk) file }
    requires unnamed { (file : ℕ) → Contains files.now file → is_named store.old.manifest.file store.old.manifest.state file ≡ false }
    ensures named { NamesNothing D.Disk store.old store.new }
    ensures gone { D.tells → OnOk result ((file : ℕ) → Contains files.now file → D.files store.new.disk file ≡ None) }
    ensures stays { SameButThese files.now (D.files store.old.disk) (D.files store.new.disk) }
    ensures any_moment { LeavesAlways D.Disk store.old store.new (IsLeftBut files.now (D.may_leave store.old.disk)) }
    ensures counted { Counted D.Disk store.old store.new }
    ensures device { IsErrOf result CommitError.Device → HasFailed D.Disk store.old store.new }
    ensures memory { IsErrOf result CommitError.Memory → ⊥ }
{
    for i in 0..files.len() {
        let Ok(()) = store.remove(files[i]) else {
            return Err(CommitError::Device);
        };
    }
    Ok(())
}

/// Removes each file of the store's disk that isn't known, in rising order, and answers how many
/// they were. Known are the root, the manifest's file, those that the store's state names, and these
/// that are still needed. Whatever it answers, each known file is as it was, as it reads and in what
/// a crash leaves at each moment; a crash may bring back a file that was removed.
///
/// After `Memory` the disk is as it was: all memory is taken before the first removal. After
/// `Device` some files that aren't known may be left. It takes time n log n in the numbers of the
/// files that are listed, named and needed.
pub fn clear<D: Disk>(
    store: &mut Store<D>,
    needed: &[FileId],
    alloc: Global,
) -> Result<u64, CommitError>
    ensures named { NamesNothing D.Disk store.old store.new }
    ensures cleared { D.tells → IfOk result (λ count. HasCleared D.Disk needed.now count store.old store.new) }
    ensures left { D.tells → OnOk result (HasKnownAlone store.old.manifest needed.now (D.files store.new.disk)) }
    ensures known { KeepsKnown store.old.manifest needed.now (D.files store.old.disk) (D.files store.new.disk) }
    ensures any_moment { LeavesAlways D.Disk store.old store.new (IsCleared store.old.manifest needed.now (D.may_leave store.old.disk)) }
    ensures counted { Counted D.Disk store.old store.new }
    ensures device { IsErrOf result CommitError.Device → HasFailed D.Disk store.old store.new }
    ensures memory { IsErrOf result CommitError.Memory → Untouched D.Disk store.old store.new }
{
    let strays = store.strays(alloc, needed)?;
    remove_all(store, strays.as_slice())?;
    Ok(strays.len() as u64)
}
