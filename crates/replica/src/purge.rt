// The removal of files that nothing needs.
ghost use Rattle.std.specs.Prelude.{◌≡◌, ◌≤◌, ◌⊎◌, OnOk, OnErr, IfOk, IsErrOf};
ghost use Rattle.replica_state.specs.Changes.{with_kept_from};
ghost use Rattle.replica_store.specs.Store.{Counted, HasFailed, IsWhole, Untouched};
ghost use Rattle.replica.specs.Follows.{Follows};
ghost use Rattle.replica.specs.Learner.{SameState};
ghost use Rattle.replica.specs.Purging.{HasNeededAlone, HasPurged, HasRemoved, KeepsNeeded, needed_files, retired_from};

use crate::fault::StepError;
use crate::replica::Replica;
use crate::retired::Retired;
use flash_io::{Disk, FileId};
use manifest::CommitError;
use std::alloc::{AllocError, Global};
use store_clearing::clear;

// The numbers of the files that went out of use at this generation or later.
fn kept_files(retired: &[Retired], kept_from: u64, alloc: Global) -> Result<Vec<FileId>, AllocError>
    ensures { IfOk result (λ files. files.items ≡ needed_files kept_from retired.now) }
{
    let mut files = Vec::new(alloc);
    for it in retired {
        if kept_from <= it.generation {
            files.push(it.file)?;
        }
    }
    Ok(files)
}

// Keeps those that went out of use at this generation or later.
fn keep_from(retired: &mut Vec<Retired>, kept_from: u64)
    ensures { retired.new.items ≡ retired_from kept_from retired.old.items }
{
    retired.retain(|it| kept_from <= it.generation);
}

impl<D: Disk> Replica<D> {
    /// Removes the files that went out of use before this generation, and strays: each file of the
    /// disk that is neither the root, the manifest's, one that is named, nor one that went out of use
    /// at this generation or later. It answers how many it removed.
    ///
    /// After `Memory` nothing has changed. After `Device` some of them may be gone, a crash may bring
    /// them back, and the least generation that is kept is this one.
    pub fn purge(&mut self, kept_from: u64, alloc: Global) -> Result<u64, StepError>
        requires whole { IsWhole D.Disk self.old.store }
        requires no_lower { self.old.core.numbers.kept_from ≤ kept_from }
        requires past { kept_from ≤ self.old.core.numbers.generation }
        ensures follows { Follows D.Disk D.Reader.Grip.bytes self.new self.old }
        ensures done { OnOk result (HasPurged kept_from self.old self.new) }
        ensures removed { D.tells → IfOk result (λ count. HasRemoved D.Disk kept_from count self.old self.new) }
        ensures left { D.tells → OnOk result (HasNeededAlone kept_from self.old (D.files self.new.store.disk)) }
        ensures needed { KeepsNeeded D.Disk kept_from self.old self.new }
        ensures device { IsErrOf result StepError.Device → HasFailed D.Disk self.old.store self.new.store }
        ensures refused { OnErr result (SameState self.new self.old ⊎ HasPurged kept_from self.old self.new) }
        ensures memory { IsErrOf result StepError.Memory → SameState self.new self.old }
        ensures untouched { IsErrOf result StepError.Memory → Untouched D.Disk self.old.store self.new.store }
        ensures counted { Counted D.Disk self.old.store self.new.store }
    {
        self.store.told();
        let Ok(needed) = kept_files(self.retired.as_slice(), kept_from, alloc) else {
            return Err(StepError::Memory);
        };
        match clear(&mut self.store, needed.as_slice(), alloc) {
            Err(CommitError::Memory) => Err(StepError::Memory),
            Err(CommitError::Device) => {
                self.state.set_kept_from(kept_from);
                keep_from(&mut self.retired, kept_from);
                Err(StepError::Device)
            }
            Ok(count) => {
                self.state.set_kept_from(kept_from);
                keep_from(&mut self.retired, kept_from);
                Ok(count)
            }
        }
    }
}
