// A checkpoint.
ghost use Rattle.std.specs.Prelude.{◌≡◌, ◌<◌, ◌≤◌, ◌+◌, ◌^◌, ◌-◌, ◌++◌, ◌∷◌, [], length, vec_capacity, vec_len, OnOk, OnErr, IfOk, IsErrOf};
ghost use Rattle.region_table.specs.Opening.{IsFileOf};
ghost use Rattle.region_table.specs.Table.{size_of};
ghost use Rattle.replica_state.specs.Core.{full};
ghost use Rattle.replica_store.specs.Store.{Counted, HasFailed, IsWhole};
ghost use Rattle.segment_flush.specs.Flushing.{after_slots, has_more, plans_of};
ghost use Rattle.replica.specs.Follows.{Follows};
ghost use Rattle.replica.specs.Learner.{SameState};
ghost use Rattle.replica.specs.Steps.{HasCheckpointed, checkpoint_edits, freed, out_of_use, reached, risen};

use crate::edits::{heads, reached};
use crate::fault::StepError;
use crate::replica::Replica;
use crate::retired::Retired;
use flash_io::{Disk, FileId};
use manifest::CommitError;
use manifest_form::Edit;
use segment_flush::{Plan, append_segments, plan_all};
use segment_staging::stage_checkpoint;
use std::alloc::Global;

// What a checkpoint writes, the edits that name it, and Next and High then.
#[derive(Drop)]
struct Prepared {
    plan: Plan,
    regions: Vec<u8>,
    edits: Vec<Edit>,
    next: FileId,
    high: u64,
}

// Adds an edit.
fn append(edits: &mut Vec<Edit>, edit: Edit) -> Result<(), CommitError>
    ensures added { OnOk result (edits.new.items ≡ edits.old.items ++ edit ∷ []) }
    ensures memory { IsErrOf result CommitError.Device → ⊥ }
{
    match edits.push(edit) {
        Ok(()) => Ok(()),
        Err(_) => Err(CommitError::Memory),
    }
}

// The generation once a file went out of use, if one did.
fn risen(generation: u64, freed: Option<FileId>) -> u64
    requires { generation < 2 ^ 64 - 1 }
    ensures { result ≡ risen generation freed }
{
    match freed {
        None => generation,
        Some(_) => generation + 1,
    }
}

// Notes the file that went out of use, if one did.
fn retire(retired: &mut Vec<Retired>, freed: Option<FileId>, generation: u64)
    requires { vec_len retired.old < vec_capacity retired.old }
    ensures { retired.new.items ≡ retired.old.items ++ out_of_use generation freed }
{
    if let Some(file) = freed {
        retired.push_reserved(Retired { file, generation });
    }
}

impl<D: Disk> Replica<D> {
    // The region file that goes out of use with the next checkpoint: the last one's, if no segment
    // names it.
    fn freed(&self) -> Option<FileId>
        ensures { result ≡ freed self.now }
    {
        let Some(file) = self.store.state().regions else {
            return None;
        };
        if self.state.segments().is_named(file) {
            return None;
        }
        Some(file)
    }

    // The edits of a checkpoint whose region file has the number that the plan leaves free.
    fn checkpoint_edits(
        &self,
        plan: &Plan,
        next: FileId,
        high: u64,
        alloc: Global,
    ) -> Result<Vec<Edit>, CommitError>
        requires planned { plan.now.flushes.items ≡ plans_of has_more self.now.core.numbers.next self.now.core.slots }
        requires no_lower { self.now.core.numbers.high ≤ high }
        requires within { high ≤ length self.now.core.log.entries }
        ensures edits { IfOk result (λ edits. edits.items ≡ checkpoint_edits next high plan.now.next self.now.core) }
        ensures memory { IsErrOf result CommitError.Device → ⊥ }
    {
        self.told();
        let state = self.store.state();
        let mut edits = heads(self.state.log(), next, state.chain, state.high, high, alloc)?;
        append(&mut edits, Edit::Regions { file: plan.next })?;
        append(
            &mut edits,
            Edit::Count {
                entries: self.state.count(),
            },
        )?;
        let from = self.state.next();
        let flushes = plan.flushes.as_slice();
        match append_segments(&mut edits, self.state.segments(), from, flushes, alloc) {
            Ok(()) => Ok(edits),
            Err(_) => Err(CommitError::Memory),
        }
    }

    // The checkpoint of this moment.
    fn prepared(&self, alloc: Global) -> Result<Prepared, CommitError>
        ensures planned { IfOk result (λ it. it.plan.flushes.items ≡ plans_of has_more self.now.core.numbers.next self.now.core.slots) }
        ensures region { IfOk result (λ it. it.plan.next ≡ after_slots has_more self.now.core.numbers.next self.now.core.slots) }
        ensures regions { IfOk result (λ it. IsFileOf self.now.core.log (full self.now.core) it.regions.items) }
        ensures edits { IfOk result (λ it. it.edits.items ≡ checkpoint_edits it.next it.high it.plan.next self.now.core) }
        ensures next { IfOk result (λ it. it.next ≡ it.plan.next + 1) }
        ensures room { IfOk result (λ it. it.next < 2 ^ 32) }
        ensures high { IfOk result (λ it. it.high ≡ reached self.now.core) }
        ensures memory { IsErrOf result CommitError.Device → ⊥ }
    {
        self.state.told();
        let high = reached(&self.state);
        let from = self.state.next();
        let Ok(plan) = plan_all(self.state.segments(), from, alloc) else {
            return Err(CommitError::Memory);
        };
        let Some(next) = plan.next.checked_add(1) else {
            return Err(CommitError::Memory);
        };
        let Ok(regions) = self.state.regions_file() else {
            return Err(CommitError::Memory);
        };
        let edits = self.checkpoint_edits(&plan, next, high, alloc)?;
        Ok(Prepared {
            plan,
            regions,
            edits,
            next,
            high,
        })
    }

    // The checkpoint's writes, its commit, and what is in memory then.
    fn commit_checkpoint(&mut self, alloc: Global) -> Result<(), CommitError>
        requires whole { IsWhole D.Disk self.old.store }
        ensures follows { Follows D.Disk D.Reader.Grip.bytes self.new self.old }
        ensures done { OnOk result (HasCheckpointed self.old self.new) }
        ensures refused { OnErr result (SameState self.new self.old) }
        ensures counted { Counted D.Disk self.old.store self.new.store }
        ensures device { IsErrOf result CommitError.Device → HasFailed D.Disk self.old.store self.new.store }
    {
        self.state.told();
        self.store.told();
        let it = self.prepared(alloc)?;
        let freed = self.freed();
        if self.retired.reserve(1).is_err() {
            return Err(CommitError::Memory);
        }
        let schema = self.state.log().schema();
        let segments = self.state.segments();
        let regions = it.regions.as_slice();
        stage_checkpoint(&mut self.store, schema, segments, &it.plan, regions, alloc)?;
        self.store.commit(it.edits.as_slice())?;
        let generation = self.state.generation();
        self.state
            .put_checkpoint(it.plan, it.next, it.high, risen(generation, freed));
        retire(&mut self.retired, freed, generation);
        Ok(())
    }

    /// Writes all that is in memory, names all files, and commits the applied indexes of this moment:
    /// from it on they outlive a crash. It answers how many entries are applied. After an error what
    /// is in memory is as before; after `Device` the disk may have either state. `Memory` comes too
    /// where the numbers don't suffice, before anything is written.
    pub fn checkpoint(&mut self, alloc: Global) -> Result<u64, StepError>
        requires whole { IsWhole D.Disk self.old.store }
        ensures follows { Follows D.Disk D.Reader.Grip.bytes self.new self.old }
        ensures done { OnOk result (HasCheckpointed self.old self.new) }
        ensures count { IfOk result (λ count. count ≡ size_of self.old.core.log (full self.old.core)) }
        ensures refused { OnErr result (SameState self.new self.old) }
        ensures counted { Counted D.Disk self.old.store self.new.store }
        ensures device { IsErrOf result StepError.Device → HasFailed D.Disk self.old.store self.new.store }
    {
        let count = self.state.count();
        self.commit_checkpoint(alloc)?;
        Ok(count)
    }
}
