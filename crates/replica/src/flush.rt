// A flush of one segment.
ghost use Rattle.std.specs.Prelude.{◌≡◌, ◌<◌, ◌^◌, ◌==◌, None, Some, Err, length, position, slice_get, OnOk, OnErr, IfOk, IsErrOf};
ghost use Rattle.replica_state.specs.Changes.{with_flushes};
ghost use Rattle.replica_store.specs.Store.{Counted, HasFailed, IsWhole};
ghost use Rattle.segment_flush.specs.Flushing.{is_slot, plan_for};
ghost use Rattle.segment_list.specs.Slots.{Slotted};
ghost use Rattle.replica.specs.Follows.{Follows};
ghost use Rattle.replica.specs.Learner.{SameState};
ghost use Rattle.replica.specs.Steps.{HasFlushed, flush_edits, reached};

use crate::edits::{heads, reached};
use crate::fault::StepError;
use crate::replica::Replica;
use flash_io::Disk;
use flash_types::SegId;
use manifest::CommitError;
use manifest_form::Edit;
use segment_flush::{has_more, stored};
use segment_list::Flush;
use segment_staging::stage_layer;
use std::alloc::Global;

// What a flush of one slot writes, the edits that name it, and High then.
#[derive(Drop)]
struct SlotFlush {
    flush: Flush,
    edits: Vec<Edit>,
    high: u64,
}

impl<D: Disk> Replica<D> {
    // The flush of the slot at a place.
    fn plan_slot(&self, place: usize, alloc: Global) -> Result<SlotFlush, CommitError>
        requires { place < length self.now.core.slots }
        ensures flush { IfOk result (λ it. (s : Slotted D.Reader.Grip) → slice_get self.now.core.slots place ≡ Some s → it.flush ≡ plan_for self.now.core.numbers.next s) }
        ensures edits { IfOk result (λ it. (s : Slotted D.Reader.Grip) → slice_get self.now.core.slots place ≡ Some s → it.edits.items ≡ flush_edits (is_slot s.id) (reached self.now.core) self.now.core) }
        ensures high { IfOk result (λ it. it.high ≡ reached self.now.core) }
        ensures room { IfOk result (λ it. it.flush.next < 2 ^ 32) }
        ensures memory { IsErrOf result CommitError.Device → ⊥ }
    {
        self.told();
        self.state.told();
        let high = reached(&self.state);
        let list = self.state.segments();
        let Ok(flush) = list.plan_flush(place, self.state.next(), alloc) else {
            return Err(CommitError::Memory);
        };
        let state = self.store.state();
        let logs = self.state.log();
        let mut edits = heads(logs, flush.next, state.chain, state.high, high, alloc)?;
        let Ok(segment) = stored(&list.slots()[place], &flush.layer, alloc) else {
            return Err(CommitError::Memory);
        };
        if edits.push(Edit::Segment { segment }).is_err() {
            return Err(CommitError::Memory);
        }
        Ok(SlotFlush { flush, edits, high })
    }

    // Writes and names all files of the slot at a place.
    fn flush_at(&mut self, place: usize, alloc: Global) -> Result<(), CommitError>
        requires within { place < length self.old.core.slots }
        requires whole { IsWhole D.Disk self.old.store }
        ensures follows { Follows D.Disk D.Reader.Grip.bytes self.new self.old }
        ensures done { OnOk result ((s : Slotted D.Reader.Grip) → slice_get self.old.core.slots place ≡ Some s → self.new.core ≡ with_flushes (is_slot s.id) (reached self.old.core) self.old.core) }
        ensures refused { OnErr result (SameState self.new self.old) }
        ensures counted { Counted D.Disk self.old.store self.new.store }
        ensures device { IsErrOf result CommitError.Device → HasFailed D.Disk self.old.store self.new.store }
    {
        self.state.told();
        self.store.told();
        let plan = self.plan_slot(place, alloc)?;
        let schema = self.state.log().schema();
        let layer = self.state.segments().slots()[place].layer();
        stage_layer(&mut self.store, schema, plan.flush.from, layer, alloc)?;
        self.store.commit(plan.edits.as_slice())?;
        self.state.put_flush(place, plan.flush, plan.high);
        Ok(())
    }

    // Flushes the slot at a place, if not all of it is named, and answers how many versions it had in
    // memory.
    fn flush_some(&mut self, place: usize, alloc: Global) -> Result<u64, CommitError>
        requires within { place < length self.old.core.slots }
        requires whole { IsWhole D.Disk self.old.store }
        ensures follows { Follows D.Disk D.Reader.Grip.bytes self.new self.old }
        ensures done { IfOk result (λ rows. (s : Slotted D.Reader.Grip) → slice_get self.old.core.slots place ≡ Some s → HasFlushed s.id rows self.old self.new) }
        ensures refused { OnErr result (SameState self.new self.old) }
        ensures counted { Counted D.Disk self.old.store self.new.store }
        ensures device { IsErrOf result CommitError.Device → HasFailed D.Disk self.old.store self.new.store }
    {
        let slot = &self.state.segments().slots()[place];
        let rows = slot.mem_rows();
        if !has_more(slot) {
            return Ok(rows);
        }
        self.flush_at(place, alloc)?;
        Ok(rows)
    }

    /// Writes a segment's versions in memory to tiny files and names all of its delta, in one commit,
    /// and answers how many versions. Where all was named already nothing is done, and it answers 0.
    /// `NoSegment` exactly where no segment has that number. After an error what is in memory is as
    /// before; after `Device` the disk may have either state.
    pub fn flush(&mut self, seg: SegId, alloc: Global) -> Result<u64, StepError>
        requires whole { IsWhole D.Disk self.old.store }
        ensures follows { Follows D.Disk D.Reader.Grip.bytes self.new self.old }
        ensures done { IfOk result (λ rows. HasFlushed seg rows self.old self.new) }
        ensures absent { IsErrOf result (StepError.NoSegment seg) → position (λ (s : Slotted D.Reader.Grip). s.id == seg) self.old.core.slots ≡ None }
        ensures there { position (λ (s : Slotted D.Reader.Grip). s.id == seg) self.old.core.slots ≡ None → result ≡ Err (StepError.NoSegment seg) }
        ensures refused { OnErr result (SameState self.new self.old) }
        ensures counted { Counted D.Disk self.old.store self.new.store }
        ensures device { IsErrOf result StepError.Device → HasFailed D.Disk self.old.store self.new.store }
    {
        match self.state.segments().slot_with(seg) {
            None => Err(StepError::NoSegment { seg }),
            Some(place) => {
                let rows = self.flush_some(place, alloc)?;
                Ok(rows)
            }
        }
    }
}
