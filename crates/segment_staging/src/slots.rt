// The blocks in memory of slots that are flushed, written as tiny files.
ghost use Rattle.std.specs.Prelude.{◌≡◌, ◌<◌, ◌^◌, ℕ, OnOk, IsErrOf};
ghost use Rattle.std.specs.List.{AllByRecursion};
ghost use Rattle.flash_io.specs.Crash.{Durable};
ghost use Rattle.flash_io.specs.Image.{Image};
ghost use Rattle.delta_layer.specs.Laws.{ViewSuits};
ghost use Rattle.manifest.specs.Stores.{Beneath};
ghost use Rattle.replica_store.specs.Store.{Counted, HasFailed, LeavesAlways, NamesNothing};
ghost use Rattle.segment_flush.specs.Flushing.{after_slots, flushed_slots, has_more, one_flushed, plan_of, plans_of};
ghost use Rattle.segment_list.specs.Slots.{Slotted, view_of};
ghost use Rattle.segment_staging.specs.Staging.{AreBelow, AreWritten, IsPlannedFrom};

use crate::files::stage_layer;
use column_block::Schema;
use flash_io::{Disk, FileId};
use manifest::CommitError;
use replica_store::Store;
use segment_flush::Plan;
use segment_list::{Flush, SegmentList, Slot};
use std::alloc::Global;

// Writes the blocks in memory of a slot, if its flush is planned.
fn stage_planned<D: Disk, G: Drop>(
    store: &mut Store<D>,
    schema: &Schema,
    slot: &Slot<G>,
    plan: &Option<Flush>,
    alloc: Global,
) -> Result<(), CommitError>
    requires suits { ViewSuits schema.now (view_of slot.now) }
    requires below { AreBelow store.old.manifest.state.next slot.now.files }
    requires planned { IsPlannedFrom store.old.manifest.state.next slot.now plan.now }
    ensures named { NamesNothing D.Disk store.old store.new }
    ensures written { OnOk result ((n : ℕ) → plan.now ≡ plan_of (has_more slot.now) n slot.now → (c : Image) → D.may_leave store.new.disk c
        → AreWritten schema.now store.old.manifest.state.next c (one_flushed (has_more slot.now) n slot.now).files) }
    ensures any_moment { (n : ℕ) → plan.now ≡ plan_of (has_more slot.now) n slot.now → LeavesAlways D.Disk store.old store.new (Beneath n (D.may_leave store.old.disk)) }
    ensures counted { Counted D.Disk store.old store.new }
    ensures device { IsErrOf result CommitError.Device → HasFailed D.Disk store.old store.new }
{
    match plan {
        None => Ok(()),
        Some(flush) => {
            stage_layer(store, schema, flush.from, slot.layer(), alloc)?;
            Ok(())
        }
    }
}

/// Writes the blocks in memory of all slots whose flushes are planned, as their plans number them.
/// Whatever it answers, files below Next are as they were in each image, at each moment.
pub fn stage_all<D: Disk, G: Drop>(
    store: &mut Store<D>,
    schema: &Schema,
    from: FileId,
    list: &SegmentList<G>,
    flushes: &[Option<Flush>],
    alloc: Global,
) -> Result<(), CommitError>
    requires fresh { store.old.manifest.state.next ≡ from }
    requires suits { AllByRecursion (λ (s : Slotted G). ViewSuits schema.now (view_of s)) list.now }
    requires below { AllByRecursion (λ (s : Slotted G). AreBelow from s.files) list.now }
    requires planned { flushes.now ≡ plans_of has_more from list.now }
    requires room { after_slots has_more from list.now < 2 ^ 32 }
    ensures named { NamesNothing D.Disk store.old store.new }
    ensures written { OnOk result ((c : Image) → D.may_leave store.new.disk c
        → AllByRecursion (λ (s : Slotted G). AreWritten schema.now from c s.files) (flushed_slots has_more from list.now)) }
    ensures any_moment { LeavesAlways D.Disk store.old store.new (Beneath from (D.may_leave store.old.disk)) }
    ensures counted { Counted D.Disk store.old store.new }
    ensures device { IsErrOf result CommitError.Device → HasFailed D.Disk store.old store.new }
{
    let slots = list.slots();
    for i in 0..slots.len() {
        stage_planned(store, schema, &slots[i], &flushes[i], alloc)?;
    }
    Ok(())
}

// The first number that a plan leaves free.
fn next_in(plan: &Plan) -> FileId
    ensures { result ≡ plan.now.next }
{
    plan.next
}

/// Writes the blocks in memory of all slots whose flushes are planned, and behind them the region
/// file, with the number that the plan leaves free. Whatever it answers, files below Next are as they
/// were in each image, at each moment.
pub fn stage_checkpoint<D: Disk, G: Drop>(
    store: &mut Store<D>,
    schema: &Schema,
    list: &SegmentList<G>,
    plan: &Plan,
    regions: &[u8],
    alloc: Global,
) -> Result<(), CommitError>
    requires suits { AllByRecursion (λ (s : Slotted G). ViewSuits schema.now (view_of s)) list.now }
    requires below { AllByRecursion (λ (s : Slotted G). AreBelow store.old.manifest.state.next s.files) list.now }
    requires planned { plan.now.flushes.items ≡ plans_of has_more store.old.manifest.state.next list.now }
    requires next { plan.now.next ≡ after_slots has_more store.old.manifest.state.next list.now }
    ensures named { NamesNothing D.Disk store.old store.new }
    ensures written { OnOk result ((c : Image) → D.may_leave store.new.disk c
        → AllByRecursion (λ (s : Slotted G). AreWritten schema.now store.old.manifest.state.next c s.files) (flushed_slots has_more store.old.manifest.state.next list.now)) }
    ensures regions { OnOk result (Durable plan.now.next regions.now (D.may_leave store.new.disk)) }
    ensures any_moment { LeavesAlways D.Disk store.old store.new (Beneath store.old.manifest.state.next (D.may_leave store.old.disk)) }
    ensures counted { Counted D.Disk store.old store.new }
    ensures device { IsErrOf result CommitError.Device → HasFailed D.Disk store.old store.new }
{
    let number = next_in(plan);
    let from = store.next();
    stage_all(store, schema, from, list, plan.flushes.as_slice(), alloc)?;
    store.stage(number, regions)?;
    Ok(())
}
