// A segment of a store that is opened.
ghost use Rattle.std.specs.Prelude.{◌≡◌, ◌↔◌, ℕ, true, Ok, IfOk, IfErr, IsErrOf, Contains};
ghost use Rattle.std.specs.List.Sorted.{IsStrictlyIncreasing};
ghost use Rattle.flash_io.specs.Faults.{Rose};
ghost use Rattle.flash_io.specs.Image.{IsThere};
ghost use Rattle.flash_io.specs.Runs.{Counted, Untouched};
ghost use Rattle.manifest_form.specs.States.{segment_below};
ghost use Rattle.opened_segments.specs.Faults.{Judges, segment_faults};
ghost use Rattle.opened_segments.specs.Opened.{IsOpenedSlot, IsSlotIn, slot_with};
ghost use Rattle.segment_flush.specs.Names.{stored_of};

use crate::delta::delta_of;
use crate::fault::OpenFault;
use crate::stable::stable_of;
use column_block::Schema;
use delta_layer::DeltaLayer;
use flash_io::{Disk, FileId, Reader};
use manifest_form::StoredSegment;
use segment::Segment;
use segment_list::Slot;
use stable_file::StableFile;
use std::alloc::Global;

// The slot with these parts.
fn made<G: Drop>(
    stored: &StoredSegment,
    layer: DeltaLayer,
    stable: Option<StableFile<G>>,
    alloc: Global,
) -> Result<Slot<G>, OpenFault>
    ensures ok { IfOk result (λ slot. slot ≡ slot_with stored.now layer stable) }
    ensures memory { IfErr result (λ e. e ≡ OpenFault.Memory) }
{
    let Ok(segment) = Segment::new(stored.id, stored.range, layer, stable) else {
        return Err(OpenFault::Memory);
    };
    match Slot::opened(segment, stored.stable, alloc) {
        Ok(slot) => Ok(slot),
        Err(_) => Err(OpenFault::Memory),
    }
}

/// A segment that is stored, as a slot: each of its files is named.
pub fn slot_of<D: Disk>(
    disk: &mut D,
    own: FileId,
    list: &[FileId],
    stored: &StoredSegment,
    schema: &Schema,
    alloc: Global,
) -> Result<Slot<<D::Reader as Reader>::Grip>, OpenFault>
    requires rising { IsStrictlyIncreasing list.now }
    requires each { D.tells → (f : ℕ) → Contains list.now f ↔ IsThere (D.files disk.old) f }
    ensures exact { D.tells → Judges (segment_faults own (D.files disk.old) schema.now stored.now) result }
    ensures read { D.tells → IfOk result (IsSlotIn D.Reader.Grip.bytes own (D.files disk.old) schema.now) }
    ensures stored { IfOk result (λ slot. stored_of slot ≡ stored.now) }
    ensures slot { (next : ℕ) → segment_below next stored.now ≡ true → IfOk result (IsOpenedSlot schema.now next) }
    ensures untouched { Untouched D.files D.may_leave D.moment D.left_since disk.old disk.new }
    ensures counted { Counted D.fault_count D.reader_fault_count D.never_fails disk.old disk.new }
    ensures device { IsErrOf result OpenFault.Device → Rose (D.fault_count disk.old) (D.fault_count disk.new) }
{
    let layer = delta_of(
        disk,
        own,
        list,
        stored.delta.as_slice(),
        stored.range,
        schema,
        alloc,
    )?;
    let stable = stable_of(disk, own, list, stored.stable, schema, alloc)?;
    made(stored, layer, stable, alloc)
}
