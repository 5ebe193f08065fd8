// The segments of a store that is opened.
ghost use Rattle.std.specs.Prelude.{◌≡◌, ◌↔◌, ℕ, true, Ok, map, IfOk, IfErr, IsErrOf, Contains};
ghost use Rattle.std.specs.List.{AllByRecursion, list_all};
ghost use Rattle.std.specs.List.Sorted.{IsStrictlyIncreasing};
ghost use Rattle.flash_io.specs.Faults.{Rose};
ghost use Rattle.flash_io.specs.Image.{IsThere};
ghost use Rattle.flash_io.specs.Runs.{Counted, Untouched};
ghost use Rattle.manifest_form.specs.States.{is_formed, segment_below};
ghost use Rattle.manifest_form.specs.Whole.{IdsDiffer};
ghost use Rattle.replica_state.specs.Core.{AreSlots};
ghost use Rattle.opened_segments.specs.Faults.{Judges, faults_in};
ghost use Rattle.opened_segments.specs.Opened.{IsOpenedSlot, IsSlotIn};
ghost use Rattle.segment_flush.specs.Names.{stored_of};

use crate::fault::OpenFault;
use crate::slot::slot_of;
use column_block::Schema;
use flash_io::{Disk, FileId, Reader};
use manifest_cover::covers_agree;
use manifest_form::{State, StoredSegment};
use segment_list::{SegmentList, Slot};
use std::alloc::Global;

// Segments that are stored, in order, as slots.
fn slots_of<D: Disk>(
    disk: &mut D,
    own: FileId,
    list: &[FileId],
    stored: &[&StoredSegment],
    schema: &Schema,
    alloc: Global,
) -> Result<Vec<Slot<<D::Reader as Reader>::Grip>>, OpenFault>
    requires rising { IsStrictlyIncreasing list.now }
    requires each { D.tells → (f : ℕ) → Contains list.now f ↔ IsThere (D.files disk.old) f }
    ensures exact { D.tells → Judges (faults_in own (D.files disk.old) schema.now (map (λ segment. segment.now) stored.now)) result }
    ensures read { D.tells → IfOk result (λ slots. AllByRecursion (IsSlotIn D.Reader.Grip.bytes own (D.files disk.old) schema.now) slots.items) }
    ensures stored { IfOk result (λ slots. map stored_of slots.items ≡ map (λ segment. segment.now) stored.now) }
    ensures each_slot { (next : ℕ) → list_all (segment_below next) (map (λ segment. segment.now) stored.now) ≡ true → IfOk result (λ slots. AllByRecursion (IsOpenedSlot schema.now next) slots.items) }
    ensures untouched { Untouched D.files D.may_leave D.moment D.left_since disk.old disk.new }
    ensures counted { Counted D.fault_count D.reader_fault_count D.never_fails disk.old disk.new }
    ensures device { IsErrOf result OpenFault.Device → Rose (D.fault_count disk.old) (D.fault_count disk.new) }
{
    let mut slots = Vec::new(alloc);
    for segment in stored {
        let slot = slot_of(disk, own, list, segment, schema, alloc)?;
        slots.push(slot)?;
    }
    Ok(slots)
}

// The list of slots that have the segments of a state that a store may have.
fn listed<G: Drop>(
    slots: Vec<Slot<G>>,
    own: FileId,
    state: &State,
    alloc: Global,
) -> Result<SegmentList<G>, OpenFault>
    requires formed { is_formed own state.now ≡ true }
    requires differ { IdsDiffer state.now.segments }
    requires stored { map stored_of slots.items ≡ state.now.segments }
    ensures ok { IfOk result (λ list. list ≡ slots.items) }
    ensures memory { IfErr result (λ e. e ≡ OpenFault.Memory) }
{
    covers_agree();
    match SegmentList::new(slots, alloc) {
        Ok(list) => Ok(list),
        Err(_) => Err(OpenFault::Memory),
    }
}

/// The segments that a store's state names, whose manifest stands in the file `own`, as its files
/// hold them: of each tiny file the versions that lie in the segment's range, and of each stable file
/// what its footer tells, with a hold on its bytes. Of the disk it reads the tiny files and, of the
/// stable ones, the footers alone; it leaves it as it was.
///
/// `Damaged` comes exactly where a file isn't there, or one of those bytes isn't of the form, and names
/// the first such place: segment by segment, of each the files of its delta in their order, and then
/// its stable file. A file that isn't there is damaged at 0; neither the root nor the manifest's file
/// counts as one of data. The other places are those that `open_tiny` and `attach` name.
pub fn opened_segments<D: Disk>(
    disk: &mut D,
    own: FileId,
    state: &State,
    schema: &Schema,
    alloc: Global,
) -> Result<SegmentList<<D::Reader as Reader>::Grip>, OpenFault>
    requires formed { is_formed own state.now ≡ true }
    requires differ { IdsDiffer state.now.segments }
    ensures exact { D.tells → Judges (faults_in own (D.files disk.old) schema.now state.now.segments) result }
    ensures read { D.tells → IfOk result (AllByRecursion (IsSlotIn D.Reader.Grip.bytes own (D.files disk.old) schema.now)) }
    ensures stored { IfOk result (λ slots. map stored_of slots ≡ state.now.segments) }
    ensures order { IfOk result (AreSlots schema.now state.now.next 0 0) }
    ensures untouched { Untouched D.files D.may_leave D.moment D.left_since disk.old disk.new }
    ensures counted { Counted D.fault_count D.reader_fault_count D.never_fails disk.old disk.new }
    ensures device { IsErrOf result OpenFault.Device → Rose (D.fault_count disk.old) (D.fault_count disk.new) }
{
    let list = disk.list(alloc)?;
    let stored = state.segments.list(alloc)?;
    let slots = slots_of(disk, own, list.as_slice(), stored.as_slice(), schema, alloc)?;
    listed(slots, own, state, alloc)
}
