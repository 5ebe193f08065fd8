// A state, whole, as the edits of one record.
ghost use Rattle.std.specs.Prelude.{◌≡◌, ◌++◌, ◌∷◌, [], map, OnOk, IfOk};
ghost use Rattle.manifest_form.specs.declared.state.StoredSegment.{StoredSegment};
ghost use Rattle.manifest_form.specs.declared.state.Edit.TheVariants as edit;
ghost use Rattle.manifest_form.specs.Slots.{somes, present};
ghost use Rattle.manifest_form.specs.Whole.{count_edits, region_edits, whole_edits};

use crate::change::copied_segment;
use crate::slots::Places;
use crate::state::{Edit, State, StoredSegment};
use flash_io::FileId;
use std::alloc::{AllocError, Global};

fn put_slot(
    alloc: Global,
    slot: &Option<StoredSegment>,
    into: &mut Vec<Edit>,
) -> Result<(), AllocError>
    ensures { OnOk result (into.new.items ≡ into.old.items ++ map (λ (segment : StoredSegment). edit.Segment segment) (somes (slot.now ∷ []))) }
{
    match slot {
        None => Ok(()),
        Some(segment) => {
            let segment = copied_segment(alloc, segment)?;
            into.push(Edit::Segment { segment })?;
            Ok(())
        }
    }
}

// One edit for each segment.
fn put_segments(alloc: Global, places: &Places, into: &mut Vec<Edit>) -> Result<(), AllocError>
    ensures { OnOk result (into.new.items ≡ into.old.items ++ map (λ (segment : StoredSegment). edit.Segment segment) (present places.now.entries)) }
{
    for slot in places.values() {
        put_slot(alloc, slot, into)?;
    }
    Ok(())
}

fn put_regions(regions: Option<FileId>, into: &mut Vec<Edit>) -> Result<(), AllocError>
    ensures { OnOk result (into.new.items ≡ into.old.items ++ region_edits regions) }
{
    match regions {
        None => Ok(()),
        Some(file) => {
            into.push(Edit::Regions { file })?;
            Ok(())
        }
    }
}

fn put_count(count: Option<u64>, into: &mut Vec<Edit>) -> Result<(), AllocError>
    ensures { OnOk result (into.new.items ≡ into.old.items ++ count_edits count) }
{
    match count {
        None => Ok(()),
        Some(entries) => {
            into.push(Edit::Count { entries })?;
            Ok(())
        }
    }
}

/// The edits that make this state, with this Next, of nothing: the first record of a new manifest.
pub fn whole_edits(alloc: Global, next: u32, state: &State) -> Result<Vec<Edit>, AllocError>
    ensures { IfOk result (λ edits. edits.items ≡ whole_edits next state.now) }
{
    let mut edits = Vec::new(alloc);
    edits.push(Edit::Next { file: next })?;
    let segments = &state.segments;
    put_segments(alloc, &segments.slots.places, &mut edits)?;
    edits.push(Edit::High {
        entries: state.high,
        chain: state.chain,
    })?;
    edits.push(Edit::SafePoint {
        ts: state.safe_point,
    })?;
    put_regions(state.regions, &mut edits)?;
    put_count(state.count, &mut edits)?;
    Ok(edits)
}
