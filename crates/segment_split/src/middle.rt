// The handle in the middle of a segment.
ghost use Rattle.std.specs.Prelude.{◌≡◌, ◌<◌, ◌/◌, ◌++◌, ◌∷◌, [], length, slice_get, IfOk, OnOk, Some};
ghost use Rattle.delta_layer.specs.Built.{HasBuildCause};
ghost use Rattle.segment_split.specs.Halves.{handles, IsCut, GivesMiddle};

use column_block::Block;
use delta_layer::{BuildError, Memory, SegmentView, present_for_build};
use flash_io::Reader;
use flash_types::Handle;
use std::alloc::Global;

/// The handle at which a segment is split: of the n handles of its present versions, in rising
/// order, the one at place n / 2, counted from 0. It is above the range's lowest handle, and in the
/// range.
///
/// `OneHandle` comes exactly where there are fewer than two handles. `Damaged` names the place in the
/// stable file where the stable part doesn't read, and `Device` comes only where the reader's count
/// of faults rose.
pub fn choose<R: Reader>(
    alloc: Global,
    view: &SegmentView<R::Grip>,
    reader: &mut R,
) -> Result<Handle, BuildError>
    ensures cut { IfOk result (λ at. IsCut view.now.range at) }
    ensures exact { R.Grip.tells → GivesMiddle R.Grip.bytes view.now result }
    ensures cause { HasBuildCause (R.fault_count reader.old) (R.fault_count reader.new) result }
{
    let present = match present_for_build(alloc, view, reader) {
        Ok(present) => present,
        Err(error) => return Err(error),
    };
    let Ok(handles) = handles_of(alloc, &present) else {
        return Err(BuildError::Memory);
    };
    if handles.len() < 2 {
        return Err(BuildError::OneHandle);
    }
    Ok(middle_of(&handles))
}

// The handle at place n / 2 of n.
fn middle_of(handles: &[Handle]) -> Handle
    requires { 1 < length handles.now }
    ensures { slice_get handles.now (length handles.now / 2) ≡ Some result }
{
    handles[handles.len() / 2]
}

// The handles of a block in order, each once.
fn handles_of(alloc: Global, block: &Block) -> Result<Vec<Handle>, Memory>
    ensures { IfOk result (λ list. list.items ≡ handles block.now) }
{
    let mut list = Vec::new(alloc);
    for i in 0..block.len() {
        add(&mut list, block.handle(i))?;
    }
    list.dedup();
    Ok(list)
}

fn add(list: &mut Vec<Handle>, handle: Handle) -> Result<(), Memory>
    ensures { OnOk result (list.new.items ≡ list.old.items ++ handle ∷ []) }
{
    match list.push(handle) {
        Ok(()) => Ok(()),
        Err(_) => Err(Memory),
    }
}
