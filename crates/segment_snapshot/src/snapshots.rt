// The snapshot of the segments that a read needs.
ghost use Rattle.std.specs.Prelude.{◌≡◌, ◌≤◌, ◌<◌, [], true, int_le, List, length, map, take, OnOk, IfOk};
ghost use Rattle.flash_types.specs.Ranges.{is_below, least_handle};
ghost use Rattle.flash_types.specs.declared.refusal.Cut.{Cut};
ghost use Rattle.good_replica.specs.Good.{CoversFrom};
ghost use Rattle.learner_read.specs.Pieces.{CutsAreApart};
ghost use Rattle.segment_list.specs.Lists.{range_alone};
ghost use Rattle.segment_list.specs.Slots.{view_of};
ghost use Rattle.segment_snapshot.specs.Views.{AreNeeded, HasOpenFile, IsSnapshotOf, needed_views, with_slot};

use delta_layer::SegmentView;
use flash_types::{Cut, Handle, HandleRange, Ts};
use learner_read::{Snapshot, is_needed};
use segment_list::{SegmentList, Slot};
use std::alloc::Global;

/// Memory ran out.
#[derive(Clone, Copy, Debug, PartialEq, Eq)]
pub struct Memory;

// Whether the handle is below the end, where there is one.
fn is_below(handle: Handle, high: Option<Handle>) -> bool
    ensures { result ≡ is_below handle high }
{
    match high {
        None => true,
        Some(high) => handle < high,
    }
}

// That the stable part of a segment is open. It does nothing when it runs.
fn told<G: Drop>(slot: &Slot<G>)
    ensures { HasOpenFile (view_of slot.now) }
{
    match slot.stable() {
        None => {}
        Some(file) => {
            let _packs = file.packs();
        }
    }
}

// Adds a view of the segment where the read needs it.
fn add<G: Drop>(
    pieces: &mut Vec<SegmentView<G>>,
    slot: &Slot<G>,
    clip: HandleRange,
    cuts: &[Cut],
) -> Result<(), Memory>
    ensures { OnOk result (pieces.new.items ≡ with_slot clip cuts.now slot.now pieces.old.items) }
{
    if !is_needed(clip, cuts, slot.range()) {
        return Ok(());
    }
    let Ok(view) = slot.view() else {
        return Err(Memory);
    };
    match pieces.push(view) {
        Ok(()) => Ok(()),
        Err(_) => Err(Memory),
    }
}

// Where a clip begins.
fn low_of(clip: HandleRange) -> Handle
    ensures { result ≡ clip.low }
{
    clip.low
}

// The place of the first segment that a read within the clip may need, found by halving.
fn first_place<G: Drop>(list: &SegmentList<G>, clip: HandleRange) -> usize
    ensures within { result ≤ length list.now }
    ensures before { (cuts : List Cut) → needed_views clip cuts (take result list.now) ≡ [] }
    ensures begins { int_le least_handle clip.low ≡ true }
{
    list.covers();
    match list.slot_at(low_of(clip)) {
        None => 0,
        Some(place) => place,
    }
}

// Views of the segments from a place on that the read needs, in their order, where it needs none
// before. It looks at those alone that begin below the clip's end.
fn views_from<G: Drop>(
    slots: &[Slot<G>],
    first: usize,
    clip: HandleRange,
    cuts: &[Cut],
    alloc: Global,
) -> Result<Vec<SegmentView<G>>, Memory>
    requires cover { CoversFrom least_handle (map range_alone slots.now) }
    requires within { first ≤ length slots.now }
    requires before { needed_views clip cuts.now (take first slots.now) ≡ [] }
    ensures { IfOk result (λ pieces. AreNeeded clip cuts.now slots.now pieces.items) }
{
    let mut pieces = Vec::new(alloc);
    for i in first..slots.len() {
        let slot = &slots[i];
        if !is_below(slot.low(), clip.high) {
            return Ok(pieces);
        }
        told(slot);
        add(&mut pieces, slot, clip, cuts)?;
    }
    Ok(pieces)
}

/// What a read at a timestamp sees of a replica's segments: views of those that it needs, in the
/// order of their handles, which no later change of the segments changes. It needs a segment whose
/// range meets the clip and the range of a cut. `count` is the number of entries that were applied,
/// and `generation` that of the replica's files. A block of a scan has at most `pack_rows` rows.
///
/// The first segment is found by halving, and only those are looked at that begin below the clip's
/// end. No file is copied. `Memory` is want of memory.
pub fn snapshot_of<G: Drop>(
    list: &SegmentList<G>,
    ts: Ts,
    clip: HandleRange,
    cuts: Vec<Cut>,
    count: u64,
    generation: u64,
    pack_rows: u32,
    alloc: Global,
) -> Result<Snapshot<G>, Memory>
    requires rows { 0 < pack_rows }
    requires apart { CutsAreApart cuts.items }
    ensures { IfOk result (IsSnapshotOf list.now ts clip cuts.items count generation pack_rows) }
{
    list.covers();
    let first = first_place(list, clip);
    let pieces = views_from(list.slots(), first, clip, cuts.as_slice(), alloc)?;
    Ok(Snapshot::new(ts, clip, cuts, pieces, count, generation, pack_rows))
}
