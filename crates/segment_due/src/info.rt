// What is told of a segment.
ghost use Rattle.std.specs.Prelude.{◌≡◌, List, option_map, slice_get};
ghost use Rattle.segment_due.specs.Infos.{info_of, longest_run, total_of};

use delta_layer::DeltaLayer;
use flash_types::{HandleRange, SegId};
use segment_list::{SegmentList, Slot, is_tiny};

/// What is told of a segment. Versions are counted as they stand in its files, each as often as it
/// stands, also where a later file replaces or clears it.
#[derive(Clone, Copy, Debug, PartialEq, Eq)]
pub struct SegInfo {
    /// The segment's number.
    pub id: SegId,
    /// Its handles.
    pub range: HandleRange,
    /// How often its stable part or its delta was replaced.
    pub epoch: u64,
    /// The versions that its delta has in memory alone.
    pub mem: u64,
    /// The tiny files of its delta's longest run of tiny files side by side.
    pub tiny_run: u64,
    /// The versions of its delta.
    pub delta: u64,
    /// The versions of its delta and of its stable part's packs that meet its range; 2^64 less one
    /// where they are more.
    pub total: u64,
}

// The length of the longest run of tiny files. It looks at each file once.
fn longest_run(layer: &DeltaLayer) -> u64
    ensures { result ≡ longest_run layer.now }
{
    let mut longest: u64 = 0;
    let mut run: u64 = 0;
    for i in 0..layer.files() {
        if is_tiny(layer.file(i)) {
            run += 1;
            longest = longest.max(run);
        } else {
            run = 0;
        }
    }
    longest
}

// The versions of a slot's stable part and of its delta, by the counts that it keeps.
fn total_of<G: Drop>(slot: &Slot<G>) -> u64
    ensures { result ≡ total_of slot.now }
{
    slot.stable_rows().saturating_add(slot.delta_rows())
}

/// What is told of the segment in a slot. It takes time by the files of the segment's delta.
pub fn info_of<G: Drop>(slot: &Slot<G>) -> SegInfo
    ensures { result ≡ info_of slot.now }
{
    SegInfo {
        id: slot.id(),
        range: slot.range(),
        epoch: slot.epoch(),
        mem: slot.mem_rows(),
        tiny_run: longest_run(slot.layer()),
        delta: slot.delta_rows(),
        total: total_of(slot),
    }
}

/// The versions of the segment at a place; none where there is none.
pub fn total_at<G: Drop>(slots: &[Slot<G>], place: usize) -> Option<u64>
    ensures { result ≡ option_map total_of (slice_get slots.now place) }
{
    match slots.get(place) {
        None => None,
        Some(slot) => Some(total_of(slot)),
    }
}

/// What is told of the k-th segment by rising handles, counted from 0; none where there are no more
/// than k.
pub fn info_at<G: Drop>(list: &SegmentList<G>, k: u32) -> Option<SegInfo>
    ensures { result ≡ option_map info_of (slice_get list.now k) }
{
    match list.slots().get(k as usize) {
        None => None,
        Some(slot) => Some(info_of(slot)),
    }
}
