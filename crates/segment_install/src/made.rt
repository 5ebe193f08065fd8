// The slots that take the place of others, made whole.
ghost use Rattle.std.specs.Prelude.{◌≡◌, ◌≤◌, ◌<◌, ◌-◌, ◌^◌, [], ◌∷◌, length, map, IfOk};
ghost use Rattle.column_file.specs.declared.file.ColumnFile.TheVariants.{Tiny};
ghost use Rattle.delta_layer.specs.Repacked.{CanCompact, replaced};
ghost use Rattle.segment_install.specs.Slots.{IsBehind, compacted_slot, half_slot, joined_slot, merged_slot, part_file, part_number};

use crate::Memory;
use crate::part::Part;
use crate::rest::{add_both_named, add_both_others, add_named, add_others};
use column_block::Block;
use column_file::ColumnFile;
use delta_layer::DeltaLayer;
use flash_io::FileId;
use flash_types::{HandleRange, SegId};
use segment::Segment;
use segment_list::{Gathering, Slot};
use stable_file::StableFile;
use std::alloc::Global;

// A part's number and its file.
fn parted<G: Drop>(part: Option<Part<G>>) -> (Option<FileId>, Option<StableFile<G>>)
    ensures number { result.0 ≡ part_number part }
    ensures file { result.1 ≡ part_file part }
{
    match part {
        None => (None, None),
        Some(part) => {
            let Part { number, file } = part;
            (Some(number), Some(file))
        }
    }
}

// A block with the same versions, which are shared.
fn whole(block: &Block, alloc: Global) -> Result<Block, Memory>
    ensures { IfOk result (λ whole. whole ≡ block.now) }
{
    let mut whole = Block::new(alloc);
    match whole.append(block) {
        Ok(()) => Ok(whole),
        Err(_) => Err(Memory),
    }
}

// The tags.
fn copied(tags: &[u64], alloc: Global) -> Result<Vec<u64>, Memory>
    ensures { IfOk result (λ copy. copy.items ≡ tags.now) }
{
    match Vec::from_slice(alloc, tags) {
        Ok(copy) => Ok(copy),
        Err(_) => Err(Memory),
    }
}

// The layer in which one tiny file stands for some.
fn compacted(
    layer: &DeltaLayer,
    from: usize,
    to: usize,
    one: ColumnFile,
) -> Result<DeltaLayer, Memory>
    requires { CanCompact from to one layer.now }
    ensures { IfOk result (λ new. new ≡ replaced from to one layer.now) }
{
    match layer.compacted(from, to, one) {
        Ok(new) => Ok(new),
        Err(_) => Err(Memory),
    }
}

// One more owner of a slot's stable part.
fn shared_stable<G: Drop>(slot: &Slot<G>) -> Result<Option<StableFile<G>>, Memory>
    ensures { IfOk result (λ stable. stable ≡ slot.now.stable) }
{
    match slot.stable() {
        None => Ok(None),
        Some(file) => match file.share() {
            Ok(stable) => Ok(Some(stable)),
            Err(_) => Err(Memory),
        },
    }
}

// The slot of a segment with these tags and this stable file's number.
fn slot_of<G: Drop>(
    segment: Segment<G>,
    number: Option<FileId>,
    named: usize,
    tags: Vec<u64>,
) -> Result<Slot<G>, Memory>
    ensures { IfOk result (λ slot. slot
        ≡ record {
          id = segment.seg;
          range = segment.range;
          epoch = segment.epoch;
          files = segment.layer;
          stable = segment.stable;
          stable_number = number;
          named = named;
          tags = tags.items;
        }) }
{
    match Slot::of_parts(segment, number, named, tags) {
        Ok(slot) => Ok(slot),
        Err(_) => Err(Memory),
    }
}

/// A slot in which the tiny file of this number, with these versions, stands for the named files
/// from place `from` up to but without place `to`.
pub fn compacted_slot<G: Drop>(
    slot: &Slot<G>,
    from: usize,
    to: usize,
    versions: &Block,
    file: FileId,
    alloc: Global,
) -> Result<Slot<G>, Memory>
    requires can { CanCompact from to (Tiny file versions.now) slot.now.files }
    requires named { to ≤ slot.now.named }
    requires room { slot.now.epoch < 2 ^ 64 - 1 }
    ensures { IfOk result (λ new. new ≡ compacted_slot from to (Tiny file versions.now) slot.now) }
{
    let block = whole(versions, alloc)?;
    let layer = compacted(slot.layer(), from, to, ColumnFile::Tiny { file, block })?;
    let segment = slot.segment().successor(layer, shared_stable(slot)?);
    let named = slot.named() - (to - from) + 1;
    let tags = copied(slot.tags(), alloc)?;
    slot_of(segment, slot.stable_number(), named, tags)
}

/// A slot in which a stable part stands for the old one and the first `taken` files.
pub fn merged_slot<G: Drop>(
    slot: &Slot<G>,
    taken: usize,
    part: Option<Part<G>>,
    alloc: Global,
) -> Result<Slot<G>, Memory>
    requires behind { IsBehind taken slot.now }
    requires room { slot.now.epoch < 2 ^ 64 - 1 }
    ensures { IfOk result (λ new. new ≡ merged_slot taken part slot.now) }
{
    let Ok(layer) = slot.layer().rest(taken) else {
        return Err(Memory);
    };
    let (number, file) = parted(part);
    let segment = slot.segment().successor(layer, file);
    let named = slot.named().saturating_sub(taken);
    let (_, later) = slot.tags().split_at(taken.saturating_sub(slot.named()));
    let tags = copied(later, alloc)?;
    slot_of(segment, number, named, tags)
}

// The slot of a new segment with the files that were gathered, of which the first are named.
fn new_slot<G: Drop>(
    id: SegId,
    range: HandleRange,
    part: Option<Part<G>>,
    named: usize,
    gathering: Gathering,
) -> Result<Slot<G>, Memory>
    ensures { IfOk result (λ slot. slot
        ≡ record {
          id = id;
          range = range;
          epoch = 0;
          files = gathering.files;
          stable = part_file part;
          stable_number = part_number part;
          named = named;
          tags = gathering.tags;
        }) }
{
    let (layer, tags) = gathering.into_parts();
    let (number, file) = parted(part);
    let Ok(segment) = Segment::new(id, range, layer, file) else {
        return Err(Memory);
    };
    slot_of(segment, number, named, tags)
}

/// The slot of a half of a split: a new segment of this number with the files of a slot from a
/// place on, clipped to its range.
pub fn half_slot<G: Drop>(
    id: SegId,
    range: HandleRange,
    part: Option<Part<G>>,
    taken: usize,
    slot: &Slot<G>,
    alloc: Global,
) -> Result<Slot<G>, Memory>
    requires { IsBehind taken slot.now }
    ensures { IfOk result (λ new. new ≡ half_slot id range part taken slot.now) }
{
    let mut gathering = Gathering::new(alloc);
    add_named(&mut gathering, range, slot, taken)?;
    let named = gathering.files();
    add_others(&mut gathering, range, slot, taken, alloc)?;
    new_slot(id, range, part, named, gathering)
}

/// The slot of a merge of two: a new segment of this number with the files of both from a place on
/// in each, clipped to the range of the slot that they come from, those that are named first.
pub fn joined_slot<G: Drop>(
    id: SegId,
    range: HandleRange,
    part: Option<Part<G>>,
    left_taken: usize,
    left: &Slot<G>,
    right_taken: usize,
    right: &Slot<G>,
    alloc: Global,
) -> Result<Slot<G>, Memory>
    requires left { IsBehind left_taken left.now }
    requires right { IsBehind right_taken right.now }
    ensures { IfOk result (λ new. new
        ≡ joined_slot id range part left_taken left.now right_taken right.now) }
{
    let mut gathering = Gathering::new(alloc);
    add_both_named(&mut gathering, left, left_taken, right, right_taken)?;
    let named = gathering.files();
    add_both_others(&mut gathering, left, left_taken, right, right_taken, alloc)?;
    new_slot(id, range, part, named, gathering)
}
