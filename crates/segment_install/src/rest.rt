// What came to a slot since a view of it, clipped.
ghost use Rattle.std.specs.Prelude.{◌≡◌, ◌+◌, ◌-◌, ◌++◌, OnOk};
ghost use Rattle.segment_list.specs.Slots.{clip_files, clip_pairs, with_pairs};
ghost use Rattle.segment_install.specs.Slots.{IsBehind, rest_of};

use crate::Memory;
use flash_types::HandleRange;
use segment_list::{Gathering, Slot};
use std::alloc::Global;

// The greater of two numbers.
fn greater(a: usize, b: usize) -> usize
    ensures { result ≡ a + (b - a) }
{
    if a < b { b } else { a }
}

/// Adds those of the files from a place on that are named.
pub fn add_named<G: Drop>(
    gathering: &mut Gathering,
    range: HandleRange,
    slot: &Slot<G>,
    taken: usize,
) -> Result<(), Memory>
    requires { IsBehind taken slot.now }
    ensures { OnOk result (gathering.new
        ≡ record gathering.old {
          files = gathering.old.files
              ++ clip_files range (rest_of taken slot.now).named;
        }) }
{
    let end = greater(taken, slot.named());
    match gathering.add_named(range, slot.layer(), taken, end) {
        Ok(()) => Ok(()),
        Err(_) => Err(Memory),
    }
}

/// Adds the others, with their tags.
pub fn add_others<G: Drop>(
    gathering: &mut Gathering,
    range: HandleRange,
    slot: &Slot<G>,
    taken: usize,
    alloc: Global,
) -> Result<(), Memory>
    requires { IsBehind taken slot.now }
    ensures { OnOk result (gathering.new
        ≡ with_pairs gathering.old (clip_pairs range (rest_of taken slot.now).others)) }
{
    let from = greater(taken, slot.named());
    let first = taken.saturating_sub(slot.named());
    let (_, tags) = slot.tags().split_at(first);
    match gathering.add(range, slot.layer(), from, tags, alloc) {
        Ok(()) => Ok(()),
        Err(_) => Err(Memory),
    }
}

/// Adds those of two slots that are named, each kept to its own slot's range.
pub fn add_both_named<G: Drop>(
    gathering: &mut Gathering,
    left: &Slot<G>,
    left_taken: usize,
    right: &Slot<G>,
    right_taken: usize,
) -> Result<(), Memory>
    requires left { IsBehind left_taken left.now }
    requires right { IsBehind right_taken right.now }
    ensures { OnOk result (gathering.new
        ≡ record gathering.old {
          files = gathering.old.files
              ++ (clip_files left.now.range (rest_of left_taken left.now).named
              ++ clip_files right.now.range (rest_of right_taken right.now).named);
        }) }
{
    add_named(gathering, left.range(), left, left_taken)?;
    add_named(gathering, right.range(), right, right_taken)
}

/// Adds the others of two slots, each kept to its own slot's range, with their tags.
pub fn add_both_others<G: Drop>(
    gathering: &mut Gathering,
    left: &Slot<G>,
    left_taken: usize,
    right: &Slot<G>,
    right_taken: usize,
    alloc: Global,
) -> Result<(), Memory>
    requires left { IsBehind left_taken left.now }
    requires right { IsBehind right_taken right.now }
    ensures { OnOk result (gathering.new
        ≡ with_pairs gathering.old (clip_pairs left.now.range
        (rest_of left_taken left.now).others
        ++ clip_pairs right.now.range (rest_of right_taken right.now).others)) }
{
    add_others(gathering, left.range(), left, left_taken, alloc)?;
    add_others(gathering, right.range(), right, right_taken, alloc)
}
