// Slots that stand side by side over a range of handles: finding one, and adding to all of them what
// an entry says. Each call halves the slots, so that it looks only at those that are met.
ghost use Rattle.std.specs.Prelude.{◌≡◌, ◌<◌, ◌++◌, ℕ, List, map, length, position, take, drop, OnOk, OnErr};
ghost use Rattle.flash_types.specs.Ranges.{holds};
ghost use Rattle.segment_list.specs.Lists.{Cover, says_of};
ghost use Rattle.segment_list.specs.Slots.{Slotted, absorbed, key_of};

use crate::Memory;
use crate::clip::{adds_to, cleared_in, kept};
use crate::slot::Slot;
use column_block::Block;
use flash_types::{Handle, HandleRange};
use std::alloc::Global;

// Whether an entry says anything of a range.
fn says(range: HandleRange, clears: Option<HandleRange>, adds: &Block) -> bool
    ensures { result ≡ says_of range clears adds.now }
{
    cleared_in(range, clears).is_some() || adds_to(range, adds)
}

/// Adds to each of the slots what an entry says of its handles. The block is parted among the halves
/// that have rows of it, and shared where one half has them all. After `Err` each slot is as before.
#[cycle(within)]
pub fn absorb_within<G: Drop>(
    slots: &mut [Slot<G>],
    range: HandleRange,
    clears: Option<HandleRange>,
    adds: &Block,
    tag: u64,
    alloc: Global,
) -> Result<(), Memory>
    requires { Cover range slots.old }
    ensures ok { OnOk result (slots.new ≡ map (absorbed tag clears adds.now) slots.old) }
    ensures err { OnErr result (slots.new ≡ slots.old) }
{
    if !says(range, clears, adds) {
        return Ok(());
    }
    let middle = slots.len() / 2;
    if middle == 0 {
        return slots[0].absorb(clears, adds, tag);
    }
    let at = slots[middle].low();
    let lower = range.below(at);
    let upper = range.starting_at(at);
    if !adds_to(upper, adds) {
        let none = Block::new(alloc);
        return absorb_halves(slots, middle, lower, adds, upper, &none, clears, tag, alloc);
    }
    if !adds_to(lower, adds) {
        let none = Block::new(alloc);
        return absorb_halves(slots, middle, lower, &none, upper, adds, clears, tag, alloc);
    }
    let low = kept(lower, adds)?;
    let high = kept(upper, adds)?;
    absorb_halves(slots, middle, lower, &low, upper, &high, clears, tag, alloc)
}

// The same, with the versions of the slots before the middle and of the others.
#[cycle(within)]
fn absorb_halves<G: Drop>(
    slots: &mut [Slot<G>],
    middle: usize,
    lower: HandleRange,
    low: &Block,
    upper: HandleRange,
    high: &Block,
    clears: Option<HandleRange>,
    tag: u64,
    alloc: Global,
) -> Result<(), Memory>
    requires some { 0 < middle }
    requires within { middle < length slots.old }
    requires lower { Cover lower (take middle slots.old) }
    requires upper { Cover upper (drop middle slots.old) }
    ensures ok { OnOk result (slots.new ≡ map (absorbed tag clears low.now) (take middle slots.old) ++ map (absorbed tag clears high.now) (drop middle slots.old)) }
    ensures err { OnErr result (slots.new ≡ slots.old) }
{
    let (left, right) = slots.split_at_mut(middle);
    absorb_within(left, lower, clears, low, tag, alloc)?;
    if absorb_within(right, upper, clears, high, tag, alloc).is_err() {
        take_back_within(left, lower, clears, low);
        return Err(Memory);
    }
    Ok(())
}

/// Takes off again what an entry added to the slots. It takes no memory.
pub fn take_back_within<G: Drop>(
    slots: &mut [Slot<G>],
    range: HandleRange,
    clears: Option<HandleRange>,
    adds: &Block,
)
    requires { Cover range slots.old }
    ensures keys { map key_of slots.new ≡ map key_of slots.old }
    ensures back { (before : List (Slotted G)) (tag : ℕ) → slots.old ≡ map (absorbed tag clears adds.now) before → slots.new ≡ before }
{
    if !says(range, clears, adds) {
        return;
    }
    let middle = slots.len() / 2;
    if middle == 0 {
        slots[0].take_back(clears, adds);
        return;
    }
    let at = slots[middle].low();
    let (left, right) = slots.split_at_mut(middle);
    take_back_within(left, range.below(at), clears, adds);
    take_back_within(right, range.starting_at(at), clears, adds);
}

/// The place of the slot that holds the handle; none where the range doesn't hold it.
pub fn place_within<G: Drop>(slots: &[Slot<G>], range: HandleRange, handle: Handle) -> Option<usize>
    requires { Cover range slots.now }
    ensures { result ≡ position (λ s. holds s.range handle) slots.now }
{
    let middle = slots.len() / 2;
    if middle == 0 {
        return if slots[0].range().holds(handle) {
            Some(0)
        } else {
            None
        };
    }
    let at = slots[middle].low();
    let (left, right) = slots.split_at(middle);
    if handle < at {
        return place_within(left, range.below(at), handle);
    }
    match place_within(right, range.starting_at(at), handle) {
        None => None,
        Some(place) => Some(middle + place),
    }
}
