// Stable versions and newer ones, in one order. The versions stand in one block: the stable ones, and
// the newer ones behind them.
ghost use Rattle.std.specs.Prelude.{◌≡◌, ◌<◌, ◌≤◌, ◌+◌, ◌∷◌, ◌++◌, ◌&&◌, not, [], length, take, drop, filter, slice_get, slice_range, if◌then◌else◌, Some, IfOk, OnOk, IsTrue};
ghost use Rattle.column_block.specs.declared.cell.Version.{Version};
ghost use Rattle.delta_layer.specs.Overlay as overlay;
ghost use Rattle.flash_types.specs.Ranges.{holds};
ghost use Rattle.delta_layer.specs.Overlay.{count_before, own, picked, reached, stays, AreByLow, ArePlaces};
ghost use Rattle.column_block.specs.Order.{rises};

use crate::Memory;
use crate::sweep::{is_reached, swept};
use column_block::{Block, Version, is_before};
use flash_types::HandleRange;
use std::alloc::Global;

// The places of the first `count` versions, the stable ones, that count.
pub fn kept(
    alloc: Global,
    all: &Block,
    count: usize,
    range: HandleRange,
    ranges: &[HandleRange],
) -> Result<Vec<u64>, Memory>
    requires within { count ≤ length all.now }
    requires rising { IsTrue (rises (take count all.now)) }
    requires order { AreByLow ranges.now }
    ensures picked { IfOk result (λ places. picked all.now places.items ≡ filter (stays range ranges.now) (take count all.now)) }
    ensures places { IfOk result (λ places. ArePlaces all.now places.items) }
{
    let mut places = Vec::new(alloc);
    let mut rest = ranges;
    let mut reach = None;
    for i in 0..count {
        let version = all.at(i);
        let (others, end) = swept(rest, reach, version);
        add_if(&mut places, i, counts(range, end, version))?;
        rest = others;
        reach = end;
    }
    Ok(places)
}

// Whether a version's handle is in the range, and isn't reached.
fn counts(range: HandleRange, reach: Option<Option<i64>>, version: &Version) -> bool
    ensures { result ≡ (holds range version.now.handle && not (reached reach version.now.handle)) }
{
    range.holds(version.handle) && !is_reached(reach, version)
}

// Adds a place, where it counts.
fn add_if(places: &mut Vec<u64>, place: usize, counts: bool) -> Result<(), Memory>
    ensures { OnOk result (places.new.items ≡ (if counts then places.old.items ++ place ∷ [] else places.old.items)) }
{
    if counts {
        return add_place(places, place);
    }
    Ok(())
}

fn add_place(places: &mut Vec<u64>, place: usize) -> Result<(), Memory>
    ensures { OnOk result (places.new.items ≡ places.old.items ++ place ∷ []) }
{
    match places.push(place as u64) {
        Ok(()) => Ok(()),
        Err(_) => Err(Memory),
    }
}

// The places of both in one order: of the versions at the places `olds`, and of those from place
// `start` on.
pub fn merged(alloc: Global, all: &Block, olds: &[u64], start: usize) -> Result<Vec<u64>, Memory>
    requires start { start ≤ length all.now }
    requires olds { ArePlaces all.now olds.now }
    ensures picked { IfOk result (λ places. picked all.now places.items ≡ overlay.merged (picked all.now olds.now) (drop start all.now)) }
    ensures places { IfOk result (λ places. ArePlaces all.now places.items) }
{
    let mut places = Vec::new(alloc);
    let mut k = start;
    for old in olds {
        k = add_both(all, *old, k, &mut places)?;
    }
    add_run(all, k, all.len(), &mut places)?;
    Ok(places)
}

// Adds the newer versions from place `from` on that stand before an old one, and this where no newer
// one takes its place. It answers the place of the next newer version.
fn add_both(all: &Block, old: u64, from: usize, places: &mut Vec<u64>) -> Result<usize, Memory>
    requires from { from ≤ length all.now }
    requires old { old < length all.now }
    ensures next { IfOk result (λ to. (version : Version) → slice_get all.now old ≡ Some version → to ≡ from + count_before version (drop from all.now)) }
    ensures within { IfOk result (λ to. to ≤ length all.now) }
    ensures picked { IfOk result (λ to. (version : Version) → slice_get all.now old ≡ Some version → picked all.now places.new.items ≡ picked all.now places.old.items ++ (slice_range all.now from to ++ own version (drop to all.now))) }
    ensures places { OnOk result (ArePlaces all.now places.old.items → ArePlaces all.now places.new.items) }
{
    let version = all.at(old as usize);
    let to = end_before(all, from, version);
    add_run(all, from, to, places)?;
    add_if(places, old as usize, is_own(all, to, version))?;
    Ok(to)
}

// The place of the first version from place `from` on that doesn't stand before this one.
fn end_before(all: &Block, from: usize, version: &Version) -> usize
    requires { from ≤ length all.now }
    ensures place { result ≡ from + count_before version.now (drop from all.now) }
    ensures within { result ≤ length all.now }
{
    for to in from..all.len() {
        if !is_before(all.at(to), version) {
            return to;
        }
    }
    all.len()
}

// Whether no newer version, of which the first is at place `to`, takes this one's place.
fn is_own(all: &Block, to: usize, version: &Version) -> bool
    requires { to ≤ length all.now }
    ensures { own version.now (drop to all.now) ≡ (if result then version.now ∷ [] else []) }
{
    if to == all.len() {
        return true;
    }
    is_before(version, all.at(to))
}

// Adds the places from..to.
fn add_run(all: &Block, from: usize, to: usize, places: &mut Vec<u64>) -> Result<(), Memory>
    requires order { from ≤ to }
    requires within { to ≤ length all.now }
    ensures picked { OnOk result (picked all.now places.new.items ≡ picked all.now places.old.items ++ slice_range all.now from to) }
    ensures places { OnOk result (ArePlaces all.now places.old.items → ArePlaces all.now places.new.items) }
{
    for place in from..to {
        add_place(places, place)?;
    }
    Ok(())
}
