//! The garbage collection of versions: of a sorted block it leaves out what no read from the safe
//! point on can tell from nothing. A collection goes by row, as TiFlash's does: what is above the
//! safe point stays, and of the rest the newest, unless it is a delete that has nothing to hide.
#![tactic(auto)]

ghost use Rattle.std.specs.Prelude.{◌≡◌, ◌<◌, ◌≤◌, ◌+◌, ◌++◌, ◌∷◌, [], ℕ, ℤ, List, Some, IfOk, OnOk, length, map, drop, slice_get, if◌then◌else◌};
ghost use Rattle.std.specs.Ordering.{int_eq};
ghost use Rattle.column_block.specs.declared.cell.Version.{Version};
ghost use Rattle.version_gc.specs.Keep.{keep};
ghost use Rattle.column_block.specs.Order.{Rise};
ghost use Rattle.version_gc.specs.Rows.{OneRowIsCollected};
ghost use Rattle.version_gc.specs.Shown.{shown};

use column_block::{Block, Memory, Version};
use flash_types::Ts;
use std::alloc::Global;

/// The versions of a block that a collection at the safe point keeps: of each handle those above
/// the safe point, and the newest at or below it where it is a put or newer ones are kept beside
/// it. It is meant for a sorted block with each pair of handle and timestamp once, of which the
/// laws below speak. The result shares the versions with the block, and the time is in proportion
/// to the block's length.
pub fn keep(alloc: Global, block: &Block, safe_point: Ts) -> Result<Block, Memory>
    ensures kept { IfOk result (λ kept. kept ≡ keep safe_point block.now) }
{
    let mut places = Vec::new(alloc);
    for i in 0..block.len() {
        if is_kept_at(block, i, safe_point) {
            add_place(&mut places, i as u64)?;
        }
    }
    block.permuted(&places)
}

// Whether a collection keeps the version at a place.
fn is_kept_at(block: &Block, i: usize, safe_point: Ts) -> bool
    requires within { i < length block.now }
    ensures { map Some (keep safe_point (drop i block.now)) ≡ (if result then slice_get block.now i ∷ [] else []) ++ map Some (keep safe_point (drop (i + 1) block.now)) }
{
    let version = block.at(i);
    if safe_point < version.ts {
        return true;
    }
    if i < block.len() - 1 {
        let next = block.at(i + 1);
        if have_one_handle(version, next) {
            return safe_point < next.ts;
        }
    }
    !version.gone
}

fn have_one_handle(version: &Version, next: &Version) -> bool
    ensures { result ≡ int_eq next.now.handle version.now.handle }
{
    next.handle == version.handle
}

fn add_place(places: &mut Vec<u64>, place: u64) -> Result<(), Memory>
    ensures { OnOk result (places.new.items ≡ places.old.items ++ place ∷ []) }
{
    match places.push(place) {
        Ok(()) => Ok(()),
        Err(_) => Err(Memory),
    }
}

/// At every timestamp that isn't below the safe point, a read of what is kept shows of each handle
/// what a read of the whole block shows.
pub fn collections_show_the_same()
    ensures { (safe ts : ℕ) (h : ℤ) (versions : List Version) → Rise versions → safe ≤ ts → shown ts h (keep safe versions) ≡ shown ts h versions }
{}

/// What is kept is sorted, with each pair of handle and timestamp once.
pub fn kept_versions_rise()
    ensures { (safe : ℕ) (versions : List Version) → Rise versions → Rise (keep safe versions) }
{}

/// Three rows, as they are collected at 100: puts at 50 and 80 leave the one at 80; a put at 50 and
/// a delete at 80 leave nothing; with a put at 120 above them the delete and that put stay.
pub fn one_row_is_collected()
    ensures { OneRowIsCollected }
{}

#[cfg(test)]
mod tests;
