// The positions of the next entries of regions, as admission notes them.
ghost use Rattle.std.specs.Prelude.{◌≡◌, ◌==◌, ◌||◌, ◌∷◌, ℕ, [], false, OnErr, OnOk, IfSome, Some, None, cond, nat_eq, option_map};
ghost use Rattle.std.specs.HashMap.{get};
ghost use Rattle.committed_log.specs.Nexts.{index_there, next_in, next_at, longer_by, shorter, put_next, drop_next, IsBack};
ghost use Rattle.committed_log.specs.Regions.{region, acts_on, also_acted};

use crate::admit_head::{Regions, region_of};
use crate::region::Region;
use flash_types::RegionId;
use log_codec::{Body, Entry};
use std::alloc::{AllocError, Global};
use std::collections::HashMap;
use std::marker::Model;

/// The positions of a region's entries: that of the next one after its index `first`, that of the
/// one after it, and so on. A region's index rises by one with each entry.
#[derive(Drop)]
pub struct RegionNexts {
    first: u64,
    positions: Vec<u64>,
}

impl Model for RegionNexts {
    ghost use Rattle.committed_log.specs.Nexts.{Successors};

    ghost Value = { Successors };

    ghost view = { λ it. record { first = it.first; positions = it.positions.items } };
}

/// The positions by region.
pub type Nexts = HashMap<RegionId, RegionNexts>;

fn index_of_there(region: Region) -> Option<u64>
    ensures { result ≡ index_there region }
{
    match region {
        Region::Live(there) => Some(there.index),
        Region::Prepared(there, _) => Some(there.index),
        Region::Unborn => None,
        Region::Gone(_) => None,
    }
}

fn other_acted(body: &Body) -> Option<RegionId>
    ensures { also_acted body.now ≡ elim result [ None ↦ [] | Some r ↦ r ∷ [] ] }
{
    match body {
        Body::Split { child, .. } => Some(*child),
        Body::Commit { source } => Some(*source),
        _ => None,
    }
}

impl RegionNexts {
    fn next(&self, index: u64) -> Option<u64>
        ensures { result ≡ next_in self.now index }
    {
        if index < self.first {
            return None;
        }
        self.positions.get((index - self.first) as usize).copied()
    }

    fn push(&mut self, position: u64) -> Result<(), AllocError>
        ensures ok { OnOk result ((i : ℕ) → self.new ≡ longer_by i position (Some self.old)) }
        ensures err { OnErr result (self.new ≡ self.old) }
    {
        match self.positions.push(position) {
            Ok(()) => Ok(()),
            Err(_) => Err(AllocError),
        }
    }

    fn pop(&mut self)
        ensures { self.new ≡ shorter self.old }
    {
        let _ = self.positions.pop();
    }
}

/// The position of the next entry of a region after an index. It takes constant time.
pub fn find_next(nexts: &Nexts, id: RegionId, index: u64) -> Option<u64>
    ensures { result ≡ next_at (get nat_eq nexts.now id) index }
{
    match nexts.get(&id) {
        Some(there) => there.next(index),
        None => None,
    }
}

// Begins the list of a region that has none.
fn begin_next(
    alloc: Global,
    nexts: &mut Nexts,
    id: RegionId,
    index: u64,
    position: u64,
) -> Result<(), AllocError>
    ensures ok { OnOk result ((r : ℕ) → get nat_eq nexts.new r ≡ cond (nat_eq id r) (Some (longer_by index position None)) (get nat_eq nexts.old r)) }
    ensures err { OnErr result ((r : ℕ) → get nat_eq nexts.new r ≡ get nat_eq nexts.old r) }
{
    let mut positions = Vec::new(alloc);
    if positions.push(position).is_err() {
        return Err(AllocError);
    }
    let begun = RegionNexts {
        first: index,
        positions,
    };
    match nexts.insert(id, begun) {
        Ok(_) => Ok(()),
        Err(_) => Err(AllocError),
    }
}

fn add_next(
    alloc: Global,
    nexts: &mut Nexts,
    id: RegionId,
    index: u64,
    position: u64,
) -> Result<(), AllocError>
    ensures ok { OnOk result ((r : ℕ) → get nat_eq nexts.new r ≡ cond (nat_eq id r) (Some (longer_by index position (get nat_eq nexts.old r))) (get nat_eq nexts.old r)) }
    ensures err { OnErr result ((r : ℕ) → get nat_eq nexts.new r ≡ get nat_eq nexts.old r) }
{
    match nexts.get_mut(&id) {
        Some(there) => match there.push(position) {
            Ok(()) => Ok(()),
            Err(_) => Err(AllocError),
        },
        None => begin_next(alloc, nexts, id, index, position),
    }
}

fn take_next(nexts: &mut Nexts, id: RegionId)
    ensures { (r : ℕ) → get nat_eq nexts.new r ≡ cond (nat_eq id r) (option_map shorter (get nat_eq nexts.old r)) (get nat_eq nexts.old r) }
{
    if let Some(there) = nexts.get_mut(&id) {
        there.pop();
    }
}

// Notes a position as the next one of a region that is there.
fn note_one(
    alloc: Global,
    nexts: &mut Nexts,
    regions: &Regions,
    id: RegionId,
    position: u64,
) -> Result<(), AllocError>
    ensures ok { OnOk result ((r : ℕ) → get nat_eq nexts.new r ≡ cond (nat_eq id r) (put_next (region regions.now.entries r) position (get nat_eq nexts.old r)) (get nat_eq nexts.old r)) }
    ensures err { OnErr result ((r : ℕ) → get nat_eq nexts.new r ≡ get nat_eq nexts.old r) }
{
    match index_of_there(region_of(regions, id)) {
        Some(index) => add_next(alloc, nexts, id, index, position),
        None => Ok(()),
    }
}

// Takes out what was noted of a region that is there.
fn forget_one(nexts: &mut Nexts, regions: &Regions, id: RegionId)
    ensures { (r : ℕ) → get nat_eq nexts.new r ≡ cond (nat_eq id r) (drop_next (region regions.now.entries r) (get nat_eq nexts.old r)) (get nat_eq nexts.old r) }
{
    match index_of_there(region_of(regions, id)) {
        Some(_) => take_next(nexts, id),
        None => {}
    }
}

// The other region that an entry acts on, where it names another.
fn other_region(entry: &Entry) -> Option<RegionId>
    ensures acts { (r : ℕ) → acts_on r entry.now ≡ (entry.now.region == r || elim result [ None ↦ false | Some other ↦ other == r ]) }
    ensures apart { IfSome result (λ other. (other == entry.now.region) ≡ false) }
{
    match other_acted(&entry.body) {
        Some(other) => {
            if other == entry.region {
                None
            } else {
                Some(other)
            }
        }
        None => None,
    }
}

/// Notes the position of an entry, which comes after these regions, as the next one of each region
/// that it acts on. For want of memory nothing is noted.
pub fn note(
    alloc: Global,
    nexts: &mut Nexts,
    regions: &Regions,
    entry: &Entry,
    position: u64,
) -> Result<(), AllocError>
    ensures ok { OnOk result ((r : ℕ) → get nat_eq nexts.new r ≡ cond (acts_on r entry.now) (put_next (region regions.now.entries r) position (get nat_eq nexts.old r)) (get nat_eq nexts.old r)) }
    ensures err { OnErr result ((r : ℕ) → IsBack (region regions.now.entries r) position (get nat_eq nexts.old r) (get nat_eq nexts.new r)) }
{
    if let Err(_) = note_one(alloc, nexts, regions, entry.region, position) {
        return Err(AllocError);
    }
    match other_region(entry) {
        None => Ok(()),
        Some(other) => match note_one(alloc, nexts, regions, other, position) {
            Ok(()) => Ok(()),
            Err(_) => {
                forget_one(nexts, regions, entry.region);
                Err(AllocError)
            }
        },
    }
}

/// Takes out what was noted of an entry.
pub fn forget(nexts: &mut Nexts, regions: &Regions, entry: &Entry)
    ensures { (r : ℕ) → get nat_eq nexts.new r ≡ cond (acts_on r entry.now) (drop_next (region regions.now.entries r) (get nat_eq nexts.old r)) (get nat_eq nexts.old r) }
{
    forget_one(nexts, regions, entry.region);
    match other_region(entry) {
        None => {}
        Some(other) => forget_one(nexts, regions, other),
    }
}
