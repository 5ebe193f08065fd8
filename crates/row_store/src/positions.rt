// Which entries are applied, and where that leaves a region. A set of positions is a list that says
// of each position whether it is in the set.
ghost use Rattle.std.specs.Prelude.{◌≡◌, ◌<◌, ◌&&◌, not, length, filter, find, nat_lt, if◌then◌else◌, Some, None, IfOk, IfSome};
ghost use Rattle.std.specs.Option.{option_or};
ghost use Rattle.committed_log.specs.Applied.{positions, acts_at, left_at, has_index, place, state, next_of, applied, next, is_settled, unsettled, last};
ghost use Rattle.row_store.specs.Tests.{in_set};

use crate::Stop;
use crate::log::SmallLog;
use crate::regions::{acts_on, index_of};
use committed_log::Region;
use std::alloc::Global;

fn in_set(set: &[bool], p: usize) -> bool
    ensures { result ≡ in_set set.now p }
{
    match set.get(p) {
        Some(here) => *here,
        None => false,
    }
}

fn acts_at(log: &SmallLog<'_>, r: u32, p: usize) -> bool
    ensures { result ≡ acts_at log.now r p }
{
    match log.entries.get(p) {
        Some(entry) => acts_on(r, entry),
        None => false,
    }
}

// What the entry at a position leaves of a region.
fn left_at(alloc: Global, log: &SmallLog<'_>, r: u32, p: usize) -> Result<Region, Stop>
    requires { p < length log.now.entries }
    ensures { IfOk result (λ left. left ≡ left_at log.now r p) }
{
    if p >= log.len() {
        return Ok(Region::Unborn);
    }
    match log.at(alloc, p + 1) {
        Ok(store) => Ok(store.state(r)),
        Err(stop) => Err(stop),
    }
}

fn has_index(index: u64, state: Region) -> bool
    ensures { result ≡ has_index index state }
{
    match index_of(state) {
        None => false,
        Some(other) => other == index,
    }
}

// The first number so far, with one more.
fn first_of(before: Option<usize>, n: usize, here: bool) -> Option<usize>
    ensures { result ≡ option_or before (if here then Some n else None) }
{
    match before {
        Some(found) => Some(found),
        None => if here { Some(n) } else { None },
    }
}

// The last number so far, with one more.
fn last_of(before: Option<usize>, n: usize, here: bool) -> Option<usize>
    ensures { result ≡ (if here then Some n else before) }
{
    if here { Some(n) } else { before }
}

/// The position of a region's index: the first that gives it to the region.
pub fn place(alloc: Global, log: &SmallLog<'_>, r: u32, index: u64) -> Result<Option<usize>, Stop>
    ensures found { IfOk result (λ found. found ≡ place log.now r index) }
    ensures within { IfOk result (λ found. IfSome found (λ p. p < length log.now.entries)) }
{
    let mut found = None;
    for p in 0..log.len() {
        let left = match left_at(alloc, log, r, p) {
            Ok(left) => left,
            Err(stop) => return Err(stop),
        };
        found = first_of(found, p, has_index(index, left));
    }
    Ok(found)
}

/// The state of a region at an index.
pub fn state(alloc: Global, log: &SmallLog<'_>, r: u32, index: u64) -> Result<Region, Stop>
    ensures { IfOk result (λ there. there ≡ state log.now r index) }
{
    match place(alloc, log, r, index) {
        Ok(None) => Ok(Region::Unborn),
        Ok(Some(p)) => left_at(alloc, log, r, p),
        Err(stop) => Err(stop),
    }
}

fn acts_behind(log: &SmallLog<'_>, r: u32, p: usize, q: usize) -> bool
    ensures { result ≡ (nat_lt p q && acts_at log.now r q) }
{
    p < q && acts_at(log, r, q)
}

fn acts_in(log: &SmallLog<'_>, set: &[bool], r: u32, p: usize) -> bool
    ensures { result ≡ (in_set set.now p && acts_at log.now r p) }
{
    in_set(set, p) && acts_at(log, r, p)
}

fn acts_outside(log: &SmallLog<'_>, set: &[bool], r: u32, p: usize) -> bool
    ensures { result ≡ (not (in_set set.now p) && acts_at log.now r p) }
{
    !in_set(set, p) && acts_at(log, r, p)
}

// The first position after this one whose entry acts on a region.
fn acting_after(log: &SmallLog<'_>, r: u32, p: usize) -> Option<usize>
    ensures { result ≡ find (λ q. nat_lt p q && acts_at log.now r q) (positions log.now) }
{
    let mut found = None;
    for q in 0..log.len() {
        found = first_of(found, q, acts_behind(log, r, p, q));
    }
    found
}

/// The position of the next entry that acts on a region, after the one that gives it an index.
pub fn next_of(alloc: Global, log: &SmallLog<'_>, r: u32, index: u64) -> Result<Option<usize>, Stop>
    ensures { IfOk result (λ found. found ≡ next_of log.now r index) }
{
    match place(alloc, log, r, index) {
        Ok(None) => Ok(None),
        Ok(Some(p)) => Ok(acting_after(log, r, p)),
        Err(stop) => Err(stop),
    }
}

// The last position in the set whose entry acts on a region.
fn last_acting(log: &SmallLog<'_>, set: &[bool], r: u32) -> Option<usize>
    ensures last { result ≡ last (filter (λ p. in_set set.now p && acts_at log.now r p) (positions log.now)) }
    ensures within { IfSome result (λ p. p < length log.now.entries) }
{
    let mut found = None;
    for p in 0..log.len() {
        found = last_of(found, p, acts_in(log, set, r, p));
    }
    found
}

/// What the applied entries leave of a region.
pub fn applied(alloc: Global, log: &SmallLog<'_>, set: &[bool], r: u32) -> Result<Region, Stop>
    ensures { IfOk result (λ there. there ≡ applied log.now (in_set set.now) r) }
{
    match last_acting(log, set, r) {
        None => Ok(Region::Unborn),
        Some(p) => left_at(alloc, log, r, p),
    }
}

/// The position of the next entry that acts on a region and isn't applied.
pub fn next(log: &SmallLog<'_>, set: &[bool], r: u32) -> Option<usize>
    ensures { result ≡ next log.now (in_set set.now) r }
{
    let mut found = None;
    for p in 0..log.len() {
        found = first_of(found, p, acts_outside(log, set, r, p));
    }
    found
}

fn unsettled(next: Option<usize>, mark: usize) -> bool
    ensures { result ≡ unsettled next mark }
{
    match next {
        None => false,
        Some(p) => p < mark,
    }
}

/// Whether nothing below the mark is left to apply to a region.
pub fn is_settled(log: &SmallLog<'_>, set: &[bool], mark: usize, r: u32) -> bool
    ensures { result ≡ is_settled log.now (in_set set.now) mark r }
{
    !unsettled(next(log, set, r), mark)
}
