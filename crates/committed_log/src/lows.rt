// The low ends of the regions that are there: whose a handle is.
ghost use Rattle.std.specs.Prelude.{◌≡◌, ℕ, ℤ, true, false, IsSome, IsNone, IfSome, OnErr, OnOk, IfOk, None, Some, int_le, int_lt, cond};
ghost use Rattle.std.specs.Ordering.{int_cmp, int_eq};
ghost use Rattle.std.specs.BTreeMap.{get, values};
ghost use Rattle.flash_types.specs.Ranges.{is_below};
ghost use Rattle.committed_log.specs.Admission.{least_taken};
ghost use Rattle.committed_log.specs.Laws.{owned, owns};
ghost use Rattle.committed_log.specs.Lows.{AreLows, AreParted, IsLastBelow, IsFirstAbove, StoodAt, IsPut, merging, put_low_of, put_region_of, ended_low_of, with_at};

use crate::admit_head::{Regions, ends_at_handle, is_below_end, range_of_region, region_of};
use crate::admit_regions::joined;
use crate::region::Region;
use flash_types::{Handle, HandleRange, RegionId};
use log_codec::{Body, Entry};
use std::alloc::AllocError;
use std::collections::BTreeMap;
use std::ops::Bound;

/// The regions that are there by the low ends of their ranges.
pub type Lows = BTreeMap<Handle, RegionId>;

// The last low end that isn't above a handle, and the region that begins there.
fn at_or_below(lows: &Lows, handle: Handle) -> Option<(Handle, RegionId)>
    ensures none { IsNone result → (h : ℤ) → int_le h handle ≡ true → get int_cmp lows.now h ≡ None }
    ensures some { IfSome result (λ x. IsLastBelow (get int_cmp lows.now) handle x.0 x.1) }
{
    match lows.range(..=handle).next_back() {
        Some((low, id)) => Some((*low, *id)),
        None => None,
    }
}

// The first low end above a handle.
fn above(lows: &Lows, handle: Handle) -> Option<Handle>
    ensures none { IsNone result → (h : ℤ) → int_lt handle h ≡ true → get int_cmp lows.now h ≡ None }
    ensures some { IfSome result (λ low. IsFirstAbove (get int_cmp lows.now) handle low) }
{
    match lows
        .range((Bound::Excluded(handle), Bound::Unbounded))
        .next()
    {
        Some((low, _)) => Some(*low),
        None => None,
    }
}

// The region that has a handle: no other than the last that begins at it or below it.
fn owner(regions: &Regions, lows: &Lows, handle: Handle) -> Option<RegionId>
    requires parted { AreParted regions.now.entries }
    requires lows { AreLows (get int_cmp lows.now) regions.now.entries }
    ensures some { IfSome result (λ r. owns regions.now.entries r handle ≡ true) }
    ensures none { IsNone result → (r : ℕ) → owns regions.now.entries r handle ≡ false }
{
    let (_, id) = at_or_below(lows, handle)?;
    if owns(region_of(regions, id), handle) {
        Some(id)
    } else {
        None
    }
}

fn owns(region: Region, handle: Handle) -> bool
    ensures { result ≡ owned region handle }
{
    match range_of_region(region) {
        Some(range) => range.holds(handle),
        None => false,
    }
}

/// The least handle of a range, which isn't empty, that a region has. It looks at the last region
/// that begins at the range's low end or below it, and at the first that begins above it.
pub fn find_least_taken(regions: &Regions, lows: &Lows, range: HandleRange) -> Option<Handle>
    requires filled { is_below range.low range.high ≡ true }
    requires parted { AreParted regions.now.entries }
    requires lows { AreLows (get int_cmp lows.now) regions.now.entries }
    ensures { result ≡ least_taken range (values regions.now) }
{
    if let Some(_) = owner(regions, lows, range.low) {
        return Some(range.low);
    }
    match above(lows, range.low) {
        Some(low) => {
            if is_below_end(low, range.high) {
                Some(low)
            } else {
                None
            }
        }
        None => None,
    }
}

/// What an entry does to the low ends: at one it puts a region, and at one no region begins any
/// more.
#[derive(Clone, Copy)]
pub struct LowMoves {
    pub put: Option<Handle>,
    pub region: RegionId,
    pub ended: Option<Handle>,
}

fn merging(regions: &Regions, id: RegionId, source: RegionId) -> Option<(HandleRange, HandleRange)>
    ensures { result ≡ merging regions.now.entries id source }
{
    let into = range_of_region(region_of(regions, id))?;
    let from = range_of_region(region_of(regions, source))?;
    Some((into, from))
}

fn put_low(regions: &Regions, id: RegionId, body: &Body) -> Option<Handle>
    ensures { result ≡ put_low_of regions.now.entries id body.now }
{
    match body {
        Body::Open { low, .. } => Some(*low),
        Body::Install { low, .. } => Some(*low),
        Body::Split { at, .. } => Some(*at),
        Body::Commit { source } => match merging(regions, id, *source) {
            Some((into, from)) => Some(joined(into, from).low),
            None => None,
        },
        _ => None,
    }
}

fn put_region(id: RegionId, body: &Body) -> RegionId
    ensures { result ≡ put_region_of id body.now }
{
    match body {
        Body::Split { child, .. } => *child,
        _ => id,
    }
}

fn ended_low(regions: &Regions, id: RegionId, body: &Body) -> Option<Handle>
    ensures { result ≡ ended_low_of regions.now.entries id body.now }
{
    match body {
        Body::Commit { source } => match merging(regions, id, *source) {
            Some((into, from)) => {
                if ends_at_handle(into, from.low) {
                    Some(from.low)
                } else {
                    Some(into.low)
                }
            }
            None => None,
        },
        Body::Remove => match range_of_region(region_of(regions, id)) {
            Some(range) => Some(range.low),
            None => None,
        },
        _ => None,
    }
}

/// What an entry that comes after these regions does to the low ends.
pub fn low_moves(regions: &Regions, entry: &Entry) -> LowMoves
    ensures put { result.put ≡ put_low_of regions.now.entries entry.now.region entry.now.body }
    ensures region { result.region ≡ put_region_of entry.now.region entry.now.body }
    ensures ended { result.ended ≡ ended_low_of regions.now.entries entry.now.region entry.now.body }
{
    LowMoves {
        put: put_low(regions, entry.region, &entry.body),
        region: put_region(entry.region, &entry.body),
        ended: ended_low(regions, entry.region, &entry.body),
    }
}

// Puts a region at a low end, and answers what stood there.
fn set_low(lows: &mut Lows, low: Handle, id: RegionId) -> Result<Option<RegionId>, AllocError>
    ensures ok { OnOk result ((h : ℤ) → get int_cmp lows.new h ≡ cond (int_eq low h) (Some id) (get int_cmp lows.old h)) }
    ensures before { IfOk result (λ before. before ≡ get int_cmp lows.old low) }
    ensures err { OnErr result ((h : ℤ) → get int_cmp lows.new h ≡ get int_cmp lows.old h) }
    ensures absent { OnErr result (get int_cmp lows.old low ≡ None) }
{
    match lows.insert(low, id) {
        Ok(before) => Ok(before),
        Err(_) => Err(AllocError),
    }
}

fn take_low(lows: &mut Lows, low: Handle)
    ensures { (h : ℤ) → get int_cmp lows.new h ≡ cond (int_eq low h) None (get int_cmp lows.old h) }
{
    let _ = lows.remove(&low);
}

/// Puts the region at its low end, where there is one, and answers what stood there.
pub fn put_moved(lows: &mut Lows, moves: LowMoves) -> Result<Option<RegionId>, AllocError>
    ensures ok { OnOk result ((h : ℤ) → get int_cmp lows.new h ≡ with_at moves.put (Some moves.region) (get int_cmp lows.old) h) }
    ensures before { IfOk result (λ before. StoodAt moves.put (get int_cmp lows.old) before) }
    ensures err { OnErr result ((h : ℤ) → get int_cmp lows.new h ≡ get int_cmp lows.old h) }
{
    match moves.put {
        Some(low) => set_low(lows, low, moves.region),
        None => Ok(None),
    }
}

/// Takes out the low end at which no region begins any more.
pub fn end_moved(lows: &mut Lows, moves: LowMoves)
    ensures { (h : ℤ) → get int_cmp lows.new h ≡ with_at moves.ended None (get int_cmp lows.old) h }
{
    if let Some(low) = moves.ended {
        take_low(lows, low);
    }
}

/// Puts back what stood where a region was put.
pub fn put_back(lows: &mut Lows, moves: LowMoves, before: Option<RegionId>)
    requires { IsPut moves.put (get int_cmp lows.old) }
    ensures { (h : ℤ) → get int_cmp lows.new h ≡ with_at moves.put before (get int_cmp lows.old) h }
{
    let Some(low) = moves.put else {
        return;
    };
    match before {
        Some(id) => reset_low(lows, low, id),
        None => take_low(lows, low),
    }
}

// Puts another region at a low end.
fn reset_low(lows: &mut Lows, low: Handle, id: RegionId)
    requires { IsSome (get int_cmp lows.old low) }
    ensures { (h : ℤ) → get int_cmp lows.new h ≡ cond (int_eq low h) (Some id) (get int_cmp lows.old h) }
{
    match set_low(lows, low, id) {
        Ok(_) => {}
        Err(_) => unreachable!(),
    }
}
