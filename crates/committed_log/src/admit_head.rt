// The checks of an entry that need no op.
ghost use Rattle.std.specs.Prelude.{◌≡◌, ◌<◌, ◌-◌, ◌^◌, Some, unwrap_or, if◌then◌else◌};
ghost use Rattle.std.specs.BTreeMap.{get};
ghost use Rattle.std.specs.Ordering.{int_cmp};
ghost use Rattle.flash_types.specs.Ranges.{is_below};
ghost use Rattle.committed_log.specs.Admission.{head_fault, own_fault, other_fault, index_fault, range_fault, birth_fault, merge_fault, split_fault, unless, is_live, is_unborn, is_prepared_for, state_of, touch};
ghost use Rattle.committed_log.specs.Lows.{AreLows, AreParted};
ghost use Rattle.committed_log.specs.Regions.{region, range_of, index_of, ends_at, makes_region};
ghost use Rattle.committed_log.specs.declared.unlawful.Unlawful.TheVariants as unlawful;

use crate::lows::{Lows, find_least_taken};
use crate::region::Region;
use crate::unlawful::{RegionState, Unlawful};
use flash_types::{Handle, HandleRange, RegionId};
use log_codec::{Body, Entry};
use std::collections::BTreeMap;

/// The regions that are born, by number.
pub type Regions = BTreeMap<RegionId, Region>;

/// The most entries of a log.
pub const MOST_ENTRIES: u64 = 1_048_576;

/// The state of a region.
pub fn region_of(regions: &Regions, id: RegionId) -> Region
    ensures { result ≡ region regions.now.entries id }
{
    match regions.get(&id) {
        Some(region) => *region,
        None => Region::Unborn,
    }
}

fn name_of(region: Region) -> RegionState
    ensures { result ≡ state_of region }
{
    match region {
        Region::Unborn => RegionState::Unborn,
        Region::Live(_) => RegionState::Live,
        Region::Prepared(_, _) => RegionState::Prepared,
        Region::Gone(_) => RegionState::Gone,
    }
}

fn is_unborn_region(region: Region) -> bool
    ensures { result ≡ is_unborn region }
{
    matches!(region, Region::Unborn)
}

fn is_live_region(region: Region) -> bool
    ensures { result ≡ is_live region }
{
    matches!(region, Region::Live(_))
}

fn is_prepared_region(region: Region, target: RegionId) -> bool
    ensures { result ≡ is_prepared_for target region }
{
    match region {
        Region::Prepared(_, into) => into == target,
        _ => false,
    }
}

fn makes_region_body(body: &Body) -> bool
    ensures { result ≡ makes_region body.now }
{
    matches!(body, Body::Open { .. } | Body::Install { .. })
}

fn fits_own(region: Region, body: &Body) -> bool
    ensures { result ≡ (if makes_region body.now then is_unborn else is_live) region }
{
    if makes_region_body(body) {
        return is_unborn_region(region);
    }
    is_live_region(region)
}

// The fault of a region in a wrong state.
fn unless_fits(fits: bool, id: RegionId, region: Region) -> Option<Unlawful>
    ensures { result ≡ unless fits (unlawful.Region id (state_of region)) }
{
    if fits {
        return None;
    }
    Some(Unlawful::Region {
        region: id,
        state: name_of(region),
    })
}

fn find_own_fault(regions: &Regions, id: RegionId, body: &Body) -> Option<Unlawful>
    ensures { result ≡ own_fault regions.now.entries id body.now }
{
    let state = region_of(regions, id);
    unless_fits(fits_own(state, body), id, state)
}

fn find_other_fault(regions: &Regions, id: RegionId, body: &Body) -> Option<Unlawful>
    ensures { result ≡ other_fault regions.now.entries id body.now }
{
    match body {
        Body::Split { child, .. } => {
            let state = region_of(regions, *child);
            unless_fits(is_unborn_region(state), *child, state)
        }
        Body::Prepare { target } => {
            let state = region_of(regions, *target);
            unless_fits(is_live_region(state) && *target != id, *target, state)
        }
        Body::Commit { source } => {
            let state = region_of(regions, *source);
            unless_fits(is_prepared_region(state, id), *source, state)
        }
        _ => None,
    }
}

/// The last index of a region; 0 where it isn't born.
pub fn last_index(region: Region) -> u64
    ensures { result ≡ unwrap_or (index_of region) 0 }
{
    match region {
        Region::Unborn => 0,
        Region::Live(there) => there.index,
        Region::Prepared(there, _) => there.index,
        Region::Gone(index) => index,
    }
}

fn find_index_fault(regions: &Regions, entry: &Entry) -> Option<Unlawful>
    requires { unwrap_or (index_of (region regions.now.entries entry.now.region)) 0 < 2 ^ 63 }
    ensures { result ≡ index_fault regions.now.entries entry.now }
{
    let wants = last_index(region_of(regions, entry.region)) + 1;
    if makes_region_body(&entry.body) || entry.index == wants {
        return None;
    }
    Some(Unlawful::Index { wants })
}

pub fn is_below_end(handle: Handle, high: Option<Handle>) -> bool
    ensures { result ≡ is_below handle high }
{
    match high {
        Some(high) => handle < high,
        None => true,
    }
}

/// The handles that a region has.
pub fn range_of_region(region: Region) -> Option<HandleRange>
    ensures { result ≡ range_of region }
{
    match region {
        Region::Live(there) => Some(there.range),
        Region::Prepared(there, _) => Some(there.range),
        Region::Unborn => None,
        Region::Gone(_) => None,
    }
}

fn find_birth_fault(regions: &Regions, lows: &Lows, range: HandleRange) -> Option<Unlawful>
    requires parted { AreParted regions.now.entries }
    requires lows { AreLows (get int_cmp lows.now) regions.now.entries }
    ensures { result ≡ birth_fault regions.now.entries range }
{
    if !is_below_end(range.low, range.high) {
        return Some(Unlawful::Range { handle: range.low });
    }
    match find_least_taken(regions, lows, range) {
        Some(handle) => Some(Unlawful::Range { handle }),
        None => None,
    }
}

/// Whether a range ends at a handle.
pub fn ends_at_handle(range: HandleRange, handle: Handle) -> bool
    ensures { result ≡ ends_at range handle }
{
    match range.high {
        Some(high) => high == handle,
        None => false,
    }
}

fn touch_each_other(a: HandleRange, b: HandleRange) -> bool
    ensures { result ≡ touch a b }
{
    ends_at_handle(a, b.low) || ends_at_handle(b, a.low)
}

fn find_merge_fault(regions: &Regions, source: RegionId, target: RegionId) -> Option<Unlawful>
    ensures { result ≡ merge_fault regions.now.entries source target }
{
    let from = range_of_region(region_of(regions, source))?;
    let into = range_of_region(region_of(regions, target))?;
    if touch_each_other(from, into) {
        None
    } else {
        Some(Unlawful::Range { handle: from.low })
    }
}

fn find_split_fault(regions: &Regions, id: RegionId, at: Handle) -> Option<Unlawful>
    ensures { result ≡ split_fault regions.now.entries id at }
{
    let range = range_of_region(region_of(regions, id))?;
    if range.low < at && range.holds(at) {
        None
    } else {
        Some(Unlawful::Range { handle: at })
    }
}

fn find_range_fault(regions: &Regions, lows: &Lows, id: RegionId, body: &Body) -> Option<Unlawful>
    requires parted { AreParted regions.now.entries }
    requires lows { AreLows (get int_cmp lows.now) regions.now.entries }
    ensures { result ≡ range_fault regions.now.entries id body.now }
{
    match body {
        Body::Open { low, high, .. } => find_birth_fault(
            regions,
            lows,
            HandleRange {
                low: *low,
                high: *high,
            },
        ),
        Body::Install { low, high, .. } => find_birth_fault(
            regions,
            lows,
            HandleRange {
                low: *low,
                high: *high,
            },
        ),
        Body::Split { at, .. } => find_split_fault(regions, id, *at),
        Body::Prepare { target } => find_merge_fault(regions, id, *target),
        Body::Commit { source } => find_merge_fault(regions, *source, id),
        Body::Write { .. } | Body::Remove | Body::Empty => None,
    }
}

/// What is wrong with an entry at a position but for its ops.
pub fn find_head_fault(
    regions: &Regions,
    lows: &Lows,
    position: u64,
    entry: &Entry,
) -> Option<Unlawful>
    requires parted { AreParted regions.now.entries }
    requires lows { AreLows (get int_cmp lows.now) regions.now.entries }
    requires room { unwrap_or (index_of (region regions.now.entries entry.now.region)) 0 < 2 ^ 63 }
    ensures { result ≡ head_fault position regions.now.entries entry.now }
{
    if position >= MOST_ENTRIES {
        return Some(Unlawful::Count);
    }
    if let Some(fault) = find_own_fault(regions, entry.region, &entry.body) {
        return Some(fault);
    }
    if let Some(fault) = find_other_fault(regions, entry.region, &entry.body) {
        return Some(fault);
    }
    if let Some(fault) = find_index_fault(regions, entry) {
        return Some(fault);
    }
    find_range_fault(regions, lows, entry.region, &entry.body)
}
