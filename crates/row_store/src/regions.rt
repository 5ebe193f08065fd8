// The regions after an entry.
ghost use Rattle.std.specs.Prelude.{◌≡◌, OnOk, IfSome};
ghost use Rattle.flash_types.specs.Ranges.{ends_at, joined};
ghost use Rattle.committed_log.specs.declared.region.Region.TheVariants as live;
ghost use Rattle.log_codec.specs.declared.entry.Body.TheVariants as body;
ghost use Rattle.committed_log.specs.Regions.{region, range_of, index_of, acts_on, makes_region, raised, lower_part, upper_part, merged, with_region, born, regions_after, live_after, born_after, after_merge};

use crate::Stop;
use crate::sorted::{entry_at, put_entry};
use column_block::Memory;
use committed_log::{Descriptor, Region};
use flash_types::{Epoch, HandleRange};
use log_codec::{Body, Entry};

/// The state of a region. Each region that is born stands in the list, by number.
pub fn region(regions: &[(u32, Region)], r: u32) -> Region
    ensures { result ≡ region regions.now r }
{
    match entry_at(regions, &r) {
        Some(state) => *state,
        None => Region::Unborn,
    }
}

/// The handles that a region has.
pub fn range_of(state: Region) -> Option<HandleRange>
    ensures { result ≡ range_of state }
{
    match state {
        Region::Unborn => None,
        Region::Live(there) => Some(there.range),
        Region::Prepared(there, _) => Some(there.range),
        Region::Gone(_) => None,
    }
}

/// The last index of a region that is born.
pub fn index_of(state: Region) -> Option<u64>
    ensures { result ≡ index_of state }
{
    match state {
        Region::Unborn => None,
        Region::Live(there) => Some(there.index),
        Region::Prepared(there, _) => Some(there.index),
        Region::Gone(index) => Some(index),
    }
}

/// Whether an entry makes, changes or ends the region.
pub fn acts_on(r: u32, entry: &Entry) -> bool
    ensures { result ≡ acts_on r entry.now }
{
    entry.region == r
        || match &entry.body {
            Body::Split { child, .. } => *child == r,
            Body::Commit { source } => *source == r,
            _ => false,
        }
}

fn set(regions: &mut Vec<(u32, Region)>, r: u32, state: Region) -> Result<(), Memory>
    ensures { OnOk result (regions.new.items ≡ with_region r state regions.old.items) }
{
    put_entry(regions, r, state)
}

fn ends_at(range: HandleRange, handle: i64) -> bool
    ensures { result ≡ ends_at range handle }
{
    match range.high {
        None => false,
        Some(high) => high == handle,
    }
}

fn joined(a: HandleRange, b: HandleRange) -> HandleRange
    ensures { result ≡ joined a b }
{
    if ends_at(a, b.low) {
        HandleRange {
            low: a.low,
            high: b.high,
        }
    } else {
        HandleRange {
            low: b.low,
            high: a.high,
        }
    }
}

fn raised(epoch: Epoch, conf_ver: u64, version: u64) -> Option<Epoch>
    ensures { IfSome result (λ up. up ≡ raised epoch conf_ver version) }
{
    let conf_ver = epoch.conf_ver.checked_add(conf_ver)?;
    let version = epoch.version.checked_add(version)?;
    Some(Epoch { conf_ver, version })
}

fn split(
    regions: &mut Vec<(u32, Region)>,
    r: u32,
    there: Descriptor,
    index: u64,
    at: i64,
    child: u32,
) -> Result<(), Stop>
    ensures { OnOk result (regions.new.items ≡ with_region r (live.Live (lower_part there at index)) (with_region child (live.Live (upper_part there at)) regions.old.items)) }
{
    let Some(epoch) = raised(there.epoch, 0, 1) else {
        return Err(Stop::Number);
    };
    let upper = Descriptor {
        range: HandleRange {
            low: at,
            high: there.range.high,
        },
        epoch,
        index: 5,
    };
    let lower = Descriptor {
        range: HandleRange {
            low: there.range.low,
            high: Some(at),
        },
        epoch,
        index,
    };
    if set(regions, child, Region::Live(upper)).is_err() {
        return Err(Stop::Memory);
    }
    if set(regions, r, Region::Live(lower)).is_err() {
        return Err(Stop::Memory);
    }
    Ok(())
}

fn prepare(
    regions: &mut Vec<(u32, Region)>,
    r: u32,
    there: Descriptor,
    index: u64,
    target: u32,
) -> Result<(), Stop>
    ensures { OnOk result (regions.new.items ≡ live_after r there index (body.Prepare target) regions.old.items) }
{
    let Some(epoch) = raised(there.epoch, 1, 1) else {
        return Err(Stop::Number);
    };
    let there = Descriptor {
        range: there.range,
        epoch,
        index,
    };
    if set(regions, r, Region::Prepared(there, target)).is_err() {
        return Err(Stop::Memory);
    }
    Ok(())
}

fn merged(there: Descriptor, source: Descriptor, index: u64) -> Option<Descriptor>
    ensures { IfSome result (λ one. one ≡ merged there source index) }
{
    let version = there
        .epoch
        .version
        .max(source.epoch.version)
        .checked_add(1)?;
    Some(Descriptor {
        range: joined(there.range, source.range),
        epoch: Epoch {
            conf_ver: there.epoch.conf_ver,
            version,
        },
        index,
    })
}

fn merge(
    regions: &mut Vec<(u32, Region)>,
    r: u32,
    there: Descriptor,
    index: u64,
    source: u32,
) -> Result<(), Stop>
    ensures { OnOk result (regions.new.items ≡ live_after r there index (body.Commit source) regions.old.items) }
{
    match region(regions, source) {
        Region::Prepared(from, _) => {
            let Some(one) = merged(there, from, index) else {
                return Err(Stop::Number);
            };
            if set(regions, r, Region::Live(one)).is_err() {
                return Err(Stop::Memory);
            }
            if set(regions, source, Region::Gone(from.index)).is_err() {
                return Err(Stop::Memory);
            }
            Ok(())
        }
        Region::Unborn => Ok(()),
        Region::Live(_) => Ok(()),
        Region::Gone(_) => Ok(()),
    }
}

fn set_or_stop(regions: &mut Vec<(u32, Region)>, r: u32, state: Region) -> Result<(), Stop>
    ensures { OnOk result (regions.new.items ≡ with_region r state regions.old.items) }
{
    match set(regions, r, state) {
        Ok(()) => Ok(()),
        Err(_) => Err(Stop::Memory),
    }
}

fn live_after(
    regions: &mut Vec<(u32, Region)>,
    r: u32,
    there: Descriptor,
    index: u64,
    body: &Body,
) -> Result<(), Stop>
    ensures { OnOk result (regions.new.items ≡ live_after r there index body.now regions.old.items) }
{
    let later = Region::Live(Descriptor {
        range: there.range,
        epoch: there.epoch,
        index,
    });
    match body {
        Body::Split { at, child } => split(regions, r, there, index, *at, *child),
        Body::Prepare { target } => prepare(regions, r, there, index, *target),
        Body::Commit { source } => merge(regions, r, there, index, *source),
        Body::Remove => set_or_stop(regions, r, Region::Gone(index)),
        Body::Open { .. } => set_or_stop(regions, r, later),
        Body::Write { .. } => set_or_stop(regions, r, later),
        Body::Install { .. } => set_or_stop(regions, r, later),
        Body::Empty => set_or_stop(regions, r, later),
    }
}

fn born(conf_ver: u64, version: u64, low: i64, high: Option<i64>, index: u64) -> Region
    ensures { result ≡ born conf_ver version low high index }
{
    Region::Live(Descriptor {
        range: HandleRange { low, high },
        epoch: Epoch { conf_ver, version },
        index,
    })
}

fn born_after(regions: &mut Vec<(u32, Region)>, r: u32, index: u64, body: &Body) -> Result<(), Stop>
    ensures { OnOk result (regions.new.items ≡ born_after r index body.now regions.old.items) }
{
    match body {
        Body::Open {
            conf_ver,
            version,
            low,
            high,
        } => set_or_stop(regions, r, born(*conf_ver, *version, *low, *high, index)),
        Body::Install {
            conf_ver,
            version,
            low,
            high,
            ..
        } => set_or_stop(regions, r, born(*conf_ver, *version, *low, *high, index)),
        Body::Write { .. } => Ok(()),
        Body::Split { .. } => Ok(()),
        Body::Prepare { .. } => Ok(()),
        Body::Commit { .. } => Ok(()),
        Body::Remove => Ok(()),
        Body::Empty => Ok(()),
    }
}

/// The regions after an entry.
pub fn regions_after(regions: &mut Vec<(u32, Region)>, entry: &Entry) -> Result<(), Stop>
    ensures { OnOk result (regions.new.items ≡ regions_after regions.old.items entry.now) }
{
    match region(regions, entry.region) {
        Region::Unborn => born_after(regions, entry.region, entry.index, &entry.body),
        Region::Live(there) => live_after(regions, entry.region, there, entry.index, &entry.body),
        Region::Prepared(_, _) => Ok(()),
        Region::Gone(_) => Ok(()),
    }
}
