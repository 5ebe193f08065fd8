// What an entry does to the regions.
ghost use Rattle.std.specs.Prelude.{◌≡◌, ◌<◌, ◌+◌, ◌^◌, IsSome, OnErr, OnOk, None, if◌then◌else◌};
ghost use Rattle.std.specs.BTreeMap.{is_at};
ghost use Rattle.std.specs.Map.{lookup};
ghost use Rattle.std.specs.Ordering.{nat_cmp};
ghost use Rattle.committed_log.specs.Regions.{raised as raised_epoch, joined as joined_range, merged, born, region, range_of, Live, Prepared, Gone, with_region, regions_after, born_after, live_after, lower_part, upper_part, makes_region};
ghost use Rattle.committed_log.specs.Numbers.{IsRoomy, HasRoom, AreRoomy};

use crate::admit_head::{Regions, ends_at_handle, region_of};
use crate::region::{Descriptor, Region};
use flash_types::{Epoch, Handle, HandleRange, RegionId};
use log_codec::{Body, Entry};
use std::alloc::AllocError;

// Puts a region into a state. Memory may run out only where it wasn't born.
fn put_region(regions: &mut Regions, id: RegionId, state: Region) -> Result<(), AllocError>
    ensures ok { OnOk result (regions.new.entries ≡ with_region id state regions.old.entries) }
    ensures err { OnErr result (regions.new.entries ≡ regions.old.entries) }
    ensures absent { OnErr result (lookup (is_at (nat_cmp id)) regions.old.entries ≡ None) }
{
    match regions.insert(id, state) {
        Ok(_) => Ok(()),
        Err(_) => Err(AllocError),
    }
}

// Puts a region that is born into another state.
fn set_region(regions: &mut Regions, id: RegionId, state: Region)
    requires { IsSome (lookup (is_at (nat_cmp id)) regions.old.entries) }
    ensures { regions.new.entries ≡ with_region id state regions.old.entries }
{
    match put_region(regions, id, state) {
        Ok(()) => {}
        Err(_) => unreachable!(),
    }
}

fn raised(epoch: Epoch, conf_ver: u64, version: u64) -> Epoch
    requires conf_ver { epoch.conf_ver + conf_ver < 2 ^ 64 }
    requires version { epoch.version + version < 2 ^ 64 }
    ensures { result ≡ raised_epoch epoch conf_ver version }
{
    Epoch {
        conf_ver: epoch.conf_ver + conf_ver,
        version: epoch.version + version,
    }
}

fn lower(there: Descriptor, at: Handle, index: u64) -> Descriptor
    requires { HasRoom there }
    ensures { result ≡ lower_part there at index }
{
    Descriptor {
        range: HandleRange {
            low: there.range.low,
            high: Some(at),
        },
        epoch: raised(there.epoch, 0, 1),
        index,
    }
}

fn upper(there: Descriptor, at: Handle) -> Descriptor
    requires { HasRoom there }
    ensures { result ≡ upper_part there at }
{
    Descriptor {
        range: HandleRange {
            low: at,
            high: there.range.high,
        },
        epoch: raised(there.epoch, 0, 1),
        index: 5,
    }
}

pub fn joined(a: HandleRange, b: HandleRange) -> HandleRange
    ensures { result ≡ joined_range a b }
{
    if ends_at_handle(a, b.low) {
        return HandleRange {
            low: a.low,
            high: b.high,
        };
    }
    HandleRange {
        low: b.low,
        high: a.high,
    }
}

fn with_source(there: Descriptor, source: Descriptor, index: u64) -> Descriptor
    requires there { HasRoom there }
    requires source { HasRoom source }
    ensures { result ≡ merged there source index }
{
    Descriptor {
        range: joined(there.range, source.range),
        epoch: Epoch {
            conf_ver: there.epoch.conf_ver,
            version: there.epoch.version.max(source.epoch.version) + 1,
        },
        index,
    }
}

fn split_region(
    regions: &mut Regions,
    id: RegionId,
    there: Descriptor,
    index: u64,
    at: Handle,
    child: RegionId,
) -> Result<(), AllocError>
    requires there { region regions.old.entries id ≡ Live there }
    requires room { HasRoom there }
    ensures ok { OnOk result (regions.new.entries ≡ with_region id (Live (lower_part there at index)) (with_region child (Live (upper_part there at)) regions.old.entries)) }
    ensures err { OnErr result (regions.new.entries ≡ regions.old.entries) }
{
    if let Err(_) = put_region(regions, child, Region::Live(upper(there, at))) {
        return Err(AllocError);
    }
    set_region(regions, id, Region::Live(lower(there, at, index)));
    Ok(())
}

fn merge_regions(
    regions: &mut Regions,
    id: RegionId,
    there: Descriptor,
    index: u64,
    source: RegionId,
    other: Descriptor,
)
    requires there { region regions.old.entries id ≡ Live there }
    requires source { IsSome (lookup (is_at (nat_cmp source)) regions.old.entries) }
    requires room { HasRoom there }
    requires other_room { HasRoom other }
    ensures { regions.new.entries ≡ with_region source (Gone other.index) (with_region id (Live (merged there other index)) regions.old.entries) }
{
    set_region(regions, id, Region::Live(with_source(there, other, index)));
    set_region(regions, source, Region::Gone(other.index));
}

fn prepared(there: Descriptor, index: u64) -> Descriptor
    requires { HasRoom there }
    ensures { result ≡ record { range = there.range; epoch = raised_epoch there.epoch 1 1; index = index } }
{
    Descriptor {
        range: there.range,
        epoch: raised(there.epoch, 1, 1),
        index,
    }
}

// The regions after an entry of a live region.
fn step_live(
    regions: &mut Regions,
    id: RegionId,
    there: Descriptor,
    index: u64,
    body: &Body,
) -> Result<(), AllocError>
    requires there { region regions.old.entries id ≡ Live there }
    requires room { AreRoomy regions.old.entries }
    ensures ok { OnOk result (regions.new.entries ≡ live_after id there index body.now regions.old.entries) }
    ensures err { OnErr result (regions.new.entries ≡ regions.old.entries) }
{
    match body {
        Body::Split { at, child } => split_region(regions, id, there, index, *at, *child),
        Body::Prepare { target } => {
            put_region(
                regions,
                id,
                Region::Prepared(prepared(there, index), *target),
            )
        }
        Body::Commit { source } => match region_of(regions, *source) {
            Region::Prepared(other, _) => {
                merge_regions(regions, id, there, index, *source, other);
                Ok(())
            }
            _ => Ok(()),
        },
        Body::Remove => put_region(regions, id, Region::Gone(index)),
        Body::Open { .. } | Body::Install { .. } | Body::Write { .. } | Body::Empty => {
            let next = Descriptor {
                range: there.range,
                epoch: there.epoch,
                index,
            };
            put_region(regions, id, Region::Live(next))
        }
    }
}

fn bear(
    regions: &mut Regions,
    id: RegionId,
    index: u64,
    conf_ver: u64,
    version: u64,
    range: HandleRange,
) -> Result<(), AllocError>
    ensures ok { OnOk result (regions.new.entries ≡ with_region id (born conf_ver version range.low range.high index) regions.old.entries) }
    ensures err { OnErr result (regions.new.entries ≡ regions.old.entries) }
{
    let there = Descriptor {
        range,
        epoch: Epoch { conf_ver, version },
        index,
    };
    put_region(regions, id, Region::Live(there))
}

// The regions after an entry of an unborn region.
fn step_unborn(
    regions: &mut Regions,
    id: RegionId,
    index: u64,
    body: &Body,
) -> Result<(), AllocError>
    ensures ok { OnOk result (regions.new.entries ≡ born_after id index body.now regions.old.entries) }
    ensures err { OnErr result (regions.new.entries ≡ regions.old.entries) }
{
    match body {
        Body::Open {
            conf_ver,
            version,
            low,
            high,
        } => {
            let range = HandleRange {
                low: *low,
                high: *high,
            };
            bear(regions, id, index, *conf_ver, *version, range)
        }
        Body::Install {
            conf_ver,
            version,
            low,
            high,
            ..
        } => {
            let range = HandleRange {
                low: *low,
                high: *high,
            };
            bear(regions, id, index, *conf_ver, *version, range)
        }
        _ => Ok(()),
    }
}

/// Does to the regions what an entry does, or leaves them for want of memory.
pub fn step_regions(regions: &mut Regions, entry: &Entry) -> Result<(), AllocError>
    requires { AreRoomy regions.old.entries }
    ensures ok { OnOk result (regions.new.entries ≡ regions_after regions.old.entries entry.now) }
    ensures err { OnErr result (regions.new.entries ≡ regions.old.entries) }
{
    match region_of(regions, entry.region) {
        Region::Unborn => step_unborn(regions, entry.region, entry.index, &entry.body),
        Region::Live(there) => { step_live(regions, entry.region, there, entry.index, &entry.body) }
        Region::Prepared(_, _) => Ok(()),
        Region::Gone(_) => Ok(()),
    }
}
