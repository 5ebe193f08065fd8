// What an entry does to the regions of a table.
ghost use Rattle.std.specs.Prelude.{◌≡◌, ◌≢◌, true, false, OnOk, OnErr, IfErr, IfSome, IsSome, Some, None, []};
ghost use Rattle.std.specs.List.{list_all};
ghost use Rattle.region_file.specs.declared.entry.Entry.TheVariants as kept;
ghost use Rattle.region_state.specs.Folding.{lies_in};
ghost use Rattle.region_table.specs.Steps.{written, putting, bearing, ending, installing, writing, splitting, preparing};
ghost use Rattle.region_table.specs.Steps.{merging, committing, stepping, Become, AreKept};
ghost use Rattle.region_table.specs.Steps.{IfThere, IsThere, CanWrite, CanBeDone, CanSplit, CanRise, CanMerge, CanTake};
ghost use Rattle.region_table.specs.Table.{kept_in};

use crate::table::Regions;
use column_block::Memory;
use committed_log::FamilyOp;
use flash_types::{Epoch, Handle, HandleRange, RegionId};
use raft_apply::Command;
use region_file::Entry;
use region_state::Region;
use std::alloc::Global;

// Puts a region that is born in another way. It takes no memory.
fn set(regions: &mut Regions, id: RegionId, kept: Entry)
    requires { IsSome (kept_in regions.old.entries id) }
    ensures { Become regions.old.entries regions.new.entries (putting id kept) }
{
    match regions.insert(id, kept) {
        Ok(_) => {}
        Err(_) => unreachable!(),
    }
}

// Takes a region that is there out of its place, where it leaves another.
fn take(regions: &mut Regions, id: RegionId) -> Option<Region>
    ensures there { IfSome result (λ region. kept_in regions.old.entries id ≡ Some (kept.There region)) }
    ensures left { IfSome result (λ region. Become regions.old.entries regions.new.entries (ending id 0)) }
    ensures stays { result ≡ None → regions.new.entries ≡ regions.old.entries }
    ensures none { result ≡ None → IfThere (kept_in regions.old.entries id) (λ region. ⊥) }
{
    match regions.get(&id) {
        Some(Entry::There { .. }) => {}
        _ => return None,
    }
    match regions.insert(id, Entry::Gone { index: 0 }) {
        Ok(Some(Entry::There { region })) => Some(region),
        _ => unreachable!(),
    }
}

// Bears a region.
fn bear(regions: &mut Regions, id: RegionId, region: Region) -> Result<(), Memory>
    ensures ok { OnOk result (Become regions.old.entries regions.new.entries (bearing id region)) }
    ensures err { OnErr result (regions.new.entries ≡ regions.old.entries) }
{
    match regions.insert(id, Entry::There { region }) {
        Ok(_) => Ok(()),
        Err(_) => Err(Memory),
    }
}

// Makes changes where a region is there.
fn write_in(kept: &mut Entry, index: u64, ops: &[FamilyOp]) -> Result<(), Memory>
    requires { CanWrite (Some kept.old) ops.now }
    ensures ok { OnOk result (kept.new ≡ written kept.old index ops.now) }
    ensures err { OnErr result (kept.new ≡ kept.old) }
{
    match kept {
        Entry::Gone { .. } => Ok(()),
        Entry::There { region } => region.advance(index, ops),
    }
}

// The changes of an entry, in order.
fn write(regions: &mut Regions, id: RegionId, index: u64, ops: &[FamilyOp]) -> Result<(), Memory>
    requires { CanWrite (kept_in regions.old.entries id) ops.now }
    ensures ok { OnOk result (Become regions.old.entries regions.new.entries (writing id index ops.now)) }
    ensures err { OnErr result (AreKept regions.old.entries regions.new.entries) }
{
    match regions.get_mut(&id) {
        Some(kept) => match write_in(kept, index, ops) {
            Ok(()) => Ok(()),
            Err(_) => Err(Memory),
        },
        None => Ok(()),
    }
}

// A region is ready to be merged into a target.
fn prepare(regions: &mut Regions, id: RegionId, index: u64, target: RegionId)
    requires { IfThere (kept_in regions.old.entries id) (λ s. CanRise s.descriptor.epoch) }
    ensures { Become regions.old.entries regions.new.entries (preparing id index target) }
{
    let Some(mut region) = take(regions, id) else {
        return;
    };
    region.prepare(target, index);
    set(regions, id, Entry::There { region });
}

// Parts a region, where there is room for the child already.
fn part(
    regions: &mut Regions,
    id: RegionId,
    index: u64,
    at: Handle,
    child: RegionId,
) -> Result<(), Memory>
    requires apart { child ≢ id }
    requires room { kept_in regions.old.entries child ≡ Some (kept.Gone 0) }
    requires can { IfThere (kept_in regions.old.entries id) (λ s. CanSplit s at) }
    ensures ok { OnOk result (Become regions.old.entries regions.new.entries (splitting id index at child)) }
    ensures err { OnErr result (AreKept regions.old.entries regions.new.entries) }
{
    let Some(mut region) = take(regions, id) else {
        return Ok(());
    };
    match region.split_off(at, index) {
        Ok(upper) => {
            set(regions, child, Entry::There { region: upper });
            set(regions, id, Entry::There { region });
            Ok(())
        }
        Err(_) => {
            set(regions, id, Entry::There { region });
            Err(Memory)
        }
    }
}

fn is_there(regions: &Regions, id: RegionId) -> bool
    ensures yes { result ≡ true → IsThere (kept_in regions.now.entries id) }
    ensures no { result ≡ false → IfThere (kept_in regions.now.entries id) (λ s. ⊥) }
{
    matches!(regions.get(&id), Some(Entry::There { .. }))
}

// A region is parted at a handle, and the child has the handles from there up.
fn split(
    regions: &mut Regions,
    id: RegionId,
    index: u64,
    at: Handle,
    child: RegionId,
) -> Result<(), Memory>
    requires apart { child ≢ id }
    requires unborn { kept_in regions.old.entries child ≡ None }
    requires can { IfThere (kept_in regions.old.entries id) (λ s. CanSplit s at) }
    ensures ok { OnOk result (Become regions.old.entries regions.new.entries (splitting id index at child)) }
    ensures err { OnErr result (AreKept regions.old.entries regions.new.entries) }
{
    if !is_there(regions, id) {
        return Ok(());
    }
    let Ok(_) = regions.insert(child, Entry::Gone { index: 0 }) else {
        return Err(Memory);
    };
    match part(regions, id, index, at, child) {
        Ok(()) => Ok(()),
        Err(_) => {
            let _ = regions.remove(&child);
            Err(Memory)
        }
    }
}

// A region takes another, whose place is left to it, or hands it back for want of memory.
fn merge(regions: &mut Regions, id: RegionId, index: u64, other: Region) -> Result<(), Region>
    requires can { IfThere (kept_in regions.old.entries id) (λ s. CanMerge s other) }
    requires there { IsThere (kept_in regions.old.entries id) }
    ensures ok { OnOk result (Become regions.old.entries regions.new.entries (merging id index other)) }
    ensures err { OnErr result (AreKept regions.old.entries regions.new.entries) }
    ensures back { IfErr result (λ back. back ≡ other) }
{
    let Some(mut region) = take(regions, id) else {
        return Err(other);
    };
    match region.absorb(other, index) {
        Ok(()) => {
            set(regions, id, Entry::There { region });
            Ok(())
        }
        Err(back) => {
            set(regions, id, Entry::There { region });
            Err(back)
        }
    }
}

// A region takes the handles and the families of a source, which is gone then.
fn commit(regions: &mut Regions, id: RegionId, index: u64, source: RegionId) -> Result<(), Memory>
    requires apart { source ≢ id }
    requires can { CanTake (kept_in regions.old.entries id) (kept_in regions.old.entries source) }
    ensures ok { OnOk result (Become regions.old.entries regions.new.entries (committing id index source)) }
    ensures err { OnErr result (AreKept regions.old.entries regions.new.entries) }
{
    if !is_there(regions, id) {
        return Ok(());
    }
    let Some(other) = take(regions, source) else {
        return Ok(());
    };
    let last = other.index();
    match merge(regions, id, index, other) {
        Ok(()) => {
            set(regions, source, Entry::Gone { index: last });
            Ok(())
        }
        Err(back) => {
            set(regions, source, Entry::There { region: back });
            Err(Memory)
        }
    }
}

// A region is gone. Only one that wasn't born wants memory.
fn remove(regions: &mut Regions, id: RegionId, index: u64) -> Result<(), Memory>
    ensures ok { OnOk result (Become regions.old.entries regions.new.entries (ending id index)) }
    ensures err { OnErr result (AreKept regions.old.entries regions.new.entries) }
{
    match regions.insert(id, Entry::Gone { index }) {
        Ok(_) => Ok(()),
        Err(_) => Err(Memory),
    }
}

// A region is born with what the changes put.
fn install(
    alloc: Global,
    regions: &mut Regions,
    id: RegionId,
    index: u64,
    epoch: Epoch,
    range: HandleRange,
    ops: &[FamilyOp],
) -> Result<(), Memory>
    requires { list_all (lies_in range) ops.now ≡ true }
    ensures ok { OnOk result (Become regions.old.entries regions.new.entries (installing id index epoch range ops.now)) }
    ensures err { OnErr result (regions.new.entries ≡ regions.old.entries) }
{
    let mut region = Region::new(alloc, range, epoch, index);
    if let Err(_) = region.advance(index, ops) {
        return Err(Memory);
    }
    bear(regions, id, region)
}

/// Does to the regions what an entry of a region with this index does. For want of memory each is
/// kept as it was.
pub fn step(
    alloc: Global,
    regions: &mut Regions,
    id: RegionId,
    index: u64,
    command: &Command,
) -> Result<(), Memory>
    requires { CanBeDone (kept_in regions.old.entries) id command.now }
    ensures ok { OnOk result (Become regions.old.entries regions.new.entries (stepping id index command.now)) }
    ensures err { OnErr result (AreKept regions.old.entries regions.new.entries) }
{
    match command {
        Command::Open { epoch, range } => bear(
            regions,
            id,
            Region::new(alloc, *range, *epoch, index),
        ),
        Command::Write { ops } => write(regions, id, index, ops.as_slice()),
        Command::Split { at, child } => split(regions, id, index, *at, *child),
        Command::Prepare { target } => {
            prepare(regions, id, index, *target);
            Ok(())
        }
        Command::Commit { source } => commit(regions, id, index, *source),
        Command::Remove => remove(regions, id, index),
        Command::Install { epoch, range, ops } => install(
            alloc,
            regions,
            id,
            index,
            *epoch,
            *range,
            ops.as_slice(),
        ),
        Command::Empty => write(regions, id, index, &[]),
    }
}
