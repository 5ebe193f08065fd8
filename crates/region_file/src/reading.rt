// How a region file is read.
ghost use Rattle.std.specs.Prelude.{◌≡◌, ◌++◌, [], ℕ, List, OnOk, IfOk, true, false};
ghost use Rattle.std.specs.List.{list_any};
ghost use Rattle.flash_list.specs.Steps.{seen};
ghost use Rattle.flash_types.specs.declared.range.HandleRange.{HandleRange};
ghost use Rattle.region_file.specs.Faults.{Gives};
ghost use Rattle.region_file.specs.Regions.{meet, may_be, id_at, free_range_at, target_at, region_at, entry_of, entry_at, entries_at, magic_at, ended, range_in, regions_of};
ghost use Rattle.region_file.specs.declared.entry.Entry.{Entry as Table};
ghost use Rattle.region_file.specs.Taken.{AreTaken, AreFree};

use crate::entry::{Entries, Entry};
use crate::families::{append, locks_of, values_of};
use crate::fault::TableError;
use crate::field::{here, range_of, u8_in, u32_of, u64_of};
use crate::taken::{Taken, is_met, take};
use committed_log::Descriptor;
use flash_types::{Epoch, HandleRange, RegionId};
use region_state::Region;
use std::alloc::Global;
use std::collections::BTreeMap;

const MAGIC: u32 = 0x464C_5247;

fn may_be(last: Option<RegionId>, id: RegionId) -> bool
    ensures { result ≡ may_be last id }
{
    match last {
        None => true,
        Some(before) => before < id,
    }
}

#[tactic(auto, unfolding(crate::specs::Regions::id_at))]
fn id_of(end: u64, last: Option<RegionId>, bytes: &[u8]) -> Result<(RegionId, &[u8]), TableError>
    ensures gives { seen (λ x. (x.0, x.1.now)) result ≡ id_at end last bytes.now }
    ensures rises { IfOk result (λ x. may_be last x.0 ≡ true) }
{
    let (id, rest) = u32_of(end, bytes)?;
    if may_be(last, id) {
        return Ok((id, rest));
    }
    Err(here(end, bytes))
}

#[tactic(auto, unfolding(crate::specs::Regions::free_range_at))]
fn free_range_of<'a>(
    end: u64,
    taken: &Taken,
    bytes: &'a [u8],
) -> Result<(HandleRange, &'a [u8]), TableError>
    ensures gives { (earlier : List HandleRange) → AreTaken taken.now.entries earlier → seen (λ x. (x.0, x.1.now)) result ≡ free_range_at end earlier bytes.now }
    ensures free { IfOk result (λ x. (earlier : List HandleRange) → AreTaken taken.now.entries earlier → list_any (meet x.0) earlier ≡ false) }
{
    let (range, rest) = range_of(end, bytes)?;
    if is_met(taken, range) {
        return Err(here(end, bytes));
    }
    Ok((range, rest))
}

#[tactic(auto, unfolding(crate::specs::Regions::target_at))]
fn target_of(end: u64, state: u8, bytes: &[u8]) -> Result<(Option<RegionId>, &[u8]), TableError>
    ensures { seen (λ x. (x.0, x.1.now)) result ≡ target_at end state bytes.now }
{
    if state == 2 {
        let (target, rest) = u32_of(end, bytes)?;
        return Ok((Some(target), rest));
    }
    Ok((None, bytes))
}

// What stands behind the index of a region that isn't gone.
#[tactic(auto, unfolding(crate::specs::Regions::region_at))]
fn region_of<'a>(
    alloc: Global,
    end: u64,
    taken: &Taken,
    state: u8,
    index: u64,
    bytes: &'a [u8],
) -> Result<(Region, &'a [u8]), TableError>
    ensures gives { (earlier : List HandleRange) → AreTaken taken.now.entries earlier → Gives (λ x. (x.0, x.1.now)) result (region_at end earlier state index bytes.now) }
    ensures free { IfOk result (λ x. (earlier : List HandleRange) → AreTaken taken.now.entries earlier → list_any (meet x.0.descriptor.range) earlier ≡ false) }
{
    let (conf_ver, rest) = u64_of(end, bytes)?;
    let (version, rest) = u64_of(end, rest)?;
    let (range, rest) = free_range_of(end, taken, rest)?;
    let (target, rest) = target_of(end, state, rest)?;
    let (values, rest) = values_of(alloc, end, range, rest)?;
    let (locks, rest) = locks_of(alloc, end, range, rest)?;
    let epoch = Epoch { conf_ver, version };
    let descriptor = Descriptor {
        range,
        epoch,
        index,
    };
    Ok((
        Region::from_parts(alloc, descriptor, target, values, locks),
        rest,
    ))
}

fn entry_of<'a>(
    alloc: Global,
    end: u64,
    taken: &Taken,
    state: u8,
    index: u64,
    bytes: &'a [u8],
) -> Result<(Entry, &'a [u8]), TableError>
    ensures gives { (earlier : List HandleRange) → AreTaken taken.now.entries earlier → Gives (λ x. (x.0, x.1.now)) result (entry_of end earlier state index bytes.now) }
    ensures free { IfOk result (λ x. (id : ℕ) (earlier : List HandleRange) → AreTaken taken.now.entries earlier → AreFree (id, x.0) earlier) }
{
    if state == 3 {
        return Ok((Entry::Gone { index }, bytes));
    }
    let (region, rest) = region_of(alloc, end, taken, state, index, bytes)?;
    Ok((Entry::There { region }, rest))
}

#[tactic(auto, unfolding(crate::specs::Regions::entry_at))]
fn one_entry<'a>(
    alloc: Global,
    end: u64,
    last: Option<RegionId>,
    taken: &Taken,
    bytes: &'a [u8],
) -> Result<(RegionId, Entry, &'a [u8]), TableError>
    ensures gives { (earlier : List HandleRange) → AreTaken taken.now.entries earlier → Gives (λ x. ((x.0, x.1), x.2.now)) result (entry_at end last earlier bytes.now) }
    ensures free { IfOk result (λ x. (earlier : List HandleRange) → AreTaken taken.now.entries earlier → AreFree (x.0, x.1) earlier) }
    ensures rises { IfOk result (λ x. may_be last x.0 ≡ true) }
{
    let (id, rest) = id_of(end, last, bytes)?;
    let (state, rest) = u8_in(1, 3, end, rest)?;
    let (index, rest) = u64_of(end, rest)?;
    let (entry, rest) = entry_of(alloc, end, taken, state, index, rest)?;
    Ok((id, entry, rest))
}

#[tactic(auto, unfolding(crate::specs::Regions::magic_at))]
fn magic_of(end: u64, bytes: &[u8]) -> Result<(u32, &[u8]), TableError>
    ensures { seen (λ x. (x.0, x.1.now)) result ≡ magic_at end bytes.now }
{
    let (name, rest) = u32_of(end, bytes)?;
    if name == MAGIC {
        return Ok((name, rest));
    }
    Err(here(end, bytes))
}

// The range of a region that is there is taken.
fn note(taken: &mut Taken, entry: &Entry) -> Result<(), TableError>
    ensures { OnOk result ((id : ℕ) (earlier : List HandleRange) → AreTaken taken.old.entries earlier → AreFree (id, entry.now) earlier → AreTaken taken.new.entries (earlier ++ range_in (id, entry.now))) }
{
    match entry {
        Entry::Gone { .. } => Ok(()),
        Entry::There { region } => take(taken, region.range()),
    }
}

fn entries_of<'a>(
    alloc: Global,
    end: u64,
    count: u64,
    bytes: &'a [u8],
) -> Result<(Entries, &'a [u8]), TableError>
    ensures { Gives (λ x. (x.0.entries, x.1.now)) result (entries_at end count [] bytes.now) }
{
    let mut entries = BTreeMap::new(alloc);
    let mut taken = BTreeMap::new(alloc);
    let mut last = None;
    let mut rest = bytes;
    for _ in 0..count {
        let (id, entry, after) = one_entry(alloc, end, last, &taken, rest)?;
        let Ok(()) = note(&mut taken, &entry) else {
            return Err(TableError::Memory);
        };
        let Ok(()) = append(&mut entries, id, entry) else {
            return Err(TableError::Memory);
        };
        last = Some(id);
        rest = after;
    }
    Ok((entries, rest))
}

// Nothing follows.
fn ended(end: u64, rest: &[u8]) -> Result<(), TableError>
    ensures { (entries : List (ℕ × Table)) → seen (λ _. entries) result ≡ ended end rest.now entries }
{
    if rest.is_empty() {
        return Ok(());
    }
    Err(here(end, rest))
}

/// Reads the bytes of a region file. `Damaged { at }` names the first place where what was read
/// isn't of the form: a field that isn't allowed by its first byte, a file that ends too early by its
/// length, and bytes behind the end by the first of them. A field is looked at once it is whole. An
/// id, a handle or a start that doesn't rise, and a handle outside of its region's range, isn't
/// allowed there; a range that has a handle of an earlier region's isn't allowed at its low end; a
/// length that passes the end is a file that ends too early. `Memory` is want of memory.
///
/// A range may be empty, and a default value needn't be a row of the table: the log may put any
/// bytes there, of a transaction that never commits. It takes time by the bytes, and for each region,
/// value and lock by the logarithm of their number.
#[tactic(auto, unfolding(crate::specs::Regions::regions_of))]
pub fn read_regions(alloc: Global, bytes: &[u8]) -> Result<Entries, TableError>
    ensures { Gives (λ x. x.entries) result (regions_of bytes.now) }
{
    let end = bytes.len() as u64;
    let (_, rest) = magic_of(end, bytes)?;
    let (count, rest) = u64_of(end, rest)?;
    let (entries, rest) = entries_of(alloc, end, count, rest)?;
    ended(end, rest)?;
    Ok(entries)
}
