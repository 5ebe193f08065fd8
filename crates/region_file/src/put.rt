// Writers of a region file.
ghost use Rattle.std.specs.Prelude.{◌≡◌, ◌++◌, ◌∷◌, [], ◌<◌, ◌^◌, length, OnOk, OnErr, FitsSigned};
ghost use Rattle.std.specs.Int.{w32, w64, to_be_bytes};
ghost use Rattle.std.specs.List.{All, flat_map};
ghost use Rattle.flash_put.specs.Appending.{Appends};
ghost use Rattle.kv_codec.specs.Spelling.{lock_kind_byte};
ghost use Rattle.region_file.specs.Spelling as spelling;
ghost use Rattle.region_file.specs.Spelling.{EndFits, TargetFits, DescriptorFits, ValueFits, LockFits, RegionFits, BodyFits, EntryFits, CanBeWritten};

use crate::entry::{Entries, Entry};
use column_block::Memory;
use committed_log::Descriptor;
use flash_put::{put_bytes, put_i64, put_u8, put_u32, put_u64};
use flash_types::{Handle, RegionId, Ts};
use kv_codec::LockKind;
use region_state::Region;
use std::alloc::AllocError;

// ---- ranges

#[tactic(auto, using(flash_put::proofs::Appending::kept))]
fn put_end(end: i64, into: &mut Vec<u8>) -> Result<(), AllocError>
    ensures bytes { Appends result into.old.items (1 ∷ spelling.handle end) into.new.items }
    ensures fits { EndFits (Some end) }
{
    put_u8(1, into)?;
    put_i64(end, into)
}

fn put_high(end: Option<i64>, into: &mut Vec<u8>) -> Result<(), AllocError>
    ensures bytes { Appends result into.old.items (spelling.high end) into.new.items }
    ensures fits { EndFits end }
{
    match end {
        None => put_u8(0, into),
        Some(end) => put_end(end, into),
    }
}

#[tactic(auto, using(flash_put::proofs::Appending::kept))]
fn put_range(low: i64, high: Option<i64>, into: &mut Vec<u8>) -> Result<(), AllocError>
    ensures bytes { Appends result into.old.items (spelling.handle low ++ spelling.high high) into.new.items }
    ensures fits { FitsSigned w64 low × EndFits high }
{
    put_i64(low, into)?;
    put_high(high, into)
}

// ---- default values

// A length and as many bytes.
#[tactic(auto, using(flash_put::proofs::Appending::kept))]
fn put_text(text: &[u8], into: &mut Vec<u8>) -> Result<(), AllocError>
    ensures bytes { Appends result into.old.items (to_be_bytes w64 (length text.now) ++ text.now) into.new.items }
    ensures fits { length text.now < 2 ^ 64 }
{
    put_u64(text.len() as u64, into)?;
    put_bytes(text, into)
}

#[tactic(auto, using(flash_put::proofs::Appending::kept), unfolding(crate::specs::Spelling::value))]
fn put_value(handle: Handle, start: Ts, text: &[u8], into: &mut Vec<u8>) -> Result<(), AllocError>
    ensures bytes { Appends result into.old.items (spelling.value ((handle, start), text.now)) into.new.items }
    ensures fits { OnOk result (ValueFits ((handle, start), text.now)) }
{
    put_i64(handle, into)?;
    put_u64(start, into)?;
    put_text(text, into)
}

fn put_each_value(region: &Region, into: &mut Vec<u8>) -> Result<(), AllocError>
    ensures bytes { Appends result into.old.items (flat_map spelling.value region.now.values) into.new.items }
    ensures fits { OnOk result (All ValueFits region.now.values) }
{
    for (key, text) in region.each_value() {
        put_value(key.0, key.1, text.as_slice(), into)?;
    }
    Ok(())
}

#[tactic(auto, using(flash_put::proofs::Appending::kept))]
fn put_values(region: &Region, into: &mut Vec<u8>) -> Result<(), AllocError>
    ensures bytes { Appends result into.old.items (spelling.values region.now.values) into.new.items }
    ensures fits { OnOk result (All ValueFits region.now.values) }
{
    put_u64(region.values() as u64, into)?;
    put_each_value(region, into)
}

// ---- locks

fn kind_byte(kind: LockKind) -> u8
    ensures { result ≡ lock_kind_byte kind }
{
    match kind {
        LockKind::Put => b'P',
        LockKind::Delete => b'D',
        LockKind::Lock => b'L',
        LockKind::Pessimistic => b'S',
    }
}

#[tactic(auto, using(flash_put::proofs::Appending::kept), unfolding(crate::specs::Spelling::lock))]
fn put_lock(handle: Handle, kind: LockKind, start: Ts, into: &mut Vec<u8>) -> Result<(), AllocError>
    ensures bytes { Appends result into.old.items (spelling.lock (handle, record { kind = kind; start = start })) into.new.items }
    ensures fits { LockFits (handle, record { kind = kind; start = start }) }
{
    put_i64(handle, into)?;
    put_u8(kind_byte(kind), into)?;
    put_u64(start, into)
}

fn put_each_lock(region: &Region, into: &mut Vec<u8>) -> Result<(), AllocError>
    ensures bytes { Appends result into.old.items (flat_map spelling.lock region.now.locks) into.new.items }
    ensures fits { OnOk result (All LockFits region.now.locks) }
{
    for (handle, lock) in region.each_lock() {
        put_lock(*handle, lock.kind, lock.start, into)?;
    }
    Ok(())
}

#[tactic(auto, using(flash_put::proofs::Appending::kept))]
fn put_locks(region: &Region, into: &mut Vec<u8>) -> Result<(), AllocError>
    ensures bytes { Appends result into.old.items (spelling.locks region.now.locks) into.new.items }
    ensures fits { OnOk result (All LockFits region.now.locks) }
{
    put_u64(region.locks() as u64, into)?;
    put_each_lock(region, into)
}

// ---- regions

fn put_target(target: Option<RegionId>, into: &mut Vec<u8>) -> Result<(), AllocError>
    ensures bytes { Appends result into.old.items (spelling.target target) into.new.items }
    ensures fits { TargetFits target }
{
    match target {
        None => Ok(()),
        Some(target) => put_u32(target, into),
    }
}

// The index, the epoch and the range.
#[tactic(auto, using(flash_put::proofs::Appending::kept))]
fn put_descriptor(of: Descriptor, into: &mut Vec<u8>) -> Result<(), AllocError>
    ensures bytes { Appends result into.old.items (to_be_bytes w64 of.index ++ (to_be_bytes w64 of.epoch.conf_ver ++ (to_be_bytes w64 of.epoch.version ++ spelling.range of.range))) into.new.items }
    ensures fits { OnOk result (DescriptorFits of) }
{
    put_u64(of.index, into)?;
    put_u64(of.epoch.conf_ver, into)?;
    put_u64(of.epoch.version, into)?;
    put_range(of.range.low, of.range.high, into)
}

#[tactic(auto, using(flash_put::proofs::Appending::kept))]
fn put_families(region: &Region, into: &mut Vec<u8>) -> Result<(), AllocError>
    ensures bytes { Appends result into.old.items (spelling.target region.now.target ++ (spelling.values region.now.values ++ spelling.locks region.now.locks)) into.new.items }
    ensures fits { OnOk result (TargetFits region.now.target × (All ValueFits region.now.values × All LockFits region.now.locks)) }
{
    put_target(region.target(), into)?;
    put_values(region, into)?;
    put_locks(region, into)
}

// What a region that is there has behind its state.
#[tactic(auto, using(flash_put::proofs::Appending::kept), unfolding(crate::specs::Spelling::region))]
fn put_region(region: &Region, into: &mut Vec<u8>) -> Result<(), AllocError>
    ensures bytes { Appends result into.old.items (spelling.region region.now) into.new.items }
    ensures fits { OnOk result (RegionFits region.now) }
{
    // Give the proof that the families are in order, and lie in the range.
    let _values = region.each_value();
    let _locks = region.each_lock();
    put_descriptor(region.descriptor(), into)?;
    put_families(region, into)
}

fn state_of(target: Option<RegionId>) -> u8
    ensures { result ≡ spelling.state target }
{
    match target {
        None => 1,
        Some(_) => 2,
    }
}

#[tactic(auto, using(flash_put::proofs::Appending::kept))]
fn put_there(region: &Region, into: &mut Vec<u8>) -> Result<(), AllocError>
    ensures bytes { Appends result into.old.items (spelling.state region.now.target ∷ spelling.region region.now) into.new.items }
    ensures fits { OnOk result (RegionFits region.now) }
{
    put_u8(state_of(region.target()), into)?;
    put_region(region, into)
}

#[tactic(auto, using(flash_put::proofs::Appending::kept))]
fn put_gone(index: u64, into: &mut Vec<u8>) -> Result<(), AllocError>
    ensures bytes { Appends result into.old.items (3 ∷ to_be_bytes w64 index) into.new.items }
    ensures fits { index < 2 ^ 64 }
{
    put_u8(3, into)?;
    put_u64(index, into)
}

fn put_body(entry: &Entry, into: &mut Vec<u8>) -> Result<(), AllocError>
    ensures bytes { Appends result into.old.items (spelling.body entry.now) into.new.items }
    ensures fits { OnOk result (BodyFits entry.now) }
{
    match entry {
        Entry::Gone { index } => put_gone(*index, into),
        Entry::There { region } => put_there(region, into),
    }
}

#[tactic(auto, using(flash_put::proofs::Appending::kept), unfolding(crate::specs::Spelling::entry))]
fn put_entry(id: RegionId, entry: &Entry, into: &mut Vec<u8>) -> Result<(), AllocError>
    ensures bytes { Appends result into.old.items (spelling.entry (id, entry.now)) into.new.items }
    ensures fits { OnOk result (EntryFits (id, entry.now)) }
{
    put_u32(id, into)?;
    put_body(entry, into)
}

fn put_entries(entries: &Entries, into: &mut Vec<u8>) -> Result<(), AllocError>
    ensures bytes { Appends result into.old.items (flat_map spelling.entry entries.now.entries) into.new.items }
    ensures fits { OnOk result (All EntryFits entries.now.entries) }
{
    for (id, entry) in entries.iter() {
        put_entry(*id, entry, into)?;
    }
    Ok(())
}

#[tactic(auto, using(flash_put::proofs::Appending::kept))]
fn put_file(entries: &Entries, into: &mut Vec<u8>) -> Result<(), AllocError>
    ensures bytes { Appends result into.old.items (spelling.file entries.now.entries) into.new.items }
    ensures fits { OnOk result (CanBeWritten entries.now.entries) }
{
    put_bytes(b"FLRG", into)?;
    put_u64(entries.len() as u64, into)?;
    put_entries(entries, into)
}

/// Adds the file of these regions behind what `into` has, in its one spelling. It takes time by the
/// bytes that it writes. After `Memory` `into` is as before.
///
/// `read_regions` reads it as the same regions, if no handle lies in the ranges of two of them
/// (`files_are_read_again`).
pub fn write_regions(entries: &Entries, into: &mut Vec<u8>) -> Result<(), Memory>
    ensures ok { OnOk result (into.new.items ≡ into.old.items ++ spelling.file entries.now.entries) }
    ensures fits { OnOk result (CanBeWritten entries.now.entries) }
    ensures err { OnErr result (into.new.items ≡ into.old.items) }
{
    let len = into.len();
    match put_file(entries, into) {
        Ok(()) => Ok(()),
        Err(_) => {
            into.truncate(len);
            Err(Memory)
        }
    }
}
