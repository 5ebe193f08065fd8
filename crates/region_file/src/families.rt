// The default values and the locks of a region.
ghost use Rattle.std.specs.Prelude.{◌≡◌, ◌++◌, ◌∷◌, [], OnOk, IfOk, true};
ghost use Rattle.flash_types.specs.Ranges.{holds};
ghost use Rattle.std.specs.List.{All};
ghost use Rattle.std.specs.Map.{keys_of};
ghost use Rattle.std.specs.declared.cmp.Ordering.TheVariants.{Greater};
ghost use Rattle.flash_list.specs.Steps.{seen};
ghost use Rattle.region_state.specs.State.{values_in, locks_in};
ghost use Rattle.region_file.specs.Faults.{Gives};
ghost use Rattle.region_file.specs.Families.{may_follow, may_start, value_handle_at, start_at, text_at, value_at, each_value_at, values_at, is_above, lock_handle_at, kind_of, kind_at, lock_at, each_lock_at, locks_at};

use crate::fault::TableError;
use crate::field::{handle_of, here, u8_of, u64_of};
use committed_log::Lock;
use flash_types::{Handle, HandleRange, Ts};
use kv_codec::LockKind;
use log_codec::OpBytes;
use region_state::{Locks, Values};
use std::alloc::Global;
use std::collections::BTreeMap;

/// Adds an entry whose key is above all others.
pub fn append<K: Ord + Copy, V: Drop>(
    map: &mut BTreeMap<K, V>,
    key: K,
    value: V,
) -> Result<(), TableError>
    requires { All (λ q. K.cmp key q ≡ Greater) (keys_of map.old.entries) }
    ensures { OnOk result (map.new.entries ≡ map.old.entries ++ (key, value) ∷ []) }
{
    match map.insert(key, value) {
        Ok(_) => Ok(()),
        Err(_) => Err(TableError::Memory),
    }
}

// ---- default values

type Key = (Handle, Ts);

fn may_follow(last: Option<Key>, handle: Handle) -> bool
    ensures { result ≡ may_follow last handle }
{
    match last {
        None => true,
        Some((before, _)) => before <= handle,
    }
}

fn may_start(last: Option<Key>, handle: Handle, start: Ts) -> bool
    ensures { result ≡ may_start last handle start }
{
    match last {
        None => true,
        Some((before, earlier)) => before < handle || earlier < start,
    }
}

#[tactic(auto, unfolding(crate::specs::Families::value_handle_at))]
fn value_handle_of(
    end: u64,
    range: HandleRange,
    last: Option<Key>,
    bytes: &[u8],
) -> Result<(Handle, &[u8]), TableError>
    ensures gives { seen (λ x. (x.0, x.1.now)) result ≡ value_handle_at end range last bytes.now }
    ensures fits { IfOk result (λ x. (holds range x.0 ≡ true) × (may_follow last x.0 ≡ true)) }
{
    let (handle, rest) = handle_of(end, bytes)?;
    if range.holds(handle) && may_follow(last, handle) {
        return Ok((handle, rest));
    }
    Err(here(end, bytes))
}

#[tactic(auto, unfolding(crate::specs::Families::start_at))]
fn start_of(
    end: u64,
    last: Option<Key>,
    handle: Handle,
    bytes: &[u8],
) -> Result<(Ts, &[u8]), TableError>
    ensures gives { seen (λ x. (x.0, x.1.now)) result ≡ start_at end last handle bytes.now }
    ensures fits { IfOk result (λ x. may_start last handle x.0 ≡ true) }
{
    let (start, rest) = u64_of(end, bytes)?;
    if may_start(last, handle, start) {
        return Ok((start, rest));
    }
    Err(here(end, bytes))
}

// A length and as many bytes.
#[tactic(auto, unfolding(crate::specs::Families::text_at))]
fn text_of(end: u64, bytes: &[u8]) -> Result<(&[u8], &[u8]), TableError>
    ensures { seen (λ x. (x.0.now, x.1.now)) result ≡ text_at end bytes.now }
{
    let (len, rest) = u64_of(end, bytes)?;
    if (rest.len() as u64) < len {
        return Err(TableError::Damaged { at: end });
    }
    Ok(rest.split_at(len as usize))
}

#[tactic(auto, unfolding(crate::specs::Families::value_at))]
fn value_of(
    end: u64,
    range: HandleRange,
    last: Option<Key>,
    bytes: &[u8],
) -> Result<(Key, &[u8], &[u8]), TableError>
    ensures gives { seen (λ x. ((x.0, x.1.now), x.2.now)) result ≡ value_at end range last bytes.now }
    ensures fits { IfOk result (λ x. (holds range x.0.0 ≡ true) × (may_follow last x.0.0 ≡ true) × (may_start last x.0.0 x.0.1 ≡ true)) }
{
    let (handle, rest) = value_handle_of(end, range, last, bytes)?;
    let (start, rest) = start_of(end, last, handle, rest)?;
    let (text, rest) = text_of(end, rest)?;
    Ok(((handle, start), text, rest))
}

fn each_value_of(
    alloc: Global,
    end: u64,
    range: HandleRange,
    count: u64,
    bytes: &[u8],
) -> Result<(Values, &[u8]), TableError>
    ensures gives { Gives (λ x. (x.0.entries, x.1.now)) result (each_value_at end range count bytes.now) }
    ensures within { IfOk result (λ x. values_in range x.0.entries ≡ x.0.entries) }
{
    let mut values = BTreeMap::new(alloc);
    let mut rest = bytes;
    let mut last = None;
    for _ in 0..count {
        let (key, text, after) = value_of(end, range, last, rest)?;
        let Ok(text) = OpBytes::from_slice(alloc, text) else {
            return Err(TableError::Memory);
        };
        let Ok(()) = append(&mut values, key, text) else {
            return Err(TableError::Memory);
        };
        last = Some(key);
        rest = after;
    }
    Ok((values, rest))
}

/// The default values of a region with this range, in a file that ends at `end`.
#[tactic(auto, unfolding(crate::specs::Families::values_at))]
pub fn values_of(
    alloc: Global,
    end: u64,
    range: HandleRange,
    bytes: &[u8],
) -> Result<(Values, &[u8]), TableError>
    ensures gives { Gives (λ x. (x.0.entries, x.1.now)) result (values_at end range bytes.now) }
    ensures within { IfOk result (λ x. values_in range x.0.entries ≡ x.0.entries) }
{
    let (count, rest) = u64_of(end, bytes)?;
    each_value_of(alloc, end, range, count, rest)
}

// ---- locks

fn is_above(last: Option<Handle>, handle: Handle) -> bool
    ensures { result ≡ is_above last handle }
{
    match last {
        None => true,
        Some(before) => before < handle,
    }
}

#[tactic(auto, unfolding(crate::specs::Families::lock_handle_at))]
fn lock_handle_of(
    end: u64,
    range: HandleRange,
    last: Option<Handle>,
    bytes: &[u8],
) -> Result<(Handle, &[u8]), TableError>
    ensures gives { seen (λ x. (x.0, x.1.now)) result ≡ lock_handle_at end range last bytes.now }
    ensures fits { IfOk result (λ x. (holds range x.0 ≡ true) × (is_above last x.0 ≡ true)) }
{
    let (handle, rest) = handle_of(end, bytes)?;
    if range.holds(handle) && is_above(last, handle) {
        return Ok((handle, rest));
    }
    Err(here(end, bytes))
}

fn kind_of(byte: u8) -> Option<LockKind>
    ensures { result ≡ kind_of byte }
{
    match byte {
        b'P' => Some(LockKind::Put),
        b'D' => Some(LockKind::Delete),
        b'L' => Some(LockKind::Lock),
        b'S' => Some(LockKind::Pessimistic),
        _ => None,
    }
}

#[tactic(auto, unfolding(crate::specs::Families::kind_at))]
fn kind_in(end: u64, bytes: &[u8]) -> Result<(LockKind, &[u8]), TableError>
    ensures { seen (λ x. (x.0, x.1.now)) result ≡ kind_at end bytes.now }
{
    let (byte, rest) = u8_of(end, bytes)?;
    match kind_of(byte) {
        None => Err(here(end, bytes)),
        Some(kind) => Ok((kind, rest)),
    }
}

#[tactic(auto, unfolding(crate::specs::Families::lock_at))]
fn lock_of(
    end: u64,
    range: HandleRange,
    last: Option<Handle>,
    bytes: &[u8],
) -> Result<(Handle, Lock, &[u8]), TableError>
    ensures gives { seen (λ x. ((x.0, x.1), x.2.now)) result ≡ lock_at end range last bytes.now }
    ensures fits { IfOk result (λ x. (holds range x.0 ≡ true) × (is_above last x.0 ≡ true)) }
{
    let (handle, rest) = lock_handle_of(end, range, last, bytes)?;
    let (kind, rest) = kind_in(end, rest)?;
    let (start, rest) = u64_of(end, rest)?;
    Ok((handle, Lock { kind, start }, rest))
}

fn each_lock_of(
    alloc: Global,
    end: u64,
    range: HandleRange,
    count: u64,
    bytes: &[u8],
) -> Result<(Locks, &[u8]), TableError>
    ensures gives { Gives (λ x. (x.0.entries, x.1.now)) result (each_lock_at end range count bytes.now) }
    ensures within { IfOk result (λ x. locks_in range x.0.entries ≡ x.0.entries) }
{
    let mut locks = BTreeMap::new(alloc);
    let mut rest = bytes;
    let mut last = None;
    for _ in 0..count {
        let (handle, lock, after) = lock_of(end, range, last, rest)?;
        let Ok(()) = append(&mut locks, handle, lock) else {
            return Err(TableError::Memory);
        };
        last = Some(handle);
        rest = after;
    }
    Ok((locks, rest))
}

/// The locks of a region with this range, in a file that ends at `end`.
#[tactic(auto, unfolding(crate::specs::Families::locks_at))]
pub fn locks_of(
    alloc: Global,
    end: u64,
    range: HandleRange,
    bytes: &[u8],
) -> Result<(Locks, &[u8]), TableError>
    ensures gives { Gives (λ x. (x.0.entries, x.1.now)) result (locks_at end range bytes.now) }
    ensures within { IfOk result (λ x. locks_in range x.0.entries ≡ x.0.entries) }
{
    let (count, rest) = u64_of(end, bytes)?;
    each_lock_of(alloc, end, range, count, rest)
}
