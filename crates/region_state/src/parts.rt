// The families of the two parts of a split.
ghost use Rattle.std.specs.Prelude.{◌≡◌, IfOk, OnOk, OnErr, int_lt, int_le, filter, ◌<◌};
ghost use Rattle.std.specs.List.Sorted.{IsStrictlySortedBy};
ghost use Rattle.std.specs.Map.{keys_of};
ghost use Rattle.std.specs.Ordering.{int_cmp};
ghost use Rattle.committed_log.specs.Regions.{lower_part, upper_part, merged};
ghost use Rattle.region_state.specs.Parting.{IsSideOf};

use crate::region::{Locks, Values};
use crate::union::{put, take_out};
use column_block::Memory;
use committed_log::{Descriptor, Lock};
use flash_types::{Epoch, Handle, HandleRange};
use std::alloc::Global;
use std::collections::BTreeMap;
use std::collections::btree_map::Range;
use std::mem::replace;

/// The locks below a handle or those from it on, whichever are fewer.
#[derive(Drop)]
pub enum Fewer {
    Below(Locks),
    From(Locks),
}

// The locks of the handles below one.
fn below(locks: &Locks, at: Handle) -> Range<'_, Handle, Lock>
    ensures all { result ≡ filter (λ e. int_lt e.0 at) locks.now.entries }
    ensures ordered { IsStrictlySortedBy int_cmp (keys_of result) }
{
    locks.range(..at)
}

// The locks of the handles from one on.
fn from_on(locks: &Locks, at: Handle) -> Range<'_, Handle, Lock>
    ensures all { result ≡ filter (λ e. int_le at e.0) locks.now.entries }
    ensures ordered { IsStrictlySortedBy int_cmp (keys_of result) }
{
    locks.range(at..)
}

// Whether there are fewer locks below a handle. It goes over both sides up to the end of the one that
// has fewer.
fn has_fewer_below(locks: &Locks, at: Handle) -> bool {
    let mut others = from_on(locks, at);
    for _ in below(locks, at) {
        if others.next().is_none() {
            return false;
        }
    }
    true
}

// The locks of a side in a map of their own.
fn copied(alloc: Global, side: Range<'_, Handle, Lock>) -> Result<Locks, Memory>
    requires { IsStrictlySortedBy int_cmp (keys_of side) }
    ensures { IfOk result (λ copy. copy.entries ≡ side.entry) }
{
    let mut copy = BTreeMap::new(alloc);
    for (handle, lock) in side {
        let Ok(()) = put(&mut copy, *handle, *lock) else {
            return Err(Memory);
        };
    }
    Ok(copy)
}

/// Copies the locks of the side of a handle that has fewer, in the time of that side alone.
pub fn fewer_locks(alloc: Global, locks: &Locks, at: Handle) -> Result<Fewer, Memory>
    ensures { IfOk result (IsSideOf at locks.now.entries) }
{
    if has_fewer_below(locks, at) {
        return match copied(alloc, below(locks, at)) {
            Ok(copy) => Ok(Fewer::Below(copy)),
            Err(_) => Err(Memory),
        };
    }
    match copied(alloc, from_on(locks, at)) {
        Ok(copy) => Ok(Fewer::From(copy)),
        Err(_) => Err(Memory),
    }
}

/// Parts the locks at a handle: they keep those below it, and the answer has the others. It takes no
/// memory, since the side that has fewer was copied before.
pub fn part_locks(locks: &mut Locks, at: Handle, fewer: Fewer) -> Locks
    requires { IsSideOf at locks.old.entries fewer }
    ensures lower { locks.new.entries ≡ filter (λ e. int_lt e.0 at) locks.old.entries }
    ensures upper { result.entries ≡ filter (λ e. int_le at e.0) locks.old.entries }
{
    // Gives the proof that the handles are in order.
    let _len = locks.len();
    match fewer {
        Fewer::Below(below) => {
            take_out(locks, &below);
            replace(locks, below)
        }
        Fewer::From(above) => {
            take_out(locks, &above);
            above
        }
    }
}

/// Takes off the values of the handles from one on. After `Err` the values are as before.
pub fn part_values(values: &mut Values, at: Handle) -> Result<Values, Memory>
    ensures lower { OnOk result (values.new.entries ≡ filter (λ e. int_lt e.0.0 at) values.old.entries) }
    ensures upper { IfOk result (λ upper. upper.entries ≡ filter (λ e. int_le at e.0.0) values.old.entries) }
    ensures err { OnErr result (values.new.entries ≡ values.old.entries) }
{
    match values.split_off(&(at, 0)) {
        Ok(upper) => Ok(upper),
        Err(_) => Err(Memory),
    }
}

/// What the lower part of a split is.
pub fn lower_part(there: Descriptor, at: Handle, index: u64) -> Descriptor
    requires { there.epoch.version < 18446744073709551615 }
    ensures { result ≡ lower_part there at index }
{
    Descriptor {
        range: HandleRange {
            low: there.range.low,
            high: Some(at),
        },
        epoch: Epoch {
            conf_ver: there.epoch.conf_ver,
            version: there.epoch.version + 1,
        },
        index,
    }
}

/// What the upper part of a split is.
pub fn upper_part(there: Descriptor, at: Handle) -> Descriptor
    requires { there.epoch.version < 18446744073709551615 }
    ensures { result ≡ upper_part there at }
{
    Descriptor {
        range: HandleRange {
            low: at,
            high: there.range.high,
        },
        epoch: Epoch {
            conf_ver: there.epoch.conf_ver,
            version: there.epoch.version + 1,
        },
        index: 5,
    }
}

/// What a region is after another was merged into it.
pub fn merged(there: Descriptor, source: Descriptor, index: u64) -> Descriptor
    requires there { there.epoch.version < 18446744073709551615 }
    requires source { source.epoch.version < 18446744073709551615 }
    ensures { result ≡ merged there source index }
{
    Descriptor {
        range: there.range.joined(&source.range),
        epoch: Epoch {
            conf_ver: there.epoch.conf_ver,
            version: there.epoch.version.max(source.epoch.version) + 1,
        },
        index,
    }
}
