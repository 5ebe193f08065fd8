// Whether two lists of regions have the same.
ghost use Rattle.std.specs.Bool.{Decides};
ghost use Rattle.std.specs.Prelude.{◌≡◌};

use crate::entry::{Entries, Entry};
use committed_log::{Descriptor, Lock};
use flash_types::{Epoch, Handle, HandleRange, RegionId, Ts};
use log_codec::OpBytes;
use region_state::Region;

fn same_range(a: HandleRange, b: HandleRange) -> bool
    ensures { Decides result (a ≡ b) }
{
    a == b
}

fn same_epoch(a: Epoch, b: Epoch) -> bool
    ensures { Decides result (a ≡ b) }
{
    a == b
}

fn same_descriptor(a: Descriptor, b: Descriptor) -> bool
    ensures { Decides result (a ≡ b) }
{
    a.index == b.index && same_range(a.range, b.range) && same_epoch(a.epoch, b.epoch)
}

fn same_target(a: Option<RegionId>, b: Option<RegionId>) -> bool
    ensures { Decides result (a ≡ b) }
{
    a == b
}

fn same_text(a: &[u8], b: &[u8]) -> bool
    ensures { Decides result (a.now ≡ b.now) }
{
    a == b
}

// Whether two default values are of the same transaction on the same row, with the same bytes.
fn same_value(a: (Handle, Ts), value: &OpBytes, b: (Handle, Ts), other: &OpBytes) -> bool
    ensures { Decides result ((a ≡ b) × (value.now ≡ other.now)) }
{
    a.0 == b.0 && a.1 == b.1 && same_text(value.as_slice(), other.as_slice())
}

fn same_values(a: &Region, b: &Region) -> bool
    ensures { Decides result (a.now.values ≡ b.now.values) }
{
    let mut others = b.each_value();
    for (key, value) in a.each_value() {
        match others.next() {
            None => return false,
            Some((other, that)) => if !same_value(*key, value, *other, that) {
                return false;
            }
        }
    }
    others.next().is_none()
}

// Whether two locks are on the same row, and the same.
fn same_lock(a: Handle, lock: Lock, b: Handle, other: Lock) -> bool
    ensures { Decides result ((a ≡ b) × (lock ≡ other)) }
{
    a == b && lock.start == other.start && lock.kind == other.kind
}

fn same_locks(a: &Region, b: &Region) -> bool
    ensures { Decides result (a.now.locks ≡ b.now.locks) }
{
    let mut others = b.each_lock();
    for (handle, lock) in a.each_lock() {
        match others.next() {
            None => return false,
            Some((other, that)) => if !same_lock(*handle, *lock, *other, *that) {
                return false;
            }
        }
    }
    others.next().is_none()
}

fn same_region(a: &Region, b: &Region) -> bool
    ensures { Decides result (a.now ≡ b.now) }
{
    same_descriptor(a.descriptor(), b.descriptor())
        && same_target(a.target(), b.target())
        && same_values(a, b)
        && same_locks(a, b)
}

fn same_kept(a: &Entry, b: &Entry) -> bool
    ensures { Decides result (a.now ≡ b.now) }
{
    match (a, b) {
        (Entry::Gone { index }, Entry::Gone { index: other }) => index == other,
        (Entry::There { region }, Entry::There { region: other }) => same_region(region, other),
        (Entry::Gone { .. }, Entry::There { .. }) => false,
        (Entry::There { .. }, Entry::Gone { .. }) => false,
    }
}

// Whether two regions have the same number, and the same is kept of them.
fn same_born(a: RegionId, kept: &Entry, b: RegionId, other: &Entry) -> bool
    ensures { Decides result ((a ≡ b) × (kept.now ≡ other.now)) }
{
    a == b && same_kept(kept, other)
}

/// Whether two lists of regions have the same ones, and the same of each: descriptor, target, default
/// values and locks. It goes over both side by side, and takes no memory.
pub fn same_regions(a: &Entries, b: &Entries) -> bool
    ensures { Decides result (a.now.entries ≡ b.now.entries) }
{
    let mut others = b.iter();
    for (id, kept) in a.iter() {
        match others.next() {
            None => return false,
            Some((other, that)) => if !same_born(*id, kept, *other, that) {
                return false;
            }
        }
    }
    others.next().is_none()
}
