// One region of the replica.
ghost use Rattle.std.specs.Prelude.{◌≡◌, ◌<◌, ◌^◌, length, option_map, slice_get, Some, IfOk, OnOk, OnErr, IfErr, true, int_lt};
ghost use Rattle.flash_types.specs.Ranges.{holds, is_below, touch};
ghost use Rattle.std.specs.BTreeMap.{IsOrdered};
ghost use Rattle.std.specs.List.Sorted.{IsStrictlySortedBy};
ghost use Rattle.std.specs.Map.{keys_of};
ghost use Rattle.std.specs.Ordering.{int_cmp};
ghost use Rattle.committed_log.specs.Replies.{first_lock};
ghost use Rattle.committed_log.specs.Store.{value_cmp};
ghost use Rattle.region_state.specs.Folding.{versions_of, folded, lies_in};
ghost use Rattle.std.specs.List.{list_all};
ghost use Rattle.region_state.specs.State.{born, prepared, IsWithin, lower_of, upper_of, absorbed};

use crate::advance::advance;
use crate::locks::first_lock;
use crate::parts::{fewer_locks, lower_part, merged, part_locks, part_values, upper_part};
use crate::plan::versions;
use crate::union::unite;
use column_block::{Block, Memory, Schema};
use committed_log::{Descriptor, FamilyOp, Lock};
use flash_types::{Epoch, Handle, HandleRange, RegionId, Ts};
use kv_codec::LockKind;
use log_codec::OpBytes;
use std::alloc::Global;
use std::collections::BTreeMap;
use std::collections::btree_map::Iter;
use std::marker::Model;

/// The values of the default family, by row and start of the transaction.
pub type Values = BTreeMap<(Handle, Ts), OpBytes>;

/// The locks, by row.
pub type Locks = BTreeMap<Handle, Lock>;

/// One region of the replica, live or prepared to be merged: the handles that it has, its epoch and
/// its last index, the target of its merge where it is prepared, and the default and the lock family
/// of its handles, as TiKV keeps them. Of other handles it has nothing.
#[derive(Drop)]
pub struct Region {
    descriptor: Descriptor,
    target: Option<RegionId>,
    values: Values,
    locks: Locks,
    alloc: Global,
}

impl Model for Region {
    ghost use Rattle.region_state.specs.State.{State, IsWithin};

    ghost Value = { State };

    ghost view = { λ r. record { descriptor = r.descriptor; target = r.target; values = r.values.entries; locks = r.locks.entries } };

    ghost invariant = { λ r. IsWithin r.descriptor.range r.values.entries r.locks.entries };
}

impl Region {
    /// A region with these handles, this epoch and this last index, and no rows. It takes no memory.
    pub fn new(alloc: Global, range: HandleRange, epoch: Epoch, index: u64) -> Region
        ensures { result ≡ born range epoch index }
    {
        Region {
            descriptor: Descriptor {
                range,
                epoch,
                index,
            },
            target: None,
            values: BTreeMap::new(alloc),
            locks: BTreeMap::new(alloc),
            alloc,
        }
    }

    /// A region that has these families, as a file tells them.
    pub fn from_parts(
        alloc: Global,
        descriptor: Descriptor,
        target: Option<RegionId>,
        values: Values,
        locks: Locks,
    ) -> Region
        requires { IsWithin descriptor.range values.entries locks.entries }
        ensures { result ≡ record { descriptor = descriptor; target = target; values = values.entries; locks = locks.entries } }
    {
        Region {
            descriptor,
            target,
            values,
            locks,
            alloc,
        }
    }

    /// The range, the epoch and the last index.
    pub fn descriptor(&self) -> Descriptor
        ensures { result ≡ self.now.descriptor }
    {
        self.descriptor
    }

    /// The handles that it has.
    pub fn range(&self) -> HandleRange
        ensures { result ≡ self.now.descriptor.range }
    {
        self.descriptor.range
    }

    /// Its epoch.
    pub fn epoch(&self) -> Epoch
        ensures { result ≡ self.now.descriptor.epoch }
    {
        self.descriptor.epoch
    }

    /// Its last index.
    pub fn index(&self) -> u64
        ensures { result ≡ self.now.descriptor.index }
    {
        self.descriptor.index
    }

    /// The region into which it is to be merged, where it is prepared.
    pub fn target(&self) -> Option<RegionId>
        ensures { result ≡ self.now.target }
    {
        self.target
    }

    /// The number of values of the default family.
    pub fn values(&self) -> usize
        ensures { result ≡ length self.now.values }
    {
        self.values.len()
    }

    /// The k-th value, by handle and start, with its handle and its start; k counts from 0. It goes
    /// over those before it: use `each_value` for all of them.
    pub fn value(&self, k: usize) -> (i64, u64, &[u8])
        requires { k < length self.now.values }
        ensures { slice_get self.now.values k ≡ Some ((result.0, result.1), result.2.now) }
    {
        match self.values.iter().nth(k) {
            Some((key, bytes)) => (key.0, key.1, bytes.as_slice()),
            None => unreachable!(),
        }
    }

    /// The number of locks.
    pub fn locks(&self) -> usize
        ensures { result ≡ length self.now.locks }
    {
        self.locks.len()
    }

    /// The k-th lock, by handle: the handle, the lock's kind and the start of its transaction; k
    /// counts from 0. It goes over those before it: use `each_lock` for all of them.
    pub fn lock(&self, k: usize) -> (i64, LockKind, u64)
        requires { k < length self.now.locks }
        ensures { slice_get self.now.locks k ≡ Some (result.0, record { kind = result.1; start = result.2 }) }
    {
        match self.locks.iter().nth(k) {
            Some((handle, lock)) => (*handle, lock.kind, lock.start),
            None => unreachable!(),
        }
    }

    /// The values of the default family in the order of handle and start.
    pub fn each_value(&self) -> Iter<'_, (Handle, Ts), OpBytes>
        ensures all { result ≡ self.now.values }
        ensures ordered { IsStrictlySortedBy value_cmp (keys_of self.now.values) }
        ensures fits { length self.now.values < 2 ^ 63 }
        ensures within { IsWithin self.now.descriptor.range self.now.values self.now.locks }
    {
        self.values.iter()
    }

    /// The locks in the order of handles.
    pub fn each_lock(&self) -> Iter<'_, Handle, Lock>
        ensures all { result ≡ self.now.locks }
        ensures ordered { IsStrictlySortedBy int_cmp (keys_of self.now.locks) }
        ensures fits { length self.now.locks < 2 ^ 63 }
        ensures within { IsWithin self.now.descriptor.range self.now.values self.now.locks }
    {
        self.locks.iter()
    }

    /// The lock at the least handle of a range that is in the way of a read at this timestamp: a
    /// put's or a delete's, by a transaction that began at or before it. As in Percolator such a
    /// transaction may yet commit below the timestamp. It gives the handle and the transaction's
    /// start, and goes over the locks of the range alone.
    pub fn first_lock(&self, range: HandleRange, ts: Ts) -> Option<(Handle, Ts)>
        ensures { result ≡ option_map (λ l. (l.0, l.1.start)) (first_lock self.now.locks range ts) }
    {
        first_lock(&self.locks, range, ts)
    }

    /// The effect of an entry that prepares this region to be merged into the target: both numbers
    /// of its epoch rise, and its last index becomes the entry's.
    pub fn prepare(&mut self, target: RegionId, index: u64)
        requires conf_ver { self.old.descriptor.epoch.conf_ver < 18446744073709551615 }
        requires version { self.old.descriptor.epoch.version < 18446744073709551615 }
        ensures { self.new ≡ prepared self.old target index }
    {
        self.descriptor.epoch.conf_ver += 1;
        self.descriptor.epoch.version += 1;
        self.descriptor.index = index;
        self.target = Some(target);
    }

    /// Changes the target of its merge alone.
    pub fn set_target(&mut self, target: RegionId)
        ensures { self.new ≡ record self.old { target = Some target } }
    {
        self.target = Some(target);
    }

    /// The versions that changes commit, in order, as `fold` answers them. The region stays. Of a put
    /// that has no value there is a version that is gone, and of a value that isn't a row of the
    /// schema one without cells. `Memory` where memory runs out.
    pub fn versions(&self, ops: &[FamilyOp], schema: &Schema) -> Result<Block, Memory>
        ensures { IfOk result (λ block. block ≡ versions_of schema.now self.now ops.now) }
    {
        versions(self.alloc, &self.values, ops, schema)
    }

    /// Makes the changes of an entry, in order. The last index becomes the entry's. It makes no
    /// versions: `versions` answers those that the changes commit, where they aren't made yet. After
    /// `Memory` the region is as before.
    pub fn advance(&mut self, index: u64, ops: &[FamilyOp]) -> Result<(), Memory>
        requires { list_all (lies_in self.old.descriptor.range) ops.now ≡ true }
        ensures folded { OnOk result (self.new ≡ folded self.old index ops.now) }
        ensures err { OnErr result (self.new ≡ self.old) }
    {
        match advance(self.alloc, &mut self.values, &mut self.locks, ops) {
            Ok(()) => {
                self.descriptor.index = index;
                Ok(())
            }
            Err(_) => Err(Memory),
        }
    }

    /// Makes the changes of an entry, in order, and answers the versions that they commit. The last
    /// index becomes the entry's. A change that says a row's last commit again isn't among them. Of a
    /// put that has no value there is a version that is gone, and of a value that isn't a row of the
    /// schema one without cells. After `Memory` the region is as before.
    pub fn fold(&mut self, index: u64, ops: &[FamilyOp], schema: &Schema) -> Result<Block, Memory>
        requires { list_all (lies_in self.old.descriptor.range) ops.now ≡ true }
        ensures versions { IfOk result (λ block. block ≡ versions_of schema.now self.old ops.now) }
        ensures folded { OnOk result (self.new ≡ folded self.old index ops.now) }
        ensures err { OnErr result (self.new ≡ self.old) }
    {
        let block = self.versions(ops, schema)?;
        self.advance(index, ops)?;
        Ok(block)
    }

    /// Parts the region at a handle: it keeps the handles below, and the answer has the others, with
    /// index 5 as TiKV's first one. Both get the next version of the epoch. It costs no more than the
    /// side that has fewer. After `Memory` the region is as before.
    pub fn split_off(&mut self, at: Handle, index: u64) -> Result<Region, Memory>
        requires above { int_lt self.old.descriptor.range.low at ≡ true }
        requires inside { holds self.old.descriptor.range at ≡ true }
        requires version { self.old.descriptor.epoch.version < 18446744073709551615 }
        ensures lower { OnOk result (self.new ≡ lower_of self.old at index) }
        ensures upper { IfOk result (λ upper. upper ≡ upper_of self.old at) }
        ensures err { OnErr result (self.new ≡ self.old) }
    {
        let Ok(fewer) = fewer_locks(self.alloc, &self.locks, at) else {
            return Err(Memory);
        };
        let Ok(upper_values) = part_values(&mut self.values, at) else {
            return Err(Memory);
        };
        let upper_locks = part_locks(&mut self.locks, at, fewer);
        let upper = Region {
            descriptor: upper_part(self.descriptor, at),
            target: None,
            values: upper_values,
            locks: upper_locks,
            alloc: self.alloc,
        };
        self.descriptor = lower_part(self.descriptor, at, index);
        Ok(upper)
    }

    /// Takes the handles and the families of a region whose range touches this one's, where neither
    /// range is empty: the low end of an empty one may lie above the other's handles, which the joined
    /// range would lose. The version becomes the greater of both, plus 1, and the last index the
    /// entry's. It costs no more than the families that are fewer. `Err` hands the other back for want of memory, and leaves both as they were.
    pub fn absorb(&mut self, other: Region, index: u64) -> Result<(), Region>
        requires touch { touch self.old.descriptor.range other.descriptor.range ≡ true }
        requires filled { is_below self.old.descriptor.range.low self.old.descriptor.range.high ≡ true }
        requires other_filled { is_below other.descriptor.range.low other.descriptor.range.high ≡ true }
        requires version { self.old.descriptor.epoch.version < 18446744073709551615 }
        requires other_version { other.descriptor.epoch.version < 18446744073709551615 }
        ensures ok { OnOk result (self.new ≡ absorbed self.old other index) }
        ensures err { OnErr result (self.new ≡ self.old) }
        ensures back { IfErr result (λ back. back ≡ other) }
    {
        let Region {
            descriptor,
            target,
            mut values,
            mut locks,
            alloc,
        } = other;
        match unite(&mut self.values, &mut self.locks, &mut values, &mut locks) {
            Ok(()) => {
                self.descriptor = merged(self.descriptor, descriptor, index);
                Ok(())
            }
            Err(_) => Err(Region {
                descriptor,
                target,
                values,
                locks,
                alloc,
            }),
        }
    }
}
