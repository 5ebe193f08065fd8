// Blocks of versions.
ghost use Rattle.std.specs.Prelude.{◌≡◌, ◌<◌, ◌≤◌, ℕ, [], ◌∷◌, ◌++◌, length, map, slice_get, slice_index, slice_range, EachIndex, IfOk, OnOk, IfErr, OnErr, Some};
ghost use Rattle.std.specs.Prelude.{filter};
ghost use Rattle.std.specs.Arc.{arc_value};
ghost use Rattle.std.specs.List.{list_any};
ghost use Rattle.column_block.specs.Handles.{lies_in};

use crate::Memory;
use crate::cell::Version;
use crate::handles::lies_in;
use std::alloc::Global;
use std::marker::Model;
use std::sync::Arc;

/// A list of versions. Blocks that have a version in common share it, so that a slice, a new order
/// or an appended block copies pointers and no cells.
#[derive(Drop)]
pub struct Block {
    versions: Vec<Arc<Version, Global>>,
    alloc: Global,
}

impl Model for Block {
    ghost use Rattle.std.specs.Prelude.{List, map};
    ghost use Rattle.column_block.specs.declared.cell.Version.{Version};
    ghost use Rattle.std.specs.Arc.{arc_value};

    ghost Value = { List Version };

    ghost view = { λ block. map arc_value block.versions.items };
}

impl Block {
    /// A block with no version. It takes no memory.
    pub fn new(alloc: Global) -> Block
        ensures { result ≡ [] }
    {
        Block {
            versions: Vec::new(alloc),
            alloc,
        }
    }

    /// Adds a version at the end, or hands it back for want of memory.
    pub fn push(&mut self, version: Version) -> Result<(), Version>
        ensures ok { OnOk result (self.new ≡ self.old ++ version ∷ []) }
        ensures err { OnErr result (self.new ≡ self.old) }
        ensures back { IfErr result (λ back. back ≡ version) }
    {
        if self.versions.reserve(1).is_err() {
            return Err(version);
        }
        match Arc::new(self.alloc, version) {
            Ok(shared) => {
                let Ok(()) = self.versions.push(shared) else {
                    unreachable!();
                };
                Ok(())
            }
            Err(failed) => Err(failed.value),
        }
    }

    /// The versions from place `from` up to but without place `to`.
    pub fn slice(&self, from: usize, to: usize) -> Result<Block, Memory>
        requires order { from ≤ to }
        requires within { to ≤ length self.now }
        ensures { IfOk result (λ part. part ≡ slice_range self.now from to) }
    {
        let mut versions = Vec::new(self.alloc);
        share_all(&self.versions[from..to], &mut versions)?;
        Ok(Block {
            versions,
            alloc: self.alloc,
        })
    }

    /// The versions in a new order: at each place the version whose old place stands there.
    pub fn permuted(&self, order: &[u64]) -> Result<Block, Memory>
        requires { EachIndex order.now (λ i. slice_index order.now i < length self.now) }
        ensures { IfOk result (λ block. map Some block ≡ map (slice_get self.now) order.now) }
    {
        let mut versions = Vec::with_capacity(self.alloc, order.len()).map_err(|_| Memory)?;
        for place in order {
            share(&self.versions[*place as usize], &mut versions)?;
        }
        Ok(Block {
            versions,
            alloc: self.alloc,
        })
    }

    /// The versions whose handles lie from `low` up to and without `high`, where there is one, in
    /// the order in which they stand here. They are shared, and the block may stand in any order.
    pub fn kept(&self, low: i64, high: Option<i64>) -> Result<Block, Memory>
        ensures { IfOk result (λ part. part ≡ filter (lies_in low high) self.now) }
    {
        let mut versions = Vec::new(self.alloc);
        for one in self.versions.as_slice() {
            if lies_in(low, high, one) {
                share(one, &mut versions)?;
            }
        }
        Ok(Block {
            versions,
            alloc: self.alloc,
        })
    }

    /// Whether a version's handle lies from `low` up to and without `high`, where there is one.
    pub fn has_in(&self, low: i64, high: Option<i64>) -> bool
        ensures { result ≡ list_any (lies_in low high) self.now }
    {
        for one in self.versions.as_slice() {
            if lies_in(low, high, one) {
                return true;
            }
        }
        false
    }

    /// Adds the versions of another block at the end. After `Err` the block is as before.
    pub fn append(&mut self, other: &Block) -> Result<(), Memory>
        ensures ok { OnOk result (self.new ≡ self.old ++ other.now) }
        ensures err { OnErr result (self.new ≡ self.old) }
    {
        share_all(other.versions.as_slice(), &mut self.versions)
    }

    /// The number of versions.
    pub fn len(&self) -> usize
        ensures { result ≡ length self.now }
    {
        self.versions.len()
    }

    /// The version at a place, counted from 0.
    pub fn at(&self, i: usize) -> &Version
        requires { i < length self.now }
        ensures { slice_get self.now i ≡ Some result.now }
    {
        &self.versions[i]
    }

    /// The handle of the version at a place.
    pub fn handle(&self, i: usize) -> i64
        requires { i < length self.now }
        ensures { slice_get (map (λ version. version.handle) self.now) i ≡ Some result }
    {
        self.at(i).handle
    }

    /// The commit timestamp of the version at a place.
    pub fn ts(&self, i: usize) -> u64
        requires { i < length self.now }
        ensures { slice_get (map (λ version. version.ts) self.now) i ≡ Some result }
    {
        self.at(i).ts
    }
}

// Adds one more owner of each version at the end. After `Err` the versions are as before.
fn share_all(
    from: &[Arc<Version, Global>],
    into: &mut Vec<Arc<Version, Global>>,
) -> Result<(), Memory>
    ensures ok { OnOk result (map arc_value into.new.items ≡ map arc_value into.old.items ++ map arc_value from.now) }
    ensures err { OnErr result (map arc_value into.new.items ≡ map arc_value into.old.items) }
{
    if into.reserve(from.len()).is_err() {
        return Err(Memory);
    }
    let before = into.len();
    for one in from {
        if let Err(memory) = share(one, into) {
            into.truncate(before);
            return Err(memory);
        }
    }
    Ok(())
}

// Adds one more owner of a version at the end. After `Err` the versions are as before.
fn share(one: &Arc<Version, Global>, into: &mut Vec<Arc<Version, Global>>) -> Result<(), Memory>
    ensures ok { OnOk result (map arc_value into.new.items ≡ map arc_value into.old.items ++ arc_value one.now ∷ []) }
    ensures err { OnErr result (map arc_value into.new.items ≡ map arc_value into.old.items) }
{
    let Ok(shared) = Arc::try_clone(one) else {
        return Err(Memory);
    };
    match into.push(shared) {
        Ok(()) => Ok(()),
        Err(_) => Err(Memory),
    }
}
