// The versions of one file in the index's order.
ghost use Rattle.std.specs.Prelude.{◌≡◌, [], IfOk, OnOk};
ghost use Rattle.std.specs.BTreeMap.{insert_entry};
ghost use Rattle.delta_index.specs.Indexes.{extended, AreRising};
ghost use Rattle.column_block.specs.Order.{key_cmp};

use crate::Memory;
use column_block::{Block, Version};
use std::alloc::Global;
use std::collections::BTreeMap;

/// Where a version of a delta stands.
#[derive(Clone, Copy, Debug, PartialEq, Eq)]
pub struct IndexRow {
    /// The row's key in the table.
    pub handle: i64,
    /// The commit timestamp.
    pub ts: u64,
    /// The number of the file in the delta.
    pub number: u64,
    /// The version's place in the file's block.
    pub row: u64,
}

// A version's handle and timestamp, beside the number of its file and its row there.
pub type Entry = ((i64, u64), (u64, u64));

type Places = BTreeMap<(i64, u64), (u64, u64)>;

fn place(found: &mut Places, version: &Version, at: (u64, u64)) -> Result<(), Memory>
    ensures { OnOk result (found.new.entries ≡ insert_entry key_cmp found.old.entries (version.now.handle, version.now.ts) at) }
{
    let handle = version.handle;
    match found.insert((handle, version.ts), at) {
        Ok(_) => Ok(()),
        Err(_) => Err(Memory),
    }
}

// The versions of a file by handle and timestamp, the last of each pair.
fn newest(alloc: Global, number: u64, block: &Block) -> Result<Places, Memory>
    ensures { IfOk result (λ found. found.entries ≡ extended [] number block.now) }
{
    let mut found = BTreeMap::new(alloc);
    for row in 0..block.len() {
        let version = block.at(row);
        place(&mut found, version, (number, row as u64))?;
    }
    Ok(found)
}

// The same as a list.
#[tactic(auto, using(crate::proofs::Files::rising_file))]
pub fn gathered(alloc: Global, number: u64, block: &Block) -> Result<Vec<Entry>, Memory>
    ensures entries { IfOk result (λ list. list.items ≡ extended [] number block.now) }
    ensures rising { IfOk result (λ list. AreRising list.items) }
{
    let found = newest(alloc, number, block)?;
    let mut list = Vec::with_capacity(alloc, found.len()).map_err(|_| Memory)?;
    for entry in found {
        if list.push(entry).is_err() {
            return Err(Memory);
        }
    }
    Ok(list)
}
