// The index.
ghost use Rattle.std.specs.Prelude.{◌≡◌, ◌<◌, ◌≤◌, [], length, slice_get, Some, IfOk};
ghost use Rattle.delta_index.specs.Indexes.{extended, cleared, AreRising, IsFirstFrom};
ghost use Rattle.delta_index.specs.Chunks.{flat};

use crate::Memory;
use crate::change::{cleared_by, extended_by};
use crate::chunks::Chunks;
use crate::gather::{IndexRow, gathered};
use crate::join::joined;
use column_block::Block;
use flash_types::HandleRange;
use std::alloc::Global;
use std::marker::Model;

/// The versions of a delta in order of handle and timestamp, each pair once: where it stands twice,
/// the later file's stays, and of one file the later row. Contracts see the list of its entries: a
/// version's handle and timestamp, beside the number of its file and its row there.
#[derive(Drop)]
pub struct DeltaIndex {
    chunks: Chunks,
    alloc: Global,
}

impl Model for DeltaIndex {
    ghost use Rattle.std.specs.Prelude.{List};
    ghost use Rattle.delta_index.specs.Indexes.{Entry, AreRising};
    ghost use Rattle.delta_index.specs.Chunks.{flat};

    ghost Value = { List Entry };

    ghost view = { λ index. flat index.chunks };

    ghost invariant = { λ index. AreRising (flat index.chunks) };
}

impl DeltaIndex {
    /// An index of no version. It takes no memory.
    #[tactic(auto, using(crate::proofs::Files::rising_empty))]
    pub fn new(alloc: Global) -> DeltaIndex
        ensures { result ≡ [] }
    {
        DeltaIndex {
            chunks: Chunks::new(alloc),
            alloc,
        }
    }

    /// The index with the versions of one more file, of which the delta has this number. A version
    /// takes the place of one with the same handle and timestamp. This index stays as it is.
    #[tactic(auto, using(crate::proofs::Files::extended_by, crate::proofs::Files::rising_by))]
    pub fn extended(&self, number: u64, block: &Block) -> Result<DeltaIndex, Memory>
        ensures { IfOk result (λ index. index ≡ extended self.now number block.now) }
    {
        let file = gathered(self.alloc, number, block)?;
        let made = extended_by(self.alloc, &self.chunks, file.as_slice())?;
        let chunks = joined(self.alloc, made)?;
        Ok(DeltaIndex {
            chunks,
            alloc: self.alloc,
        })
    }

    /// The index without the versions whose handles are in the range. This index stays as it is.
    #[tactic(auto, using(crate::proofs::Files::rising_left))]
    pub fn cleared(&self, range: HandleRange) -> Result<DeltaIndex, Memory>
        ensures { IfOk result (λ index. index ≡ cleared self.now range) }
    {
        let made = cleared_by(self.alloc, &self.chunks, range)?;
        let chunks = joined(self.alloc, made)?;
        Ok(DeltaIndex {
            chunks,
            alloc: self.alloc,
        })
    }

    /// The first place whose handle isn't below this one; the number of versions where there is
    /// none.
    pub fn first_from(&self, handle: i64) -> usize
        ensures { IsFirstFrom handle self.now result }
    {
        first_from(&self.chunks, handle)
    }

    /// The number of versions.
    pub fn len(&self) -> usize
        ensures count { result ≡ length self.now }
        ensures rising { AreRising self.now }
    {
        self.chunks.len()
    }

    /// The number of chunks that the entries are kept in, of 1 to 256 entries each. It is for tests
    /// and measurements: contracts see no chunks, and so promise nothing of it.
    pub fn chunk_count(&self) -> usize {
        self.chunks.count()
    }

    /// How many of these chunks another index holds too, so that they are kept once. It is for
    /// tests and measurements: contracts see no chunks, and so promise nothing of it.
    pub fn shared_chunk_count(&self) -> usize {
        self.chunks.shared()
    }

    /// The version at a place, counted from 0.
    pub fn at(&self, k: usize) -> IndexRow
        requires { k < length self.now }
        ensures { slice_get self.now k ≡ Some ((result.handle, result.ts), (result.number, result.row)) }
    {
        let entry = self.chunks.at(k);
        IndexRow {
            handle: entry.0.0,
            ts: entry.0.1,
            number: entry.1.0,
            row: entry.1.1,
        }
    }
}

// The first place whose handle isn't below this one.
fn first_from(chunks: &Chunks, handle: i64) -> usize
    requires { AreRising (flat chunks.now) }
    ensures { IsFirstFrom handle (flat chunks.now) result }
{
    let mut low = 0;
    let mut high = chunks.len();
    while low < high {
        let middle = low + (high - low) / 2;
        let entry = chunks.at(middle);
        if entry.0.0 < handle {
            low = middle + 1;
        } else {
            high = middle;
        }
    }
    low
}
