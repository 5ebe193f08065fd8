// Entries in chunks that several indexes share.
ghost use Rattle.std.specs.Prelude.{◌≡◌, ◌<◌, ◌≤◌, ◌++◌, ◌∷◌, [], length, map, take, get_or, slice_get, Some, IfOk, OnOk};
ghost use Rattle.std.specs.Arc.{arc_value};
ghost use Rattle.delta_index.specs.Chunks.{flat, IsSized, IsChunkOf};

use crate::Memory;
use crate::gather::Entry;
use flash_list::Items;
use std::alloc::Global;
use std::marker::Model;
use std::sync::Arc;

// Chunks, each with the place of its first entry among all. Contracts see the list of the chunks.
#[derive(Drop)]
pub struct Chunks {
    chunks: Vec<Arc<Items<Entry>, Global>>,
    starts: Vec<usize>,
    len: usize,
}

impl Model for Chunks {
    ghost use Rattle.std.specs.Prelude.{List, map};
    ghost use Rattle.std.specs.Arc.{arc_value};
    ghost use Rattle.delta_index.specs.Indexes.{Entry};
    ghost use Rattle.delta_index.specs.Chunks.{AreChunks};

    ghost Value = { List (List Entry) };

    ghost view = { λ it. map arc_value it.chunks.items };

    ghost invariant = { λ it. AreChunks (map arc_value it.chunks.items) it.starts.items it.len };
}

impl Chunks {
    // No chunk. It takes no memory.
    pub fn new(alloc: Global) -> Chunks
        ensures { result ≡ [] }
    {
        Chunks {
            chunks: Vec::new(alloc),
            starts: Vec::new(alloc),
            len: 0,
        }
    }

    // The chunks with one more at the end.
    #[tactic(auto, using(crate::proofs::Pieces::flat_more))]
    pub fn pushed(self, chunk: Arc<Items<Entry>, Global>) -> Result<Chunks, Memory>
        requires { IsSized (arc_value chunk) }
        ensures { IfOk result (λ all. flat all ≡ flat self ++ arc_value chunk) }
    {
        let Chunks {
            mut chunks,
            mut starts,
            len,
        } = self;
        let Some(more) = len.checked_add(chunk.len()) else {
            return Err(Memory);
        };
        add_start(&mut starts, len)?;
        add_chunk(&mut chunks, chunk)?;
        Ok(Chunks {
            chunks,
            starts,
            len: more,
        })
    }

    // One more owner of a chunk.
    pub fn share(&self, j: usize) -> Result<Arc<Items<Entry>, Global>, Memory>
        requires { j < length self.now }
        ensures same { IfOk result (λ one. arc_value one ≡ get_or self.now j []) }
        ensures sized { IfOk result (λ one. IsSized (arc_value one)) }
    {
        match Arc::try_clone(&self.chunks[j]) {
            Ok(shared) => Ok(shared),
            Err(_) => Err(Memory),
        }
    }

    // The number of entries.
    pub fn len(&self) -> usize
        ensures { result ≡ length (flat self.now) }
    {
        self.len
    }

    // The number of chunks.
    pub fn count(&self) -> usize
        ensures { result ≡ length self.now }
    {
        self.chunks.len()
    }

    // How many of the chunks have another owner.
    pub fn shared(&self) -> usize {
        let mut shared = 0;
        for chunk in &self.chunks {
            if Arc::strong_count(chunk) > 1 {
                shared += 1;
            }
        }
        shared
    }

    // The entries of a chunk.
    pub fn chunk(&self, j: usize) -> &[Entry]
        requires { j < length self.now }
        ensures same { result.now ≡ get_or self.now j [] }
        ensures sized { IsSized result.now }
    {
        self.chunks[j].as_slice()
    }

    // The entry at a place among all.
    pub fn at(&self, k: usize) -> Entry
        requires { k < length (flat self.now) }
        ensures { slice_get (flat self.now) k ≡ Some result }
    {
        let j = self.chunk_of(k);
        let start = self.start(j);
        self.chunk(j)[k - start]
    }

    // The place of a chunk's first entry among all.
    fn start(&self, j: usize) -> usize
        requires { j < length self.now }
        ensures { result ≡ length (flat (take j self.now)) }
    {
        self.starts[j]
    }

    // The chunk with the entry at a place among all.
    fn chunk_of(&self, k: usize) -> usize
        requires { k < length (flat self.now) }
        ensures { IsChunkOf self.now k result }
    {
        let mut low = 0;
        let mut high = self.chunks.len();
        while high - low > 1 {
            let middle = low + (high - low) / 2;
            if self.start(middle) <= k {
                low = middle;
            } else {
                high = middle;
            }
        }
        low
    }
}

fn add_start(starts: &mut Vec<usize>, start: usize) -> Result<(), Memory>
    ensures { OnOk result (starts.new.items ≡ starts.old.items ++ start ∷ []) }
{
    match starts.push(start) {
        Ok(()) => Ok(()),
        Err(_) => Err(Memory),
    }
}

fn add_chunk(
    chunks: &mut Vec<Arc<Items<Entry>, Global>>,
    chunk: Arc<Items<Entry>, Global>,
) -> Result<(), Memory>
    ensures { OnOk result (map arc_value chunks.new.items ≡ map arc_value chunks.old.items ++ arc_value chunk ∷ []) }
{
    match chunks.push(chunk) {
        Ok(()) => Ok(()),
        Err(_) => Err(Memory),
    }
}
