// The delta of a segment, as it grows.
ghost use Rattle.std.specs.Prelude.{◌≡◌, ◌<◌, ◌≤◌, ◌+◌, ◌^◌, [], ◌∷◌, ◌++◌, true, length, take, drop, map, slice_get, IfOk, OnOk, IfErr, OnErr, MatchOption, Some};
ghost use Rattle.std.specs.Arc.{arc_value};
ghost use Rattle.delta_layer.specs.Files.{index_of, is_mem, is_tiny, HasNoMem, IsLayered};
ghost use Rattle.delta_layer.specs.Repacked.{CanCompact, CanFlush, compacted, first_mem, flushed, replaced};

use crate::Memory;
use crate::slots::{
    Slot, add_file, add_shared, files_in, front_of, next_index, share_file, share_index, take_last,
};
use crate::view::{DeltaView, made};
use column_file::ColumnFile;
use delta_index::DeltaIndex;
use std::alloc::Global;
use std::marker::Model;
use std::sync::Arc;

/// The files of a segment's delta, the oldest first. No block in memory stands before a tiny file.
/// Contracts see the list of the files. Beside each file it keeps the index over the files up to and
/// with it, so that the last file is taken back without memory.
#[derive(Drop)]
pub struct DeltaLayer {
    slots: Vec<Slot>,
    empty: DeltaIndex,
    alloc: Global,
}

impl Model for DeltaLayer {
    ghost use Rattle.std.specs.Prelude.{◌≡◌, [], List};
    ghost use Rattle.column_file.specs.declared.file.ColumnFile.{ColumnFile};
    ghost use Rattle.delta_layer.specs.Slots.{AreSlots, files_in, indexes_in};

    ghost Value = { List ColumnFile };

    ghost view = { λ it. files_in it.slots.items };

    ghost invariant = { λ it. AreSlots (files_in it.slots.items) (indexes_in it.slots.items) × (it.empty ≡ []) };
}

impl DeltaLayer {
    /// A layer of no file. It takes no memory.
    pub fn new(alloc: Global) -> DeltaLayer
        ensures { result ≡ [] }
    {
        DeltaLayer {
            slots: Vec::new(alloc),
            empty: DeltaIndex::new(alloc),
            alloc,
        }
    }

    /// Adds a file at the end, or hands it back for want of memory; the layer is then as before. A
    /// tiny file comes only where the layer has no block in memory.
    pub fn append(&mut self, file: ColumnFile) -> Result<(), ColumnFile>
        requires { is_tiny file ≡ true → HasNoMem self.old }
        ensures ok { OnOk result (self.new ≡ self.old ++ file ∷ []) }
        ensures err { OnErr result (self.new ≡ self.old) }
        ensures back { IfErr result (λ back. back ≡ file) }
    {
        let Ok(index) = next_index(self.alloc, self.index(), self.files(), &file) else {
            return Err(file);
        };
        add_file(self.alloc, &mut self.slots, file, index)
    }

    // Adds a file that others have too.
    fn add(&mut self, file: Arc<ColumnFile, Global>) -> Result<(), Memory>
        requires { IsLayered (self.old ++ arc_value file ∷ []) }
        ensures { OnOk result (self.new ≡ self.old ++ arc_value file ∷ []) }
    {
        let index = next_index(self.alloc, self.index(), self.files(), &file)?;
        add_shared(&mut self.slots, file, index)
    }

    /// Takes the last file off; none where there is none. It takes no memory.
    pub fn take_back(&mut self) -> Option<Arc<ColumnFile, Global>>
        ensures { MatchOption result ((self.old ≡ []) × (self.new ≡ [])) (λ last. self.old ≡ self.new ++ arc_value last ∷ []) }
    {
        take_last(&mut self.slots)
    }

    /// The files as they are now. Later changes of the layer don't change the view.
    pub fn view(&self) -> Result<DeltaView, Memory>
        ensures { IfOk result (λ view. view ≡ self.now) }
    {
        let files = files_in(self.alloc, self.slots.as_slice())?;
        let index = self.last_index()?;
        made(self.alloc, files, index)
    }

    // One more owner of the index over the files.
    fn last_index(&self) -> Result<Arc<DeltaIndex, Global>, Memory>
        ensures { IfOk result (λ index. arc_value index ≡ index_of self.now) }
    {
        let count = self.slots.len();
        if count == 0 {
            return match Arc::new(self.alloc, DeltaIndex::new(self.alloc)) {
                Ok(index) => Ok(index),
                Err(_) => Err(Memory),
            };
        }
        share_index(&self.slots[count - 1])
    }

    /// The number of files.
    pub fn files(&self) -> usize
        ensures { result ≡ length self.now }
    {
        self.slots.len()
    }

    /// The file at a place, counted from 0.
    pub fn file(&self, i: usize) -> &ColumnFile
        requires { i < length self.now }
        ensures { slice_get self.now i ≡ Some result.now }
    {
        &self.slots[i].file
    }

    /// The index over the files, each numbered by its place.
    pub fn index(&self) -> &DeltaIndex
        ensures { result.now ≡ index_of self.now }
    {
        let count = self.slots.len();
        if count == 0 {
            return &self.empty;
        }
        &self.slots[count - 1].index
    }

    /// The layer in which one tiny file stands for the first `n` blocks in memory, among which there
    /// is no delete-range, and shows what they show. This layer stays as it is.
    pub fn flushed(&self, n: usize, tiny: ColumnFile) -> Result<DeltaLayer, Memory>
        requires { CanFlush n tiny self.now }
        ensures { IfOk result (λ layer. layer ≡ flushed n tiny self.now) }
    {
        let from = self.first_mem();
        self.replaced(from, from + n, tiny)
    }

    /// The layer in which one tiny file stands for the tiny files from place `from` up to but without
    /// place `to`, and shows what they show. This layer stays as it is.
    pub fn compacted(&self, from: usize, to: usize, tiny: ColumnFile) -> Result<DeltaLayer, Memory>
        requires { CanCompact from to tiny self.now }
        ensures { IfOk result (λ layer. layer ≡ compacted from to tiny self.now) }
    {
        self.replaced(from, to, tiny)
    }

    /// The layer of the files after the first `taken`. This layer stays as it is.
    pub fn rest(&self, taken: usize) -> Result<DeltaLayer, Memory>
        requires { taken ≤ length self.now }
        ensures { IfOk result (λ layer. layer ≡ drop taken self.now) }
    {
        with_rest(DeltaLayer::new(self.alloc), self, taken)
    }

    // The place of the first block in memory; the number of files where there is none.
    fn first_mem(&self) -> usize
        ensures place { result ≡ first_mem self.now }
        ensures count { length self.now < 2 ^ 64 }
    {
        for i in 0..self.slots.len() {
            if is_mem(self.file(i)) {
                return i;
            }
        }
        self.slots.len()
    }

    // One more owner of the file at a place.
    fn shared(&self, i: usize) -> Result<Arc<ColumnFile, Global>, Memory>
        requires { i < length self.now }
        ensures { IfOk result (λ file. slice_get self.now i ≡ Some (arc_value file)) }
    {
        share_file(&self.slots[i])
    }

    // The layer of the first files. It shares their indexes.
    fn front(&self, to: usize) -> Result<DeltaLayer, Memory>
        requires { to ≤ length self.now }
        ensures { IfOk result (λ layer. layer ≡ take to self.now) }
    {
        let slots = front_of(self.alloc, self.slots.as_slice(), to)?;
        Ok(DeltaLayer {
            slots,
            empty: DeltaIndex::new(self.alloc),
            alloc: self.alloc,
        })
    }

    // The layer with one file in the place of the files from..to.
    fn replaced(&self, from: usize, to: usize, one: ColumnFile) -> Result<DeltaLayer, Memory>
        requires order { from ≤ to }
        requires within { to ≤ length self.now }
        requires layered { IsLayered self.now → IsLayered (replaced from to one self.now) }
        ensures { IfOk result (λ layer. layer ≡ replaced from to one self.now) }
    {
        let front = self.front(from)?;
        let layer = with_one(self.alloc, front, one)?;
        with_rest(layer, self, to)
    }
}

fn is_mem(file: &ColumnFile) -> bool
    ensures { result ≡ is_mem file.now }
{
    match file {
        ColumnFile::Mem { .. } => true,
        ColumnFile::Tiny { .. } => false,
        ColumnFile::DeleteRange { .. } => false,
    }
}

// The layer with one more file.
fn with_one(alloc: Global, layer: DeltaLayer, file: ColumnFile) -> Result<DeltaLayer, Memory>
    requires { IsLayered (layer ++ file ∷ []) }
    ensures { IfOk result (λ all. all ≡ layer ++ file ∷ []) }
{
    let mut all = layer;
    match Arc::new(alloc, file) {
        Ok(file) => all.add(file)?,
        Err(_) => return Err(Memory),
    }
    Ok(all)
}

// The layer with the files from a place on of another, which it shares.
fn with_rest(layer: DeltaLayer, from: &DeltaLayer, start: usize) -> Result<DeltaLayer, Memory>
    requires within { start ≤ length from.now }
    requires layered { IsLayered (layer ++ drop start from.now) }
    ensures { IfOk result (λ all. all ≡ layer ++ drop start from.now) }
{
    let mut all = layer;
    for i in start..from.files() {
        let file = from.shared(i)?;
        all.add(file)?;
    }
    Ok(all)
}
