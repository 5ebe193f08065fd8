// A segment with what of it is named and when its files came.
ghost use Rattle.std.specs.Prelude.{◌≡◌, ◌+◌, ◌-◌, ◌^◌, ◌<◌, ℕ, cond, Option, false, [], OnOk, OnErr, IfOk, IfSome, length, is_some, option_copied};
ghost use Rattle.std.specs.List.{list_any, sum_by};
ghost use Rattle.column_file.specs.declared.file.ColumnFile.{ColumnFile};
ghost use Rattle.delta_layer.specs.Files.{is_mem, is_tiny};
ghost use Rattle.segment_list.specs.Flushes.{IsFlushOf, flushed_files, flushed_slot};
ghost use Rattle.segment_list.specs.Slots.{Slotted, absorbed, file_rows, key_of, mem_rows, pushed, pushed_some, rows_below};

use crate::Memory;
use crate::clip::{added_in, adds_to, cleared_in, file_rows, mem_rows};
use crate::flush::{Flush, is_mem};
use column_block::Block;
use column_file::ColumnFile;
use delta_layer::{DeltaLayer, SegmentView};
use flash_io::FileId;
use flash_types::{Handle, HandleRange, SegId};
use segment::Segment;
use stable_file::StableFile;
use std::alloc::Global;
use std::marker::Model;

/// A segment of a replica, the number of its stable file, how many files of its delta the manifest
/// names, and for each file behind these how many entries were applied when it came, its tag.
/// Beside them it keeps how many rows its files have.
#[derive(Drop)]
pub struct Slot<G> {
    segment: Segment<G>,
    stable_number: Option<FileId>,
    named: usize,
    tags: Vec<u64>,
    mem: u64,
    delta: u64,
    below: u64,
}

impl<G> Model for Slot<G> {
    ghost use Rattle.segment_list.specs.Slots.{Slotted, AreCounts};

    ghost Value = { Slotted G };

    ghost view = { λ s. record { id = s.segment.seg; range = s.segment.range; epoch = s.segment.epoch; files = s.segment.layer; stable = s.segment.stable; stable_number = s.stable_number; named = s.named; tags = s.tags.items } };

    ghost invariant = { λ s. AreCounts s.segment.range s.segment.layer s.segment.stable s.mem s.delta s.below };
}

// A sum; none where it is too large.
fn sum(a: u64, b: u64) -> Option<u64>
    ensures { IfSome result (λ sum. sum ≡ a + b) }
{
    a.checked_add(b)
}

// How many rows the files have, in memory alone and in all; none where that many can't be counted.
fn rows_in(layer: &DeltaLayer) -> Option<(u64, u64)>
    ensures { IfSome result (λ rows. (rows.0 ≡ sum_by mem_rows layer.now) × (rows.1 ≡ sum_by file_rows layer.now)) }
{
    let mut mem: u64 = 0;
    let mut delta: u64 = 0;
    for i in 0..layer.files() {
        let file = layer.file(i);
        mem = sum(mem, mem_rows(file))?;
        delta = sum(delta, file_rows(file))?;
    }
    Some((mem, delta))
}

// How many versions of a stable part lie in packs that meet the range.
fn rows_below<G: Drop>(range: HandleRange, stable: Option<&StableFile<G>>) -> u64
    ensures { result ≡ rows_below range (option_copied stable.entry) }
{
    match stable {
        None => 0,
        Some(file) => file.versions_in(range),
    }
}

// Whether a layer has a block in memory.
fn has_mem(layer: &DeltaLayer) -> bool
    ensures { result ≡ list_any is_mem layer.now }
{
    for i in 0..layer.files() {
        if is_mem(layer.file(i)) {
            return true;
        }
    }
    false
}

// Puts a flush of a segment's delta.
fn renew<G: Drop>(segment: &mut Segment<G>, flush: Flush)
    requires planned { IsFlushOf segment.old.layer flush }
    requires room { segment.old.epoch < 2 ^ 64 - 1 }
    ensures { segment.new ≡ record segment.old { epoch = cond (list_any is_mem segment.old.layer) (segment.old.epoch + 1) segment.old.epoch; layer = flushed_files flush.from segment.old.layer } }
{
    if !has_mem(segment.layer()) {
        return;
    }
    segment.renew(flush.layer);
}

impl<G: Drop> Slot<G> {
    /// A slot of these parts. `Memory` comes where its rows can't be counted.
    pub fn of_parts(
        segment: Segment<G>,
        stable_number: Option<FileId>,
        named: usize,
        tags: Vec<u64>,
    ) -> Result<Slot<G>, Memory>
        ensures { IfOk result (λ slot. slot ≡ record { id = segment.seg; range = segment.range; epoch = segment.epoch; files = segment.layer; stable = segment.stable; stable_number = stable_number; named = named; tags = tags.items }) }
    {
        let Some((mem, delta)) = rows_in(segment.layer()) else {
            return Err(Memory);
        };
        let below = rows_below(segment.range(), segment.stable());
        Ok(Slot {
            segment,
            stable_number,
            named,
            tags,
            mem,
            delta,
            below,
        })
    }

    /// A segment as an opening finds it: each of its files is named. `Memory` comes where its rows
    /// can't be counted.
    pub fn opened(
        segment: Segment<G>,
        stable_number: Option<FileId>,
        alloc: Global,
    ) -> Result<Slot<G>, Memory>
        ensures { IfOk result (λ slot. slot ≡ record { id = segment.seg; range = segment.range; epoch = segment.epoch; files = segment.layer; stable = segment.stable; stable_number = stable_number; named = length segment.layer; tags = [] }) }
    {
        let named = segment.layer().files();
        Slot::of_parts(segment, stable_number, named, Vec::new(alloc))
    }

    /// The segment.
    pub fn segment(&self) -> &Segment<G>
        ensures { result.now ≡ record { seg = self.now.id; range = self.now.range; epoch = self.now.epoch; layer = self.now.files; stable = self.now.stable } }
    {
        &self.segment
    }

    /// The segment's number.
    pub fn id(&self) -> SegId
        ensures { result ≡ self.now.id }
    {
        self.segment.id()
    }

    /// Its handles.
    pub fn range(&self) -> HandleRange
        ensures { result ≡ self.now.range }
    {
        self.segment.range()
    }

    /// The least of them.
    pub fn low(&self) -> Handle
        ensures { result ≡ self.now.range.low }
    {
        self.segment.range().low
    }

    /// How often its stable part or its delta was replaced.
    pub fn epoch(&self) -> u64
        ensures { result ≡ self.now.epoch }
    {
        self.segment.epoch()
    }

    /// The files of its delta.
    pub fn layer(&self) -> &DeltaLayer
        ensures { result.now ≡ self.now.files }
    {
        self.segment.layer()
    }

    /// Its stable part, if it has one.
    pub fn stable(&self) -> Option<&StableFile<G>>
        ensures { option_copied result ≡ self.now.stable }
    {
        self.segment.stable()
    }

    /// The number of the stable part's file.
    pub fn stable_number(&self) -> Option<FileId>
        ensures { result ≡ self.now.stable_number }
    {
        self.stable_number
    }

    /// How many files of its delta the manifest names.
    pub fn named(&self) -> usize
        ensures { result ≡ self.now.named }
    {
        self.named
    }

    /// For each of the others how many entries were applied when it came.
    pub fn tags(&self) -> &[u64]
        ensures { result.now ≡ self.now.tags }
    {
        self.tags.as_slice()
    }

    /// How many rows its delta has in memory alone.
    pub fn mem_rows(&self) -> u64
        ensures { result ≡ sum_by mem_rows self.now.files }
    {
        self.mem
    }

    /// How many rows its delta has.
    pub fn delta_rows(&self) -> u64
        ensures { result ≡ sum_by file_rows self.now.files }
    {
        self.delta
    }

    /// How many versions its stable part has in packs that meet its range.
    pub fn stable_rows(&self) -> u64
        ensures { result ≡ rows_below self.now.range self.now.stable }
    {
        self.below
    }

    /// The segment as it is now. No later change of the slot changes the view.
    pub fn view(&self) -> Result<SegmentView<G>, Memory>
        ensures { IfOk result (λ view. view ≡ record { seg = self.now.id; range = self.now.range; epoch = self.now.epoch; delta = self.now.files; stable = self.now.stable }) }
    {
        match self.segment.view() {
            Ok(view) => Ok(view),
            Err(_) => Err(Memory),
        }
    }

    // Adds a file behind the others, with its tag. After `Err` the slot is as before.
    fn push(&mut self, file: ColumnFile, tag: u64) -> Result<(), Memory>
        requires { is_tiny file ≡ false }
        ensures ok { OnOk result (self.new ≡ pushed tag file self.old) }
        ensures err { OnErr result (self.new ≡ self.old) }
    {
        let Some(mem) = self.mem.checked_add(mem_rows(&file)) else {
            return Err(Memory);
        };
        let Some(delta) = self.delta.checked_add(file_rows(&file)) else {
            return Err(Memory);
        };
        if self.tags.reserve(1).is_err() {
            return Err(Memory);
        }
        let Ok(()) = self.segment.absorb(file) else {
            return Err(Memory);
        };
        self.tags.push_reserved(tag);
        self.mem = mem;
        self.delta = delta;
        Ok(())
    }

    // Takes the last file off, with its tag. It takes no memory.
    fn pop(&mut self)
        ensures key { key_of self.new ≡ key_of self.old }
        ensures back { (before : Slotted G) (tag : ℕ) (file : ColumnFile) → self.old ≡ pushed tag file before → self.new ≡ before }
    {
        let Some(last) = self.segment.take_back() else {
            return;
        };
        self.mem -= mem_rows(&last);
        self.delta -= file_rows(&last);
        self.tags.pop();
    }

    // Adds a file where there is one.
    fn push_some(&mut self, file: Option<ColumnFile>, tag: u64) -> Result<(), Memory>
        requires { IfSome file (λ f. is_tiny f ≡ false) }
        ensures ok { OnOk result (self.new ≡ pushed_some tag file self.old) }
        ensures err { OnErr result (self.new ≡ self.old) }
    {
        match file {
            None => Ok(()),
            Some(file) => self.push(file, tag),
        }
    }

    // Takes the last file off where one was added.
    fn pop_some(&mut self, was_added: bool)
        ensures key { key_of self.new ≡ key_of self.old }
        ensures back { (before : Slotted G) (tag : ℕ) (file : Option ColumnFile) → was_added ≡ is_some file → self.old ≡ pushed_some tag file before → self.new ≡ before }
    {
        if was_added {
            self.pop();
        }
    }

    /// Adds what an entry says of the segment's handles. After `Err` the slot is as before.
    pub fn absorb(
        &mut self,
        clears: Option<HandleRange>,
        adds: &Block,
        tag: u64,
    ) -> Result<(), Memory>
        ensures ok { OnOk result (self.new ≡ absorbed tag clears adds.now self.old) }
        ensures err { OnErr result (self.new ≡ self.old) }
    {
        let range = self.range();
        let block = added_in(range, adds)?;
        let first = cleared_in(range, clears);
        let was_added = first.is_some();
        self.push_some(first, tag)?;
        if self.push_some(block, tag).is_err() {
            self.pop_some(was_added);
            return Err(Memory);
        }
        Ok(())
    }

    /// Takes off again what an entry added. It takes no memory.
    pub fn take_back(&mut self, clears: Option<HandleRange>, adds: &Block)
        ensures key { key_of self.new ≡ key_of self.old }
        ensures back { (before : Slotted G) (tag : ℕ) → self.old ≡ absorbed tag clears adds.now before → self.new ≡ before }
    {
        let range = self.range();
        self.pop_some(adds_to(range, adds));
        self.pop_some(cleared_in(range, clears).is_some());
    }

    /// Puts a flush of its delta, all of which is named then. The epoch rises by 1 where the delta
    /// had a block in memory. It takes no memory.
    pub fn put_flush(&mut self, flush: Flush)
        requires planned { IsFlushOf self.old.files flush }
        requires room { self.old.epoch < 2 ^ 64 - 1 }
        ensures { self.new ≡ flushed_slot flush.from self.old }
    {
        let named = self.segment.layer().files();
        renew(&mut self.segment, flush);
        self.named = named;
        self.tags.truncate(0);
        self.mem = 0;
    }
}
