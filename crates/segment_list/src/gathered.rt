// Files that are put together for a new slot: those that came after a view, clipped.
ghost use Rattle.std.specs.Prelude.{◌≡◌, ◌≤◌, ◌+◌, ◌-◌, ℕ, [], ◌∷◌, ◌++◌, Some, false, filter, length, drop, take, slice_get, OnOk};
ghost use Rattle.column_file.specs.declared.file.ColumnFile.{ColumnFile};
ghost use Rattle.delta_layer.specs.Files.{is_tiny};
ghost use Rattle.segment_list.specs.Slots.{clip_files, clip_pairs, file_speaks, pair_speaks, pairs_of, with_pairs};

use crate::Memory;
use crate::clip::{can_speak, clipped};
use column_file::ColumnFile;
use delta_layer::DeltaLayer;
use flash_types::HandleRange;
use std::alloc::Global;
use std::marker::Model;

/// A layer for a new slot. First come files that are named, and then others with a tag each.
#[derive(Drop)]
pub struct Gathering {
    layer: DeltaLayer,
    tags: Vec<u64>,
}

impl Model for Gathering {
    ghost use Rattle.segment_list.specs.Slots.{Gathered};

    ghost Value = { Gathered };

    ghost view = { λ r. record { files = r.layer; tags = r.tags.items } };
}

impl Gathering {
    /// No file. It takes no memory.
    pub fn new(alloc: Global) -> Gathering
        ensures { result ≡ record { files = []; tags = [] } }
    {
        Gathering {
            layer: DeltaLayer::new(alloc),
            tags: Vec::new(alloc),
        }
    }

    // Adds a file where it says something.
    fn push(&mut self, file: ColumnFile, tag: u64) -> Result<(), Memory>
        requires { is_tiny file ≡ false }
        ensures { OnOk result (self.new ≡ with_pairs self.old (filter pair_speaks ((tag, file) ∷ []))) }
    {
        if !can_speak(&file) {
            return Ok(());
        }
        if self.layer.append(file).is_err() {
            return Err(Memory);
        }
        if self.tags.push(tag).is_err() {
            return Err(Memory);
        }
        Ok(())
    }

    /// Adds a layer's files from a place on, one for each of the tags, clipped to the range, but for
    /// those that say nothing then. None of them is a tiny file.
    pub fn add(
        &mut self,
        range: HandleRange,
        layer: &DeltaLayer,
        from: usize,
        tags: &[u64],
        alloc: Global,
    ) -> Result<(), Memory>
        requires within { from + length tags.now ≤ length layer.now }
        requires no_tiny { (k : ℕ) (f : ColumnFile) → from ≤ k → slice_get layer.now k ≡ Some f → is_tiny f ≡ false }
        ensures { OnOk result (self.new ≡ with_pairs self.old (clip_pairs range (pairs_of tags.now (drop from layer.now)))) }
    {
        let _count = layer.files();
        for k in 0..tags.len() {
            let place = from + k;
            let part = clipped(range, layer.file(place))?;
            self.push(part, tags[k])?;
        }
        Ok(())
    }

    // Adds a file without a tag where it says something.
    fn push_named(&mut self, file: ColumnFile) -> Result<(), Memory>
        requires { is_tiny file ≡ false }
        ensures { OnOk result (self.new ≡ record self.old { files = self.old.files ++ filter file_speaks (file ∷ []) }) }
    {
        if !can_speak(&file) {
            return Ok(());
        }
        if self.layer.append(file).is_err() {
            return Err(Memory);
        }
        Ok(())
    }

    /// Adds a layer's files from a place up to another, which are named and so get no tag, clipped to
    /// the range, but for those that say nothing then. None of them is a tiny file.
    pub fn add_named(
        &mut self,
        range: HandleRange,
        layer: &DeltaLayer,
        from: usize,
        to: usize,
    ) -> Result<(), Memory>
        requires order { from ≤ to }
        requires within { to ≤ length layer.now }
        requires no_tiny { (k : ℕ) (f : ColumnFile) → from ≤ k → slice_get layer.now k ≡ Some f → is_tiny f ≡ false }
        ensures { OnOk result (self.new ≡ record self.old { files = self.old.files ++ clip_files range (take (to - from) (drop from layer.now)) }) }
    {
        for k in from..to {
            let part = clipped(range, layer.file(k))?;
            self.push_named(part)?;
        }
        Ok(())
    }

    /// How many files there are.
    pub fn files(&self) -> usize
        ensures { result ≡ length self.now.files }
    {
        self.layer.files()
    }

    /// The layer, and the tags of those of its files that have one.
    pub fn into_parts(self) -> (DeltaLayer, Vec<u64>)
        ensures files { result.0 ≡ self.files }
        ensures tags { result.1.items ≡ self.tags }
    {
        let Gathering { layer, tags } = self;
        (layer, tags)
    }
}
