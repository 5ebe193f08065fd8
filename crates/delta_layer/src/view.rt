// Snapshots of deltas and of segments.
ghost use Rattle.std.specs.Prelude.{◌≡◌, ◌<◌, length, map, slice_get, IfOk, Some};
ghost use Rattle.std.specs.Arc.{arc_value};
ghost use Rattle.delta_layer.specs.Files.{index_of};

use crate::Memory;
use column_file::ColumnFile;
use delta_index::DeltaIndex;
use flash_types::{HandleRange, SegId};
use stable_file::StableFile;
use std::alloc::Global;
use std::marker::Model;
use std::sync::Arc;

// What the owners of a view share: files, and the index over them.
#[derive(Drop)]
pub struct Shown {
    pub files: Vec<Arc<ColumnFile, Global>>,
    pub index: Arc<DeltaIndex, Global>,
}

impl Model for Shown {
    ghost use Rattle.std.specs.Prelude.{◌≡◌, List, map};
    ghost use Rattle.std.specs.Arc.{arc_value};
    ghost use Rattle.column_file.specs.declared.file.ColumnFile.{ColumnFile};
    ghost use Rattle.delta_layer.specs.Files.{index_of};

    ghost Value = { List ColumnFile };

    ghost view = { λ it. map arc_value it.files.items };

    ghost invariant = { λ it. arc_value it.index ≡ index_of (map arc_value it.files.items) };
}

/// The files of a delta at one moment, which no later change of the layer changes. Its owners share
/// the files and the index. Contracts see the list of the files.
#[derive(Drop)]
pub struct DeltaView {
    shared: Arc<Shown, Global>,
}

impl Model for DeltaView {
    ghost use Rattle.std.specs.Prelude.{List};
    ghost use Rattle.std.specs.Arc.{arc_value};
    ghost use Rattle.column_file.specs.declared.file.ColumnFile.{ColumnFile};

    ghost Value = { List ColumnFile };

    ghost view = { λ it. arc_value it.shared };
}

impl Shown {
    fn files(&self) -> usize
        ensures { result ≡ length self.now }
    {
        self.files.len()
    }

    fn file(&self, i: usize) -> &ColumnFile
        requires { i < length self.now }
        ensures { slice_get self.now i ≡ Some result.now }
    {
        &self.files[i]
    }

    fn index(&self) -> &DeltaIndex
        ensures { result.now ≡ index_of self.now }
    {
        &self.index
    }
}

// The view of files with the index over them.
pub fn made(
    alloc: Global,
    files: Vec<Arc<ColumnFile, Global>>,
    index: Arc<DeltaIndex, Global>,
) -> Result<DeltaView, Memory>
    requires { arc_value index ≡ index_of (map arc_value files.items) }
    ensures { IfOk result (λ view. view ≡ map arc_value files.items) }
{
    let shown = Shown { files, index };
    match Arc::new(alloc, shown) {
        Ok(shared) => Ok(DeltaView { shared }),
        Err(_) => Err(Memory),
    }
}

impl DeltaView {
    /// One more owner of the view. It copies nothing of it.
    pub fn share(&self) -> Result<DeltaView, Memory>
        ensures { IfOk result (λ view. view ≡ self.now) }
    {
        match Arc::try_clone(&self.shared) {
            Ok(shared) => Ok(DeltaView { shared }),
            Err(_) => Err(Memory),
        }
    }

    /// The number of files.
    pub fn files(&self) -> usize
        ensures { result ≡ length self.now }
    {
        self.shared.files()
    }

    /// The file at a place, counted from 0.
    pub fn file(&self, i: usize) -> &ColumnFile
        requires { i < length self.now }
        ensures { slice_get self.now i ≡ Some result.now }
    {
        self.shared.file(i)
    }

    /// The index over the files, each numbered by its place.
    pub fn index(&self) -> &DeltaIndex
        ensures { result.now ≡ index_of self.now }
    {
        self.shared.index()
    }
}

/// A segment at one moment: a level of an LSM tree for a range of handles, with a stable part and the
/// files of a delta above it.
#[derive(Drop)]
pub struct SegmentView<G> {
    /// The segment's number.
    pub seg: SegId,
    /// Its handles. Versions of other handles don't count.
    pub range: HandleRange,
    /// How often its stable part or its layer was replaced.
    pub epoch: u64,
    /// Its delta.
    pub delta: DeltaView,
    /// Its stable part, if it has one.
    pub stable: Option<StableFile<G>>,
}

impl<G> SegmentView<G> {
    /// One more owner of the view. It copies no file.
    pub fn share(&self) -> Result<SegmentView<G>, Memory>
        ensures { IfOk result (λ view. view ≡ self.now) }
    {
        let delta = self.delta.share()?;
        let stable = shared(&self.stable)?;
        Ok(SegmentView {
            seg: self.seg,
            range: self.range,
            epoch: self.epoch,
            delta,
            stable,
        })
    }
}

// One more owner of a stable part.
fn shared<G>(stable: &Option<StableFile<G>>) -> Result<Option<StableFile<G>>, Memory>
    ensures { IfOk result (λ one. one ≡ stable.now) }
{
    match stable {
        None => Ok(None),
        Some(file) => match file.share() {
            Ok(one) => Ok(Some(one)),
            Err(_) => Err(Memory),
        },
    }
}
