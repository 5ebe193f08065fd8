// Segments, and what replaces their parts.
ghost use Rattle.std.specs.Prelude.{◌≡◌, ◌≢◌, ◌+◌, ◌-◌, ◌^◌, ◌<◌, ◌++◌, [], ◌∷◌, true, IfOk, OnOk, IfErr, OnErr, IfSome, IsNone, option_copied, Ok, Some};
ghost use Rattle.std.specs.Arc.{arc_value};
ghost use Rattle.delta_layer.specs.Files.{is_tiny, HasNoMem};
ghost use Rattle.delta_layer.specs.Repacked.{Repacked};
ghost use Rattle.segment.specs.Swaps.{IsRest};

use crate::Memory;
use column_file::ColumnFile;
use delta_layer::{DeltaLayer, SegmentView};
use flash_types::{HandleRange, SegId};
use stable_file::StableFile;
use std::alloc::Global;
use std::sync::Arc;

/// A segment: a level of an LSM tree for a range of handles, as TiFlash's DeltaTree has them, with a
/// stable part and the files of a delta above it.
#[derive(Drop)]
pub struct Segment<G> {
    seg: SegId,
    range: HandleRange,
    epoch: u64,
    layer: DeltaLayer,
    stable: Option<StableFile<G>>,
}

/// The segment isn't as it was when a work on it began.
#[derive(Clone, Copy, Debug, PartialEq, Eq)]
pub struct Stale {
    /// The epoch that the work expects.
    pub expected: u64,
    /// The epoch that was found; none where the segment is gone.
    pub found: Option<u64>,
}

impl<G: Drop> Segment<G> {
    /// The segment of this number with these parts, at epoch 0. It takes no memory, and so is always
    /// `Ok`.
    pub fn new(
        seg: SegId,
        range: HandleRange,
        layer: DeltaLayer,
        stable: Option<StableFile<G>>,
    ) -> Result<Segment<G>, Memory>
        ensures { result ≡ Ok (record { seg = seg; range = range; epoch = 0; layer = layer; stable = stable }) }
    {
        Ok(Segment {
            seg,
            range,
            epoch: 0,
            layer,
            stable,
        })
    }

    /// Adds a file at the end of the delta, or hands it back for want of memory; the segment is then
    /// as before. The epoch stays. A tiny file comes only where the delta has no block in memory.
    pub fn absorb(&mut self, file: ColumnFile) -> Result<(), ColumnFile>
        requires { is_tiny file ≡ true → HasNoMem self.old.layer }
        ensures ok { OnOk result (self.new ≡ record self.old { layer = self.old.layer ++ file ∷ [] }) }
        ensures err { OnErr result (self.new ≡ self.old) }
        ensures back { IfErr result (λ back. back ≡ file) }
    {
        self.layer.append(file)
    }

    /// Takes the delta's last file off; none where there is none. The epoch stays. It takes no
    /// memory.
    pub fn take_back(&mut self) -> Option<Arc<ColumnFile, Global>>
        ensures none { IsNone result → (self.old.layer ≡ []) × (self.new ≡ self.old) }
        ensures last { IfSome result (λ last. self.old ≡ record self.new { layer = self.new.layer ++ arc_value last ∷ [] }) }
    {
        self.layer.take_back()
    }

    /// The segment as it is now. No later change of the segment changes the view.
    pub fn view(&self) -> Result<SegmentView<G>, Memory>
        ensures { IfOk result (λ view. view ≡ record { seg = self.now.seg; range = self.now.range; epoch = self.now.epoch; delta = self.now.layer; stable = self.now.stable }) }
    {
        let Ok(delta) = self.layer.view() else {
            return Err(Memory);
        };
        let Ok(stable) = shared(&self.stable) else {
            return Err(Memory);
        };
        Ok(SegmentView {
            seg: self.seg,
            range: self.range,
            epoch: self.epoch,
            delta,
            stable,
        })
    }

    /// Replaces the stable part and the delta, whose files are those after some first ones of the
    /// present delta, and raises the epoch by 1. It takes no memory.
    ///
    /// `Stale` comes exactly where the epoch isn't the expected one, and names both; the segment is
    /// then as before.
    pub fn swap(
        &mut self,
        stable: Option<StableFile<G>>,
        rest: DeltaLayer,
        expected: u64,
    ) -> Result<(), Stale>
        requires rest { IsRest self.old.layer rest }
        requires room { self.old.epoch < 2 ^ 64 - 1 }
        ensures done { OnOk result ((self.old.epoch ≡ expected) × (self.new ≡ record self.old { epoch = self.old.epoch + 1; layer = rest; stable = stable })) }
        ensures stale { IfErr result (λ stale. (self.old.epoch ≢ expected) × (stale ≡ record { expected = expected; found = Some self.old.epoch })) }
        ensures err { OnErr result (self.new ≡ self.old) }
    {
        if self.epoch != expected {
            return Err(Stale {
                expected,
                found: Some(self.epoch),
            });
        }
        self.stable = stable;
        self.layer = rest;
        self.epoch = expected + 1;
        Ok(())
    }

    /// Replaces the delta by one that came from it by one or more flushes and compactions, and
    /// raises the epoch by 1. The same versions are present. It takes no memory.
    pub fn renew(&mut self, layer: DeltaLayer)
        requires repacked { Repacked self.old.layer layer }
        requires room { self.old.epoch < 2 ^ 64 - 1 }
        ensures { self.new ≡ record self.old { epoch = self.old.epoch + 1; layer = layer } }
    {
        self.layer = layer;
        self.epoch += 1;
    }

    /// The segment as it is once these parts have taken the place of its own: of the same number and
    /// with the same handles, its epoch higher by 1. This segment stays as it is. It takes no memory.
    pub fn successor(&self, layer: DeltaLayer, stable: Option<StableFile<G>>) -> Segment<G>
        requires room { self.now.epoch < 2 ^ 64 - 1 }
        ensures { result ≡ record self.now { epoch = self.now.epoch + 1; layer = layer; stable = stable } }
    {
        Segment {
            seg: self.seg,
            range: self.range,
            epoch: self.epoch + 1,
            layer,
            stable,
        }
    }

    /// The segment's number.
    pub fn id(&self) -> SegId
        ensures { result ≡ self.now.seg }
    {
        self.seg
    }

    /// Its handles.
    pub fn range(&self) -> HandleRange
        ensures { result ≡ self.now.range }
    {
        self.range
    }

    /// How often its stable part or its delta was replaced.
    pub fn epoch(&self) -> u64
        ensures { result ≡ self.now.epoch }
    {
        self.epoch
    }

    /// Its delta.
    pub fn layer(&self) -> &DeltaLayer
        ensures { result.now ≡ self.now.layer }
    {
        &self.layer
    }

    /// Its stable part, if it has one.
    pub fn stable(&self) -> Option<&StableFile<G>>
        ensures { option_copied result ≡ self.now.stable }
    {
        self.stable.as_ref()
    }
}

// One more owner of a stable part.
fn shared<G>(stable: &Option<StableFile<G>>) -> Result<Option<StableFile<G>>, Memory>
    ensures { IfOk result (λ one. one ≡ stable.now) }
{
    match stable {
        None => Ok(None),
        Some(file) => match file.share() {
            Ok(one) => Ok(Some(one)),
            Err(_) => Err(Memory),
        },
    }
}
