// Laws of segments, which callers may use. Those that take nothing do nothing when they run.
ghost use Rattle.std.specs.Prelude.{◌≡◌, ◌++◌, ◌∷◌, [], true, IfOk, OnOk, OnErr};
ghost use Rattle.delta_layer.specs.Files.{is_tiny, HasNoMem};
ghost use Rattle.segment.specs.Laws.{RepackedSegmentsShowTheSame, SwappedSegmentsShowTheSame};

use crate::Memory;
use crate::segments::Segment;
use column_file::ColumnFile;
use delta_layer::{SegmentView, repacked_layers_show_the_same};

/// Renewing a segment by a layer that came from its own by flushes and compactions leaves the same
/// versions present.
pub fn repacked_segments_show_the_same()
    ensures { RepackedSegmentsShowTheSame }
{
    repacked_layers_show_the_same();
}

/// Where a segment's new stable part has the versions that were present in the old one and the first
/// files of its delta, and the others stay, the same versions are present as before.
pub fn swapped_segments_show_the_same()
    ensures { SwappedSegmentsShowTheSame }
{}

/// A view stays as it was taken: a file that the segment absorbs afterwards isn't in it. The call takes
/// a view and then absorbs the file. For want of memory nothing is absorbed.
pub fn views_stay<G: Drop>(
    segment: &mut Segment<G>,
    file: ColumnFile,
) -> Result<SegmentView<G>, Memory>
    requires { is_tiny file ≡ true → HasNoMem segment.old.layer }
    ensures view { IfOk result (λ view. view ≡ record { seg = segment.old.seg; range = segment.old.range; epoch = segment.old.epoch; delta = segment.old.layer; stable = segment.old.stable }) }
    ensures absorbed { OnOk result (segment.new ≡ record segment.old { layer = segment.old.layer ++ file ∷ [] }) }
    ensures err { OnErr result (segment.new ≡ segment.old) }
{
    let before = segment.view()?;
    match segment.absorb(file) {
        Ok(()) => Ok(before),
        Err(_) => Err(Memory),
    }
}
