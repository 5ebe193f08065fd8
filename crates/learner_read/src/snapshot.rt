// What a read sees: the regions at one moment, and the segments that have their rows.
ghost use Rattle.std.specs.Prelude.{◌≡◌, ◌<◌, length, slice_get, Some};
ghost use Rattle.learner_read.specs.Pieces.{CutsAreApart, PiecesRise};

use delta_layer::SegmentView;
use flash_list::Items;
use flash_types::{Cut, HandleRange, Ts};

/// What a read at a timestamp sees: the state of each asked region, and views of the segments, which
/// no later change changes. The handles are asked for that are in the clip and in the range of a cut.
#[derive(Drop)]
pub struct Snapshot<G> {
    ts: Ts,
    clip: HandleRange,
    cuts: Items<Cut>,
    pieces: Items<SegmentView<G>>,
    count: u64,
    generation: u64,
    pack_rows: u32,
    pub ghost some: { 0 < pack_rows },
    pub ghost rise: { PiecesRise pieces },
    pub ghost apart: { CutsAreApart cuts },
}

impl<G> Snapshot<G> {
    /// The snapshot with these parts. The pieces' ranges rise and are disjoint, and so are the cuts'
    /// ranges, in any order. `count` is the number of changes that the replica had seen, and
    /// `generation` that of its files. A block of a scan has at most `pack_rows` rows. It takes no
    /// memory.
    pub fn new(
        ts: Ts,
        clip: HandleRange,
        cuts: Vec<Cut>,
        pieces: Vec<SegmentView<G>>,
        count: u64,
        generation: u64,
        pack_rows: u32,
    ) -> Snapshot<G>
        requires rows { 0 < pack_rows }
        requires rise { PiecesRise pieces.items }
        requires apart { CutsAreApart cuts.items }
        ensures ts { result.ts ≡ ts }
        ensures clip { result.clip ≡ clip }
        ensures cuts { result.cuts ≡ cuts.items }
        ensures pieces { result.pieces ≡ pieces.items }
        ensures count { result.count ≡ count }
        ensures generation { result.generation ≡ generation }
        ensures pack_rows { result.pack_rows ≡ pack_rows }
    {
        Snapshot {
            ts,
            clip,
            cuts: Items::from_vec(cuts),
            pieces: Items::from_vec(pieces),
            count,
            generation,
            pack_rows,
        }
    }

    /// The timestamp that is read at.
    pub fn ts(&self) -> Ts
        ensures { result ≡ self.now.ts }
    {
        self.ts
    }

    /// The handles that are wanted.
    pub fn clip(&self) -> HandleRange
        ensures { result ≡ self.now.clip }
    {
        self.clip
    }

    /// The state of each asked region, in the ask's order.
    pub fn cuts(&self) -> &[Cut]
        ensures order { result.now ≡ self.now.cuts }
        ensures apart { CutsAreApart result.now }
    {
        self.cuts.as_slice()
    }

    /// The segments that have the regions' rows, by rising ranges.
    pub fn pieces(&self) -> &[SegmentView<G>]
        ensures order { result.now ≡ self.now.pieces }
        ensures rise { PiecesRise result.now }
    {
        self.pieces.as_slice()
    }

    // The number of pieces.
    pub(crate) fn len(&self) -> usize
        ensures { result ≡ length self.now.pieces }
    {
        self.pieces.len()
    }

    // The piece at a place, counted from 0.
    pub(crate) fn piece(&self, k: usize) -> &SegmentView<G>
        requires { k < length self.now.pieces }
        ensures { slice_get self.now.pieces k ≡ Some result.now }
    {
        self.pieces.at(k)
    }

    /// The number of changes that the replica had seen.
    pub fn count(&self) -> u64
        ensures { result ≡ self.now.count }
    {
        self.count
    }

    /// The generation of the replica's files, of which the snapshot's stable files are.
    pub fn generation(&self) -> u64
        ensures { result ≡ self.now.generation }
    {
        self.generation
    }

    /// The greatest number of rows that a block of a scan has.
    pub fn pack_rows(&self) -> u32
        ensures same { result ≡ self.now.pack_rows }
        ensures some { 0 < result }
    {
        self.pack_rows
    }
}
