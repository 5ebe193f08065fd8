// What a store has named, and the edits that change it.
ghost use Rattle.std.specs.Prelude.{◌≡◌, [], map, IfOk};

use crate::slots::{Slots, listed, no_slots};
use flash_io::FileId;
use flash_list::Items;
use flash_types::{HandleRange, SegId, Ts};
use std::alloc::{AllocError, Global};
use std::marker::Model;

/// A part of a segment's delta, as it stands on the disk.
#[derive(Clone, Copy, Debug, PartialEq, Eq)]
pub enum StoredFile {
    /// A tiny file of versions.
    Tiny { file: FileId },
    /// All rows of these handles that are older go.
    DeleteRange { range: HandleRange },
}

/// The parts of a segment's delta, from the oldest to the newest.
pub type StoredFiles = Items<StoredFile>;

/// A segment, and the files that it is made of.
#[derive(Debug, Drop)]
pub struct StoredSegment {
    pub id: SegId,
    pub range: HandleRange,
    /// The file of the stable part; with none there is no stable version.
    pub stable: Option<FileId>,
    pub delta: StoredFiles,
}

/// Segments in the order of the low ends of their ranges. Contracts see the list. They are kept in
/// ordered maps, by their places and by their ids.
#[derive(Debug, Drop)]
pub struct StoredSegments {
    pub(crate) slots: Slots,
}

impl Model for StoredSegments {
    ghost use Rattle.std.specs.Prelude.{List};
    ghost use Rattle.manifest_form.specs.declared.state.StoredSegment.{StoredSegment};

    ghost Value = { List StoredSegment };

    ghost use Rattle.std.specs.BTreeMap.{get};
    ghost use Rattle.std.specs.Ordering.{nat_cmp};
    ghost use Rattle.manifest_form.specs.Slots.{present, AllFit};

    ghost view = { λ it. present it.slots.places.entries };

    ghost invariant = { λ it. AllFit (get nat_cmp it.slots.ids) it.slots.turn it.slots.places.entries };
}

impl StoredSegments {
    /// No segment. It takes no memory.
    pub(crate) fn new(alloc: Global) -> StoredSegments
        ensures { result ≡ [] }
    {
        StoredSegments {
            slots: no_slots(alloc),
        }
    }

    /// All segments, in the order of their ranges.
    pub fn list(&self, alloc: Global) -> Result<Vec<&StoredSegment>, AllocError>
        ensures { IfOk result (λ list. map (λ segment. segment.now) list.items ≡ self.now) }
    {
        listed(alloc, &self.slots.places)
    }
}

/// What a store has named.
#[derive(Debug, Drop)]
pub struct State {
    /// The next free number of files and segments: all numbers in use are below it.
    pub next: u32,
    /// The segments. Their ranges aren't empty, are disjoint and hold every handle.
    pub segments: StoredSegments,
    /// Rows of log entries below this number may be in the files.
    pub high: u64,
    /// The chain value of the log's first `high` entries.
    pub chain: [u8; 32],
    /// Versions that only reads below this timestamp need may be collected.
    pub safe_point: Ts,
    /// The region file of the last checkpoint.
    pub regions: Option<FileId>,
    /// How many entries of the log are applied in that region file. Stores that were written before
    /// it was kept have none.
    pub count: Option<u64>,
}

/// A change of a state.
#[derive(Debug, Drop)]
pub enum Edit {
    /// The next free number of files and segments.
    Next { file: FileId },
    /// The segment with its id is put, or replaced.
    Segment { segment: StoredSegment },
    /// The segment with this id goes.
    Drop { id: SegId },
    /// How far the files may reach into the log, and the log's chain value there.
    High { entries: u64, chain: [u8; 32] },
    /// The safe point.
    SafePoint { ts: Ts },
    /// The region file of a checkpoint.
    Regions { file: FileId },
    /// How many entries are applied in the region file of a checkpoint.
    Count { entries: u64 },
}

/// Edits that are done together, in order.
pub type Edits = Items<Edit>;
