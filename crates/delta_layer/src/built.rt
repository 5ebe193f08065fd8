// What is built of segments outside of their turn, and put in their place afterwards.
ghost use Rattle.std.specs.Prelude.{◌≡◌, ◌<◌, IfOk};
ghost use Rattle.column_block.specs.Order.{Rise};
ghost use Rattle.delta_layer.specs.Faults.{build_error};
ghost use Rattle.delta_layer.specs.Pieces.{IsStablePiece};

use crate::Memory;
use crate::view::SegmentView;
use column_block::{Block, Schema};
use flash_list::{Bytes, Items};
use flash_types::{HandleRange, SegId, Ts};
use stable_file::{ReadError, build};
use std::alloc::Global;

/// A work on the files of a segment.
#[derive(Clone, Copy, Debug, PartialEq, Eq)]
pub enum Job {
    /// Neighbouring tiny files of the segment become one.
    Compact(SegId),
    /// The segment's delta goes into its stable part.
    MergeDelta(SegId),
    /// The segment becomes two.
    Split(SegId),
    /// The segment and the next one become one.
    Merge(SegId),
}

/// Why nothing was built.
#[derive(Clone, Copy, Debug, PartialEq, Eq)]
pub enum BuildError {
    /// The device failed, and the count of the reader's faults rose.
    Device,
    /// What stands from this place of a segment's stable file on isn't of the form.
    Damaged { at: u64 },
    /// The segment has one handle or none, and can't be split.
    OneHandle,
    /// Memory ran out.
    Memory,
}

impl From<ReadError> for BuildError {
    ghost from_gives = { λ fault e. e ≡ build_error fault };

    fn from(fault: ReadError) -> BuildError {
        match fault {
            ReadError::Device => BuildError::Device,
            ReadError::Damaged { at } => BuildError::Damaged { at },
            ReadError::Memory => BuildError::Memory,
        }
    }
}

/// A segment that was built, or of a compaction a file.
#[derive(Drop)]
pub struct Piece {
    /// Its handles.
    pub range: HandleRange,
    /// Its versions, in order of handle and timestamp.
    pub versions: Block,
    /// The bytes of its file; none where it has no file.
    pub bytes: Bytes,
}

/// What was built of segments.
#[derive(Drop)]
pub struct Built<G> {
    /// The work.
    pub job: Job,
    /// The segments as they were when it began. Their epochs are those that an install expects.
    pub views: Items<SegmentView<G>>,
    /// The safe point at which versions were left out; 0 where none was used.
    pub safe_point: Ts,
    /// The pieces that take the segments' place, by rising ranges.
    pub pieces: Items<Piece>,
}

/// The piece with these versions, as a segment of this range has them in its stable part, in packs of
/// `pack_rows` versions.
pub fn stable_piece(
    alloc: Global,
    range: HandleRange,
    versions: Block,
    schema: &Schema,
    pack_rows: u32,
) -> Result<Piece, Memory>
    requires rise { Rise versions }
    requires rows { 0 < pack_rows }
    ensures range { IfOk result (λ piece. piece.range ≡ range) }
    ensures versions { IfOk result (λ piece. piece.versions ≡ versions) }
    ensures bytes { IfOk result (λ piece. IsStablePiece schema.now pack_rows versions piece.bytes) }
{
    let bytes = stable_bytes(alloc, &versions, schema, pack_rows)?;
    Ok(Piece {
        range,
        versions,
        bytes,
    })
}

// The stable file of some versions; no bytes where there is none.
fn stable_bytes(
    alloc: Global,
    versions: &Block,
    schema: &Schema,
    pack_rows: u32,
) -> Result<Bytes, Memory>
    requires rise { Rise versions.now }
    requires rows { 0 < pack_rows }
    ensures { IfOk result (λ bytes. IsStablePiece schema.now pack_rows versions.now bytes) }
{
    let mut bytes = Vec::new(alloc);
    if versions.len() == 0 {
        return Ok(Items::from_vec(bytes));
    }
    match build(alloc, versions, schema, pack_rows, &mut bytes) {
        Ok(()) => Ok(Items::from_vec(bytes)),
        Err(_) => Err(Memory),
    }
}
