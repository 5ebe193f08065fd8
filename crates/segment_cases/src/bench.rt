// What the steps of a case work on.
use crate::index::Indexes;
use crate::layers::Deltas;
use crate::trouble::Trouble;
use column_block::Schema;
use delta_layer::SegmentView;
use flash_mem::MemGrip;
use flash_types::HandleRange;
use learner_read::Snapshot;
use stable_file::StableFile;
use std::alloc::Global;

/// What the steps of a case work on: indexes, and a segment of a stable part and a delta.
#[derive(Drop)]
pub struct Bench {
    pub indexes: Indexes,
    pub deltas: Deltas,
    pub segment: Segment,
    pub snapshot: Option<Snapshot<MemGrip>>,
}

/// A segment without its delta, and how its readers fail.
#[derive(Drop)]
pub struct Segment {
    /// The columns of its versions.
    pub schema: Schema,
    /// Its handles.
    pub range: HandleRange,
    /// The bytes of its stable file.
    pub bytes: Vec<u8>,
    /// Its stable file.
    pub stable: Option<StableFile<MemGrip>>,
    /// The calls that fail, of each reader, counted from 1.
    pub failing: Vec<u64>,
}

impl Bench {
    /// A bench with nothing made: no column, no version, and all handles.
    pub fn new(alloc: Global) -> Result<Bench, Trouble> {
        let Ok(schema) = Schema::new(Vec::new(alloc)) else {
            return Err(Trouble::Word);
        };
        Ok(Bench {
            indexes: Indexes::new(alloc),
            deltas: Deltas::new(alloc),
            segment: Segment::new(alloc, schema),
            snapshot: None,
        })
    }
}

impl Segment {
    fn new(alloc: Global, schema: Schema) -> Segment {
        Segment {
            schema,
            range: HandleRange {
                low: i64::MIN,
                high: None,
            },
            bytes: Vec::new(alloc),
            stable: None,
            failing: Vec::new(alloc),
        }
    }

    /// The segment as it is now, with this delta.
    pub fn view(&self, deltas: &Deltas) -> Result<SegmentView<MemGrip>, Trouble> {
        let delta = deltas.view()?;
        let stable = match &self.stable {
            Some(file) => Some(file.share()?),
            None => None,
        };
        Ok(SegmentView {
            seg: 7,
            range: self.range,
            epoch: 3,
            delta,
            stable,
        })
    }
}
