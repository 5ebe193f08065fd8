// Reads that are answered, and what is told of the segments.
ghost use Rattle.std.specs.Prelude.{◌≡◌, map, option_map, slice_get, IfOk, IfErr};
ghost use Rattle.segment_due.specs.Infos.{info_of};
ghost use Rattle.segment_due.specs.Works.{due_of};
ghost use Rattle.replica_state.specs.Asks.{IsReadCause, IsReadOf};

use crate::state::State;
use flash_types::{Ask, Refusal};
use learner_read::Snapshot;
use segment_due::{Due, SegInfo, first_due, info_at};
use segment_snapshot::snapshot_of;

/// Why a read isn't answered.
#[derive(Clone, Copy, Debug, PartialEq, Eq)]
pub enum ReadRefusal {
    /// The read is refused.
    Refused(Refusal),
    /// Memory ran out.
    Memory,
}

impl<G: Drop> State<G> {
    /// What a read sees of what is in memory, which no later step changes: the cuts of its regions,
    /// and views of the segments that it needs. `Refused` exactly where and why `judge` refuses it,
    /// which comes first and takes no memory; `Memory` where it isn't refused and memory runs out.
    pub fn read(&self, ask: &Ask) -> Result<Snapshot<G>, ReadRefusal>
        ensures cause { IfErr result (IsReadCause self.now ask.now) }
        ensures snapshot { IfOk result (IsReadOf self.now ask.now) }
    {
        if let Some(why) = self.judge(ask) {
            return Err(ReadRefusal::Refused(why));
        }
        self.told();
        let Ok(cuts) = self.cuts_of(ask) else {
            return Err(ReadRefusal::Memory);
        };
        match snapshot_of(
            &self.segments,
            ask.ts(),
            ask.clip(),
            cuts,
            self.count,
            self.numbers.generation,
            self.settings.pack_rows,
            self.alloc,
        ) {
            Ok(snapshot) => Ok(snapshot),
            Err(_) => Err(ReadRefusal::Memory),
        }
    }

    /// What is told of the k-th segment by rising handles, counted from 0; none exactly where there
    /// are no more than k. It takes time by the files of the segment's delta, and no memory.
    pub fn segment_at(&self, k: u32) -> Option<SegInfo>
        ensures { result ≡ option_map info_of (slice_get self.now.slots k) }
    {
        info_at(&self.segments, k)
    }

    /// The first work on the segments that is due by the settings, as `segment_due` orders them; none
    /// exactly where none is. It looks at each segment once, and takes no memory.
    pub fn due(&self) -> Option<Due>
        ensures { result ≡ due_of self.now.settings (map info_of self.now.slots) }
    {
        first_due(&self.segments, &self.settings)
    }
}
