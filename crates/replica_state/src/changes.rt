// What the steps that write put into memory once it is committed.
ghost use Rattle.std.specs.Prelude.{◌≡◌, ◌<◌, ◌≤◌, length, slice_get, Some, IfOk};
ghost use Rattle.region_table.specs.Opening.{IsFileOf};
ghost use Rattle.segment_flush.specs.Flushing.{after_slots, has_more, is_slot, plans_of};
ghost use Rattle.segment_list.specs.Flushes.{IsFlushOf};
ghost use Rattle.segment_list.specs.Slots.{Slotted};
ghost use Rattle.replica_state.specs.Core.{full};
ghost use Rattle.replica_state.specs.Changes.{checkpointed, with_flushes, with_kept_from, with_safe_point};

use crate::Memory;
use crate::state::State;
use flash_io::FileId;
use flash_types::Ts;
use region_table::written_tables_are_read_again;
use segment_flush::{Plan, put_all};
use segment_list::Flush;

impl<G: Drop> State<G> {
    /// The bytes of a checkpoint's region file, which has the regions as all that is applied leaves
    /// them.
    pub fn regions_file(&self) -> Result<Vec<u8>, Memory>
        ensures { IfOk result (λ bytes. IsFileOf self.now.log (full self.now) bytes.items) }
    {
        self.logs.told_lawful();
        written_tables_are_read_again();
        let mut bytes = Vec::new(self.alloc);
        match self.table.write_file(&mut bytes) {
            Ok(()) => Ok(bytes),
            Err(_) => Err(Memory),
        }
    }

    /// Puts a flush of the slot at a place, whose blocks in memory have the numbers from Next on, and
    /// this High. It takes no memory.
    pub fn put_flush(&mut self, place: usize, flush: Flush, high: u64)
        requires within { place < length self.old.slots }
        requires planned { (s : Slotted G) → slice_get self.old.slots place ≡ Some s → IsFlushOf s.files flush }
        requires from { flush.from ≡ self.old.numbers.next }
        requires no_lower { self.old.numbers.high ≤ high }
        requires in_log { high ≤ length self.old.log.entries }
        ensures { (s : Slotted G) → slice_get self.old.slots place ≡ Some s → self.new ≡ with_flushes (is_slot s.id) high self.old }
    {
        self.segments.numbers_differ();
        self.numbers.next = flush.next;
        self.numbers.high = high;
        self.segments.put_flush(place, flush);
    }

    /// Puts a checkpoint: the planned flushes, one past the number of its region file as Next, High,
    /// and the generation. All that is applied is committed then. It takes no memory.
    pub fn put_checkpoint(&mut self, plan: Plan, next: FileId, high: u64, generation: u64)
        requires planned { plan.flushes.items ≡ plans_of has_more self.old.numbers.next self.old.slots }
        requires next { after_slots has_more self.old.numbers.next self.old.slots < next }
        requires no_lower { self.old.numbers.high ≤ high }
        requires in_log { high ≤ length self.old.log.entries }
        requires no_younger { self.old.numbers.generation ≤ generation }
        requires numbered { generation < next }
        ensures { self.new ≡ checkpointed next high generation self.old }
    {
        put_all(&mut self.segments, self.numbers.next, plan.flushes);
        self.numbers.next = next;
        self.numbers.high = high;
        self.numbers.generation = generation;
        self.committed = self.listed.len() as u64;
    }

    /// Sets the safe point.
    pub fn set_safe_point(&mut self, ts: Ts)
        ensures { self.new ≡ with_safe_point ts self.old }
    {
        self.numbers.safe_point = ts;
    }

    /// Sets the least generation whose files are kept.
    pub fn set_kept_from(&mut self, kept_from: u64)
        requires { kept_from ≤ self.old.numbers.generation }
        ensures { self.new ≡ with_kept_from kept_from self.old }
    {
        self.numbers.kept_from = kept_from;
    }
}
