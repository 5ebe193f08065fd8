// What is in memory, shown.
ghost use Rattle.std.specs.Prelude.{◌≡◌, ◌≢◌, ◌≤◌, None, length, map, IfSome};
ghost use Rattle.std.specs.List.{AllPairs};
ghost use Rattle.committed_log.specs.Applied.{applied};
ghost use Rattle.committed_log.specs.Lawful.{IsLawful};
ghost use Rattle.committed_log.specs.Regions.{index_of};
ghost use Rattle.flash_types.specs.Ranges.{least_handle};
ghost use Rattle.good_replica.specs.Good.{CoversFrom};
ghost use Rattle.region_table.specs.Applying.{next_ready, AreApplied, IsNextReady};
ghost use Rattle.region_table.specs.Live.{next_there, IsLeastThere};
ghost use Rattle.region_table.specs.Table.{size_of};
ghost use Rattle.segment_list.specs.Lists.{range_alone};
ghost use Rattle.replica_state.specs.Core.{IsCore, IsHighest, full};

use crate::numbers::Numbers;
use crate::state::State;
use committed_log::Logs;
use flash_types::{AskRegion, RegionId, Settings, Ts};
use segment_list::SegmentList;

impl<G: Drop> State<G> {
    /// That what is in memory is in order, its log lawful, that its segments cover all handles, and
    /// that their numbers differ. It does nothing when it runs.
    pub fn told(&self)
        ensures order { IsCore self.now }
        ensures lawful { IsLawful self.now.log }
        ensures cover { CoversFrom least_handle (map range_alone self.now.slots) }
        ensures differ { AllPairs (λ s t. s.id ≢ t.id) self.now.slots }
    {
        self.logs.told_lawful();
        self.segments.covers();
        self.segments.numbers_differ();
    }

    /// The log.
    pub fn log(&self) -> &Logs
        ensures { result.now ≡ self.now.log }
    {
        &self.logs
    }

    /// The segments.
    pub fn segments(&self) -> &SegmentList<G>
        ensures { result.now ≡ self.now.slots }
    {
        &self.segments
    }

    /// From which sizes on background work is due.
    pub fn settings(&self) -> Settings
        ensures { result ≡ self.now.settings }
    {
        self.settings
    }

    /// How many entries are applied.
    pub fn count(&self) -> u64
        ensures { result ≡ size_of self.now.log (full self.now) }
    {
        self.count
    }

    /// One past the greatest position that is applied, 0 where none is.
    pub fn highest(&self) -> u64
        ensures is { result ≡ self.now.highest }
        ensures highest { IsHighest (full self.now) result }
    {
        self.highest
    }

    /// How many entries were applied since the opening.
    pub fn listed(&self) -> u64
        ensures { result ≡ length self.now.listed }
    {
        self.listed.len() as u64
    }

    /// How many of these the last checkpoint has.
    pub fn committed(&self) -> u64
        ensures { result ≡ self.now.committed }
    {
        self.committed
    }

    /// Its numbers.
    pub fn numbers(&self) -> Numbers
        ensures { result ≡ self.now.numbers }
    {
        self.numbers
    }

    /// High as it was at the opening.
    pub fn mark(&self) -> u64
        ensures { result ≡ self.now.numbers.mark }
    {
        self.numbers.mark
    }

    /// Below this timestamp no read is answered.
    pub fn safe_point(&self) -> Ts
        ensures { result ≡ self.now.numbers.safe_point }
    {
        self.numbers.safe_point
    }

    /// Rows of entries below this position may be in the store's files.
    pub fn high(&self) -> u64
        ensures { result ≡ self.now.numbers.high }
    {
        self.numbers.high
    }

    /// The least number that no file and no segment was given.
    pub fn next(&self) -> u32
        ensures { result ≡ self.now.numbers.next }
    {
        self.numbers.next
    }

    /// How often a file went out of use since the opening.
    pub fn generation(&self) -> u64
        ensures { result ≡ self.now.numbers.generation }
    {
        self.numbers.generation
    }

    /// Files that went out of use at a generation below this one may be gone.
    pub fn kept_from(&self) -> u64
        ensures { result ≡ self.now.numbers.kept_from }
    {
        self.numbers.kept_from
    }

    /// The last index of a region that was applied, none where the region isn't born.
    pub fn applied(&self, region: RegionId) -> Option<u64>
        ensures { result ≡ index_of (applied self.now.log (full self.now) region) }
    {
        self.logs.told_lawful();
        self.table.applied(region)
    }

    /// The live or prepared region with the least number above that of `region`, or of all for none,
    /// with its epoch and its index. None exactly where there is none.
    pub fn live_after(&self, region: Option<RegionId>) -> Option<AskRegion>
        ensures first { result ≡ next_there self.now.table.regions region }
        ensures least { IsLeastThere self.now.table.regions region result }
    {
        self.table.live_after(region)
    }

    /// The least position below `below` whose entry can be applied and is of a region whose number
    /// modulo `parts` is `part`; where there is none, the least position below `below` whose entry can
    /// be applied. None exactly where every entry below `below` is applied.
    pub fn next_ready(&self, part: u32, parts: u32, below: u64) -> Option<u64>
        requires { 1 ≤ parts }
        ensures is { result ≡ next_ready self.now.log (full self.now) part parts below }
        ensures ready { IfSome result (IsNextReady self.now.log (full self.now) part parts below) }
        ensures none { result ≡ None → AreApplied self.now.log (full self.now) below }
        ensures left { AreApplied self.now.log (full self.now) below → result ≡ None }
    {
        self.table.next_ready(&self.logs, part, parts, below)
    }
}
