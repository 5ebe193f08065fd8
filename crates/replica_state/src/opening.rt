// What is in memory at an opening.
ghost use Rattle.std.specs.Prelude.{◌≡◌, ◌<◌, length};
ghost use Rattle.std.specs.Arc.{arc_value};
ghost use Rattle.flash_types.specs.Settings.{AreSettings};
ghost use Rattle.region_table.specs.Counting.{applied_in, has_reached};
ghost use Rattle.region_table.specs.Table.{Agrees};
ghost use Rattle.replica_state.specs.Core.{AreNumbers, AreSlots, IsHighest};
ghost use Rattle.replica_state.specs.Opening.{IsOpened};

use crate::numbers::Numbers;
use crate::state::State;
use committed_log::Logs;
use flash_types::Settings;
use region_table::RegionTable;
use segment_list::SegmentList;
use std::alloc::Global;
use std::sync::Arc;

// Whether a region with this last index has come to an index.
fn has_reached(last: Option<u64>, index: u64) -> bool
    ensures { result ≡ has_reached last index }
{
    match last {
        None => false,
        Some(last) => index <= last,
    }
}

// Whether the entry at a position is applied.
fn is_applied(logs: &Logs, table: &RegionTable, position: u64) -> bool
    requires { position < length logs.now.entries }
    ensures { result ≡ applied_in logs.now table.now.regions position }
{
    let entry = logs.entry(position);
    has_reached(table.applied(entry.region), entry.index)
}

// One past the greatest position that is applied, looked for from the log's end on.
fn highest_of(logs: &Logs, table: &RegionTable) -> u64
    ensures { IsHighest (applied_in logs.now table.now.regions) result }
{
    let mut end = logs.len();
    while end > 0 {
        if is_applied(logs, table, end - 1) {
            return end;
        }
        end -= 1;
    }
    0
}

impl<G: Drop> State<G> {
    /// What is in memory once a store is opened: these segments and regions, and no entry that was
    /// applied since. It takes no memory. It goes over the log from the end on, up to the last entry
    /// that is applied.
    pub fn opened(
        logs: Arc<Logs, Global>,
        segments: SegmentList<G>,
        table: RegionTable,
        numbers: Numbers,
        settings: Settings,
        alloc: Global,
    ) -> State<G>
        requires table { Agrees (arc_value logs) table }
        requires slots { AreSlots (arc_value logs).schema numbers.next 0 0 segments }
        requires numbers { AreNumbers (length (arc_value logs).entries) numbers }
        requires settings { AreSettings settings }
        ensures { IsOpened (arc_value logs) segments table numbers settings result }
    {
        logs.told_lawful();
        let count = table.count(&logs);
        let highest = highest_of(&logs, &table);
        State {
            logs,
            segments,
            table,
            listed: Vec::new(alloc),
            committed: 0,
            count,
            highest,
            numbers,
            settings,
            alloc,
        }
    }
}
