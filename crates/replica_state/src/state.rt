// What a replica has in memory.
use crate::numbers::Numbers;
use committed_log::Logs;
use flash_types::Settings;
use region_table::RegionTable;
use segment_list::SegmentList;
use std::alloc::Global;
use std::marker::Model;
use std::sync::Arc;

/// What a replica has in memory: the segments, the table of its regions, and which entries of the
/// log are applied.
#[derive(Drop)]
pub struct State<G> {
    pub(crate) logs: Arc<Logs, Global>,
    pub(crate) segments: SegmentList<G>,
    pub(crate) table: RegionTable,
    // The positions that were applied since the opening, in order.
    pub(crate) listed: Vec<u64>,
    // How many of them the last checkpoint has.
    pub(crate) committed: u64,
    // How many entries are applied.
    pub(crate) count: u64,
    // One past the greatest position that is applied, 0 where none is.
    pub(crate) highest: u64,
    pub(crate) numbers: Numbers,
    pub(crate) settings: Settings,
    pub(crate) alloc: Global,
}

impl<G> Model for State<G> {
    ghost use Rattle.std.specs.Arc.{arc_value};
    ghost use Rattle.replica_state.specs.Core.{Core, IsCore};

    ghost Value = { Core G };

    ghost view = { λ s. record { log = arc_value s.logs; slots = s.segments; table = s.table; listed = s.listed.items; committed = s.committed; count = s.count; highest = s.highest; numbers = s.numbers; settings = s.settings } };

    ghost invariant = { λ s. IsCore (record { log = arc_value s.logs; slots = s.segments; table = s.table; listed = s.listed.items; committed = s.committed; count = s.count; highest = s.highest; numbers = s.numbers; settings = s.settings }) };
}
