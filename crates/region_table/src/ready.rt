// The entry that comes next.
ghost use Rattle.std.specs.Prelude.{◌≡◌, ◌<◌, ◌≤◌, ℕ, Bool, None, length, filter, nat_lt, IfSome};
ghost use Rattle.region_table.specs.Applying.{next_ready, is_in_part, IsNextReady, AreApplied};
ghost use Rattle.region_table.specs.Nexts.{ready_in, is_wanted, if_passes, first_wanted};
ghost use Rattle.region_table.specs.Table.{AtItsSet};

use crate::fault::fault_by;
use crate::table::{Positions, RegionTable, Regions};
use committed_log::Logs;
use log_codec::Entry;
use std::collections::btree_map::Range;

/// A part of the regions by their numbers, and a bound on positions.
#[derive(Clone, Copy)]
struct Wanted {
    part: u32,
    parts: u32,
    below: u64,
}

fn is_in_part(wanted: Wanted, entry: &Entry) -> bool
    requires { 1 ≤ wanted.parts }
    ensures { result ≡ is_in_part wanted.part wanted.parts entry.now }
{
    entry.region % wanted.parts == wanted.part
}

fn is_ready(logs: &Logs, regions: &Regions, first: u64, position: u64) -> bool
    requires { position < length logs.now.entries }
    ensures { result ≡ ready_in logs.now regions.now.entries first position }
{
    let _entry = logs.entry(position);
    fault_by(logs, regions, first, position).is_none()
}

fn passes(logs: &Logs, regions: &Regions, first: u64, wanted: Wanted, position: u64) -> bool
    requires { 1 ≤ wanted.parts }
    ensures { result ≡ is_wanted logs.now regions.now.entries first wanted position }
{
    if position >= wanted.below || position >= logs.len() {
        return false;
    }
    is_ready(logs, regions, first, position) && is_in_part(wanted, logs.entry(position))
}

fn if_passes(
    logs: &Logs,
    regions: &Regions,
    first: u64,
    wanted: Wanted,
    position: u64,
) -> Option<u64>
    requires { 1 ≤ wanted.parts }
    ensures { result ≡ if_passes (is_wanted logs.now regions.now.entries first wanted) position }
{
    if passes(logs, regions, first, wanted, position) {
        Some(position)
    } else {
        None
    }
}

// The positions below a bound.
fn below(positions: &Positions, bound: u64) -> Range<'_, u64, ()>
    ensures { result ≡ filter (λ e. nat_lt e.0 bound) positions.now.entries }
{
    positions.range(..bound)
}

// The least of the next entries that passes.
fn first_passing(
    logs: &Logs,
    regions: &Regions,
    nexts: &Positions,
    first: u64,
    wanted: Wanted,
) -> Option<u64>
    requires { 1 ≤ wanted.parts }
    ensures { result ≡ first_wanted logs.now regions.now.entries first wanted nexts.now.entries }
{
    for (position, _) in below(nexts, wanted.below) {
        if let Some(found) = if_passes(logs, regions, first, wanted, *position) {
            return Some(found);
        }
    }
    None
}

impl RegionTable {
    fn find_next(&self, logs: &Logs, part: u32, parts: u32, below: u64) -> Option<u64>
        requires { 1 ≤ parts }
        ensures { AtItsSet logs.now self.now (λ A. result ≡ next_ready logs.now A part parts below) }
    {
        logs.told_lawful();
        // Give the proof that the next entries are in order.
        let _nexts = self.nexts.len();
        let first = self.counted.first;
        if first >= below || first >= logs.len() {
            return None;
        }
        let wanted = Wanted { part, parts, below };
        if is_in_part(wanted, logs.entry(first)) {
            return Some(first);
        }
        match first_passing(logs, &self.regions, &self.nexts, first, wanted) {
            Some(position) => Some(position),
            None => Some(first),
        }
    }

    /// The least position below `below` whose entry can be applied and is of a region whose number
    /// modulo `parts` is `part`; where there is none, the least position below `below` whose entry can
    /// be applied. None exactly where every entry below `below` is applied.
    ///
    /// It takes constant time where that is the first entry that isn't applied. Else it goes over the
    /// next entries of the regions that are there, from the least on, up to the one that it answers. It
    /// takes no memory.
    pub fn next_ready(&self, logs: &Logs, part: u32, parts: u32, below: u64) -> Option<u64>
        requires { 1 ≤ parts }
        ensures is { AtItsSet logs.now self.now (λ A. result ≡ next_ready logs.now A part parts below) }
        ensures ready { AtItsSet logs.now self.now (λ A. IfSome result (IsNextReady logs.now A part parts below)) }
        ensures none { AtItsSet logs.now self.now (λ A. result ≡ None → AreApplied logs.now A below) }
        ensures left { AtItsSet logs.now self.now (λ A. AreApplied logs.now A below → result ≡ None) }
    {
        logs.told_lawful();
        self.find_next(logs, part, parts, below)
    }
}
