// Why an entry can't be applied.
ghost use Rattle.std.specs.Prelude.{◌≡◌, ◌<◌, length};
ghost use Rattle.committed_log.specs.Laws.{is_after, is_prepared};
ghost use Rattle.committed_log.specs.Regions.{region, index_of, makes_region};
ghost use Rattle.region_table.specs.Applying.{behind, own_behind, source_behind, all_behind, IsFaultAt};
ghost use Rattle.region_table.specs.Faults.{prepare_at_end, IsFaultIn};
ghost use Rattle.region_table.specs.Table.{state_in, AtItsSet};

use crate::counting::has_reached;
use crate::table::{RegionTable, Regions, index_of, state_of};
use committed_log::{Logs, Region};
use flash_types::RegionId;
use log_codec::{Body, Entry};

/// Why an entry isn't applied.
#[derive(Clone, Copy, Debug, PartialEq, Eq)]
pub enum ApplyError {
    /// It was applied before. `applied` is its region's index.
    Done {
        region: RegionId,
        applied: u64,
    },
    /// The region isn't as far as the entry needs it: its index is `applied`, none where it isn't
    /// born, and it is to be `wants`.
    Early {
        region: RegionId,
        applied: Option<u64>,
        wants: u64,
    },
    /// Memory ran out.
    Memory,
}

fn behind(regions: &Regions, id: RegionId, wants: u64) -> Option<ApplyError>
    ensures { result ≡ behind (state_in regions.now.entries) id wants }
{
    Some(ApplyError::Early {
        region: id,
        applied: index_of(state_of(regions, id)),
        wants,
    })
}

fn makes_region(body: &Body) -> bool
    ensures { result ≡ makes_region body.now }
{
    matches!(body, Body::Open { .. } | Body::Install { .. })
}

fn is_after(last: Option<u64>, index: u64) -> bool
    ensures { result ≡ is_after last index }
{
    match last {
        None => false,
        Some(last) => index > 0 && last == index - 1,
    }
}

// Whether the entry's own region is behind, by the last index that it has.
fn own_behind(regions: &Regions, last: Option<u64>, entry: &Entry) -> Option<ApplyError>
    requires { last ≡ index_of (state_in regions.now.entries entry.now.region) }
    ensures { result ≡ own_behind (state_in regions.now.entries) entry.now }
{
    if makes_region(&entry.body) || is_after(last, entry.index) {
        return None;
    }
    behind(regions, entry.region, entry.index.saturating_sub(1))
}

fn is_prepared(state: Region) -> bool
    ensures { result ≡ is_prepared state }
{
    matches!(state, Region::Prepared(_, _))
}

// The last index that the log gives the source of a commit.
fn prepare_at_end(logs: &Logs, body: &Body) -> u64
    ensures { result ≡ prepare_at_end logs.now body.now }
{
    match body {
        Body::Commit { source } => index_of(logs.region_at_end(*source)).unwrap_or(0),
        _ => 0,
    }
}

fn source_behind(regions: &Regions, prepare: u64, body: &Body) -> Option<ApplyError>
    ensures { result ≡ source_behind (state_in regions.now.entries) prepare body.now }
{
    match body {
        Body::Commit { source } => {
            if is_prepared(state_of(regions, *source)) {
                return None;
            }
            behind(regions, *source, prepare)
        }
        _ => None,
    }
}

fn all_behind(
    logs: &Logs,
    regions: &Regions,
    first: u64,
    position: u64,
    entry: &Entry,
) -> Option<ApplyError>
    requires { position < length logs.now.entries }
    ensures { result ≡ all_behind logs.now (state_in regions.now.entries) first position entry.now }
{
    if !makes_region(&entry.body) || first >= position {
        return None;
    }
    let waited = logs.entry(first);
    behind(regions, waited.region, waited.index)
}

/// Why the entry at a position can't be applied, if it can't, where `first` is the first that isn't applied.
pub fn fault_by(logs: &Logs, regions: &Regions, first: u64, position: u64) -> Option<ApplyError>
    requires { position < length logs.now.entries }
    ensures { IsFaultIn logs.now regions.now.entries first position result }
{
    let entry = logs.entry(position);
    let last = index_of(state_of(regions, entry.region));
    if has_reached(last, entry.index) {
        return Some(ApplyError::Done {
            region: entry.region,
            applied: last.unwrap_or(0),
        });
    }
    if let Some(early) = own_behind(regions, last, entry) {
        return Some(early);
    }
    if let Some(early) = source_behind(regions, prepare_at_end(logs, &entry.body), &entry.body) {
        return Some(early);
    }
    all_behind(logs, regions, first, position, entry)
}

impl RegionTable {
    /// Why the entry at a position can't be applied, if it can't.
    pub(crate) fn find_fault(&self, logs: &Logs, position: u64) -> Option<ApplyError>
        requires { position < length logs.now.entries }
        ensures { AtItsSet logs.now self.now (λ A. IsFaultAt logs.now A position result) }
    {
        logs.told_lawful();
        fault_by(logs, &self.regions, self.counted.first, position)
    }
}
