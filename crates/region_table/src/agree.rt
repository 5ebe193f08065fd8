// Whether a table is that of a log.
ghost use Rattle.std.specs.Bool.{Decides};
ghost use Rattle.std.specs.Prelude.{◌≡◌, ◌<◌, ◌+◌, true, false, None, length, IfOk, IfSome};
ghost use Rattle.raft_apply.specs.Entries.{IsParsed};
ghost use Rattle.region_table.specs.Agreeing.{IsAnew, IsAnewUpTo, TellNoSet};
ghost use Rattle.region_table.specs.Table.{HasApplied, IsUnready, Agrees};

use crate::counting::is_applied;
use crate::fault::ApplyError;
use crate::laws::empty_tables_agree;
use crate::same::{same_counted, same_positions};
use crate::table::{RegionTable, Regions};
use column_block::Memory;
use committed_log::Logs;
use raft_apply::{Parsed, parse};
use region_file::same_regions;
use std::alloc::Global;

// Applies an entry, and tells whether it was ready.
fn apply_parsed(table: &mut RegionTable, logs: &Logs, parsed: &Parsed) -> Result<bool, Memory>
    requires parsed { IsParsed logs.now parsed.now }
    requires agrees { Agrees logs.now table.old }
    ensures yes { IfOk result (λ b. b ≡ true → HasApplied logs.now parsed.now.position table.old table.new) }
    ensures no { IfOk result (λ b. b ≡ false → IsUnready logs.now table.old parsed.now.position) }
{
    logs.told_lawful();
    match table.apply(logs, parsed) {
        Ok(()) => Ok(true),
        Err(ApplyError::Done { .. }) => Ok(false),
        Err(ApplyError::Early { .. }) => Ok(false),
        Err(ApplyError::Memory) => Err(Memory),
    }
}

// Applies the entry at a position to the table of those before it, where these regions tell that it
// is applied. It is false where the entry isn't ready, so that no table has such regions.
fn apply_next(
    alloc: Global,
    table: &mut RegionTable,
    logs: &Logs,
    regions: &Regions,
    position: u64,
) -> Result<bool, Memory>
    requires within { position < length logs.now.entries }
    requires before { IsAnewUpTo logs.now regions.now.entries position table.old }
    ensures yes { IfOk result (λ b. b ≡ true → IsAnewUpTo logs.now regions.now.entries (position + 1) table.new) }
    ensures no { IfOk result (λ b. b ≡ false → TellNoSet logs.now regions.now.entries) }
{
    if !is_applied(logs, regions, position) {
        return Ok(true);
    }
    match parse(alloc, logs, position) {
        Ok(parsed) => apply_parsed(table, logs, &parsed),
        Err(_) => Err(Memory),
    }
}

/// The table to which the entries are applied that these regions tell are applied, in the order of the
/// log. There is none where one of them isn't ready in its turn.
pub fn applied_anew(
    alloc: Global,
    logs: &Logs,
    regions: &Regions,
) -> Result<Option<RegionTable>, Memory>
    ensures some { IfOk result (λ found. IfSome found (IsAnew logs.now regions.now.entries)) }
    ensures none { IfOk result (λ found. found ≡ None → TellNoSet logs.now regions.now.entries) }
{
    empty_tables_agree();
    let mut table = RegionTable::empty(alloc);
    for position in 0..logs.len() {
        match apply_next(alloc, &mut table, logs, regions, position) {
            Ok(true) => {}
            Ok(false) => return Ok(None),
            Err(_) => return Err(Memory),
        }
    }
    Ok(Some(table))
}

impl RegionTable {
    // Whether it has what the table has to which its entries were applied anew.
    fn is_same(&self, logs: &Logs, anew: &RegionTable) -> bool
        requires { IsAnew logs.now self.now.regions anew.now }
        ensures { Decides result (IsAnew logs.now self.now.regions self.now) }
    {
        let _logs = logs.len();
        // Give the proof that both have their regions and their next entries in order.
        let _own = self.regions.len();
        let _other = anew.regions.len();
        let _nexts = self.nexts.len();
        let _others = anew.nexts.len();
        if !same_regions(&self.regions, &anew.regions) {
            return false;
        }
        if !same_counted(self.counted, anew.counted) {
            return false;
        }
        same_positions(&self.nexts, &anew.nexts)
    }

    /// Whether the table is that of the log at some closed set of entries. Which these are its regions
    /// tell by their indexes: the entries are applied to an empty table in the order of the log, and
    /// the regions, their default values and their locks are compared, and what was counted. `Memory`
    /// is want of memory. It goes over the log, and takes as long as to apply these entries.
    pub fn agrees(&self, logs: &Logs) -> Result<bool, Memory>
        ensures yes { IfOk result (λ b. b ≡ true → Agrees logs.now self.now) }
        ensures no { IfOk result (λ b. Agrees logs.now self.now → b ≡ true) }
    {
        logs.told_lawful();
        match applied_anew(self.alloc, logs, &self.regions) {
            Ok(Some(anew)) => Ok(self.is_same(logs, &anew)),
            Ok(None) => Ok(false),
            Err(_) => Err(Memory),
        }
    }
}
