// Entries that are applied.
ghost use Rattle.std.specs.Prelude.{◌≡◌, ◌<◌, ◌≤◌, ◌+◌, Some, length, OnOk, OnErr, IfErr};
ghost use Rattle.raft_apply.specs.Entries.{IsParsed};
ghost use Rattle.region_table.specs.Applying.{IsCause};
ghost use Rattle.region_table.specs.Counting.{applied_in, CountsOne, IsFirstFrom};
ghost use Rattle.region_table.specs.Nexts.{minus, minus_both, NextsAfter, NextsAre};
ghost use Rattle.region_table.specs.Steps.{BecomeAfter, CanDo};
ghost use Rattle.region_table.specs.declared.fault.ApplyError.TheVariants as fault;
ghost use Rattle.region_table.specs.Table.{next_in, IsReady, HasApplied, Agrees};

use crate::counting::is_applied;
use crate::fault::ApplyError;
use crate::positions::{Added, add_both, child_next, own_next, take_back, take_out};
use crate::step::step;
use crate::table::{Counted, Positions, RegionTable, Regions};
use column_block::Memory;
use committed_log::Logs;
use raft_apply::Parsed;
use std::alloc::Global;

// The first entry from a position on that isn't applied, or the log's length.
fn next_out(logs: &Logs, regions: &Regions, from: u64) -> u64
    requires { from ≤ length logs.now.entries }
    ensures { IsFirstFrom (applied_in logs.now regions.now.entries) from (length logs.now.entries) result }
{
    for position in from..logs.len() {
        if !is_applied(logs, regions, position) {
            return position;
        }
    }
    logs.len()
}

// What is counted, when one entry more is applied.
fn count_one(logs: &Logs, regions: &Regions, counted: Counted, position: u64) -> Counted
    requires within { position < length logs.now.entries }
    requires room { counted.count < length logs.now.entries }
    ensures { CountsOne logs.now regions.now.entries position counted result }
{
    let end = logs.len();
    let count = counted.count + 1;
    if position == counted.first && position < end {
        return Counted {
            count,
            first: next_out(logs, regions, position + 1),
        };
    }
    Counted {
        count,
        first: counted.first,
    }
}

// Does to the regions what an entry does, or leaves them for want of memory.
fn change(alloc: Global, regions: &mut Regions, parsed: &Parsed) -> Result<(), Memory>
    requires { CanDo parsed.now regions.old.entries }
    ensures ok { OnOk result (BecomeAfter parsed.now regions.old.entries regions.new.entries) }
    ensures err { OnErr result (regions.new.entries ≡ regions.old.entries) }
{
    let _before = regions.len();
    match step(alloc, regions, parsed.region, parsed.index, &parsed.command) {
        Ok(()) => Ok(()),
        Err(_) => {
            let _after = regions.len();
            Err(Memory)
        }
    }
}

// Does so where the positions of the entries that come next were added: that of the entry is taken
// out, or for want of memory those that were new.
fn change_added(
    alloc: Global,
    regions: &mut Regions,
    nexts: &mut Positions,
    parsed: &Parsed,
    new: Added,
) -> Result<(), Memory>
    requires { CanDo parsed.now regions.old.entries }
    ensures regions { OnOk result (BecomeAfter parsed.now regions.old.entries regions.new.entries) }
    ensures nexts { OnOk result (NextsAre nexts.new.entries (minus (Some parsed.now.position) (next_in nexts.old.entries))) }
    ensures err { OnErr result (regions.new.entries ≡ regions.old.entries) }
    ensures back { OnErr result (NextsAre nexts.new.entries (minus_both new (next_in nexts.old.entries))) }
{
    match change(alloc, regions, parsed) {
        Ok(()) => {
            take_out(nexts, Some(parsed.position));
            Ok(())
        }
        Err(_) => {
            take_back(nexts, new);
            Err(Memory)
        }
    }
}

// Does to the regions and to the positions of the next entries what an entry does, or leaves both.
fn advance(
    alloc: Global,
    logs: &Logs,
    regions: &mut Regions,
    nexts: &mut Positions,
    parsed: &Parsed,
) -> Result<(), Memory>
    requires { CanDo parsed.now regions.old.entries }
    ensures regions { OnOk result (BecomeAfter parsed.now regions.old.entries regions.new.entries) }
    ensures nexts { OnOk result (NextsAfter logs.now parsed.now nexts.old.entries nexts.new.entries) }
    ensures err { OnErr result (regions.new.entries ≡ regions.old.entries) }
    ensures stay { OnErr result (nexts.new.entries ≡ nexts.old.entries) }
{
    let _before = nexts.len();
    let own = own_next(logs, parsed.region, parsed.index, &parsed.command);
    let child = child_next(logs, &parsed.command);
    match add_both(nexts, own, child) {
        Ok(new) => {
            let done = change_added(alloc, regions, nexts, parsed, new);
            let _after = nexts.len();
            done
        }
        Err(_) => Err(Memory),
    }
}

impl RegionTable {
    // Applies an entry that is ready.
    fn apply_ready(&mut self, logs: &Logs, parsed: &Parsed) -> Result<(), ApplyError>
        requires parsed { IsParsed logs.now parsed.now }
        requires agrees { Agrees logs.now self.old }
        requires ready { IsReady logs.now self.old parsed.now.position }
        ensures table { OnOk result (HasApplied logs.now parsed.now.position self.old self.new) }
        ensures memory { IfErr result (λ why. why ≡ fault.Memory) }
        ensures unchanged { OnErr result (self.new ≡ self.old) }
    {
        logs.told_lawful();
        let _end = logs.len();
        let counted = self.counted;
        match advance(self.alloc, logs, &mut self.regions, &mut self.nexts, parsed) {
            Ok(()) => {
                self.counted = count_one(logs, &self.regions, counted, parsed.position);
                Ok(())
            }
            Err(_) => Err(ApplyError::Memory),
        }
    }

    /// Applies an entry of the log: the table becomes that of the log with this entry applied too.
    /// `Done` exactly where it was applied before, `Early` exactly where one that it waits for wasn't;
    /// `Memory` where it could be applied and memory runs out. After an error the table is as before.
    ///
    /// A region waits for the index before the entry's, a commit for the prepare of its source, and an
    /// entry that makes its region for all entries before it; the first of these that is behind is
    /// named.
    pub fn apply(&mut self, logs: &Logs, parsed: &Parsed) -> Result<(), ApplyError>
        requires parsed { IsParsed logs.now parsed.now }
        requires agrees { Agrees logs.now self.old }
        ensures ready { OnOk result (IsReady logs.now self.old parsed.now.position) }
        ensures table { OnOk result (HasApplied logs.now parsed.now.position self.old self.new) }
        ensures cause { IfErr result (IsCause logs.now self.old parsed.now.position) }
        ensures unchanged { OnErr result (self.new ≡ self.old) }
    {
        logs.told_lawful();
        match self.find_fault(logs, parsed.position) {
            Some(why) => Err(why),
            None => self.apply_ready(logs, parsed),
        }
    }
}
