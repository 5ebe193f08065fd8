// Entries that are applied.
ghost use Rattle.std.specs.Prelude.{◌≡◌, ◌+◌, ◌<◌, ◌≤◌, ◌^◌, ◌-◌, map, max, OnOk, OnErr, IfOk, IfErr};
ghost use Rattle.raft_apply.specs.Entries.{IsParsed};
ghost use Rattle.region_table.specs.Applying.{IsCause};
ghost use Rattle.region_table.specs.Table as regions;
ghost use Rattle.segment_list.specs.Slots.{absorbed};
ghost use Rattle.replica_state.specs.Applying.{HasApplied, IsOf};

use crate::state::State;
use committed_log::Logs;
use flash_types::RegionId;
use raft_apply::Parsed;
use region_table::{ApplyError, Effect, RegionTable};
use segment_list::SegmentList;
use std::alloc::Global;

/// Which entry was applied.
#[derive(Clone, Copy, Debug, PartialEq, Eq)]
pub struct Applied {
    pub region: RegionId,
    pub index: u64,
}

// Does to the segments and to the table what an entry does that is ready, or leaves both.
fn advance<G: Drop>(
    logs: &Logs,
    segments: &mut SegmentList<G>,
    table: &mut RegionTable,
    parsed: &Parsed,
    effect: &Effect,
    tag: u64,
    alloc: Global,
) -> Result<(), ApplyError>
    requires parsed { IsParsed logs.now parsed.now }
    requires agrees { regions.Agrees logs.now table.old }
    requires ready { regions.IsReady logs.now table.old parsed.now.position }
    ensures segments { OnOk result (segments.new ≡ map (absorbed tag effect.now.clears effect.now.adds) segments.old) }
    ensures table { OnOk result (regions.HasApplied logs.now parsed.now.position table.old table.new) }
    ensures cause { IfErr result (IsCause logs.now table.old parsed.now.position) }
    ensures refused { OnErr result (segments.new ≡ segments.old) }
    ensures unchanged { OnErr result (table.new ≡ table.old) }
{
    if segments
        .absorb_all(effect.clears, &effect.adds, tag, alloc)
        .is_err()
    {
        return Err(ApplyError::Memory);
    }
    match table.apply(logs, parsed) {
        Ok(()) => Ok(()),
        Err(why) => {
            segments.take_back_all(effect.clears, &effect.adds);
            Err(why)
        }
    }
}

// One past the greater of a number's predecessor and a position.
fn raised(highest: u64, position: u64) -> u64
    requires { position < 2 ^ 64 - 1 }
    ensures { result ≡ max highest (position + 1) }
{
    if position < highest {
        highest
    } else {
        position + 1
    }
}

impl<G: Drop> State<G> {
    /// Applies an entry of the log: its versions and the range that it clears come into the segments,
    /// and the table becomes that of the log with this entry applied too. `Done` exactly where it was
    /// applied before, `Early` exactly where one that it waits for wasn't; `Memory` where it could be
    /// applied and memory runs out. After an error nothing has changed.
    pub fn apply(&mut self, parsed: &Parsed) -> Result<Applied, ApplyError>
        requires parsed { IsParsed self.old.log parsed.now }
        ensures applied { IfOk result (IsOf parsed.now) }
        ensures state { OnOk result (HasApplied self.old parsed.now.position self.new) }
        ensures cause { IfErr result (IsCause self.old.log self.old.table parsed.now.position) }
        ensures refused { OnErr result (self.new ≡ self.old) }
    {
        self.logs.told_lawful();
        let _end = self.logs.len();
        let effect = self.table.effect(&self.logs, parsed)?;
        if self.listed.reserve(1).is_err() {
            return Err(ApplyError::Memory);
        }
        let tag = self.listed.len() as u64 + 1;
        advance(
            &self.logs,
            &mut self.segments,
            &mut self.table,
            parsed,
            &effect,
            tag,
            self.alloc,
        )?;
        self.listed.push_reserved(parsed.position);
        self.count = self.table.count(&self.logs);
        self.highest = raised(self.highest, parsed.position);
        Ok(Applied {
            region: effect.region,
            index: effect.index,
        })
    }
}
