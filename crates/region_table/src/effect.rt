// What an entry does to the replica's files.
ghost use Rattle.std.specs.Prelude.{◌≡◌, IfOk, IfErr, OnOk};
ghost use Rattle.raft_apply.specs.Entries.{IsParsed};
ghost use Rattle.region_table.specs.Applying.{IsCause};
ghost use Rattle.region_table.specs.Effects.{adds_of, clears_of, IsEffect};
ghost use Rattle.region_table.specs.Table.{kept_in, IsReady, Agrees};
ghost use Rattle.region_table.specs.declared.fault.ApplyError.TheVariants as fault;

use crate::fault::ApplyError;
use crate::table::{RegionTable, Regions};
use column_block::{Block, Memory, Schema};
use committed_log::Logs;
use flash_types::{HandleRange, RegionId};
use raft_apply::{Command, Parsed};
use region_file::Entry;
use region_state::Region;
use std::alloc::Global;

/// What applying an entry does to the files of a replica: first it takes away what they have of some
/// handles, and then it adds versions.
#[derive(Drop)]
pub struct Effect {
    /// The entry's region and index.
    pub region: RegionId,
    pub index: u64,
    /// The handles that are taken away: those of a region that is gone, or that is installed.
    pub clears: Option<HandleRange>,
    /// The versions that the entry commits, in the order of its ops.
    pub adds: Block,
}

fn clears_of(regions: &Regions, id: RegionId, command: &Command) -> Option<HandleRange>
    ensures { result ≡ clears_of (kept_in regions.now.entries id) command.now }
{
    match command {
        Command::Remove => match regions.get(&id) {
            Some(Entry::There { region }) => Some(region.range()),
            _ => None,
        },
        Command::Install { range, .. } => Some(*range),
        _ => None,
    }
}

fn adds_of(
    alloc: Global,
    regions: &Regions,
    id: RegionId,
    index: u64,
    command: &Command,
    schema: &Schema,
) -> Result<Block, Memory>
    ensures { IfOk result (λ block. block ≡ adds_of schema.now (kept_in regions.now.entries id) index command.now) }
{
    match command {
        Command::Write { ops } => match regions.get(&id) {
            Some(Entry::There { region }) => region.versions(ops.as_slice(), schema),
            _ => Ok(Block::new(alloc)),
        },
        Command::Install { epoch, range, ops } => {
            Region::new(alloc, *range, *epoch, index).versions(ops.as_slice(), schema)
        }
        _ => Ok(Block::new(alloc)),
    }
}

impl RegionTable {
    // The effect of an entry that is ready.
    fn effect_ready(&self, logs: &Logs, parsed: &Parsed) -> Result<Effect, ApplyError>
        requires parsed { IsParsed logs.now parsed.now }
        requires agrees { Agrees logs.now self.now }
        requires ready { IsReady logs.now self.now parsed.now.position }
        ensures effect { IfOk result (IsEffect logs.now parsed.now) }
        ensures memory { IfErr result (λ why. why ≡ fault.Memory) }
    {
        logs.told_lawful();
        let (id, index) = (parsed.region, parsed.index);
        let clears = clears_of(&self.regions, id, &parsed.command);
        match adds_of(
            self.alloc,
            &self.regions,
            id,
            index,
            &parsed.command,
            logs.schema(),
        ) {
            Ok(adds) => Ok(Effect {
                region: id,
                index,
                clears,
                adds,
            }),
            Err(_) => Err(ApplyError::Memory),
        }
    }

    /// What the entry does to the files where it is applied to this table, which stays: told exactly
    /// where the entry is ready, as the log has it. The errors are those of `apply`: `Memory` comes
    /// only where the entry could be applied, and never in place of `Done` or `Early`.
    pub fn effect(&self, logs: &Logs, parsed: &Parsed) -> Result<Effect, ApplyError>
        requires parsed { IsParsed logs.now parsed.now }
        requires agrees { Agrees logs.now self.now }
        ensures ready { OnOk result (IsReady logs.now self.now parsed.now.position) }
        ensures effect { IfOk result (IsEffect logs.now parsed.now) }
        ensures cause { IfErr result (IsCause logs.now self.now parsed.now.position) }
    {
        logs.told_lawful();
        match self.find_fault(logs, parsed.position) {
            Some(why) => Err(why),
            None => self.effect_ready(logs, parsed),
        }
    }
}
