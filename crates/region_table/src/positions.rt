// The positions of the entries that come next for the regions that are there, as an entry is applied.
ghost use Rattle.std.specs.Prelude.{◌≡◌, Some, OnOk, OnErr, IfOk};
ghost use Rattle.std.specs.List.Sorted.{IsStrictlySortedBy};
ghost use Rattle.std.specs.Map.{keys_of};
ghost use Rattle.std.specs.Ordering.{nat_cmp};
ghost use Rattle.region_table.specs.Nexts.{own_next, child_next, plus, minus, minus_both, NextsAre, AreTheNexts};
ghost use Rattle.region_table.specs.Table.{next_in};

use crate::table::Positions;
use column_block::Memory;
use committed_log::Logs;
use flash_types::RegionId;
use raft_apply::Command;

/// The index that a split's child begins with.
const FIRST_INDEX: u64 = 5;

/// The next entry of an entry's region, where the entry leaves it there.
pub fn own_next(logs: &Logs, id: RegionId, index: u64, command: &Command) -> Option<u64>
    ensures { result ≡ own_next logs.now id index command.now }
{
    match command {
        Command::Remove => None,
        _ => logs.next_of(id, index),
    }
}

/// The next entry of the child of a split.
pub fn child_next(logs: &Logs, command: &Command) -> Option<u64>
    ensures { result ≡ child_next logs.now command.now }
{
    match command {
        Command::Split { child, .. } => logs.next_of(*child, FIRST_INDEX),
        _ => None,
    }
}

fn add_position(positions: &mut Positions, position: u64) -> Result<Option<u64>, Memory>
    ensures ok { OnOk result (NextsAre positions.new.entries (plus (Some position) (next_in positions.old.entries))) }
    ensures back { IfOk result (λ new. AreTheNexts (minus new (next_in positions.new.entries)) positions.old.entries) }
    ensures err { OnErr result (positions.new.entries ≡ positions.old.entries) }
{
    match positions.insert(position, ()) {
        Ok(None) => Ok(Some(position)),
        Ok(Some(_)) => Ok(None),
        Err(_) => Err(Memory),
    }
}

// Adds a position, where there is one, and answers it where it is new.
fn add(positions: &mut Positions, position: Option<u64>) -> Result<Option<u64>, Memory>
    ensures ok { OnOk result (NextsAre positions.new.entries (plus position (next_in positions.old.entries))) }
    ensures back { IfOk result (λ new. AreTheNexts (minus new (next_in positions.new.entries)) positions.old.entries) }
    ensures err { OnErr result (positions.new.entries ≡ positions.old.entries) }
{
    match position {
        None => Ok(None),
        Some(position) => add_position(positions, position),
    }
}

/// Takes a position out, where there is one.
pub fn take_out(positions: &mut Positions, position: Option<u64>)
    ensures { NextsAre positions.new.entries (minus position (next_in positions.old.entries)) }
{
    if let Some(position) = position {
        let _ = positions.remove(&position);
    }
}

/// Positions that were added.
#[derive(Clone, Copy)]
pub struct Added {
    pub own: Option<u64>,
    pub child: Option<u64>,
}

/// Adds two positions, those that there are, or none of them for want of memory. The result has
/// those that are new.
pub fn add_both(
    positions: &mut Positions,
    own: Option<u64>,
    child: Option<u64>,
) -> Result<Added, Memory>
    ensures ok { OnOk result (NextsAre positions.new.entries (plus child (plus own (next_in positions.old.entries)))) }
    ensures back { IfOk result (λ new. AreTheNexts (minus_both new (next_in positions.new.entries)) positions.old.entries) }
    ensures err { OnErr result (positions.new.entries ≡ positions.old.entries) }
{
    let _before = positions.len();
    match add(positions, own) {
        Ok(own) => add_child(positions, own, child),
        Err(_) => Err(Memory),
    }
}

// Adds a second position, or takes the first out again where that was new.
fn add_child(
    positions: &mut Positions,
    own: Option<u64>,
    child: Option<u64>,
) -> Result<Added, Memory>
    ensures ok { OnOk result (NextsAre positions.new.entries (plus child (next_in positions.old.entries))) }
    ensures own { IfOk result (λ new. new.own ≡ own) }
    ensures back { IfOk result (λ new. AreTheNexts (minus new.child (next_in positions.new.entries)) positions.old.entries) }
    ensures err { OnErr result (NextsAre positions.new.entries (minus own (next_in positions.old.entries))) }
    ensures ordered { OnErr result (IsStrictlySortedBy nat_cmp (keys_of positions.new.entries)) }
{
    match add(positions, child) {
        Ok(child) => Ok(Added { own, child }),
        Err(_) => {
            take_out(positions, own);
            let _after = positions.len();
            Err(Memory)
        }
    }
}

/// Takes out again what was added.
pub fn take_back(positions: &mut Positions, new: Added)
    ensures { NextsAre positions.new.entries (minus_both new (next_in positions.old.entries)) }
{
    take_out(positions, new.child);
    take_out(positions, new.own);
}
