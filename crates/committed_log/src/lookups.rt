// What a log keeps beside its entries, and how it goes on with an entry.
ghost use Rattle.std.specs.Prelude.{◌≡◌, ◌<◌, ◌^◌, [], length, slice_get, vec_len, vec_capacity, IfErr, OnErr, OnOk, Some, None};
ghost use Rattle.committed_log.specs.Admission.{head_fault};
ghost use Rattle.committed_log.specs.Indexed.{AreLookups, log_with};
ghost use Rattle.committed_log.specs.Lawful.{IsRefusal, IsWritable, fault, pushed};
ghost use Rattle.committed_log.specs.Log.{end};
ghost use Rattle.committed_log.specs.Store.{empty};
ghost use Rattle.committed_log.specs.Tables.{Follows};

use crate::admit_head::find_head_fault;
use crate::lows::{Lows, end_moved, low_moves, put_back, put_moved};
use crate::nexts::{Nexts, forget, note};
use crate::tables::{Tables, admit_entry, empty_tables};
use crate::unlawful::Unlawful;
use column_block::Schema;
use flash_list::Items;
use log_codec::Entry;
use std::alloc::Global;
use std::collections::{BTreeMap, HashMap};

/// The tables that admission looks up, and what later calls ask of the log.
#[derive(Drop)]
pub struct Lookups {
    pub tables: Tables,
    pub nexts: Nexts,
    pub lows: Lows,
    /// For each entry the places of its ops that say again what their row's last commit says.
    pub repeats: Vec<Items<u32>>,
    pub alloc: Global,
}

/// What a log with no entries keeps.
pub fn empty_lookups(alloc: Global) -> Lookups
    ensures tables { Follows result.tables empty }
    ensures nexts { result.nexts.entries ≡ [] }
    ensures lows { result.lows.entries ≡ [] }
    ensures repeats { result.repeats.items ≡ [] }
{
    Lookups {
        tables: empty_tables(alloc),
        nexts: HashMap::new(alloc),
        lows: BTreeMap::new(alloc),
        repeats: Vec::new(alloc),
        alloc,
    }
}

/// Admits the entry that is to follow these, and notes what it does, or leaves all as it is.
pub fn admit_next(
    lookups: &mut Lookups,
    table: i64,
    schema: &Schema,
    entries: &[Entry],
    entry: &Entry,
) -> Result<(), Unlawful>
    requires told { AreLookups (log_with table schema.now entries.now) lookups.old }
    requires few { length entries.now < 2 ^ 20 }
    requires writable { IsWritable entry.now }
    ensures ok { OnOk result (fault (log_with table schema.now entries.now) entry.now ≡ None) }
    ensures told { OnOk result (AreLookups (pushed (log_with table schema.now entries.now) entry.now) lookups.new) }
    ensures err { IfErr result (IsRefusal (fault (log_with table schema.now entries.now) entry.now)) }
    ensures unchanged { OnErr result (AreLookups (log_with table schema.now entries.now) lookups.new) }
{
    let position = entries.len() as u64;
    let regions = &lookups.tables.regions;
    if let Some(fault) = find_head_fault(regions, &lookups.lows, position, entry) {
        return Err(fault);
    }
    if lookups.repeats.reserve(1).is_err() {
        return Err(Unlawful::Memory);
    }
    admit_fine(lookups, table, schema, entries, entry)
}

// Admits an entry whose head has no fault, where there is room for the places of its ops.
fn admit_fine(
    lookups: &mut Lookups,
    table: i64,
    schema: &Schema,
    entries: &[Entry],
    entry: &Entry,
) -> Result<(), Unlawful>
    requires told { AreLookups (log_with table schema.now entries.now) lookups.old }
    requires few { length entries.now < 2 ^ 20 }
    requires writable { IsWritable entry.now }
    requires head { head_fault (length entries.now) (end (log_with table schema.now entries.now)).regions entry.now ≡ None }
    requires room { vec_len lookups.old.repeats < vec_capacity lookups.old.repeats }
    ensures ok { OnOk result (fault (log_with table schema.now entries.now) entry.now ≡ None) }
    ensures told { OnOk result (AreLookups (pushed (log_with table schema.now entries.now) entry.now) lookups.new) }
    ensures err { IfErr result (IsRefusal (fault (log_with table schema.now entries.now) entry.now)) }
    ensures unchanged { OnErr result (AreLookups (log_with table schema.now entries.now) lookups.new) }
{
    let position = entries.len() as u64;
    let regions = &lookups.tables.regions;
    let moves = low_moves(regions, entry);
    let Ok(stood) = put_moved(&mut lookups.lows, moves) else {
        return Err(Unlawful::Memory);
    };
    if let Err(_) = note(lookups.alloc, &mut lookups.nexts, regions, entry, position) {
        put_back(&mut lookups.lows, moves, stood);
        return Err(Unlawful::Memory);
    }
    let mut repeated = Vec::new(lookups.alloc);
    match admit_entry(
        &mut lookups.tables,
        table,
        schema,
        entries,
        entry,
        &mut repeated,
    ) {
        Ok(()) => {
            end_moved(&mut lookups.lows, moves);
            lookups.repeats.push_reserved(Items::from_vec(repeated));
            Ok(())
        }
        Err(fault) => {
            forget(&mut lookups.nexts, &lookups.tables.regions, entry);
            put_back(&mut lookups.lows, moves, stood);
            Err(fault)
        }
    }
}

/// Of an entry the places of its ops that say again what their row's last commit says.
pub fn repeats_at(lookups: &Lookups, position: u64) -> &Items<u32>
    requires { position < length lookups.now.repeats.items }
    ensures { slice_get lookups.now.repeats.items position ≡ Some result.now }
{
    &lookups.repeats[position as usize]
}
