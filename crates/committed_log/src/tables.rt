// The tables that admission looks up: the store at the log's end, as far as admission needs it.
ghost use Rattle.std.specs.Prelude.{[], ◌≡◌, ◌<◌, ◌^◌, ℤ, true, IfErr, OnErr, OnOk, None, length};
ghost use Rattle.committed_log.specs.Admission.{fault_at, head_fault, ops_fault_from};
ghost use Rattle.committed_log.specs.Families.{Holds, Returns, IsSettled};
ghost use Rattle.committed_log.specs.Lawful.{IsRefusal, IsWritable};
ghost use Rattle.committed_log.specs.Numbers.{AreRoomy};
ghost use Rattle.flash_types.specs.Ranges.{holds};
ghost use Rattle.committed_log.specs.Owned.{IsBare, LiesInRegions};
ghost use Rattle.committed_log.specs.Regions.{regions_after};
ghost use Rattle.committed_log.specs.Store.{Store, empty, after_ops, after_entry, cleared};
ghost use Rattle.committed_log.specs.Repeats.{repeated_from, repeated_in};
ghost use Rattle.committed_log.specs.Tables.{Follows};
ghost use Rattle.committed_log.specs.declared.unlawful.Unlawful.TheVariants as unlawful;

use crate::admit_head::{Regions, range_of_region, region_of};
use crate::admit_ops::admit_ops;
use crate::admit_regions::step_regions;
use crate::clearing::clear_range;
use crate::families::{Families, empty_families, settle, take_back};
use crate::unlawful::Unlawful;
use column_block::Schema;
use flash_types::HandleRange;
use log_codec::{Body, Entry, Op};
use std::alloc::Global;
use std::collections::BTreeMap;

/// The regions and the families, as admission looks them up.
#[derive(Drop)]
pub struct Tables {
    pub regions: Regions,
    pub families: Families,
}

/// The tables of an empty log.
pub fn empty_tables(alloc: Global) -> Tables
    ensures { Follows result empty }
{
    Tables {
        regions: BTreeMap::new(alloc),
        families: empty_families(alloc),
    }
}

// Admits the ops of an entry of a region with these handles, and does them; a failure takes back
// what was done.
fn admit_list(
    schema: &Schema,
    table: i64,
    range: HandleRange,
    position: u64,
    families: &mut Families,
    ops: &[Op],
    repeated: &mut Vec<u32>,
) -> Result<(), Unlawful>
    ghost store: { Store }
    requires holds { Holds families.old store }
    requires settled { IsSettled families.old }
    requires count { length ops.now < 2 ^ 32 }
    requires none { repeated.old.items ≡ [] }
    ensures ok { OnOk result (ops_fault_from table schema.now range position store 0 ops.now ≡ None) }
    ensures holds { OnOk result (Holds families.new (after_ops table range position store ops.now)) }
    ensures repeated { OnOk result (repeated.new.items ≡ repeated_from table range position store 0 ops.now) }
    ensures returns { OnOk result (Returns families.new store) }
    ensures err { IfErr result (IsRefusal (ops_fault_from table schema.now range position store 0 ops.now)) }
    ensures unchanged { OnErr result (Holds families.new store) }
    ensures settled { OnErr result (IsSettled families.new) }
{
    match admit_ops(schema, table, range, position, families, ops, repeated) {
        Ok(()) => Ok(()),
        Err(fault) => {
            take_back(families);
            Err(fault)
        }
    }
}

// Does to the regions what an entry does; for want of memory the families are taken back too.
fn enter(tables: &mut Tables, entry: &Entry) -> Result<(), Unlawful>
    ghost before: { Store }
    requires regions { tables.old.regions.entries ≡ before.regions }
    requires returns { Returns tables.old.families before }
    requires room { AreRoomy before.regions }
    ensures ok { OnOk result ((s : Store) → Holds tables.old.families s → Follows tables.new (record s { regions = regions_after before.regions entry.now })) }
    ensures memory { IfErr result (λ e. e ≡ unlawful.Memory) }
    ensures unchanged { OnErr result (Follows tables.new before) }
{
    match step_regions(&mut tables.regions, entry) {
        Ok(()) => {
            settle(&mut tables.families);
            Ok(())
        }
        Err(_) => {
            take_back(&mut tables.families);
            Err(Unlawful::Memory)
        }
    }
}

// Admits an entry with ops, of a region with these handles.
fn admit_write(
    tables: &mut Tables,
    table: i64,
    schema: &Schema,
    position: u64,
    entry: &Entry,
    range: HandleRange,
    ops: &[Op],
    repeated: &mut Vec<u32>,
) -> Result<(), Unlawful>
    ghost store: { Store }
    requires follows { Follows tables.old store }
    requires room { AreRoomy store.regions }
    requires count { length ops.now < 2 ^ 32 }
    requires none { repeated.old.items ≡ [] }
    ensures repeated { OnOk result (repeated.new.items ≡ repeated_from table range position store 0 ops.now) }
    ensures ok { OnOk result (ops_fault_from table schema.now range position store 0 ops.now ≡ None) }
    ensures follows { OnOk result (Follows tables.new (record (after_ops table range position store ops.now) { regions = regions_after store.regions entry.now })) }
    ensures err { IfErr result (IsRefusal (ops_fault_from table schema.now range position store 0 ops.now)) }
    ensures unchanged { OnErr result (Follows tables.new store) }
{
    if let Err(fault) = admit_list(
        schema,
        table,
        range,
        position,
        &mut tables.families,
        ops,
        repeated,
    ) {
        return Err(fault);
    }
    enter(tables, entry)
}

// Admits an entry that makes its region with these handles, of which the families have nothing.
fn admit_install(
    tables: &mut Tables,
    table: i64,
    schema: &Schema,
    position: u64,
    entry: &Entry,
    range: HandleRange,
    ops: &[Op],
    repeated: &mut Vec<u32>,
) -> Result<(), Unlawful>
    ghost store: { Store }
    requires follows { Follows tables.old store }
    requires room { AreRoomy store.regions }
    requires bare { (h : ℤ) → holds range h ≡ true → IsBare h store }
    requires count { length ops.now < 2 ^ 32 }
    requires none { repeated.old.items ≡ [] }
    ensures repeated { OnOk result (repeated.new.items ≡ repeated_from table range position (cleared range store) 0 ops.now) }
    ensures ok { OnOk result (ops_fault_from table schema.now range position (cleared range store) 0 ops.now ≡ None) }
    ensures follows { OnOk result (Follows tables.new (record (after_ops table range position (cleared range store) ops.now) { regions = regions_after store.regions entry.now })) }
    ensures err { IfErr result (IsRefusal (ops_fault_from table schema.now range position (cleared range store) 0 ops.now)) }
    ensures unchanged { OnErr result (Follows tables.new store) }
{
    admit_write(tables, table, schema, position, entry, range, ops, repeated)
}

// Admits an entry by which a region with these handles is gone.
fn admit_remove(tables: &mut Tables, entry: &Entry, range: HandleRange) -> Result<(), Unlawful>
    ghost store: { Store }
    requires follows { Follows tables.old store }
    requires room { AreRoomy store.regions }
    ensures ok { OnOk result (Follows tables.new (record (cleared range store) { regions = regions_after store.regions entry.now })) }
    ensures memory { IfErr result (λ e. e ≡ unlawful.Memory) }
    ensures unchanged { OnErr result (Follows tables.new store) }
{
    match enter(tables, entry) {
        Ok(()) => {
            clear_range(&mut tables.families, range);
            Ok(())
        }
        Err(fault) => Err(fault),
    }
}

/// Admits the entry that is to follow these, whose head has no fault, and does it, or leaves the
/// tables as they are. The places of its ops that say again what their row's last commit says are
/// put into `repeated`.
pub fn admit_entry(
    tables: &mut Tables,
    table: i64,
    schema: &Schema,
    earlier: &[Entry],
    entry: &Entry,
    repeated: &mut Vec<u32>,
) -> Result<(), Unlawful>
    ghost store: { Store }
    requires follows { Follows tables.old store }
    requires room { AreRoomy store.regions }
    requires lies { LiesInRegions store }
    requires writable { IsWritable entry.now }
    requires none { repeated.old.items ≡ [] }
    requires head { head_fault (length earlier.now) store.regions entry.now ≡ None }
    ensures repeated { OnOk result (repeated.new.items ≡ repeated_in table (length earlier.now) store entry.now.region entry.now.body) }
    ensures ok { OnOk result (fault_at table schema.now (length earlier.now) store entry.now ≡ None) }
    ensures follows { OnOk result (Follows tables.new (after_entry table (length earlier.now) store entry.now)) }
    ensures err { IfErr result (IsRefusal (fault_at table schema.now (length earlier.now) store entry.now)) }
    ensures unchanged { OnErr result (Follows tables.new store) }
{
    let position = earlier.len() as u64;
    match &entry.body {
        Body::Write { ops } => match range_of_region(region_of(&tables.regions, entry.region)) {
            Some(range) => admit_write(
                tables,
                table,
                schema,
                position,
                entry,
                range,
                ops.as_slice(),
                repeated,
            ),
            None => enter(tables, entry),
        },
        Body::Install { low, high, ops, .. } => {
            let range = HandleRange {
                low: *low,
                high: *high,
            };
            admit_install(
                tables,
                table,
                schema,
                position,
                entry,
                range,
                ops.as_slice(),
                repeated,
            )
        }
        Body::Remove => match range_of_region(region_of(&tables.regions, entry.region)) {
            Some(range) => admit_remove(tables, entry, range),
            None => enter(tables, entry),
        },
        Body::Open { .. }
        | Body::Split { .. }
        | Body::Prepare { .. }
        | Body::Commit { .. }
        | Body::Empty => enter(tables, entry),
    }
}
