// The generated log, entry by entry.
ghost use Rattle.std.specs.Prelude.{◌≡◌, ◌+◌, ◌<◌, ◌≤◌, IfOk, IfErr, OnOk, None, Err, unwrap_or};
ghost use Rattle.committed_log.specs.Lawful.{IsWritable, fault, pushed};
ghost use Rattle.committed_log.specs.Log.{end};
ghost use Rattle.committed_log.specs.Regions.{region as region_in, index_of};
ghost use Rattle.generator.specs.Generated.{generated, log_of, opening, begun, random, columns};
ghost use Rattle.generator.specs.declared.generate.GenerateError.TheVariants.{TooMany, Memory as OutOfMemory};

use crate::entries::{committed, merged, opened, prepared, prewritten, split};
use crate::random::{random_after, region_of};
use column_block::{Column, Kind, Schema};
use committed_log::{Logs, Region, Unlawful};
use flash_types::RegionId;
use log_codec::Entry;
use row_codec::Memory;
use std::alloc::Global;

/// The most transactions of a generated log: with two entries each, and ten more, a log has at most
/// 1,048,576.
pub const MOST_TRANSACTIONS: u32 = 524_283;

/// Why no log is generated.
#[derive(Clone, Copy, Debug, PartialEq, Eq)]
pub enum GenerateError {
    /// There would be more than `MOST_TRANSACTIONS`.
    TooMany,
    /// Memory ran out.
    Memory,
}

// Adds an entry that has no fault.
fn add(logs: &mut Logs, entry: Entry) -> Result<(), Memory>
    requires writable { IsWritable entry }
    requires none { fault logs.old entry ≡ None }
    ensures { OnOk result (logs.new ≡ pushed logs.old entry) }
{
    match logs.admit(entry) {
        Ok(_) => Ok(()),
        Err(Unlawful::Memory) => Err(Memory),
        Err(_) => unreachable!(),
    }
}

// The last index of a region.
fn last_index(logs: &Logs, region: RegionId) -> u64
    ensures { result ≡ unwrap_or (index_of (region_in (end logs.now).regions region)) 0 }
{
    match logs.region_at_end(region) {
        Region::Unborn => 0,
        Region::Live(there) => there.index,
        Region::Prepared(there, _) => there.index,
        Region::Gone(index) => index,
    }
}

fn columns(alloc: Global) -> Result<Schema, Memory>
    ensures { IfOk result (λ schema. schema ≡ columns) }
{
    let ids = [
        Column {
            id: 1,
            kind: Kind::Int,
        },
        Column {
            id: 2,
            kind: Kind::Uint,
        },
        Column {
            id: 3,
            kind: Kind::Bytes,
        },
    ];
    let Ok(list) = Vec::from_slice(alloc, &ids) else {
        return Err(Memory);
    };
    match Schema::new(list) {
        Ok(schema) => Ok(schema),
        Err(_) => unreachable!(),
    }
}

// The log of the first eight entries, by which the eight regions are there.
fn opened_log(alloc: Global) -> Result<Logs, Memory>
    ensures { IfOk result (λ logs. logs ≡ log_of opening) }
{
    let schema = columns(alloc)?;
    let mut logs = Logs::empty(alloc, 1, schema);
    add(&mut logs, opened())?;
    for region in 1..8 {
        add(&mut logs, split(region))?;
    }
    Ok(logs)
}

// Adds the two entries of the transaction `i`, which has this random number.
fn add_transaction(alloc: Global, logs: &mut Logs, x: u64, i: u64) -> Result<(), Memory>
    requires begun { logs.old ≡ log_of (begun i) }
    requires random { x ≡ random (i + 1) }
    requires room { i < 524283 }
    ensures { OnOk result (logs.new ≡ log_of (begun (i + 1))) }
{
    let last = last_index(logs, region_of(x));
    let first = prewritten(alloc, x, i, last)?;
    add(logs, first)?;
    let second = committed(alloc, x, i, last)?;
    add(logs, second)
}

// The log of the first eight entries and `n` transactions.
fn begun_log(alloc: Global, n: u32) -> Result<Logs, Memory>
    requires { n ≤ 524283 }
    ensures { IfOk result (λ logs. logs ≡ log_of (begun n)) }
{
    let mut logs = opened_log(alloc)?;
    let mut x = 1;
    for i in 0..n {
        x = random_after(x);
        add_transaction(alloc, &mut logs, x, i as u64)?;
    }
    Ok(logs)
}

// And of the merge.
fn merged_log(alloc: Global, n: u32) -> Result<Logs, Memory>
    requires { n ≤ 524283 }
    ensures { IfOk result (λ logs. logs ≡ generated n) }
{
    let mut logs = begun_log(alloc, n)?;
    let eight = last_index(&logs, 8);
    let seven = last_index(&logs, 7);
    add(&mut logs, prepared(eight))?;
    add(&mut logs, merged(seven))?;
    Ok(logs)
}

/// The generated log with `n` transactions: table 1 with a column of each kind, eight regions of a
/// thousand handles each but for the first and the last, two entries for each transaction on a
/// random row, and the merge of the last two regions. No entry of it is refused.
///
/// `TooMany` comes exactly where `n` is above `MOST_TRANSACTIONS`.
pub fn generated(alloc: Global, n: u32) -> Result<Logs, GenerateError>
    ensures ok { IfOk result (λ logs. logs ≡ generated n) }
    ensures many { 524283 < n → result ≡ Err TooMany }
    ensures memory { n ≤ 524283 → IfErr result (λ e. e ≡ OutOfMemory) }
{
    if n > MOST_TRANSACTIONS {
        return Err(GenerateError::TooMany);
    }
    match merged_log(alloc, n) {
        Ok(logs) => Ok(logs),
        Err(_) => Err(GenerateError::Memory),
    }
}
