// The row store after some entries.
ghost use Rattle.std.specs.Prelude.{◌≡◌, OnOk, IfOk, option_map};
ghost use Rattle.committed_log.specs.Store.{empty, after_change, value_cmp, newest, last_commit, is_repeated, committed_value, cleared};
ghost use Rattle.committed_log.specs.Regions.{region, regions_after};
ghost use Rattle.row_store.specs.Newest.{with_regions};
ghost use Rattle.committed_log.specs.declared.op.FamilyOp.TheVariants as change;
ghost use Rattle.std.specs.BTreeMap.{is_at};
ghost use Rattle.std.specs.Map.{remove_entry};
ghost use Rattle.std.specs.Ordering.{int_cmp};
ghost use Rattle.row_store.specs.Newest.{is_up_to, is_newer};

use crate::Stop;
use crate::outside::{commits_outside, locks_outside, values_outside};
use crate::regions::{region, regions_after};
use crate::sorted::{drop_entry, entry_at, put_entry};
use column_block::Memory;
use committed_log::{Commit, FamilyOp, LastCommit, Lock, Region};
use flash_types::HandleRange;
use log_codec::{Entry, OpBytes};
use std::alloc::Global;
use std::marker::Model;
use std::mem::replace;

/// The regions and the column families, as lists.
#[derive(Debug, Drop)]
pub struct Store {
    regions: Vec<(u32, Region)>,
    values: Vec<((i64, u64), OpBytes)>,
    locks: Vec<(i64, Lock)>,
    commits: Vec<Commit>,
}

impl Model for Store {
    ghost use Rattle.committed_log.specs.Store.{Store as Families};

    ghost Value = { Families };

    ghost view = { λ s. record { regions = s.regions.items; values = s.values.items; locks = s.locks.items; commits = s.commits.items } };
}

impl Store {
    /// The store of no entries.
    pub fn new(alloc: Global) -> Store
        ensures { result ≡ empty }
    {
        Store {
            regions: Vec::new(alloc),
            values: Vec::new(alloc),
            locks: Vec::new(alloc),
            commits: Vec::new(alloc),
        }
    }

    /// The state of a region.
    pub fn state(&self, r: u32) -> Region
        ensures { result ≡ region self.now.regions r }
    {
        region(&self.regions, r)
    }

    /// The commits, the oldest first.
    pub fn commits(&self) -> &[Commit]
        ensures { result.now ≡ self.now.commits }
    {
        &self.commits
    }

    /// The locks, by handle.
    pub fn locks(&self) -> &[(i64, Lock)]
        ensures { result.now ≡ self.now.locks }
    {
        &self.locks
    }

    /// The regions after an entry. The families stay.
    pub fn advance(&mut self, entry: &Entry) -> Result<(), Stop>
        ensures { OnOk result (self.new ≡ with_regions (regions_after self.old.regions entry.now) self.old) }
    {
        regions_after(&mut self.regions, entry)
    }

    /// Leaves nothing of the handles in a range.
    pub fn clear(&mut self, alloc: Global, range: HandleRange) -> Result<(), Memory>
        ensures { OnOk result (self.new ≡ cleared range self.old) }
    {
        let values = replace(&mut self.values, Vec::new(alloc));
        let Ok(values) = values_outside(alloc, range, values) else {
            return Err(Memory);
        };
        let locks = replace(&mut self.locks, Vec::new(alloc));
        let Ok(locks) = locks_outside(alloc, range, locks) else {
            return Err(Memory);
        };
        let commits = replace(&mut self.commits, Vec::new(alloc));
        let Ok(commits) = commits_outside(alloc, range, commits) else {
            return Err(Memory);
        };
        self.values = values;
        self.locks = locks;
        self.commits = commits;
        Ok(())
    }

    /// Makes one change, by the entry at a position.
    pub fn change(&mut self, position: u64, change: FamilyOp) -> Result<(), Memory>
        ensures { OnOk result (self.new ≡ after_change position self.old change) }
    {
        match change {
            FamilyOp::Value {
                handle,
                start,
                bytes,
            } => put_entry(&mut self.values, (handle, start), bytes),
            FamilyOp::DropValue { handle, start } => drop_value(&mut self.values, handle, start),
            FamilyOp::Lock {
                handle,
                kind,
                start,
            } => put_entry(&mut self.locks, handle, Lock { kind, start }),
            FamilyOp::Unlock { handle } => drop_lock(&mut self.locks, handle),
            FamilyOp::Write {
                handle,
                ts,
                start,
                gone,
                short,
            } => self.commit(position, handle, ts, start, gone, short),
        }
    }

    fn commit(
        &mut self,
        position: u64,
        handle: i64,
        ts: u64,
        start: u64,
        gone: bool,
        short: Option<OpBytes>,
    ) -> Result<(), Memory>
        ensures { OnOk result (self.new ≡ after_change position self.old (change.Write handle ts start gone short)) }
    {
        if is_repeated(last_commit(&self.commits, handle), ts, start, gone) {
            return Ok(());
        }
        let value = committed_value(gone, short, entry_at(&self.values, &(handle, start)))?;
        let commit = Commit {
            handle,
            ts,
            start,
            value,
            position,
        };
        match self.commits.push(commit) {
            Ok(()) => Ok(()),
            Err(_) => Err(Memory),
        }
    }
}

fn drop_value(
    values: &mut Vec<((i64, u64), OpBytes)>,
    handle: i64,
    start: u64,
) -> Result<(), Memory>
    ensures { OnOk result (values.new.items ≡ remove_entry (is_at (value_cmp (handle, start))) values.old.items) }
{
    drop_entry(values, (handle, start));
    Ok(())
}

fn drop_lock(locks: &mut Vec<(i64, Lock)>, handle: i64) -> Result<(), Memory>
    ensures { OnOk result (locks.new.items ≡ remove_entry (is_at (int_cmp handle)) locks.old.items) }
{
    drop_entry(locks, handle);
    Ok(())
}

// Of the commits on a handle the one with the greatest timestamp, up to one where it is given.
pub fn newest(commits: &[Commit], most: Option<u64>, handle: i64) -> Option<&Commit>
    ensures { option_map (λ c. c.now) result ≡ newest (is_up_to most) handle commits.now }
{
    let mut best: Option<&Commit> = None;
    for commit in commits {
        if commit.handle == handle && is_up_to(most, commit) && is_newer(best, commit) {
            best = Some(commit);
        }
    }
    best
}

fn is_up_to(most: Option<u64>, commit: &Commit) -> bool
    ensures { result ≡ is_up_to most commit.now }
{
    match most {
        None => true,
        Some(ts) => commit.ts <= ts,
    }
}

fn is_newer(best: Option<&Commit>, commit: &Commit) -> bool
    ensures { result ≡ is_newer (option_map (λ c. c.now) best.entry) commit.now }
{
    match best {
        None => true,
        Some(other) => other.ts < commit.ts,
    }
}

fn last_commit(commits: &[Commit], handle: i64) -> Option<LastCommit>
    ensures { result ≡ last_commit commits.now handle }
{
    match newest(commits, None, handle) {
        None => None,
        Some(commit) => Some(LastCommit {
            ts: commit.ts,
            start: commit.start,
            gone: commit.value.is_none(),
        }),
    }
}

fn is_repeated(last: Option<LastCommit>, ts: u64, start: u64, gone: bool) -> bool
    ensures { result ≡ is_repeated last ts start gone }
{
    match last {
        None => false,
        Some(commit) => commit.ts == ts && commit.start == start && commit.gone == gone,
    }
}

fn committed_value(
    gone: bool,
    short: Option<OpBytes>,
    long: Option<&OpBytes>,
) -> Result<Option<OpBytes>, Memory>
    ensures { IfOk result (λ value. value ≡ committed_value gone short (option_map (λ v. v.now) long.entry)) }
{
    if gone {
        return Ok(None);
    }
    if let Some(bytes) = short {
        return Ok(Some(bytes));
    }
    match long {
        None => Ok(None),
        Some(bytes) => match bytes.share() {
            Ok(bytes) => Ok(Some(bytes)),
            Err(_) => Err(Memory),
        },
    }
}
