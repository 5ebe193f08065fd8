// What the changes of a log leave, as far as rows at a timestamp come from it.
ghost use Rattle.std.specs.Prelude.{◌≡◌, ℕ, Option, Some, None, IfOk, OnOk, option_map, nat_lt, true, []};
ghost use Rattle.std.specs.Ordering.{int_cmp};
ghost use Rattle.committed_log.specs.Store.{Store, after_change, after_op, after_ops, families_after, is_repeated, committed_value, value, cleared};
ghost use Rattle.committed_log.specs.declared.op.FamilyOp.TheVariants as change;
ghost use Rattle.log_rows.specs.Folds.{Holds, Knows, last_of, next_known, later_last, later_seen};

use crate::clear::{clear_handles, clear_values};
use committed_log::{ChangeError, FamilyOp, LastCommit, change_of};
use flash_types::{Handle, HandleRange, Ts};
use log_codec::{Body, Entry, Op, OpBytes};
use std::alloc::{AllocError, Global};
use std::collections::BTreeMap;

/// The newest commit of a handle that the read may see.
#[derive(Debug, Drop)]
pub struct Seen {
    pub ts: Ts,
    /// None for a delete.
    pub value: Option<OpBytes>,
}

/// What is known of a handle's commits so far.
#[derive(Debug, Drop)]
pub struct Known {
    pub last: LastCommit,
    pub seen: Option<Seen>,
}

/// The values that no commit has taken yet, and what is known of each handle.
#[derive(Debug, Drop)]
pub struct Fold {
    pub ts: Ts,
    pub values: BTreeMap<(Handle, Ts), OpBytes>,
    pub handles: BTreeMap<Handle, Known>,
}

impl Fold {
    /// Before the first change, for a read at the timestamp.
    pub fn new(alloc: Global, ts: Ts) -> Fold
        ensures ts { result.ts ≡ ts }
        ensures values { result.values.entries ≡ [] }
        ensures handles { result.handles.entries ≡ [] }
    {
        Fold {
            ts,
            values: BTreeMap::new(alloc),
            handles: BTreeMap::new(alloc),
        }
    }

    /// One more change.
    pub fn change(&mut self, change: FamilyOp) -> Result<(), AllocError>
        ensures ts { self.new.ts ≡ self.old.ts }
        ensures holds { OnOk result ((p : ℕ) (s : Store) → Holds s self.old.ts self.old.values self.old.handles → Holds (after_change p s change) self.old.ts self.new.values self.new.handles) }
    {
        match change {
            FamilyOp::Value {
                handle,
                start,
                bytes,
            } => match self.values.insert((handle, start), bytes) {
                Ok(_) => Ok(()),
                Err(_no_memory) => Err(AllocError),
            },
            FamilyOp::DropValue { handle, start } => {
                self.values.remove(&(handle, start));
                Ok(())
            }
            FamilyOp::Lock { .. } => Ok(()),
            FamilyOp::Unlock { .. } => Ok(()),
            FamilyOp::Write {
                handle,
                ts,
                start,
                gone,
                short,
            } => self.commit(handle, LastCommit { ts, start, gone }, short),
        }
    }

    /// One more op of an entry of a region with these handles. An op that is at fault, as none of a
    /// lawful log is, changes nothing.
    pub fn op(&mut self, table: i64, range: HandleRange, op: &Op) -> Result<(), AllocError>
        ensures ts { self.new.ts ≡ self.old.ts }
        ensures holds { OnOk result ((p : ℕ) (s : Store) → Holds s self.old.ts self.old.values self.old.handles → Holds (after_op table range p s op.now) self.old.ts self.new.values self.new.handles) }
    {
        match change_of(table, range, op) {
            Ok(Some(change)) => self.change(change),
            Ok(None) => Ok(()),
            Err(ChangeError::BadKey) => Ok(()),
            Err(ChangeError::BadRecord) => Ok(()),
            Err(ChangeError::Memory) => Err(AllocError),
        }
    }

    /// The ops of an entry of a region with these handles, in order.
    pub fn ops(&mut self, table: i64, range: HandleRange, ops: &[Op]) -> Result<(), AllocError>
        ensures ts { self.new.ts ≡ self.old.ts }
        ensures holds { OnOk result ((p : ℕ) (s : Store) → Holds s self.old.ts self.old.values self.old.handles → Holds (after_ops table range p s ops.now) self.old.ts self.new.values self.new.handles) }
    {
        for op in ops {
            if let Err(error) = self.op(table, range, op) {
                return Err(error);
            }
        }
        Ok(())
    }

    /// Nothing is left of the handles in a range.
    pub fn clear(&mut self, range: HandleRange)
        ensures ts { self.new.ts ≡ self.old.ts }
        ensures holds { (s : Store) → Holds s self.old.ts self.old.values self.old.handles → Holds (cleared range s) self.old.ts self.new.values self.new.handles }
    {
        clear_values(&mut self.values, range);
        clear_handles(&mut self.handles, range);
    }

    /// One more entry, of a region that has these handles where it is there.
    pub fn entry(
        &mut self,
        table: i64,
        range: Option<HandleRange>,
        entry: &Entry,
    ) -> Result<(), AllocError>
        ensures ts { self.new.ts ≡ self.old.ts }
        ensures holds { OnOk result ((p : ℕ) (s : Store) → Holds s self.old.ts self.old.values self.old.handles → Holds (families_after table p range entry.now.body s) self.old.ts self.new.values self.new.handles) }
    {
        match &entry.body {
            Body::Write { ops } => match range {
                Some(range) => self.ops(table, range, ops.as_slice()),
                None => Ok(()),
            },
            Body::Remove => {
                if let Some(range) = range {
                    self.clear(range);
                }
                Ok(())
            }
            Body::Install { low, high, ops, .. } => {
                let range = HandleRange {
                    low: *low,
                    high: *high,
                };
                self.install(table, range, ops.as_slice())
            }
            Body::Open { .. } => Ok(()),
            Body::Split { .. } => Ok(()),
            Body::Prepare { .. } => Ok(()),
            Body::Commit { .. } => Ok(()),
            Body::Empty => Ok(()),
        }
    }

    fn install(&mut self, table: i64, range: HandleRange, ops: &[Op]) -> Result<(), AllocError>
        ensures ts { self.new.ts ≡ self.old.ts }
        ensures holds { OnOk result ((p : ℕ) (s : Store) → Holds s self.old.ts self.old.values self.old.handles → Holds (after_ops table range p (cleared range s) ops.now) self.old.ts self.new.values self.new.handles) }
    {
        self.clear(range);
        self.ops(table, range, ops)
    }

    fn commit(
        &mut self,
        handle: Handle,
        one: LastCommit,
        short: Option<OpBytes>,
    ) -> Result<(), AllocError>
        ensures ts { self.new.ts ≡ self.old.ts }
        ensures holds { OnOk result ((p : ℕ) (s : Store) → Holds s self.old.ts self.old.values self.old.handles → Holds (after_change p s (change.Write handle one.ts one.start one.gone short)) self.old.ts self.new.values self.new.handles) }
    {
        let known = self.handles.get(&handle);
        if repeats(known, one) {
            return Ok(());
        }
        let value = value_of(&self.values, handle, one, short)?;
        let next = next_known(self.ts, known, one.ts, one.start, value)?;
        match self.handles.insert(handle, next) {
            Ok(_) => Ok(()),
            Err(_no_memory) => Err(AllocError),
        }
    }
}

// Whether the commit says again what the handle's last one says.
fn repeats(known: Option<&Known>, one: LastCommit) -> bool
    ensures { result ≡ is_repeated (option_map last_of (option_map (λ k. k.now) known.entry)) one.ts one.start one.gone }
{
    match known {
        Some(known) => {
            known.last.ts == one.ts && known.last.start == one.start && known.last.gone == one.gone
        }
        None => false,
    }
}

// The value that a commit puts: its short one, or else the one that waits for it.
fn value_of(
    values: &BTreeMap<(Handle, Ts), OpBytes>,
    handle: Handle,
    one: LastCommit,
    short: Option<OpBytes>,
) -> Result<Option<OpBytes>, AllocError>
    ensures { IfOk result (λ it. it ≡ committed_value one.gone short (value values.now.entries handle one.start)) }
{
    if one.gone {
        return Ok(None);
    }
    if let Some(bytes) = short {
        return Ok(Some(bytes));
    }
    match values.get(&(handle, one.start)) {
        Some(bytes) => Ok(Some(bytes.share()?)),
        None => Ok(None),
    }
}

// What is known of a handle after a commit of this value.
fn next_known(
    asked: Ts,
    known: Option<&Known>,
    ts: Ts,
    start: Ts,
    value: Option<OpBytes>,
) -> Result<Known, AllocError>
    ensures { IfOk result (λ it. it ≡ next_known asked (option_map (λ k. k.now) known.entry) ts start value) }
{
    let one = LastCommit {
        ts,
        start,
        gone: value.is_none(),
    };
    let Some(known) = known else {
        let seen = if ts <= asked {
            Some(Seen { ts, value })
        } else {
            None
        };
        return Ok(Known { last: one, seen });
    };
    let last = if known.last.ts < ts { one } else { known.last };
    if ts <= asked && is_above(&known.seen, ts) {
        let seen = Some(Seen { ts, value });
        return Ok(Known { last, seen });
    }
    let seen = shared(&known.seen)?;
    Ok(Known { last, seen })
}

fn is_above(seen: &Option<Seen>, ts: Ts) -> bool
    ensures { result ≡ elim seen.now [ None ↦ true | Some s ↦ nat_lt s.ts ts ] }
{
    match seen {
        Some(seen) => seen.ts < ts,
        None => true,
    }
}

fn shared(seen: &Option<Seen>) -> Result<Option<Seen>, AllocError>
    ensures { IfOk result (λ it. it ≡ seen.now) }
{
    let Some(seen) = seen else {
        return Ok(None);
    };
    let value = match &seen.value {
        Some(bytes) => Some(bytes.share()?),
        None => None,
    };
    Ok(Some(Seen { ts: seen.ts, value }))
}
