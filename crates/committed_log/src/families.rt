// What admission looks up in the default and the write family, and how changes are taken back.
ghost use Rattle.std.specs.Prelude.{◌≡◌, ◌<◌, ℕ, ℤ, [], IsSome, IfOk, OnErr, OnOk, Some, None, cond, option_copied};
ghost use Rattle.std.specs.BTreeMap.{get, is_at, btree_map_len};
ghost use Rattle.std.specs.Ordering.{int_cmp};
ghost use Rattle.committed_log.specs.Store.{Store, value, value_cmp, last_commit};
ghost use Rattle.committed_log.specs.Families.{Holds, Returns, IsSettled, PutsValue, PutsLast, IsSameBut, CanUndo, held, undo_one, undone};

use crate::op::LastCommit;
use flash_types::{Handle, Ts};
use log_codec::OpBytes;
use std::alloc::{AllocError, Global};
use std::collections::BTreeMap;

/// The values of the default family by row and start; none where a value was taken out again.
pub type Values = BTreeMap<(Handle, Ts), Option<OpBytes>>;

/// The last commit of each row.
pub type Lasts = BTreeMap<Handle, LastCommit>;

/// What stood at places of the default family, in the order of the changes.
pub type ValuesUndo = Vec<((Handle, Ts), Option<Option<OpBytes>>)>;

/// What stood at rows' last commits, in the order of the changes.
pub type LastsUndo = Vec<(Handle, Option<LastCommit>)>;

/// What admission looks up in the families, and what stood at the places that the entry at hand
/// has changed, in the order of its changes.
#[derive(Drop)]
pub struct Families {
    pub values: Values,
    pub last: Lasts,
    pub values_undo: ValuesUndo,
    pub last_undo: LastsUndo,
}

/// Families that have nothing.
pub fn empty_families(alloc: Global) -> Families
    ensures values { result.values.entries ≡ [] }
    ensures last { result.last.entries ≡ [] }
    ensures settled { IsSettled result }
{
    Families {
        values: BTreeMap::new(alloc),
        last: BTreeMap::new(alloc),
        values_undo: Vec::new(alloc),
        last_undo: Vec::new(alloc),
    }
}

/// The last commit of a row.
pub fn last_of(families: &Families, handle: Handle) -> Option<LastCommit>
    ensures { result ≡ get int_cmp families.now.last handle }
{
    families.last.get(&handle).copied()
}

fn find_value(values: &Values, handle: Handle, start: Ts) -> Option<&Option<OpBytes>>
    ensures { option_copied result ≡ get value_cmp values.now (handle, start) }
{
    values.get(&(handle, start))
}

fn insert_value(
    values: &mut Values,
    handle: Handle,
    start: Ts,
    value: Option<OpBytes>,
) -> Result<Option<Option<OpBytes>>, AllocError>
    ensures before { IfOk result (λ before. before ≡ get value_cmp values.old (handle, start)) }
    ensures ok { OnOk result ((q : ℤ × ℕ) → get value_cmp values.new q ≡ cond (is_at (value_cmp (handle, start)) q) (Some value) (get value_cmp values.old q)) }
    ensures err { OnErr result (values.new.entries ≡ values.old.entries) }
    ensures absent { OnErr result (get value_cmp values.old (handle, start) ≡ None) }
{
    match values.insert((handle, start), value) {
        Ok(before) => Ok(before),
        Err(_) => Err(AllocError),
    }
}

/// Takes a place of the default family out of the table.
pub fn remove_value(values: &mut Values, handle: Handle, start: Ts)
    ensures gone { (q : ℤ × ℕ) → get value_cmp values.new q ≡ cond (is_at (value_cmp (handle, start)) q) None (get value_cmp values.old q) }
    ensures fewer { IsSome (get value_cmp values.old (handle, start)) → btree_map_len values.new < btree_map_len values.old }
{
    let _ = values.remove(&(handle, start));
}

/// Takes a row's last commit out of the table.
pub fn remove_last(last: &mut Lasts, handle: Handle)
    ensures gone { (q : ℤ) → get int_cmp last.new q ≡ cond (is_at (int_cmp handle) q) None (get int_cmp last.old q) }
    ensures fewer { IsSome (get int_cmp last.old handle) → btree_map_len last.new < btree_map_len last.old }
{
    let _ = last.remove(&handle);
}

fn insert_last(
    last: &mut Lasts,
    handle: Handle,
    commit: LastCommit,
) -> Result<Option<LastCommit>, AllocError>
    ensures before { IfOk result (λ before. before ≡ get int_cmp last.old handle) }
    ensures ok { OnOk result ((q : ℤ) → get int_cmp last.new q ≡ cond (is_at (int_cmp handle) q) (Some commit) (get int_cmp last.old q)) }
    ensures err { OnErr result (last.new.entries ≡ last.old.entries) }
    ensures absent { OnErr result (get int_cmp last.old handle ≡ None) }
{
    match last.insert(handle, commit) {
        Ok(before) => Ok(before),
        Err(_) => Err(AllocError),
    }
}

/// The bytes that the default family has for a row and a start.
pub fn long_value(families: &Families, handle: Handle, start: Ts) -> Option<&OpBytes>
    ensures { option_copied result ≡ held (get value_cmp families.now.values (handle, start)) }
{
    match find_value(&families.values, handle, start) {
        Some(Some(bytes)) => Some(bytes),
        Some(None) => None,
        None => None,
    }
}

/// Puts a value into the default family, or takes it out, and notes what stood there.
pub fn put_value(
    families: &mut Families,
    handle: Handle,
    start: Ts,
    value: Option<OpBytes>,
) -> Result<(), AllocError>
    ensures ok { OnOk result (PutsValue families.old families.new (handle, start) value) }
    ensures err { OnErr result (IsSameBut families.old families.new) }
{
    families.values_undo.reserve(1)?;
    match insert_value(&mut families.values, handle, start, value) {
        Ok(before) => {
            families
                .values_undo
                .push_reserved(((handle, start), before));
            Ok(())
        }
        Err(_) => Err(AllocError),
    }
}

/// Notes a row's next commit, and what stood there.
pub fn put_last(
    families: &mut Families,
    handle: Handle,
    commit: LastCommit,
) -> Result<(), AllocError>
    ensures ok { OnOk result (PutsLast families.old families.new handle commit) }
    ensures err { OnErr result (IsSameBut families.old families.new) }
{
    families.last_undo.reserve(1)?;
    match insert_last(&mut families.last, handle, commit) {
        Ok(before) => {
            families.last_undo.push_reserved((handle, before));
            Ok(())
        }
        Err(_) => Err(AllocError),
    }
}

fn restore_value(values: &mut Values, handle: Handle, start: Ts, before: Option<Option<OpBytes>>)
    requires { IsSome (get value_cmp values.old (handle, start)) }
    ensures { (q : ℤ × ℕ) → get value_cmp values.new q ≡ undo_one value_cmp ((handle, start), before) (get value_cmp values.old) q }
{
    match before {
        Some(value) => match insert_value(values, handle, start, value) {
            Ok(_) => {}
            Err(_) => unreachable!(),
        },
        None => remove_value(values, handle, start),
    }
}

fn restore_last(last: &mut Lasts, handle: Handle, before: Option<LastCommit>)
    requires { IsSome (get int_cmp last.old handle) }
    ensures { (q : ℤ) → get int_cmp last.new q ≡ undo_one int_cmp (handle, before) (get int_cmp last.old) q }
{
    match before {
        Some(commit) => match insert_last(last, handle, commit) {
            Ok(_) => {}
            Err(_) => unreachable!(),
        },
        None => remove_last(last, handle),
    }
}

fn take_back_values(values: &mut Values, undo: &mut ValuesUndo)
    ghost before: { Store }
    requires can { CanUndo value_cmp undo.old.items (get value_cmp values.old) }
    requires back { (h : ℤ) (start : ℕ) → held (undone value_cmp undo.old.items (get value_cmp values.old) (h, start)) ≡ value before.values h start }
    ensures back { (h : ℤ) (start : ℕ) → held (get value_cmp values.new (h, start)) ≡ value before.values h start }
    ensures settled { undo.new.items ≡ [] }
{
    while let Some(((handle, start), value)) = undo.pop() {
        restore_value(values, handle, start, value);
    }
}

fn take_back_last(last: &mut Lasts, undo: &mut LastsUndo)
    ghost before: { Store }
    requires can { CanUndo int_cmp undo.old.items (get int_cmp last.old) }
    requires back { (h : ℤ) → undone int_cmp undo.old.items (get int_cmp last.old) h ≡ last_commit before.commits h }
    ensures back { (h : ℤ) → get int_cmp last.new h ≡ last_commit before.commits h }
    ensures settled { undo.new.items ≡ [] }
{
    while let Some((handle, commit)) = undo.pop() {
        restore_last(last, handle, commit);
    }
}

/// Takes back the changes that were noted, the last one first.
pub fn take_back(families: &mut Families)
    ghost before: { Store }
    requires { Returns families.old before }
    ensures holds { Holds families.new before }
    ensures settled { IsSettled families.new }
{
    take_back_values(&mut families.values, &mut families.values_undo);
    take_back_last(&mut families.last, &mut families.last_undo);
}

/// Lets the changes stand.
pub fn settle(families: &mut Families)
    ensures holds { (s : Store) → Holds families.old s → Holds families.new s }
    ensures settled { IsSettled families.new }
{
    families.values_undo.clear();
    families.last_undo.clear();
}
