// Maps that take the entries of others, and give them back for want of memory.
ghost use Rattle.std.specs.Prelude.{◌≡◌, IfOk, OnOk, OnErr};
ghost use Rattle.std.specs.BTreeMap.{insert_entry, is_at};
ghost use Rattle.std.specs.List.Sorted.{IsStrictlySortedBy};
ghost use Rattle.std.specs.Map.{remove_entry, keys_of};
ghost use Rattle.std.specs.Ordering.{int_cmp};
ghost use Rattle.committed_log.specs.Store.{value_cmp};
ghost use Rattle.region_state.specs.State.{united, outside};

use crate::region::{Locks, Values};
use column_block::Memory;
use committed_log::Lock;
use log_codec::OpBytes;
use std::collections::BTreeMap;
use std::mem::swap;

/// What a second map can have too.
pub trait Share: Sized {
    fn one_more(&self) -> Result<Self, Memory>
        ensures { IfOk result (λ it. it ≡ self.now) };
}

impl Share for OpBytes {
    fn one_more(&self) -> Result<OpBytes, Memory> {
        match self.share() {
            Ok(bytes) => Ok(bytes),
            Err(_) => Err(Memory),
        }
    }
}

impl Share for Lock {
    fn one_more(&self) -> Result<Lock, Memory> {
        Ok(*self)
    }
}

pub fn remove<K: Ord + Copy, V: Share + Drop>(map: &mut BTreeMap<K, V>, key: &K)
    ensures entries { map.new.entries ≡ remove_entry (is_at (K.cmp key.now)) map.old.entries }
    ensures ordered { IsStrictlySortedBy K.cmp (keys_of map.new.entries) }
{
    let _ = map.remove(key);
}

/// Takes out what another map has.
pub fn take_out<K: Ord + Copy, V: Share + Drop>(map: &mut BTreeMap<K, V>, others: &BTreeMap<K, V>)
    ensures { map.new.entries ≡ outside K.cmp others.now.entries map.old.entries }
{
    // Gives the proof that the keys are in order.
    let _len = map.len();
    for (key, _) in others.iter() {
        remove(map, key);
    }
}

pub fn put<K: Ord + Copy, V: Share + Drop>(
    map: &mut BTreeMap<K, V>,
    key: K,
    value: V,
) -> Result<(), Memory>
    ensures ok { OnOk result (map.new.entries ≡ insert_entry K.cmp map.old.entries key value) }
    ensures err { OnErr result (map.new.entries ≡ map.old.entries) }
{
    match map.insert(key, value) {
        Ok(_) => Ok(()),
        Err(_) => Err(Memory),
    }
}

/// Adds the entries of a map that has no key in common. After `Err` the map is as before.
pub fn add_all<K: Ord + Copy, V: Share + Drop>(
    map: &mut BTreeMap<K, V>,
    more: &BTreeMap<K, V>,
) -> Result<(), Memory>
    requires { outside K.cmp more.now.entries map.old.entries ≡ map.old.entries }
    ensures ok { OnOk result (map.new.entries ≡ united K.cmp map.old.entries more.now.entries) }
    ensures undo { OnOk result (outside K.cmp more.now.entries map.new.entries ≡ map.old.entries) }
    ensures err { OnErr result (map.new.entries ≡ map.old.entries) }
{
    for (key, value) in more.iter() {
        let Ok(value) = value.one_more() else {
            take_out(map, more);
            return Err(Memory);
        };
        let Ok(()) = put(map, *key, value) else {
            take_out(map, more);
            return Err(Memory);
        };
    }
    Ok(())
}

// Adds the families of another region. After `Err` the families are as before.
fn add_both(
    values: &mut Values,
    locks: &mut Locks,
    more_values: &Values,
    more_locks: &Locks,
) -> Result<(), Memory>
    requires values { outside value_cmp more_values.now.entries values.old.entries ≡ values.old.entries }
    requires locks { outside int_cmp more_locks.now.entries locks.old.entries ≡ locks.old.entries }
    ensures values { OnOk result (values.new.entries ≡ united value_cmp values.old.entries more_values.now.entries) }
    ensures locks { OnOk result (locks.new.entries ≡ united int_cmp locks.old.entries more_locks.now.entries) }
    ensures err_values { OnErr result (values.new.entries ≡ values.old.entries) }
    ensures err_locks { OnErr result (locks.new.entries ≡ locks.old.entries) }
{
    let Ok(()) = add_all(values, more_values) else {
        return Err(Memory);
    };
    let Ok(()) = add_all(locks, more_locks) else {
        take_out(values, more_values);
        return Err(Memory);
    };
    Ok(())
}

/// Puts the families of two regions together, those that are fewer into the others: it costs no more
/// than the fewer ones. After `Err` all are as before.
pub fn unite(
    values: &mut Values,
    locks: &mut Locks,
    more_values: &mut Values,
    more_locks: &mut Locks,
) -> Result<(), Memory>
    requires values { outside value_cmp more_values.old.entries values.old.entries ≡ values.old.entries }
    requires locks { outside int_cmp more_locks.old.entries locks.old.entries ≡ locks.old.entries }
    requires more_values { outside value_cmp values.old.entries more_values.old.entries ≡ more_values.old.entries }
    requires more_locks { outside int_cmp locks.old.entries more_locks.old.entries ≡ more_locks.old.entries }
    ensures values { OnOk result (values.new.entries ≡ united value_cmp values.old.entries more_values.old.entries) }
    ensures locks { OnOk result (locks.new.entries ≡ united int_cmp locks.old.entries more_locks.old.entries) }
    ensures err { OnErr result ((values.new.entries ≡ values.old.entries) × (locks.new.entries ≡ locks.old.entries)) }
    ensures more { OnErr result ((more_values.new.entries ≡ more_values.old.entries) × (more_locks.new.entries ≡ more_locks.old.entries)) }
{
    let values_len = values.len();
    let locks_len = locks.len();
    let more_values_len = more_values.len();
    let more_locks_len = more_locks.len();
    if more_values_len + more_locks_len <= values_len + locks_len {
        return add_both(values, locks, more_values, more_locks);
    }
    let Ok(()) = add_both(more_values, more_locks, values, locks) else {
        return Err(Memory);
    };
    swap(values, more_values);
    swap(locks, more_locks);
    Ok(())
}
