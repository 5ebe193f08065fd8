// Changes of a map that take all their memory first.
ghost use Rattle.std.specs.Prelude.{◌≡◌, [], IfOk, OnOk, OnErr, true, is_some};
ghost use Rattle.std.specs.BTreeMap.{get, insert_entry, is_at};
ghost use Rattle.std.specs.List.Sorted.{IsStrictlySortedBy};
ghost use Rattle.std.specs.Map.{lookup, keys_of};
ghost use Rattle.region_state.specs.Standing.{seen};
ghost use Rattle.region_state.specs.State.{outside};
ghost use Rattle.region_state.specs.Settling.{CanSettle, Ready, settle_step, settled, missing_step, missing};

use crate::union::{Share, add_all, put, remove};
use column_block::Memory;
use std::alloc::Global;
use std::collections::BTreeMap;

fn miss<K: Ord + Copy, V: Share + Drop>(
    map: &BTreeMap<K, V>,
    fresh: &mut BTreeMap<K, V>,
    key: K,
    change: &Option<V>,
) -> Result<(), Memory>
    ensures { OnOk result (fresh.new.entries ≡ missing_step K.cmp map.now.entries fresh.old.entries (key, change.now)) }
{
    match change {
        None => Ok(()),
        Some(value) => {
            if map.contains_key(&key) {
                return Ok(());
            }
            let Ok(value) = value.one_more() else {
                return Err(Memory);
            };
            put(fresh, key, value)
        }
    }
}

/// What changes put where a map has nothing.
pub fn missing<K: Ord + Copy, V: Share + Drop>(
    alloc: Global,
    map: &BTreeMap<K, V>,
    changes: &BTreeMap<K, Option<V>>,
) -> Result<BTreeMap<K, V>, Memory>
    ensures { IfOk result (λ fresh. fresh.entries ≡ missing K.cmp map.now.entries [] changes.now.entries) }
{
    let mut fresh = BTreeMap::new(alloc);
    for (key, change) in changes.iter() {
        miss(map, &mut fresh, *key, change)?;
    }
    Ok(fresh)
}

// Puts a value at a key that is there, which takes no memory.
fn overwrite<K: Ord + Copy, V: Share + Drop>(map: &mut BTreeMap<K, V>, key: K, value: V)
    requires { is_some (get K.cmp map.old key) ≡ true }
    ensures { map.new.entries ≡ insert_entry K.cmp map.old.entries key value }
{
    match map.insert(key, value) {
        Ok(_) => {}
        Err(_) => unreachable!(),
    }
}

/// Makes one change, which takes no memory where a value is put only where there is one.
pub fn settle_one<K: Ord + Copy, V: Share + Drop>(
    map: &mut BTreeMap<K, V>,
    key: K,
    change: Option<V>,
)
    requires { CanSettle K.cmp map.old.entries (key, change) }
    ensures { map.new.entries ≡ settle_step K.cmp map.old.entries (key, change) }
{
    match change {
        Some(value) => overwrite(map, key, value),
        None => remove(map, &key),
    }
}

/// Makes the changes. It takes no memory, since a value is put only where there is one.
pub fn settle<K: Ord + Copy, V: Share + Drop>(
    map: &mut BTreeMap<K, V>,
    changes: BTreeMap<K, Option<V>>,
)
    requires { Ready K.cmp map.old.entries changes.entries }
    ensures entries { map.new.entries ≡ settled K.cmp map.old.entries changes.entries }
    ensures ordered { IsStrictlySortedBy K.cmp (keys_of map.new.entries) }
{
    for (key, change) in changes {
        settle_one(map, key, change);
    }
    // Gives the proof that the keys are in order.
    let _len = map.len();
}

/// Adds what changes put where the map has nothing, so that they take no memory. After `Err` the
/// map is as before.
pub fn make_room<K: Ord + Copy, V: Share + Drop>(
    alloc: Global,
    map: &mut BTreeMap<K, V>,
    changes: &BTreeMap<K, Option<V>>,
) -> Result<BTreeMap<K, V>, Memory>
    ensures ready { OnOk result (Ready K.cmp map.new.entries changes.now.entries) }
    ensures found { OnOk result ((q : K) → lookup (is_at (K.cmp q)) (settled K.cmp map.new.entries changes.now.entries) ≡ seen (get K.cmp changes.now q) (get K.cmp map.old q)) }
    ensures undo { IfOk result (λ fresh. outside K.cmp fresh.entries map.new.entries ≡ map.old.entries) }
    ensures err { OnErr result (map.new.entries ≡ map.old.entries) }
    ensures was_ordered { IsStrictlySortedBy K.cmp (keys_of map.old.entries) }
{
    // Gives the proof that the keys are in order.
    let _lens = (map.len(), changes.len());
    let Ok(fresh) = missing(alloc, map, changes) else {
        return Err(Memory);
    };
    match add_all(map, &fresh) {
        Ok(()) => Ok(fresh),
        Err(_) => Err(Memory),
    }
}
