// Lists of entries in the order of their keys, searched from the front.
ghost use Rattle.std.specs.Prelude.{◌≡◌, ◌≤◌, ◌<◌, ◌++◌, length, take, drop, get_or, insert, false, IsTrue, OnOk, option_map};
ghost use Rattle.std.specs.BTreeMap.{insert_entry, is_at};
ghost use Rattle.std.specs.Map.{lookup, remove_entry};
ghost use Rattle.std.specs.Ordering.{is_gt};
ghost use Rattle.row_store.specs.Stands.{stands};

use column_block::Memory;
use std::cmp::Ordering;

/// What stands at a key.
pub fn entry_at<'a, K: Ord, V>(entries: &'a [(K, V)], key: &K) -> Option<&'a V>
    ensures { option_map (λ v. v.now) result ≡ lookup (is_at (K.cmp key.now)) entries.now }
{
    for entry in entries {
        if is_at(key, &entry.0) {
            return Some(&entry.1);
        }
    }
    None
}

/// Puts a value at a key.
pub fn put_entry<K: Ord + Copy, V: Drop>(
    entries: &mut Vec<(K, V)>,
    key: K,
    value: V,
) -> Result<(), Memory>
    ensures { OnOk result (entries.new.items ≡ insert_entry K.cmp entries.old.items key value) }
{
    let at = place_of(entries, &key);
    if stands_at(entries, at, &key) {
        entries[at].1 = value;
        return Ok(());
    }
    insert_at(entries, at, key, value)
}

fn insert_at<K, V>(entries: &mut Vec<(K, V)>, at: usize, key: K, value: V) -> Result<(), Memory>
where
    K: Drop,
    V: Drop,
    requires { at ≤ length entries.old.items }
    ensures { OnOk result (entries.new.items ≡ insert entries.old.items at (key, value)) }
{
    match entries.insert(at, (key, value)) {
        Ok(()) => Ok(()),
        Err(_) => Err(Memory),
    }
}

// Whether the entry at a place has the key.
fn stands_at<K: Ord, V>(entries: &[(K, V)], at: usize, key: &K) -> bool
    ensures stands { result ≡ stands K.cmp key.now entries.now at }
    ensures within { IsTrue result → at < length entries.now }
{
    match entries.get(at) {
        Some(entry) => is_at(key, &entry.0),
        None => false,
    }
}

/// Takes out what stands at a key.
pub fn drop_entry<K: Ord + Copy, V: Drop>(entries: &mut Vec<(K, V)>, key: K)
    ensures { entries.new.items ≡ remove_entry (is_at (K.cmp key)) entries.old.items }
{
    for i in 0..entries.len() {
        if is_at(&key, &entries[i].0) {
            let _ = entries.remove(i);
            return;
        }
    }
}

// The place before which all keys are below this one.
fn place_of<K: Ord, V>(entries: &[(K, V)], key: &K) -> usize
    ensures within { result ≤ length entries.now }
    ensures below { (v : V) → insert_entry K.cmp entries.now key.now v ≡ take result entries.now ++ insert_entry K.cmp (drop result entries.now) key.now v }
    ensures stops { (d : K × V) → result < length entries.now → is_gt (K.cmp key.now (get_or entries.now result d).0) ≡ false }
{
    for (i, entry) in entries.iter().enumerate() {
        if !is_above(key, &entry.0) {
            return i;
        }
    }
    entries.len()
}

fn is_at<K: Ord>(key: &K, other: &K) -> bool
    ensures { result ≡ is_at (K.cmp key.now) other.now }
{
    match key.cmp(other) {
        Ordering::Equal => true,
        Ordering::Less => false,
        Ordering::Greater => false,
    }
}

fn is_above<K: Ord>(key: &K, other: &K) -> bool
    ensures { result ≡ is_gt (K.cmp key.now other.now) }
{
    match key.cmp(other) {
        Ordering::Greater => true,
        Ordering::Less => false,
        Ordering::Equal => false,
    }
}
