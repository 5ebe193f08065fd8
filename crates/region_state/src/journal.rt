// Puts in a map that can be taken back.
ghost use Rattle.std.specs.Prelude.{◌≡◌, [], ◌∷◌, ◌++◌, IfOk, OnOk, OnErr, option_to_list};
ghost use Rattle.std.specs.BTreeMap.{get, insert_entry};
ghost use Rattle.std.specs.List.Sorted.{IsStrictlySortedBy};
ghost use Rattle.std.specs.Map.{keys_of};
ghost use Rattle.region_state.specs.Undoing.{noted, undone, CanUndo};

use crate::settle::settle_one;
use crate::union::Share;
use column_block::Memory;
use std::alloc::Global;
use std::collections::BTreeMap;

/// What stood at each key where something was put, or none, in the order of the puts. The last is
/// kept beside the others, so that a single put takes no memory for it.
#[derive(Drop)]
pub struct Journal<K, V> {
    earlier: Vec<(K, Option<V>)>,
    last: Option<(K, Option<V>)>,
}

// Puts the last beside the others.
fn make_room<K: Copy, V: Drop>(journal: &mut Journal<K, V>) -> Result<(), Memory>
    ensures same { noted journal.new ≡ noted journal.old }
    ensures room { OnOk result (journal.new.earlier.items ≡ noted journal.new) }
{
    match journal.last.take() {
        None => Ok(()),
        Some(last) => match journal.earlier.push(last) {
            Ok(()) => Ok(()),
            Err(failed) => {
                journal.last = Some(failed.value);
                Err(Memory)
            }
        },
    }
}

// Takes back one put, if there is one.
fn take_back_one<K: Ord + Copy, V: Share + Drop>(
    map: &mut BTreeMap<K, V>,
    put: Option<(K, Option<V>)>,
)
    requires { CanUndo K.cmp map.old.entries (option_to_list put) }
    ensures { map.new.entries ≡ undone K.cmp map.old.entries (option_to_list put) }
{
    match put {
        None => {}
        Some((key, old)) => settle_one(map, key, old),
    }
}

// Takes back all puts, the last first.
fn take_back_all<K: Ord + Copy, V: Share + Drop>(
    map: &mut BTreeMap<K, V>,
    mut puts: Vec<(K, Option<V>)>,
)
    requires { CanUndo K.cmp map.old.entries puts.items }
    ensures { map.new.entries ≡ undone K.cmp map.old.entries puts.items }
{
    while let Some((key, old)) = puts.pop() {
        settle_one(map, key, old);
    }
}

impl<K: Ord + Copy, V: Share + Drop> Journal<K, V> {
    pub fn new(alloc: Global) -> Journal<K, V>
        ensures { noted result ≡ [] }
    {
        Journal {
            earlier: Vec::new(alloc),
            last: None,
        }
    }

    /// Puts a value, and notes what stood there. After `Err` the map is as before.
    pub fn put(&mut self, map: &mut BTreeMap<K, V>, key: K, value: V) -> Result<(), Memory>
        ensures ok { OnOk result (map.new.entries ≡ insert_entry K.cmp map.old.entries key value) }
        ensures noted { OnOk result (noted self.new ≡ noted self.old ++ (key, get K.cmp map.old key) ∷ []) }
        ensures err { OnErr result (map.new.entries ≡ map.old.entries) }
        ensures err_noted { OnErr result (noted self.new ≡ noted self.old) }
        ensures ordered { IsStrictlySortedBy K.cmp (keys_of map.old.entries) }
    {
        // Gives the proof that the keys are in order.
        let _len = map.len();
        let Ok(()) = make_room(self) else {
            return Err(Memory);
        };
        match map.insert(key, value) {
            Ok(old) => {
                self.last = Some((key, old));
                Ok(())
            }
            Err(_) => Err(Memory),
        }
    }

    /// Takes back all puts, the last first. It takes no memory, since what stood at a key is put where
    /// something stands.
    pub fn take_back(self, map: &mut BTreeMap<K, V>)
        requires { CanUndo K.cmp map.old.entries (noted self) }
        ensures { map.new.entries ≡ undone K.cmp map.old.entries (noted self) }
    {
        let Journal { earlier, last } = self;
        take_back_one(map, last);
        take_back_all(map, earlier);
    }
}
