//! Finite maps and sets by std's ordered ones, in the definitions' words.
ghost use Rattle.std.specs.Prelude.{◌≡◌, OnOk};
ghost use Rattle.br_model.specs.Data.Maps.{get, put as with_entry, without, joined, parted};

use crate::NoMemory;
use std::collections::{BTreeMap, BTreeSet};

pub fn find<K: Ord, V: Copy>(map: &BTreeMap<K, V>, key: &K) -> Option<V>
    ensures { result ≡ get K.cmp map.now.entries key.now }
{
    map.get(key).copied()
}

/// Puts the value at the key, in place of one. After `NoMemory` nothing is known of the map.
pub fn put<K: Ord + Drop, V: Drop>(
    map: &mut BTreeMap<K, V>,
    key: K,
    value: V,
) -> Result<(), NoMemory>
    ensures { OnOk result (map.new.entries ≡ with_entry K.cmp map.old.entries key value) }
{
    map.insert(key, value)?;
    Ok(())
}

/// Takes out the key's entry, if there is one.
pub fn take<K: Ord + Drop, V: Drop>(map: &mut BTreeMap<K, V>, key: &K)
    ensures { map.new.entries ≡ without K.cmp map.old.entries key.now }
{
    // `len` tells that the keys ascend.
    if map.len() > 0 {
        let _ = map.remove(key);
    }
}

/// Makes the key a member. After `NoMemory` nothing is known of the set.
pub fn join<K: Ord + Drop>(set: &mut BTreeSet<K>, key: K) -> Result<(), NoMemory>
    ensures { OnOk result (set.new.keys ≡ joined K.cmp set.old.keys key) }
{
    set.insert(key)?;
    Ok(())
}

/// Takes the key out, if it is a member.
pub fn part<K: Ord + Drop>(set: &mut BTreeSet<K>, key: &K)
    ensures { set.new.keys ≡ parted K.cmp set.old.keys key.now }
{
    if set.len() > 0 {
        set.remove(key);
    }
}
