//! Entries in a vector, ascending by VLAN and address.
ghost use Rattle.std.specs.Prelude.{◌≡◌, ◌<◌, ◌≤◌, None, IfOk, IfErr, IsTrue, length, vec_capacity};
ghost use Rattle.std.specs.List.{insert};
ghost use Rattle.br_model.specs.Data.Maps.{pair_cmp, get, put, without, is_ascending};
ghost use Rattle.neigh_netlink.specs.Neighbours.{entry_of};
ghost use Rattle.neigh_netlink.specs.Places.{IsAt, IsGap};

use crate::neigh::Neigh;
use br_model::change::Kind;
use br_model::numbers::{Mac, Port, Vid};

/// An address of a VLAN. Keys are compared by the VLAN and then by the address.
pub type Key = (Vid, Mac);

/// Where an address is, how it came to be there, and whether a chip has it.
#[derive(Clone, Copy)]
pub struct Entry {
    pub port: Port,
    pub kind: Kind,
    pub offload: bool,
}

impl Entry {
    /// What a message of an entry that came or changed says.
    pub fn of(neigh: &Neigh) -> Entry
        ensures { result ≡ entry_of neigh.now }
    {
        Entry {
            port: neigh.port,
            kind: neigh.kind,
            offload: neigh.offload,
        }
    }
}

// Where the key is, or where it would go.
fn search(entries: &[(Key, Entry)], key: &Key) -> Result<usize, usize>
    requires { IsTrue (is_ascending pair_cmp entries.now) }
    ensures found { IfOk result (IsAt entries.now key.now) }
    ensures gap { IfErr result (IsGap entries.now key.now) }
{
    entries.binary_search_by_key(key, |&(k, _)| k)
}

/// What stands at the key.
pub fn find_in(entries: &[(Key, Entry)], key: &Key) -> Option<Entry>
    requires { IsTrue (is_ascending pair_cmp entries.now) }
    ensures { result ≡ get pair_cmp entries.now key.now }
{
    match search(entries, key) {
        Ok(at) => Some(entries[at].1),
        Err(_) => None,
    }
}

/// Puts an entry at the key. Where none is there, there is to be room for it.
pub fn put_in(entries: &mut Vec<(Key, Entry)>, key: Key, entry: Entry)
    requires sorted { IsTrue (is_ascending pair_cmp entries.old.items) }
    requires room { get pair_cmp entries.old.items key ≡ None → length entries.old.items < vec_capacity entries.old }
    ensures items { entries.new.items ≡ put pair_cmp entries.old.items key entry }
    ensures capacity { vec_capacity entries.old ≤ vec_capacity entries.new }
    ensures sorted { IsTrue (is_ascending pair_cmp entries.new.items) }
{
    match search(entries, &key) {
        Ok(at) => entries[at] = (key, entry),
        Err(at) => insert_at(entries, at, (key, entry)),
    }
}

// Inserts within the room.
fn insert_at(entries: &mut Vec<(Key, Entry)>, at: usize, pair: (Key, Entry))
    requires within { at ≤ length entries.old.items }
    requires room { length entries.old.items < vec_capacity entries.old }
    ensures items { entries.new.items ≡ insert entries.old.items at pair }
    ensures capacity { vec_capacity entries.old ≤ vec_capacity entries.new }
{
    match entries.insert(at, pair) {
        Ok(()) => {}
        Err(_) => unreachable!(),
    }
}

/// Takes out the entry at the key, if one is there.
pub fn take_from(entries: &mut Vec<(Key, Entry)>, key: &Key)
    requires { IsTrue (is_ascending pair_cmp entries.old.items) }
    ensures items { entries.new.items ≡ without pair_cmp entries.old.items key.now }
    ensures capacity { vec_capacity entries.old ≤ vec_capacity entries.new }
    ensures sorted { IsTrue (is_ascending pair_cmp entries.new.items) }
{
    if let Ok(at) = search(entries, key) {
        entries.remove(at);
    }
}
