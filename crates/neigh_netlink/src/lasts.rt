//! Entries by VLAN and address with the tickets of their last changes, in a hash map.
ghost use Rattle.std.specs.Prelude.{◌≡◌, ◌≢◌, ◌<◌, ◌^◌, [], None, IfOk, length};
ghost use Rattle.br_model.specs.Data.Maps.{pair_cmp, get, put, without};
ghost use Rattle.open_addressing.specs.Pairs.{by_pair, packed};

use crate::NoMemory;
use crate::entries::Key;
use br_model::change::Kind;
use br_model::numbers::Port;
use open_addressing::map::Numbered;
use std::alloc::Global;

/// Of an entry: the ticket of its last change, its port and its kind.
#[derive(Clone, Copy)]
pub struct Last {
    pub ticket: u32,
    pub port: Port,
    pub kind: Kind,
}

/// What no key has.
const BLANK: Last = Last {
    ticket: 0,
    port: Port::HOST,
    kind: Kind::Local,
};

// The number of a key.
fn pack(key: &Key) -> u64
    ensures value { result ≡ packed key.now }
    ensures some { result ≢ 0 }
    ensures below { key.now.1 < 2 ^ 48 }
{
    let (vid, mac) = *key;
    mac.in_vlan(vid)
}

/// No entry, and room for so many.
pub(crate) fn none(alloc: Global, room: usize) -> Result<Numbered<Last>, NoMemory>
    ensures entries { IfOk result (λ lasts. by_pair lasts.entries ≡ []) }
    ensures room { IfOk result (λ lasts. lasts.room ≡ room) }
{
    Numbered::make(alloc, room, BLANK)
}

/// What stands at the key.
pub(crate) fn find(lasts: &Numbered<Last>, key: &Key) -> Option<Last>
    ensures { result ≡ get pair_cmp (by_pair lasts.now.entries) key.now }
{
    lasts.get(&pack(key))
}

/// Puts an entry at the key. Where none is there, there is to be room for it.
pub(crate) fn put(lasts: &mut Numbered<Last>, key: &Key, last: Last)
    requires { get pair_cmp (by_pair lasts.old.entries) key.now ≡ None → length (by_pair lasts.old.entries) < lasts.old.room }
    ensures entries { by_pair lasts.new.entries ≡ put pair_cmp (by_pair lasts.old.entries) key.now last }
    ensures room { lasts.new.room ≡ lasts.old.room }
{
    lasts.insert(&pack(key), last);
}

/// Takes out the entry at the key, if one is there.
pub(crate) fn take(lasts: &mut Numbered<Last>, key: &Key) -> Option<Last>
    ensures entry { result ≡ get pair_cmp (by_pair lasts.old.entries) key.now }
    ensures entries { by_pair lasts.new.entries ≡ without pair_cmp (by_pair lasts.old.entries) key.now }
    ensures room { lasts.new.room ≡ lasts.old.room }
{
    lasts.take(&pack(key))
}
