//! The addresses of a bridge's table, with their moments.
ghost use Rattle.std.specs.Prelude.{◌≡◌, ◌||◌, if◌then◌else◌, not, nat_lt, false, min, IfOk, IsSome, IsTrue, [], length, is_some, option_map};
ghost use Rattle.br_model.specs.Table.Limits.{most_addresses};
ghost use Rattle.br_model.specs.Data.Maps.{pair_cmp, get, put, without};
ghost use Rattle.fdb_core.specs.Fdb.{place};
ghost use Rattle.bridge_state.specs.Entries.{keys_at, old_keys, is_due, is_renewed_by, exact_bound, last_moment};

use br_model::NoMemory;
use br_model::change::Kind;
use br_model::limits::MOST_ADDRESSES;
use br_model::numbers::{Mac, Port, Vid};
use fdb_core::{Entry, Fdb, Keys};
use std::alloc::Global;
use std::marker::Model;

/// What contracts see as the entries by VLAN and address, and beside them their moments in milliseconds.
#[derive(Drop)]
pub struct Addresses {
    fdb: Fdb,
    // No learned entry has an earlier moment.
    oldest: u64,
}

impl Model for Addresses {
    ghost use Rattle.fdb_core.specs.Fdb.{addresses, moments};
    ghost use Rattle.bridge_state.specs.Entries.{Entries, IsKept};

    ghost Value = { Entries };

    ghost view = { λ a. record { addr = addresses a.fdb.entries; updated = moments a.fdb.entries; oldest = a.oldest } };

    ghost invariant = { λ a. IsKept a.fdb a.oldest };
}

/// The port and the kind of an entry.
#[inline(always)]
fn place_of(entry: Option<Entry>) -> Option<(Port, Kind)>
    ensures { result ≡ option_map place entry }
{
    match entry {
        Some(entry) => Some((entry.port, entry.kind)),
        None => None,
    }
}

impl Addresses {
    /// Takes the memory for all that there can be.
    pub fn make(alloc: Global) -> Result<Addresses, NoMemory>
        ensures { IfOk result (λ a. a ≡ record { addr = []; updated = []; oldest = last_moment }) }
    {
        Ok(Addresses {
            fdb: Fdb::make(alloc, MOST_ADDRESSES)?,
            oldest: u64::MAX,
        })
    }

    /// The port and the kind of the entry at the address.
    pub fn find(&self, vid: Vid, mac: Mac) -> Option<(Port, Kind)>
        ensures { result ≡ get pair_cmp self.now.addr (vid, mac) }
    {
        place_of(self.fdb.find(vid, mac))
    }

    /// The entry at the address with its moment.
    pub fn entry(&self, vid: Vid, mac: Mac) -> Option<Entry>
        ensures place { option_map place result ≡ get pair_cmp self.now.addr (vid, mac) }
        ensures moment { option_map (λ e. e.updated) result ≡ get pair_cmp self.now.updated (vid, mac) }
    {
        self.fdb.find(vid, mac)
    }

    /// Whether there is no room for a new address.
    pub fn is_full(&self) -> bool
        ensures { result ≡ not (nat_lt (length self.now.addr) most_addresses) }
    {
        self.fdb.len() >= MOST_ADDRESSES
    }

    /// Puts an entry at the address at the moment `now`, in place of the one that is there.
    pub fn put(&mut self, vid: Vid, mac: Mac, port: Port, kind: Kind, now: u64)
        requires { IsTrue (is_some (get pair_cmp self.old.addr (vid, mac)) || nat_lt (length self.old.addr) most_addresses) }
        ensures { self.new
            ≡ record {
              addr = put pair_cmp self.old.addr (vid, mac) (port, kind);
              updated = put pair_cmp self.old.updated (vid, mac) now;
              oldest = min self.old.oldest now;
            } }
    {
        self.oldest = self.oldest.min(now);
        let entry = Entry {
            port,
            kind,
            updated: now,
        };
        self.fdb.put(vid, mac, entry);
    }

    /// Forgets the entry at the address.
    pub fn take(&mut self, vid: Vid, mac: Mac)
        ensures { self.new
            ≡ record { addr = without pair_cmp self.old.addr (vid, mac); updated = without pair_cmp self.old.updated (vid, mac); oldest = self.old.oldest } }
    {
        self.fdb.take(vid, mac);
    }

    /// Gives the entry at the address the moment `now`.
    pub fn renew(&mut self, vid: Vid, mac: Mac, now: u64)
        requires { IsSome (get pair_cmp self.old.addr (vid, mac)) }
        ensures { self.new ≡ record self.old { updated = put pair_cmp self.old.updated (vid, mac) now; oldest = min self.old.oldest now } }
    {
        self.oldest = self.oldest.min(now);
        self.fdb.renew(vid, mac, now);
    }

    /// Gives the entry at the address the moment `now`, if it is of a kind that frames renew, and at the port. It answers the
    /// port and the kind that the entry has.
    #[inline(always)]
    pub fn renew_at(&mut self, vid: Vid, mac: Mac, port: Port, now: u64) -> Option<(Port, Kind)>
        ensures place { result ≡ get pair_cmp self.old.addr (vid, mac) }
        ensures entries { self.new
            ≡ record self.old {
              updated = if is_renewed_by port result then put pair_cmp self.old.updated (vid, mac) now else self.old.updated;
              oldest = min self.old.oldest now;
            } }
    {
        self.oldest = self.oldest.min(now);
        place_of(self.fdb.renew_at(vid, mac, port, now))
    }

    /// The addresses at the port, by VLAN and address. Where there is none it looks at no entry, and else at each.
    pub fn of_port(&self, alloc: Global, port: Port) -> Result<Keys, NoMemory>
        ensures { IfOk result (λ keys. keys ≡ keys_at port self.now.addr) }
    {
        self.fdb.entries_of_port(alloc, port)
    }

    /// Whether a learned entry may be over at `now`, where it stays for `hold`. It looks at none.
    pub fn may_expire(&self, now: u64, hold: u64) -> bool
        ensures exact { result ≡ is_due now hold self.now }
        ensures none { result ≡ false → old_keys now hold self.now ≡ [] }
    {
        match self.oldest.checked_add(hold) {
            Some(end) => end <= now,
            None => false,
        }
    }

    /// The learned addresses that are over at `now`, by VLAN and address. It looks at those alone, and at what they were before.
    pub fn expired(&self, alloc: Global, now: u64, hold: u64) -> Result<Keys, NoMemory>
        ensures { IfOk result (λ keys. keys ≡ old_keys now hold self.now) }
    {
        self.fdb.expired(alloc, now, hold)
    }

    /// Finds the first moment anew, so that `may_expire` is exact. It looks at no entry.
    pub fn settle(&mut self)
        ensures { self.new ≡ record self.old { oldest = exact_bound self.old } }
    {
        self.oldest = self.fdb.oldest().unwrap_or(u64::MAX);
    }
}
