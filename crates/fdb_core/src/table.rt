//! The forwarding database.
ghost use Rattle.std.specs.Prelude.{◌≡◌, ◌≢◌, ℕ, ◌<◌, ◌≤◌, ◌↔◌, [], None, Some, true, if◌then◌else◌, IfOk, IsSome, IsTrue, length, map, option_map};
ghost use Rattle.std.specs.Ordering.{nat_cmp};
ghost use Rattle.std.specs.FinMap.Entries.{find as find_number, put as put_number};
ghost use Rattle.br_model.specs.Data.Maps.{pair_cmp, get, put, without, is_ascending};
ghost use Rattle.fdb_core.specs.Fdb.{addresses, moments, place, keys_where, is_at_port, is_dynamic_at, is_expired, is_one, learned_moment, oldest, all_from, renewed_if};
ghost use Rattle.fdb_core.specs.Places.{news_of, is_settled, IsTold};
ghost use Rattle.fdb_core.specs.declared.entries.Entry.{Entry};
ghost use Rattle.fdb_core.specs.Packing.{is_key};
ghost use Rattle.open_addressing.specs.Finite.{Holds};
ghost use Rattle.open_addressing.specs.Pairs.{unpacked};
ghost use Rattle.std.specs.List.{list_all};

use crate::NoMemory;
use crate::ages::{Ages, make_room, settle};
use crate::entries::Entry;
use crate::key_list::Keys;
use crate::packing::{pack, unpack_all};
use crate::port_counts::PortCounts;
use br_model::change::Kind;
use br_model::numbers::{Mac, Port, Vid};
use open_addressing::map::{Measure, Numbered, Test};
use std::alloc::Global;
use std::marker::Model;

/// The entries by VLAN and address, in a hash map.
#[derive(Drop)]
pub struct Fdb {
    entries: Numbered<Entry>,
    // How many of them each port has.
    ports: PortCounts,
    // When the learned ones of them were.
    ages: Ages,
}

impl Model for Fdb {
    ghost use Rattle.fdb_core.specs.Fdb.{Table};
    ghost use Rattle.fdb_core.specs.Packing.{by_address};
    ghost use Rattle.fdb_core.specs.Kept.{AreKept};

    ghost Value = { Table };

    ghost view = { λ f. record { entries = by_address f.entries.entries; room = f.entries.room } };

    ghost invariant = { λ f. AreKept f.entries.entries f.ports.counts f.ages.complete f.ages.latest f.ages.places.items };
}

/// What no key has.
const BLANK: Entry = Entry {
    port: Port::HOST,
    kind: Kind::Local,
    updated: 0,
};

#[derive(Drop)]
struct AtPort {
    port: Port,
}

impl Test<Entry> for AtPort {
    ghost passes = { λ t. is_at_port t.port };

    fn passes(&self, entry: &Entry) -> bool {
        entry.is_at(self.port)
    }
}

/// Every entry passes.
#[derive(Drop)]
struct Every;

impl Test<Entry> for Every {
    ghost passes = { λ _ _. true };

    fn passes(&self, _entry: &Entry) -> bool {
        true
    }
}

#[derive(Drop)]
struct DynamicAt {
    port: Port,
}

impl Test<Entry> for DynamicAt {
    ghost passes = { λ t. is_dynamic_at t.port };

    fn passes(&self, entry: &Entry) -> bool {
        entry.is_dynamic_at(self.port)
    }
}

#[derive(Drop)]
struct Expired {
    now: u64,
    hold: u64,
}

impl Test<Entry> for Expired {
    ghost passes = { λ t. is_expired t.now t.hold };

    fn passes(&self, entry: &Entry) -> bool {
        entry.has_expired(self.now, self.hold)
    }
}

#[derive(Drop)]
struct LearnedMoment;

impl Measure<Entry> for LearnedMoment {
    ghost number = { λ _ entry. learned_moment entry };

    fn of(&self, entry: &Entry) -> Option<u64> {
        entry.learned_moment()
    }
}

/// The moment of a learned entry, where the one that was there before wasn't learned then too.
fn news(old: Option<Entry>, entry: Entry) -> Option<u64>
    ensures { result ≡ news_of old entry }
{
    let moment = entry.learned_moment()?;
    match old {
        Some(old) if old.is_learned_at(moment) => None,
        Some(_) | None => Some(moment),
    }
}

/// The same where this entry was there before.
fn news_over(old: &Entry, entry: &Entry) -> Option<u64>
    ensures { result ≡ news_of (Some old.now) entry.now }
{
    news(Some(*old), *entry)
}

/// Puts an entry at the key, which the cell holds, and notes when it was learned where that is news.
fn put_in(
    entries: &mut Numbered<Entry>,
    ages: &mut Ages,
    i: usize,
    key: u64,
    entry: Entry,
    news: Option<u64>,
)
    requires some { key ≢ 0 }
    requires is_key { IsTrue (is_key key) }
    requires holds { Holds entries.old.cells i key }
    requires news { news ≡ news_of (find_number nat_cmp key entries.old.entries) entry }
    ensures entries { entries.new ≡ record entries.old { entries = put_number nat_cmp key entry entries.old.entries; cells = entries.new.cells } }
    ensures told { IsTold ages.old.complete ages.old.latest ages.old.places.items entries.old.entries
        → IsTold ages.new.complete ages.new.latest ages.new.places.items entries.new.entries }
    ensures settled { is_settled entries.new.entries ages.new.places.items ≡ true }
{
    make_room(ages, entries);
    entries.put_in(i, &key, entry);
    ages.note(news, key);
    settle(ages, entries);
}

impl Fdb {
    /// Makes a database with room for `cap` entries.
    pub fn make(alloc: Global, cap: usize) -> Result<Fdb, NoMemory>
        ensures { IfOk result (λ f. f ≡ record { entries = []; room = cap }) }
    {
        Ok(Fdb {
            entries: Numbered::make(alloc, cap, BLANK)?,
            ports: PortCounts::none(),
            ages: Ages::make(alloc, cap)?,
        })
    }

    pub fn len(&self) -> usize
        ensures value { result ≡ length self.now.entries }
        ensures within { result ≤ self.now.room }
        ensures ascending { IsTrue (is_ascending pair_cmp self.now.entries) }
    {
        self.entries.len()
    }

    pub fn is_empty(&self) -> bool
        ensures { IsTrue result ↔ (length self.now.entries ≡ 0) }
    {
        self.len() == 0
    }

    /// Whether there is no room for an entry at a new address.
    pub fn is_full(&self) -> bool
        ensures { IsTrue result ↔ (self.now.room ≤ length self.now.entries) }
    {
        self.entries.is_full()
    }

    pub fn find(&self, vid: Vid, mac: Mac) -> Option<Entry>
        ensures entry { result ≡ get pair_cmp self.now.entries (vid, mac) }
        ensures address { get pair_cmp (addresses self.now.entries) (vid, mac) ≡ option_map place result }
    {
        self.entries.get(&pack(vid, mac))
    }

    /// Puts an entry at the address, in place of the one that is there.
    pub fn put(&mut self, vid: Vid, mac: Mac, entry: Entry)
        requires { get pair_cmp self.old.entries (vid, mac) ≡ None → length self.old.entries < self.old.room }
        ensures entries { self.new ≡ record self.old { entries = put pair_cmp self.old.entries (vid, mac) entry } }
        ensures addresses { addresses self.new.entries ≡ put pair_cmp (addresses self.old.entries) (vid, mac) (place entry) }
        ensures moments { moments self.new.entries ≡ put pair_cmp (moments self.old.entries) (vid, mac) entry.updated }
    {
        let key = pack(vid, mac);
        make_room(&mut self.ages, &self.entries);
        let old = self.entries.insert(&key, entry);
        let len = self.entries.len();
        self.ports.remove(&old);
        self.ports.add(&entry, len);
        self.ages.note(news(old, entry), key);
        settle(&mut self.ages, &self.entries);
    }

    /// Gives the entry at the address this moment.
    pub fn renew(&mut self, vid: Vid, mac: Mac, moment: u64)
        requires { IsSome (get pair_cmp self.old.entries (vid, mac)) }
        ensures entries { (e : Entry) → get pair_cmp self.old.entries (vid, mac) ≡ Some e
            → self.new ≡ record self.old { entries = put pair_cmp self.old.entries (vid, mac) (record e { updated = moment }) } }
        ensures addresses { addresses self.new.entries ≡ addresses self.old.entries }
        ensures moments { moments self.new.entries ≡ put pair_cmp (moments self.old.entries) (vid, mac) moment }
        ensures room { self.new.room ≡ self.old.room }
    {
        // law: the entries ascend
        let _len = self.len();
        let _ = self.renew_where(vid, mac, moment, &Every);
    }

    /// Gives the entry at the address this moment, if it is of a kind that frames renew, and at the port. It answers the
    /// one that was there.
    #[inline(always)]
    pub fn renew_at(&mut self, vid: Vid, mac: Mac, port: Port, moment: u64) -> Option<Entry>
        ensures entry { result ≡ get pair_cmp self.old.entries (vid, mac) }
        ensures address { get pair_cmp (addresses self.old.entries) (vid, mac) ≡ option_map place result }
        ensures entries { self.new ≡ record self.old { entries = renewed_if (is_dynamic_at port) moment (vid, mac) result self.old.entries } }
        ensures addresses { addresses self.new.entries ≡ addresses self.old.entries }
        ensures moments { moments self.new.entries
            ≡ (if is_one (is_dynamic_at port) result then put pair_cmp (moments self.old.entries) (vid, mac) moment else moments self.old.entries) }
    {
        // law: the entries ascend
        let _len = self.len();
        self.renew_where(vid, mac, moment, &DynamicAt { port })
    }

    /// Gives the entry at the address this moment, if it passes the test, and answers the one that was there.
    #[inline(always)]
    fn renew_where<T: Test<Entry>>(
        &mut self,
        vid: Vid,
        mac: Mac,
        moment: u64,
        test: &T,
    ) -> Option<Entry>
        ensures entry { result ≡ get pair_cmp self.old.entries (vid, mac) }
        ensures entries { self.new ≡ record self.old { entries = renewed_if (T.passes test.now) moment (vid, mac) result self.old.entries } }
    {
        let key = pack(vid, mac);
        let i = self.entries.cell_of(&key)?;
        let old = self.entries.value_in(i);
        if old.updated == moment {
            return Some(old);
        }
        if !test.passes(&old) {
            return Some(old);
        }
        let entry = old.renewed(moment);
        let news = news_over(&old, &entry);
        put_in(&mut self.entries, &mut self.ages, i, key, entry, news);
        Some(old)
    }

    /// Takes the entry at the address out.
    pub fn take(&mut self, vid: Vid, mac: Mac) -> Option<Entry>
        ensures entry { result ≡ get pair_cmp self.old.entries (vid, mac) }
        ensures rest { self.new ≡ record self.old { entries = without pair_cmp self.old.entries (vid, mac) } }
        ensures addresses { addresses self.new.entries ≡ without pair_cmp (addresses self.old.entries) (vid, mac) }
        ensures moments { moments self.new.entries ≡ without pair_cmp (moments self.old.entries) (vid, mac) }
    {
        let taken = self.entries.take(&pack(vid, mac));
        self.ports.remove(&taken);
        settle(&mut self.ages, &self.entries);
        taken
    }

    /// The keys of the entries at the port.
    pub fn entries_of_port(&self, alloc: Global, port: Port) -> Result<Keys, NoMemory>
        ensures { IfOk result (λ keys. keys ≡ keys_where (is_at_port port) self.now.entries) }
    {
        let numbers = self.numbers_at(alloc, port)?;
        let keys = unpack_all(alloc, &numbers)?;
        Ok(Keys::of(keys))
    }

    /// The numbers of those keys, ascending.
    fn numbers_at(&self, alloc: Global, port: Port) -> Result<Vec<u64>, NoMemory>
        ensures keys { IfOk result (λ v. IsTrue (list_all is_key v.items)) }
        ensures value { IfOk result (λ v. map unpacked v.items ≡ keys_where (is_at_port port) self.now.entries) }
    {
        if self.ports.of(port) == 0 {
            let none = Vec::new(alloc);
            return Ok(none);
        }
        let all = self.entries.keys_where(alloc, &AtPort { port })?;
        Ok(all)
    }

    /// The keys of the learned entries whose time is over at the moment `now`: the moment of each and `hold`, for how long
    /// an entry stays that isn't seen again, come to no more than that. All are in milliseconds. It looks at places of age
    /// that are over, of which there are no more than there were changes.
    pub fn expired(&self, alloc: Global, now: u64, hold: u64) -> Result<Keys, NoMemory>
        ensures { IfOk result (λ keys. keys ≡ keys_where (is_expired now hold) self.now.entries) }
    {
        let numbers = self.numbers_over(alloc, now, hold)?;
        let keys = unpack_all(alloc, &numbers)?;
        Ok(Keys::of(keys))
    }

    /// The numbers of those keys, ascending.
    fn numbers_over(&self, alloc: Global, now: u64, hold: u64) -> Result<Vec<u64>, NoMemory>
        ensures keys { IfOk result (λ v. IsTrue (list_all is_key v.items)) }
        ensures value { IfOk result (λ v. map unpacked v.items ≡ keys_where (is_expired now hold) self.now.entries) }
    {
        if self.ages.is_complete() {
            let mut numbers = self.ages.over(alloc, &self.entries, now, hold)?;
            numbers.sort_unstable();
            numbers.dedup();
            return Ok(numbers);
        }
        let all = self.entries.keys_where(alloc, &Expired { now, hold })?;
        Ok(all)
    }

    /// The least moment of a learned entry.
    pub fn oldest(&self) -> Option<u64>
        ensures value { result ≡ oldest self.now.entries }
        ensures first { (moment : ℕ) → ((m : ℕ) → result ≡ Some m → moment ≤ m) → IsTrue (all_from moment self.now.entries) }
    {
        if self.ages.is_complete() {
            return self.ages.first();
        }
        self.entries.least(&LearnedMoment)
    }
}
