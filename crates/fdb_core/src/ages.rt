//! When learned entries were seen, in the order of time.
//!
//! An entry that is seen again or taken out leaves its place behind. Such a place goes once it is the first, or once there
//! is no more room, so that each is looked at once or twice.
ghost use Rattle.std.specs.Prelude.{◌≡◌, ℕ, ◌+◌, [], IfOk, IsTrue, List, nat_le, true};
ghost use Rattle.std.specs.Ordering.{nat_cmp};
ghost use Rattle.std.specs.FinMap.Entries.{find, put};
ghost use Rattle.fdb_core.specs.declared.entries.Entry.{Entry};
ghost use Rattle.fdb_core.specs.Packing.{is_key};
ghost use Rattle.fdb_core.specs.Places.{is_current, is_settled, first_moment, news_of, over, IsTold};

use crate::NoMemory;
use crate::entries::Entry;
use open_addressing::map::Numbered;
use std::alloc::Global;
use std::collections::VecDeque;
use std::marker::Model;

/// A moment in milliseconds, and the number of the key that was seen then.
#[derive(Clone, Copy)]
pub struct Place {
    moment: u64,
    key: u64,
}

impl Model for Place {
    ghost use Rattle.std.specs.Prelude.{ℕ, IsTrue};
    ghost use Rattle.fdb_core.specs.Packing.{is_key};

    ghost Value = { ℕ × ℕ };

    ghost view = { λ p. (p.moment, p.key) };

    ghost invariant = { λ p. IsTrue (is_key p.key) };

    ghost inverse = { λ p. record { moment = p.0; key = p.1 } };
}

impl Place {
    pub fn new(moment: u64, key: u64) -> Place
        requires { IsTrue (is_key key) }
        ensures { result ≡ (moment, key) }
    {
        Place { moment, key }
    }

    /// Whether the entry at the key was learned at the moment.
    fn is_current(&self, entries: &Numbered<Entry>) -> bool
        ensures { result ≡ is_current entries.now.entries self.now }
    {
        match entries.get(&self.key) {
            Some(entry) => entry.is_learned_at(self.moment),
            None => false,
        }
    }

    /// Whether what was seen then and not since is over at the moment `now`.
    fn is_over(&self, now: u64, hold: u64) -> bool
        ensures { result ≡ nat_le (self.now.0 + hold) now }
    {
        match self.moment.checked_add(hold) {
            Some(end) => end <= now,
            None => false,
        }
    }
}

/// The places of learned entries. Contracts see its fields.
#[derive(Drop)]
pub struct Ages {
    places: VecDeque<Place>,
    // No place is later.
    latest: u64,
    // Whether each learned entry has its place. It ends where one comes earlier than the latest.
    complete: bool,
}

impl Ages {
    /// Takes the memory for twice as many places as entries.
    pub fn make(alloc: Global, room: usize) -> Result<Ages, NoMemory>
        ensures { IfOk result (λ a. a.places.items ≡ []) }
    {
        let places = VecDeque::with_capacity(alloc, room.saturating_mul(2))?;
        Ok(Ages {
            places,
            latest: 0,
            complete: true,
        })
    }

    /// Notes an entry at the key, and when it was learned where that is news.
    pub fn note(&mut self, news: Option<u64>, key: u64)
        requires { IsTrue (is_key key) }
        ensures { (es : List (ℕ × Entry)) (x : Entry) → news ≡ news_of (find nat_cmp key es) x
            → IsTold self.old.complete self.old.latest self.old.places.items es
            → IsTold self.new.complete self.new.latest self.new.places.items (put nat_cmp key x es) }
    {
        let Some(moment) = news else {
            return;
        };
        if moment < self.latest || self.places.len() >= self.places.capacity() {
            self.complete = false;
            return;
        }
        self.latest = moment;
        self.places.push_back_reserved(Place::new(moment, key));
    }

    /// Whether each learned entry has its place.
    pub fn is_complete(&self) -> bool
        ensures { result ≡ self.now.complete }
    {
        self.complete
    }

    /// The moment of the first place.
    pub fn first(&self) -> Option<u64>
        ensures { result ≡ first_moment self.now.places.items }
    {
        let place = self.places.front()?;
        Some(place.moment)
    }

    /// The numbers of the keys that are over at the moment `now`, in the order of time. A number may be there twice.
    pub fn over(
        &self,
        alloc: Global,
        entries: &Numbered<Entry>,
        now: u64,
        hold: u64,
    ) -> Result<Vec<u64>, NoMemory>
        ensures { IfOk result (λ v. v.items ≡ over entries.now.entries now hold self.now.places.items) }
    {
        let mut numbers = Vec::new(alloc);
        for i in 0..self.places.len() {
            let place = self.places[i];
            if !place.is_over(now, hold) {
                break;
            }
            if place.is_current(entries) {
                numbers.push(place.key)?;
            }
        }
        Ok(numbers)
    }
}

/// Drops the places that are no longer so, where there is no more room.
pub fn make_room(ages: &mut Ages, entries: &Numbered<Entry>)
    ensures { IsTold ages.old.complete ages.old.latest ages.old.places.items entries.now.entries
        → IsTold ages.new.complete ages.new.latest ages.new.places.items entries.now.entries }
{
    if ages.places.len() >= ages.places.capacity() {
        ages.places.retain(|place| place.is_current(entries));
    }
}

/// Drops the first places up to one that is so still.
pub fn settle(ages: &mut Ages, entries: &Numbered<Entry>)
    ensures settled { is_settled entries.now.entries ages.new.places.items ≡ true }
    ensures told { IsTold ages.old.complete ages.old.latest ages.old.places.items entries.now.entries
        → IsTold ages.new.complete ages.new.latest ages.new.places.items entries.now.entries }
{
    while let Some(place) = ages.places.front().copied() {
        if place.is_current(entries) {
            return;
        }
        ages.places.pop_front();
    }
}
