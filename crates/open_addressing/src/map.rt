//! A finite map from keys to values, over cells.
ghost use Rattle.std.specs.Prelude.{◌≡◌, ◌≢◌, ℕ, ◌<◌, ◌≤◌, ◌↔◌, Bool, not, [], Option, IfOk, IfSome, IsTrue, None, Some, length, IsPermutation, IsSorted, replicate};
ghost use Rattle.std.specs.Ordering.{nat_cmp, eq_by_cmp};
ghost use Rattle.std.specs.FinMap.Entries.{find, put, where_key, is_sorted};
ghost use Rattle.open_addressing.specs.Finite.{keys_where, entries_of, Holds};
ghost use Rattle.open_addressing.specs.Hashed.{key_in};
ghost use Rattle.open_addressing.specs.Least.{least};
ghost use Rattle.open_addressing.specs.Lookups.{IsApart};
ghost use Rattle.open_addressing.specs.Zipped.{key_of};

use crate::Cells;
use crate::dense::Pairs;
use crate::index::Index;
use crate::spare::Spare;
use std::alloc::{AllocError, Global};
use std::marker::{Model, PhantomData};

/// A test of values.
pub trait Test<V> {
    ghost passes: { Self → V → Bool };

    fn passes(&self, value: &V) -> bool
        ensures { result ≡ passes self.now value.now };
}

/// A number of each value, or none.
pub trait Measure<V> {
    ghost number: { Self → V → Option ℕ };

    fn of(&self, value: &V) -> Option<u64>
        ensures { result ≡ number self.now value.now };
}

/// Values by keys, with room from its making.
///
/// Contracts see the list of the entries, ascending by the numbers of their keys.
#[derive(Drop)]
pub struct Map<K, V, C: Cells<K, V>> {
    cells: C,
    index: Index,
    spare: Spare,
    used: usize,
    room: usize,
    of: PhantomData<(K, V)>,
}

impl<K, V, C: Cells<K, V>> Model for Map<K, V, C> {
    ghost use Rattle.std.specs.Prelude.{◌≤◌, vec_capacity};
    ghost use Rattle.open_addressing.specs.Finite.{Table, IsSound, entries_of};

    ghost Value = { Table V };

    ghost view = { λ m. record { entries = entries_of (C.cells m.cells); room = m.room; cells = C.cells m.cells } };

    ghost invariant = { λ m. IsSound C.hash m.index.bits m.index.slots m.index.rest.items m.spare.fresh m.spare.free.items m.used m.room (C.cells m.cells)
        × (m.room ≤ vec_capacity m.index.rest) × (m.room ≤ vec_capacity m.spare.free) };
}

/// Sorts keys.
fn sort(keys: &mut Vec<u64>)
    ensures permutation { IsPermutation keys.old.items keys.new.items }
    ensures sorted { IsSorted nat_cmp keys.new.items }
{
    keys.sort_unstable();
}

/// Values by numbers.
pub type Numbered<V> = Map<u64, V, Pairs<V>>;

impl<K, V, C: Cells<K, V>> Map<K, V, C> {
    /// The map of so many cells that hold nothing, with room for so many keys, at most 65,534: more get no memory.
    pub fn of(
        alloc: Global,
        cells: C,
        count: usize,
        room: usize,
    ) -> Result<Map<K, V, C>, AllocError>
    where
        C: Drop,
        requires room { room ≤ count }
        requires empty { C.cells cells ≡ replicate count None }
        ensures { IfOk result (λ m. m ≡ record { entries = []; room = room; cells = C.cells cells }) }
    {
        let index = Index::make(alloc, room)?;
        let spare = Spare::make(alloc, room)?;
        Ok(Map {
            cells,
            index,
            spare,
            used: 0,
            room,
            of: PhantomData,
        })
    }

    pub fn len(&self) -> usize
        ensures value { result ≡ length self.now.entries }
        ensures within { result ≤ self.now.room }
        ensures ascending { IsTrue (is_sorted nat_cmp self.now.entries) }
    {
        self.used
    }

    pub fn is_empty(&self) -> bool
        ensures { IsTrue result ↔ (length self.now.entries ≡ 0) }
    {
        self.len() == 0
    }

    /// Whether there is no room for a new key.
    pub fn is_full(&self) -> bool
        ensures { IsTrue result ↔ (self.now.room ≤ length self.now.entries) }
    {
        self.len() >= self.room
    }

    /// The cells, in which no key stands twice.
    pub fn cells(&self) -> &C
        ensures cells { C.cells result.now ≡ self.now.cells }
        ensures entries { entries_of self.now.cells ≡ self.now.entries }
        ensures apart { IsApart key_of self.now.cells }
    {
        &self.cells
    }

    /// The cell that holds the key, until the map changes.
    #[inline(always)]
    pub fn cell_of(&self, key: &K) -> Option<usize>
        requires { C.number key.now ≢ 0 }
        ensures found { IfSome result (λ i. Holds self.now.cells i (C.number key.now)) }
        ensures absent { result ≡ None → find nat_cmp (C.number key.now) self.now.entries ≡ None }
        ensures none { result ≡ None → (i : ℕ) → key_in key_of None self.now.cells i ≢ C.number key.now }
    {
        self.index.find(&self.cells, key)
    }

    /// The value in a cell that holds a key.
    #[inline(always)]
    pub fn value_in(&self, i: usize) -> V
        requires within { i < length self.now.cells }
        requires used { key_in key_of None self.now.cells i ≢ 0 }
        ensures { find nat_cmp (key_in key_of None self.now.cells i) self.now.entries ≡ Some result }
    {
        self.cells.value(i)
    }

    /// Puts a value at the key, which the cell holds, in place of the one that is there.
    #[inline(always)]
    pub fn put_in(&mut self, i: usize, key: &K, value: V)
        requires key { C.number key.now ≢ 0 }
        requires holds { Holds self.old.cells i (C.number key.now) }
        ensures { self.new ≡ record self.old { entries = put nat_cmp (C.number key.now) value self.old.entries; cells = self.new.cells } }
    {
        self.cells.put(i, key, value);
    }

    /// The value at the key.
    pub fn get(&self, key: &K) -> Option<V>
        requires { C.number key.now ≢ 0 }
        ensures { result ≡ find nat_cmp (C.number key.now) self.now.entries }
    {
        let i = self.cell_of(key)?;
        Some(self.value_in(i))
    }

    /// Puts a value at the key, in place of the one that is there, which it answers.
    pub fn insert(&mut self, key: &K, value: V) -> Option<V>
        requires key { C.number key.now ≢ 0 }
        requires room { find nat_cmp (C.number key.now) self.old.entries ≡ None → length self.old.entries < self.old.room }
        ensures old { result ≡ find nat_cmp (C.number key.now) self.old.entries }
        ensures entries { self.new ≡ record self.old { entries = put nat_cmp (C.number key.now) value self.old.entries; cells = self.new.cells } }
    {
        match self.cell_of(key) {
            Some(i) => {
                let old = self.value_in(i);
                self.put_in(i, key, value);
                Some(old)
            }
            None => {
                self.add(key, value);
                None
            }
        }
    }

    /// Puts a value at a new key.
    fn add(&mut self, key: &K, value: V)
        requires key { C.number key.now ≢ 0 }
        requires none { (i : ℕ) → key_in key_of None self.old.cells i ≢ C.number key.now }
        requires room { length self.old.entries < self.old.room }
        ensures { self.new ≡ record self.old { entries = put nat_cmp (C.number key.now) value self.old.entries; cells = self.new.cells } }
    {
        let i = self.spare.take();
        self.index.enter(&self.cells, key, i);
        self.cells.put(i, key, value);
        self.used += 1;
    }

    /// Takes the value at the key out.
    pub fn take(&mut self, key: &K) -> Option<V>
        requires { C.number key.now ≢ 0 }
        ensures value { result ≡ find nat_cmp (C.number key.now) self.old.entries }
        ensures rest { self.new
            ≡ record self.old { entries = where_key nat_cmp (λ q. not (eq_by_cmp nat_cmp (C.number key.now) q)) self.old.entries; cells = self.new.cells } }
    {
        let i = self.index.find(&self.cells, key)?;
        let value = self.cells.value(i);
        self.index.leave(&self.cells, key, i);
        self.cells.clear(i);
        self.spare.give(i);
        self.used -= 1;
        Some(value)
    }
}

impl<V: Copy> Map<u64, V, Pairs<V>> {
    /// An empty map with room for so many keys, at most 65,534: more get no memory. The value `blank` is never read.
    pub fn make(alloc: Global, room: usize, blank: V) -> Result<Map<u64, V, Pairs<V>>, AllocError>
        ensures { IfOk result (λ m. m ≡ record m { entries = []; room = room }) }
    {
        let pairs = Pairs::make(alloc, room, blank)?;
        Map::of(alloc, pairs, room, room)
    }

    /// The keys whose values pass the test, ascending.
    pub fn keys_where<T: Test<V>>(&self, alloc: Global, test: &T) -> Result<Vec<u64>, AllocError>
        ensures { IfOk result (λ v. v.items ≡ keys_where (T.passes test.now) self.now.entries) }
    {
        let mut keys = self.cells.keys_where(alloc, test)?;
        sort(&mut keys);
        Ok(keys)
    }

    /// The least number that a value measures.
    pub fn least<M: Measure<V>>(&self, measure: &M) -> Option<u64>
        ensures { result ≡ least (M.number measure.now) self.now.entries }
    {
        self.cells.least(measure)
    }
}
