//! Where the keys of cells stand.
ghost use Rattle.std.specs.Prelude.{◌≡◌, ◌≢◌, ℕ, ◌+◌, ◌-◌, ◌/◌, ◌^◌, ◌<◌, ◌≤◌, true, Option, None, IfOk, IfSome, length, slice_index, slice_set, vec_capacity};
ghost use Rattle.std.specs.List.{insert};
ghost use Rattle.open_addressing.specs.Hashed.{key_in};
ghost use Rattle.open_addressing.specs.Indexed.{is_taken, named_by, Ascends, Halves, IsBlank, IsIndexed};
ghost use Rattle.open_addressing.specs.Zipped.{key_of};

use crate::Cells;
use crate::slots::Slots;
use std::alloc::{AllocError, Global};

/// What is in a slot whose key was never there.
const NEVER: u16 = 0;

/// What is in a slot whose key left.
const LEFT: u16 = 65535;

/// A slot for each hash, with the number of a cell and 1 more, and the cells whose keys found their slot taken.
#[derive(Drop)]
pub struct Index {
    // There are 2 to this power of slots.
    bits: u32,
    slots: Slots,
    // In the order of their keys. It has its room from the beginning.
    rest: Vec<u16>,
}

/// The power of two of slots for so many keys: more than three times as many slots, and at most six times as many and two.
fn bits_for(room: usize) -> Option<u32>
    ensures some { IfSome result (λ bits. 0 < bits) }
    ensures few { IfSome result (λ bits. bits < 64) }
    ensures small { IfSome result (λ bits. room < 65535) }
{
    if room >= 65535 {
        return None;
    }
    let bits = (3 * room + 1).ilog2() + 1;
    if bits < 64 { Some(bits) } else { None }
}

/// The slot of a hash.
fn home(bits: u32, hash: u64) -> usize
    requires some { 0 < bits }
    requires few { bits < 64 }
    ensures value { result ≡ hash / 2 ^ (64 - bits) }
    ensures within { result < 2 ^ bits }
{
    (hash >> (64 - bits)) as usize
}

/// Whether a slot names a cell.
fn is_taken(slot: u16) -> bool
    ensures { result ≡ is_taken slot }
{
    slot != NEVER && slot != LEFT
}

/// The cell, if it holds the key.
fn held<K, V, C: Cells<K, V>>(cells: &C, cell: usize, key: &K) -> Option<usize>
    requires key { C.number key.now ≢ 0 }
    requires within { cell < length (C.cells cells.now) }
    ensures some { IfSome result (λ i. (i < length (C.cells cells.now)) × (key_in key_of None (C.cells cells.now) i ≡ C.number key.now)) }
    ensures none { result ≡ None → key_in key_of None (C.cells cells.now) cell ≢ C.number key.now }
{
    if cells.holds(cell, key) {
        Some(cell)
    } else {
        None
    }
}

/// The cell that a slot names, if it holds the key.
fn named<K, V, C: Cells<K, V>>(cells: &C, slot: u16, key: &K) -> Option<usize>
    requires key { C.number key.now ≢ 0 }
    requires within { is_taken slot ≡ true → slot - 1 < length (C.cells cells.now) }
    ensures some { IfSome result (λ i. (i < length (C.cells cells.now)) × (key_in key_of None (C.cells cells.now) i ≡ C.number key.now)) }
    ensures none { result ≡ None → is_taken slot ≡ true → key_in key_of None (C.cells cells.now) (slot - 1) ≢ C.number key.now }
{
    if is_taken(slot) {
        held(cells, usize::from(slot) - 1, key)
    } else {
        None
    }
}

/// How many of the listed cells have a key below this one. They are the first ones.
fn rank<K, V, C: Cells<K, V>>(cells: &C, rest: &[u16], key: &K) -> usize
    requires key { C.number key.now ≢ 0 }
    requires within { (j : ℕ) → j < length rest.now → slice_index rest.now j < length (C.cells cells.now) }
    requires ascending { Ascends (key_in key_of None (C.cells cells.now)) rest.now }
    ensures { Halves (key_in key_of None (C.cells cells.now)) rest.now (C.number key.now) result result }
{
    let mut low = 0;
    let mut high = rest.len();
    while low < high {
        let middle = low + (high - low) / 2;
        if cells.is_below(usize::from(rest[middle]), key) {
            low = middle + 1;
        } else {
            high = middle;
        }
    }
    low
}

/// Where the cell of the key stands in the list.
fn listed<K, V, C: Cells<K, V>>(cells: &C, rest: &[u16], key: &K) -> Option<usize>
    requires key { C.number key.now ≢ 0 }
    requires within { (j : ℕ) → j < length rest.now → slice_index rest.now j < length (C.cells cells.now) }
    requires ascending { Ascends (key_in key_of None (C.cells cells.now)) rest.now }
    ensures some { IfSome result (λ j. (j < length rest.now) × (key_in key_of None (C.cells cells.now) (slice_index rest.now j) ≡ C.number key.now)) }
    ensures none { result ≡ None → (j : ℕ) → j < length rest.now → key_in key_of None (C.cells cells.now) (slice_index rest.now j) ≢ C.number key.now }
{
    let place = rank(cells, rest, key);
    if place >= rest.len() {
        return None;
    }
    if cells.holds(usize::from(rest[place]), key) {
        Some(place)
    } else {
        None
    }
}

/// Inserts a cell within the room that is there.
fn insert_at(rest: &mut Vec<u16>, place: usize, cell: u16)
    requires within { place ≤ length rest.old.items }
    requires room { length rest.old.items < vec_capacity rest.old }
    ensures items { rest.new.items ≡ insert rest.old.items place cell }
    ensures room { vec_capacity rest.old ≤ vec_capacity rest.new }
{
    match rest.insert(place, cell) {
        Ok(()) => {}
        Err(_) => unreachable!(),
    }
}

impl Index {
    /// No cell is named. It takes the room for so many, of which there may be 65,534: more get no memory.
    pub fn make(alloc: Global, room: usize) -> Result<Index, AllocError>
        ensures blank { IfOk result (λ x. IsBlank x.bits x.slots x.rest.items) }
        ensures room { IfOk result (λ x. room ≤ vec_capacity x.rest) }
        ensures small { IfOk result (λ x. room < 65535) }
    {
        let bits = bits_for(room).ok_or(AllocError)?;
        let slots = Slots::make(alloc, 1 << bits)?;
        let rest = Vec::with_capacity(alloc, room)?;
        Ok(Index { bits, slots, rest })
    }

    /// The cell that holds the key.
    pub fn find<K, V, C: Cells<K, V>>(&self, cells: &C, key: &K) -> Option<usize>
        requires index { IsIndexed C.hash self.now.bits (key_in key_of None (C.cells cells.now)) self.now.slots self.now.rest.items }
        requires key { C.number key.now ≢ 0 }
        ensures found { IfSome result (λ i. (i < length (C.cells cells.now)) × (key_in key_of None (C.cells cells.now) i ≡ C.number key.now)) }
        ensures absent { result ≡ None → (i : ℕ) → key_in key_of None (C.cells cells.now) i ≢ C.number key.now }
    {
        let slot = self.slots.get(home(self.bits, C::hash(key)));
        if slot == NEVER {
            return None;
        }
        match named(cells, slot, key) {
            Some(cell) => Some(cell),
            None => {
                let place = listed(cells, self.rest.as_slice(), key)?;
                Some(usize::from(self.rest[place]))
            }
        }
    }

    /// Names an empty cell, into which the key is put next.
    pub fn enter<K, V, C: Cells<K, V>>(&mut self, cells: &C, key: &K, cell: usize)
        requires index { IsIndexed C.hash self.old.bits (key_in key_of None (C.cells cells.now)) self.old.slots self.old.rest.items }
        requires key { C.number key.now ≢ 0 }
        requires within { cell < length (C.cells cells.now) }
        requires small { cell + 1 < 65535 }
        requires empty { key_in key_of None (C.cells cells.now) cell ≡ 0 }
        requires absent { (i : ℕ) → key_in key_of None (C.cells cells.now) i ≢ C.number key.now }
        requires room { length self.old.rest.items < vec_capacity self.old.rest }
        ensures index { (c : Option (ℕ × V)) → key_of c ≡ C.number key.now
            → IsIndexed C.hash self.new.bits (key_in key_of None (slice_set (C.cells cells.now) cell c)) self.new.slots self.new.rest.items }
        ensures named { named_by self.new.slots self.new.rest.items ≡ named_by self.old.slots self.old.rest.items + 1 }
        ensures room { vec_capacity self.old.rest ≤ vec_capacity self.new.rest }
    {
        let slot = home(self.bits, C::hash(key));
        if is_taken(self.slots.get(slot)) {
            let place = rank(cells, self.rest.as_slice(), key);
            insert_at(&mut self.rest, place, cell as u16);
        } else {
            self.slots.set(slot, cell as u16 + 1);
        }
    }

    /// Names the cell of the key no more, which is emptied next.
    pub fn leave<K, V, C: Cells<K, V>>(&mut self, cells: &C, key: &K, cell: usize)
        requires index { IsIndexed C.hash self.old.bits (key_in key_of None (C.cells cells.now)) self.old.slots self.old.rest.items }
        requires key { C.number key.now ≢ 0 }
        requires within { cell < length (C.cells cells.now) }
        requires here { key_in key_of None (C.cells cells.now) cell ≡ C.number key.now }
        ensures index { IsIndexed C.hash self.new.bits (key_in key_of None (slice_set (C.cells cells.now) cell None)) self.new.slots self.new.rest.items }
        ensures named { named_by self.new.slots self.new.rest.items + 1 ≡ named_by self.old.slots self.old.rest.items }
        ensures room { vec_capacity self.new.rest ≡ vec_capacity self.old.rest }
    {
        let slot = home(self.bits, C::hash(key));
        if usize::from(self.slots.get(slot)) == cell + 1 {
            self.slots.set(slot, LEFT);
        } else {
            match listed(cells, self.rest.as_slice(), key) {
                Some(place) => {
                    let _ = self.rest.remove(place);
                }
                None => unreachable!(),
            }
        }
    }
}
