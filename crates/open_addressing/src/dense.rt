//! Keys with their values, one after another.
ghost use Rattle.std.specs.Prelude.{◌≡◌, ◌<◌, IfOk, None, length, map, replicate, filter_map, slice_index_or, slice_set};
ghost use Rattle.open_addressing.specs.Finite.{key_if};
ghost use Rattle.open_addressing.specs.Hashed.{mix};
ghost use Rattle.open_addressing.specs.Hashes.{mix-lt};
ghost use Rattle.open_addressing.specs.Least.{smaller, number_if, least_in};
ghost use Rattle.open_addressing.specs.Zipped.{cell_of, pair_cell};

use crate::map::{Measure, Test};
use crate::{Cells, mixed};
use lists::padded::{item_or, put_item};
use std::alloc::{AllocError, Global};
use std::marker::Model;

/// So many pairs, as far as one was ever written: the others have the key 0, as those that were cleared, and take no memory but their room.
///
/// Contracts see the cells.
#[derive(Drop)]
pub struct Pairs<V> {
    pairs: Vec<(u64, V)>,
    count: usize,
    // The value beside the key 0.
    blank: V,
}

impl<V> Model for Pairs<V> {
    ghost use Rattle.std.specs.Prelude.{ℕ, ◌≤◌, List, Option, length, map, vec_capacity};
    ghost use Rattle.lists.specs.Padded.{padded};
    ghost use Rattle.open_addressing.specs.Zipped.{pair_cell};

    ghost Value = { List (Option (ℕ × V)) };

    ghost view = { λ s. map pair_cell (padded (0, s.blank) s.count s.pairs.items) };

    ghost invariant = { λ s. (length s.pairs.items ≤ s.count) × (s.count ≤ vec_capacity s.pairs) };
}

/// The key at a place, if its value passes the test.
fn key_if<V: Copy, T: Test<V>>(pairs: &[(u64, V)], i: usize, test: &T) -> Option<u64>
    requires { i < length pairs.now }
    ensures { result ≡ key_if (T.passes test.now) (slice_index_or (map pair_cell pairs.now) i None) }
{
    let pair = pairs[i];
    if pair.0 == 0 {
        return None;
    }
    if test.passes(&pair.1) {
        Some(pair.0)
    } else {
        None
    }
}

/// What the value at a place measures, where a key stands beside it.
fn number_if<V: Copy, M: Measure<V>>(pairs: &[(u64, V)], i: usize, measure: &M) -> Option<u64>
    requires { i < length pairs.now }
    ensures { result ≡ number_if (M.number measure.now) (slice_index_or (map pair_cell pairs.now) i None) }
{
    let pair = pairs[i];
    if pair.0 == 0 {
        return None;
    }
    measure.of(&pair.1)
}

impl<V: Copy> Pairs<V> {
    /// So many empty cells. The value `blank` is never read.
    pub fn make(alloc: Global, count: usize, blank: V) -> Result<Pairs<V>, AllocError>
        ensures { IfOk result (λ s. s ≡ replicate count None) }
    {
        let pairs = Vec::with_capacity(alloc, count)?;
        Ok(Pairs {
            pairs,
            count,
            blank,
        })
    }

    /// The pair in a cell, whose key is 0 where it is empty.
    #[inline(always)]
    fn read(&self, i: usize) -> (u64, V)
        requires { i < length self.now }
        ensures { slice_index_or self.now i None ≡ pair_cell result }
    {
        item_or(self.pairs.as_slice(), i, (0, self.blank))
    }

    /// Writes a pair.
    #[inline(always)]
    fn write(&mut self, i: usize, key: u64, value: V)
        requires { i < length self.old }
        ensures { self.new ≡ slice_set self.old i (cell_of key value) }
    {
        put_item(&mut self.pairs, i, (key, value), (0, self.blank));
    }

    /// The keys whose values pass the test, in the order of their cells.
    pub fn keys_where<T: Test<V>>(&self, alloc: Global, test: &T) -> Result<Vec<u64>, AllocError>
        ensures { IfOk result (λ v. v.items ≡ filter_map (key_if (T.passes test.now)) self.now) }
    {
        let mut keys = Vec::new(alloc);
        for i in 0..self.pairs.len() {
            if let Some(key) = key_if(self.pairs.as_slice(), i, test) {
                keys.push(key)?;
            }
        }
        Ok(keys)
    }

    /// The least number that a value in the cells measures.
    pub fn least<M: Measure<V>>(&self, measure: &M) -> Option<u64>
        ensures { result ≡ least_in (M.number measure.now) self.now }
    {
        let mut least = None;
        for i in 0..self.pairs.len() {
            least = smaller(least, number_if(self.pairs.as_slice(), i, measure));
        }
        least
    }
}

impl<V: Copy> Cells<u64, V> for Pairs<V> {
    ghost number = { λ k. k };

    ghost hash = { mix };

    ghost cells = { λ s. s };

    fn holds(&self, i: usize, key: &u64) -> bool {
        self.read(i).0 == *key
    }

    fn is_below(&self, i: usize, key: &u64) -> bool {
        self.read(i).0 < *key
    }

    fn hash(key: &u64) -> u64 {
        mixed(*key)
    }

    fn value(&self, i: usize) -> V {
        self.read(i).1
    }

    fn put(&mut self, i: usize, key: &u64, value: V) {
        self.write(i, *key, value);
    }

    fn clear(&mut self, i: usize) {
        let blank = self.blank;
        self.write(i, 0, blank);
    }

    ghost hashes = { mix-lt };
}

/// The smaller of two numbers, where there are any.
fn smaller(a: Option<u64>, b: Option<u64>) -> Option<u64>
    ensures { result ≡ smaller a b }
{
    match (a, b) {
        (None, b) => b,
        (a, None) => a,
        (Some(a), Some(b)) => Some(a.min(b)),
    }
}
