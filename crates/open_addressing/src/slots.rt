//! Numbers in slots, of which blocks take memory as they are first written.
ghost use Rattle.std.specs.Prelude.{◌≡◌, ◌≢◌, ℕ, ◌*◌, ◌/◌, ◌<◌, ◌≤◌, List, IfOk, length, replicate, slice_index, slice_set};
ghost use Rattle.open_addressing.specs.Laid.{place_of, slot_at, IsLaid};

use lists::padded::{item_or, put_item};
use std::alloc::{AllocError, Global};
use std::marker::Model;

/// How many slots a block has.
const BLOCK: usize = 64;

/// The place of a block that was never written.
const NOWHERE: u16 = 65535;

/// How many slots there may be.
const MOST: usize = 1 << 20;

/// So many numbers, 0 where none was written.
///
/// Contracts see the numbers.
#[derive(Drop)]
pub struct Slots {
    len: usize,
    // Where each block stands among those that were written.
    places: Vec<u16>,
    // How many blocks were written.
    used: usize,
    // It has its room from the beginning.
    laid: Vec<u16>,
}

impl Model for Slots {
    ghost use Rattle.std.specs.Prelude.{ℕ, ◌*◌, ◌≤◌, List, length, vec_capacity};
    ghost use Rattle.open_addressing.specs.Laid.{slots_of, IsLaid};

    ghost Value = { List ℕ };

    ghost view = { λ s. slots_of s.len s.places.items s.laid.items };

    ghost invariant = { λ s. IsLaid s.places.items s.used s.laid.items
        × (s.len ≤ length s.places.items * 64) × (length s.places.items * 64 ≤ vec_capacity s.laid) };
}

/// The place of a block, which it is given if it has none.
fn ensure_place(places: &mut Vec<u16>, used: &mut usize, block: usize) -> usize
    requires within { block < length places.old.items }
    requires laid { (laid : List ℕ) × IsLaid places.old.items used.old laid }
    ensures laid { (laid : List ℕ) → IsLaid places.old.items used.old laid → IsLaid places.new.items used.new laid }
    ensures same { (laid : List ℕ) → IsLaid places.old.items used.old laid → (s : ℕ) → slot_at places.new.items laid s ≡ slot_at places.old.items laid s }
    ensures place { place_of places.new.items block ≡ result }
    ensures some { result ≢ 65535 }
    ensures len { length places.new.items ≡ length places.old.items }
{
    let old = places[block];
    if old != NOWHERE {
        return usize::from(old);
    }
    let new = *used;
    places[block] = new as u16;
    *used += 1;
    new
}

impl Slots {
    /// So many slots with 0, of which there may be 1,048,576: more get no memory.
    pub fn make(alloc: Global, len: usize) -> Result<Slots, AllocError>
        ensures { IfOk result (λ s. s ≡ replicate len 0) }
    {
        if len > MOST {
            return Err(AllocError);
        }
        let blocks = len.div_ceil(BLOCK);
        let places = vec![in alloc; NOWHERE; blocks]?;
        let laid = Vec::with_capacity(alloc, blocks * BLOCK)?;
        Ok(Slots {
            len,
            places,
            used: 0,
            laid,
        })
    }

    /// The number in a slot.
    #[inline(always)]
    pub fn get(&self, slot: usize) -> u16
        requires { slot < length self.now }
        ensures { result ≡ slice_index self.now slot }
    {
        let place = usize::from(self.places[slot / BLOCK]);
        item_or(self.laid.as_slice(), place * BLOCK + slot % BLOCK, 0)
    }

    /// Writes a number.
    #[inline(always)]
    pub fn set(&mut self, slot: usize, number: u16)
        requires { slot < length self.old }
        ensures { self.new ≡ slice_set self.old slot number }
    {
        let place = ensure_place(&mut self.places, &mut self.used, slot / BLOCK);
        put_item(&mut self.laid, place * BLOCK + slot % BLOCK, number, 0);
    }
}
