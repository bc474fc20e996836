//! Changes in few bytes.
ghost use Rattle.std.specs.Prelude.{◌≡◌, ◌+◌, ◌++◌, ◌∷◌, ◌<◌, ◌≤◌, [], length, slice_get, IfOk, Some, vec_len, vec_capacity};

use crate::NoMemory;
use br_model::change::Change;
use br_model::parcel::Slip;
use std::alloc::Global;
use std::marker::Model;

/// Changes of 24 bytes each: as many as a run can have stand in the history, too. Contracts see the list of them, and
/// how many there is room for.
#[derive(Drop)]
pub struct Packed {
    slips: Vec<Slip>,
}

impl Model for Packed {
    ghost use Rattle.std.specs.Prelude.{map, vec_capacity};
    ghost use Rattle.table_publish.specs.Packed.{Listed};
    ghost use Rattle.br_model.specs.Table.Parcels.{change_in};

    ghost Value = { Listed };

    ghost view = { λ p. record { list = map change_in p.slips.items; room = vec_capacity p.slips } };
}

impl Packed {
    /// No change. It takes no memory.
    pub fn none(alloc: Global) -> Packed
        ensures { result.list ≡ [] }
    {
        Packed {
            slips: Vec::new(alloc),
        }
    }

    /// No change, and room for so many.
    pub fn make(alloc: Global, room: usize) -> Result<Packed, NoMemory>
        ensures { IfOk result (λ p. p ≡ record { list = []; room = room }) }
    {
        let slips = Vec::with_capacity(alloc, room)?;
        Ok(Packed { slips })
    }

    pub fn len(&self) -> usize
        ensures { result ≡ length self.now.list }
    {
        self.slips.len()
    }

    /// The change at a place.
    pub fn get(&self, i: usize) -> Change
        requires { i < length self.now.list }
        ensures { slice_get self.now.list i ≡ Some result }
    {
        self.slips[i].change()
    }

    /// Adds changes at the end, within the room that is there.
    pub fn add(&mut self, changes: &[Change])
        requires { length self.old.list + length changes.now ≤ self.old.room }
        ensures { self.new ≡ record self.old { list = self.old.list ++ changes.now } }
    {
        for change in changes {
            self.push(*change);
        }
    }

    fn push(&mut self, change: Change)
        requires { length self.old.list < self.old.room }
        ensures { self.new ≡ record self.old { list = self.old.list ++ change ∷ [] } }
    {
        push_copy(&mut self.slips, &Slip::of(change));
    }

    /// The same changes, without more room.
    pub fn copy(&self, alloc: Global) -> Result<Packed, NoMemory>
        ensures { IfOk result (λ p. p.list ≡ self.now.list) }
    {
        let slips = Vec::from_slice(alloc, self.slips.as_slice())?;
        Ok(Packed { slips })
    }

    /// All leave, and the room stays.
    pub fn clear(&mut self)
        ensures { self.new ≡ record self.old { list = [] } }
    {
        self.slips.clear();
    }
}

/// Adds an item at the end, within the room that is there.
fn push_copy<T: Copy>(items: &mut Vec<T>, item: &T)
    requires { vec_len items.old < vec_capacity items.old }
    ensures items { items.new.items ≡ items.old.items ++ item.now ∷ [] }
    ensures room { vec_capacity items.new ≡ vec_capacity items.old }
{
    items.push_reserved(*item);
}
