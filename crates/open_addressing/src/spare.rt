//! Free cells.
ghost use Rattle.std.specs.Prelude.{◌≡◌, ℕ, ◌++◌, ◌∷◌, ◌<◌, ◌≤◌, [], IfOk, length, vec_capacity};
ghost use Rattle.open_addressing.specs.Spare.{AreSpare, Uses};

use std::alloc::{AllocError, Global};

/// The cells that were left, and from which one on none was ever used.
#[derive(Drop)]
pub struct Spare {
    // It has its room from the beginning.
    free: Vec<u16>,
    fresh: usize,
}

impl Spare {
    /// All cells are free. It takes the room for so many.
    pub fn make(alloc: Global, room: usize) -> Result<Spare, AllocError>
        ensures none { IfOk result (λ s. s.free.items ≡ []) }
        ensures fresh { IfOk result (λ s. s.fresh ≡ 0) }
        ensures room { IfOk result (λ s. room ≤ vec_capacity s.free) }
    {
        let free = Vec::with_capacity(alloc, room)?;
        Ok(Spare { free, fresh: 0 })
    }

    /// A free cell, which is used from now on.
    pub fn take(&mut self) -> usize
        requires { self.old.fresh < 65535 }
        ensures uses { (at : ℕ → ℕ) (used room : ℕ) → AreSpare at used room self.old.fresh self.old.free.items → used < room
            → Uses at used room result self.new.fresh self.new.free.items }
        ensures room { vec_capacity self.new.free ≡ vec_capacity self.old.free }
    {
        match self.free.pop() {
            Some(cell) => usize::from(cell),
            None => {
                let cell = self.fresh;
                self.fresh += 1;
                cell
            }
        }
    }

    /// A cell is free from now on.
    pub fn give(&mut self, cell: usize)
        requires small { cell < 65536 }
        requires room { length self.old.free.items < vec_capacity self.old.free }
        ensures free { self.new.free.items ≡ self.old.free.items ++ cell ∷ [] }
        ensures fresh { self.new.fresh ≡ self.old.fresh }
        ensures room { vec_capacity self.new.free ≡ vec_capacity self.old.free }
    {
        self.free.push_reserved(cell as u16);
    }
}
