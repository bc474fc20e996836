//! VLANs in ascending order.
ghost use Rattle.std.specs.Prelude.{◌≡◌, ◌↔◌, IsTrue, length};

use br_model::numbers::Vid;
use std::marker::Model;

/// A list of VLANs, ascending.
#[derive(Drop)]
pub struct Vids {
    vids: Vec<Vid>,
}

impl Model for Vids {
    ghost use Rattle.std.specs.Prelude.{ℕ, List};

    ghost Value = { List ℕ };

    ghost view = { λ v. v.vids.items };
}

impl Vids {
    pub(crate) fn of(vids: Vec<Vid>) -> Vids
        ensures { result ≡ vids.items }
    {
        Vids { vids }
    }

    pub fn as_slice(&self) -> &[Vid]
        ensures { result.now ≡ self.now }
    {
        self.vids.as_slice()
    }

    pub fn len(&self) -> usize
        ensures { result ≡ length self.now }
    {
        self.vids.len()
    }

    pub fn is_empty(&self) -> bool
        ensures { IsTrue result ↔ (length self.now ≡ 0) }
    {
        self.vids.is_empty()
    }
}
