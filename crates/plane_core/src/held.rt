//! What a caller gets of a frame that is held.
ghost use Rattle.std.specs.Prelude.{◌≡◌, ◌↔◌, IfOk, IsTrue};
ghost use Rattle.plane_core.specs.Shown.{shown_by, shown_of};

use crate::NoMemory;
use br_model::bytes::Bytes;
use br_model::numbers::Port;
use hwdom_marks::Mark;
use plane_parts::{Holding, Waiting};
use std::alloc::Global;

/// A copy of a held frame, which the plane keeps. It is decided by no fewer changes than `floor`.
#[derive(Drop)]
pub struct Held {
    pub id: u32,
    pub port: Port,
    pub bytes: Bytes,
    /// The domain in which a chip has sent the frame already.
    pub mark: Option<Mark>,
    pub floor: u32,
}

impl Held {
    pub(crate) fn of(alloc: Global, frame: &Waiting, floor: u32) -> Result<Held, NoMemory>
        ensures { IfOk result (λ h. shown_by h ≡ shown_of (record { waiting = frame.now; floor = floor })) }
    {
        Ok(Held {
            id: frame.id(),
            port: frame.port(),
            bytes: Bytes::copy_of(alloc, frame.bytes())?,
            mark: frame.mark(),
            floor,
        })
    }

    /// Whether it is a copy of this frame, with its floor.
    pub(crate) fn is_of(&self, holding: &Holding) -> bool
        ensures { IsTrue result ↔ (shown_by self.now ≡ shown_of holding.now) }
    {
        let frame = holding.frame();
        frame.id() == self.id
            && frame.port() == self.port
            && frame.bytes() == self.bytes.as_slice()
            && frame.mark() == self.mark
            && holding.floor() == self.floor
    }
}
