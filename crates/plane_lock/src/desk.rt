//! What a driver lock keeps.
ghost use Rattle.std.specs.Prelude.{◌≡◌, None};
ghost use Rattle.plane_lock.specs.Desks.{Serves, left_by};

use br_model::change::Update;
use deferred_queue::Taker;
use std::marker::Model;
use std::sync::Wait;

/// The taking end of a domain's queue, and at most one update that was taken and isn't applied.
#[derive(Drop)]
pub struct Desk {
    taker: Taker,
    kept: Option<Update>,
}

impl Model for Desk {
    ghost use Rattle.plane_lock.specs.Desks.{DeskState};

    ghost Value = { DeskState };

    ghost view = { λ d. record { taker = d.taker; kept = d.kept } };
}

impl Desk {
    /// Nothing is kept.
    pub fn new(taker: Taker) -> Desk
        ensures { result ≡ record { taker = taker; kept = None } }
    {
        Desk { taker, kept: None }
    }

    /// The update that is kept, or else one from the queue, which is then kept. `None` only where none was kept and the queue was
    /// empty at its take.
    pub fn next<R: Wait>(&mut self, rt: &R) -> Option<Update>
        ensures { Serves self.old.kept result self.old self.new }
    {
        if self.kept.is_none() {
            self.kept = self.taker.take(rt);
        }
        self.kept
    }

    /// Drops the update that is kept exactly where its ticket is below `applied`.
    pub fn done(&mut self, applied: u32)
        ensures { self.new ≡ record self.old { kept = left_by self.old.kept applied } }
    {
        if let Some(update) = self.kept {
            if update.ticket < applied {
                self.kept = None;
            }
        }
    }
}
