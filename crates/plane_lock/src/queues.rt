//! The queues that are handed to the locks.
ghost use Rattle.std.specs.Prelude.{◌≡◌, [], ◌∷◌, ◌++◌, map, IfOk, OnErr, OnOk};

use crate::NoMemory;
use crate::desk::Desk;
use br_model::numbers::Dom;
use deferred_queue::{Poster, Taker};
use std::alloc::Global;
use std::marker::Model;
use std::sync::Mutex;

/// A domain's queue by its two ends, which are of one queue.
#[derive(Drop)]
pub struct Queue {
    pub dom: Dom,
    pub poster: Poster,
    pub taker: Taker,
    ghost one_queue: { poster.queue ≡ taker.queue },
}

/// Queues in the order in which they were pushed. Contracts see the list of them.
#[derive(Drop)]
pub struct Queues {
    queues: Vec<Queue>,
}

impl Model for Queues {
    ghost use Rattle.std.specs.Prelude.{List};
    ghost use Rattle.plane_lock.specs.declared.queues.Queue.{Queue};

    ghost Value = { List Queue };

    ghost view = { λ q. q.queues.items };
}

/// A driver's desk behind its lock, and its domain.
#[derive(Drop)]
pub(crate) struct Driver {
    pub(crate) dom: Dom,
    pub(crate) desk: Mutex<Desk>,
}

impl Queues {
    /// No queue: it takes no memory.
    pub fn new(alloc: Global) -> Queues
        ensures { result ≡ [] }
    {
        Queues {
            queues: Vec::new(alloc),
        }
    }

    pub fn push(&mut self, queue: Queue) -> Result<(), NoMemory>
        ensures ok { OnOk result (self.new ≡ self.old ++ queue ∷ []) }
        ensures err { OnErr result (self.new ≡ self.old) }
    {
        self.queues.push(queue)?;
        Ok(())
    }

    /// The posting ends, and the desks with the taking ones.
    pub(crate) fn split(self, alloc: Global) -> Result<(Vec<Poster>, Vec<Driver>), NoMemory>
        ensures posters { IfOk result (λ t. t.0.items ≡ map (λ q. q.poster) self) }
        ensures drivers { IfOk result (λ t. map (λ d. d.dom) t.1.items ≡ map (λ q. q.dom) self) }
    {
        let mut posters = Vec::new(alloc);
        let mut drivers = Vec::new(alloc);
        let Queues { queues } = self;
        for queue in queues {
            posters.push(queue.poster)?;
            drivers.push(Driver {
                dom: queue.dom,
                desk: Mutex::new(Desk::new(queue.taker)),
            })?;
        }
        Ok((posters, drivers))
    }
}
