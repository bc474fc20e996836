//! The table of a cut that follows the history, and takes updates one by one.
ghost use Rattle.std.specs.Prelude.{◌≡◌, ◌+◌, ◌<◌, ◌≤◌, IfOk, IsTrue, length, take};
ghost use Rattle.br_model.specs.Table.Limits.{AreWithin, fits, most_changes};
ghost use Rattle.br_model.specs.Table.Table.{apply, start};
ghost use Rattle.cut_walk.specs.Walked.{IsWalk};
ghost use Rattle.forward_rules.specs.Decided.{Decides};

use crate::NoMemory;
use br_model::change::Change;
use br_model::domains::{Domains, Edition};
use br_model::frame::{Head, McastMsg};
use br_model::numbers::Port;
use forward_rules::{SoftTables, Verdict};
use std::alloc::Global;
use std::marker::Model;

/// The table of the synchronous changes of a history and of its first deferred ones, and how many these are.
#[derive(Drop)]
pub struct Walk {
    tables: SoftTables,
    count: u32,
}

impl Model for Walk {
    ghost use Rattle.cut_walk.specs.Walked.{Walked};

    ghost Value = { Walked };

    ghost view = { λ w. record { table = w.tables; count = w.count } };
}

impl Walk {
    /// Before any change.
    pub fn make(alloc: Global) -> Result<Walk, NoMemory>
        ensures { IfOk result (λ w. w ≡ record { table = start; count = 0 }) }
    {
        Ok(Walk {
            tables: SoftTables::make(alloc)?,
            count: 0,
        })
    }

    /// How many updates are applied.
    pub fn count(&self) -> u32
        ensures { result ≡ self.now.count }
    {
        self.count
    }

    /// Applies a change.
    fn accept(&mut self, change: &Change)
        requires { IsTrue (fits self.old.table change.now) }
        ensures { self.new ≡ record self.old { table = apply self.old.table change.now } }
    {
        self.tables.apply(change);
    }

    /// Follows the changes that the history got behind its first `from` ones: it applies the synchronous ones, and the deferred ones wait.
    pub fn follow(&mut self, history: &[Change], from: usize, edition: Edition)
        requires from { from ≤ length history.now }
        requires history { AreWithin history.now }
        requires walk { IsWalk edition (take from history.now) self.old }
        ensures walk { IsWalk edition history.now self.new }
        ensures count { self.new.count ≡ self.old.count }
    {
        for place in from..history.len() {
            let change = &history[place];
            if !change.is_deferred(edition) {
                self.accept(change);
            }
        }
    }

    /// Applies an update, the next one.
    pub fn turn(&mut self, change: &Change)
        requires fits { IsTrue (fits self.old.table change.now) }
        requires count { self.old.count < most_changes }
        ensures { self.new ≡ record { table = apply self.old.table change.now; count = self.old.count + 1 } }
    {
        self.tables.apply(change);
        self.count += 1;
    }

    /// What is decided of a frame that says this to snooping.
    pub fn decide(&self, port: Port, head: &Head, message: &McastMsg, domains: &Domains) -> Verdict
        ensures { Decides domains.now self.now.table port head.now message.now result }
    {
        self.tables.decide(port, head, message, domains)
    }
}
