//! The table of a published point.
ghost use Rattle.std.specs.Prelude.{◌≡◌, ◌≤◌, IfOk, OnErr, OnOk, length, take};
ghost use Rattle.br_model.specs.Table.Limits.{AreWithin};
ghost use Rattle.br_model.specs.Table.Table.{start, table};
ghost use Rattle.br_model.specs.Wire.Messages.{message as message_of};
ghost use Rattle.forward_rules.specs.Decided.{Decides};
ghost use Rattle.check_world.specs.Points.{IsPoint, point_at};

use crate::NoMemory;
use br_model::change::Change;
use br_model::domains::Domains;
use forward_rules::{SoftTables, Verdict};
use plane_parts::Waiting;
use std::alloc::Global;
use std::marker::Model;

/// The table of the first changes of a history, so many, by which software decided last. It moves forward with the points, and is made
/// anew only for a smaller one.
#[derive(Drop)]
pub struct Point {
    tables: SoftTables,
    at: u32,
}

impl Model for Point {
    ghost use Rattle.check_world.specs.Points.{PointState};

    ghost Value = { PointState };

    ghost view = { λ p. record { table = p.tables; at = p.at } };
}

/// Applies the changes behind the first `from` ones, up to the first `to`.
fn apply_between(tables: &mut SoftTables, history: &[Change], from: usize, to: usize)
    requires from { from ≤ to }
    requires to { to ≤ length history.now }
    requires history { AreWithin history.now }
    requires table { tables.old ≡ table (take from history.now) }
    ensures { tables.new ≡ table (take to history.now) }
{
    for place in from..to {
        tables.apply(&history[place]);
    }
}

impl Point {
    /// Before any change.
    pub fn make(alloc: Global) -> Result<Point, NoMemory>
        ensures { IfOk result (λ p. p ≡ record { table = start; at = 0 }) }
    {
        Ok(Point {
            tables: SoftTables::make(alloc)?,
            at: 0,
        })
    }

    /// Goes back before any change. Tables are large, so it has a function of its own: each call pays for the room of its locals.
    #[inline(never)]
    fn restart(&mut self, alloc: Global) -> Result<(), NoMemory>
        ensures ok { OnOk result (self.new ≡ record { table = start; at = 0 }) }
        ensures err { OnErr result (self.new ≡ self.old) }
    {
        *self = Point::make(alloc)?;
        Ok(())
    }

    /// Goes to this point.
    pub fn go_to(&mut self, alloc: Global, history: &[Change], point: u32) -> Result<(), NoMemory>
        requires within { point ≤ length history.now }
        requires history { AreWithin history.now }
        requires point { IsPoint history.now self.old }
        ensures point { IsPoint history.now self.new }
        ensures ok { OnOk result (self.new ≡ point_at history.now point) }
    {
        if point < self.at {
            self.restart(alloc)?;
        }
        apply_between(&mut self.tables, history, self.at as usize, point as usize);
        self.at = point;
        Ok(())
    }

    /// What its table decides of a frame.
    pub fn decide(&self, frame: &Waiting, domains: &Domains) -> Verdict
        ensures { Decides domains.now self.now.table frame.now.port frame.now.head (message_of frame.now.bytes frame.now.head) result }
    {
        self.tables
            .decide(frame.port(), frame.head(), frame.message(), domains)
    }
}
