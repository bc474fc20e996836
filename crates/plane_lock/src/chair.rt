//! A seat of a board that a name stands for.
ghost use Rattle.std.specs.Prelude.{◌≡◌, length, take, true, IfSome, IfNone};
ghost use Rattle.std.specs.Ordering.{nat_cmp};
ghost use Rattle.br_model.specs.Data.Maps.{has};
ghost use Rattle.br_model.specs.Table.Table.{table};
ghost use Rattle.forward_rules.specs.Decided.{Decides};
ghost use Rattle.table_publish.specs.Board.{Rises};
ghost use Rattle.table_publish.specs.Object.{Begins, IsPublished};

use br_model::frame::{Head, McastMsg};
use br_model::numbers::Port;
use std::marker::{Model, PhantomData};
use table_publish::{Name, Seat, Seen};

/// A seat of N's board. Contracts see the seat.
#[derive(Drop)]
pub struct Chair<N: Name> {
    pub(crate) seat: Seat,
    of: PhantomData<N>,
}

impl<N: Name> Model for Chair<N> {
    ghost use Rattle.std.specs.Prelude.{◌≡◌};
    ghost use Rattle.table_publish.specs.Board.{Known};
    ghost use Rattle.table_publish.specs.Object.{IsPublished};

    ghost Value = { Known };

    ghost view = { λ c. c.seat };

    ghost invariant = { λ c. (c.seat.board ≡ N.board) × IsPublished c.seat.object };
}

impl<N: Name> Chair<N> {
    pub fn new(seat: Seat) -> Chair<N>
        requires board { seat.board ≡ N.board }
        requires published { IsPublished seat.object }
        ensures { result ≡ seat }
    {
        Chair {
            seat,
            of: PhantomData,
        }
    }

    /// The decision by what is then known, as of a seat. It waits for nobody.
    pub fn lookup(&mut self, port: Port, head: &Head, m: &McastMsg) -> Option<Seen>
        ensures begins { Begins self.new.object self.old.object }
        ensures point { IfSome result (λ s. s.point ≡ length self.new.object.changes) }
        ensures count { IfSome result (λ s. has nat_cmp self.new.object.counts s.point ≡ true) }
        ensures verdict { IfSome result (λ s. Decides N.board.domains (table (take s.point self.new.object.changes)) port head.now m.now s.verdict) }
        ensures read { IfSome result (λ s. self.new.misses ≡ self.old.misses) }
        ensures missed { IfNone result ((self.new.object ≡ self.old.object) × Rises self.old.misses self.new.misses) }
    {
        self.seat.lookup(port, head, m)
    }

    /// What the chair knows was published as a whole: the law does nothing.
    pub fn stands(&self)
        ensures { IsPublished self.now.object }
    {
        let _seat = &self.seat;
    }

    /// How often a lookup got no reading. It never falls.
    pub fn misses(&self) -> u64
        ensures { result ≡ self.now.misses }
    {
        self.seat.misses()
    }
}
