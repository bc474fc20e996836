//! A seat, which looks up without waiting.
ghost use Rattle.std.specs.Prelude.{◌≡◌, length, IfSome, IfNone, None};
ghost use Rattle.br_model.specs.Table.Table.{table};
ghost use Rattle.forward_rules.specs.Decided.{Decides};
ghost use Rattle.table_publish.specs.Board.{Rises};
ghost use Rattle.table_publish.specs.Object.{Begins, IsPublished};

use crate::law::Shown;
use crate::rule::{See, TableReader};
use br_model::domains::Domains;
use br_model::frame::{Head, McastMsg};
use br_model::numbers::Port;
use forward_rules::Verdict;
use std::marker::Model;

/// What a lookup answers: the decision, and by how many changes.
#[derive(Clone, Copy, PartialEq, Eq, Debug)]
pub struct Seen {
    pub verdict: Verdict,
    pub point: u32,
}

/// A seat at a board. Contracts see which board, the published object that it knows, and its misses.
#[derive(Drop)]
pub struct Seat {
    // It is always there: a lookup takes it out and puts it back.
    pub(crate) reader: Option<TableReader>,
    pub(crate) domains: Domains,
    pub(crate) seen: Shown,
    pub(crate) batches: u64,
    pub(crate) misses: u64,
}

impl Model for Seat {
    ghost use Rattle.table_publish.specs.Object.{object_of};
    ghost use Rattle.table_publish.specs.Board.{Known};
    ghost use Rattle.table_publish.specs.Shelved.{IsSeated};

    ghost Value = { Known };

    ghost view = { λ s. record { board = record { book = s.seen.book; domains = s.domains }; object = object_of s.seen.log; misses = s.misses } };

    ghost invariant = { IsSeated };
}

impl Seat {
    /// No reading was got.
    fn miss(&mut self) -> Option<Seen>
        ensures board { self.new.board ≡ self.old.board }
        ensures object { self.new.object ≡ self.old.object }
        ensures published { IsPublished self.new.object }
        ensures misses { Rises self.old.misses self.new.misses }
        ensures none { result ≡ None }
    {
        self.misses = self.misses.saturating_add(1);
        None
    }

    /// The decision by the tables of the object that is then known, which begins with all that was known before. `None` only
    /// where the misses rose.
    pub fn lookup(&mut self, p: Port, h: &Head, m: &McastMsg) -> Option<Seen>
        ensures board { self.new.board ≡ self.old.board }
        ensures begins { Begins self.new.object self.old.object }
        ensures published { IsPublished self.new.object }
        ensures point { IfSome result (λ s. s.point ≡ length self.new.object.changes) }
        ensures verdict { IfSome result (λ s. Decides self.new.board.domains (table self.new.object.changes) p h.now m.now s.verdict) }
        ensures read { IfSome result (λ s. self.new.misses ≡ self.old.misses) }
        ensures missed { IfNone result ((self.new.object ≡ self.old.object) × Rises self.old.misses self.new.misses) }
    {
        let Some(reader) = self.reader.take() else {
            unreachable!();
        };
        let reading = match reader.enter_as::<See>() {
            Ok(reading) => reading,
            Err(reader) => {
                self.reader = Some(reader);
                return self.miss();
            }
        };
        let published = reading.get();
        if published.batches < self.batches {
            self.reader = Some(reading.leave());
            return self.miss();
        }
        // Both are beginnings of one history, and the new one is no shorter.
        let mut both = self.seen.again();
        both.learn(&published.seen);
        self.seen = published.seen.again();
        self.batches = published.batches;
        let seen = Seen {
            verdict: published.tables.decide(p, h, m, &self.domains),
            point: published.len as u32,
        };
        self.reader = Some(reading.leave());
        Some(seen)
    }

    /// How often a lookup got no reading. It never falls.
    pub fn misses(&self) -> u64
        ensures { result ≡ self.now.misses }
    {
        self.misses
    }
}
