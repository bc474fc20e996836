//! The ring of reports, and the hits.
ghost use Rattle.std.specs.Prelude.{◌≡◌, ◌++◌, ◌∷◌, ◌&&◌, [], not, nat_lt, length, drop, if◌then◌else◌, slice_get, IfOk, OnOk, OnErr};
ghost use Rattle.br_model.specs.Data.Maps.{has, joined, pair_cmp};
ghost use Rattle.br_model.specs.Table.Limits.{most_reports};
ghost use Rattle.learn_report.specs.Reports.{is_waiting};

use crate::NoMemory;
use crate::waiting::{Waiting, number_of};
use br_model::limits::MOST_REPORTS;
use br_model::numbers::{Mac, Port, Vid};
use std::alloc::Global;
use std::collections::{BTreeSet, VecDeque};
use std::marker::Model;

/// A source address, its VLAN, and the port by which it came.
pub type Report = (Vid, Mac, Port);

/// The reports that wait, and the addresses that were hit since the hits were last cleared.
#[derive(Drop)]
pub struct Reports {
    // The oldest first. It has its room from the beginning.
    ring: VecDeque<Report>,
    // The numbers of those in the ring.
    waiting: Waiting,
    // In order, so that no choice of addresses makes a search long.
    hits: BTreeSet<(Vid, Mac)>,
}

impl Model for Reports {
    ghost use Rattle.std.specs.Prelude.{◌≤◌};
    ghost use Rattle.std.specs.VecDeque.{deque_capacity};
    ghost use Rattle.br_model.specs.Table.Limits.{most_reports};
    ghost use Rattle.learn_report.specs.Reports.{Reported};
    ghost use Rattle.learn_report.specs.Index.{IsIndex};

    ghost Value = { Reported };

    ghost view = { λ r. record { reports = r.ring.items; hits = r.hits.keys } };

    ghost invariant = { λ r. (most_reports ≤ deque_capacity r.ring) × IsIndex r.ring.items r.waiting };
}

impl Reports {
    /// No report waits and nothing was hit. It takes the room for all reports, but none for hits.
    pub fn make(alloc: Global) -> Result<Reports, NoMemory>
        ensures { IfOk result (λ r. r ≡ record { reports = []; hits = [] }) }
    {
        let ring = VecDeque::with_capacity(alloc, MOST_REPORTS)?;
        let waiting = Waiting::make(alloc)?;
        Ok(Reports {
            ring,
            waiting,
            hits: BTreeSet::new(alloc),
        })
    }

    /// Keeps a report. `false` exactly where the ring is full or an equal report waits. It doesn't walk the ring.
    pub fn offer(&mut self, v: Vid, m: Mac, p: Port) -> bool
        ensures value { result ≡ (nat_lt (length self.old.reports) most_reports && not (is_waiting self.old.reports (v, m, p))) }
        ensures kept { self.new ≡ record self.old { reports = if result then self.old.reports ++ (v, m, p) ∷ [] else self.old.reports } }
    {
        let report = (v, m, p);
        if self.ring.len() >= MOST_REPORTS {
            return false;
        }
        if !self.waiting.put(number_of(&report)) {
            return false;
        }
        self.ring.push_back_reserved(report);
        true
    }

    /// The oldest report, which leaves.
    pub fn next(&mut self) -> Option<Report>
        ensures oldest { result ≡ slice_get self.old.reports 0 }
        ensures rest { self.new ≡ record self.old { reports = drop 1 self.old.reports } }
    {
        let report = self.ring.pop_front()?;
        self.waiting.take(number_of(&report));
        Some(report)
    }

    /// The oldest report, which stays.
    pub fn first(&self) -> Option<Report>
        ensures { result ≡ slice_get self.now.reports 0 }
    {
        self.ring.front().copied()
    }

    /// Sets the hit of the address.
    pub fn hit(&mut self, v: Vid, m: Mac) -> Result<(), NoMemory>
        ensures ok { OnOk result (self.new ≡ record self.old { hits = joined pair_cmp self.old.hits (v, m) }) }
        ensures err { OnErr result (self.new ≡ self.old) }
    {
        self.hits.insert((v, m))?;
        Ok(())
    }

    /// Whether the hit of the address is set.
    pub fn has(&self, v: Vid, m: Mac) -> bool
        ensures { result ≡ has pair_cmp self.now.hits (v, m) }
    {
        self.hits.contains(&(v, m))
    }

    /// Clears the hits. The reports stay.
    pub fn clear(&mut self)
        ensures { self.new ≡ record self.old { hits = [] } }
    {
        self.hits.clear();
    }
}
