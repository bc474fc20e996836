//! A chip that follows the history of a bridge.
ghost use Rattle.std.specs.Prelude.{◌≡◌, ◌≢◌, ◌+◌, ◌<◌, ◌≤◌, ℕ, [], IfOk, OnOk, OnErr, true, false, length, take, drop, slice_get, if◌then◌else◌};
ghost use Rattle.br_model.specs.declared.domains.Edition.{Edition as EditionValue};
ghost use Rattle.br_model.specs.declared.domains.Edition.TheVariants.{Two};
ghost use Rattle.br_model.specs.Table.Change.{deferred, updates as updates_of};
ghost use Rattle.br_model.specs.Plane.Chip.{applies, first_chip, offers, hits_entry, unhit};
ghost use Rattle.br_model.specs.Table.Cut.{cut, deferred_count};
ghost use Rattle.br_model.specs.Table.Domains.{Domains as DomainsValue, software};
ghost use Rattle.br_model.specs.Table.Limits.{AreWithin, most_changes};
ghost use Rattle.br_model.specs.Table.Table.{Table, apply, table};
ghost use Rattle.chip_driver.specs.Drives.{Drives, IsTaken};
ghost use Rattle.hwdom_chips.specs.Chips.{IsChip, IsCut};
ghost use Rattle.plane_parts.specs.Places.{places};

use crate::{NoMemory, sweep};
use br_model::change::{Change, Update};
use br_model::domains::{Domains, Edition};
use br_model::numbers::{Dom, Mac, Port, Vid};
use br_model::steps::Triples;
use chip_driver::Driver;
use chip_tables::Tables;
use learn_report::noting::{entry_put, hit, offer};
use learn_report::{Report, Reports};
use plane_parts::Updates;
use std::alloc::Global;
use std::marker::Model;
use switchdev_notify::{deliver, notice_of};

/// The switch chip of a domain: its driver, which counts the deferred changes that it has applied, and what it reports.
#[derive(Drop)]
pub struct Chip {
    driver: Driver,
    reports: Reports,
}

impl Model for Chip {
    ghost use Rattle.hwdom_chips.specs.Chips.{ChipState};
    ghost use Rattle.learn_report.specs.Reports.{chip_of};

    ghost Value = { ChipState };

    ghost view = { λ c. record { driver = c.driver; chip = chip_of c.driver.dom c.driver.count c.reports } };
}

/// Tells the driver of a change, unless it is a deferred one.
fn tell(driver: &mut Driver, change: &Change, edition: Edition)
    requires { deferred edition change.now ≡ false → IsTaken driver.old change.now }
    ensures told { (domains : DomainsValue) (t : Table) → Drives domains driver.old t
        → Drives domains driver.new (if deferred edition change.now then t else apply t change.now) }
    ensures dom { driver.new.dom ≡ driver.old.dom }
    ensures count { driver.new.count ≡ driver.old.count }
{
    deliver(driver, &notice_of(change), edition);
}

/// Tells the driver of the synchronous changes that a history got behind its first `from` ones.
fn tell_from(driver: &mut Driver, history: &[Change], from: usize, edition: Edition)
    requires from { from ≤ length history.now }
    requires history { AreWithin history.now }
    requires stands { IsCut edition (take from history.now) driver.old }
    ensures told { (domains : DomainsValue) (k : ℕ) → k ≤ deferred_count edition (take from history.now)
        → Drives domains driver.old (table (cut edition (take from history.now) k)) → Drives domains driver.new (table (cut edition history.now k)) }
    ensures dom { driver.new.dom ≡ driver.old.dom }
    ensures count { driver.new.count ≡ driver.old.count }
{
    for place in from..history.len() {
        tell(driver, &history[place], edition);
    }
}

impl Chip {
    /// The chip of a domain, with the ports of it, before any change. It takes all its room but that of the hits.
    pub fn make(alloc: Global, dom: Dom, domains: &Domains) -> Result<Chip, NoMemory>
        requires { dom ≢ software }
        ensures stands { IfOk result (λ c. IsChip domains.now [] c) }
        ensures first { IfOk result (λ c. c.chip ≡ first_chip dom) }
    {
        Ok(Chip {
            driver: Driver::make(alloc, dom, domains)?,
            reports: Reports::make(alloc)?,
        })
    }

    /// Its domain.
    pub fn dom(&self) -> Dom
        ensures { result ≡ self.now.chip.dom }
    {
        self.driver.dom()
    }

    /// Its rows.
    pub fn tables(&self) -> &Tables
        ensures { result.now ≡ self.now.driver.rows }
    {
        self.driver.tables()
    }

    /// How many deferred changes it has applied, which is the ticket of the next one.
    pub fn count(&self) -> u32
        ensures { result ≡ self.now.chip.count }
    {
        self.driver.count()
    }

    /// Follows the changes that the history got behind its first `from` ones: the driver is told of the synchronous ones, and
    /// the deferred ones wait.
    pub fn follow(&mut self, domains: &Domains, history: &[Change], from: usize)
        requires from { from ≤ length history.now }
        requires history { AreWithin history.now }
        requires stands { IsChip domains.now (take from history.now) self.old }
        ensures stands { IsChip domains.now history.now self.new }
        ensures chip { self.new.chip ≡ self.old.chip }
    {
        tell_from(&mut self.driver, history, from, domains.edition());
    }

    /// Applies a deferred change, the next one, and sets the hit of the entry that it puts.
    pub fn turn(&mut self, update: &Update) -> Result<(), NoMemory>
        requires taken { IsTaken self.old.driver update.now.change }
        requires queued { deferred Two update.now.change ≡ true }
        requires next { update.now.ticket ≡ self.old.chip.count }
        requires count { self.old.chip.count < most_changes }
        ensures ok { OnOk result (self.new.chip ≡ applies self.old.chip update.now.change) }
        ensures rows { OnOk result ((domains : DomainsValue) (t : Table) → Drives domains self.old.driver t
            → Drives domains self.new.driver (apply t update.now.change)) }
        ensures dom { OnOk result (self.new.driver.dom ≡ self.old.driver.dom) }
        ensures err { OnErr result (self.new ≡ self.old) }
    {
        hit(&mut self.reports, entry_put(&update.change))?;
        self.driver.address(update);
        Ok(())
    }

    /// The deferred change that it applies next, if one is pending.
    pub fn next_update(&self, updates: &Updates, history: &[Change]) -> Option<Update>
        requires { (edition : EditionValue) × (updates.now ≡ places edition history.now) }
        ensures { (edition : EditionValue) → updates.now ≡ places edition history.now
            → result ≡ slice_get (updates_of edition history.now) self.now.chip.count }
    {
        updates.get(history, self.driver.count())
    }

    /// Notes what a frame at the port leaves: the station that it would teach, and the entry that it hits.
    pub fn note(
        &mut self,
        port: Port,
        station: Option<(Vid, Mac)>,
        entry: Option<(Vid, Mac)>,
    ) -> Result<(), NoMemory>
        ensures ok { OnOk result (self.new ≡ record self.old { chip = hits_entry entry (offers port station self.old.chip) }) }
        ensures err { OnErr result (self.new ≡ self.old) }
    {
        hit(&mut self.reports, entry)?;
        offer(&mut self.reports, port, station);
        Ok(())
    }

    /// The oldest report, which stays.
    pub fn first_report(&self) -> Option<Report>
        ensures { result ≡ slice_get self.now.chip.reports 0 }
    {
        self.reports.first()
    }

    /// The oldest report leaves.
    pub fn drop_report(&mut self)
        ensures { self.new ≡ record self.old { chip = record self.old.chip { reports = drop 1 self.old.chip.reports } } }
    {
        let _oldest = self.reports.next();
    }

    /// The stations that it learned at its own ports and that no frame hit, ascending by VLAN and address.
    pub fn unhit(&self, alloc: Global) -> Result<Triples, NoMemory>
        ensures { IfOk result (λ stations. (domains : DomainsValue) (t : Table) → Drives domains self.now.driver t
            → stations ≡ unhit domains t self.now.chip) }
    {
        sweep::unhit(alloc, self.driver.tables(), &self.reports)
    }

    /// No entry is hit.
    pub fn clear_hits(&mut self)
        ensures { self.new ≡ record self.old { chip = record self.old.chip { hits = [] } } }
    {
        self.reports.clear();
    }
}
