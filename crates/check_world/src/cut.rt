//! What a chip has applied of the history, without a chip: the table of its cut, and what it notes of frames.
ghost use Rattle.std.specs.Prelude.{◌≡◌, ◌&&◌, ◌<◌, ◌≤◌, IfOk, IsTrue, OnErr, OnOk, false, length, not, slice_get, take};
ghost use Rattle.br_model.specs.Control.Learning.{is_extern, is_reserved, teach};
ghost use Rattle.br_model.specs.Plane.Chip.{first_chip, hit_of, report, unhit};
ghost use Rattle.br_model.specs.Table.Change.{is_of_address};
ghost use Rattle.br_model.specs.Table.DomainPorts.{is_in_domain};
ghost use Rattle.br_model.specs.Table.Limits.{AreWithin, fits, most_changes};
ghost use Rattle.br_model.specs.Data.Maps.{get, has, pair_cmp, put};
ghost use Rattle.br_model.specs.Table.Table.{Table, apply, start};
ghost use Rattle.forward_rules.specs.Decided.{Decides};
ghost use Rattle.check_world.specs.Cuts.{IsCut, KeepsTable, noted, told_first, turned, without_hits};

use crate::NoMemory;
use br_model::change::{Change, Kind};
use br_model::domains::{Domains, Edition};
use br_model::frame::{Head, McastMsg};
use br_model::numbers::{Dom, Mac, Port, Vid};
use br_model::plain::maps::{find, take};
use br_model::steps::Triples;
use forward_rules::{SoftTables, Verdict};
use learn_report::noting::{entry_put, hit, offer};
use learn_report::{Report, Reports};
use std::alloc::Global;
use std::collections::BTreeMap;
use std::marker::Model;

/// Address entries by VLAN and address, ascending.
type Addresses = BTreeMap<(Vid, Mac), (Port, Kind)>;

/// The table of the synchronous changes and of the deferred ones that the chip of a domain has applied, how many these are, and what the
/// chip noted.
#[derive(Drop)]
pub struct Cut {
    dom: Dom,
    count: u32,
    tables: SoftTables,
    // The addresses of the same table, ascending.
    addresses: Addresses,
    reports: Reports,
}

impl Model for Cut {
    ghost use Rattle.std.specs.Prelude.{◌≡◌};
    ghost use Rattle.check_world.specs.Cuts.{CutState};
    ghost use Rattle.learn_report.specs.Reports.{chip_of};

    ghost Value = { CutState };

    ghost view = { λ c. record { table = c.tables; chip = chip_of c.dom c.count c.reports } };

    ghost invariant = { λ c. c.addresses.entries ≡ c.tables.addr };
}

/// Puts an entry, in place of one.
fn put_address(
    addresses: &mut Addresses,
    key: (Vid, Mac),
    entry: (Port, Kind),
) -> Result<(), NoMemory>
    ensures ok { OnOk result (addresses.new.entries ≡ put pair_cmp addresses.old.entries key entry) }
    ensures err { OnErr result (addresses.new.entries ≡ addresses.old.entries) }
{
    addresses.insert(key, entry)?;
    Ok(())
}

/// Makes what the change makes of addresses.
fn follow_address(addresses: &mut Addresses, change: &Change) -> Result<(), NoMemory>
    ensures ok { OnOk result ((t : Table) → t.addr ≡ addresses.old.entries → (apply t change.now).addr ≡ addresses.new.entries) }
    ensures err { OnErr result (addresses.new.entries ≡ addresses.old.entries) }
{
    match *change {
        Change::AddrPut {
            vid,
            mac,
            port,
            kind,
        } => put_address(addresses, (vid, mac), (port, kind)),
        Change::AddrDel { vid, mac } => {
            take(addresses, &(vid, mac));
            Ok(())
        }
        _ => Ok(()),
    }
}

impl Cut {
    /// That of the domain's chip before any change.
    pub(crate) fn make(alloc: Global, dom: Dom) -> Result<Cut, NoMemory>
        ensures { IfOk result (λ c. c ≡ record { table = start; chip = first_chip dom }) }
    {
        Ok(Cut {
            dom,
            count: 0,
            tables: SoftTables::make(alloc)?,
            addresses: BTreeMap::new(alloc),
            reports: Reports::make(alloc)?,
        })
    }

    /// The chip's domain.
    pub(crate) fn dom(&self) -> Dom
        ensures { result ≡ self.now.chip.dom }
    {
        self.dom
    }

    /// How many deferred changes are applied.
    pub fn count(&self) -> u32
        ensures { result ≡ self.now.chip.count }
    {
        self.count
    }

    /// Applies a change that isn't of an address.
    fn accept(&mut self, change: &Change)
        requires other { is_of_address change.now ≡ false }
        requires fits { IsTrue (fits self.old.table change.now) }
        ensures { self.new ≡ record self.old { table = apply self.old.table change.now } }
    {
        self.tables.apply(change);
    }

    /// Follows the changes that the history got behind its first `from` ones: it applies the synchronous ones, and the deferred ones wait.
    pub(crate) fn follow(&mut self, history: &[Change], from: usize, edition: Edition)
        requires from { from ≤ length history.now }
        requires history { AreWithin history.now }
        requires cut { IsCut edition (take from history.now) self.old }
        ensures cut { IsCut edition history.now self.new }
        ensures chip { self.new.chip ≡ self.old.chip }
    {
        for place in from..history.len() {
            let change = &history[place];
            if !change.is_deferred(edition) {
                self.accept(change);
            }
        }
    }

    /// Applies a deferred change, the next one, and sets the hit of the entry that it puts. After want of memory the hit may be set.
    pub(crate) fn turn(&mut self, change: &Change) -> Result<(), NoMemory>
        requires fits { IsTrue (fits self.old.table change.now) }
        requires count { self.old.chip.count < most_changes }
        ensures ok { OnOk result (self.new ≡ turned self.old change.now) }
        ensures err { OnErr result (KeepsTable self.old self.new) }
    {
        hit(&mut self.reports, entry_put(change))?;
        follow_address(&mut self.addresses, change)?;
        self.tables.apply(change);
        self.count += 1;
        Ok(())
    }

    /// What the chip decides of a frame that says this to snooping.
    pub fn decide(&self, port: Port, head: &Head, message: &McastMsg, domains: &Domains) -> Verdict
        ensures { Decides domains.now self.now.table port head.now message.now result }
    {
        self.tables.decide(port, head, message, domains)
    }

    /// Whether frames to the destination teach nothing.
    fn is_reserved(&self, head: &Head) -> bool
        ensures { result ≡ is_reserved self.now.table head.now }
    {
        let address = head.dst.number();
        address == Mac::PAUSE_ADDRESS
            || head.dst.is_for_the_host()
            || (address == Mac::BRIDGE_GROUP_ADDRESS && self.tables.stp())
    }

    /// What the frame teaches at the port, where it teaches.
    fn teach(&self, port: Port, head: &Head) -> Option<(Vid, Mac)>
        ensures { result ≡ teach self.now.table port head.now }
    {
        if self.is_reserved(head) || !head.has_valid_source() {
            return None;
        }
        match self.tables.vlan_of(port, head) {
            Some(vid) if self.tables.may_teach(port, vid) => Some((vid, head.src)),
            Some(_) | None => None,
        }
    }

    /// The port and the kind of the entry.
    fn find(&self, key: &(Vid, Mac)) -> Option<(Port, Kind)>
        ensures { result ≡ get pair_cmp self.now.table.addr key.now }
    {
        find(&self.addresses, key)
    }

    /// The station that the chip offers to tell of, where the frame would teach a new one.
    fn station(&self, port: Port, head: &Head) -> Option<(Vid, Mac)>
        ensures { result ≡ report self.now.table port head.now }
    {
        let key = self.teach(port, head)?;
        match self.find(&key) {
            None => Some(key),
            Some((_, Kind::Local | Kind::Static)) => None,
            Some((other, Kind::Learned | Kind::Extern)) if other == port => None,
            Some((_, Kind::Learned | Kind::Extern)) => Some(key),
        }
    }

    /// Whose entry the frame hits.
    fn entry(&self, port: Port, head: &Head) -> Option<(Vid, Mac)>
        ensures { result ≡ hit_of self.now.table port head.now }
    {
        if !head.has_valid_source() {
            return None;
        }
        let key = (self.tables.vlan_of(port, head)?, head.src);
        match self.find(&key) {
            Some((other, _)) if other == port => Some(key),
            Some(_) | None => None,
        }
    }

    /// Notes what a frame at the port leaves.
    pub(crate) fn note(&mut self, port: Port, head: &Head) -> Result<(), NoMemory>
        ensures ok { OnOk result (self.new ≡ noted self.old port head.now) }
        ensures err { OnErr result (KeepsTable self.old self.new) }
    {
        let station = self.station(port, head);
        let entry = self.entry(port, head);
        hit(&mut self.reports, entry)?;
        offer(&mut self.reports, port, station);
        Ok(())
    }

    /// The oldest report, which stays.
    pub fn first_report(&self) -> Option<Report>
        ensures { result ≡ slice_get self.now.chip.reports 0 }
    {
        self.reports.first()
    }

    /// The oldest report leaves.
    pub(crate) fn drop_report(&mut self)
        ensures { self.new ≡ told_first self.old }
    {
        let _oldest = self.reports.next();
    }

    /// Whether the chip learned the entry at its own port, and no frame hit it.
    fn is_unhit(&self, key: (Vid, Mac), entry: (Port, Kind), domains: &Domains) -> bool
        ensures { result ≡ (is_extern entry.1 && (is_in_domain domains.now self.now.chip.dom entry.0 && not (has pair_cmp self.now.chip.hits key))) }
    {
        entry.1 == Kind::Extern
            && domains.of(entry.0) == Some(self.dom)
            && !self.reports.has(key.0, key.1)
    }

    /// The stations that the chip learned at its own ports and that no frame hit, ascending by VLAN and address.
    pub fn unhit(&self, alloc: Global, domains: &Domains) -> Result<Triples, NoMemory>
        ensures { IfOk result (λ stations. stations ≡ unhit domains.now self.now.table self.now.chip) }
    {
        let mut stations = Vec::new(alloc);
        for ((vid, mac), entry) in &self.addresses {
            if self.is_unhit((*vid, *mac), *entry, domains) {
                stations.push((*vid, *mac, entry.0))?;
            }
        }
        Ok(Triples::of(stations))
    }

    /// No entry is hit.
    pub(crate) fn clear_hits(&mut self)
        ensures { self.new ≡ without_hits self.old }
    {
        self.reports.clear();
    }
}
