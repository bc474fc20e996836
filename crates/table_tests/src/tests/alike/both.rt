//! A chip and software after the same changes.
ghost use Rattle.std.specs.Prelude.{◌≡◌, ◌≢◌, ◌<◌, true};
ghost use Rattle.br_model.specs.Table.Change.{deferred};
ghost use Rattle.br_model.specs.Table.Domains.{Domains as DomainsValue, host, software};
ghost use Rattle.br_model.specs.Table.Table.{Table, apply, start};
ghost use Rattle.br_model.specs.declared.domains.Edition.TheVariants.{Two};
ghost use Rattle.chip_driver.specs.Drives.{Drives, IsTaken};

use crate::tests::common::assert_same;
use br_model::change::{Change, FORWARDING, Update};
use br_model::domains::{Domains, Edition};
use br_model::frame::{Class, Head, McastMsg};
use br_model::limits::MOST_CHANGES;
use br_model::numbers::{Dom, Port, Vid};
use chip_driver::Driver;
use chip_pipeline::pass;
use forward_rules::{SoftTables, Verdict};
use port_sets::Ports;
use std::alloc::Global;
use std::collections::VecDeque;
use std::marker::Model;
use std::process::Abort;
use switchdev_notify::{deliver, notice_of};

/// The last of the chips' ports, which go to the four chips in turn.
pub(crate) const LAST: u8 = 200;

/// The port of software, besides the host.
pub(crate) const SOFTWARE: u8 = 254;

/// How many chips there are.
const CHIPS: u8 = 4;

/// The rows of one chip, the software tables that took the same changes, and those that wait for the chip's turns. Rows and
/// tables are large, so they stand on the heap.
#[derive(Drop)]
pub(crate) struct Both {
    domains: Domains,
    driver: Box<Driver>,
    soft: Box<SoftTables>,
    waiting: VecDeque<Change>,
}

impl Model for Both {
    ghost use Rattle.br_model.specs.Table.Table.{Table};
    ghost use Rattle.table_tests.specs.Alike.{AreAlike};

    ghost Value = { Table };

    ghost view = { λ b. b.soft.value };

    ghost invariant = { λ b. AreAlike b.domains b.driver.value b.soft.value };
}

/// The domain of this number, which isn't software's.
fn domain(rt: &impl Abort, number: u8) -> Dom
    ensures { result ≢ software }
{
    let dom = Dom::new(number).expect(rt, "a domain");
    assert!(rt; dom != Dom::SOFTWARE);
    dom
}

/// The port of this number isn't the host.
fn port(rt: &impl Abort, number: u8) -> Port
    ensures { result ≢ host }
{
    let port = Port::new(number).expect(rt, "a port");
    assert!(rt; !port.is_host());
    port
}

/// The place of the chip that this one of the chips' ports is on.
pub(crate) fn place_of(port: Port) -> usize
    ensures { result < 4 }
{
    usize::from(port.number() % CHIPS)
}

fn declared(rt: &impl Abort, edition: Edition) -> Domains {
    let mut domains = Domains::make().with_edition(edition);
    for number in 1..=LAST {
        domains.set(port(rt, number), domain(rt, number % CHIPS + 1));
    }
    domains.set(port(rt, SOFTWARE), Dom::SOFTWARE);
    domains
}

/// The driver of the chip of a domain, before any change.
fn driver(rt: &impl Abort, alloc: Global, dom: Dom, domains: &Domains) -> Box<Driver>
    requires { dom ≢ software }
    ensures { Drives domains.now result.value start }
{
    let driver = Driver::make(alloc, dom, domains).expect(rt, "memory");
    Box::new(alloc, driver).expect(rt, "memory")
}

/// Software's tables, before any change.
fn soft(rt: &impl Abort, alloc: Global) -> Box<SoftTables>
    ensures { result.value ≡ start }
{
    let soft = SoftTables::make(alloc).expect(rt, "memory");
    Box::new(alloc, soft).expect(rt, "memory")
}

/// The chips and what software has beside each, before any change.
pub(crate) fn each_chip(rt: &impl Abort, alloc: Global, edition: Edition) -> [Both; 4] {
    [
        Both::make(rt, alloc, edition, 1),
        Both::make(rt, alloc, edition, 2),
        Both::make(rt, alloc, edition, 3),
        Both::make(rt, alloc, edition, 4),
    ]
}

/// Each port of a chip comes up, and VLAN 1 is that of its frames without a tag.
pub(crate) fn open(rt: &impl Abort, chips: &mut [Both; 4]) {
    let vid = Vid::new(1).expect(rt, "a VLAN");
    for number in 1..=LAST {
        let port = port(rt, number);
        accept(rt, chips, &Change::PortUp(port));
        accept(rt, chips, &Change::SetState(port, FORWARDING));
        accept(
            rt,
            chips,
            &Change::VlanAdd {
                port,
                vid,
                untagged: true,
                pvid: true,
            },
        );
    }
}

/// Each chip and its software get the change.
pub(crate) fn accept(rt: &impl Abort, chips: &mut [Both; 4], change: &Change) {
    for both in chips {
        both.accept(rt, change);
    }
}

/// The driver gets the change as its next update.
fn give(rt: &impl Abort, driver: &mut Driver, change: &Change)
    requires taken { IsTaken driver.old change.now }
    requires queued { deferred Two change.now ≡ true }
    ensures { (d : DomainsValue) (t : Table) → Drives d driver.old t → Drives d driver.new (apply t change.now) }
{
    let ticket = driver.count();
    assert!(rt; (ticket as usize) < MOST_CHANGES);
    let update = Update {
        ticket,
        change: *change,
    };
    driver.address(&update);
}

impl Both {
    /// The chip of the domain of this number, before any change.
    pub(crate) fn make(rt: &impl Abort, alloc: Global, edition: Edition, number: u8) -> Both {
        let domains = declared(rt, edition);
        let driver = driver(rt, alloc, domain(rt, number), &domains);
        Both {
            domains,
            driver,
            soft: soft(rt, alloc),
            waiting: VecDeque::new(alloc),
        }
    }

    /// The change was accepted: both make it where it fits, the chip as it is told, or it waits where it is deferred.
    pub(crate) fn accept(&mut self, rt: &impl Abort, change: &Change) {
        let edition = self.domains.edition();
        if change.is_deferred(edition) {
            self.waiting.push_back(*change).expect(rt, "memory");
        } else if self.soft.fits(change) {
            deliver(&mut *self.driver, &notice_of(change), edition);
            self.soft.apply(change);
        }
    }

    /// Both make the next change that waits.
    pub(crate) fn turn(&mut self, rt: &impl Abort) {
        if let Some(change) = self.waiting.pop_front() {
            self.take(rt, &change);
        }
    }

    /// Both make the change, which the chip gets as an update, where it fits.
    fn take(&mut self, rt: &impl Abort, change: &Change) {
        if !change.is_deferred(Edition::Two) {
            return;
        }
        if self.soft.fits(change) {
            give(rt, &mut *self.driver, change);
            self.soft.apply(change);
        }
    }

    /// Of a frame at a port of the chip, the chip decides what software decides, but for the ports that aren't the chip's. The
    /// answer is what becomes of it.
    pub(crate) fn assert_alike(
        &self,
        rt: &impl Abort,
        port: Port,
        head: &Head,
        message: &McastMsg,
    ) -> Class {
        let verdict = self.soft.decide(port, head, message, &self.domains);
        let pass = pass(self.driver.tables(), port, head, message);
        let ports = self.sent_by_chip(&verdict);
        assert_same(rt, &pass.class(), &verdict.class, "the class");
        assert_same(rt, &pass.vid(), &verdict.vid, "the VLAN");
        assert_same(rt, &pass.ports(), &ports, "the ports");
        assert_same(
            rt,
            &pass.untagged(),
            &verdict.untagged.and(ports),
            "those without a tag",
        );
        verdict.class
    }

    /// The ports by which the chip sends the frame: of one that it forwards or copies, its own.
    fn sent_by_chip(&self, verdict: &Verdict) -> Ports {
        match verdict.class {
            Class::Drop | Class::Trap => Ports::empty(),
            Class::Copy | Class::Forward => verdict
                .ports
                .and(self.domains.ports_of(self.driver.dom())),
        }
    }
}
