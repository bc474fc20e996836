//! The whole table, and what it decides of a frame.
ghost use Rattle.std.specs.Prelude.{◌≡◌, nat_lt, ◌&&◌, ◌||◌, [], false, length, if◌then◌else◌, IfOk, IsTrue, None, Some};
ghost use Rattle.std.specs.Option.{is_some};
ghost use Rattle.br_model.specs.Control.Learning.{may_teach};
ghost use Rattle.br_model.specs.Forward.Admission.{admit, vlan_of};
ghost use Rattle.br_model.specs.Forward.Class.{class, is_snooped};
ghost use Rattle.br_model.specs.Table.Domains.{host};
ghost use Rattle.br_model.specs.Forward.Leave.{ports_out};
ghost use Rattle.br_model.specs.Forward.Untagged.{untagged_among};
ghost use Rattle.br_model.specs.Table.Limits.{fits, most_addresses};
ghost use Rattle.br_model.specs.Data.Maps.{pair_cmp, get};
ghost use Rattle.br_model.specs.Table.Table.{start, apply};
ghost use Rattle.br_model.specs.Forward.Targets.{is_for_the_host, port_of, targets, to_tree};
ghost use Rattle.port_sets.specs.Numbers.{has_number};
ghost use Rattle.forward_rules.specs.PortSets.{set_of};
ghost use Rattle.forward_rules.specs.Verdicts.{known_port};
ghost use Rattle.br_model.specs.declared.change.Change.TheVariants as Change;
ghost use Rattle.br_model.specs.declared.frame.Class.TheVariants.{Drop, Forward, Trap};

use crate::NoMemory;
use crate::foreign::{class_by, is_foreign};
use crate::place::placed;
use crate::port_tables::PortTables;
use br_model::change::{Asks, BLOCKING, Change, Kind};
use br_model::domains::Domains;
use br_model::frame::{Class, Head, McastMsg};
use br_model::limits::MOST_ADDRESSES;
use br_model::numbers::{Mac, Port, Vid};
use fdb_core::Stations;
use port_sets::Ports;
use std::alloc::Global;
use std::marker::Model;

/// What a table decides of a frame.
#[derive(Clone, Copy, PartialEq, Eq, Debug)]
pub struct Verdict {
    /// What a chip does with it.
    pub class: Class,
    /// The VLAN in which it was admitted.
    pub vid: Option<Vid>,
    /// The ports that it leaves, of one bridge.
    pub ports: Ports,
    /// Those of them that it leaves without a tag.
    pub untagged: Ports,
}

/// The table that a list of changes comes to.
#[derive(Drop)]
pub struct SoftTables {
    ports: PortTables,
    fdb: Stations,
}

impl Model for SoftTables {
    ghost use Rattle.std.specs.Prelude.{◌≡◌};
    ghost use Rattle.br_model.specs.Table.Limits.{most_addresses};
    ghost use Rattle.br_model.specs.Table.Table.{Table, with_addresses};

    ghost Value = { Table };

    ghost view = { λ t. with_addresses t.ports t.fdb.entries };

    ghost invariant = { λ t. t.fdb.room ≡ most_addresses };
}

impl SoftTables {
    /// Takes the memory for all that the table can hold.
    pub fn make(alloc: Global) -> Result<SoftTables, NoMemory>
        ensures { IfOk result (λ t. t ≡ start) }
    {
        Ok(SoftTables {
            ports: PortTables::make(alloc)?,
            fdb: Stations::make(alloc, MOST_ADDRESSES)?,
        })
    }

    /// Whether the table holds its limits after the change.
    pub fn fits(&self, change: &Change) -> bool
        ensures { result ≡ fits self.now change.now }
    {
        match change.asks() {
            Asks::Nothing => true,
            Asks::State(state) => state <= BLOCKING,
            Asks::GroupRoom(vid, group) => self.ports.has_room(vid, group),
            Asks::AddressRoom(vid, mac) => self.has_room_at(vid, mac),
        }
    }

    fn has_room_at(&self, vid: Vid, mac: Mac) -> bool
        ensures { result ≡ (is_some (get pair_cmp self.now.addr (vid, mac)) || nat_lt (length self.now.addr) most_addresses) }
    {
        self.fdb.len() < MOST_ADDRESSES || self.fdb.find(vid, mac).is_some()
    }

    /// What the table is after one more change.
    pub fn apply(&mut self, c: &Change)
        requires { IsTrue (fits self.old c.now) }
        ensures { self.new ≡ apply self.old c.now }
    {
        match *c {
            Change::AddrPut {
                vid,
                mac,
                port,
                kind,
            } => self.put_address(vid, mac, port, kind),
            Change::AddrDel { vid, mac } => self.fdb.take(vid, mac),
            _ => self.ports.apply(c),
        }
    }

    fn put_address(&mut self, vid: Vid, mac: Mac, port: Port, kind: Kind)
        requires { IsTrue (fits self.old (Change.AddrPut vid mac port kind)) }
        ensures { self.new ≡ apply self.old (Change.AddrPut vid mac port kind) }
    {
        self.fdb.put(vid, mac, port, kind);
    }

    /// The VLAN in which the port admits the frame.
    pub fn admit(&self, p: Port, h: &Head) -> Option<Vid>
        ensures { result ≡ admit self.now p h.now }
    {
        self.ports.admit(p, h)
    }

    /// The VLAN that the frame's tag, or its absence, gives at the port.
    pub fn vlan_of(&self, port: Port, head: &Head) -> Option<Vid>
        ensures { result ≡ vlan_of self.now port head.now }
    {
        self.ports.vlan_of(port, head)
    }

    /// Whether the port learns addresses of the VLAN.
    pub fn may_teach(&self, port: Port, vid: Vid) -> bool
        ensures { result ≡ may_teach self.now port vid }
    {
        self.ports.may_teach(port, vid)
    }

    /// Whether the spanning tree is on.
    pub fn stp(&self) -> bool
        ensures { result ≡ self.now.stp }
    {
        self.ports.stp()
    }

    /// What a chip does with the frame, and where it goes. The message is the one that the frame says to snooping.
    pub fn decide(&self, p: Port, h: &Head, m: &McastMsg, d: &Domains) -> Verdict
        ensures class { result.class ≡ class d.now self.now p h.now m.now }
        ensures vid { result.vid ≡ admit self.now p h.now }
        ensures ports { result.ports ≡ ports_out self.now p h.now m.now }
        ensures untagged { result.untagged ≡ untagged_among self.now result.vid result.ports }
    {
        let vid = self.ports.admit(p, h);
        if self.ports.is_for_tree(p, h) {
            return nowhere(Class::Trap, vid);
        }
        match vid {
            None => nowhere(Class::Drop, None),
            Some(vid) => self.decide_in(p, vid, h, m, d),
        }
    }

    fn decide_in(&self, p: Port, vid: Vid, h: &Head, m: &McastMsg, d: &Domains) -> Verdict
        requires other { to_tree self.now p h.now ≡ false }
        requires admitted { admit self.now p h.now ≡ Some vid }
        ensures class { result.class ≡ class d.now self.now p h.now m.now }
        ensures vid { result.vid ≡ Some vid }
        ensures ports { result.ports ≡ ports_out self.now p h.now m.now }
        ensures untagged { result.untagged ≡ untagged_among self.now result.vid result.ports }
    {
        match self.known_port(vid, h.dst) {
            Some(goal) => self.to_station(p, vid, goal, h, m, d),
            None => self.to_many(p, vid, h, m, d),
        }
    }

    /// Of a frame to the known station behind a port, or to the host.
    fn to_station(
        &self,
        p: Port,
        vid: Vid,
        goal: Port,
        h: &Head,
        m: &McastMsg,
        d: &Domains,
    ) -> Verdict
        requires other { to_tree self.now p h.now ≡ false }
        requires admitted { admit self.now p h.now ≡ Some vid }
        requires known { known_port self.now vid h.now.dst ≡ Some goal }
        ensures class { result.class ≡ class d.now self.now p h.now m.now }
        ensures vid { result.vid ≡ Some vid }
        ensures ports { result.ports ≡ ports_out self.now p h.now m.now }
        ensures untagged { result.untagged ≡ untagged_among self.now result.vid result.ports }
    {
        // law: the port is in range
        let _number = goal.number();
        let takes = self.ports.may_take(p, goal, vid);
        let is_trapped = self.snoops_or_crosses(m, takes, is_foreign(d, p, goal));
        let untagged = takes && self.ports.is_untagged(goal, vid);
        Verdict {
            class: class_to_one(is_trapped, takes),
            vid: Some(vid),
            ports: placed(Ports::empty(), goal, takes),
            untagged: placed(Ports::empty(), goal, untagged),
        }
    }

    /// Whether snooping wants to see the message, or a port of another domain takes it.
    fn snoops_or_crosses(&self, m: &McastMsg, takes: bool, foreign: bool) -> bool
        ensures { result ≡ ((self.now.snoop && is_snooped m.now) || (foreign && takes)) }
    {
        self.ports.snoops(m) || (foreign && takes)
    }

    /// Of a frame to a group, to all, or to a station that isn't known.
    fn to_many(&self, p: Port, vid: Vid, h: &Head, m: &McastMsg, d: &Domains) -> Verdict
        requires other { to_tree self.now p h.now ≡ false }
        requires admitted { admit self.now p h.now ≡ Some vid }
        requires unknown { known_port self.now vid h.now.dst ≡ None }
        ensures class { result.class ≡ class d.now self.now p h.now m.now }
        ensures vid { result.vid ≡ Some vid }
        ensures ports { result.ports ≡ ports_out self.now p h.now m.now }
        ensures untagged { result.untagged ≡ untagged_among self.now result.vid result.ports }
    {
        let eligible = self.ports.eligible(p, vid);
        let ports = self.targets(vid, h, m).and(eligible);
        let is_trapped = self.ports.snoops(m) || reaches_host(h, &eligible);
        let class = if is_trapped {
            Class::Trap
        } else {
            class_by(d, p, ports)
        };
        Verdict {
            class,
            vid: Some(vid),
            ports,
            untagged: ports.and(self.ports.untagged_of(vid)),
        }
    }

    /// The port behind which a known station is.
    fn known_port(&self, vid: Vid, address: Mac) -> Option<Port>
        ensures { result ≡ known_port self.now vid address }
    {
        if address.is_multicast() {
            return None;
        }
        let entry = self.fdb.find(vid, address)?;
        Some(port_of(entry))
    }

    /// Where an admitted frame of the VLAN is to go, but for one to a known station.
    fn targets(&self, vid: Vid, h: &Head, m: &McastMsg) -> Ports
        requires { known_port self.now vid h.now.dst ≡ None }
        ensures { result ≡ set_of (targets self.now vid h.now m.now) }
    {
        if h.dst.is_multicast() {
            self.ports.group_targets(vid, h, m)
        } else {
            self.ports.flood()
        }
    }
}

/// Where an entry sends: the host for a local one.
fn port_of(entry: (Port, Kind)) -> Port
    ensures { result ≡ port_of entry }
{
    match entry.1 {
        Kind::Local => Port::HOST,
        Kind::Static | Kind::Learned | Kind::Extern => entry.0,
    }
}

fn nowhere(class: Class, vid: Option<Vid>) -> Verdict
    ensures { result ≡ record { class = class; vid = vid; ports = []; untagged = [] } }
{
    Verdict {
        class,
        vid,
        ports: Ports::empty(),
        untagged: Ports::empty(),
    }
}

/// Whether the frame is for the host by its reserved destination, and the host may take it.
fn reaches_host(head: &Head, eligible: &Ports) -> bool
    ensures { result ≡ (is_for_the_host head.now.dst && has_number eligible.now host) }
{
    head.dst.is_for_the_host() && eligible.has(Port::HOST.number())
}

/// The class of a frame to one port, which may take it or not.
fn class_to_one(is_trapped: bool, takes: bool) -> Class
    ensures { result ≡ (if is_trapped then Trap else if takes then Forward else Drop) }
{
    if is_trapped {
        Class::Trap
    } else if takes {
        Class::Forward
    } else {
        Class::Drop
    }
}
