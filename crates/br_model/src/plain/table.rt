//! The table of a list of changes.
ghost use Rattle.std.specs.Prelude.{◌≡◌, OnOk, IfOk};
ghost use Rattle.std.specs.Ordering.{nat_cmp};
ghost use Rattle.br_model.specs.Data.Maps.{get};
ghost use Rattle.br_model.specs.Forward.Admission.{member};
ghost use Rattle.br_model.specs.Forward.Eligible.{untagged};
ghost use Rattle.br_model.specs.Table.Table.{Table as TableOf, start, apply as after_change, ip_version, table};

use crate::NoMemory;
use crate::change::{Change, DISABLED, Flags, Kind};
use crate::group::Group;
use crate::numbers::{Mac, Port, Vid};
use crate::plain::maps::{find, join, part, put, take};
use std::alloc::Global;
use std::collections::{BTreeMap, BTreeSet};
use std::marker::Model;

/// What a list of changes comes to. After want of memory it isn't used again.
#[derive(Drop)]
pub struct Table {
    up: BTreeSet<Port>,
    flags: BTreeMap<Port, Flags>,
    state: BTreeMap<Port, u8>,
    vlans: BTreeMap<(Vid, Port), bool>,
    pvid: BTreeMap<Port, Vid>,
    groups: BTreeSet<(Vid, Group, Port)>,
    routers: BTreeSet<Port>,
    queriers: BTreeSet<u8>,
    snoop: bool,
    stp: bool,
    addr: BTreeMap<(Vid, Mac), (Port, Kind)>,
}

impl Model for Table {
    ghost use Rattle.br_model.specs.Table.Table.{Table as TableOf};

    ghost Value = { TableOf };

    ghost view = { λ t. record {
      up = t.up.keys;
      flags = t.flags.entries;
      state = t.state.entries;
      vlans = t.vlans.entries;
      pvid = t.pvid.entries;
      groups = t.groups.keys;
      routers = t.routers.keys;
      queriers = t.queriers.keys;
      snoop = t.snoop;
      stp = t.stp;
      addr = t.addr.entries;
    } };
}

impl Table {
    /// No port is up, the host is an untagged member of VLAN 1, snooping is on, the spanning tree is off.
    pub fn start(alloc: Global) -> Result<Table, NoMemory>
        ensures { IfOk result (λ t. t ≡ start) }
    {
        let mut vlans = BTreeMap::new(alloc);
        put(&mut vlans, (Vid::DEFAULT, Port::HOST), true)?;
        Ok(Table {
            up: BTreeSet::new(alloc),
            flags: BTreeMap::new(alloc),
            state: BTreeMap::new(alloc),
            vlans,
            pvid: BTreeMap::new(alloc),
            groups: BTreeSet::new(alloc),
            routers: BTreeSet::new(alloc),
            queriers: BTreeSet::new(alloc),
            snoop: true,
            stp: false,
            addr: BTreeMap::new(alloc),
        })
    }

    /// That of these changes, in their order.
    pub fn of(alloc: Global, history: &[Change]) -> Result<Table, NoMemory>
        ensures { IfOk result (λ t. t ≡ table history.now) }
    {
        let mut table = Table::start(alloc)?;
        for change in history {
            table.apply(change)?;
        }
        Ok(table)
    }

    /// By VLAN and address.
    pub fn addresses(&self) -> &BTreeMap<(Vid, Mac), (Port, Kind)>
        ensures { result.now.entries ≡ self.now.addr }
    {
        &self.addr
    }

    /// The members of VLANs, by VLAN and port: whether frames leave untagged.
    pub fn memberships(&self) -> &BTreeMap<(Vid, Port), bool>
        ensures { result.now.entries ≡ self.now.vlans }
    {
        &self.vlans
    }

    /// The members of groups, by VLAN, group and port.
    pub fn groups(&self) -> &BTreeSet<(Vid, Group, Port)>
        ensures { result.now.keys ≡ self.now.groups }
    {
        &self.groups
    }

    /// The VLAN of the port's untagged frames.
    pub fn pvid(&self, port: Port) -> Option<Vid>
        ensures { result ≡ get nat_cmp self.now.pvid port }
    {
        find(&self.pvid, &port)
    }

    fn port_up(&mut self, port: Port) -> Result<(), NoMemory>
        ensures { OnOk result (self.new ≡ after_change self.old (Change.PortUp port)) }
    {
        join(&mut self.up, port)?;
        put(&mut self.flags, port, Flags::DEFAULT)?;
        put(&mut self.state, port, DISABLED)
    }

    fn port_down(&mut self, port: Port)
        ensures { self.new ≡ after_change self.old (Change.PortDown port) }
    {
        part(&mut self.up, &port);
        take(&mut self.flags, &port);
        take(&mut self.state, &port);
    }

    fn add_vlan(&mut self, port: Port, vid: Vid, untagged: bool, pvid: bool) -> Result<(), NoMemory>
        ensures { OnOk result (self.new ≡ after_change self.old (Change.VlanAdd port vid untagged pvid)) }
    {
        put(&mut self.vlans, (vid, port), untagged)?;
        if pvid {
            put(&mut self.pvid, port, vid)?;
        }
        Ok(())
    }

    fn delete_vlan(&mut self, port: Port, vid: Vid)
        ensures { self.new ≡ after_change self.old (Change.VlanDel port vid) }
    {
        take(&mut self.vlans, &(vid, port));
        if find(&self.pvid, &port) == Some(vid) {
            take(&mut self.pvid, &port);
        }
    }

    fn set_router(&mut self, port: Port, on: bool) -> Result<(), NoMemory>
        ensures { OnOk result (self.new ≡ after_change self.old (Change.Router port on)) }
    {
        if on {
            join(&mut self.routers, port)?;
        } else {
            part(&mut self.routers, &port);
        }
        Ok(())
    }

    fn set_querier(&mut self, six: bool, on: bool) -> Result<(), NoMemory>
        ensures { OnOk result (self.new ≡ after_change self.old (Change.Querier six on)) }
    {
        let version = version_of(six);
        if on {
            join(&mut self.queriers, version)?;
        } else {
            part(&mut self.queriers, &version);
        }
        Ok(())
    }

    /// What the table is after one more change.
    pub fn apply(&mut self, change: &Change) -> Result<(), NoMemory>
        ensures { OnOk result (self.new ≡ after_change self.old change.now) }
    {
        match *change {
            Change::PortUp(port) => self.port_up(port)?,
            Change::PortDown(port) => self.port_down(port),
            Change::SetFlags(port, flags) => put(&mut self.flags, port, flags)?,
            Change::SetState(port, state) => put(&mut self.state, port, state)?,
            Change::VlanAdd {
                port,
                vid,
                untagged,
                pvid,
            } => self.add_vlan(port, vid, untagged, pvid)?,
            Change::VlanDel { port, vid } => self.delete_vlan(port, vid),
            Change::GroupJoin { port, vid, group } => join(&mut self.groups, (vid, group, port))?,
            Change::GroupPart { port, vid, group } => part(&mut self.groups, &(vid, group, port)),
            Change::Router { port, on } => self.set_router(port, on)?,
            Change::Querier { six, on } => self.set_querier(six, on)?,
            Change::Snoop(on) => self.snoop = on,
            Change::Stp(on) => self.stp = on,
            Change::AddrPut {
                vid,
                mac,
                port,
                kind,
            } => put(&mut self.addr, (vid, mac), (port, kind))?,
            Change::AddrDel { vid, mac } => take(&mut self.addr, &(vid, mac)),
        }
        Ok(())
    }

    pub fn is_member(&self, port: Port, vid: Vid) -> bool
        ensures { result ≡ member self.now port vid }
    {
        find(&self.vlans, &(vid, port)).is_some()
    }

    /// Whether the VLAN's frames leave the port without a tag.
    pub fn is_untagged(&self, port: Port, vid: Vid) -> bool
        ensures { result ≡ untagged self.now port vid }
    {
        find(&self.vlans, &(vid, port)).unwrap_or(false)
    }
}

fn version_of(six: bool) -> u8
    ensures { result ≡ ip_version six }
{
    if six { 6 } else { 4 }
}
