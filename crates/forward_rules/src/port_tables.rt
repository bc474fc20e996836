//! All parts of the table but the addresses.
ghost use Rattle.std.specs.Prelude.{◌≡◌, ◌==◌, ◌&&◌, ◌||◌, ◌∷◌, true, IfOk, IsTrue, Some};
ghost use Rattle.std.specs.Ordering.{nat_cmp};
ghost use Rattle.br_model.specs.Forward.Admission.{is_up, is_in_state, is_forwarding, member, vlan_of_tag, vlan_of, admit};
ghost use Rattle.br_model.specs.Forward.Class.{is_snooped};
ghost use Rattle.br_model.specs.Control.Commands.Groups.{is_joined};
ghost use Rattle.br_model.specs.Table.Domains.{host};
ghost use Rattle.br_model.specs.Forward.Eligible.{untagged, may};
ghost use Rattle.br_model.specs.Table.GroupPairs.{has_room};
ghost use Rattle.br_model.specs.Control.Learning.{may_teach};
ghost use Rattle.br_model.specs.Table.Limits.{fits};
ghost use Rattle.br_model.specs.Data.Maps.{get, has};
ghost use Rattle.br_model.specs.Data.Numbers.{is_multicast};
ghost use Rattle.br_model.specs.Table.Table.{start, apply};
ghost use Rattle.br_model.specs.Forward.Targets.{bridge_group_address, pause_address, bcast_flood, has_flag, isolated, knows_querier, multicast_flood, to_routers, to_members, snooped_targets, targets, to_tree, with_flag, flood};
ghost use Rattle.br_model.specs.declared.change.Change.TheVariants as Change;
ghost use Rattle.mdb_snoop.specs.Database.{pairs_of_port};
ghost use Rattle.vlan_groups.specs.Rows.{ports_where};
ghost use Rattle.vlan_groups.specs.Vlans.{vids_of};
ghost use Rattle.forward_rules.specs.PortSets.{ArePorts, set_of};
ghost use Rattle.forward_rules.specs.Verdicts.{ports_after};

use crate::NoMemory;
use crate::flag_table::FlagTable;
use crate::place::placed;
use crate::state_table::StateTable;
use br_model::change::{Change, DISABLED, FORWARDING, Flags, LEARNING};
use br_model::frame::{Head, McastMsg, Tag};
use br_model::group::Group;
use br_model::numbers::{Mac, Port, Vid};
use mdb_snoop::{Pairs, Snooped};
use port_sets::Ports;
use std::alloc::Global;
use std::marker::Model;
use vlan_groups::{Vids, VlanTable};

/// Ports, VLANs and groups: the table that a list of changes comes to, but for the addresses, of which it has none.
#[derive(Drop)]
pub struct PortTables {
    up: Ports,
    flags: FlagTable,
    states: StateTable,
    vlans: VlanTable,
    mdb: Snooped,
    snoop: bool,
    stp: bool,
}

impl Model for PortTables {
    ghost use Rattle.std.specs.Prelude.{[]};
    ghost use Rattle.br_model.specs.Table.Table.{Table};

    ghost Value = { Table };

    ghost view = { λ t. record {
      up = t.up;
      flags = t.flags;
      state = t.states;
      vlans = t.vlans.vlans;
      pvid = t.vlans.pvid;
      groups = t.mdb.groups;
      routers = t.mdb.routers;
      queriers = t.mdb.queriers;
      snoop = t.snoop;
      stp = t.stp;
      addr = [];
    } };
}

impl PortTables {
    /// No port is up, the host is an untagged member of VLAN 1, snooping is on, the spanning tree is off.
    pub fn make(alloc: Global) -> Result<PortTables, NoMemory>
        ensures { IfOk result (λ t. t ≡ start) }
    {
        Ok(PortTables {
            up: Ports::empty(),
            flags: FlagTable::empty(),
            states: StateTable::empty(),
            vlans: VlanTable::make(alloc)?,
            mdb: Snooped::make(alloc)?,
            snoop: true,
            stp: false,
        })
    }

    /// What the table is after one more change. Those of addresses change nothing here.
    pub fn apply(&mut self, c: &Change)
        requires { IsTrue (fits self.old c.now) }
        ensures { self.new ≡ ports_after self.old c.now }
    {
        match *c {
            Change::PortUp(port) => self.port_up(port),
            Change::PortDown(port) => self.port_down(port),
            Change::SetFlags(port, flags) => self.flags.set(port, flags),
            Change::SetState(port, state) => self.states.set(port, state),
            Change::VlanAdd {
                port,
                vid,
                untagged,
                pvid,
            } => self.vlans.put(port, vid, untagged, pvid),
            Change::VlanDel { port, vid } => self.vlans.remove(port, vid),
            Change::GroupJoin { port, vid, group } => self.mdb.join(vid, group, port),
            Change::GroupPart { port, vid, group } => self.mdb.part(vid, group, port),
            Change::Router { port, on } => self.mdb.set_router(port, on),
            Change::Querier { six, on } => self.mdb.set_querier(six, on),
            Change::Snoop(on) => self.snoop = on,
            Change::Stp(on) => self.stp = on,
            Change::AddrPut { .. } | Change::AddrDel { .. } => {}
        }
    }

    fn port_up(&mut self, port: Port)
        ensures { self.new ≡ apply self.old (Change.PortUp port) }
    {
        // law: the members ascend
        self.up.members_ascend();
        self.up = self.up.with(port.number());
        self.flags.set(port, Flags::DEFAULT);
        self.states.set(port, DISABLED);
    }

    fn port_down(&mut self, port: Port)
        ensures { self.new ≡ apply self.old (Change.PortDown port) }
    {
        // law: the members ascend
        self.up.members_ascend();
        self.up = self.up.without(port.number());
        self.flags.clear(port);
        self.states.clear(port);
    }

    /// Whether a member of the group in the VLAN can be joined: there is one already, or the pair would be no 1,025th.
    pub fn has_room(&self, vid: Vid, group: Group) -> bool
        ensures { result ≡ has_room self.now.groups vid group }
    {
        self.mdb.has_room(vid, group)
    }

    pub fn is_up(&self, port: Port) -> bool
        ensures { result ≡ is_up self.now port }
    {
        self.up.has(port.number())
    }

    /// The flags of a port, which one that is down may lack.
    pub fn flags(&self, port: Port) -> Option<Flags>
        ensures { result ≡ get nat_cmp self.now.flags port }
    {
        self.flags.of(port)
    }

    /// The state of a port by Linux's number, 0 to 4, which one that is down may lack.
    pub fn state(&self, port: Port) -> Option<u8>
        ensures { result ≡ get nat_cmp self.now.state port }
    {
        self.states.of(port)
    }

    /// Whether the port is a member of the VLAN.
    pub fn member(&self, port: Port, vid: Vid) -> bool
        ensures { result ≡ member self.now port vid }
    {
        self.vlans.member(port, vid)
    }

    /// The VLANs of which the port is a member, ascending. It looks at no other.
    pub fn vids_of(&self, alloc: Global, port: Port) -> Result<Vids, NoMemory>
        ensures { IfOk result (λ vids. vids ≡ vids_of self.now.vlans port) }
    {
        self.vlans.vids_of(alloc, port)
    }

    /// The groups in VLANs of which the port is a member.
    pub fn groups_of(&self, alloc: Global, port: Port) -> Result<Pairs, NoMemory>
        ensures { IfOk result (λ pairs. pairs ≡ pairs_of_port self.now.groups port) }
    {
        self.mdb.of_port(alloc, port)
    }

    /// Whether the port is a member of the group in the VLAN.
    pub fn is_joined(&self, port: Port, vid: Vid, group: Group) -> bool
        ensures { result ≡ is_joined self.now port vid group }
    {
        self.mdb.has(vid, group, port)
    }

    /// Whether a multicast router is known behind the port.
    pub fn is_router(&self, port: Port) -> bool
        ensures { result ≡ has nat_cmp self.now.routers port }
    {
        self.mdb.routers().has(port.number())
    }

    /// Whether a querier of IP version 4 or 6 is known.
    pub fn knows_querier(&self, six: bool) -> bool
        ensures { result ≡ knows_querier self.now six }
    {
        self.mdb.querier(six)
    }

    /// Whether multicast snooping is on.
    pub fn snoop(&self) -> bool
        ensures { result ≡ self.now.snoop }
    {
        self.snoop
    }

    /// Whether the spanning tree is on.
    pub fn stp(&self) -> bool
        ensures { result ≡ self.now.stp }
    {
        self.stp
    }

    /// Whether the port is up, in the state of this number.
    fn is_in_state(&self, port: Port, state: u8) -> bool
        ensures { result ≡ is_in_state self.now port state }
    {
        self.is_up(port) && self.states.is_in(port, state)
    }

    fn is_forwarding(&self, port: Port) -> bool
        ensures { result ≡ is_forwarding self.now port }
    {
        self.is_in_state(port, FORWARDING)
    }

    /// The VLAN that the frame's tag, or its absence, gives at the port.
    pub fn vlan_of(&self, port: Port, head: &Head) -> Option<Vid>
        ensures { result ≡ vlan_of self.now port head.now }
    {
        match head.tag {
            None => self.vlans.pvid(port),
            Some(tag) => self.vlan_of_tag(port, tag),
        }
    }

    fn vlan_of_tag(&self, port: Port, tag: Tag) -> Option<Vid>
        ensures { result ≡ vlan_of_tag self.now port (Some tag) }
    {
        if tag.vid == 0 {
            return self.vlans.pvid(port);
        }
        match Vid::new(tag.vid) {
            Some(vid) if self.vlans.member(port, vid) => Some(vid),
            Some(_) | None => None,
        }
    }

    /// The VLAN in which the port admits the frame.
    pub fn admit(&self, port: Port, head: &Head) -> Option<Vid>
        ensures { result ≡ admit self.now port head.now }
    {
        if self.is_forwarding(port) && head.has_valid_source() {
            self.vlan_of(port, head)
        } else {
            None
        }
    }

    /// Whether the port learns addresses of the VLAN.
    pub fn may_teach(&self, port: Port, vid: Vid) -> bool
        ensures { result ≡ may_teach self.now port vid }
    {
        (self.is_in_state(port, LEARNING) || self.is_forwarding(port))
            && self.flags.has_flag(port, Flags::LEARNING)
            && self.vlans.member(port, vid)
    }

    /// Whether the frame is for the spanning tree.
    pub fn is_for_tree(&self, port: Port, head: &Head) -> bool
        ensures { result ≡ to_tree self.now port head.now }
    {
        head.dst.number() == Mac::BRIDGE_GROUP_ADDRESS
            && self.stp
            && self.up.has(port.number())
            && head.has_valid_source()
    }

    /// The members that the VLAN's frames leave without a tag.
    pub fn untagged_of(&self, vid: Vid) -> Ports
        ensures { result ≡ ports_where (λ q. untagged self.now q vid) }
    {
        self.vlans.untagged_of(vid)
    }

    /// Whether the port is a member that the VLAN's frames leave without a tag.
    pub fn is_untagged(&self, port: Port, vid: Vid) -> bool
        ensures { result ≡ untagged self.now port vid }
    {
        self.vlans.untagged(port, vid)
    }

    /// Whether a port may take a frame of the VLAN that came by another.
    pub fn may_take(&self, from: Port, to: Port, vid: Vid) -> bool
        ensures { result ≡ may self.now from to vid }
    {
        if to.is_host() {
            return self.vlans.member(to, vid);
        }
        to != from
            && self.is_forwarding(to)
            && self.vlans.member(to, vid)
            && !self.are_isolated(from, to)
    }

    /// Whether both ports have the flag `isolated`.
    fn are_isolated(&self, port: Port, other: Port) -> bool
        ensures { result ≡ (has_flag self.now port isolated && has_flag self.now other isolated) }
    {
        self.flags.has_flag(port, Flags::ISOLATED) && self.flags.has_flag(other, Flags::ISOLATED)
    }

    /// The ports that may take a frame of the VLAN that came by this port.
    pub fn eligible(&self, port: Port, vid: Vid) -> Ports
        ensures value { result ≡ ports_where (λ q. may self.now port q vid) }
        ensures ports { ArePorts result }
    {
        let members = self.vlans.ports_of(vid);
        let forwarding = self.up.and(self.states.forwarding());
        let others = members.and(forwarding).without(port.number());
        let isolated = self.flags.isolated();
        let allowed = if isolated.has(port.number()) {
            others.minus(isolated)
        } else {
            others
        };
        placed(allowed, Port::HOST, members.has(Port::HOST.number()))
    }

    /// The ports that are up and have the flag `flood`.
    pub fn flood(&self) -> Ports
        ensures { result ≡ set_of (with_flag self.now flood) }
    {
        self.up.and(self.flags.flood())
    }

    fn broadcast_flood(&self) -> Ports
        ensures { result ≡ set_of (host ∷ with_flag self.now bcast_flood) }
    {
        self.up
            .and(self.flags.bcast_flood())
            .with(Port::HOST.number())
    }

    fn multicast_flood(&self) -> Ports
        ensures { result ≡ set_of (multicast_flood self.now) }
    {
        self.up
            .and(self.flags.mcast_flood())
            .with(Port::HOST.number())
    }

    fn to_routers(&self, six: bool) -> Ports
        ensures { result ≡ set_of (to_routers self.now six) }
    {
        if self.mdb.querier(six) {
            let routers = self.mdb.routers();
            // law: the members ascend
            routers.members_ascend();
            routers
        } else {
            self.multicast_flood()
        }
    }

    fn to_members(&self, vid: Vid, group: Group) -> Ports
        ensures { result ≡ set_of (to_members self.now vid group) }
    {
        if group.is_link_local() || !self.mdb.querier(group.is_six()) {
            self.multicast_flood()
        } else {
            let members = self.mdb.members(vid, group);
            let routers = self.mdb.routers();
            // law: the members of both ascend
            members.members_ascend();
            routers.members_ascend();
            members.or(routers)
        }
    }

    fn snooped_targets(&self, vid: Vid, msg: &McastMsg) -> Ports
        ensures { result ≡ set_of (snooped_targets self.now vid msg.now) }
    {
        match *msg {
            McastMsg::Plain | McastMsg::Query { .. } | McastMsg::Unrecognized => {
                self.multicast_flood()
            }
            McastMsg::Payload(group) => self.to_members(vid, group),
            McastMsg::Report(group) | McastMsg::Leave(group) => self.to_routers(group.is_six()),
            McastMsg::Records { six, .. } => self.to_routers(six),
        }
    }

    /// Whether no port is to have the frame: it is for the spanning tree, or a PAUSE frame.
    fn is_for_nobody(&self, head: &Head) -> bool
        ensures { result ≡ ((head.now.dst == bridge_group_address && self.now.stp) || head.now.dst == pause_address) }
    {
        let address = head.dst.number();
        (address == Mac::BRIDGE_GROUP_ADDRESS && self.stp) || address == Mac::PAUSE_ADDRESS
    }

    /// Where an admitted frame to a group address is to go.
    pub fn group_targets(&self, vid: Vid, head: &Head, msg: &McastMsg) -> Ports
        requires { is_multicast head.now.dst ≡ true }
        ensures { result ≡ set_of (targets self.now vid head.now msg.now) }
    {
        if self.is_for_nobody(head) {
            Ports::empty()
        } else if head.dst.is_for_the_host() {
            Ports::empty().with(Port::HOST.number())
        } else if head.dst.number() == Mac::BROADCAST_ADDRESS {
            self.broadcast_flood()
        } else if self.snoop {
            self.snooped_targets(vid, msg)
        } else {
            self.multicast_flood()
        }
    }

    /// Whether snooping is on and wants to see the message.
    pub fn snoops(&self, msg: &McastMsg) -> bool
        ensures { result ≡ (self.now.snoop && is_snooped msg.now) }
    {
        self.snoop && msg.is_snooped()
    }
}
