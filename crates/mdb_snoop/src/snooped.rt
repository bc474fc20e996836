//! The multicast database where nothing ends.
ghost use Rattle.std.specs.Prelude.{◌≡◌, IsTrue, IfOk, []};
ghost use Rattle.std.specs.Ordering.{nat_cmp};
ghost use Rattle.br_model.specs.Table.GroupPairs.{has_room};
ghost use Rattle.br_model.specs.Table.Groups.{membership_cmp};
ghost use Rattle.br_model.specs.Data.Maps.{has, joined, parted};
ghost use Rattle.br_model.specs.Table.Table.{Table, ip_version, switched};
ghost use Rattle.br_model.specs.Forward.Targets.{members_of, knows_querier};
ghost use Rattle.mdb_snoop.specs.Database.{pairs_of_port, ports_in};

use crate::NoMemory;
use crate::ended::Pairs;
use crate::groups::Groups;
use br_model::group::Group;
use br_model::numbers::{Port, Vid};
use port_sets::Ports;
use std::alloc::Global;
use std::marker::Model;

/// Members of groups, router ports and queriers, of which none ends.
#[derive(Drop)]
pub struct Snooped {
    groups: Groups,
    routers: Ports,
    four: bool,
    six: bool,
}

impl Model for Snooped {
    ghost use Rattle.mdb_snoop.specs.Database.{Known, versions};

    ghost Value = { Known };

    ghost view = { λ s. record { groups = s.groups; routers = s.routers; queriers = versions s.four s.six } };
}

impl Snooped {
    /// Takes the room for all that it can hold.
    pub fn make(alloc: Global) -> Result<Snooped, NoMemory>
        ensures { IfOk result (λ s. s ≡ record { groups = []; routers = []; queriers = [] }) }
    {
        Ok(Snooped {
            groups: Groups::make(alloc)?,
            routers: Ports::empty(),
            four: false,
            six: false,
        })
    }

    /// Whether a member of the group in the VLAN can be joined: there is one already, or the pair would be no 1,025th.
    pub fn has_room(&self, vid: Vid, group: Group) -> bool
        ensures { result ≡ has_room self.now.groups vid group }
    {
        self.groups.has_room(vid, group)
    }

    /// Whether the port is a member of the group in the VLAN.
    pub fn has(&self, vid: Vid, group: Group, port: Port) -> bool
        ensures { result ≡ has membership_cmp self.now.groups (vid, group, port) }
    {
        self.groups.has(vid, group, port)
    }

    pub fn join(&mut self, v: Vid, g: Group, p: Port)
        requires { IsTrue (has_room self.old.groups v g) }
        ensures { self.new ≡ record self.old { groups = joined membership_cmp self.old.groups (v, g, p) } }
    {
        self.groups.join(v, g, p);
    }

    pub fn part(&mut self, v: Vid, g: Group, p: Port)
        ensures { self.new ≡ record self.old { groups = parted membership_cmp self.old.groups (v, g, p) } }
    {
        self.groups.part(v, g, p);
    }

    /// Puts a router behind the port, or none.
    pub fn set_router(&mut self, port: Port, on: bool)
        ensures { self.new ≡ record self.old { routers = switched on self.old.routers port } }
    {
        // law: the members ascend
        self.routers.members_ascend();
        let number = port.number();
        if on {
            self.routers = self.routers.with(number);
        } else {
            self.routers = self.routers.without(number);
        }
    }

    /// A querier of IP version 4 or 6 is known from now on, or none.
    pub fn set_querier(&mut self, six: bool, on: bool)
        ensures { self.new ≡ record self.old { queriers = switched on self.old.queriers (ip_version six) } }
    {
        if six {
            self.six = on;
        } else {
            self.four = on;
        }
    }

    /// The groups in VLANs of which the port is a member.
    pub fn of_port(&self, alloc: Global, p: Port) -> Result<Pairs, NoMemory>
        ensures { IfOk result (λ pairs. pairs ≡ pairs_of_port self.now.groups p) }
    {
        self.groups.of_port(alloc, p)
    }

    /// The ports that are members of the group in the VLAN.
    pub fn members(&self, v: Vid, g: Group) -> Ports
        ensures value { result ≡ ports_in self.now.groups v g }
        ensures table { (t : Table) → t.groups ≡ self.now.groups → result ≡ members_of t v g }
    {
        self.groups.members(v, g)
    }

    /// The ports behind which a multicast router is.
    pub fn routers(&self) -> Ports
        ensures { result ≡ self.now.routers }
    {
        self.routers
    }

    /// Whether a querier of IP version 4 or 6 is known.
    pub fn querier(&self, six: bool) -> bool
        ensures value { result ≡ has nat_cmp self.now.queriers (ip_version six) }
        ensures table { (t : Table) → t.queriers ≡ self.now.queriers → result ≡ knows_querier t six }
    {
        if six { self.six } else { self.four }
    }
}
