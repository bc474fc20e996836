//! The chip's tables and what the driver keeps beside them, as one.
ghost use Rattle.std.specs.Prelude.{◌≡◌, ◌<◌, ◌≤◌, IsTrue};
ghost use Rattle.br_model.specs.Table.Domains.{port_places};
ghost use Rattle.br_model.specs.Table.GroupPairs.{has_room};
ghost use Rattle.br_model.specs.Table.Groups.{membership_cmp};
ghost use Rattle.br_model.specs.Data.Maps.{joined, parted};
ghost use Rattle.chip_tables.specs.Rows.{vlan_at, port_at, WritesPort, WritesVlan};
ghost use Rattle.chip_driver.specs.Shadows.{switched, switched_row};
ghost use Rattle.chip_driver.specs.Keeping.{IsKept, IsRemade};

use crate::shadow::{Shadow, switched};
use crate::shares::{Shares, Touched};
use crate::{fans, groups};
use br_model::group::Group;
use br_model::numbers::{Port, Vid};
use chip_tables::{PortRow, Tables, VlanRow};
use mdb_snoop::Groups;
use vlan_groups::joined::Joined;

/// The chip's tables, and what the driver keeps beside them.
#[derive(Drop)]
pub struct Kept {
    pub tables: Tables,
    pub shadow: Shadow,
    pub joined: Joined,
    pub groups: Groups,
}

impl Kept {
    /// Writes the row of a port, and brings those rows up to date that tell of it.
    pub fn write_port(&mut self, port: Port, row: PortRow)
        requires kept { IsKept self.old }
        requires own { row.own ≡ (port_at self.old.tables port).own }
        requires state { row.state ≤ 4 }
        ensures kept { IsKept self.new }
        ensures routers { self.new.shadow.routers ≡ self.old.shadow.routers }
        ensures members { self.new.groups ≡ self.old.groups }
        ensures row { WritesPort self.old.tables self.new.tables port row }
        ensures rest { IsRemade (record self.old.tables { ports = self.new.tables.ports }) self.new.tables }
        ensures below { port < port_places }
    {
        // law: the port is in range
        let _number = port.number();
        let before = Shares::of(&self.shadow, port, true);
        self.tables.set_port(port, row);
        self.shadow.note(port, &row);
        let touched = before.touched(&Shares::of(&self.shadow, port, true));
        fans::refresh(&mut self.tables, &self.shadow, &self.joined, &touched, port);
        groups::refresh(
            &mut self.tables,
            &self.shadow,
            &self.groups,
            touched.groups,
            port,
            None,
        );
    }

    /// Puts a router behind a port or not, and brings those rows up to date that tell of it.
    pub fn write_router(&mut self, port: Port, on: bool)
        requires { IsKept self.old }
        ensures kept { IsKept self.new }
        ensures routers { self.new.shadow.routers ≡ switched self.old.shadow.routers port on }
        ensures members { self.new.groups ≡ self.old.groups }
        ensures rest { IsRemade self.old.tables self.new.tables }
    {
        let before = Shares::of(&self.shadow, port, true);
        self.shadow.routers.switch(port.number(), on);
        let touched = before.touched(&Shares::of(&self.shadow, port, true));
        fans::refresh(&mut self.tables, &self.shadow, &self.joined, &touched, port);
        groups::refresh(
            &mut self.tables,
            &self.shadow,
            &self.groups,
            touched.groups,
            port,
            None,
        );
    }

    /// Switches a membership, and brings those rows of the VLAN up to date that tell of it.
    pub fn write_member(&mut self, port: Port, vid: Vid, on: bool, untagged: bool)
        requires { IsKept self.old }
        ensures kept { IsKept self.new }
        ensures shadow { self.new.shadow ≡ self.old.shadow }
        ensures members { self.new.groups ≡ self.old.groups }
        ensures row { WritesVlan self.old.tables self.new.tables vid (switched_row (vlan_at self.old.tables vid) port on untagged) }
        ensures rest { IsRemade (record self.old.tables { vlans = self.new.tables.vlans }) self.new.tables }
    {
        let row = self.tables.vlan(vid);
        let n = port.number();
        let members = switched(row.members, n, on);
        let untagged = switched(row.untagged, n, untagged);
        let touched = Touched::by_member(&self.shadow, port, row.members.has(n), on);
        self.tables.set_vlan(vid, VlanRow { members, untagged });
        self.joined.switch(port, vid, on);
        fans::refresh_vlan(&mut self.tables, &self.shadow, &touched, vid, port, on);
        groups::refresh(
            &mut self.tables,
            &self.shadow,
            &self.groups,
            touched.groups,
            port,
            Some(vid),
        );
    }

    /// Writes the VLAN of a port's untagged frames, on which no other row depends.
    pub fn write_pvid(&mut self, port: Port, pvid: Option<Vid>)
        requires { IsKept self.old }
        ensures kept { IsKept self.new }
        ensures shadow { self.new.shadow ≡ self.old.shadow }
        ensures members { self.new.groups ≡ self.old.groups }
        ensures row { WritesPort self.old.tables self.new.tables port (record (port_at self.old.tables port) { pvid = pvid }) }
        ensures rest { self.new.tables ≡ record self.old.tables { ports = self.new.tables.ports } }
        ensures below { port < port_places }
    {
        // law: the port is in range
        let _number = port.number();
        let mut row = self.tables.port(port);
        if row.pvid != pvid {
            row.pvid = pvid;
            self.tables.set_port(port, row);
        }
    }

    /// Joins a port to a group, and makes its row anew.
    pub fn join(&mut self, vid: Vid, group: Group, port: Port)
        requires kept { IsKept self.old }
        requires room { IsTrue (has_room self.old.groups vid group) }
        ensures kept { IsKept self.new }
        ensures shadow { self.new.shadow ≡ self.old.shadow }
        ensures members { self.new.groups ≡ joined membership_cmp self.old.groups (vid, group, port) }
        ensures rest { self.new.tables ≡ record self.old.tables { groups = self.new.tables.groups } }
    {
        groups::join(
            &mut self.tables,
            &self.shadow,
            &mut self.groups,
            vid,
            group,
            port,
        );
    }

    /// Parts a port from a group, and makes its row anew, which goes with the last member.
    pub fn part(&mut self, vid: Vid, group: Group, port: Port)
        requires { IsKept self.old }
        ensures kept { IsKept self.new }
        ensures shadow { self.new.shadow ≡ self.old.shadow }
        ensures members { self.new.groups ≡ parted membership_cmp self.old.groups (vid, group, port) }
        ensures rest { self.new.tables ≡ record self.old.tables { groups = self.new.tables.groups } }
    {
        groups::part(
            &mut self.tables,
            &self.shadow,
            &mut self.groups,
            vid,
            group,
            port,
        );
    }
}
