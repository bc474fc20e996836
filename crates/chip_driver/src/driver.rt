//! The driver.
ghost use Rattle.std.specs.Prelude.{◌≡◌, ◌≢◌, ◌+◌, ◌<◌, ◌≤◌, true, IfOk, IsTrue};
ghost use Rattle.br_model.specs.Table.Change.{deferred};
ghost use Rattle.br_model.specs.Table.Domains.{Domains as DomainsValue, software};
ghost use Rattle.br_model.specs.Table.GroupPairs.{has_room};
ghost use Rattle.br_model.specs.Table.Limits.{most_changes};
ghost use Rattle.br_model.specs.Table.Table.{Table, apply, start};
ghost use Rattle.br_model.specs.declared.change.Change.TheVariants as changes;
ghost use Rattle.br_model.specs.declared.domains.Edition.TheVariants.{Two};
ghost use Rattle.chip_tables.specs.Stands.{address_wanted};
ghost use Rattle.chip_driver.specs.Drives.{Drives, IsTaken};

use crate::kept::Kept;
use crate::shadow::Shadow;
use crate::{making, pvids, switches};
use br_model::change::{Change, DISABLED, Flags, Kind, Update};
use br_model::domains::Domains;
use br_model::group::Group;
use br_model::numbers::{Dom, Mac, Port, Vid};
use chip_tables::{AddressRow, NoMemory, Tables, trap_rows};
use mdb_snoop::Groups;
use std::alloc::Global;
use std::marker::Model;
use switchdev_notify::{Attribute, Object, SwitchOps};
use vlan_groups::joined::Joined;

/// A chip's tables, and what the driver keeps beside them. Contracts see the chip's domain, the rows, the ports behind which a
/// router is, and the members of groups.
#[derive(Drop)]
pub struct Driver {
    dom: Dom,
    count: u32,
    kept: Kept,
}

impl Model for Driver {
    ghost use Rattle.chip_driver.specs.Drives.{Driven, driven};
    ghost use Rattle.chip_driver.specs.Keeping.{IsKept};

    ghost Value = { Driven };

    ghost view = { λ d. driven d.dom d.count d.kept };

    ghost invariant = { λ d. IsKept d.kept };
}

impl Driver {
    /// The chip of the domain, which isn't software's, before any change.
    pub fn make(alloc: Global, dom: Dom, d: &Domains) -> Result<Driver, NoMemory>
        requires { dom ≢ software }
        ensures domain { IfOk result (λ x. x.dom ≡ dom) }
        ensures count { IfOk result (λ x. x.count ≡ 0) }
        ensures start { IfOk result (λ x. Drives d.now x start) }
    {
        let joined = Joined::make(alloc)?;
        let groups = Groups::make(alloc)?;
        let shadow = Shadow::start(d.ports_of(dom));
        // Last, since they are the longest to give up.
        let mut tables = Tables::make(alloc)?;
        // law: the host isn't on the chip
        making::host_is_elsewhere(d, dom);
        making::mark_own(&mut tables, &shadow.own);
        switches::switch_traps(&mut tables, trap_rows::FIRST_RESERVED, true);
        tables.set_control(switches::first_control());
        let mut kept = Kept {
            tables,
            shadow,
            joined,
            groups,
        };
        kept.write_member(Port::HOST, Vid::DEFAULT, true, true);
        Ok(Driver {
            dom,
            count: 0,
            kept,
        })
    }

    /// The chip's domain.
    pub fn dom(&self) -> Dom
        ensures { result ≡ self.now.dom }
    {
        self.dom
    }

    /// How many deferred changes it has applied, which is the ticket of the next one.
    pub fn count(&self) -> u32
        ensures { result ≡ self.now.count }
    {
        self.count
    }

    /// The chip's rows.
    pub fn tables(&self) -> &Tables
        ensures { result.now ≡ self.now.rows }
    {
        &self.kept.tables
    }

    /// Applies an update of the queue, the next one by its ticket: so none comes twice, or out of order.
    pub fn address(&mut self, u: &Update)
        requires taken { IsTaken self.old u.now.change }
        requires queued { deferred Two u.now.change ≡ true }
        requires next { u.now.ticket ≡ self.old.count }
        requires count { self.old.count < most_changes }
        ensures drives { (d : DomainsValue) (t : Table) → Drives d self.old t → Drives d self.new (apply t u.now.change) }
        ensures dom { self.new.dom ≡ self.old.dom }
        ensures count { self.new.count ≡ self.old.count + 1 }
    {
        self.apply(&u.change);
        self.count += 1;
    }

    fn apply(&mut self, change: &Change)
        requires taken { IsTaken self.old change.now }
        requires queued { deferred Two change.now ≡ true }
        ensures drives { (d : DomainsValue) (t : Table) → Drives d self.old t → Drives d self.new (apply t change.now) }
        ensures dom { self.new.dom ≡ self.old.dom }
        ensures count { self.new.count ≡ self.old.count }
    {
        match *change {
            Change::AddrPut {
                vid,
                mac,
                port,
                kind,
            } => self.put_address(vid, mac, port, kind),
            Change::AddrDel { vid, mac } => self.del_address(vid, mac),
            Change::GroupJoin { port, vid, group } => self.join_group(port, vid, group),
            Change::GroupPart { port, vid, group } => self.part_group(port, vid, group),
            _ => unreachable!(),
        }
    }

    fn put_address(&mut self, v: Vid, m: Mac, p: Port, kind: Kind)
        requires { IsTaken self.old (changes.AddrPut v m p kind) }
        ensures drives { (d : DomainsValue) (t : Table) → Drives d self.old t → Drives d self.new (apply t (changes.AddrPut v m p kind)) }
        ensures dom { self.new.dom ≡ self.old.dom }
        ensures count { self.new.count ≡ self.old.count }
    {
        self.kept
            .tables
            .set_address(v, m, Some(address_row(p, kind)));
    }

    fn del_address(&mut self, v: Vid, m: Mac)
        ensures drives { (d : DomainsValue) (t : Table) → Drives d self.old t → Drives d self.new (apply t (changes.AddrDel v m)) }
        ensures dom { self.new.dom ≡ self.old.dom }
        ensures count { self.new.count ≡ self.old.count }
    {
        self.kept.tables.set_address(v, m, None);
    }

    fn set_state(&mut self, p: Port, state: u8)
        requires { state ≤ 4 }
        ensures drives { (d : DomainsValue) (t : Table) → Drives d self.old t → Drives d self.new (apply t (changes.SetState p state)) }
        ensures dom { self.new.dom ≡ self.old.dom }
        ensures count { self.new.count ≡ self.old.count }
    {
        let mut row = self.kept.tables.port(p);
        row.state = state;
        self.kept.write_port(p, row);
    }

    fn set_flags(&mut self, p: Port, flags: Flags)
        ensures drives { (d : DomainsValue) (t : Table) → Drives d self.old t → Drives d self.new (apply t (changes.SetFlags p flags)) }
        ensures dom { self.new.dom ≡ self.old.dom }
        ensures count { self.new.count ≡ self.old.count }
    {
        let mut row = self.kept.tables.port(p);
        row.flags = flags;
        self.kept.write_port(p, row);
    }

    fn port_up(&mut self, p: Port)
        ensures drives { (d : DomainsValue) (t : Table) → Drives d self.old t → Drives d self.new (apply t (changes.PortUp p)) }
        ensures dom { self.new.dom ≡ self.old.dom }
        ensures count { self.new.count ≡ self.old.count }
    {
        let mut row = self.kept.tables.port(p);
        row.up = true;
        row.flags = Flags::DEFAULT;
        row.state = DISABLED;
        self.kept.write_port(p, row);
    }

    fn port_down(&mut self, p: Port)
        ensures drives { (d : DomainsValue) (t : Table) → Drives d self.old t → Drives d self.new (apply t (changes.PortDown p)) }
        ensures dom { self.new.dom ≡ self.old.dom }
        ensures count { self.new.count ≡ self.old.count }
    {
        let mut row = self.kept.tables.port(p);
        row.up = false;
        row.flags = making::no_flags();
        row.state = DISABLED;
        self.kept.write_port(p, row);
    }

    fn add_vlan(&mut self, p: Port, v: Vid, untagged: bool, pvid: bool)
        ensures drives { (d : DomainsValue) (t : Table) → Drives d self.old t → Drives d self.new (apply t (changes.VlanAdd p v untagged pvid)) }
        ensures dom { self.new.dom ≡ self.old.dom }
        ensures count { self.new.count ≡ self.old.count }
    {
        self.kept.write_member(p, v, true, untagged);
        let pvid = pvids::pvid_with(self.kept.tables.port(p).pvid, v, pvid);
        self.kept.write_pvid(p, pvid);
    }

    fn del_vlan(&mut self, p: Port, v: Vid)
        ensures drives { (d : DomainsValue) (t : Table) → Drives d self.old t → Drives d self.new (apply t (changes.VlanDel p v)) }
        ensures dom { self.new.dom ≡ self.old.dom }
        ensures count { self.new.count ≡ self.old.count }
    {
        self.kept.write_member(p, v, false, false);
        let pvid = pvids::pvid_without(self.kept.tables.port(p).pvid, v);
        self.kept.write_pvid(p, pvid);
    }

    fn join_group(&mut self, p: Port, v: Vid, g: Group)
        requires { IsTrue (has_room self.old.groups v g) }
        ensures drives { (d : DomainsValue) (t : Table) → Drives d self.old t → Drives d self.new (apply t (changes.GroupJoin p v g)) }
        ensures dom { self.new.dom ≡ self.old.dom }
        ensures count { self.new.count ≡ self.old.count }
    {
        self.kept.join(v, g, p);
    }

    fn part_group(&mut self, p: Port, v: Vid, g: Group)
        ensures drives { (d : DomainsValue) (t : Table) → Drives d self.old t → Drives d self.new (apply t (changes.GroupPart p v g)) }
        ensures dom { self.new.dom ≡ self.old.dom }
        ensures count { self.new.count ≡ self.old.count }
    {
        self.kept.part(v, g, p);
    }

    fn set_router(&mut self, p: Port, on: bool)
        ensures drives { (d : DomainsValue) (t : Table) → Drives d self.old t → Drives d self.new (apply t (changes.Router p on)) }
        ensures dom { self.new.dom ≡ self.old.dom }
        ensures count { self.new.count ≡ self.old.count }
    {
        self.kept.write_router(p, on);
    }

    fn set_querier(&mut self, six: bool, on: bool)
        ensures drives { (d : DomainsValue) (t : Table) → Drives d self.old t → Drives d self.new (apply t (changes.Querier six on)) }
        ensures dom { self.new.dom ≡ self.old.dom }
        ensures count { self.new.count ≡ self.old.count }
    {
        let control = switches::with_querier(self.kept.tables.control(), six, on);
        self.kept.tables.set_control(control);
    }

    fn set_snoop(&mut self, on: bool)
        ensures drives { (d : DomainsValue) (t : Table) → Drives d self.old t → Drives d self.new (apply t (changes.Snoop on)) }
        ensures dom { self.new.dom ≡ self.old.dom }
        ensures count { self.new.count ≡ self.old.count }
    {
        let mut control = self.kept.tables.control();
        control.snooping = on;
        self.kept.tables.set_control(control);
        switches::switch_traps(&mut self.kept.tables, trap_rows::IGMP, on);
    }

    fn set_stp(&mut self, on: bool)
        ensures drives { (d : DomainsValue) (t : Table) → Drives d self.old t → Drives d self.new (apply t (changes.Stp on)) }
        ensures dom { self.new.dom ≡ self.old.dom }
        ensures count { self.new.count ≡ self.old.count }
    {
        let mut control = self.kept.tables.control();
        control.tree = on;
        self.kept.tables.set_control(control);
        self.kept.tables.set_trap(trap_rows::TREE, on);
    }
}

/// The row of an address.
fn address_row(port: Port, kind: Kind) -> AddressRow
    ensures { result ≡ address_wanted (port, kind) }
{
    let pinned = match kind {
        Kind::Local | Kind::Static => true,
        Kind::Learned | Kind::Extern => false,
    };
    AddressRow { port, kind, pinned }
}

impl SwitchOps for Driver {
    ghost domain = { λ x. x.dom };

    ghost count = { λ x. x.count };

    ghost means = { Drives };

    ghost takes = { IsTaken };

    fn obj_add(&mut self, o: &Object) {
        match *o {
            Object::Vlan {
                port,
                vid,
                untagged,
                pvid,
            } => self.add_vlan(port, vid, untagged, pvid),
            Object::Group { port, vid, group } => self.join_group(port, vid, group),
        }
    }

    fn obj_del(&mut self, o: &Object) {
        match *o {
            Object::Vlan { port, vid, .. } => self.del_vlan(port, vid),
            Object::Group { port, vid, group } => self.part_group(port, vid, group),
        }
    }

    fn attr_set(&mut self, a: &Attribute) {
        match *a {
            Attribute::PortUp(port) => self.port_up(port),
            Attribute::PortDown(port) => self.port_down(port),
            Attribute::Flags(port, flags) => self.set_flags(port, flags),
            Attribute::State(port, state) => self.set_state(port, state),
            Attribute::Router { port, on } => self.set_router(port, on),
            Attribute::Querier { six, on } => self.set_querier(six, on),
            Attribute::Snoop(on) => self.set_snoop(on),
            Attribute::Stp(on) => self.set_stp(on),
        }
    }
}
