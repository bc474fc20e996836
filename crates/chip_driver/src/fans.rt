//! The rows of floods and of routers.
ghost use Rattle.std.specs.Prelude.{◌≡◌, ◌==◌, ◌<◌, ◌/◌, ◌%◌, ◌&&◌, ℕ, List, true, false};
ghost use Rattle.br_model.specs.Table.Domains.{host};
ghost use Rattle.port_sets.specs.Numbers.{has_number};
ghost use Rattle.vlan_groups.specs.Joined.{has_vlan};
ghost use Rattle.chip_tables.specs.declared.rows.FanRow.{FanRow as Row};
ghost use Rattle.chip_tables.specs.Rows.{vlan_at};
ghost use Rattle.chip_tables.specs.Writing.{switched_fan};
ghost use Rattle.chip_driver.specs.Shadows.{Has, fan_to, is_flood_wanted, is_wanted};
ghost use Rattle.chip_driver.specs.Shares.{touched_of};
ghost use Rattle.chip_driver.specs.Settled.{fan_at, same_fan, WritesFan};
ghost use Rattle.chip_driver.specs.Renewing.{AreSets, row_of, edited, follows, Renews};

use crate::shadow::Shadow;
use crate::shares::Touched;
use br_model::numbers::{Port, Vid};
use chip_tables::{FanRow, Flood, Tables};
use port_sets::Ports;
use vlan_groups::joined::{Joined, VlanBlock};

/// A row that each VLAN has: where a flood goes, or what goes to the routers.
#[derive(Clone, Copy)]
pub enum Fan {
    Floods(Flood),
    Routers,
}

/// Of the members of a VLAN those that a row has, and those for which each of its two bits is set.
#[derive(Clone, Copy)]
pub struct Sets {
    pub ports: Ports,
    pub isolated: Ports,
    pub plain: Ports,
}

/// How a row of a VLAN follows a change of a member.
#[derive(Clone, Copy)]
pub enum Edit {
    /// The port is put into it or taken out.
    Switch(Port, bool),
    /// It is made anew.
    Make(Sets),
}

/// The row with these targets in a VLAN with these members.
pub fn fan_to(shadow: &Shadow, members: Ports, targets: Ports) -> FanRow
    ensures { result ≡ fan_to shadow.now members (has_number targets) }
{
    let eligible = members.and(shadow.forwarding.with(0));
    let free = eligible.minus(shadow.isolated.without(0));
    let elsewhere = targets.minus(shadow.own);
    FanRow {
        ports: targets.and(shadow.own),
        isolated: !elsewhere.and(free).is_empty(),
        plain: !elsewhere.and(eligible).is_empty(),
    }
}

/// The ports that are targets of a flood as members of a VLAN.
#[inline(always)]
fn flooded(shadow: &Shadow, f: Flood) -> Ports
    ensures { Has result (is_flood_wanted shadow.now f) }
{
    match f {
        Flood::Unicast => shadow.flood,
        Flood::Mcast => shadow.mcast_flood.with(0),
        Flood::Bcast => shadow.bcast_flood.with(0),
    }
}

/// The ports that are targets of a row as members of a VLAN.
#[inline(always)]
fn wanted(shadow: &Shadow, fan: Fan) -> Ports
    ensures { Has result (is_wanted shadow.now fan) }
{
    match fan {
        Fan::Floods(f) => flooded(shadow, f),
        Fan::Routers => shadow.routers,
    }
}

/// Whether a port is a target of a row as a member of a VLAN.
#[inline(always)]
fn is_target(shadow: &Shadow, fan: Fan, port: Port) -> bool
    ensures { result ≡ is_wanted shadow.now fan port }
{
    let n = port.number();
    match fan {
        Fan::Floods(Flood::Unicast) => shadow.flood.has(n),
        Fan::Floods(Flood::Mcast) => port.is_host() || shadow.mcast_flood.has(n),
        Fan::Floods(Flood::Bcast) => port.is_host() || shadow.bcast_flood.has(n),
        Fan::Routers => shadow.routers.has(n),
    }
}

impl Sets {
    /// Those of a row.
    #[inline(always)]
    fn of(shadow: &Shadow, fan: Fan) -> Sets
        ensures { AreSets shadow.now fan result }
    {
        let targets = wanted(shadow, fan);
        let others = targets.minus(shadow.own);
        let plain = others.and(shadow.forwarding.with(0));
        Sets {
            ports: targets.and(shadow.own),
            isolated: plain.minus(shadow.isolated.without(0)),
            plain,
        }
    }

    /// The row of a VLAN with these members.
    #[inline(always)]
    fn row(&self, members: Ports) -> FanRow
        ensures { result ≡ row_of self.now members }
    {
        FanRow {
            ports: members.and(self.ports),
            isolated: !members.and(self.isolated).is_empty(),
            plain: !members.and(self.plain).is_empty(),
        }
    }
}

/// Writes a row of a VLAN.
#[inline(always)]
fn set_fan(tables: &mut Tables, v: Vid, fan: Fan, row: FanRow)
    ensures { WritesFan tables.old tables.new v fan row }
{
    match fan {
        Fan::Floods(f) => tables.set_flood(v, f, row),
        Fan::Routers => tables.set_router(v, row),
    }
}

/// Puts a port into a row of a VLAN or takes it out.
#[inline(always)]
fn switch_fan(tables: &mut Tables, v: Vid, fan: Fan, port: Port, on: bool)
    ensures { WritesFan tables.old tables.new v fan (switched_fan (fan_at tables.old v fan) port on) }
{
    match fan {
        Fan::Floods(f) => tables.switch_flood(v, f, port, on),
        Fan::Routers => tables.switch_router(v, port, on),
    }
}

/// How a row of a VLAN follows a change of a port, by whether that is a member now. Nothing but its own bit depends on a port of
/// the chip; the bits that tell of ports elsewhere depend on all of these.
#[inline(always)]
fn edit_of(shadow: &Shadow, fan: Fan, port: Port, member: bool) -> Edit
    requires { has_number shadow.now.own host ≡ false }
    ensures { (row : Row) (members : List ℕ) → edited result row members ≡ follows shadow.now port member fan row members }
{
    if shadow.own.has(port.number()) {
        Edit::Switch(port, member && is_target(shadow, fan, port))
    } else {
        Edit::Make(Sets::of(shadow, fan))
    }
}

/// Edits a row of a VLAN.
#[inline(always)]
fn edit_fan(tables: &mut Tables, v: Vid, fan: Fan, edit: &Edit)
    ensures { WritesFan tables.old tables.new v fan (edited edit.now (fan_at tables.old v fan) (vlan_at tables.old v).members) }
{
    match edit {
        Edit::Switch(port, on) => switch_fan(tables, v, fan, *port, *on),
        Edit::Make(sets) => {
            let row = sets.row(tables.members(v));
            set_fan(tables, v, fan, row);
        }
    }
}

/// Brings a row of a VLAN up to date where it is touched.
#[inline(always)]
fn refresh_row(
    tables: &mut Tables,
    shadow: &Shadow,
    v: Vid,
    fan: Fan,
    touched: bool,
    port: Port,
    member: bool,
)
    requires { has_number shadow.now.own host ≡ false }
    ensures { Renews (λ w k. (w == v) && (same_fan k fan && touched)) (follows shadow.now port member) tables.old tables.new }
{
    if touched {
        let edit = edit_of(shadow, fan, port, member);
        edit_fan(tables, v, fan, &edit);
    }
}

/// Brings those rows of a VLAN up to date that are touched where a port became a member of it or ceased to be one.
pub fn refresh_vlan(
    tables: &mut Tables,
    shadow: &Shadow,
    touched: &Touched,
    vid: Vid,
    port: Port,
    member: bool,
)
    requires { has_number shadow.now.own host ≡ false }
    ensures { Renews (λ w k. (w == vid) && touched_of touched.now k) (follows shadow.now port member) tables.old tables.new }
{
    refresh_row(
        tables,
        shadow,
        vid,
        Fan::Floods(Flood::Unicast),
        touched.unicast,
        port,
        member,
    );
    refresh_row(
        tables,
        shadow,
        vid,
        Fan::Floods(Flood::Mcast),
        touched.mcast,
        port,
        member,
    );
    refresh_row(
        tables,
        shadow,
        vid,
        Fan::Floods(Flood::Bcast),
        touched.bcast,
        port,
        member,
    );
    refresh_row(
        tables,
        shadow,
        vid,
        Fan::Routers,
        touched.routers,
        port,
        member,
    );
}

/// Edits that row of the VLAN 64 i + n, if there is one.
#[inline(always)]
fn edit_number(tables: &mut Tables, i: u8, n: u8, fan: Fan, edit: &Edit)
    requires block { i < 64 }
    requires number { n < 64 }
    ensures { Renews (λ w k. ((w / 64 == i) && (w % 64 == n)) && same_fan k fan) (λ k. edited edit.now) tables.old tables.new }
{
    if let Some(v) = Vid::new(64 * u16::from(i) + u16::from(n)) {
        edit_fan(tables, v, fan, edit);
    }
}

/// Edits that row of some VLANs: of the VLAN 64 i + n for each number n of the set.
#[inline(always)]
fn edit_block(tables: &mut Tables, vids: VlanBlock, i: u8, fan: Fan, edit: &Edit)
    requires { i < 64 }
    ensures { Renews (λ w k. ((w / 64 == i) && has_number vids (w % 64)) && same_fan k fan) (λ k. edited edit.now) tables.old tables.new }
{
    for n in vids.iter() {
        edit_number(tables, i, n, fan, edit);
    }
}

/// Edits that row of each VLAN of which the port is a member.
#[inline(always)]
fn edit_all(tables: &mut Tables, joined: &Joined, port: Port, fan: Fan, edit: &Edit)
    ensures { Renews (λ w k. has_vlan joined.now port w && same_fan k fan) (λ k. edited edit.now) tables.old tables.new }
{
    for i in joined.used(port).iter() {
        edit_block(tables, joined.block(port, i), i, fan, edit);
    }
}

/// Brings that row up to date, where it is touched, of each VLAN of which the port is a member.
#[inline(always)]
fn refresh_fan(
    tables: &mut Tables,
    shadow: &Shadow,
    joined: &Joined,
    fan: Fan,
    touched: bool,
    port: Port,
)
    requires { has_number shadow.now.own host ≡ false }
    ensures { Renews (λ w k. has_vlan joined.now port w && (same_fan k fan && touched)) (follows shadow.now port true) tables.old tables.new }
{
    if touched {
        let edit = edit_of(shadow, fan, port, true);
        edit_all(tables, joined, port, fan, &edit);
    }
}

/// Brings those rows up to date that are touched of each VLAN of which the port is a member.
pub fn refresh(tables: &mut Tables, shadow: &Shadow, joined: &Joined, touched: &Touched, port: Port)
    requires { has_number shadow.now.own host ≡ false }
    ensures { Renews (λ w k. has_vlan joined.now port w && touched_of touched.now k) (follows shadow.now port true) tables.old tables.new }
{
    refresh_fan(
        tables,
        shadow,
        joined,
        Fan::Floods(Flood::Unicast),
        touched.unicast,
        port,
    );
    refresh_fan(
        tables,
        shadow,
        joined,
        Fan::Floods(Flood::Mcast),
        touched.mcast,
        port,
    );
    refresh_fan(
        tables,
        shadow,
        joined,
        Fan::Floods(Flood::Bcast),
        touched.bcast,
        port,
    );
    refresh_fan(tables, shadow, joined, Fan::Routers, touched.routers, port);
}
