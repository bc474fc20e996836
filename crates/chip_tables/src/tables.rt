//! The tables.
ghost use Rattle.std.specs.Prelude.{◌≡◌, ◌<◌, ◌≤◌, ℕ, IfOk, IfSome, Option, None, Some, length, slice_get, slice_index};
ghost use Rattle.br_model.specs.Table.GroupPairs.{max_pairs};
ghost use Rattle.br_model.specs.Table.Limits.{most_addresses};
ghost use Rattle.br_model.specs.Forward.Admission.{forwarding};
ghost use Rattle.br_model.specs.Forward.Targets.{isolated};
ghost use Rattle.port_sets.specs.Numbers.{has_number};
ghost use Rattle.chip_tables.specs.Rows.{fan_of, vlan_at, flood_at, router_at, port_at, trap_at, control_in, address_at, addresses_with, address_rows, extern_at, group_at, groups_with, IsPlaced, WritesVlan, WritesFlood, WritesRouter, WritesPort, WritesTrap};
ghost use Rattle.chip_tables.specs.Flags.{row_has_flag, row_is_in};
ghost use Rattle.chip_tables.specs.Writing.{WritesFan, IsBlank, switched_fan};

use crate::NoMemory;
use crate::addresses::{self, Addresses, key};
use crate::groups::{self, Groups, group_key};
use crate::rows::{
    self, AddressRow, Control, FanRow, Flood, PortRow, VlanRow, control_row, fan_row, is_on,
    pack_control, pack_fan, pack_port, pack_trap, pack_vlan, port_row, vlan_row,
};
use br_model::group::Group;
use br_model::numbers::{Mac, Port, Vid};
use chip_regs::Bank;
use port_sets::Ports;
use std::alloc::Global;
use std::marker::Model;

/// The chip's tables. Contracts see the rows of each bank as numbers.
#[derive(Drop)]
pub struct Tables {
    vlans: Bank<4096, 64>,
    unicast: Bank<4096, 33>,
    mcast: Bank<4096, 33>,
    bcast: Bank<4096, 33>,
    routers: Bank<4096, 33>,
    ports: Bank<{ Port::PLACES }, 3>,
    traps: Bank<21, 1>,
    control: Bank<1, 1>,
    addresses: Addresses,
    groups: Groups,
}

impl Model for Tables {
    ghost use Rattle.std.specs.Prelude.{◌≡◌};
    ghost use Rattle.br_model.specs.Table.GroupPairs.{max_pairs};
    ghost use Rattle.br_model.specs.Table.Limits.{most_addresses};
    ghost use Rattle.open_addressing.specs.Pairs.{by_pair};
    ghost use Rattle.chip_tables.specs.Rows.{Rows};
    ghost use Rattle.chip_tables.specs.AddressCells.{places_of};
    ghost use Rattle.chip_tables.specs.GroupCells.{by_group};

    ghost Value = { Rows };

    ghost view = { λ t. record {
      vlans = t.vlans;
      unicast = t.unicast;
      mcast = t.mcast;
      bcast = t.bcast;
      routers = t.routers;
      ports = t.ports;
      traps = t.traps;
      control = t.control;
      addresses = by_pair t.addresses.entries;
      places = places_of t.addresses.cells;
      groups = by_group t.groups.entries;
    } };

    ghost invariant = { λ t. (t.addresses.room ≡ most_addresses) × (t.groups.room ≡ max_pairs) };
}

/// Writes the row of a VLAN.
#[inline(always)]
fn put_fan(bank: &mut Bank<4096, 33>, v: Vid, r: &FanRow)
    ensures { WritesFan bank.old bank.new v r.now }
{
    bank.put(usize::from(v.number()), pack_fan(r));
}

/// Puts a port into the row of a VLAN or takes it out.
#[inline(always)]
fn switch_fan(bank: &mut Bank<4096, 33>, vid: Vid, port: Port, on: bool)
    ensures { WritesFan bank.old bank.new vid (switched_fan (fan_of (slice_index bank.old vid)) port on) }
{
    bank.set_bit(usize::from(vid.number()), usize::from(port.number()), on);
}

impl Tables {
    /// No row was written to.
    pub fn make(alloc: Global) -> Result<Tables, NoMemory>
        ensures { IfOk result IsBlank }
    {
        Ok(Tables {
            vlans: Bank::make(alloc)?,
            unicast: Bank::make(alloc)?,
            mcast: Bank::make(alloc)?,
            bcast: Bank::make(alloc)?,
            routers: Bank::make(alloc)?,
            ports: Bank::make(alloc)?,
            traps: Bank::make(alloc)?,
            control: Bank::make(alloc)?,
            addresses: addresses::make(alloc)?,
            groups: groups::make(alloc)?,
        })
    }

    pub fn vlan(&self, vid: Vid) -> VlanRow
        ensures { result ≡ vlan_at self.now vid }
    {
        vlan_row(self.vlans.at(usize::from(vid.number())))
    }

    /// The members of the VLAN.
    #[inline(always)]
    pub fn members(&self, vid: Vid) -> Ports
        ensures { result ≡ (vlan_at self.now vid).members }
    {
        rows::members(self.vlans.at(usize::from(vid.number())))
    }

    /// Those of them that the VLAN's frames leave without a tag.
    #[inline(always)]
    pub fn untagged(&self, vid: Vid) -> Ports
        ensures { result ≡ (vlan_at self.now vid).untagged }
    {
        rows::untagged(self.vlans.at(usize::from(vid.number())))
    }

    /// Whether the port is a member of the VLAN. It reads one bit.
    #[inline(always)]
    pub fn is_member(&self, vid: Vid, port: Port) -> bool
        ensures { result ≡ has_number (vlan_at self.now vid).members port }
    {
        rows::is_member(self.vlans.at(usize::from(vid.number())), port)
    }

    pub fn set_vlan(&mut self, vid: Vid, r: VlanRow)
        ensures row { WritesVlan self.old self.new vid r }
        ensures rest { self.new ≡ record self.old { vlans = self.new.vlans } }
    {
        self.vlans.put(usize::from(vid.number()), pack_vlan(&r));
    }

    /// Where the VLAN's unicast, multicast or broadcast flood goes.
    #[inline(always)]
    pub fn flood(&self, vid: Vid, f: Flood) -> FanRow
        ensures { result ≡ flood_at self.now vid f }
    {
        let place = usize::from(vid.number());
        match f {
            Flood::Unicast => fan_row(self.unicast.at(place)),
            Flood::Mcast => fan_row(self.mcast.at(place)),
            Flood::Bcast => fan_row(self.bcast.at(place)),
        }
    }

    pub fn set_flood(&mut self, vid: Vid, f: Flood, r: FanRow)
        ensures row { WritesFlood self.old self.new vid f r }
        ensures rest { self.new ≡ record self.old { unicast = self.new.unicast; mcast = self.new.mcast; bcast = self.new.bcast } }
    {
        match f {
            Flood::Unicast => put_fan(&mut self.unicast, vid, &r),
            Flood::Mcast => put_fan(&mut self.mcast, vid, &r),
            Flood::Bcast => put_fan(&mut self.bcast, vid, &r),
        }
    }

    /// Puts a port into a flood row or takes it out, and leaves the row's bits for the processor. Of a row that was written to before
    /// it writes one byte.
    #[inline(always)]
    pub fn switch_flood(&mut self, vid: Vid, f: Flood, port: Port, on: bool)
        ensures row { WritesFlood self.old self.new vid f (switched_fan (flood_at self.old vid f) port on) }
        ensures rest { self.new ≡ record self.old { unicast = self.new.unicast; mcast = self.new.mcast; bcast = self.new.bcast } }
    {
        match f {
            Flood::Unicast => switch_fan(&mut self.unicast, vid, port, on),
            Flood::Mcast => switch_fan(&mut self.mcast, vid, port, on),
            Flood::Bcast => switch_fan(&mut self.bcast, vid, port, on),
        }
    }

    /// Where frames go that are for multicast routers: the ports in the VLAN behind which one is known.
    #[inline(always)]
    pub fn router(&self, vid: Vid) -> FanRow
        ensures { result ≡ router_at self.now vid }
    {
        fan_row(self.routers.at(usize::from(vid.number())))
    }

    pub fn set_router(&mut self, vid: Vid, r: FanRow)
        ensures row { WritesRouter self.old self.new vid r }
        ensures rest { self.new ≡ record self.old { routers = self.new.routers } }
    {
        put_fan(&mut self.routers, vid, &r);
    }

    /// Puts a port into a router row or takes it out, as `switch_flood` does.
    #[inline(always)]
    pub fn switch_router(&mut self, vid: Vid, port: Port, on: bool)
        ensures row { WritesRouter self.old self.new vid (switched_fan (router_at self.old vid) port on) }
        ensures rest { self.new ≡ record self.old { routers = self.new.routers } }
    {
        switch_fan(&mut self.routers, vid, port, on);
    }

    #[inline(always)]
    pub fn port(&self, port: Port) -> PortRow
        ensures { result ≡ port_at self.now port }
    {
        self.port_numbered(port.number())
    }

    /// The row of a number, as a set of ports has it: that of a port, or the one behind the last port's.
    #[inline(always)]
    pub fn port_numbered(&self, number: u8) -> PortRow
        ensures { result ≡ port_at self.now number }
    {
        port_row(self.ports.at(usize::from(number)))
    }

    /// Whether the row of a number says that its port is up and forwards.
    #[inline(always)]
    pub fn is_forwarding(&self, number: u8) -> bool
        ensures { result ≡ row_is_in (port_at self.now number) forwarding }
    {
        rows::is_forwarding(self.ports.at(usize::from(number)))
    }

    /// Whether it has the flag `isolated` (Linux's BR_ISOLATED).
    #[inline(always)]
    pub fn is_isolated(&self, number: u8) -> bool
        ensures { result ≡ row_has_flag (port_at self.now number) isolated }
    {
        rows::is_isolated(self.ports.at(usize::from(number)))
    }

    /// Whether the port is on the chip.
    #[inline(always)]
    pub fn is_own(&self, port: Port) -> bool
        ensures { result ≡ (port_at self.now port).own }
    {
        rows::is_own(self.ports.at(usize::from(port.number())))
    }

    /// The state is at most 4.
    pub fn set_port(&mut self, port: Port, r: PortRow)
        requires { r.state ≤ 4 }
        ensures row { WritesPort self.old self.new port r }
        ensures rest { self.new ≡ record self.old { ports = self.new.ports } }
    {
        self.set_port_numbered(port.number(), r);
    }

    /// Writes the row that `port_numbered` reads. The state is at most 4.
    pub fn set_port_numbered(&mut self, number: u8, r: PortRow)
        requires { r.state ≤ 4 }
        ensures row { WritesPort self.old self.new number r }
        ensures rest { self.new ≡ record self.old { ports = self.new.ports } }
    {
        self.ports.put(usize::from(number), pack_port(&r));
    }

    /// Whether a trap row, below 21, is on.
    #[inline(always)]
    pub fn trap(&self, i: usize) -> bool
        requires { i < 21 }
        ensures { result ≡ trap_at self.now i }
    {
        is_on(self.traps.at(i))
    }

    /// Switches a trap row on or off. `trap_rows` names them.
    pub fn set_trap(&mut self, i: usize, on: bool)
        requires { i < 21 }
        ensures row { WritesTrap self.old self.new i on }
        ensures rest { self.new ≡ record self.old { traps = self.new.traps } }
    {
        self.traps.put(i, pack_trap(on));
    }

    #[inline(always)]
    pub fn control(&self) -> Control
        ensures { result ≡ control_in self.now }
    {
        control_row(self.control.at(0))
    }

    pub fn set_control(&mut self, c: Control)
        ensures row { control_in self.new ≡ c }
        ensures rest { self.new ≡ record self.old { control = self.new.control } }
    {
        self.control.put(0, pack_control(c));
    }

    /// `None` exactly where no used row has that key.
    pub fn address(&self, vid: Vid, mac: Mac) -> Option<AddressRow>
        ensures { result ≡ address_at self.now vid mac }
    {
        self.addresses.get(&key(vid, mac))
    }

    /// `None` frees the row. At most 16,384 rows may be used afterwards.
    pub fn set_address(&mut self, vid: Vid, mac: Mac, r: Option<AddressRow>)
        requires { IfSome r (λ row. length (addresses_with self.old vid mac (Some row)) ≤ most_addresses) }
        ensures row { self.new.addresses ≡ addresses_with self.old vid mac r }
        ensures rest { self.new ≡ record self.old { addresses = self.new.addresses; places = self.new.places } }
    {
        match r {
            Some(row) => {
                let _ = self.addresses.insert(&key(vid, mac), row);
            }
            None => {
                let _ = self.addresses.take(&key(vid, mac));
            }
        }
    }

    /// How many address rows there are: 32,768.
    pub fn address_rows(&self) -> usize
        ensures count { result ≡ address_rows }
        ensures placed { IsPlaced self.now }
    {
        // law: each key that is used stands at one place
        let _ = self.addresses.cells();
        addresses::ROWS
    }

    /// Before which place all address rows stand that were ever written to.
    pub fn written_address_rows(&self) -> usize
        ensures few { result ≤ address_rows }
        ensures rest { (i : ℕ) → result ≤ i → i < address_rows → slice_get self.now.places i ≡ Some None }
        ensures placed { IsPlaced self.now }
    {
        self.addresses.cells().written()
    }

    /// The key of an address row, below 32,768. `None` exactly where it isn't used.
    pub fn address_at(&self, i: usize) -> Option<(Vid, Mac)>
        requires { i < address_rows }
        ensures place { slice_get self.now.places i ≡ Some result }
        ensures placed { IsPlaced self.now }
    {
        self.addresses.cells().key(i)
    }

    /// The key of an address row, below 32,768, and what the row says, if a chip learned the entry.
    pub fn extern_at(&self, i: usize) -> Option<((Vid, Mac), AddressRow)>
        requires { i < address_rows }
        ensures { (place : Option (ℕ × ℕ)) → slice_get self.now.places i ≡ Some place → result ≡ extern_at self.now place }
    {
        self.addresses.cells().extern_in(i)
    }

    /// `None` exactly where no used row has that key.
    pub fn group(&self, vid: Vid, group: Group) -> Option<FanRow>
        ensures { result ≡ group_at self.now vid group }
    {
        self.groups.get(&group_key(vid, group))
    }

    /// `None` frees the row. At most 1,024 rows may be used afterwards.
    pub fn set_group(&mut self, vid: Vid, group: Group, r: Option<FanRow>)
        requires { length (groups_with self.old vid group r) ≤ max_pairs }
        ensures row { self.new.groups ≡ groups_with self.old vid group r }
        ensures rest { self.new ≡ record self.old { groups = self.new.groups } }
    {
        match r {
            Some(row) => {
                let _ = self.groups.insert(&group_key(vid, group), row);
            }
            None => {
                let _ = self.groups.take(&group_key(vid, group));
            }
        }
    }
}
