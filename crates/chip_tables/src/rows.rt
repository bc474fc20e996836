//! The rows, and how they are packed.
ghost use Rattle.std.specs.Prelude.{◌≡◌, ◌≢◌, ◌==◌, ◌<◌, ◌≤◌, ◌+◌, ◌*◌, ◌^◌, nat_lt};
ghost use Rattle.br_model.specs.Forward.Admission.{forwarding};
ghost use Rattle.br_model.specs.Forward.Targets.{isolated};
ghost use Rattle.br_model.specs.Control.Learning.{is_extern};
ghost use Rattle.port_sets.specs.Numbers.{has_number};
ghost use Rattle.chip_tables.specs.Flags.{row_has_flag, row_is_in};
ghost use Rattle.chip_tables.specs.Rows.{ports_from, vlan_of, fan_of, pvid_from, port_of, is_on, port_from, kind_of, address_of, control_of, key_of, packed, KeepsBefore};

use br_model::change::{FORWARDING, Flags, Kind};
use br_model::numbers::{Mac, Port, Vid};
use chip_regs::{Field, Row};
use port_sets::Ports;

/// The members of a VLAN, foreign ports and the host among them.
#[derive(Clone, Copy)]
pub struct VlanRow {
    pub members: Ports,
    pub untagged: Ports,
}

/// Where a flood, or a frame to a group, goes: the chip's own ports, and whether an eligible target elsewhere exists for an
/// isolated and for a plain ingress port.
#[derive(Clone, Copy)]
pub struct FanRow {
    pub ports: Ports,
    pub isolated: bool,
    pub plain: bool,
}

/// The floods of a VLAN.
#[derive(Clone, Copy)]
pub enum Flood {
    Unicast,
    Mcast,
    Bcast,
}

/// What the chip knows of a port, also of one that isn't its own. The state is one of Linux's numbers, from 0 to 4.
#[derive(Clone, Copy)]
pub struct PortRow {
    pub up: bool,
    pub state: u8,
    pub flags: Flags,
    pub pvid: Option<Vid>,
    pub own: bool,
}

/// Where an address is. It is pinned where it is local or static.
#[derive(Clone, Copy)]
pub struct AddressRow {
    pub port: Port,
    pub kind: Kind,
    pub pinned: bool,
}

/// Whether snooping and the spanning tree are on, and whether a querier of version 4 and one of version 6 is known.
#[derive(Clone, Copy)]
pub struct Control {
    pub snooping: bool,
    pub tree: bool,
    pub four: bool,
    pub six: bool,
}

/// A field by the place of its first bit and how many bits it has.
macro_rules! bits {
    ($at:expr, $width:literal) => {
        Field {
            at: $at,
            width: $width,
        }
    };
}

/// The number of the bits, or whether the bit is set, or with one more argument the row with that number there.
macro_rules! get {
    ($row:expr, $at:literal) => {
        $row.get(bits!($at, 1)) == 1
    };
    ($row:expr, $at:literal, $width:literal) => {
        $row.get(bits!($at, $width))
    };
}

/// The set in the 256 bits from `at` on: bit n of them is port n.
#[inline(always)]
fn ports_from<const BYTES: usize>(row: &Row<BYTES>, at: u16) -> Ports
    requires low { at ≤ 256 }
    requires within { at + 256 ≤ 8 * BYTES }
    ensures { result ≡ ports_from row.now at }
{
    Ports::from_words([
        row.get(bits!(at, 64)),
        row.get(bits!(at + 64, 64)),
        row.get(bits!(at + 128, 64)),
        row.get(bits!(at + 192, 64)),
    ])
}

/// Writes a set as `ports_from` reads it from bit `AT` on. The bits before it stay.
fn write_ports<const BYTES: usize, const AT: u16>(row: &mut Row<BYTES>, ports: &Ports)
    requires low { AT ≤ 256 }
    requires within { AT + 256 ≤ 8 * BYTES }
    ensures ports { ports_from row.new AT ≡ ports.now }
    ensures before { KeepsBefore AT row.old row.new }
{
    let [first, second, third, fourth] = ports.words();
    row.set(bits!(AT, 64), first);
    row.set(bits!(AT + 64, 64), second);
    row.set(bits!(AT + 128, 64), third);
    row.set(bits!(AT + 192, 64), fourth);
}

/// A bit as a number.
#[inline(always)]
fn bit(on: bool) -> u64
    ensures value { (result == 1) ≡ on }
    ensures small { result < 2 }
{
    if on { 1 } else { 0 }
}

/// Bits 0 to 255: the members; 256 to 511: those that its frames leave without a tag.
pub fn vlan_row(row: &Row<64>) -> VlanRow
    ensures { result ≡ vlan_of row.now }
{
    VlanRow {
        members: members(row),
        untagged: untagged(row),
    }
}

/// The members in the row of a VLAN.
#[inline(always)]
pub fn members(row: &Row<64>) -> Ports
    ensures { result ≡ (vlan_of row.now).members }
{
    ports_from(row, 0)
}

/// Those of them that its frames leave without a tag.
#[inline(always)]
pub fn untagged(row: &Row<64>) -> Ports
    ensures { result ≡ (vlan_of row.now).untagged }
{
    ports_from(row, 256)
}

/// Whether the port is a member.
#[inline(always)]
pub fn is_member(row: &Row<64>, port: Port) -> bool
    ensures { result ≡ has_number (vlan_of row.now).members port }
{
    row.bit(usize::from(port.number()))
}

pub fn pack_vlan(r: &VlanRow) -> Row<64>
    ensures { vlan_of result ≡ r.now }
{
    let mut row = Row::zero();
    write_ports::<64, 0>(&mut row, &r.members);
    write_ports::<64, 256>(&mut row, &r.untagged);
    row
}

/// Bits 0 to 255: the ports; 256 and 257: a target elsewhere for an isolated, and for a plain ingress port.
#[inline(always)]
pub fn fan_row(row: &Row<33>) -> FanRow
    ensures { result ≡ fan_of row.now }
{
    FanRow {
        ports: ports_from(row, 0),
        isolated: get!(row, 256),
        plain: get!(row, 257),
    }
}

pub fn pack_fan(r: &FanRow) -> Row<33>
    ensures { fan_of result ≡ r.now }
{
    let mut row = Row::zero();
    write_ports::<33, 0>(&mut row, &r.ports);
    row.set(bits!(256, 1), bit(r.isolated));
    row.set(bits!(257, 1), bit(r.plain));
    row
}

/// Bit 0: up; 1 to 3: the state; 4 to 9: the flags; 10: whether there is a PVID; 11 to 22: the PVID; 23: own.
#[inline(always)]
pub fn port_row(row: &Row<3>) -> PortRow
    ensures { result ≡ port_of row.now }
{
    PortRow {
        up: get!(row, 0),
        state: get!(row, 1, 3) as u8,
        flags: flags_of(get!(row, 4, 6)),
        pvid: pvid_of(get!(row, 10), get!(row, 11, 12)),
        own: get!(row, 23),
    }
}

/// Whether the port of a row is up and forwards.
#[inline(always)]
pub fn is_forwarding(row: &Row<3>) -> bool
    ensures { result ≡ row_is_in (port_of row.now) forwarding }
{
    get!(row, 0) && get!(row, 1, 3) as u8 == FORWARDING
}

/// Whether it has the flag `isolated` (Linux's BR_ISOLATED).
#[inline(always)]
pub fn is_isolated(row: &Row<3>) -> bool
    ensures { result ≡ row_has_flag (port_of row.now) isolated }
{
    row.bit(4 + usize::from(Flags::ISOLATED))
}

/// Whether it is on the chip.
#[inline(always)]
pub fn is_own(row: &Row<3>) -> bool
    ensures { result ≡ (port_of row.now).own }
{
    row.bit(23)
}

#[inline(always)]
fn flags_of(bits: u64) -> Flags
    requires { bits < 64 }
    ensures { result ≡ bits }
{
    match Flags::new(bits as u8) {
        Some(flags) => flags,
        None => unreachable!(),
    }
}

#[inline(always)]
fn pvid_of(has: bool, number: u64) -> Option<Vid>
    requires { number < 4096 }
    ensures { result ≡ pvid_from has number }
{
    if has { Vid::new(number as u16) } else { None }
}

/// The number of a VLAN, 0 for none.
fn number_of_pvid(pvid: &Option<Vid>) -> u64
    ensures value { pvid_from (nat_lt 0 result) result ≡ pvid.now }
    ensures below { result < 4096 }
{
    match pvid {
        Some(vid) => u64::from(vid.number()),
        None => 0,
    }
}

/// A row as `port_row` reads it. The state has three bits.
pub fn pack_port(r: &PortRow) -> Row<3>
    requires { r.now.state < 8 }
    ensures { port_of result ≡ r.now }
{
    let mut row = Row::zero();
    row.set(bits!(0, 1), bit(r.up));
    row.set(bits!(1, 3), u64::from(r.state));
    row.set(bits!(4, 6), u64::from(r.flags.bits()));
    let pvid = number_of_pvid(&r.pvid);
    row.set(bits!(10, 1), bit(pvid > 0));
    row.set(bits!(11, 12), pvid);
    row.set(bits!(23, 1), bit(r.own));
    row
}

/// Bit 0: snooping; 1: the spanning tree; 2 and 3: a querier of IP version 4, and of 6.
#[inline(always)]
pub fn control_row(row: &Row<1>) -> Control
    ensures { result ≡ control_of row.now }
{
    Control {
        snooping: get!(row, 0),
        tree: get!(row, 1),
        four: get!(row, 2),
        six: get!(row, 3),
    }
}

pub fn pack_control(control: Control) -> Row<1>
    ensures { control_of result ≡ control }
{
    let mut row = Row::zero();
    row.set(bits!(0, 1), bit(control.snooping));
    row.set(bits!(1, 1), bit(control.tree));
    row.set(bits!(2, 1), bit(control.four));
    row.set(bits!(3, 1), bit(control.six));
    row
}

/// Whether a trap row is on.
#[inline(always)]
pub fn is_on(row: &Row<1>) -> bool
    ensures { result ≡ is_on row.now 0 }
{
    get!(row, 0)
}

/// Bit 0: on.
pub fn pack_trap(on: bool) -> Row<1>
    ensures { is_on result 0 ≡ on }
{
    let mut row = Row::zero();
    row.set(bits!(0, 1), bit(on));
    row
}

/// The VLAN and the address of an address row as one number, 0 where the row isn't used.
#[inline(always)]
pub fn key_in(row: &Row<9>) -> u64
    ensures value { result ≡ key_of row.now }
    ensures below { result < 2 ^ 60 }
{
    get!(row, 0, 60)
}

/// The number of a VLAN and an address, as an address row has it.
#[inline(always)]
pub fn pack_key(v: Vid, m: Mac) -> u64
    ensures value { result ≡ packed v m }
    ensures some { result ≢ 0 }
    ensures below { result < 2 ^ 60 }
    ensures vid { (1 ≤ v) × (v ≤ 4094) }
    ensures mac { m < 2 ^ 48 }
{
    u64::from(v.number()) + 4096 * m.number()
}

/// Bits 0 to 59: the key; 60 to 67: the port; 68 and 69: the kind, local 0, static 1, learned 2, extern 3; 70: pinned.
#[inline(always)]
pub fn address_row(row: &Row<9>) -> AddressRow
    ensures { result ≡ address_of row.now }
{
    AddressRow {
        port: port_from(get!(row, 60, 8)),
        kind: kind_of(get!(row, 68, 2)),
        pinned: get!(row, 70),
    }
}

#[inline(always)]
fn port_from(number: u64) -> Port
    requires { number < 256 }
    ensures { result ≡ port_from number }
{
    match Port::new(number as u8) {
        Some(port) => port,
        None => Port::HOST,
    }
}

#[inline(always)]
fn kind_of(number: u64) -> Kind
    ensures { result ≡ kind_of number }
{
    match number {
        0 => Kind::Local,
        1 => Kind::Static,
        2 => Kind::Learned,
        _ => Kind::Extern,
    }
}

fn number_of(kind: Kind) -> u64
    ensures value { kind_of result ≡ kind }
    ensures below { result < 4 }
{
    match kind {
        Kind::Local => 0,
        Kind::Static => 1,
        Kind::Learned => 2,
        Kind::Extern => 3,
    }
}

/// Whether a chip learned the entry of an address row.
#[inline(always)]
pub fn is_extern(row: &Row<9>) -> bool
    ensures { result ≡ is_extern (address_of row.now).kind }
{
    kind_of(get!(row, 68, 2)) == Kind::Extern
}

/// A row as `key_in` and `address_row` read it. Bit 71, which neither reads, is set.
pub fn pack_address(key: u64, r: &AddressRow) -> Row<9>
    requires { key < 2 ^ 60 }
    ensures key { key_of result ≡ key }
    ensures row { address_of result ≡ r.now }
{
    let mut row = Row::zero();
    row.set(bits!(0, 60), key);
    row.set(bits!(60, 8), u64::from(r.port.number()));
    row.set(bits!(68, 2), number_of(r.kind));
    row.set(bits!(70, 1), bit(r.pinned));
    row.set(bits!(71, 1), 1);
    row
}
