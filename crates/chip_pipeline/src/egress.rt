//! The way out: which of its ports the chip sends by, and whether the processor is to have the frame too, or alone.
ghost use Rattle.std.specs.Prelude.{ℕ, ◌≡◌, ◌&&◌, [], false, if◌then◌else◌};
ghost use Rattle.br_model.specs.Table.Domains.{Domains};
ghost use Rattle.br_model.specs.Forward.Eligible.{may};
ghost use Rattle.br_model.specs.Table.Table.{Table};
ghost use Rattle.br_model.specs.Forward.Targets.{targets};
ghost use Rattle.br_model.specs.declared.frame.Class.TheVariants.{Drop, Copy, Forward};
ghost use Rattle.br_model.specs.declared.frame.Head.{Head};
ghost use Rattle.br_model.specs.declared.frame.McastMsg.{McastMsg};
ghost use Rattle.port_sets.specs.Numbers.{has_number};
ghost use Rattle.chip_tables.specs.Rows.{vlan_at, port_at};
ghost use Rattle.chip_tables.specs.Stands.{IsVid, Stands, ports_where};
ghost use Rattle.chip_pipeline.specs.Outs.{IsOut};
ghost use Rattle.chip_pipeline.specs.Passed.{AtChip};
ghost use Rattle.chip_pipeline.specs.PortRows.{row_lets, row_takes};
ghost use Rattle.chip_pipeline.specs.Ways.{IsWay, Leads, LeadsTo, leaves_chip};

use crate::lookup::Way;
use crate::ports::is_isolated;
use br_model::frame::Class;
use br_model::numbers::{Port, Vid};
use chip_tables::{FanRow, PortRow, Tables};
use port_sets::Ports;

/// The ports of the row that may take a frame of the VLAN that came by the port, isolated or not. It reads the row of each that
/// is a member, since no other row tells which ports forward.
pub fn reached(tables: &Tables, port: Port, alone: bool, vid: Vid, fan: &FanRow) -> Ports
    ensures { result ≡ ports_where (λ q. has_number fan.now.ports q && row_takes port alone (vlan_at tables.now vid) q (port_at tables.now q)) }
{
    let members = tables.members(vid);
    let others = fan.ports.and(members).without(port.number());
    let mut ports = Ports::empty();
    for number in others.iter() {
        if lets(tables, alone, number) {
            ports = ports.with(number);
        }
    }
    ports
}

/// Whether the row of a number says that its port forwards and isn't isolated from the ingress port.
fn lets(tables: &Tables, alone: bool, number: u8) -> bool
    ensures { result ≡ row_lets alone (port_at tables.now number) }
{
    tables.is_forwarding(number) && !(alone && tables.is_isolated(number))
}

/// What the chip does with an admitted frame that snooping doesn't catch.
#[derive(Clone, Copy)]
pub struct Out {
    pub class: Class,
    pub ports: Ports,
}

/// What the chip does with a frame of the VLAN that is to go this way.
pub fn send(tables: &Tables, port: Port, row: &PortRow, vid: Vid, way: &Way) -> Out
    requires row { row.now ≡ port_at tables.now port }
    requires range { IsVid vid }
    ensures { (d : Domains) (dom : ℕ) (t : Table) (head : Head) (msg : McastMsg) → AtChip d dom tables.now t port
        → IsWay d dom t port vid head msg way.now → IsOut d t port vid head msg result }
{
    match *way {
        Way::Nowhere => nothing(Class::Drop),
        Way::One(goal) => send_to(tables, port, row, vid, goal),
        Way::Many(fan) => send_by(tables, port, row, vid, &fan),
    }
}

/// To one port: by it where it is the chip's own, by the processor where it is elsewhere.
fn send_to(tables: &Tables, port: Port, row: &PortRow, vid: Vid, goal: Port) -> Out
    requires row { row.now ≡ port_at tables.now port }
    requires range { IsVid vid }
    ensures { (d : Domains) (dom : ℕ) (t : Table) (head : Head) (msg : McastMsg) → AtChip d dom tables.now t port
        → LeadsTo d t port vid head goal (targets t vid head msg) → IsOut d t port vid head msg result }
{
    if !may_take(tables, port, row, vid, goal) {
        return nothing(Class::Drop);
    }
    if tables.is_own(goal) {
        Out {
            class: Class::Forward,
            ports: Ports::empty().with(goal.number()),
        }
    } else {
        nothing(Class::Trap)
    }
}

/// By no port.
fn nothing(class: Class) -> Out
    ensures { result ≡ record { class = class; ports = [] } }
{
    Out {
        class,
        ports: Ports::empty(),
    }
}

/// Whether a port may take a frame of the VLAN that came by the other.
fn may_take(tables: &Tables, port: Port, row: &PortRow, vid: Vid, goal: Port) -> bool
    requires row { row.now ≡ port_at tables.now port }
    requires range { IsVid vid }
    ensures { (d : Domains) (dom : ℕ) (t : Table) → Stands d dom tables.now t → result ≡ may t port goal vid }
{
    // law: the port is in range
    let _number = port.number();
    let n = goal.number();
    if !tables.is_member(vid, goal) {
        return false;
    }
    if goal.is_host() {
        return true;
    }
    if goal == port {
        return false;
    }
    lets(tables, is_isolated(row), n)
}

/// To the ports of a row, and by the processor too where its bit tells of a port elsewhere.
fn send_by(tables: &Tables, port: Port, row: &PortRow, vid: Vid, fan: &FanRow) -> Out
    requires row { row.now ≡ port_at tables.now port }
    requires range { IsVid vid }
    ensures { (d : Domains) (dom : ℕ) (t : Table) (head : Head) (msg : McastMsg) → AtChip d dom tables.now t port
        → Leads d dom t port vid fan.now (targets t vid head msg) → leaves_chip d t port vid head ≡ false
        → IsOut d t port vid head msg result }
{
    let alone = is_isolated(row);
    let ports = reached(tables, port, alone, vid, fan);
    let elsewhere = if alone { fan.isolated } else { fan.plain };
    // law: the port is in range
    let _number = port.number();
    Out {
        class: class_by(elsewhere, ports.is_empty()),
        ports,
    }
}

fn class_by(elsewhere: bool, nowhere: bool) -> Class
    ensures { result ≡ (if elsewhere then Copy else if nowhere then Drop else Forward) }
{
    if elsewhere {
        Class::Copy
    } else if nowhere {
        Class::Drop
    } else {
        Class::Forward
    }
}
