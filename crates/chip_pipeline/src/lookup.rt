//! The lookup: where an admitted frame is to go.
ghost use Rattle.std.specs.Prelude.{◌≡◌, ℕ, ◌<◌, ◌==◌, ◌&&◌, ◌||◌, ◌∷◌, ◌++◌, not, false, if◌then◌else◌};
ghost use Rattle.br_model.specs.Forward.Class.{is_snooped};
ghost use Rattle.br_model.specs.Table.Domains.{Domains, host, port_places};
ghost use Rattle.br_model.specs.Table.Groups.{is_link_local, is_six};
ghost use Rattle.br_model.specs.Data.Numbers.{is_multicast};
ghost use Rattle.br_model.specs.Table.Table.{Table};
ghost use Rattle.br_model.specs.Forward.Targets.{bridge_group_address, pause_address, bcast_flood, with_flag, knows_querier, members_of, multicast_flood, port_of, snooped_targets};
ghost use Rattle.br_model.specs.declared.frame.McastMsg.{McastMsg};
ghost use Rattle.port_sets.specs.Numbers.{has_number};
ghost use Rattle.chip_tables.specs.Stands.{IsVid, Stands, ports_where};
ghost use Rattle.chip_pipeline.specs.Passed.{AtChip};
ghost use Rattle.chip_pipeline.specs.Ways.{IsMany, IsWay, Leads};

use crate::entries::{address_row, group_row};
use crate::traps::{is_for_bridges, is_trapped_for_host};
use br_model::change::Kind;
use br_model::frame::{Head, McastMsg};
use br_model::group::Group;
use br_model::numbers::{Mac, Port, Vid};
use chip_tables::{AddressRow, FanRow, Flood, Tables};

/// Where a frame is to go.
#[derive(Clone, Copy)]
pub enum Way {
    Nowhere,
    /// To the station behind this port, or to the host.
    One(Port),
    /// To the ports of this row, and of those elsewhere to the ones that its bits tell of.
    Many(FanRow),
}

/// Where an admitted frame that snooping doesn't catch is to go.
pub fn lookup(tables: &Tables, vid: Vid, head: &Head, msg: &McastMsg) -> Way
    requires { IsVid vid }
    ensures { (d : Domains) (dom : ℕ) (t : Table) (port : ℕ) → AtChip d dom tables.now t port → (t.snoop && is_snooped msg.now) ≡ false
        → IsWay d dom t port vid head.now msg.now result }
{
    if !head.dst.is_multicast() {
        to_station(tables, vid, head)
    } else if is_for_nobody(tables, head) {
        Way::Nowhere
    } else if is_trapped_for_host(tables, head) {
        Way::One(Port::HOST)
    } else if head.dst.number() == Mac::BROADCAST_ADDRESS {
        to_all(tables, vid)
    } else {
        to_group(tables, vid, msg)
    }
}

/// Whether no port is to have the frame: it is for the spanning tree, or a PAUSE frame.
fn is_for_nobody(tables: &Tables, head: &Head) -> bool
    ensures { (d : Domains) (dom : ℕ) (t : Table) → Stands d dom tables.now t
        → result ≡ ((head.now.dst == bridge_group_address && t.stp) || head.now.dst == pause_address) }
{
    is_for_bridges(tables, head) || head.dst.number() == Mac::PAUSE_ADDRESS
}

/// Where a frame to a station is to go.
fn to_station(tables: &Tables, vid: Vid, head: &Head) -> Way
    requires range { IsVid vid }
    requires station { is_multicast head.now.dst ≡ false }
    ensures { (d : Domains) (dom : ℕ) (t : Table) (port : ℕ) (m : McastMsg) → AtChip d dom tables.now t port → IsWay d dom t port vid head.now m result }
{
    match address_row(tables, vid, head.dst) {
        Some(entry) => Way::One(port_of(&entry)),
        None => Way::Many(tables.flood(vid, Flood::Unicast)),
    }
}

/// Where an entry sends: the host for a local one.
fn port_of(entry: &AddressRow) -> Port
    ensures value { result ≡ port_of (entry.now.port, entry.now.kind) }
    ensures below { result < port_places }
{
    let port = match entry.kind {
        Kind::Local => Port::HOST,
        Kind::Static | Kind::Learned | Kind::Extern => entry.port,
    };
    // law: the port is in range
    let _number = port.number();
    port
}

/// The flood of broadcasts.
fn to_all(tables: &Tables, vid: Vid) -> Way
    requires { IsVid vid }
    ensures { (d : Domains) (dom : ℕ) (t : Table) (port : ℕ) → Stands d dom tables.now t → IsMany d dom t port vid (host ∷ with_flag t bcast_flood) result }
{
    Way::Many(tables.flood(vid, Flood::Bcast))
}

/// Where a frame to a group is to go.
fn to_group(tables: &Tables, vid: Vid, msg: &McastMsg) -> Way
    requires { IsVid vid }
    ensures { (d : Domains) (dom : ℕ) (t : Table) (port : ℕ) → Stands d dom tables.now t → (t.snoop && is_snooped msg.now) ≡ false
        → IsMany d dom t port vid (if t.snoop then snooped_targets t vid msg.now else multicast_flood t) result }
{
    match *msg {
        McastMsg::Payload(group) => {
            if goes_to_members(tables, group) {
                Way::Many(to_members(tables, vid, group))
            } else {
                Way::Many(multicast_flood(tables, vid))
            }
        }
        McastMsg::Plain
        | McastMsg::Query { .. }
        | McastMsg::Report(_)
        | McastMsg::Leave(_)
        | McastMsg::Records { .. }
        | McastMsg::Unrecognized => Way::Many(multicast_flood(tables, vid)),
    }
}

/// The flood of multicast frames.
fn multicast_flood(tables: &Tables, vid: Vid) -> FanRow
    requires { IsVid vid }
    ensures { (d : Domains) (dom : ℕ) (t : Table) (port : ℕ) → Stands d dom tables.now t → Leads d dom t port vid result (multicast_flood t) }
{
    tables.flood(vid, Flood::Mcast)
}

/// Whether packets to the group go to its members and to routers alone.
fn goes_to_members(tables: &Tables, group: Group) -> bool
    ensures { (d : Domains) (dom : ℕ) (t : Table) → Stands d dom tables.now t
        → result ≡ (t.snoop && (not (is_link_local group) && knows_querier t (is_six group))) }
{
    let control = tables.control();
    let knows_querier = if group.is_six() {
        control.six
    } else {
        control.four
    };
    control.snooping && !group.is_link_local() && knows_querier
}

fn to_members(tables: &Tables, vid: Vid, group: Group) -> FanRow
    requires { IsVid vid }
    ensures { (d : Domains) (dom : ℕ) (t : Table) (port : ℕ) → Stands d dom tables.now t → Leads d dom t port vid result (members_of t vid group ++ t.routers) }
{
    let routers = tables.router(vid);
    match group_row(tables, vid, group) {
        Some(members) => both(&members, &routers),
        None => routers,
    }
}

/// To where either row leads.
fn both(a: &FanRow, b: &FanRow) -> FanRow
    ensures ports { result.ports ≡ ports_where (λ q. has_number a.now.ports q || has_number b.now.ports q) }
    ensures isolated { result.isolated ≡ (a.now.isolated || b.now.isolated) }
    ensures plain { result.plain ≡ (a.now.plain || b.now.plain) }
{
    FanRow {
        ports: a.ports.or(b.ports),
        isolated: a.isolated || b.isolated,
        plain: a.plain || b.plain,
    }
}
