//! What the chip hands to the processor alone, by its trap rows.
ghost use Rattle.std.specs.Prelude.{ℕ, ◌≡◌, ◌==◌, ◌≤◌, ◌<◌, ◌&&◌, ◌||◌, is_some, IfSome};
ghost use Rattle.br_model.specs.Forward.Admission.{has_valid_source};
ghost use Rattle.br_model.specs.Forward.Class.{is_snooped};
ghost use Rattle.br_model.specs.Table.Domains.{Domains};
ghost use Rattle.br_model.specs.Control.Learning.{is_reserved};
ghost use Rattle.br_model.specs.Table.Table.{Table};
ghost use Rattle.br_model.specs.Forward.Targets.{bridge_group_address, pause_address, is_for_the_host, to_tree};
ghost use Rattle.chip_tables.specs.Rows.{port_at};
ghost use Rattle.chip_tables.specs.Stands.{Stands};

use br_model::frame::{Head, McastMsg};
use br_model::numbers::{Mac, Port};
use chip_tables::trap_rows::{IGMP, MLD_DONE, MLD_QUERY, MLD_RECORDS, MLD_REPORT, TREE};
use chip_tables::{PortRow, Tables};

/// Whether the destination is 01-80-C2-00-00-00 and trapped.
pub fn is_for_bridges(tables: &Tables, head: &Head) -> bool
    ensures { (d : Domains) (dom : ℕ) (t : Table) → Stands d dom tables.now t → result ≡ ((head.now.dst == bridge_group_address) && t.stp) }
{
    head.dst.number() == Mac::BRIDGE_GROUP_ADDRESS && tables.trap(TREE)
}

/// Whether the frame is for the spanning tree.
pub fn is_for_tree(tables: &Tables, port: Port, row: &PortRow, head: &Head) -> bool
    requires { row.now ≡ port_at tables.now port }
    ensures { (d : Domains) (dom : ℕ) (t : Table) → Stands d dom tables.now t → result ≡ to_tree t port head.now }
{
    // law: the port is in range
    let _number = port.number();
    is_for_bridges(tables, head) && speaks(row, head)
}

/// Whether the port is up and the source one station's address.
fn speaks(row: &PortRow, head: &Head) -> bool
    ensures { result ≡ (row.now.up && has_valid_source head.now) }
{
    row.up && head.has_valid_source()
}

/// Whether frames to the destination teach nothing.
pub fn is_reserved(tables: &Tables, head: &Head) -> bool
    ensures { (d : Domains) (dom : ℕ) (t : Table) → Stands d dom tables.now t → result ≡ is_reserved t head.now }
{
    is_for_bridges(tables, head) || is_always_reserved(head)
}

/// Whether the destination is one of 01-80-C2-00-00-01 to 0F.
fn is_always_reserved(head: &Head) -> bool
    ensures { result ≡ (head.now.dst == pause_address || is_for_the_host head.now.dst) }
{
    head.dst.number() == Mac::PAUSE_ADDRESS || head.dst.is_for_the_host()
}

/// Whether the destination is one of 01-80-C2-00-00-02 to 0F, all of which are trapped.
pub fn is_trapped_for_host(tables: &Tables, head: &Head) -> bool
    ensures { (d : Domains) (dom : ℕ) (t : Table) → Stands d dom tables.now t → result ≡ is_for_the_host head.now.dst }
{
    match host_row(head) {
        Some(place) => tables.trap(place),
        None => false,
    }
}

/// The trap row of 01-80-C2-00-00-02 to 0F: the last four bits of the address.
fn host_row(head: &Head) -> Option<usize>
    ensures some { is_some result ≡ is_for_the_host head.now.dst }
    ensures range { IfSome result (λ i. (2 ≤ i) × (i < 16)) }
{
    if head.dst.is_for_the_host() {
        Some((head.dst.number() & 15) as usize)
    } else {
        None
    }
}

/// Whether snooping is on and wants to see the message.
pub fn catches(tables: &Tables, msg: &McastMsg) -> bool
    ensures { (d : Domains) (dom : ℕ) (t : Table) → Stands d dom tables.now t → result ≡ (t.snoop && is_snooped msg.now) }
{
    match trap_row(msg) {
        Some(place) => tables.trap(place),
        None => false,
    }
}

/// The trap row that the message comes by. One that isn't recognized comes by that of IGMP, whichever its protocol is: the rows
/// of IGMP and ICMPv6 are on and off together.
fn trap_row(msg: &McastMsg) -> Option<usize>
    ensures some { is_some result ≡ is_snooped msg.now }
    ensures range { IfSome result (λ i. (16 ≤ i) × (i < 21)) }
{
    match *msg {
        McastMsg::Plain | McastMsg::Payload(_) => None,
        McastMsg::Query { six, .. } => Some(if six { MLD_QUERY } else { IGMP }),
        McastMsg::Report(group) => Some(if group.is_six() { MLD_REPORT } else { IGMP }),
        McastMsg::Leave(group) => Some(if group.is_six() { MLD_DONE } else { IGMP }),
        McastMsg::Records { six, .. } => Some(if six { MLD_RECORDS } else { IGMP }),
        McastMsg::Unrecognized => Some(IGMP),
    }
}
