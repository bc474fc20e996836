//! The VLAN of a frame.
ghost use Rattle.std.specs.Prelude.{ℕ, ◌≡◌, IfSome, Some};
ghost use Rattle.br_model.specs.Forward.Admission.{vlan_of, vlan_of_tag};
ghost use Rattle.br_model.specs.Table.Domains.{Domains};
ghost use Rattle.br_model.specs.Table.Table.{Table};
ghost use Rattle.chip_tables.specs.Rows.{port_at};
ghost use Rattle.chip_tables.specs.Stands.{Stands, IsVid};

use br_model::frame::{Head, Tag};
use br_model::numbers::{Port, Vid};
use chip_tables::{PortRow, Tables};

/// The VLAN that the frame's tag, or its absence, gives at the port.
pub fn vlan_of(tables: &Tables, port: Port, row: &PortRow, head: &Head) -> Option<Vid>
    requires { row.now ≡ port_at tables.now port }
    ensures vid { (d : Domains) (dom : ℕ) (t : Table) → Stands d dom tables.now t → result ≡ vlan_of t port head.now }
    ensures range { IfSome result IsVid }
{
    match head.tag {
        None => vlan_of_port(row),
        Some(tag) => vlan_of_tag(tables, port, row, tag),
    }
}

fn vlan_of_tag(tables: &Tables, port: Port, row: &PortRow, tag: Tag) -> Option<Vid>
    requires { row.now ≡ port_at tables.now port }
    ensures vid { (d : Domains) (dom : ℕ) (t : Table) → Stands d dom tables.now t → result ≡ vlan_of_tag t port (Some tag) }
    ensures range { IfSome result IsVid }
{
    if tag.vid == 0 {
        return vlan_of_port(row);
    }
    let vid = Vid::new(tag.vid)?;
    // law: the VLAN is in range
    let _number = vid.number();
    // law: the port is in range
    let _port = port.number();
    if tables.is_member(vid, port) {
        Some(vid)
    } else {
        None
    }
}

/// The VLAN of the port's untagged frames.
fn vlan_of_port(row: &PortRow) -> Option<Vid>
    ensures vid { result ≡ row.now.pvid }
    ensures range { IfSome result IsVid }
{
    match row.pvid {
        Some(vid) => {
            // law: the VLAN is in range
            let _number = vid.number();
            Some(vid)
        }
        None => None,
    }
}
