//! The source: what the chip reports of it, and whether it hits its entry.
ghost use Rattle.std.specs.Prelude.{◌≡◌, ℕ, ◌&&◌, ◌||◌, not, if◌then◌else◌, IfSome, Some, None};
ghost use Rattle.br_model.specs.Forward.Admission.{forwarding, learning, vlan_of};
ghost use Rattle.br_model.specs.Plane.Chip.{report, hit_of, hit_in, is_at, report_of};
ghost use Rattle.br_model.specs.Table.Domains.{Domains};
ghost use Rattle.br_model.specs.Control.Learning.{is_news, is_reserved, learning_flag, may_teach, teach_in};
ghost use Rattle.br_model.specs.Table.Table.{Table};
ghost use Rattle.chip_tables.specs.Rows.{port_at};
ghost use Rattle.chip_tables.specs.Stands.{IsVid, Stands};
ghost use Rattle.chip_tables.specs.Flags.{row_has_flag, row_is_in};
ghost use Rattle.chip_pipeline.specs.Ways.{entry_wanted};

use crate::entries::address_row;
use crate::ports::{forwards, is_learning, learns};
use crate::traps::is_reserved;
use br_model::frame::Head;
use br_model::numbers::{Mac, Port, Vid};
use chip_tables::{AddressRow, PortRow, Tables};

/// What the chip makes of a frame's source.
#[derive(Clone, Copy)]
pub struct Sighting {
    pub report: Option<(Vid, Mac)>,
    pub hit: Option<(Vid, Mac)>,
}

/// What the chip makes of the source of a frame in this VLAN, if it is in one.
pub fn sight(tables: &Tables, port: Port, row: &PortRow, vid: &Option<Vid>, head: &Head) -> Sighting
    requires row { row.now ≡ port_at tables.now port }
    requires range { IfSome vid.now IsVid }
    ensures report { (d : Domains) (dom : ℕ) (t : Table) → Stands d dom tables.now t → vid.now ≡ vlan_of t port head.now
        → result.report ≡ report t port head.now }
    ensures hit { (d : Domains) (dom : ℕ) (t : Table) → Stands d dom tables.now t → vid.now ≡ vlan_of t port head.now
        → result.hit ≡ hit_of t port head.now }
{
    if !head.has_valid_source() {
        return unseen();
    }
    match *vid {
        Some(vid) => sight_in(tables, port, row, vid, head),
        None => unseen(),
    }
}

fn unseen() -> Sighting
    ensures { result ≡ record { report = None; hit = None } }
{
    Sighting {
        report: None,
        hit: None,
    }
}

fn sight_in(tables: &Tables, port: Port, row: &PortRow, vid: Vid, head: &Head) -> Sighting
    requires row { row.now ≡ port_at tables.now port }
    requires range { IsVid vid }
    ensures report { (d : Domains) (dom : ℕ) (t : Table) → Stands d dom tables.now t
        → result.report ≡ (if not (is_reserved t head.now) then report_of t port (teach_in t port (Some vid) head.now.src) else None) }
    ensures hit { (d : Domains) (dom : ℕ) (t : Table) → Stands d dom tables.now t → result.hit ≡ hit_in t port (Some vid) head.now.src }
{
    let entry = address_row(tables, vid, head.src);
    Sighting {
        report: where_so(
            is_reported(tables, port, row, vid, head, &entry),
            vid,
            head.src,
        ),
        hit: where_so(is_at(&entry, port), vid, head.src),
    }
}

/// Whether the frame teaches its source, which has this entry, and it is new at the port.
fn is_reported(
    tables: &Tables,
    port: Port,
    row: &PortRow,
    vid: Vid,
    head: &Head,
    entry: &Option<AddressRow>,
) -> bool
    requires row { row.now ≡ port_at tables.now port }
    requires range { IsVid vid }
    ensures { (d : Domains) (dom : ℕ) (t : Table) → Stands d dom tables.now t → entry.now ≡ entry_wanted t vid head.now.src
        → result ≡ (not (is_reserved t head.now) && (may_teach t port vid && is_news t (vid, head.now.src) port)) }
{
    if is_reserved(tables, head) {
        return false;
    }
    if !may_teach(tables, port, row, vid) {
        return false;
    }
    is_news(entry, port)
}

/// The VLAN and the address, where it is so.
fn where_so(so: bool, vid: Vid, mac: Mac) -> Option<(Vid, Mac)>
    ensures { result ≡ (if so then Some (vid, mac) else None) }
{
    if so { Some((vid, mac)) } else { None }
}

/// Whether the port learns addresses of the VLAN.
fn may_teach(tables: &Tables, port: Port, row: &PortRow, vid: Vid) -> bool
    requires row { row.now ≡ port_at tables.now port }
    requires range { IsVid vid }
    ensures { (d : Domains) (dom : ℕ) (t : Table) → Stands d dom tables.now t → result ≡ may_teach t port vid }
{
    // law: the port is in range
    let _number = port.number();
    let is_member = tables.is_member(vid, port);
    sees(row) && is_member
}

/// Whether the port is up, learning or forwarding, and has the flag `learning`.
fn sees(row: &PortRow) -> bool
    ensures { result ≡ ((row_is_in row.now learning || row_is_in row.now forwarding) && row_has_flag row.now learning_flag) }
{
    (is_learning(row) || forwards(row)) && learns(row)
}

/// Whether an address with this entry is new at the port: it has none, or one at another port that may move.
fn is_news(entry: &Option<AddressRow>, port: Port) -> bool
    ensures { (t : Table) (vid mac : ℕ) → entry.now ≡ entry_wanted t vid mac → result ≡ is_news t (vid, mac) port }
{
    match entry {
        Some(entry) => !entry.pinned && entry.port != port,
        None => true,
    }
}

/// Whether the entry is one of this port.
fn is_at(entry: &Option<AddressRow>, port: Port) -> bool
    ensures { (t : Table) (vid mac : ℕ) → entry.now ≡ entry_wanted t vid mac → result ≡ is_at t (vid, mac) port }
{
    match entry {
        Some(entry) => entry.port == port,
        None => false,
    }
}
