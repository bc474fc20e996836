//! A sweep: the stations that the chip no longer sees.
ghost use Rattle.std.specs.Prelude.{◌≡◌, ◌<◌, ℕ, IfOk, Option, Some, slice_get};
ghost use Rattle.br_model.specs.Plane.Chip.{unhit};
ghost use Rattle.br_model.specs.Table.DomainPorts.{is_in_domain};
ghost use Rattle.br_model.specs.Table.Domains.{Domains};
ghost use Rattle.br_model.specs.Control.Learning.{Address};
ghost use Rattle.br_model.specs.Table.Table.{Table};
ghost use Rattle.chip_tables.specs.Rows.{address_rows, extern_at};
ghost use Rattle.chip_tables.specs.Stands.{PortsStand, Stands};
ghost use Rattle.learn_report.specs.Reports.{chip_of};
ghost use Rattle.hwdom_chips.specs.Sweep.{is_unhit, unseen};

use crate::NoMemory;
use br_model::numbers::{Mac, Port, Vid};
use br_model::steps::Triples;
use chip_tables::Tables;
use learn_report::Reports;
use std::alloc::Global;

/// Whether a port is on the chip.
fn is_own(tables: &Tables, port: Port) -> bool
    ensures { (domains : Domains) (dom : ℕ) (t : Table) → PortsStand domains dom tables.now t → result ≡ is_in_domain domains dom port }
{
    // law: the port is in range
    let _number = port.number();
    tables.port(port).own
}

/// Whether the port of a chip's entry is on the chip, and no frame hit the entry.
fn is_unhit(tables: &Tables, reports: &Reports, vid: Vid, mac: Mac, port: Port) -> bool
    ensures { (domains : Domains) (dom : ℕ) (t : Table) → PortsStand domains dom tables.now t → result ≡ is_unhit domains dom reports.now.hits (vid, mac) port }
{
    is_own(tables, port) && !reports.has(vid, mac)
}

/// The station in an address row and its port, if a chip learned it and no longer sees it there.
fn unseen(tables: &Tables, reports: &Reports, i: usize) -> Option<(Vid, Mac, Port)>
    requires { i < address_rows }
    ensures { (domains : Domains) (dom : ℕ) (t : Table) (place : Option Address) → PortsStand domains dom tables.now t
        → slice_get tables.now.places i ≡ Some place
        → result ≡ unseen domains dom reports.now.hits (extern_at tables.now place) }
{
    let ((vid, mac), row) = tables.extern_at(i)?;
    if is_unhit(tables, reports, vid, mac, row.port) {
        Some((vid, mac, row.port))
    } else {
        None
    }
}

/// These stations, ascending by VLAN and address. Rows are sorted once the others are left out.
pub fn unhit(alloc: Global, tables: &Tables, reports: &Reports) -> Result<Triples, NoMemory>
    ensures { IfOk result (λ stations. (domains : Domains) (dom : ℕ) (t : Table) (n : ℕ) → Stands domains dom tables.now t
        → stations ≡ unhit domains t (chip_of dom n reports.now)) }
{
    let mut stations = Vec::new(alloc);
    for i in 0..tables.written_address_rows() {
        if let Some(station) = unseen(tables, reports, i) {
            stations.push(station)?;
        }
    }
    stations.sort_unstable();
    Ok(Triples::of(stations))
}
