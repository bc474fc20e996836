//! The bridge's address entries, each with whether a chip has it.
ghost use Rattle.std.specs.Prelude.{◌≡◌, IfOk, OnOk, IsTrue};
ghost use Rattle.std.specs.List.{filter};
ghost use Rattle.br_model.specs.Data.Maps.{pair_cmp, is_ascending};
ghost use Rattle.br_model.specs.Table.Change.{address_part};
ghost use Rattle.chip_audit.specs.Marks.{all_offloaded, entries_after, is_at, is_gone};

use crate::NoMemory;
use crate::rows::Row;
use br_model::change::{Change, Kind};
use br_model::numbers::Port;
use br_model::plain::maps::{find, put, take};
use fdb_core::Key;
use std::alloc::Global;
use std::collections::BTreeMap;

/// Where an entry of the bridge is, of which kind it is, and whether the chip has it.
#[derive(Clone, Copy)]
pub struct Found {
    pub port: Port,
    pub kind: Kind,
    pub offloaded: bool,
}

/// By VLAN and address.
pub type Entries = BTreeMap<Key, Found>;

/// Those of a chip, which has them.
pub(crate) fn of_rows(alloc: Global, rows: &[Row]) -> Result<Entries, NoMemory>
    requires { IsTrue (is_ascending pair_cmp rows.now) }
    ensures { IfOk result (λ entries. entries.entries ≡ all_offloaded rows.now) }
{
    let mut entries = BTreeMap::new(alloc);
    for row in rows {
        let (key, (port, kind)) = *row;
        let found = Found {
            port,
            kind,
            offloaded: true,
        };
        put(&mut entries, key, found)?;
    }
    Ok(entries)
}

/// Those after an update that the chip hasn't applied. After want of memory nothing is known of them.
pub(crate) fn follow(entries: &mut Entries, change: &Change) -> Result<(), NoMemory>
    ensures { OnOk result (entries.new.entries ≡ entries_after entries.old.entries (address_part change.now)) }
{
    match *change {
        Change::AddrPut {
            vid,
            mac,
            port,
            kind,
        } => {
            let found = Found {
                port,
                kind,
                offloaded: false,
            };
            put(entries, (vid, mac), found)
        }
        Change::AddrDel { vid, mac } => {
            take(entries, &(vid, mac));
            Ok(())
        }
        _ => Ok(()),
    }
}

/// Whether an entry is there with this port and kind.
fn is_at(place: &(Port, Kind), there: Option<Found>) -> bool
    ensures { result ≡ is_at place.now there }
{
    match there {
        Some(found) => found.port == place.0 && found.kind == place.1,
        None => false,
    }
}

/// Whether none of them is at the row's VLAN and address, or one with another port or kind.
fn is_gone(entries: &Entries, row: &Row) -> bool
    ensures { result ≡ is_gone entries.now.entries row.now }
{
    !is_at(&row.1, find(entries, &row.0))
}

/// The rows of a chip that are gone.
pub(crate) fn gone(alloc: Global, entries: &Entries, rows: &[Row]) -> Result<Vec<Row>, NoMemory>
    ensures { IfOk result (λ gone. gone.items ≡ filter (is_gone entries.now.entries) rows.now) }
{
    let mut gone = Vec::new(alloc);
    for row in rows {
        if is_gone(entries, row) {
            gone.push(*row)?;
        }
    }
    Ok(gone)
}
