//! The address entries of a chip, read from its rows.
ghost use Rattle.std.specs.Prelude.{◌≡◌, IfOk, map, filter_map};
ghost use Rattle.br_model.specs.Table.Table.{Table};
ghost use Rattle.chip_tables.specs.Rows.{IsPlaced};
ghost use Rattle.chip_tables.specs.Stands.{AddressesStand};
ghost use Rattle.chip_audit.specs.Marks.{row_at};

use crate::NoMemory;
use br_model::change::Kind;
use br_model::numbers::Port;
use chip_tables::Tables;
use fdb_core::Key;
use std::alloc::Global;

/// An address entry: its VLAN and address, its port and its kind.
pub type Row = (Key, (Port, Kind));

/// The keys of the used address rows, ascending.
fn keys(alloc: Global, tables: &Tables) -> Result<Vec<Key>, NoMemory>
    ensures keys { IfOk result (λ keys. keys.items ≡ map (λ e. e.0) tables.now.addresses) }
    ensures placed { IsPlaced tables.now }
{
    let mut keys = Vec::new(alloc);
    for i in 0..tables.address_rows() {
        if let Some(key) = tables.address_at(i) {
            keys.push(key)?;
        }
    }
    keys.sort_unstable();
    Ok(keys)
}

/// What the row of a key says, if one is used for it.
fn row_at(tables: &Tables, key: &Key) -> Option<Row>
    ensures { result ≡ row_at tables.now key.now }
{
    let row = tables.address(key.0, key.1)?;
    Some((*key, (row.port, row.kind)))
}

/// What the rows of these keys say, in their order.
fn rows_of(alloc: Global, tables: &Tables, keys: &[Key]) -> Result<Vec<Row>, NoMemory>
    ensures { IfOk result (λ rows. rows.items ≡ filter_map (row_at tables.now) keys.now) }
{
    let mut rows = Vec::with_capacity(alloc, keys.len())?;
    for key in keys {
        if let Some(row) = row_at(tables, key) {
            rows.push(row)?;
        }
    }
    Ok(rows)
}

/// The address entries of a chip whose rows stand for a table: those of the table.
pub(crate) fn rows(alloc: Global, tables: &Tables) -> Result<Vec<Row>, NoMemory>
    ensures { IfOk result (λ rows. (t : Table) → AddressesStand tables.now t → rows.items ≡ t.addr) }
{
    let keys = keys(alloc, tables)?;
    rows_of(alloc, tables, keys.as_slice())
}
