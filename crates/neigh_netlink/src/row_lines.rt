//! Entries as lines.
ghost use Rattle.std.specs.Prelude.{◌≡◌, ◌<◌, ◌++◌, ◌∷◌, [], OnOk, codes};
ghost use Rattle.std.specs.List.{flat_map};
ghost use Rattle.std.specs.String.{string_bytes};
ghost use Rattle.br_model.specs.Text.Spelling.{further};
ghost use Rattle.neigh_netlink.specs.Follow.{row_line};
ghost use Rattle.neigh_netlink.specs.Neighbours.{rows};

use crate::{NoMemory, Table};
use br_model::change::Kind;
use br_model::numbers::{Mac, Port, Vid};
use br_model::spelling::{append_mac, kind_word};
use std::alloc::Global;

/// An entry: VLAN, address, port, kind, and whether a chip has it.
pub(crate) type Row = (Vid, Mac, Port, Kind, bool);

// The word behind the kind, with its space, where a chip has the entry.
fn mark(offload: bool) -> &'static str
    ensures { result.now ≡ further offload (codes "offload") }
{
    if offload { " offload" } else { "" }
}

fn append_row(row: &Row, text: &mut String) -> Result<(), NoMemory>
    ensures { OnOk result (string_bytes text.new ≡ string_bytes text.old ++ row_line row.now) }
{
    let (vid, mac, port, kind, offload) = *row;
    append_mac(mac, text)?;
    let (port, vid) = (port.number(), vid.number());
    let (kind, mark) = (kind_word(kind), mark(offload));
    writeln!(text, " port {port} vlan {vid} {kind}{mark}")
}

// Writes the entries behind the text, a line each, in their order.
fn append_rows(rows: &[Row], text: &mut String) -> Result<(), NoMemory>
    ensures { OnOk result (string_bytes text.new ≡ string_bytes text.old ++ flat_map row_line rows.now) }
{
    for row in rows {
        append_row(row, text)?;
    }
    Ok(())
}

/// Writes the table's entries behind the text, a line each, ascending by VLAN and address, and then the line `end`. After want of
/// memory a part may stand there.
pub(crate) fn append_table(alloc: Global, table: &Table, text: &mut String) -> Result<(), NoMemory>
    ensures { OnOk result (string_bytes text.new ≡ string_bytes text.old ++ (flat_map row_line (rows table.now) ++ (codes "end" ++ 10 ∷ []))) }
{
    let rows = table.list(alloc)?;
    append_rows(rows.as_slice(), text)?;
    text.push_str("end\n")
}
