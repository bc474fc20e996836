//! An audit as lines.
ghost use Rattle.std.specs.Prelude.{◌≡◌, ◌++◌, ◌∷◌, ◌≤◌, [], true, OnOk, Some, string_bytes};
ghost use Rattle.std.specs.List.{filter, flat_map};
ghost use Rattle.br_model.specs.Table.Domains.{has_chip, last_chip};
ghost use Rattle.chip_audit.specs.Lines.{audit_lines, domain_lines, entry_line, entry_text, offload_word as word_of, stale_line, world_lines};

use crate::NoMemory;
use crate::auditing::compare;
use crate::comparison::Comparison;
use crate::entries::{Entries, Found};
use crate::rows::Row;
use br_model::change::Kind;
use br_model::numbers::{Dom, Port};
use br_model::spelling::{append_mac, kind_word};
use bridge_command::Roster;
use fdb_core::Key;
use plane_core::Plane;
use scenario_text::device;
use std::alloc::Global;

fn offload_word(offloaded: bool) -> &'static str
    ensures { result.now ≡ word_of offloaded }
{
    if offloaded { " offload" } else { " pending" }
}

/// An entry of this VLAN and address.
fn append_entry(
    key: &Key,
    port: Port,
    kind: Kind,
    roster: &Roster,
    to: &mut String,
) -> Result<(), NoMemory>
    ensures { OnOk result (string_bytes to.new ≡ string_bytes to.old ++ entry_text roster.now.ports (key.now, (port, kind))) }
{
    append_mac(key.1, to)?;
    let (vid, name, kind) = (key.0.number(), device(roster, port), kind_word(kind));
    write!(to, " dev {name} vlan {vid} {kind}")
}

/// The line of an entry of the bridge.
fn append_found(key: &Key, found: &Found, roster: &Roster, to: &mut String) -> Result<(), NoMemory>
    ensures { OnOk result (string_bytes to.new ≡ string_bytes to.old ++ entry_line roster.now.ports (key.now, found.now)) }
{
    to.push_str("entry ")?;
    append_entry(key, found.port, found.kind, roster, to)?;
    to.push_str(offload_word(found.offloaded))?;
    to.push('\n')?;
    Ok(())
}

fn append_entries(entries: &Entries, roster: &Roster, to: &mut String) -> Result<(), NoMemory>
    ensures { OnOk result (string_bytes to.new ≡ string_bytes to.old ++ flat_map (entry_line roster.now.ports) entries.now.entries) }
{
    for (key, found) in entries {
        append_found(key, found, roster, to)?;
    }
    Ok(())
}

/// The line of a stale entry of the chip.
fn append_stale(row: &Row, roster: &Roster, to: &mut String) -> Result<(), NoMemory>
    ensures { OnOk result (string_bytes to.new ≡ string_bytes to.old ++ stale_line roster.now.ports row.now) }
{
    let (key, (port, kind)) = *row;
    to.push_str("stale ")?;
    append_entry(&key, port, kind, roster, to)?;
    to.push('\n')?;
    Ok(())
}

fn append_stale_ones(rows: &[Row], roster: &Roster, to: &mut String) -> Result<(), NoMemory>
    ensures { OnOk result (string_bytes to.new ≡ string_bytes to.old ++ flat_map (stale_line roster.now.ports) rows.now) }
{
    for row in rows {
        append_stale(row, roster, to)?;
    }
    Ok(())
}

/// The lines of a domain.
fn append_comparison(
    comparison: &Comparison,
    d: Dom,
    roster: &Roster,
    to: &mut String,
) -> Result<(), NoMemory>
    ensures { OnOk result (string_bytes to.new ≡ string_bytes to.old ++ audit_lines roster.now.ports d comparison.now) }
{
    let (domain, waiting) = (d.number(), comparison.waiting());
    writeln!(to, "domain {domain}")?;
    append_entries(comparison.entries(), roster, to)?;
    append_stale_ones(comparison.stale(), roster, to)?;
    writeln!(to, "pending {waiting}")
}

/// The lines of a domain that has a chip.
fn append_domain(
    alloc: Global,
    p: &Plane,
    d: Dom,
    roster: &Roster,
    to: &mut String,
) -> Result<(), NoMemory>
    requires { has_chip p.now.world.setup.domains d ≡ true }
    ensures { OnOk result (string_bytes to.new ≡ string_bytes to.old ++ domain_lines roster.now.ports p.now.world d) }
{
    // law: what holds of every plane
    p.stands();
    let comparison = compare(alloc, p, d)?;
    append_comparison(&comparison, d, roster, to)
}

/// The lines of the domain with this number, where it has a chip.
fn append_numbered(
    alloc: Global,
    p: &Plane,
    number: usize,
    roster: &Roster,
    to: &mut String,
) -> Result<(), NoMemory>
    requires { number ≤ last_chip }
    ensures { OnOk result (string_bytes to.new ≡ string_bytes to.old
        ++ flat_map (domain_lines roster.now.ports p.now.world) (filter (λ k. has_chip p.now.world.setup.domains k) (number ∷ []))) }
{
    match Dom::new(number as u8) {
        Some(d) if p.domains().has_chip(d) => append_domain(alloc, p, d, roster, to),
        _ => Ok(()),
    }
}

/// Appends the audit of each domain that has a chip, ascending.
pub fn append_audit(
    alloc: Global,
    plane: &Plane,
    roster: &Roster,
    to: &mut String,
) -> Result<(), NoMemory>
    ensures { OnOk result (string_bytes to.new ≡ string_bytes to.old ++ world_lines roster.now.ports plane.now.world) }
{
    for number in 1..Dom::PLACES {
        append_numbered(alloc, plane, number, roster, to)?;
    }
    Ok(())
}
