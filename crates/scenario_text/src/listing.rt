//! Tables as listings.
ghost use Rattle.std.specs.Prelude.{◌≡◌, ◌==◌, ◌++◌, ◌∷◌, [], Some, IfOk, OnOk, codes, decimal};
ghost use Rattle.std.specs.List.{filter, flat_map};
ghost use Rattle.std.specs.Option.{option_eq};
ghost use Rattle.std.specs.Ordering.{nat_cmp};
ghost use Rattle.std.specs.String.{string_bytes};
ghost use Rattle.br_model.specs.Program.Listings.{fdb_line, vlan_line, mdb_line, group_text, by_port, listing_text};
ghost use Rattle.br_model.specs.Data.Maps.{get};
ghost use Rattle.br_model.specs.Text.Spelling.{device_text, mac_text, kind_word as word_of_kind, further};

use crate::write::{append_dotted, append_groups, marks};
use br_model::NoMemory;
use br_model::change::Kind;
use br_model::group::Group;
use br_model::listing::Listing;
use br_model::numbers::{Mac, Port, Vid};
use br_model::plain::table::Table;
use br_model::spelling::{append_mac, kind_word};
use bridge_command::Roster;
use std::alloc::Global;

/// The name of the port, or of the host. A port that isn't declared has none.
pub fn device(roster: &Roster, port: Port) -> &str
    ensures { result.now ≡ device_text roster.now.ports port }
{
    if port.is_host() {
        return "host";
    }
    match roster.name(port) {
        Some(name) => name,
        None => "",
    }
}

fn append_address(
    vid: Vid,
    mac: Mac,
    device: &str,
    kind: Kind,
    to: &mut String,
) -> Result<(), NoMemory>
    ensures { OnOk result (string_bytes to.new ≡ string_bytes to.old
        ++ (mac_text mac ++ (codes " dev " ++ (device.now ++ (codes " vlan " ++ (decimal vid ++ (32 ∷ (word_of_kind kind ++ 10 ∷ [])))))))) }
{
    append_mac(mac, to)?;
    let (vid, kind) = (vid.number(), kind_word(kind));
    writeln!(to, " dev {device} vlan {vid} {kind}")
}

fn append_addresses(table: &Table, roster: &Roster, to: &mut String) -> Result<(), NoMemory>
    ensures { OnOk result (string_bytes to.new ≡ string_bytes to.old ++ flat_map (fdb_line roster.now.ports) table.now.addr) }
{
    for ((vid, mac), (port, kind)) in table.addresses() {
        append_address(*vid, *mac, device(roster, *port), *kind, to)?;
    }
    Ok(())
}

fn append_membership(
    device: &str,
    vid: Vid,
    pvid: bool,
    untagged: bool,
    to: &mut String,
) -> Result<(), NoMemory>
    ensures { OnOk result (string_bytes to.new
        ≡ string_bytes to.old ++ (device.now ++ (32 ∷ (decimal vid ++ (further pvid (codes "pvid") ++ (further untagged (codes "untagged") ++ 10 ∷ [])))))) }
{
    let (vid, marks) = (vid.number(), marks(untagged, pvid));
    writeln!(to, "{device} {vid}{marks}")
}

/// Whether the VLAN is that of the port's untagged frames.
fn is_pvid(table: &Table, port: Port, vid: Vid) -> bool
    ensures { result ≡ option_eq (λ x y. x == y) (get nat_cmp table.now.pvid port) (Some vid) }
{
    table.pvid(port) == Some(vid)
}

fn append_memberships_of(
    number: u8,
    table: &Table,
    roster: &Roster,
    to: &mut String,
) -> Result<(), NoMemory>
    ensures { OnOk result (string_bytes to.new
        ≡ string_bytes to.old ++ flat_map (vlan_line roster.now.ports table.now.pvid) (filter (λ e. e.0.1 == number) table.now.vlans)) }
{
    for ((vid, port), untagged) in table.memberships() {
        if port.number() == number {
            let pvid = is_pvid(table, *port, *vid);
            append_membership(device(roster, *port), *vid, pvid, *untagged, to)?;
        }
    }
    Ok(())
}

fn append_memberships(table: &Table, roster: &Roster, to: &mut String) -> Result<(), NoMemory>
    ensures { OnOk result (string_bytes to.new ≡ string_bytes to.old ++ flat_map (vlan_line roster.now.ports table.now.pvid) (by_port table.now.vlans)) }
{
    for number in 0..Port::PLACES {
        append_memberships_of(number as u8, table, roster, to)?;
    }
    Ok(())
}

/// The address of a group: four decimal numbers joined by dots, or eight groups of four hexadecimal digits joined by colons.
pub fn append_group(group: Group, to: &mut String) -> Result<(), NoMemory>
    ensures { OnOk result (string_bytes to.new ≡ string_bytes to.old ++ group_text group) }
{
    match group {
        Group::V4(n) => append_dotted(n, to),
        Group::V6(n) => append_groups(n, to),
    }
}

fn append_member(vid: Vid, group: Group, device: &str, to: &mut String) -> Result<(), NoMemory>
    ensures { OnOk result (string_bytes to.new
        ≡ string_bytes to.old ++ (codes "dev " ++ (device.now ++ (codes " grp " ++ (group_text group ++ (codes " vlan " ++ (decimal vid ++ 10 ∷ []))))))) }
{
    write!(to, "dev {device} grp ")?;
    append_group(group, to)?;
    let vid = vid.number();
    writeln!(to, " vlan {vid}")
}

fn append_members(table: &Table, roster: &Roster, to: &mut String) -> Result<(), NoMemory>
    ensures { OnOk result (string_bytes to.new ≡ string_bytes to.old ++ flat_map (mdb_line roster.now.ports) table.now.groups) }
{
    for (vid, group, port) in table.groups() {
        append_member(*vid, *group, device(roster, *port), to)?;
    }
    Ok(())
}

/// The lines of a table, with its last line.
pub fn list(
    alloc: Global,
    listing: Listing,
    table: &Table,
    roster: &Roster,
) -> Result<String, NoMemory>
    ensures { IfOk result (λ text. string_bytes text ≡ listing_text listing roster.now.ports table.now) }
{
    let mut text = String::new(alloc);
    match listing {
        Listing::Fdb => append_addresses(table, roster, &mut text)?,
        Listing::Vlan => append_memberships(table, roster, &mut text)?,
        Listing::Mdb => append_members(table, roster, &mut text)?,
    }
    text.push_str("end\n")?;
    Ok(text)
}
