//! Lines of notices as text.
ghost use Rattle.std.specs.Prelude.{◌≡◌, ◌<◌, ◌++◌, ◌∷◌, [], not, OnOk, codes, decimal};
ghost use Rattle.std.specs.String.{string_bytes};
ghost use Rattle.br_model.specs.Text.Spelling.{further};
ghost use Rattle.br_model.specs.declared.change.Change.TheVariants.{AddrDel, AddrPut, GroupJoin, GroupPart, Querier, Router, SetFlags, SetState, Snoop, VlanAdd, VlanDel};
ghost use Rattle.driver_notices.specs.Lines.{flags_text, group_object as object_of_group, is_among, line_text, member_object, notice_text, state_word as word_of_state, switch_word as word_of_switch, text, version_word as word_of_version};

use crate::NoMemory;
use crate::line::NoticeLine;
use br_model::change::{Change, Flags, Kind};
use br_model::group::Group;
use br_model::numbers::{Mac, Port, Vid};
use br_model::spelling::{append_mac, kind_word};
use bridge_command::Roster;
use scenario_text::{append_group, device};

/// None above the last state.
fn state_word(state: u8) -> &'static str
    ensures { result.now ≡ word_of_state state }
{
    match state {
        0 => "disabled",
        1 => "listening",
        2 => "learning",
        3 => "forwarding",
        4 => "blocking",
        _ => "",
    }
}

fn switch_word(on: bool) -> &'static str
    ensures { result.now ≡ word_of_switch on }
{
    if on { "on" } else { "off" }
}

fn version_word(six: bool) -> &'static str
    ensures { result.now ≡ word_of_version six }
{
    if six { "6" } else { "4" }
}

fn group_object(port: Port) -> &'static str
    ensures { result.now ≡ object_of_group port }
{
    if port.is_host() {
        "host_mdb "
    } else {
        "port_mdb "
    }
}

/// The flag's name, if the flag with this bit is among these.
fn append_flag(these: u8, flag: u8, name: &str, to: &mut String) -> Result<(), NoMemory>
    requires { 0 < flag }
    ensures { OnOk result (string_bytes to.new ≡ string_bytes to.old ++ further (is_among these flag) name.now) }
{
    if these / flag % 2 == 1 {
        to.push(' ')?;
        to.push_str(name)
    } else {
        Ok(())
    }
}

fn append_flags(flags: Flags, to: &mut String) -> Result<(), NoMemory>
    ensures { OnOk result (string_bytes to.new ≡ string_bytes to.old ++ flags_text flags) }
{
    let these = flags.bits();
    append_flag(these, 1, "learning", to)?;
    append_flag(these, 2, "flood", to)?;
    append_flag(these, 4, "mcast_flood", to)?;
    append_flag(these, 8, "bcast_flood", to)?;
    append_flag(these, 16, "isolated", to)?;
    append_flag(these, 32, "fastleave", to)
}

fn append_set_flags(
    port: Port,
    flags: Flags,
    roster: &Roster,
    to: &mut String,
) -> Result<(), NoMemory>
    ensures { OnOk result (string_bytes to.new ≡ string_bytes to.old ++ notice_text roster.now.ports (SetFlags port flags)) }
{
    let device = device(roster, port);
    write!(to, "port_attr_set port_bridge_flags dev {device}")?;
    append_flags(flags, to)?;
    to.push('\n')
}

fn append_set_state(port: Port, state: u8, roster: &Roster, to: &mut String) -> Result<(), NoMemory>
    ensures { OnOk result (string_bytes to.new ≡ string_bytes to.old ++ notice_text roster.now.ports (SetState port state)) }
{
    let (device, state) = (device(roster, port), state_word(state));
    writeln!(to, "port_attr_set port_stp_state dev {device} {state}")
}

fn append_router(port: Port, on: bool, roster: &Roster, to: &mut String) -> Result<(), NoMemory>
    ensures { OnOk result (string_bytes to.new ≡ string_bytes to.old ++ notice_text roster.now.ports (Router port on)) }
{
    let (device, switch) = (device(roster, port), switch_word(on));
    writeln!(to, "port_attr_set port_mrouter dev {device} {switch}")
}

/// The words that mark a membership of a VLAN, with the line feed.
fn marks(untagged: bool, pvid: bool) -> &'static str
    ensures { result.now ≡ further pvid (codes "pvid") ++ (further untagged (codes "untagged") ++ 10 ∷ []) }
{
    match (pvid, untagged) {
        (false, false) => "\n",
        (true, false) => " pvid\n",
        (false, true) => " untagged\n",
        (true, true) => " pvid untagged\n",
    }
}

fn append_vlan_add(
    port: Port,
    vid: Vid,
    untagged: bool,
    pvid: bool,
    roster: &Roster,
    to: &mut String,
) -> Result<(), NoMemory>
    ensures { OnOk result (string_bytes to.new ≡ string_bytes to.old ++ notice_text roster.now.ports (VlanAdd port vid untagged pvid)) }
{
    let (vid, device, marks) = (vid.number(), device(roster, port), marks(untagged, pvid));
    write!(to, "port_obj_add port_vlan vid {vid} dev {device}{marks}")
}

fn append_vlan_del(port: Port, vid: Vid, roster: &Roster, to: &mut String) -> Result<(), NoMemory>
    ensures { OnOk result (string_bytes to.new ≡ string_bytes to.old ++ notice_text roster.now.ports (VlanDel port vid)) }
{
    let (vid, device) = (vid.number(), device(roster, port));
    writeln!(to, "port_obj_del port_vlan vid {vid} dev {device}")
}

/// A member of a group, as an object.
fn append_member(
    port: Port,
    vid: Vid,
    group: Group,
    roster: &Roster,
    to: &mut String,
) -> Result<(), NoMemory>
    ensures { OnOk result (string_bytes to.new ≡ string_bytes to.old ++ member_object roster.now.ports port vid group) }
{
    let object = group_object(port);
    to.push_str(object)?;
    append_group(group, to)?;
    let (vid, device) = (vid.number(), device(roster, port));
    writeln!(to, " dev {device} vlan {vid}")
}

fn append_join(
    port: Port,
    vid: Vid,
    group: Group,
    roster: &Roster,
    to: &mut String,
) -> Result<(), NoMemory>
    ensures { OnOk result (string_bytes to.new ≡ string_bytes to.old ++ notice_text roster.now.ports (GroupJoin port vid group)) }
{
    to.push_str("port_obj_add ")?;
    append_member(port, vid, group, roster, to)
}

fn append_part(
    port: Port,
    vid: Vid,
    group: Group,
    roster: &Roster,
    to: &mut String,
) -> Result<(), NoMemory>
    ensures { OnOk result (string_bytes to.new ≡ string_bytes to.old ++ notice_text roster.now.ports (GroupPart port vid group)) }
{
    to.push_str("port_obj_del ")?;
    append_member(port, vid, group, roster, to)
}

fn append_put(
    vid: Vid,
    mac: Mac,
    port: Port,
    kind: Kind,
    roster: &Roster,
    to: &mut String,
) -> Result<(), NoMemory>
    ensures { OnOk result (string_bytes to.new ≡ string_bytes to.old ++ notice_text roster.now.ports (AddrPut vid mac port kind)) }
{
    to.push_str("fdb_add_to_device ")?;
    append_mac(mac, to)?;
    let (vid, kind, device) = (vid.number(), kind_word(kind), device(roster, port));
    writeln!(to, " dev {device} vlan {vid} {kind}")
}

fn append_del(vid: Vid, mac: Mac, to: &mut String) -> Result<(), NoMemory>
    ensures { OnOk result (string_bytes to.new ≡ string_bytes to.old ++ notice_text [] (AddrDel vid mac)) }
{
    to.push_str("fdb_del_to_device ")?;
    append_mac(mac, to)?;
    let vid = vid.number();
    writeln!(to, " vlan {vid}")
}

fn append_querier(six: bool, on: bool, to: &mut String) -> Result<(), NoMemory>
    ensures { OnOk result (string_bytes to.new ≡ string_bytes to.old ++ notice_text [] (Querier six on)) }
{
    let (version, switch) = (version_word(six), switch_word(on));
    writeln!(to, "querier {version} {switch}")
}

fn append_snoop(on: bool, to: &mut String) -> Result<(), NoMemory>
    ensures { OnOk result (string_bytes to.new ≡ string_bytes to.old ++ notice_text [] (Snoop on)) }
{
    let switch = switch_word(!on);
    writeln!(to, "port_attr_set bridge_mc_disabled {switch}")
}

/// What the drivers are told of the change, up to its line feed.
fn append_notice(change: &Change, roster: &Roster, to: &mut String) -> Result<(), NoMemory>
    ensures { OnOk result (string_bytes to.new ≡ string_bytes to.old ++ notice_text roster.now.ports change.now) }
{
    match *change {
        Change::PortUp(port) => {
            let device = device(roster, port);
            writeln!(to, "netdev_up dev {device}")
        }
        Change::PortDown(port) => {
            let device = device(roster, port);
            writeln!(to, "netdev_going_down dev {device}")
        }
        Change::SetFlags(port, flags) => append_set_flags(port, flags, roster, to),
        Change::SetState(port, state) => append_set_state(port, state, roster, to),
        Change::VlanAdd {
            port,
            vid,
            untagged,
            pvid,
        } => append_vlan_add(port, vid, untagged, pvid, roster, to),
        Change::VlanDel { port, vid } => append_vlan_del(port, vid, roster, to),
        Change::GroupJoin { port, vid, group } => append_join(port, vid, group, roster, to),
        Change::GroupPart { port, vid, group } => append_part(port, vid, group, roster, to),
        Change::Router { port, on } => append_router(port, on, roster, to),
        Change::Querier { six, on } => append_querier(six, on, to),
        Change::Snoop(on) => append_snoop(on, to),
        Change::Stp(on) => {
            let switch = switch_word(on);
            writeln!(to, "stp {switch}")
        }
        Change::AddrPut {
            vid,
            mac,
            port,
            kind,
        } => append_put(vid, mac, port, kind, roster, to),
        Change::AddrDel { vid, mac } => append_del(vid, mac, to),
    }
}

/// Writes the line behind the text. After want of memory a part of it may stand there.
pub fn append_line(line: &NoticeLine, roster: &Roster, to: &mut String) -> Result<(), NoMemory>
    ensures { OnOk result (string_bytes to.new ≡ string_bytes to.old ++ line_text roster.now.ports line.now) }
{
    match line {
        NoticeLine::Told { step, change } => {
            write!(to, "told {step} ")?;
            append_notice(change, roster, to)
        }
        NoticeLine::Queued {
            step,
            number,
            change,
        } => {
            write!(to, "queued {step} {number} ")?;
            append_notice(change, roster, to)
        }
        NoticeLine::Applied {
            step,
            dom,
            number,
            change,
        } => {
            let dom = dom.number();
            write!(to, "applied {step} {dom} {number} ")?;
            append_notice(change, roster, to)
        }
    }
}

/// Writes the lines behind the text, one after another. After want of memory a part of them may stand there.
pub fn append_lines(lines: &[NoticeLine], roster: &Roster, to: &mut String) -> Result<(), NoMemory>
    ensures { OnOk result (string_bytes to.new ≡ string_bytes to.old ++ text roster.now.ports lines.now) }
{
    for line in lines {
        append_line(line, roster, to)?;
    }
    Ok(())
}

/// Writes the last line of a run of so many steps, told changes, queued ones, and ones that chips haven't taken.
pub fn append_end(
    steps: u32,
    told: u32,
    queued: u32,
    pending: u32,
    to: &mut String,
) -> Result<(), NoMemory>
    ensures { OnOk result (string_bytes to.new ≡ string_bytes to.old
        ++ (codes "end " ++ (decimal steps ++ (32 ∷ (decimal told ++ (32 ∷ (decimal queued ++ (32 ∷ (decimal pending ++ 10 ∷ []))))))))) }
{
    writeln!(to, "end {steps} {told} {queued} {pending}")
}
