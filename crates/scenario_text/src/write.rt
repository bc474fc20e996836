//! Steps as lines.
ghost use Rattle.std.specs.Prelude.{◌≡◌, ◌++◌, ◌+◌, ◌<◌, [], ◌∷◌, true, IfOk, OnOk, codes, decimal};
ghost use Rattle.std.specs.String.{string_bytes};
ghost use Rattle.br_model.specs.Text.FlagWords.{flags, name_of_flag};
ghost use Rattle.br_model.specs.Text.Roster.{has_number};
ghost use Rattle.br_model.specs.declared.steps.Command.TheVariants.{Link, VlanAdd, FdbAdd, FdbDel};
ghost use Rattle.br_model.specs.Text.Operands.{is_device};
ghost use Rattle.br_model.specs.Text.ScenarioText.{names_declared, step_text, step_words};
ghost use Rattle.br_model.specs.Text.Spelling.{byte_at, mac_text, dotted, digits_at, groups_of_four, ip_text, device_text, further, name_of, shown as shown_of};
ghost use Rattle.br_model.specs.Text.Words.{joined};

use br_model::NoMemory;
use br_model::bytes::Bytes;
use br_model::change::{Flags, Kind};
use br_model::group::Ip;
use br_model::numbers::{Dom, Mac, Port, Vid};
use br_model::spelling::{append_hex, append_mac};
use br_model::steps::{Command, Step};
use bridge_command::Roster;
use std::alloc::Global;

/// The bytes of the longest frame, and one more.
const MOST_SHOWN: usize = 9023;

/// The bytes of a frame that its line shows.
fn shown(bytes: &[u8]) -> &[u8]
    ensures { result.now ≡ shown_of bytes.now }
{
    if bytes.is_empty() {
        &[0]
    } else {
        &bytes[..bytes.len().min(MOST_SHOWN)]
    }
}

/// The byte that stands so many bits above the address's lowest.
fn octet(address: u32, bits: u32) -> u8
    requires { bits < 32 }
    ensures { result ≡ byte_at address bits }
{
    ((address >> bits) % 256) as u8
}

/// Four decimal numbers, joined by dots.
pub(crate) fn append_dotted(address: u32, to: &mut String) -> Result<(), NoMemory>
    ensures { OnOk result (string_bytes to.new ≡ string_bytes to.old ++ dotted address) }
{
    let (a, b) = (octet(address, 24), octet(address, 16));
    let (c, d) = (octet(address, 8), octet(address, 0));
    write!(to, "{a}.{b}.{c}.{d}")
}

/// The four digits of the two bytes that stand so many bits above the address's lowest.
fn append_digits(address: u128, bits: u32, to: &mut String) -> Result<(), NoMemory>
    requires { bits < 120 }
    ensures { OnOk result (string_bytes to.new ≡ string_bytes to.old ++ digits_at address bits) }
{
    let high = ((address >> (bits + 8)) % 256) as u8;
    let low = ((address >> bits) % 256) as u8;
    append_hex(&[high, low], to)
}

/// Eight groups of four digits, joined by colons.
pub(crate) fn append_groups(address: u128, to: &mut String) -> Result<(), NoMemory>
    ensures { OnOk result (string_bytes to.new ≡ string_bytes to.old ++ groups_of_four address) }
{
    append_digits(address, 112, to)?;
    for bits in &[96, 80, 64, 48, 32, 16, 0] {
        to.push(':')?;
        append_digits(address, *bits, to)?;
    }
    Ok(())
}

fn append_ip(address: Ip, to: &mut String) -> Result<(), NoMemory>
    ensures { OnOk result (string_bytes to.new ≡ string_bytes to.old ++ ip_text address) }
{
    match address {
        Ip::V4(n) => append_dotted(n, to),
        Ip::V6(n) => append_groups(n, to),
    }
}

/// The name of a declared port.
pub(crate) fn name(roster: &Roster, port: Port) -> &str
    requires { has_number roster.now.ports port ≡ true }
    ensures { result.now ≡ name_of roster.now.ports port }
{
    match roster.name(port) {
        Some(name) => name,
        None => unreachable!(),
    }
}

fn device(roster: &Roster, port: Port) -> &str
    requires { is_device roster.now.ports port ≡ true }
    ensures { result.now ≡ device_text roster.now.ports port }
{
    if port.is_host() {
        "host"
    } else {
        name(roster, port)
    }
}

/// The name of the flag.
fn flag_name(flag: Flags) -> &'static str
    ensures { result.now ≡ name_of_flag flags flag }
{
    match flag.bits() {
        1 => "learning",
        2 => "flood",
        4 => "mcast_flood",
        8 => "bcast_flood",
        16 => "isolated",
        32 => "fastleave",
        _ => "",
    }
}

fn append_link(
    port: Port,
    flag: Flags,
    on: bool,
    roster: &Roster,
    to: &mut String,
) -> Result<(), NoMemory>
    requires { has_number roster.now.ports port ≡ true }
    ensures { OnOk result (string_bytes to.new ≡ string_bytes to.old ++ step_words roster.now.ports (Step.Cmd (Link port flag on))) }
{
    let (port, flag) = (name(roster, port), flag_name(flag));
    match on {
        true => write!(to, "cmd link {port} {flag} on"),
        false => write!(to, "cmd link {port} {flag} off"),
    }
}

/// The words that mark a membership of a VLAN.
pub(crate) fn marks(untagged: bool, pvid: bool) -> &'static str
    ensures { result.now ≡ further pvid (codes "pvid") ++ further untagged (codes "untagged") }
{
    match (pvid, untagged) {
        (false, false) => "",
        (true, false) => " pvid",
        (false, true) => " untagged",
        (true, true) => " pvid untagged",
    }
}

fn append_vlan_add(
    port: Port,
    vid: Vid,
    untagged: bool,
    pvid: bool,
    roster: &Roster,
    to: &mut String,
) -> Result<(), NoMemory>
    requires { is_device roster.now.ports port ≡ true }
    ensures { OnOk result (string_bytes to.new ≡ string_bytes to.old ++ step_words roster.now.ports (Step.Cmd (VlanAdd port vid untagged pvid))) }
{
    let (vid, device, marks) = (vid.number(), device(roster, port), marks(untagged, pvid));
    write!(to, "cmd vlan add vid {vid} dev {device}{marks}")
}

/// The entry of an address, at the host or at a port by its name.
fn append_entry(
    mac: Mac,
    device: &str,
    vid: Vid,
    kind: &str,
    to: &mut String,
) -> Result<(), NoMemory>
    ensures { OnOk result (string_bytes to.new ≡ string_bytes to.old
        ++ joined (codes "cmd" ∷ codes "fdb" ∷ codes "add" ∷ mac_text mac ∷ codes "dev" ∷ device.now ∷ codes "vlan" ∷ decimal vid ∷ kind.now ∷ [])) }
{
    to.push_str("cmd fdb add ")?;
    append_mac(mac, to)?;
    let vid = vid.number();
    write!(to, " dev {device} vlan {vid} {kind}")
}

fn append_fdb_add(
    vid: Vid,
    mac: Mac,
    port: Port,
    kind: Kind,
    roster: &Roster,
    to: &mut String,
) -> Result<(), NoMemory>
    requires { names_declared roster.now.ports (Step.Cmd (FdbAdd vid mac port kind)) ≡ true }
    ensures { OnOk result (string_bytes to.new ≡ string_bytes to.old ++ step_words roster.now.ports (Step.Cmd (FdbAdd vid mac port kind))) }
{
    match kind {
        Kind::Local => append_entry(mac, "host", vid, "local", to),
        Kind::Static => append_entry(mac, name(roster, port), vid, "static", to),
        Kind::Extern => append_entry(mac, name(roster, port), vid, "extern", to),
        Kind::Learned => unreachable!(),
    }
}

fn append_fdb_del(vid: Vid, mac: Mac, to: &mut String) -> Result<(), NoMemory>
    ensures { OnOk result (string_bytes to.new ≡ string_bytes to.old ++ step_words [] (Step.Cmd (FdbDel vid mac))) }
{
    to.push_str("cmd fdb del ")?;
    append_mac(mac, to)?;
    let vid = vid.number();
    write!(to, " vlan {vid}")
}

/// What `mdb add` and `mdb del` have in common: the group, the device and the VLAN.
fn append_member(group: Ip, device: &str, vid: Vid, to: &mut String) -> Result<(), NoMemory>
    ensures { OnOk result (string_bytes to.new ≡ string_bytes to.old ++ joined (ip_text group ∷ codes "dev" ∷ device.now ∷ codes "vlan" ∷ decimal vid ∷ [])) }
{
    append_ip(group, to)?;
    let vid = vid.number();
    write!(to, " dev {device} vlan {vid}")
}

fn append_command(command: Command, roster: &Roster, to: &mut String) -> Result<(), NoMemory>
    requires { names_declared roster.now.ports (Step.Cmd command) ≡ true }
    ensures { OnOk result (string_bytes to.new ≡ string_bytes to.old ++ step_words roster.now.ports (Step.Cmd command)) }
{
    match command {
        Command::PortUp(port) => {
            let port = name(roster, port);
            write!(to, "cmd port up {port}")
        }
        Command::PortDown(port) => {
            let port = name(roster, port);
            write!(to, "cmd port down {port}")
        }
        Command::Link { port, flag, on } => append_link(port, flag, on, roster, to),
        Command::Cost { port, n } => {
            let port = name(roster, port);
            write!(to, "cmd link {port} cost {n}")
        }
        Command::PortPriority { port, n } => {
            let port = name(roster, port);
            write!(to, "cmd link {port} priority {n}")
        }
        Command::VlanAdd {
            port,
            vid,
            untagged,
            pvid,
        } => append_vlan_add(port, vid, untagged, pvid, roster, to),
        Command::VlanDel { port, vid } => {
            let (vid, device) = (vid.number(), device(roster, port));
            write!(to, "cmd vlan del vid {vid} dev {device}")
        }
        Command::FdbAdd {
            vid,
            mac,
            port,
            kind,
        } => append_fdb_add(vid, mac, port, kind, roster, to),
        Command::FdbDel { vid, mac } => append_fdb_del(vid, mac, to),
        Command::MdbAdd { port, vid, group } => {
            to.push_str("cmd mdb add ")?;
            append_member(group, device(roster, port), vid, to)
        }
        Command::MdbDel { port, vid, group } => {
            to.push_str("cmd mdb del ")?;
            append_member(group, device(roster, port), vid, to)
        }
        Command::Stp(true) => to.push_str("cmd stp on"),
        Command::Stp(false) => to.push_str("cmd stp off"),
        Command::Priority(n) => write!(to, "cmd stp priority {n}"),
        Command::Ageing(seconds) => write!(to, "cmd ageing {seconds}"),
        Command::Snooping(true) => to.push_str("cmd snooping on"),
        Command::Snooping(false) => to.push_str("cmd snooping off"),
    }
}

fn append_rx(port: Port, bytes: &[u8], to: &mut String) -> Result<(), NoMemory>
    ensures { OnOk result (string_bytes to.new ≡ string_bytes to.old ++ step_words [] (Step.Rx port bytes.now)) }
{
    let port = port.number();
    write!(to, "rx {port} ")?;
    append_hex(shown(bytes), to)
}

/// A step of the domain's chip, by its first word.
fn append_of_chip(word: &str, dom: Dom, to: &mut String) -> Result<(), NoMemory>
    ensures { OnOk result (string_bytes to.new ≡ string_bytes to.old ++ joined (word.now ∷ decimal dom ∷ [])) }
{
    let dom = dom.number();
    write!(to, "{word} {dom}")
}

/// The line of a step, without its line feed.
fn append_step(s: &Step, roster: &Roster, to: &mut String) -> Result<(), NoMemory>
    requires { names_declared roster.now.ports s.now ≡ true }
    ensures { OnOk result (string_bytes to.new ≡ string_bytes to.old ++ step_words roster.now.ports s.now) }
{
    match s {
        Step::Rx { port, bytes } => append_rx(*port, bytes.as_slice(), to),
        Step::Cmd(command) => append_command(*command, roster, to),
        Step::Now(moment) => write!(to, "now {moment}"),
        Step::Serve => to.push_str("serve"),
        Step::Hold => to.push_str("hold"),
        Step::Post { id, point: None } => write!(to, "post {id}"),
        Step::Post {
            id,
            point: Some(point),
        } => write!(to, "post {id} at {point}"),
        Step::Turn(dom) => append_of_chip("turn", *dom, to),
        Step::Report(dom) => append_of_chip("report", *dom, to),
        Step::Sweep(dom) => append_of_chip("sweep", *dom, to),
        Step::Publish => to.push_str("publish"),
    }
}

/// Writes the line of a step with its line feed behind the text. After want of memory a part of it may stand there.
pub fn append_line(step: &Step, roster: &Roster, to: &mut String) -> Result<(), NoMemory>
    requires { names_declared roster.now.ports step.now ≡ true }
    ensures { OnOk result (string_bytes to.new ≡ string_bytes to.old ++ step_text roster.now.ports step.now) }
{
    append_step(step, roster, to)?;
    to.push('\n')
}

/// The line of a step with its line feed. Of a frame without bytes it shows one byte, of one that is too long only enough to
/// tell so.
pub fn write_line(alloc: Global, step: &Step, roster: &Roster) -> Result<Bytes, NoMemory>
    requires { names_declared roster.now.ports step.now ≡ true }
    ensures { IfOk result (λ line. line ≡ step_text roster.now.ports step.now) }
{
    let mut line = String::new(alloc);
    append_line(step, roster, &mut line)?;
    Ok(Bytes::of(line.into_bytes()))
}
