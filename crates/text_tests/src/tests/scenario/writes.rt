//! Lines of steps, with what is written of those steps.
ghost use Rattle.std.specs.Prelude.{◌≡◌};
ghost use Rattle.br_model.specs.Text.ScenarioText.{names_declared};

use super::roster_of;
use crate::tests::common::assert_bytes;
use br_model::bytes::Bytes;
use br_model::change::Kind;
use br_model::scenario::Item;
use br_model::steps::{Command, Step};
use bridge_command::Roster;
use scenario_text::{read_line, write_line};
use std::alloc::Global;
use std::process::Abort;

const DECLARATIONS: &[&str] = &["scenario 1", "port 254 p-1 soft", "port 62 p-2 chip 4"];

/// Each is written as it was read.
const STEPS: &str = "\
rx 254 ffffffffffff02000000000a88b50102
cmd port up p-1
cmd port down p-1
cmd link p-1 learning on
cmd link p-1 flood off
cmd link p-1 mcast_flood on
cmd link p-1 bcast_flood off
cmd link p-1 isolated on
cmd link p-1 fastleave off
cmd link p-1 cost 65535
cmd link p-1 priority 255
cmd vlan add vid 4094 dev p-1
cmd vlan add vid 4094 dev host pvid
cmd vlan add vid 4094 dev p-1 untagged
cmd vlan add vid 4094 dev p-1 pvid untagged
cmd vlan del vid 4094 dev host
cmd fdb add 02:00:00:00:00:ab dev host vlan 4094 local
cmd fdb add 02:00:00:00:00:ab dev p-1 vlan 4094 static
cmd fdb add 02:00:00:00:00:ab dev p-1 vlan 4094 extern
cmd fdb del 02:00:00:00:00:ab vlan 4094
cmd mdb add 239.1.2.3 dev p-1 vlan 4094
cmd mdb add ff05:0001:0000:00ab:0000:0000:0000:1234 dev host vlan 4094
cmd mdb del 0.255.10.0 dev p-1 vlan 4094
cmd stp on
cmd stp off
cmd stp priority 65535
cmd ageing 1000000
cmd snooping on
cmd snooping off
now 9007199254740991
serve
hold
post 4294967295
turn 1
report 1
sweep 4
publish
";

/// Lines in other spellings, with what is written.
const SPELLINGS: &[(&str, &str)] = &[
    ("rx 62 00fFaA", "rx 62 00ffaa\n"),
    (
        "cmd  vlan add vid 4094 dev host  pvid untagged ",
        "cmd vlan add vid 4094 dev host pvid untagged\n",
    ),
    (
        "cmd fdb add AA:bb:CC:dd:EE:fF dev p-2 vlan 1 static",
        "cmd fdb add aa:bb:cc:dd:ee:ff dev p-2 vlan 1 static\n",
    ),
    (
        "cmd mdb del FF05:0000:0000:0000:0000:0000:0000:00Ab dev p-2 vlan 1",
        "cmd mdb del ff05:0000:0000:0000:0000:0000:0000:00ab dev p-2 vlan 1\n",
    ),
    (" publish ", "publish\n"),
];

/// Whether a line gives the command, and the ports that it names are declared.
fn knows(roster: &Roster, command: Command) -> bool
    ensures { result ≡ names_declared roster.now.ports (Step.Cmd command) }
{
    match command {
        Command::PortUp(port)
        | Command::PortDown(port)
        | Command::Link { port, .. }
        | Command::Cost { port, .. }
        | Command::PortPriority { port, .. } => roster.name(port).is_some(),
        Command::VlanAdd { port, .. }
        | Command::VlanDel { port, .. }
        | Command::MdbAdd { port, .. }
        | Command::MdbDel { port, .. } => port.is_host() || roster.name(port).is_some(),
        Command::FdbAdd { port, kind, .. } => match kind {
            Kind::Local => port.is_host(),
            Kind::Static | Kind::Extern => roster.name(port).is_some(),
            Kind::Learned => false,
        },
        Command::FdbDel { .. } | Command::Ageing(_) => true,
        Command::Stp(_) | Command::Priority(_) | Command::Snooping(_) => true,
    }
}

/// The same of a step.
fn are_declared(step: &Step, roster: &Roster) -> bool
    ensures { result ≡ names_declared roster.now.ports step.now }
{
    match step {
        Step::Rx { port, bytes: _ } => roster.name(*port).is_some(),
        Step::Cmd(command) => knows(roster, *command),
        Step::Now(_) | Step::Serve | Step::Publish => true,
        Step::Hold | Step::Post { .. } => true,
        Step::Turn(_) | Step::Report(_) | Step::Sweep(_) => true,
    }
}

/// What is written of the step that the line says.
fn written(rt: &impl Abort, alloc: Global, line: &str, roster: &mut Roster) -> Bytes {
    match read_line(alloc, line.as_bytes(), roster) {
        Ok(Item::Step(step)) if are_declared(&step, roster) => {
            write_line(alloc, &step, roster).expect(rt, "memory")
        }
        _ => panic!(rt; "no step"),
    }
}

#[test]
fn steps_as_they_were_read(rt: HostRuntime) {
    let alloc = rt.alloc();
    let mut roster = roster_of(&rt, alloc, DECLARATIONS);
    for line in STEPS.split_inclusive('\n') {
        let found = written(&rt, alloc, line.trim_end(), &mut roster);
        assert_bytes(&rt, found.as_slice(), line.as_bytes(), line);
    }
}

#[test]
fn steps_in_other_spellings(rt: HostRuntime) {
    let alloc = rt.alloc();
    let mut roster = roster_of(&rt, alloc, DECLARATIONS);
    for (line, want) in SPELLINGS {
        let found = written(&rt, alloc, line, &mut roster);
        assert_bytes(&rt, found.as_slice(), want.as_bytes(), line);
    }
}
