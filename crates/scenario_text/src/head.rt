//! Whole scenarios as text: the lines before the first step, the steps, and the last line.
ghost use Rattle.std.specs.Prelude.{◌≡◌, ◌++◌, true, IfOk, IfSome, OnOk, slice_get};
ghost use Rattle.std.specs.List.{flat_map, list_all};
ghost use Rattle.std.specs.String.{string_bytes};
ghost use Rattle.br_model.specs.Program.LiveText.{steps_scenario};
ghost use Rattle.br_model.specs.Text.Head.{edition_line, head_text, port_line};
ghost use Rattle.br_model.specs.Text.Roster.{domains_of};
ghost use Rattle.br_model.specs.Text.ScenarioText.{names_declared, step_text};

use crate::write::{append_line, name};
use br_model::NoMemory;
use br_model::bytes::Bytes;
use br_model::domains::{Domains, Edition};
use br_model::numbers::{Dom, Mac, Port};
use br_model::spelling::append_mac;
use br_model::steps::Step;
use bridge_command::Roster;
use std::alloc::Global;

/// The first line.
fn opening_line(edition: Edition) -> &'static str
    ensures { result.now ≡ edition_line edition }
{
    match edition {
        Edition::One => "scenario 1\n",
        Edition::Two => "scenario 2\n",
    }
}

fn append_port(port: Port, name: &str, dom: Dom, to: &mut String) -> Result<(), NoMemory>
    ensures { OnOk result (string_bytes to.new ≡ string_bytes to.old ++ port_line (record { name = name.now; port = port; dom = dom })) }
{
    let (port, number) = (port.number(), dom.number());
    if dom == Dom::SOFTWARE {
        writeln!(to, "port {port} {name} soft")
    } else {
        writeln!(to, "port {port} {name} chip {number}")
    }
}

/// The line of the port that was declared in that place.
fn append_entry(r: &Roster, domains: &Domains, i: usize, to: &mut String) -> Result<(), NoMemory>
    requires { domains.now ≡ domains_of r.now.edition r.now.ports }
    ensures { IfSome (slice_get r.now.ports i) (λ e. OnOk result (string_bytes to.new ≡ string_bytes to.old ++ port_line e)) }
{
    let Some(port) = r.port(i) else {
        return Ok(());
    };
    let dom = domains.of(port).unwrap_or(Dom::SOFTWARE);
    append_port(port, name(r, port), dom, to)
}

fn append_ports(r: &Roster, to: &mut String) -> Result<(), NoMemory>
    ensures { OnOk result (string_bytes to.new ≡ string_bytes to.old ++ flat_map port_line r.now.ports) }
{
    let domains = r.domains();
    for i in 0..r.len() {
        append_entry(r, &domains, i, to)?;
    }
    Ok(())
}

/// Writes the lines before the first step behind the text: the edition, the bridge's own address, and the declared ports. After
/// want of memory a part of them may stand there.
pub fn append_head(roster: &Roster, own: Mac, to: &mut String) -> Result<(), NoMemory>
    ensures { OnOk result (string_bytes to.new ≡ string_bytes to.old ++ head_text (record roster.now { own = own })) }
{
    to.push_str(opening_line(roster.edition()))?;
    to.push_str("bridge ")?;
    append_mac(own, to)?;
    to.push('\n')?;
    append_ports(roster, to)
}

/// The lines before the first step: the edition, the bridge's own address, and the declared ports. They are read back where the
/// address is one of one station, as each that a scenario declares is.
pub fn write_head(alloc: Global, roster: &Roster, own: Mac) -> Result<Bytes, NoMemory>
    ensures { IfOk result (λ head. head ≡ head_text (record roster.now { own = own })) }
{
    let mut head = String::new(alloc);
    append_head(roster, own, &mut head)?;
    Ok(Bytes::of(head.into_bytes()))
}

fn append_steps(steps: &[Step], r: &Roster, to: &mut String) -> Result<(), NoMemory>
    requires { list_all (names_declared r.now.ports) steps.now ≡ true }
    ensures { OnOk result (string_bytes to.new ≡ string_bytes to.old ++ flat_map (step_text r.now.ports) steps.now) }
{
    for step in steps {
        append_line(step, r, to)?;
    }
    Ok(())
}

/// Writes a scenario of these steps behind the text: what was declared, each step's line, and the line `end`. After want of memory a
/// part of it may stand there.
pub fn append_scenario(steps: &[Step], roster: &Roster, to: &mut String) -> Result<(), NoMemory>
    requires { list_all (names_declared roster.now.ports) steps.now ≡ true }
    ensures { OnOk result (string_bytes to.new ≡ string_bytes to.old ++ steps_scenario roster.now steps.now) }
{
    append_head(roster, roster.own(), to)?;
    append_steps(steps, roster, to)?;
    to.push_str("end\n")?;
    Ok(())
}
