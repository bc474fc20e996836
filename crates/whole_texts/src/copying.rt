//! A roster once more.
ghost use Rattle.std.specs.Prelude.{◌≡◌, ◌+◌, ◌<◌, IfOk, OnOk, length};
ghost use Rattle.br_model.specs.Table.Domains.{domain_of};
ghost use Rattle.br_model.specs.Text.Roster.{domains_of};
ghost use Rattle.whole_texts.specs.Trials.{with_first};

use crate::NoMemory;
use br_model::domains::Domains;
use br_model::name::Name;
use br_model::numbers::Dom;
use bridge_command::Roster;
use std::alloc::Global;

/// Declares the port of that place in a copy that has those before it.
fn copy_port(
    alloc: Global,
    from: &Roster,
    domains: &Domains,
    i: usize,
    to: &mut Roster,
) -> Result<(), NoMemory>
    requires domains { domains.now ≡ domains_of from.now.edition from.now.ports }
    requires within { i < length from.now.ports }
    requires first { to.old ≡ with_first from.now i }
    ensures { OnOk result (to.new ≡ with_first from.now (i + 1)) }
{
    let Some(port) = from.port(i) else {
        unreachable!();
    };
    let Some(name) = from.name(port) else {
        unreachable!();
    };
    let dom = domains.of(port).unwrap_or(Dom::SOFTWARE);
    let name = Name::of(String::from_str(alloc, name)?);
    to.declare(port, name, dom)
}

/// Declares the ports in a copy that has none.
fn copy_ports(alloc: Global, from: &Roster, to: &mut Roster) -> Result<(), NoMemory>
    requires { to.old ≡ with_first from.now 0 }
    ensures { OnOk result (to.new ≡ with_first from.now (length from.now.ports)) }
{
    let domains = from.domains();
    for i in 0..from.len() {
        copy_port(alloc, from, &domains, i, to)?;
    }
    Ok(())
}

/// The same roster.
pub(crate) fn copy_of(alloc: Global, roster: &Roster) -> Result<Roster, NoMemory>
    ensures { IfOk result (λ r. r ≡ roster.now) }
{
    let mut copy = Roster::make(alloc, roster.is_check())?;
    copy.open(roster.edition());
    copy.set_own(roster.own());
    copy_ports(alloc, roster, &mut copy)?;
    copy.reach(roster.place());
    Ok(copy)
}
