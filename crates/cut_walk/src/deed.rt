//! What a chip does with a frame: its class, and by which of its ports the chip sends it.
ghost use Rattle.std.specs.Prelude.{◌≡◌, ℕ, List, map, Some};
ghost use Rattle.br_model.specs.declared.frame.Head.{Head as HeadValue};
ghost use Rattle.br_model.specs.Forward.Shares.{chip_out};
ghost use Rattle.br_model.specs.Table.Domains.{domain_of};
ghost use Rattle.br_model.specs.Table.Table.{Table};
ghost use Rattle.br_model.specs.Wire.Messages.{message};
ghost use Rattle.forward_rules.specs.Decided.{Decides};
ghost use Rattle.plane_parts.specs.Sent.{share_of};

use br_model::domains::Domains;
use br_model::frame::Class;
use br_model::numbers::Dom;
use forward_rules::Verdict;
use port_sets::Ports;

/// A class, and ports of the chip.
#[derive(Clone, Copy)]
pub struct Deed {
    pub class: Class,
    pub ports: Ports,
}

/// Those of the ports that are in the chip's domain, where the chip sends frames of this class.
fn share(verdict: &Verdict, own: Dom, domains: &Domains) -> Ports
    ensures { (port : ℕ) → domain_of domains.now port ≡ Some own → result ≡ share_of domains.now port verdict.now.class verdict.now.ports }
{
    match verdict.class {
        Class::Drop | Class::Trap => Ports::empty(),
        Class::Copy | Class::Forward => {
            // law: the members ascend
            verdict.ports.members_ascend();
            verdict.ports.and(domains.ports_of(own))
        }
    }
}

impl Deed {
    /// That of the chip of the domain, by what the chip's table decides of a frame at one of its ports.
    pub fn of(verdict: &Verdict, own: Dom, domains: &Domains) -> Deed
        ensures class { result.class ≡ verdict.now.class }
        ensures ports { (t : Table) (port : ℕ) (bytes : List ℕ) (head : HeadValue) → domain_of domains.now port ≡ Some own
            → Decides domains.now t port head (message bytes head) verdict.now → result.ports ≡ map (λ x. x.0) (chip_out domains.now t port bytes head) }
    {
        Deed {
            class: verdict.class,
            ports: share(verdict, own, domains),
        }
    }
}
