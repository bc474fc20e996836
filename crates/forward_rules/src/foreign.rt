//! Ports of other domains.
ghost use Rattle.std.specs.Prelude.{◌≡◌, ◌≤◌, is_some};
ghost use Rattle.std.specs.List.{list_any};
ghost use Rattle.br_model.specs.Forward.Class.{class_by};
ghost use Rattle.br_model.specs.Table.Domains.{domain_of, foreign, last_port};
ghost use Rattle.forward_rules.specs.PortSets.{ArePorts};

use br_model::domains::Domains;
use br_model::frame::Class;
use br_model::numbers::Port;
use port_sets::Ports;

/// Whether the two are in different domains.
pub fn is_foreign(domains: &Domains, port: Port, q: Port) -> bool
    ensures { result ≡ foreign domains.now port q }
{
    domains.of(port) != domains.of(q)
}

/// The class of a frame that leaves one bridge by these ports, and isn't trapped.
pub fn class_by(domains: &Domains, port: Port, ports: Ports) -> Class
    requires { ArePorts ports }
    ensures { result ≡ class_by domains.now port ports }
{
    if ports.is_empty() {
        Class::Drop
    } else if has_foreign(domains, port, ports) {
        Class::Copy
    } else {
        Class::Forward
    }
}

/// Whether one of the ports is foreign to this one. To one that isn't declared, all declared ports are.
fn has_foreign(domains: &Domains, port: Port, ports: Ports) -> bool
    requires { ArePorts ports }
    ensures { result ≡ list_any (λ q. foreign domains.now port q) ports }
{
    match domains.of(port) {
        Some(own) => {
            // law: the members ascend
            ports.members_ascend();
            !ports.minus(domains.ports_of(own)).is_empty()
        }
        None => has_declared(domains, ports),
    }
}

fn has_declared(domains: &Domains, ports: Ports) -> bool
    requires { ArePorts ports }
    ensures { result ≡ list_any (λ q. is_some (domain_of domains.now q)) ports }
{
    for number in 0..Port::LAST + 1 {
        if ports.has(number) && is_declared(domains, number) {
            return true;
        }
    }
    false
}

fn is_declared(domains: &Domains, number: u8) -> bool
    requires { number ≤ last_port }
    ensures { result ≡ is_some (domain_of domains.now number) }
{
    match Port::new(number) {
        Some(port) => domains.of(port).is_some(),
        None => false,
    }
}
