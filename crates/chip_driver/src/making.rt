//! The rows before any change.
ghost use Rattle.std.specs.Prelude.{◌≡◌, ◌≢◌, false};
ghost use Rattle.br_model.specs.Table.Domains.{host, port_places, software};
ghost use Rattle.chip_tables.specs.Stands.{is_own};
ghost use Rattle.chip_driver.specs.Making.{idle, MarksOwn};

use br_model::change::{DISABLED, Flags};
use br_model::domains::Domains;
use br_model::numbers::{Dom, Port};
use chip_tables::{PortRow, Tables};
use port_sets::Ports;

/// The flags of a port that is down.
pub fn no_flags() -> Flags
    ensures { result ≡ 0 }
{
    match Flags::new(0) {
        Some(flags) => flags,
        None => unreachable!(),
    }
}

/// The row of a port that never came up.
fn idle(own: bool) -> PortRow
    ensures { result ≡ idle own }
{
    PortRow {
        up: false,
        state: DISABLED,
        flags: no_flags(),
        pvid: None,
        own,
    }
}

/// Writes the row of each port.
pub fn mark_own(tables: &mut Tables, own: &Ports)
    ensures { MarksOwn own.now port_places tables.old tables.new }
{
    for n in 0..Port::PLACES {
        tables.set_port_numbered(n as u8, idle(own.has(n as u8)));
    }
}

/// A law, whose body does nothing: the host isn't on the chip of a domain that isn't software's.
pub fn host_is_elsewhere(domains: &Domains, dom: Dom)
    requires { dom ≢ software }
    ensures { is_own domains.now dom host ≡ false }
{
    // law: the host is in software's domain
    let _domain = domains.of(Port::HOST);
}
