//! Sets of ports in which one port is placed.
ghost use Rattle.std.specs.Prelude.{◌≡◌};
ghost use Rattle.forward_rules.specs.PortSets.{placed};

use br_model::numbers::Port;
use port_sets::Ports;

/// Puts the port into the set, or takes it out.
pub fn place_in(set: &mut Ports, port: Port, on: bool)
    ensures { set.new ≡ placed set.old port on }
{
    set.switch(port.number(), on);
}

/// The set with the port or without it.
pub fn placed(set: Ports, port: Port, on: bool) -> Ports
    ensures { result ≡ placed set port on }
{
    if on {
        set.with(port.number())
    } else {
        set.without(port.number())
    }
}
