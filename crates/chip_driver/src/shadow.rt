//! What the driver keeps of the ports beside the chip's rows.
ghost use Rattle.std.specs.Prelude.{◌≡◌, ◌==◌, ◌*◌, ◌<◌, if◌then◌else◌, []};
ghost use Rattle.port_sets.specs.Numbers.{has_number, numbers_below};
ghost use Rattle.chip_tables.specs.Flags.{row_has_flag};
ghost use Rattle.chip_driver.specs.Shadows.{row_forwards, row_floods};
ghost use Rattle.chip_driver.specs.Settled.{Notes};

use br_model::change::{FORWARDING, Flags};
use br_model::numbers::Port;
use chip_tables::PortRow;
use port_sets::{PortSet, Ports};

/// The ports of which each is so: on the chip, forwarding, up with a flag of flooding, isolated, and before a multicast router.
#[derive(Clone, Copy)]
pub struct Shadow {
    pub own: Ports,
    pub forwarding: Ports,
    pub flood: Ports,
    pub mcast_flood: Ports,
    pub bcast_flood: Ports,
    pub isolated: Ports,
    pub routers: Ports,
}

/// The set with the number or without it.
pub fn switched<const W: usize>(set: PortSet<W>, n: u8, on: bool) -> PortSet<W>
    requires { n < 64 * W }
    ensures { result ≡ numbers_below (64 * W) (λ m. if m == n then on else has_number set.entry m) }
{
    if on { set.with(n) } else { set.without(n) }
}

/// Whether the port forwards.
fn forwards(row: &PortRow) -> bool
    ensures { result ≡ row_forwards row.now }
{
    row.up && row.state == FORWARDING
}

/// Whether the port has the flag at this place.
fn has_flag(row: &PortRow, flag: u8) -> bool
    requires { flag < 6 }
    ensures { result ≡ row_has_flag row.now flag }
{
    row.flags.bits() >> flag & 1 == 1
}

/// Whether the port is up and has the flag at this place.
fn floods(row: &PortRow, flag: u8) -> bool
    requires { flag < 6 }
    ensures { result ≡ row_floods row.now flag }
{
    row.up && has_flag(row, flag)
}

impl Shadow {
    /// Before any change.
    pub fn start(own: Ports) -> Shadow
        ensures { result ≡ record { own = own; forwarding = []; flood = []; mcast_flood = []; bcast_flood = []; isolated = []; routers = [] } }
    {
        Shadow {
            own,
            forwarding: Ports::empty(),
            flood: Ports::empty(),
            mcast_flood: Ports::empty(),
            bcast_flood: Ports::empty(),
            isolated: Ports::empty(),
            routers: Ports::empty(),
        }
    }

    /// Notes what the row of a port says.
    pub fn note(&mut self, port: Port, row: &PortRow)
        ensures { Notes port row.now self.old self.new }
    {
        let n = port.number();
        self.forwarding.switch(n, forwards(row));
        self.flood.switch(n, floods(row, Flags::FLOOD));
        self.mcast_flood.switch(n, floods(row, Flags::MCAST_FLOOD));
        self.bcast_flood.switch(n, floods(row, Flags::BCAST_FLOOD));
        self.isolated.switch(n, has_flag(row, Flags::ISOLATED));
    }
}
