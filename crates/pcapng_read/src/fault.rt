//! Why there is no next packet.
ghost use Rattle.std.specs.Prelude.{◌≡◌};

use br_model::NoMemory;
use br_model::capture::CapKind;

/// Why there is no next packet.
#[derive(Clone, Copy, PartialEq, Eq, Debug)]
pub enum CapFault {
    /// The block at this place is broken, counted from the first byte.
    At { offset: u32, kind: CapKind },
    /// There was no memory for a packet's bytes, or for the link type of an interface. The call may be made again.
    NoMemory,
}

impl From<NoMemory> for CapFault {
    ghost use Rattle.pcapng_read.specs.declared.fault.CapFault.TheVariants as faults;

    ghost from_gives = { λ _ fault. fault ≡ faults.NoMemory };

    fn from(_error: NoMemory) -> CapFault {
        CapFault::NoMemory
    }
}
