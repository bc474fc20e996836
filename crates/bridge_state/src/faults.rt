//! Why an event wasn't accepted.
ghost use Rattle.std.specs.Prelude.{◌≡◌};
ghost use Rattle.bridge_state.specs.declared.faults.EventFault.TheVariants.{NoMemory as no_memory};

use br_model::steps::Refusal;
use std::alloc::AllocError;

/// After either the bridge is as before.
#[derive(Clone, Copy, PartialEq, Eq)]
pub enum EventFault {
    Refused(Refusal),
    NoMemory,
}

impl From<AllocError> for EventFault {
    ghost from_gives = { λ _ fault. fault ≡ no_memory };

    fn from(_: AllocError) -> EventFault {
        EventFault::NoMemory
    }
}
