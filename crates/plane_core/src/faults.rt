//! Why a step of a plane wasn't done. It isn't counted then, and all is as before.
ghost use Rattle.std.specs.Prelude.{◌≡◌};
ghost use Rattle.plane_core.specs.declared.faults.TurnFault.TheVariants.{NoMemory as no_memory};

use crate::held::Held;
use std::alloc::AllocError;
use transcript_lines::Lines;

/// Why a turn wasn't taken.
#[derive(Clone, Copy, PartialEq, Eq, Debug)]
pub enum TurnFault {
    NoMemory,
    /// A deferred change is pending, and the update isn't the one with its ticket.
    OutOfTurn { expected: u32, got: Option<u32> },
}

impl From<AllocError> for TurnFault {
    ghost from_gives = { λ _ fault. fault ≡ no_memory };

    fn from(_: AllocError) -> TurnFault {
        TurnFault::NoMemory
    }
}

/// Why a frame wasn't posted. All but the last hand it back.
#[derive(Drop)]
pub enum PostFault {
    NoMemory(Held),
    /// Another frame is held under this id.
    Stranger(Held),
    /// It was decided by changes that aren't published here.
    Ahead {
        held: Held,
        seen: u32,
        published: u32,
    },
    /// The frame was posted, but what its reaction changed isn't published for want of memory. A plane never answers this.
    Unpublished(Lines),
}
