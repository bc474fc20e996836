//! How a step ends in which an event happened.
ghost use Rattle.std.specs.Prelude.{IfOk};
ghost use Rattle.transcript_lines.specs.Rows.{IsPlain};
ghost use Rattle.plane_reactions.specs.Reacted.{Lasts};

use crate::NoMemory;
use br_model::transcript::Line;
use bridge_core::EventFault;
use std::alloc::AllocError;

/// The last line of a step in which an event came to so many changes, or to a refusal.
pub fn last_line(step: u32, outcome: Result<u32, EventFault>) -> Result<Line, NoMemory>
    ensures lasts { Lasts step outcome result }
    ensures plain { IfOk result (λ line. IsPlain line) }
{
    match outcome {
        Ok(changes) => Ok(Line::Done { step, changes }),
        Err(EventFault::Refused(refusal)) => Ok(Line::Refused { step, refusal }),
        Err(EventFault::NoMemory) => Err(AllocError),
    }
}
