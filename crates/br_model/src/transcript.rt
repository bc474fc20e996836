//! The lines of a transcript.
ghost use Rattle.std.specs.Prelude.{◌≡◌};
ghost use Rattle.std.specs.Option.{option_and_then};
ghost use Rattle.std.specs.Result.{result_err};
ghost use Rattle.br_model.specs.Plane.LineTraits.{leaving, line_traits};

use crate::bytes::Bytes;
use crate::frame::{Class, FrameFault};
use crate::numbers::Port;
use crate::steps::Refusal;

/// One line of a transcript.
#[derive(Drop)]
pub enum Line {
    /// The chip decided the frame, with so many changes accepted, and so many deferred ones of them applied.
    Chip {
        id: u32,
        changes: u32,
        applied: u32,
        class: Class,
    },
    /// The bytes are no frame.
    Unread {
        id: u32,
        why: FrameFault,
    },
    /// Software decided the frame by the first `point` changes.
    Soft {
        id: u32,
        point: u32,
    },
    /// The frame is held, to be decided by no fewer changes than `floor`.
    Held {
        id: u32,
        floor: u32,
    },
    /// The frame left a port.
    Tx {
        id: u32,
        port: Port,
        bytes: Bytes,
    },
    /// A frame of the bridge itself left a port.
    Ctl {
        port: Port,
        bytes: Bytes,
    },
    /// So many frames wait that this one doesn't.
    Overrun {
        id: u32,
    },
    /// The step was done, with so many changes.
    Done {
        step: u32,
        changes: u32,
    },
    Refused {
        step: u32,
        refusal: Refusal,
    },
    /// So many steps and changes in all, deferred changes that no chip applied, and frames that wait.
    End {
        steps: u32,
        changes: u32,
        pending: u32,
        waiting: u32,
    },
}

impl Line {
    /// The number of the step that it ends, and how many changes that accepts, or why it is refused.
    pub fn answer(&self) -> Option<(u32, Result<u32, Refusal>)>
        ensures { result ≡ (line_traits self.now).answer }
    {
        match self {
            Line::Done { step, changes } => Some((*step, Ok(*changes))),
            Line::Refused { step, refusal } => Some((*step, Err(*refusal))),
            Line::Chip { .. }
            | Line::Unread { .. }
            | Line::Soft { .. }
            | Line::Held { .. }
            | Line::Tx { .. }
            | Line::Ctl { .. }
            | Line::Overrun { .. }
            | Line::End { .. } => None,
        }
    }

    /// Why the step that it ends is refused, if it is.
    pub fn refusal(&self) -> Option<Refusal>
        ensures { result ≡ option_and_then (λ a. result_err a.1) (line_traits self.now).answer }
    {
        match self.answer() {
            Some((_, Err(refusal))) => Some(refusal),
            Some((_, Ok(_))) | None => None,
        }
    }
    /// The id of the frame that leaves by it, and the port. A frame of the bridge itself has no id.
    pub fn leaving(&self) -> Option<(u32, Port)>
        ensures { result ≡ leaving self.now }
    {
        match self {
            Line::Tx { id, port, .. } => Some((*id, *port)),
            Line::Chip { .. }
            | Line::Unread { .. }
            | Line::Soft { .. }
            | Line::Held { .. }
            | Line::Ctl { .. }
            | Line::Overrun { .. }
            | Line::Done { .. }
            | Line::Refused { .. }
            | Line::End { .. } => None,
        }
    }
}
