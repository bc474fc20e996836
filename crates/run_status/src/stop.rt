//! What stops a run on its way.
ghost use Rattle.std.specs.Prelude.{◌≡◌};
ghost use Rattle.run_status.specs.Stopping.{stop_line, stop_status};

use crate::status::Status;
use std::alloc::AllocError;

/// Why a run stopped before its scenario ended.
#[derive(Clone, Copy)]
pub enum Stop {
    ReadFault,
    NoMemory,
    TooLong,
}

impl Stop {
    /// The last line of a run that stopped so.
    pub fn line(self) -> &'static [u8]
        ensures { result.now ≡ stop_line self }
    {
        match self {
            Stop::ReadFault => b"read fault\n",
            Stop::NoMemory => b"no memory\n",
            Stop::TooLong => b"too long\n",
        }
    }

    pub fn status(self) -> Status
        ensures { result ≡ stop_status self }
    {
        match self {
            Stop::ReadFault => Status::ReadFault,
            Stop::NoMemory => Status::NoMemory,
            Stop::TooLong => Status::TooLong,
        }
    }
}

impl From<AllocError> for Stop {
    ghost use Rattle.run_status.specs.declared.stop.Stop.TheVariants.{NoMemory};

    ghost from_gives = { λ _ stop. stop ≡ NoMemory };

    fn from(_: AllocError) -> Stop {
        Stop::NoMemory
    }
}
