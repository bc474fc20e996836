//! What answers inputs of some kind of lines.
ghost use Rattle.std.specs.Prelude.{◌≡◌, ◌<◌, ◌≤◌, IfOk, length};
ghost use Rattle.br_model.specs.Table.Limits.{most_bytes};
ghost use Rattle.whole_answer.specs.Answers.{Asked, Finds, Sees, verdict_status};

use crate::NoMemory;
use run_status::Status;
use std::alloc::Global;

/// How an input is answered.
#[derive(Clone, Copy, Debug, PartialEq, Eq)]
pub enum Verdict {
    /// It ends well, and the answer is yes, or no more than its text.
    Yes,
    /// It ends well, and the answer is no.
    No,
    /// One of its lines is bad.
    Bad,
}

impl Verdict {
    /// The status of a command that answers so.
    pub fn status(self) -> Status
        ensures { result ≡ verdict_status self }
    {
        match self {
            Verdict::Yes => Status::Ok,
            Verdict::No => Status::No,
            Verdict::Bad => Status::BadLine,
        }
    }
}

/// All that is written of an input.
#[derive(Drop)]
pub struct Found {
    pub text: String,
    pub verdict: Verdict,
}

/// Answers whole inputs.
pub trait Answer {
    ghost asks: { Self → Asked };

    /// What is found in these bytes, which are all.
    ///
    /// # Errors
    ///
    /// `NoMemory` where it finds no room.
    fn whole(&self, alloc: Global, bytes: &[u8]) -> Result<Found, NoMemory>
        requires { length bytes.now < most_bytes }
        ensures { IfOk result (Finds (asks self.now) bytes.now) };

    /// What is found in these bytes whatever follows, since their lines have ended; nothing where they go on.
    ///
    /// # Errors
    ///
    /// `NoMemory` where it finds no room.
    fn so_far(&self, alloc: Global, bytes: &[u8]) -> Result<Option<Found>, NoMemory>
        requires { length bytes.now ≤ most_bytes }
        ensures { IfOk result (Sees (asks self.now) bytes.now) };
}
