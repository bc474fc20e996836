//! All of a source, up to a limit of bytes.
ghost use Rattle.std.specs.Prelude.{◌≤◌, ◌≡◌, MatchResult, take};
ghost use Rattle.run_io.specs.Taking.{TakesSome, TakesWhole};

use crate::NoMemory;
use crate::lines::{make_room, read_after};
use crate::sources::{Failed, Source};
use std::alloc::Global;

/// Why no more of a source was taken.
#[derive(Clone, Copy, Debug, PartialEq, Eq)]
pub enum Stop {
    /// Nothing is left.
    Ended,
    /// As many bytes were taken as may be.
    Full,
    /// A read failed.
    ReadFault,
}

/// The bytes that were taken, and why no more were.
#[derive(Drop)]
pub struct Whole {
    pub bytes: Vec<u8>,
    pub stop: Stop,
}

/// Takes what a source has left, at most `limit` bytes. Where no more may be taken it doesn't see whether something is left.
///
/// # Errors
///
/// `NoMemory` where the bytes find no room.
pub fn take_all<S: Source>(alloc: Global, source: &mut S, limit: u32) -> Result<Whole, NoMemory>
    ensures takes { MatchResult result
        (TakesWhole (S.left source.old) (S.left source.new) (S.faults source.old) (S.faults source.new) limit)
        (λ _. TakesSome (S.left source.old) (S.left source.new) limit) }
    ensures later { S.faults source.old ≤ S.faults source.new }
{
    let most = limit as usize;
    let mut bytes = Vec::new(alloc);
    let mut used = 0;
    while used < most {
        make_room(alloc, &mut bytes, used)?;
        match read_after(source, &mut bytes, used, most - used) {
            Ok(0) => return Ok(taken(bytes, used, Stop::Ended)),
            Ok(count) => used += count,
            Err(Failed) => return Ok(taken(bytes, used, Stop::ReadFault)),
        }
    }
    Ok(taken(bytes, used, Stop::Full))
}

/// The first bytes of the room, which were taken.
fn taken(mut bytes: Vec<u8>, used: usize, stop: Stop) -> Whole
    ensures bytes { result.bytes.items ≡ take used bytes.items }
    ensures stop { result.stop ≡ stop }
{
    bytes.truncate(used);
    Whole { bytes, stop }
}
