//! `follow`: lines of messages are read from a source, and the table that they give is written.
ghost use Rattle.std.specs.Prelude.{◌≡◌, ℕ, ◌-◌, ◌<◌, ◌≤◌, ◌^◌, None, IfOk};
ghost use Rattle.run_io.specs.Causes.{Rose};
ghost use Rattle.run_io.specs.Reading.{room};
ghost use Rattle.neigh_netlink.specs.Follow.{opened};
ghost use Rattle.run_status.specs.Stopping.{Caused as StopsBy};
ghost use Rattle.capture_runner.specs.Following.{Advances, Ends, Lessens, Yields, status_of};
ghost use Rattle.run_status.specs.Statuses.{Caused, EndsIn, call_of};
ghost use Rattle.capture_runner.specs.Outcome.{follow_ways};

use br_model::limits::MOST_BYTES;
use neigh_netlink::{FollowEnd, Follower};
use run_io::lines::{LineFault, LineReader};
use run_io::sinks::Sink;
use run_io::sources::Source;
use run_status::{Status, Stop, put_last};
use std::alloc::Global;

/// Reads the next line, and answers how the lines end with it, if they do.
fn advance<S: Source>(
    alloc: Global,
    reader: &mut LineReader,
    follower: &mut Follower,
    source: &mut S,
) -> Result<Option<FollowEnd>, Stop>
    requires sound { reader.old.fault ≡ None }
    requires few { follower.old.lines < 2 ^ 32 - 1 }
    ensures advances { (limit : ℕ) → Advances limit reader.old reader.new (S.left source.old) (S.left source.new) follower.old follower.new result }
    ensures less { IfOk result (Lessens (room reader.old) (room reader.new)) }
    ensures cause { StopsBy (S.faults source.old) (S.faults source.new) result }
    ensures later { S.faults source.old ≤ S.faults source.new }
{
    match reader.next(alloc, source) {
        Ok(Some(got)) => {
            if got.whole {
                Ok(follower.take(got.bytes))
            } else {
                Ok(Some(follower.close(got.bytes)))
            }
        }
        Ok(None) => Ok(Some(follower.close(&[]))),
        Err(LineFault::LineTooLong) => Ok(Some(follower.bad_length())),
        Err(LineFault::ReadFault) => Err(Stop::ReadFault),
        Err(LineFault::TooLong) => Err(Stop::TooLong),
        Err(LineFault::NoMemory) => Err(Stop::NoMemory),
    }
}

/// Reads lines up to their end or to the first bad one.
fn read_lines<S: Source>(
    alloc: Global,
    follower: &mut Follower,
    source: &mut S,
) -> Result<FollowEnd, Stop>
    requires { follower.old ≡ opened.following }
    ensures ends { Ends (S.left source.old) (S.left source.new) follower.new.table result }
    ensures cause { StopsBy (S.faults source.old) (S.faults source.new) result }
{
    let mut reader = LineReader::make(alloc, MOST_BYTES);
    loop {
        if let Some(end) = advance(alloc, &mut reader, follower, source)? {
            return Ok(end);
        }
    }
}

/// How the lines of a source end, and what is written for them.
fn followed<S: Source>(alloc: Global, source: &mut S) -> Result<(FollowEnd, String), Stop>
    ensures yields { Yields (S.left source.old) (S.left source.new) result }
    ensures cause { StopsBy (S.faults source.old) (S.faults source.new) result }
{
    let mut follower = Follower::make(alloc)?;
    let end = read_lines(alloc, &mut follower, source)?;
    let text = follower.text(alloc, end)?;
    Ok((end, text))
}

fn status_of(end: FollowEnd) -> Status
    ensures { result ≡ status_of end }
{
    match end {
        FollowEnd::Ended => Status::Ok,
        FollowEnd::Bad(..) => Status::BadLine,
    }
}

/// `follow`: the table is written when the lines have ended.
pub(crate) fn follow<S: Source, K: Sink>(alloc: Global, source: &mut S, sink: &mut K) -> Status
    ensures outcome { EndsIn (follow_ways (Rose (S.faults source.old) (S.faults source.new))) result
        (call_of (S.left source.old) (S.left source.new) (K.taken sink.old) (K.taken sink.new)) }
    ensures cause { Caused result (S.faults source.old) (S.faults source.new) (K.faults sink.old) (K.faults sink.new) }
{
    match followed(alloc, source) {
        Ok((end, text)) => put_last(sink, text.as_bytes(), status_of(end)),
        Err(stop) => put_last(sink, stop.line(), stop.status()),
    }
}
