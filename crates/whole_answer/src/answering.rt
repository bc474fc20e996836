//! The answer of a source's bytes is written.
ghost use Rattle.std.specs.Prelude.{◌≤◌, length};
ghost use Rattle.br_model.specs.Table.Limits.{most_bytes};
ghost use Rattle.run_io.specs.Causes.{Rose};
ghost use Rattle.run_status.specs.Statuses.{Caused, EndsIn, call_of};
ghost use Rattle.run_status.specs.Stopping.{Caused as StopsBy};
ghost use Rattle.whole_answer.specs.Answers.{AnswersSo, SeesOr, answer_ways};

use crate::answer::{Answer, Found};
use br_model::limits::MOST_BYTES;
use run_io::sinks::Sink;
use run_io::sources::Source;
use run_io::whole::{Stop as TakingStop, take_all};
use run_status::{Status, Stop, put_last};
use std::alloc::Global;

/// What is found in the first bytes of an input, of which no more are taken for this cause.
fn seen<A: Answer>(alloc: Global, answer: &A, bytes: &[u8], stop: Stop) -> Result<Found, Stop>
    requires { length bytes.now ≤ most_bytes }
    ensures { SeesOr (A.asks answer.now) bytes.now stop result }
{
    match answer.so_far(alloc, bytes)? {
        Some(found) => Ok(found),
        None => Err(stop),
    }
}

/// Takes all of the source, and says what is found in it.
fn find<A: Answer, S: Source>(alloc: Global, answer: &A, source: &mut S) -> Result<Found, Stop>
    ensures answers { AnswersSo (Rose (S.faults source.old) (S.faults source.new)) (A.asks answer.now) (S.left source.old) (S.left source.new) result }
    ensures cause { StopsBy (S.faults source.old) (S.faults source.new) result }
{
    let taken = take_all(alloc, source, MOST_BYTES)?;
    let bytes = taken.bytes.as_slice();
    match taken.stop {
        TakingStop::Ended => Ok(answer.whole(alloc, bytes)?),
        TakingStop::Full => seen(alloc, answer, bytes, Stop::TooLong),
        TakingStop::ReadFault => seen(alloc, answer, bytes, Stop::ReadFault),
    }
}

/// Reads the source, and writes its answer. What comes behind the end of its lines, or behind a bad one, changes nothing: no fault of
/// reading, and no byte too much.
pub fn answer_all<A: Answer, S: Source, K: Sink>(
    alloc: Global,
    answer: &A,
    source: &mut S,
    sink: &mut K,
) -> Status
    ensures outcome { EndsIn (answer_ways (Rose (S.faults source.old) (S.faults source.new)) (A.asks answer.now)) result
        (call_of (S.left source.old) (S.left source.new) (K.taken sink.old) (K.taken sink.new)) }
    ensures cause { Caused result (S.faults source.old) (S.faults source.new) (K.faults sink.old) (K.faults sink.new) }
{
    match find(alloc, answer, source) {
        Ok(found) => put_last(sink, found.text.as_bytes(), found.verdict.status()),
        Err(stop) => put_last(sink, stop.line(), stop.status()),
    }
}
