//! What each command does, to its last line.
ghost use Rattle.std.specs.Prelude.{◌≡◌, ℕ, ◌≤◌, List, Option, OnOk, OnErr, true, false, string_bytes};
ghost use Rattle.br_model.specs.Program.Generator.{made, most_frames};
ghost use Rattle.br_model.specs.Program.Listings.{listed};
ghost use Rattle.br_model.specs.Program.Summary.{summary as summary_of};
ghost use Rattle.br_model.specs.Text.Scenario.{opened};
ghost use Rattle.mcast_querier.specs.Queries.{is_host_four, is_link_local_six};
ghost use Rattle.mcast_querier.specs.Runs.{queried};
ghost use Rattle.run_io.specs.Causes.{HasCause, Rose};
ghost use Rattle.run_status.specs.Stopping.{Caused as StopsBy};
ghost use Rattle.scenario_runner.specs.Generating.{HasRoom, PutsAll, PutsSome};
ghost use Rattle.scenario_runner.specs.Halting.{Yields};
ghost use Rattle.run_status.specs.Statuses.{Caused, EndsIn, Replays, call_of, scenario_ways, writing_ways};
ghost use Rattle.scenario_runner.specs.Session.{Follows, SaysNothing, status_of};
ghost use Rattle.scenario_runner.specs.Speaking.{answer_by};
ghost use Rattle.neigh_netlink.specs.Monitor.{monitored};

use crate::demo::summary;
use crate::replay::{Halt, play, put_if_full};
use crate::session::Session;
use br_model::listing::Listing;
use run_io::output::Output;
use run_io::sinks::{Nowhere, Sink, WriteFault};
use run_io::sources::Source;
use run_status::{Status, Stop, end_with, end_without_memory, put_last};
use run_world::voice::Voice;
use run_world::{Asking, Monitor};
use scenario_generator::{Generator, append_opening};
use scenario_reader::Last;
use std::alloc::Global;
use std::sync::Wait;

/// The status of a command whose scenario ends so.
pub fn status_of(last: Last) -> Status
    ensures { result ≡ status_of last }
{
    match last {
        Last::Ended => Status::Ok,
        Last::Bad(..) => Status::BadLine,
    }
}

/// `replay` in this new session.
fn replay_in<R: Wait, S: Source, K: Sink>(
    rt: &R,
    alloc: Global,
    session: &mut Session,
    source: &mut S,
    sink: &mut K,
) -> Status
    requires follows { Follows (opened false) session.old }
    requires lines { session.old.reader.lines ≡ 0 }
    ensures outcome { Replays (Rose (S.faults source.old) (S.faults source.new)) result
        (call_of (S.left source.old) (S.left source.new) (K.taken sink.old) (K.taken sink.new)) }
    ensures cause { Caused result (S.faults source.old) (S.faults source.new) (K.faults sink.old) (K.faults sink.new) }
{
    let Ok(mut output) = Output::make(alloc) else {
        return end_without_memory(sink);
    };
    match play(rt, alloc, session, source, sink, &mut output) {
        Ok(last) => end_with(sink, &mut output, b"", status_of(last)),
        Err(Halt::Stopped(stop)) => end_with(sink, &mut output, stop.line(), stop.status()),
        Err(Halt::WriteFault) => Status::WriteFault,
    }
}

/// `replay`: the transcript is written while the scenario is read.
pub fn replay<R: Wait, S: Source, K: Sink>(
    rt: &R,
    alloc: Global,
    source: &mut S,
    sink: &mut K,
) -> Status
    ensures outcome { Replays (Rose (S.faults source.old) (S.faults source.new)) result
        (call_of (S.left source.old) (S.left source.new) (K.taken sink.old) (K.taken sink.new)) }
    ensures cause { Caused result (S.faults source.old) (S.faults source.new) (K.faults sink.old) (K.faults sink.new) }
{
    match Session::new(alloc, Voice::Silent) {
        Ok(mut session) => {
            let status = replay_in(rt, alloc, &mut session, source, sink);
            session.finish(rt);
            status
        }
        Err(_) => end_without_memory(sink),
    }
}

/// Runs a scenario in this new session, and answers how it ends, with the listing of its whole history's table or with the bad line.
/// The run is a replay's over a sink that keeps nothing, so there is one loop for both.
fn listing_in<R: Wait, S: Source>(
    rt: &R,
    alloc: Global,
    session: &mut Session,
    listing: Listing,
    source: &mut S,
) -> Result<(Last, String), Stop>
    requires follows { Follows (opened false) session.old }
    requires lines { session.old.reader.lines ≡ 0 }
    ensures lists { Yields (listed listing) (S.left source.old) (S.left source.new) result }
    ensures cause { StopsBy (S.faults source.old) (S.faults source.new) result }
{
    let mut output = Output::make(alloc)?;
    match play(rt, alloc, session, source, &mut Nowhere, &mut output) {
        Ok(last) => Ok((last, session.list(alloc, listing, last)?)),
        Err(Halt::Stopped(stop)) => Err(stop),
        Err(Halt::WriteFault) => unreachable!(),
    }
}

/// The same in a session of its own.
fn listing_of<R: Wait, S: Source>(
    rt: &R,
    alloc: Global,
    listing: Listing,
    source: &mut S,
) -> Result<(Last, String), Stop>
    ensures lists { Yields (listed listing) (S.left source.old) (S.left source.new) result }
    ensures cause { StopsBy (S.faults source.old) (S.faults source.new) result }
{
    let mut session = Session::new(alloc, Voice::Silent)?;
    let listed = listing_in(rt, alloc, &mut session, listing, source);
    session.finish(rt);
    listed
}

/// `show`: the listing is written when the scenario has ended.
pub fn show<R: Wait, S: Source, K: Sink>(
    rt: &R,
    alloc: Global,
    listing: Listing,
    source: &mut S,
    sink: &mut K,
) -> Status
    ensures outcome { EndsIn (scenario_ways (Rose (S.faults source.old) (S.faults source.new)) (listed listing)) result
        (call_of (S.left source.old) (S.left source.new) (K.taken sink.old) (K.taken sink.new)) }
    ensures cause { Caused result (S.faults source.old) (S.faults source.new) (K.faults sink.old) (K.faults sink.new) }
{
    match listing_of(rt, alloc, listing, source) {
        Ok((last, text)) => put_last(sink, text.as_bytes(), status_of(last)),
        Err(stop) => put_last(sink, stop.line(), stop.status()),
    }
}

/// Runs a scenario in this new session, and answers how it ends, with all that was said of it or with the bad line.
fn said_in<R: Wait, S: Source>(
    rt: &R,
    alloc: Global,
    session: &mut Session,
    source: &mut S,
) -> Result<(Last, String), Stop>
    requires follows { Follows (opened false) session.old }
    requires lines { session.old.reader.lines ≡ 0 }
    ensures says { Yields (answer_by session.old.voice) (S.left source.old) (S.left source.new) result }
    ensures cause { StopsBy (S.faults source.old) (S.faults source.new) result }
{
    let mut output = Output::make(alloc)?;
    match play(rt, alloc, session, source, &mut Nowhere, &mut output) {
        Ok(last) => Ok((last, session.take_said(alloc, last)?)),
        Err(Halt::Stopped(stop)) => Err(stop),
        Err(Halt::WriteFault) => unreachable!(),
    }
}

/// The same in a session of its own.
fn said_of<R: Wait, S: Source>(
    rt: &R,
    alloc: Global,
    voice: Voice,
    source: &mut S,
) -> Result<(Last, String), Stop>
    requires { SaysNothing voice }
    ensures says { Yields (answer_by voice) (S.left source.old) (S.left source.new) result }
    ensures cause { StopsBy (S.faults source.old) (S.faults source.new) result }
{
    let mut session = Session::new(alloc, voice)?;
    let said = said_in(rt, alloc, &mut session, source);
    session.finish(rt);
    said
}

/// What the voice says is written when the scenario has ended.
fn speak<R: Wait, S: Source, K: Sink>(
    rt: &R,
    alloc: Global,
    voice: Voice,
    source: &mut S,
    sink: &mut K,
) -> Status
    requires { SaysNothing voice }
    ensures outcome { EndsIn (scenario_ways (Rose (S.faults source.old) (S.faults source.new)) (answer_by voice)) result
        (call_of (S.left source.old) (S.left source.new) (K.taken sink.old) (K.taken sink.new)) }
    ensures cause { Caused result (S.faults source.old) (S.faults source.new) (K.faults sink.old) (K.faults sink.new) }
{
    match said_of(rt, alloc, voice, source) {
        Ok((last, text)) => put_last(sink, text.as_bytes(), status_of(last)),
        Err(stop) => put_last(sink, stop.line(), stop.status()),
    }
}

/// `monitor`: the messages of the address changes.
pub fn monitor<R: Wait, S: Source, K: Sink>(
    rt: &R,
    alloc: Global,
    source: &mut S,
    sink: &mut K,
) -> Status
    ensures outcome { EndsIn (scenario_ways (Rose (S.faults source.old) (S.faults source.new)) monitored) result
        (call_of (S.left source.old) (S.left source.new) (K.taken sink.old) (K.taken sink.new)) }
    ensures cause { Caused result (S.faults source.old) (S.faults source.new) (K.faults sink.old) (K.faults sink.new) }
{
    speak(rt, alloc, Voice::Monitor(Monitor::new(alloc)), source, sink)
}

/// `querier`: the general queries of a querier at these addresses.
pub fn querier<R: Wait, S: Source, K: Sink>(
    rt: &R,
    alloc: Global,
    four: u32,
    six: u128,
    source: &mut S,
    sink: &mut K,
) -> Status
    requires four { is_host_four four ≡ true }
    requires six { is_link_local_six six ≡ true }
    ensures outcome { EndsIn (scenario_ways (Rose (S.faults source.old) (S.faults source.new)) (queried four six)) result
        (call_of (S.left source.old) (S.left source.new) (K.taken sink.old) (K.taken sink.new)) }
    ensures cause { Caused result (S.faults source.old) (S.faults source.new) (K.faults sink.old) (K.faults sink.new) }
{
    let asking = Asking::new(alloc, four, six);
    speak(rt, alloc, Voice::Querier(asking), source, sink)
}

/// Writes frames as lines while any is left. The last ones are held.
fn put_frames<K: Sink>(
    frames: &mut Generator,
    sink: &mut K,
    output: &mut Output,
) -> Result<(), WriteFault>
    requires room { HasRoom output.old }
    ensures puts { OnOk result (PutsAll frames.old frames.new (K.taken sink.old) (K.taken sink.new)
        (string_bytes output.old.text) (string_bytes output.new.text)) }
    ensures room { OnOk result (HasRoom output.new) }
    ensures breaks { OnErr result (PutsSome frames.old (K.taken sink.old) (K.taken sink.new) (string_bytes output.old.text)) }
    ensures cause { HasCause (K.faults sink.old) (K.faults sink.new) result }
{
    while frames.left() > 0 {
        put_if_full(output, sink)?;
        frames.append_frame(&mut output.text);
    }
    Ok(())
}

/// `gen`: all memory is there before the first write.
pub fn generate<K: Sink>(alloc: Global, number: u64, count: u32, sink: &mut K) -> Status
    requires { count ≤ most_frames }
    ensures outcome { (left : Option (List ℕ)) → EndsIn (writing_ways (made number count)) result
        (call_of left left (K.taken sink.old) (K.taken sink.new)) }
    ensures cause { (reads : ℕ) → Caused result reads reads (K.faults sink.old) (K.faults sink.new) }
{
    let Ok(mut output) = Output::make(alloc) else {
        return end_without_memory(sink);
    };
    let mut frames = Generator::new(number, count);
    append_opening(&mut output.text);
    match put_frames(&mut frames, sink, &mut output) {
        Ok(()) => {
            frames.append_end(&mut output.text);
            end_with(sink, &mut output, b"", Status::Ok)
        }
        Err(_) => Status::WriteFault,
    }
}

/// `demo`: the summary is written when the run is over.
pub fn demo<R: Wait, K: Sink>(
    rt: &R,
    alloc: Global,
    number: u64,
    count: u32,
    sink: &mut K,
) -> Status
    requires { count ≤ most_frames }
    ensures outcome { (left : Option (List ℕ)) → EndsIn (writing_ways (summary_of number count)) result
        (call_of left left (K.taken sink.old) (K.taken sink.new)) }
    ensures cause { (reads : ℕ) → Caused result reads reads (K.faults sink.old) (K.faults sink.new) }
{
    match summary(rt, alloc, number, count) {
        Ok(text) => put_last(sink, text.as_bytes(), Status::Ok),
        Err(_) => end_without_memory(sink),
    }
}
