//! The top call.
ghost use Rattle.std.specs.Prelude.{map, string_bytes};
ghost use Rattle.run_io.specs.Causes.{Rose};
ghost use Rattle.capture_runner.specs.Outcome.{Asks, EndsWell, Outcome};
ghost use Rattle.run_status.specs.Statuses.{Caused, call_of};
ghost use Rattle.command_line.specs.Words.{asked};

use crate::follow::follow;
use crate::live::live;
use check_answer::check_all;
use command_line::{Asked, read_words};
use port_workers::Gate;
use run_io::sinks::Sink;
use run_io::sources::Source;
use run_status::{Status, end_without_memory, put_last};
use scenario_runner::audit::audit;
use scenario_runner::commands::{demo, generate, monitor, querier, replay, show};
use std::alloc::Global;
use std::sync::Wait;
use std::thread::Threads;

/// Does all that the words ask, over this source and sink. `replay` reads a scenario of at most 2^28 bytes and writes its
/// transcript, `check` a scenario and the transcript behind it, together fewer bytes, and writes whether this is the scenario's.
/// `show TABLE` (`fdb`, `vlan` or `mdb`) writes the table at a scenario's end, `monitor` the messages of its address changes, `audit`
/// what each chip has of the bridge's entries at its end. `follow` reads the lines that `monitor` writes, and writes the table that they
/// give. `querier A4 A6` writes the general queries that a querier at these addresses would send, of IP version 4 and
/// link-local ones of version 6. `live --workers N`, N from 1 to 16, reads a scenario of at most 2^22 bytes, and writes that of the
/// steps as workers took them and its transcript; each worker calls the gate between the hold of a frame and its post.
/// `gen NUMBER COUNT` reads nothing and writes a scenario, `demo NUMBER COUNT` a summary of its run: NUMBER is below 2^64, COUNT at
/// most 100,000. All but `replay` and `gen` write nothing before their work is over; `gen` has all its memory before its
/// first write. Each status has its last line: that of the transcript or of the other output, `bad N WHY`, `usage`, `read fault`,
/// `no memory` or `too long`; after a fault of writing nothing more is written.
pub fn run<R: Threads + Wait + Sync, S: Source, K: Sink, G: Gate + Sync>(
    rt: &R,
    alloc: Global,
    words: &[String],
    source: &mut S,
    sink: &mut K,
    gate: &G,
) -> Status
    ensures outcome { Outcome (Rose (S.faults source.old) (S.faults source.new)) (asked (map string_bytes words.now)) result
        (call_of (S.left source.old) (S.left source.new) (K.taken sink.old) (K.taken sink.new)) }
    ensures cause { Caused result (S.faults source.old) (S.faults source.new) (K.faults sink.old) (K.faults sink.new) }
    ensures complete { ¬ Rose (S.faults source.old) (S.faults source.new) → ¬ Rose (K.faults sink.old) (K.faults sink.new)
        → Asks (asked (map string_bytes words.now)) (call_of (S.left source.old) (S.left source.new) (K.taken sink.old) (K.taken sink.new))
        → EndsWell (asked (map string_bytes words.now)) result }
{
    match read_words(alloc, words) {
        Ok(Some(Asked::Replay)) => replay(rt, alloc, source, sink),
        Ok(Some(Asked::Check)) => check_all(alloc, source, sink),
        Ok(Some(Asked::Show(listing))) => show(rt, alloc, listing, source, sink),
        Ok(Some(Asked::Monitor)) => monitor(rt, alloc, source, sink),
        Ok(Some(Asked::Audit)) => audit(rt, alloc, source, sink),
        Ok(Some(Asked::Follow)) => follow(alloc, source, sink),
        Ok(Some(Asked::Querier { four, six })) => querier(rt, alloc, four, six, source, sink),
        Ok(Some(Asked::Live { workers })) => live(rt, alloc, gate, workers, source, sink),
        Ok(Some(Asked::Gen { number, count })) => generate(alloc, number, count, sink),
        Ok(Some(Asked::Demo { number, count })) => demo(rt, alloc, number, count, sink),
        Ok(None) => put_last(sink, b"usage\n", Status::Usage),
        Err(_) => end_without_memory(sink),
    }
}
