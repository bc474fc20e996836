//! A scenario is read from a source, line by line, and its transcript is written to a sink.
ghost use Rattle.std.specs.Prelude.{◌≡◌, ℕ, false, ◌-◌, ◌<◌, ◌≤◌, ◌^◌, [], true, None, IfOk, IfErr, OnOk, OnErr, string_bytes};
ghost use Rattle.std.specs.List.{list_all};
ghost use Rattle.std.specs.String.{string_capacity, string_len};
ghost use Rattle.br_model.specs.Text.Operands.{longest_section};
ghost use Rattle.br_model.specs.Text.Scenario.{opened};
ghost use Rattle.run_io.specs.Causes.{HasCause};
ghost use Rattle.run_io.specs.Reading.{holds_next, room};
ghost use Rattle.run_io.specs.Writing.{full_length};
ghost use Rattle.scenario_runner.specs.Advancing.{Advances, Lessens, Sections};
ghost use Rattle.run_status.specs.Stopping.{Caused};
ghost use Rattle.run_status.specs.Writing.{Breaks, Grows, Moves};
ghost use Rattle.scenario_runner.specs.Halting.{DoesAll, DoesSome, Halts, IsBehind, Plays, PlaysSection, Stalls};
ghost use Rattle.scenario_reader.specs.Reading.{IsBehindDeclarations};
ghost use Rattle.scenario_runner.specs.Session.{ComeByLine, Follows, IsReady};
ghost use Rattle.run_world.specs.Voices.{lines_of};
ghost use Rattle.br_model.specs.Text.LineForms.{comes_by_line};
ghost use Rattle.br_model.specs.Text.Roster.{chips_of};

use crate::session::{Next, Session};
use br_model::limits::MOST_BYTES;
use br_model::scenario::LineWhy;
use br_model::steps::Step;
use run_io::lines::{LineFault, LineReader};
use run_io::output::Output;
use run_io::sinks::{Sink, WriteFault};
use run_io::sources::Source;
use run_status::Stop;
use scenario_reader::{Captured, Last};
use std::alloc::{AllocError, Global};
use std::sync::Wait;

/// Reads the next line, does its step and writes the step's lines after the text.
#[inline(always)]
pub(crate) fn advance<R: Wait, S: Source>(
    rt: &R,
    alloc: Global,
    reader: &mut LineReader,
    session: &mut Session,
    source: &mut S,
    text: &mut String,
) -> Result<Next, Stop>
    requires sound { reader.old.fault ≡ None }
    requires few { session.old.reader.lines < 2 ^ 32 - 1 }
    requires ready { IsReady session.old.reader.roster session.old.world session.old.voice }
    ensures ready { OnOk result (IsReady session.new.reader.roster session.new.world session.new.voice) }
    ensures same { OnOk result (lines_of session.new.voice ≡ lines_of session.old.voice) }
    ensures advances { (limit : ℕ) → Advances limit reader.old reader.new (S.left source.old) (S.left source.new)
        session.old session.new (string_bytes text.old) (string_bytes text.new) result }
    ensures less { IfOk result (Lessens (room reader.old) (room reader.new)) }
    ensures cause { Caused (S.faults source.old) (S.faults source.new) result }
    ensures later { S.faults source.old ≤ S.faults source.new }
{
    match reader.next(alloc, source) {
        Ok(Some(got)) => {
            if got.whole {
                Ok(session.take(rt, alloc, got.bytes, text)?)
            } else {
                Ok(Next::End(session.reader.close(got.bytes)))
            }
        }
        Ok(None) => Ok(Next::End(session.reader.close(&[]))),
        Err(LineFault::LineTooLong) => Ok(Next::End(session.reader.bad(LineWhy::Long))),
        Err(LineFault::ReadFault) => Err(Stop::ReadFault),
        Err(LineFault::TooLong) => Err(Stop::TooLong),
        Err(LineFault::NoMemory) => Err(Stop::NoMemory),
    }
}

/// Reads the section of the line before, of so many bytes.
fn read_section<S: Source>(
    alloc: Global,
    reader: &mut LineReader,
    session: &Session,
    source: &mut S,
    length: u32,
) -> Result<Captured, Stop>
    requires sound { reader.old.fault ≡ None }
    requires most { length ≤ longest_section }
    ensures sections { (limit : ℕ) → Sections limit reader.old reader.new (S.left source.old) (S.left source.new) session.now length result }
    ensures by_line { IfOk result (ComeByLine (chips_of session.now.reader.roster.ports)) }
    ensures less { OnOk result (room reader.new ≤ room reader.old) }
    ensures cause { Caused (S.faults source.old) (S.faults source.new) result }
    ensures later { S.faults source.old ≤ S.faults source.new }
{
    match reader.take(alloc, source, length) {
        Ok(got) => {
            if got.whole {
                Ok(session.reader.captured(alloc, got.bytes)?)
            } else {
                Ok(Captured::End(session.reader.bad_section(LineWhy::Unended)))
            }
        }
        Err(LineFault::ReadFault) => Err(Stop::ReadFault),
        Err(LineFault::TooLong) => Err(Stop::TooLong),
        Err(LineFault::NoMemory) => Err(Stop::NoMemory),
        // Only a fault of an earlier line comes as this one here.
        Err(LineFault::LineTooLong) => unreachable!(),
    }
}

/// Why a run stopped: of its scenario, or since a write failed.
#[derive(Clone, Copy)]
pub(crate) enum Halt {
    Stopped(Stop),
    WriteFault,
}

impl From<AllocError> for Halt {
    ghost use Rattle.scenario_runner.specs.declared.replay.Halt.TheVariants.{Stopped};
    ghost use Rattle.run_status.specs.declared.stop.Stop.TheVariants.{NoMemory};

    ghost from_gives = { λ _ halt. halt ≡ Stopped NoMemory };

    fn from(_: AllocError) -> Halt {
        Halt::Stopped(Stop::NoMemory)
    }
}

impl From<WriteFault> for Halt {
    ghost use Rattle.scenario_runner.specs.declared.replay.Halt.TheVariants as halts;

    ghost from_gives = { λ _ halt. halt ≡ halts.WriteFault };

    fn from(_: WriteFault) -> Halt {
        Halt::WriteFault
    }
}

impl From<Stop> for Halt {
    ghost use Rattle.scenario_runner.specs.declared.replay.Halt.TheVariants.{Stopped};

    ghost from_gives = { λ stop halt. halt ≡ Stopped stop };

    fn from(stop: Stop) -> Halt {
        Halt::Stopped(stop)
    }
}

/// Writes what the output holds, where there is much of it.
pub(crate) fn put_if_full<K: Sink>(output: &mut Output, sink: &mut K) -> Result<(), WriteFault>
    ensures moved { OnOk result (Moves (K.taken sink.old) (K.taken sink.new) (string_bytes output.old.text) (string_bytes output.new.text)) }
    ensures small { OnOk result (string_len output.new.text < full_length) }
    ensures room { OnOk result (string_capacity output.old.text ≤ string_capacity output.new.text) }
    ensures breaks { OnErr result (Breaks (K.taken sink.old) (K.taken sink.new) (string_bytes output.old.text)) }
    ensures cause { HasCause (K.faults sink.old) (K.faults sink.new) result }
{
    if output.is_full() {
        return output.flush(sink);
    }
    Ok(())
}

/// Writes what the output holds, where a read may wait or there is much of it.
fn put_before_read<K: Sink>(
    reader: &LineReader,
    output: &mut Output,
    sink: &mut K,
) -> Result<(), WriteFault>
    ensures moved { OnOk result (Moves (K.taken sink.old) (K.taken sink.new) (string_bytes output.old.text) (string_bytes output.new.text)) }
    ensures all { holds_next reader.now ≡ false → OnOk result (string_bytes output.new.text ≡ []) }
    ensures breaks { OnErr result (Breaks (K.taken sink.old) (K.taken sink.new) (string_bytes output.old.text)) }
    ensures cause { HasCause (K.faults sink.old) (K.faults sink.new) result }
{
    if reader.holds_line() {
        return put_if_full(output, sink);
    }
    output.flush(sink)
}

/// Does the steps of a section. The output is written where it is full.
fn do_steps<R: Wait, K: Sink>(
    rt: &R,
    alloc: Global,
    session: &mut Session,
    sink: &mut K,
    output: &mut Output,
    steps: Vec<Step>,
) -> Result<(), Halt>
    requires by_line { list_all (comes_by_line false (chips_of session.old.reader.roster.ports)) steps.items ≡ true }
    requires ready { IsReady session.old.reader.roster session.old.world session.old.voice }
    requires behind { IsBehindDeclarations session.old.reader.roster }
    ensures ready { OnOk result (IsReady session.new.reader.roster session.new.world session.new.voice) }
    ensures same { OnOk result (lines_of session.new.voice ≡ lines_of session.old.voice) }
    ensures does { OnOk result (DoesAll session.old steps.items session.new
        (K.taken sink.old) (K.taken sink.new) (string_bytes output.old.text) (string_bytes output.new.text)) }
    ensures halts { IfErr result (DoesSome session.old steps.items
        (K.taken sink.old) (K.taken sink.new) (string_bytes output.old.text) (string_bytes output.new.text)) }
    ensures grows { Grows (K.taken sink.old) (K.taken sink.new) }
    ensures cause { Stalls (K.faults sink.old) (K.faults sink.new) result }
    ensures later { K.faults sink.old ≤ K.faults sink.new }
{
    for step in steps {
        put_if_full(output, sink)?;
        session.step(rt, alloc, step, &mut output.text)?;
    }
    Ok(())
}

/// Reads the section of the line before, of so many bytes, and does its steps. The answer is how the scenario ends with it,
/// if so.
fn play_section<R: Wait, S: Source, K: Sink>(
    rt: &R,
    alloc: Global,
    reader: &mut LineReader,
    session: &mut Session,
    source: &mut S,
    sink: &mut K,
    output: &mut Output,
    length: u32,
) -> Result<Option<Last>, Halt>
    requires sound { reader.old.fault ≡ None }
    requires most { length ≤ longest_section }
    requires ready { IsReady session.old.reader.roster session.old.world session.old.voice }
    requires behind { IsBehindDeclarations session.old.reader.roster }
    ensures ready { OnOk result (IsReady session.new.reader.roster session.new.world session.new.voice) }
    ensures same { OnOk result (lines_of session.new.voice ≡ lines_of session.old.voice) }
    ensures plays { PlaysSection reader.old reader.new (S.left source.old) (S.left source.new)
        session.old session.new (K.taken sink.old) (K.taken sink.new) (string_bytes output.old.text) (string_bytes output.new.text) length result }
    ensures grows { Grows (K.taken sink.old) (K.taken sink.new) }
    ensures less { OnOk result (room reader.new ≤ room reader.old) }
    ensures cause { Halts (S.faults source.old) (S.faults source.new) (K.faults sink.old) (K.faults sink.new) result }
    ensures later { S.faults source.old ≤ S.faults source.new }
    ensures later_sink { K.faults sink.old ≤ K.faults sink.new }
{
    output.flush(sink)?;
    match read_section(alloc, reader, session, source, length)? {
        Captured::Steps(steps) => {
            do_steps(rt, alloc, session, sink, output, steps)?;
            Ok(None)
        }
        Captured::End(last) => Ok(Some(last)),
    }
}

/// Reads a scenario to its end or to its first bad line, in a new session. The output takes its transcript, the last line too, and
/// is written before each read that may wait, before each section, and where it is full.
pub(crate) fn play<R: Wait, S: Source, K: Sink>(
    rt: &R,
    alloc: Global,
    session: &mut Session,
    source: &mut S,
    sink: &mut K,
    output: &mut Output,
) -> Result<Last, Halt>
    requires follows { Follows (opened false) session.old }
    requires lines { session.old.reader.lines ≡ 0 }
    requires text { string_bytes output.old.text ≡ [] }
    ensures plays { Plays (S.left source.old) (S.left source.new) session.new (K.taken sink.old) (K.taken sink.new) (string_bytes output.new.text) result }
    ensures same { OnOk result (lines_of session.new.voice ≡ lines_of session.old.voice) }
    ensures behind { IsBehind (S.left source.old) (S.left source.new) (K.taken sink.old) (K.taken sink.new) }
    ensures cause { Halts (S.faults source.old) (S.faults source.new) (K.faults sink.old) (K.faults sink.new) result }
    ensures later { K.faults sink.old ≤ K.faults sink.new }
{
    output.text.push_str("transcript 1\n")?;
    let mut reader = LineReader::make(alloc, MOST_BYTES);
    loop {
        put_before_read(&reader, output, sink)?;
        let text = &mut output.text;
        match advance(rt, alloc, &mut reader, session, source, text)? {
            Next::Line => {}
            Next::Section(length) => {
                let reader = &mut reader;
                if let Some(last) = play_section(
                    rt, alloc, reader, session, source, sink, output, length,
                )? {
                    session.end(last, &mut output.text)?;
                    return Ok(last);
                }
            }
            Next::End(last) => {
                session.end(last, text)?;
                return Ok(last);
            }
        }
    }
}
