//! `live`: a whole scenario is read, workers take its steps, and the steps as they happened are written with their transcript.
ghost use Rattle.std.specs.Prelude.{◌≡◌, ◌∷◌, ◌++◌, ◌<◌, ◌≤◌, true, false, codes, length, nat_le, IfOk, string_bytes};
ghost use Rattle.std.specs.List.{list_all};
ghost use Rattle.br_model.specs.Program.LiveText.{steps_scenario};
ghost use Rattle.br_model.specs.Table.Limits.{most_bytes};
ghost use Rattle.br_model.specs.Text.LineForms.{comes_by_line};
ghost use Rattle.br_model.specs.Text.Operands.{last_id};
ghost use Rattle.br_model.specs.Text.Roster.{chips_of};
ghost use Rattle.br_model.specs.Text.ScenarioText.{has_line, names_declared};
ghost use Rattle.br_model.specs.Text.Transcript.{line_text, text as text_of};
ghost use Rattle.run_io.specs.Causes.{Rose};
ghost use Rattle.scenario_reader.specs.declared.reader.Last.TheVariants.{Ended};
ghost use Rattle.scenario_reader.specs.Whole.{SaysWhole};
ghost use Rattle.run_status.specs.Stopping.{Caused as StopsBy};
ghost use Rattle.capture_runner.specs.Living.{IsLiveText, ReadsLive, YieldsLive, are_small, is_numbered};
ghost use Rattle.run_status.specs.Statuses.{Caused, EndsIn, call_of, live_ways};
ghost use Rattle.command_line.specs.Words.{most_workers};

use br_model::NoMemory;
use br_model::limits::MOST_LIVE_BYTES;
use br_model::steps::Step;
use bridge_command::Roster;
use live_workers::{Taken, take_steps};
use port_workers::Gate;
use run_io::sinks::Sink;
use run_io::sources::Source;
use run_io::whole::{Stop as Stand, take_all};
use run_status::{Status, Stop, bad_text, put_last};
use scenario_reader::{Last, Whole, read_scenario};
use scenario_runner::commands::status_of;
use std::alloc::Global;
use std::sync::Wait;
use std::thread::Threads;

/// Reads a scenario in memory.
fn read_bytes(alloc: Global, bytes: &[u8]) -> Result<Whole, NoMemory>
    requires { length bytes.now ≤ most_bytes }
    ensures says { IfOk result (SaysWhole false bytes.now) }
    ensures lines { IfOk result (λ x. x.close ≡ Ended → list_all (has_line x.roster.ports) x.steps ≡ true) }
{
    read_scenario(alloc, false, bytes)
}

/// Takes what the source has, and reads it as a scenario. One that has ended in the bytes that were taken is whole, whatever comes
/// behind them.
fn read_live<S: Source>(alloc: Global, source: &mut S) -> Result<Whole, Stop>
    ensures reads { ReadsLive (S.left source.old) (S.left source.new) result }
    ensures cause { StopsBy (S.faults source.old) (S.faults source.new) result }
{
    let taken = take_all(alloc, source, MOST_LIVE_BYTES)?;
    let whole = read_bytes(alloc, &taken.bytes)?;
    if whole.last().is_some() {
        return Ok(whole);
    }
    match taken.stop {
        Stand::Ended => Ok(whole),
        Stand::Full => Err(Stop::TooLong),
        Stand::ReadFault => Err(Stop::ReadFault),
    }
}

/// The scenario of the steps that workers took, and its transcript.
fn text_of(alloc: Global, roster: &Roster, taken: &Taken) -> Result<String, NoMemory>
    requires { list_all (names_declared roster.now.ports) taken.now.book.steps ≡ true }
    ensures { IfOk result (λ text. string_bytes text ≡ steps_scenario roster.now taken.now.book.steps
        ++ (codes "transcript 1" ++ 10 ∷ (text_of taken.now.book.lines.lines ++ line_text taken.now.end))) }
{
    let steps = taken.book.steps.as_slice();
    run_status::live_text(alloc, roster, steps, &taken.book.lines, &taken.end)
}

/// A law: this number has no more than 32 bits.
fn number_fits(number: u32)
    ensures { nat_le number last_id ≡ true }
{}

/// A law: so have the numbers of a post.
fn post_fits(id: u32, point: Option<u32>)
    ensures { are_small id point ≡ true }
{
    number_fits(id);
    if let Some(point) = point {
        number_fits(point);
    }
}

/// A law: whatever the step is.
fn numbers_fit(step: &Step)
    ensures { is_numbered step.now ≡ true }
{
    if let Step::Post { id, point } = step {
        post_fits(*id, *point);
    }
}

/// The same of each of them.
fn all_numbers_fit(steps: &[Step])
    ensures { list_all is_numbered steps.now ≡ true }
{
    for step in steps {
        numbers_fit(step);
    }
}

/// The scenario and the transcript of the steps that so many workers take of this scenario.
fn live_text<R: Threads + Wait + Sync, G: Gate + Sync>(
    rt: &R,
    alloc: Global,
    gate: &G,
    workers: usize,
    whole: &Whole,
) -> Result<String, NoMemory>
    requires workers { (0 < workers) × (workers ≤ most_workers) }
    requires by_line { list_all (comes_by_line false (chips_of whole.now.roster.ports)) whole.now.steps ≡ true }
    requires lines { list_all (has_line whole.now.roster.ports) whole.now.steps ≡ true }
    ensures { IfOk result (λ text. IsLiveText whole.now.roster whole.now.steps (string_bytes text)) }
{
    let roster = whole.roster();
    let domains = roster.domains();
    let taken = take_steps(
        rt,
        alloc,
        gate,
        workers,
        domains,
        roster.own(),
        whole.steps(),
    )?;
    all_numbers_fit(taken.book.steps.as_slice());
    text_of(alloc, roster, &taken)
}

/// How the scenario of the source ends, and what is written then.
fn answer<R: Threads + Wait + Sync, S: Source, G: Gate + Sync>(
    rt: &R,
    alloc: Global,
    gate: &G,
    workers: usize,
    source: &mut S,
) -> Result<(Last, String), Stop>
    requires { (0 < workers) × (workers ≤ most_workers) }
    ensures yields { YieldsLive (S.left source.old) (S.left source.new) result }
    ensures cause { StopsBy (S.faults source.old) (S.faults source.new) result }
{
    let whole = read_live(alloc, source)?;
    let last = whole.close();
    match last {
        Last::Ended => Ok((last, live_text(rt, alloc, gate, workers, &whole)?)),
        Last::Bad(line, why) => Ok((last, bad_text(alloc, line, why)?)),
    }
}

/// `live`: everything that is written stands in memory before the first write.
pub(crate) fn live<R: Threads + Wait + Sync, S: Source, K: Sink, G: Gate + Sync>(
    rt: &R,
    alloc: Global,
    gate: &G,
    workers: usize,
    source: &mut S,
    sink: &mut K,
) -> Status
    requires { (0 < workers) × (workers ≤ most_workers) }
    ensures outcome { EndsIn (live_ways (Rose (S.faults source.old) (S.faults source.new))) result
        (call_of (S.left source.old) (S.left source.new) (K.taken sink.old) (K.taken sink.new)) }
    ensures cause { Caused result (S.faults source.old) (S.faults source.new) (K.faults sink.old) (K.faults sink.new) }
{
    match answer(rt, alloc, gate, workers, source) {
        Ok((last, text)) => put_last(sink, text.as_bytes(), status_of(last)),
        Err(stop) => put_last(sink, stop.line(), stop.status()),
    }
}
