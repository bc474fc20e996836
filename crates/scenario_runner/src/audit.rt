//! `audit`: what the chips have at the end of a run, beside what the bridge has.
ghost use Rattle.std.specs.Prelude.{◌≡◌, ◌++◌, None, IfOk, OnOk, false, string_bytes};
ghost use Rattle.br_model.specs.Text.Scenario.{opened};
ghost use Rattle.run_io.specs.Causes.{Rose};
ghost use Rattle.chip_audit.specs.Lines.{audited, audited_text, world_lines};
ghost use Rattle.run_status.specs.Stopping.{Caused as StopsBy};
ghost use Rattle.scenario_runner.specs.Halting.{Yields};
ghost use Rattle.run_status.specs.Statuses.{Caused, EndsIn, call_of, scenario_ways};
ghost use Rattle.scenario_runner.specs.Session.{Follows, world_of};

use crate::commands::status_of;
use crate::replay::{Halt, play};
use crate::session::Session;
use br_model::NoMemory;
use bridge_command::Roster;
use chip_audit::append_audit;
use run_io::output::Output;
use run_io::sinks::{Nowhere, Sink};
use run_io::sources::Source;
use run_status::{Status, Stop, put_last};
use run_world::World;
use run_world::voice::Voice;
use scenario_reader::Last;
use std::alloc::Global;
use std::sync::Wait;

/// Appends the audit of a run without steps, by a new world. A world is large, so its making has a function of its own: each call
/// pays for the room of its locals.
#[inline(never)]
fn append_first<R: Wait>(
    rt: &R,
    alloc: Global,
    roster: &Roster,
    to: &mut String,
) -> Result<(), NoMemory>
    ensures { OnOk result (string_bytes to.new ≡ string_bytes to.old ++ world_lines roster.now.ports (world_of roster.now None)) }
{
    let world = World::make(rt, alloc, roster.domains(), roster.own())?;
    let appended = append_audit(alloc, world.plane(), roster, to);
    world.end(rt);
    appended
}

/// Appends the audit of this world, or of that of a run without steps.
fn append_chips<R: Wait>(
    rt: &R,
    alloc: Global,
    roster: &Roster,
    world: &Option<World>,
    to: &mut String,
) -> Result<(), NoMemory>
    ensures { OnOk result (string_bytes to.new ≡ string_bytes to.old ++ world_lines roster.now.ports (world_of roster.now world.now)) }
{
    match world {
        Some(world) => append_audit(alloc, world.plane(), roster, to),
        None => append_first(rt, alloc, roster, to),
    }
}

/// The same, with its last line.
pub(crate) fn audit_text<R: Wait>(
    rt: &R,
    alloc: Global,
    roster: &Roster,
    world: &Option<World>,
) -> Result<String, NoMemory>
    ensures { IfOk result (λ text. string_bytes text ≡ audited_text roster.now.ports (world_of roster.now world.now)) }
{
    let mut text = String::new(alloc);
    append_chips(rt, alloc, roster, world, &mut text)?;
    text.push_str("end\n")?;
    Ok(text)
}

/// Runs a scenario in this new session, as a replay over a sink that keeps nothing, and answers how it ends, with the audit of its
/// chips or with the bad line.
fn audit_in<R: Wait, S: Source>(
    rt: &R,
    alloc: Global,
    session: &mut Session,
    source: &mut S,
) -> Result<(Last, String), Stop>
    requires follows { Follows (opened false) session.old }
    requires lines { session.old.reader.lines ≡ 0 }
    ensures audits { Yields audited (S.left source.old) (S.left source.new) result }
    ensures cause { StopsBy (S.faults source.old) (S.faults source.new) result }
{
    let mut output = Output::make(alloc)?;
    match play(rt, alloc, session, source, &mut Nowhere, &mut output) {
        Ok(last) => Ok((last, session.audit(rt, alloc, last)?)),
        Err(Halt::Stopped(stop)) => Err(stop),
        Err(Halt::WriteFault) => unreachable!(),
    }
}

/// The same in a session of its own.
fn audit_of<R: Wait, S: Source>(
    rt: &R,
    alloc: Global,
    source: &mut S,
) -> Result<(Last, String), Stop>
    ensures audits { Yields audited (S.left source.old) (S.left source.new) result }
    ensures cause { StopsBy (S.faults source.old) (S.faults source.new) result }
{
    let mut session = Session::new(alloc, Voice::Silent)?;
    let audit = audit_in(rt, alloc, &mut session, source);
    session.finish(rt);
    audit
}

/// `audit`: the audit is written when the scenario has ended.
pub fn audit<R: Wait, S: Source, K: Sink>(
    rt: &R,
    alloc: Global,
    source: &mut S,
    sink: &mut K,
) -> Status
    ensures outcome { EndsIn (scenario_ways (Rose (S.faults source.old) (S.faults source.new)) audited) result
        (call_of (S.left source.old) (S.left source.new) (K.taken sink.old) (K.taken sink.new)) }
    ensures cause { Caused result (S.faults source.old) (S.faults source.new) (K.faults sink.old) (K.faults sink.new) }
{
    match audit_of(rt, alloc, source) {
        Ok((last, text)) => put_last(sink, text.as_bytes(), status_of(last)),
        Err(stop) => put_last(sink, stop.line(), stop.status()),
    }
}
