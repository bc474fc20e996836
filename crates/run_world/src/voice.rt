//! What is made of the steps of a run besides its transcript.
ghost use Rattle.std.specs.Prelude.{◌≡◌, [], true, false, OnOk, Some, string_bytes};
ghost use Rattle.br_model.specs.Plane.World.{first_world};
ghost use Rattle.br_model.specs.Table.Domains.{chip_domains};
ghost use Rattle.br_model.specs.Text.LineForms.{comes_by_line};
ghost use Rattle.plane_parts.specs.Added.{Added};
ghost use Rattle.run_world.specs.Worlds.{Tells};
ghost use Rattle.run_world.specs.Voices.{BeginsBy, IsTuned, SaysBy, lines_of, said_by};

use crate::NoMemory;
use crate::asking::Asking;
use crate::monitor::Monitor;
use crate::world::World;
use br_model::domains::Domains;
use br_model::numbers::Mac;
use br_model::steps::Step;
use std::alloc::Global;
use std::sync::Wait;
use transcript_lines::Lines;

/// Who says something of a run, step by step. The text is held until the run is over.
#[derive(Drop)]
pub enum Voice {
    /// Nothing is said.
    Silent,
    /// The messages of its address changes.
    Monitor(Monitor),
    /// The general queries of a querier on the host.
    Querier(Asking),
}

/// Before the first step of a run of a bridge with these domains and this address.
pub fn begin(alloc: Global, voice: &mut Voice, domains: Domains, own: Mac) -> Result<(), NoMemory>
    ensures tuned { OnOk result (IsTuned (Some (first_world (record { domains = domains; own = own }))) voice.new) }
    ensures says { OnOk result (BeginsBy voice.old (record { domains = domains; own = own }) voice.new) }
    ensures same { OnOk result (lines_of voice.new ≡ lines_of voice.old) }
{
    match voice {
        Voice::Silent => Ok(()),
        Voice::Monitor(monitor) => monitor.begin(alloc, domains),
        Voice::Querier(asking) => {
            asking.begin(alloc, own);
            Ok(())
        }
    }
}

/// Does a step, and says what is to be said of it. Its lines are added. After want of memory neither is used again.
#[inline(always)]
pub fn do_step<R: Wait>(
    rt: &R,
    alloc: Global,
    voice: &mut Voice,
    world: &mut World,
    step: Step,
    lines: &mut Lines,
) -> Result<(), NoMemory>
    requires by_line { comes_by_line false (chip_domains world.old.setup.domains) step ≡ true }
    requires empty { lines.old.lines ≡ [] }
    requires tuned { IsTuned (Some world.old) voice.old }
    ensures tells { OnOk result (Added (Tells world.old step world.new) lines.old.lines lines.new.lines) }
    ensures tuned { OnOk result (IsTuned (Some world.new) voice.new) }
    ensures says { OnOk result (SaysBy voice.old world.old step voice.new) }
    ensures same { OnOk result (lines_of voice.new ≡ lines_of voice.old) }
{
    match voice {
        Voice::Silent => world.step(rt, alloc, step, lines),
        Voice::Monitor(monitor) => monitor.step(rt, alloc, world, step, lines),
        Voice::Querier(asking) => asking.step(rt, alloc, world, step, lines),
    }
}

/// Gives all that was said away.
pub fn take_text(alloc: Global, voice: &mut Voice) -> String
    ensures { string_bytes result ≡ said_by voice.old }
{
    match voice {
        Voice::Silent => String::new(alloc),
        Voice::Monitor(monitor) => monitor.take_text(alloc),
        Voice::Querier(asking) => asking.take_text(alloc),
    }
}
