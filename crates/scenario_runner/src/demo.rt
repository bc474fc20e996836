//! The run of a generated scenario, of which lines are counted alone.
ghost use Rattle.std.specs.Prelude.{◌≡◌, ◌+◌, ◌≤◌, ◌∷◌, ◌++◌, [], true, false, IfOk, OnOk, codes, decimal, string_bytes};
ghost use Rattle.std.specs.List.{list_all};
ghost use Rattle.br_model.specs.Program.Generator.{made_scenario, most_frames, ports as made_ports};
ghost use Rattle.br_model.specs.Program.Runs.{setup_of};
ghost use Rattle.br_model.specs.Text.Roster.{chips_of};
ghost use Rattle.br_model.specs.Program.Summary.{summary as summary_of};
ghost use Rattle.br_model.specs.Plane.World.{first_world};
ghost use Rattle.transcript_lines.specs.Rows.{expand_row};
ghost use Rattle.scenario_runner.specs.Counting.{Adds, AddsSent, RunsOn};
ghost use Rattle.br_model.specs.Table.Domains.{chip_domains};
ghost use Rattle.br_model.specs.Text.LineForms.{comes_by_line};
ghost use Rattle.plane_parts.specs.Added.{Added};
ghost use Rattle.scenario_generator.specs.Stepping.{step_of};
ghost use Rattle.run_world.specs.Worlds.{Tells};

use br_model::NoMemory;
use br_model::bytes::Bytes;
use br_model::numbers::Mac;
use br_model::steps::Step;
use br_model::transcript::Line;
use port_sets::Ports;
use run_world::World;
use scenario_generator::{FrameSteps, Made, domains, first_steps};
use std::alloc::{AllocError, Global};
use std::sync::Wait;
use transcript_lines::{Lines, Row};

/// How many lines begin with each of these words.
#[derive(Clone, Copy)]
struct Tally {
    chip: u64,
    soft: u64,
    tx: u64,
    overrun: u64,
}

/// The number after this one. Past the last one it answers want of memory.
fn next(number: u64) -> Result<u64, NoMemory>
    ensures { IfOk result (λ n. n ≡ number + 1) }
{
    number.checked_add(1).ok_or(AllocError)
}

fn append_count(name: &str, n: u64, to: &mut String) -> Result<(), NoMemory>
    ensures { OnOk result (string_bytes to.new ≡ string_bytes to.old ++ (name.now ++ decimal n)) }
{
    write!(to, "{name}{n}")
}

impl Tally {
    const NONE: Tally = Tally {
        chip: 0,
        soft: 0,
        tx: 0,
        overrun: 0,
    };

    fn add(&mut self, line: &Line) -> Result<(), NoMemory>
        ensures { OnOk result (Adds self.old (line.now ∷ []) self.new) }
    {
        match line {
            Line::Chip { .. } => self.chip = next(self.chip)?,
            Line::Soft { .. } => self.soft = next(self.soft)?,
            Line::Tx { .. } => self.tx = next(self.tx)?,
            Line::Overrun { .. } => self.overrun = next(self.overrun)?,
            Line::Unread { .. }
            | Line::Held { .. }
            | Line::Ctl { .. }
            | Line::Done { .. }
            | Line::Refused { .. }
            | Line::End { .. } => {}
        }
        Ok(())
    }

    /// A line for each of the ports by which a frame leaves.
    fn add_sent(&mut self, ports: Ports) -> Result<(), NoMemory>
        ensures { OnOk result (AddsSent self.old ports self.new) }
    {
        'ports: for _ in ports.iter() {
            self.tx = next(self.tx)?;
        }
        Ok(())
    }

    fn add_row(&mut self, row: &Row, arena: &[u8]) -> Result<(), NoMemory>
        ensures { OnOk result (Adds self.old (expand_row arena.now row.now) self.new) }
    {
        match row {
            Row::One(line) => self.add(line),
            Row::Sent { ports, .. } => self.add_sent(*ports),
            Row::Ctl { .. } => Ok(()),
        }
    }

    #[inline(always)]
    fn add_all(&mut self, lines: &Lines) -> Result<(), NoMemory>
        ensures { OnOk result (Adds self.old lines.now.lines self.new) }
    {
        let (rows, arena) = lines.parts();
        for row in rows {
            self.add_row(row, arena)?;
        }
        Ok(())
    }

    /// The line that tells these counts, with its line feed.
    fn line(
        &self,
        alloc: Global,
        frames: u32,
        changes: u32,
        pending: u32,
    ) -> Result<String, NoMemory>
        ensures { IfOk result (λ text. string_bytes text ≡ codes "demo frames " ++ (decimal frames ++ (codes " chip " ++ (decimal self.now.chip
            ++ (codes " soft " ++ (decimal self.now.soft ++ (codes " tx " ++ (decimal self.now.tx ++ (codes " overrun " ++ (decimal self.now.overrun
            ++ (codes " changes " ++ (decimal changes ++ (codes " pending " ++ (decimal pending ++ 10 ∷ [])))))))))))))) }
    {
        let mut text = String::new(alloc);
        append_count("demo frames ", u64::from(frames), &mut text)?;
        append_count(" chip ", self.chip, &mut text)?;
        append_count(" soft ", self.soft, &mut text)?;
        append_count(" tx ", self.tx, &mut text)?;
        append_count(" overrun ", self.overrun, &mut text)?;
        append_count(" changes ", u64::from(changes), &mut text)?;
        append_count(" pending ", u64::from(pending), &mut text)?;
        text.push_str("\n")?;
        Ok(text)
    }
}

/// Does this step. Its lines are added.
#[inline(always)]
fn do_made<R: Wait>(
    rt: &R,
    alloc: Global,
    made: Made,
    world: &mut World,
    lines: &mut Lines,
) -> Result<(), NoMemory>
    requires { comes_by_line false (chip_domains world.old.setup.domains) (step_of made) ≡ true }
    ensures { OnOk result (Added (Tells world.old (step_of made) world.new) lines.old.lines lines.new.lines) }
{
    match made {
        Made::Enters { port, bytes } => {
            let bytes = Bytes::copy_of(alloc, &bytes)?;
            world.enter(port, bytes, lines)
        }
        Made::Follows(step) => world.step(rt, alloc, step, lines),
    }
}

/// Does this step, and counts its lines.
#[inline(always)]
fn do_step<R: Wait>(
    rt: &R,
    alloc: Global,
    made: Made,
    world: &mut World,
    lines: &mut Lines,
    tally: &mut Tally,
) -> Result<(), NoMemory>
    requires { comes_by_line false (chip_domains world.old.setup.domains) (step_of made) ≡ true }
    ensures runs { OnOk result (RunsOn world.old tally.old (step_of made ∷ []) world.new tally.new) }
    ensures setup { OnOk result (world.new.setup ≡ world.old.setup) }
{
    lines.clear();
    do_made(rt, alloc, made, world, lines)?;
    tally.add_all(lines)?;
    Ok(())
}

/// Does these steps, and counts their lines.
fn do_steps<R: Wait>(
    rt: &R,
    alloc: Global,
    steps: Vec<Step>,
    world: &mut World,
    lines: &mut Lines,
    tally: &mut Tally,
) -> Result<(), NoMemory>
    requires { list_all (comes_by_line false (chip_domains world.old.setup.domains)) steps.items ≡ true }
    ensures { OnOk result (RunsOn world.old tally.old steps.items world.new tally.new) }
{
    for step in steps {
        do_step(rt, alloc, Made::Follows(step), world, lines, tally)?;
    }
    Ok(())
}

/// Does all steps that are left of generated frames, and counts their lines.
fn do_frames<R: Wait>(
    rt: &R,
    alloc: Global,
    mut frames: FrameSteps,
    world: &mut World,
    lines: &mut Lines,
    tally: &mut Tally,
) -> Result<(), NoMemory>
    requires { chip_domains world.old.setup.domains ≡ chips_of made_ports }
    ensures { OnOk result (RunsOn world.old tally.old frames world.new tally.new) }
{
    while let Some(made) = frames.next() {
        do_step(rt, alloc, made, world, lines, tally)?;
    }
    Ok(())
}

/// The line that tells the run of so many frames from this state on, in this new world, with its line feed.
fn summary_in<R: Wait>(
    rt: &R,
    alloc: Global,
    world: &mut World,
    number: u64,
    count: u32,
) -> Result<String, NoMemory>
    requires count { count ≤ most_frames }
    requires world { world.old ≡ first_world (setup_of (made_scenario number count).roster) }
    ensures { IfOk result (λ text. string_bytes text ≡ summary_of number count) }
{
    let mut lines = Lines::new(alloc);
    let mut tally = Tally::NONE;
    let first = first_steps(alloc)?;
    do_steps(rt, alloc, first, world, &mut lines, &mut tally)?;
    let frames = FrameSteps::new(number, count);
    do_frames(rt, alloc, frames, world, &mut lines, &mut tally)?;
    tally.line(alloc, count, world.changes(), world.pending())
}

/// The same in a world of its own.
pub(crate) fn summary<R: Wait>(
    rt: &R,
    alloc: Global,
    number: u64,
    count: u32,
) -> Result<String, NoMemory>
    requires { count ≤ most_frames }
    ensures { IfOk result (λ text. string_bytes text ≡ summary_of number count) }
{
    let mut world = World::make(rt, alloc, domains(), Mac::FIRST_OWN)?;
    let text = summary_in(rt, alloc, &mut world, number, count);
    world.end(rt);
    text
}
