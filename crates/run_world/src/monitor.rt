//! The messages of the address changes of a run, as it goes on.
ghost use Rattle.std.specs.Prelude.{◌≡◌, ◌++◌, [], true, false, OnOk, None, Some, string_bytes};
ghost use Rattle.std.specs.List.{flat_map};
ghost use Rattle.br_model.specs.declared.steps.Step.TheVariants.{Turn};
ghost use Rattle.br_model.specs.Plane.Traits.{traits};
ghost use Rattle.br_model.specs.Table.Domains.{chip_domains};
ghost use Rattle.br_model.specs.Text.LineForms.{comes_by_line};
ghost use Rattle.neigh_netlink.specs.Monitor.{message_line, messages_in};
ghost use Rattle.neigh_netlink.specs.Stream.{kept_of};
ghost use Rattle.plane_parts.specs.Added.{Added};
ghost use Rattle.run_world.specs.Worlds.{Tells};

use crate::NoMemory;
use crate::world::World;
use br_model::domains::Domains;
use br_model::numbers::Dom;
use br_model::steps::Step;
use neigh_netlink::{Neigh, Stream, append_line};
use std::alloc::Global;
use std::mem;
use std::sync::Wait;
use transcript_lines::Lines;

/// Says the messages of a run.
#[derive(Drop)]
pub struct Monitor {
    // From the first step on.
    stream: Option<Stream>,
    // Those of the last step, in the memory of those before.
    messages: Vec<Neigh>,
    // Their lines.
    text: String,
}

/// The domain whose chip's turn the step is, if it is a turn.
fn turn_of(step: &Step) -> Option<Dom>
    ensures { result ≡ (traits step.now).turn }
{
    match step {
        Step::Turn(dom) => Some(*dom),
        _ => None,
    }
}

/// The domain's chip takes its turn. The message is put behind, if there is one.
fn turn<R: Wait>(
    rt: &R,
    alloc: Global,
    stream: &Stream,
    world: &mut World,
    dom: Dom,
    lines: &mut Lines,
    messages: &mut Vec<Neigh>,
) -> Result<(), NoMemory>
    requires by_line { comes_by_line false (chip_domains world.old.setup.domains) (Turn dom) ≡ true }
    requires kept { stream.now ≡ kept_of world.old.setup.domains world.old.history }
    ensures tells { OnOk result (Added (Tells world.old (Turn dom) world.new) lines.old.lines lines.new.lines) }
    ensures kept { OnOk result (stream.now ≡ kept_of world.new.setup.domains world.new.history) }
    ensures messages { OnOk result (messages.new.items ≡ messages.old.items ++ messages_in world.old (Turn dom)) }
{
    let message = stream.turn(dom, world.next_update(dom));
    world.step(rt, alloc, Step::Turn(dom), lines)?;
    if let Some(message) = message {
        messages.push(message)?;
    }
    Ok(())
}

/// Does another step. The messages of the changes that it accepts are put behind.
fn accept<R: Wait>(
    rt: &R,
    alloc: Global,
    stream: &mut Stream,
    world: &mut World,
    step: Step,
    lines: &mut Lines,
    messages: &mut Vec<Neigh>,
) -> Result<(), NoMemory>
    requires by_line { comes_by_line false (chip_domains world.old.setup.domains) step ≡ true }
    requires other { (traits step).turn ≡ None }
    requires kept { stream.old ≡ kept_of world.old.setup.domains world.old.history }
    ensures tells { OnOk result (Added (Tells world.old step world.new) lines.old.lines lines.new.lines) }
    ensures kept { OnOk result (stream.new ≡ kept_of world.new.setup.domains world.new.history) }
    ensures messages { OnOk result (messages.new.items ≡ messages.old.items ++ messages_in world.old step) }
{
    let from = world.history().len();
    world.step(rt, alloc, step, lines)?;
    stream.follow(world.history(), from, messages)
}

/// Does a step. Its messages are put behind.
fn follow<R: Wait>(
    rt: &R,
    alloc: Global,
    stream: &mut Stream,
    world: &mut World,
    step: Step,
    lines: &mut Lines,
    messages: &mut Vec<Neigh>,
) -> Result<(), NoMemory>
    requires by_line { comes_by_line false (chip_domains world.old.setup.domains) step ≡ true }
    requires kept { stream.old ≡ kept_of world.old.setup.domains world.old.history }
    ensures tells { OnOk result (Added (Tells world.old step world.new) lines.old.lines lines.new.lines) }
    ensures kept { OnOk result (stream.new ≡ kept_of world.new.setup.domains world.new.history) }
    ensures messages { OnOk result (messages.new.items ≡ messages.old.items ++ messages_in world.old step) }
{
    match turn_of(&step) {
        Some(dom) => turn(rt, alloc, stream, world, dom, lines, messages),
        None => accept(rt, alloc, stream, world, step, lines, messages),
    }
}

/// Writes the lines of the messages behind the text.
fn append_lines(messages: &[Neigh], text: &mut String) -> Result<(), NoMemory>
    ensures { OnOk result (string_bytes text.new ≡ string_bytes text.old ++ flat_map message_line messages.now) }
{
    for message in messages {
        append_line(message, text)?;
    }
    Ok(())
}

impl Monitor {
    /// It has said nothing.
    pub fn new(alloc: Global) -> Monitor
        ensures { string_bytes result.text ≡ [] }
    {
        Monitor {
            stream: None,
            messages: Vec::new(alloc),
            text: String::new(alloc),
        }
    }

    /// Before the first step of a run of a bridge with these domains.
    pub(crate) fn begin(&mut self, alloc: Global, domains: Domains) -> Result<(), NoMemory>
        ensures stream { OnOk result (self.new.stream ≡ Some (kept_of domains [])) }
        ensures text { OnOk result (string_bytes self.new.text ≡ string_bytes self.old.text) }
    {
        self.stream = Some(Stream::make(alloc, domains)?);
        Ok(())
    }

    /// Does a step in the world whose changes are followed. Its lines are added.
    #[inline(never)]
    pub(crate) fn step<R: Wait>(
        &mut self,
        rt: &R,
        alloc: Global,
        world: &mut World,
        step: Step,
        lines: &mut Lines,
    ) -> Result<(), NoMemory>
        requires by_line { comes_by_line false (chip_domains world.old.setup.domains) step ≡ true }
        requires stream { self.old.stream ≡ Some (kept_of world.old.setup.domains world.old.history) }
        ensures tells { OnOk result (Added (Tells world.old step world.new) lines.old.lines lines.new.lines) }
        ensures stream { OnOk result (self.new.stream ≡ Some (kept_of world.new.setup.domains world.new.history)) }
        ensures text { OnOk result (string_bytes self.new.text ≡ string_bytes self.old.text ++ flat_map message_line (messages_in world.old step)) }
    {
        let Some(stream) = &mut self.stream else {
            unreachable!();
        };
        let messages = &mut self.messages;
        messages.clear();
        follow(rt, alloc, stream, world, step, lines, messages)?;
        append_lines(messages, &mut self.text)
    }

    /// Gives the text away.
    pub(crate) fn take_text(&mut self, alloc: Global) -> String
        ensures { string_bytes result ≡ string_bytes self.old.text }
    {
        mem::replace(&mut self.text, String::new(alloc))
    }
}
