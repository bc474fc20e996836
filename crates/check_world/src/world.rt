//! The world of a bridge with chips, without the chips.
ghost use Rattle.std.specs.Prelude.{◌≡◌, ◌==◌, ◌+◌, ◌<◌, ◌≤◌, ◌^◌, IfOk, None, Ok, OnOk, Some, is_some, length, slice_get, true};
ghost use Rattle.std.specs.List.{find};
ghost use Rattle.std.specs.List.Sorted.{IsStrictlySortedBy};
ghost use Rattle.std.specs.Option.{option_map};
ghost use Rattle.std.specs.Ordering.{nat_cmp};
ghost use Rattle.br_model.specs.Plane.Chip.{Chip as ChipValue};
ghost use Rattle.br_model.specs.Plane.Entering.{chip_of};
ghost use Rattle.br_model.specs.Plane.Runs.{end_line};
ghost use Rattle.br_model.specs.Plane.Serving.{held_with};
ghost use Rattle.br_model.specs.Plane.World.{chip_at, first_world};
ghost use Rattle.br_model.specs.Table.Change.{updates};
ghost use Rattle.br_model.specs.Table.Domains.{Domains as DomainsValue, chip_domains, domain_of};
ghost use Rattle.br_model.specs.Table.Limits.{AreWithin};
ghost use Rattle.br_model.specs.Text.LineForms.{comes_by_line};
ghost use Rattle.br_model.specs.Theorems.Invariants.{IsWorld};
ghost use Rattle.br_model.specs.Wire.Frames.{frame as frame_of};
ghost use Rattle.br_model.specs.Wire.Messages.{message as message_of};
ghost use Rattle.br_model.specs.declared.steps.Step.TheVariants.{Cmd, Hold, Now, Post, Publish, Report, Rx, Serve, Sweep, Turn};
ghost use Rattle.br_model.specs.declared.transcript.Line.TheVariants as line;
ghost use Rattle.plane_parts.specs.Added.{Added};
ghost use Rattle.plane_parts.specs.Arrivals.{IsArrival};
ghost use Rattle.transcript_lines.specs.Rows.{IsPlain};
ghost use Rattle.check_world.specs.Worlds.{IsOnChip, PostsHeld, Tells, arrival_by, point_of};

use crate::NoMemory;
use crate::sides::Sides;
use br_model::bytes::Bytes;
use br_model::change::{Change, Update};
use br_model::domains::Domains;
use br_model::frame::{Class, Head, McastMsg};
use br_model::numbers::{Dom, Mac, Port};
use br_model::steps::{Command, Event, Refusal, Step};
use br_model::transcript::Line;
use ether_frames::parse;
use hwdom_marks::Mark;
use igmp_mld::classify;
use plane_parts::{Arrival, Egress, Frames, make_room, send};
use std::alloc::{AllocError, Global};
use std::marker::Model;
use transcript_lines::Lines;

/// A bridge with its chips, as their cuts tell them, the frames on their way to software, and how many steps there were.
#[derive(Drop)]
pub struct World {
    sides: Sides,
    frames: Frames,
    steps: u32,
}

impl Model for World {
    ghost use Rattle.br_model.specs.Plane.World.{World as WorldOf};
    ghost use Rattle.check_world.specs.Sides.{world_of};

    ghost Value = { WorldOf };

    ghost view = { λ w. world_of w.sides w.frames w.steps };
}

/// The number after this one. Past the last one there is no memory for it.
fn next(number: u32) -> Result<u32, NoMemory>
    ensures { IfOk result (λ n. n ≡ number + 1) }
{
    number.checked_add(1).ok_or(AllocError)
}

/// What becomes of a frame that the chip of the domain has decided so.
fn arrival(
    frames: &Frames,
    class: Class,
    d: Dom,
    port: Port,
    bytes: Bytes,
    head: &Head,
    message: &McastMsg,
) -> Arrival
    requires frame { frame_of bytes ≡ Ok head.now }
    requires message { message.now ≡ message_of bytes head.now }
    ensures value { (domains : DomainsValue) → domain_of domains port ≡ Some d → result ≡ arrival_by class domains frames.now port bytes head.now }
    ensures room { IsArrival frames.now result }
{
    match class {
        Class::Drop => Arrival::PassesBy,
        Class::Trap => frames.arrive(port, bytes, head, message, None),
        Class::Copy => {
            let mark = Some(Mark { dom: d });
            frames.arrive(port, bytes, head, message, mark)
        }
        Class::Forward => Arrival::PassesBy,
    }
}

/// Sends the held frame with this id by the table of the point. The lines of the step are added.
fn post_held(
    alloc: Global,
    sides: &mut Sides,
    frames: &mut Frames,
    step: u32,
    id: u32,
    point: u32,
    lines: &mut Lines,
) -> Result<(), NoMemory>
    requires there { is_some (find (λ h. h.waiting.id == id) frames.old.held) ≡ true }
    requires point { point ≤ length sides.old.history }
    ensures { OnOk result (Added (PostsHeld sides.old frames.old step id point sides.new frames.new) lines.old.lines lines.new.lines) }
{
    let Some(holding) = frames.release(id) else {
        unreachable!();
    };
    sides.post(alloc, step, holding.frame(), point, lines)
}

// After want of memory a world isn't used again.
impl World {
    /// That of a bridge in which nothing has happened.
    pub fn make(alloc: Global, domains: Domains, own: Mac) -> Result<World, NoMemory>
        ensures { IfOk result (λ w. w ≡ first_world (record { domains = domains; own = own })) }
    {
        Ok(World {
            sides: Sides::make(alloc, domains, own)?,
            frames: Frames::make(alloc)?,
            steps: 0,
        })
    }

    /// The domain of the port, where it has a chip.
    fn chip_of(&self, port: Port) -> Option<Dom>
        ensures { IsOnChip self.now port result }
    {
        match self.sides.domains().of(port) {
            Some(d) if self.sides.has_chip(d) => Some(d),
            _ => None,
        }
    }

    /// A frame enters at a port of software.
    fn enter_software(
        &mut self,
        step: u32,
        port: Port,
        bytes: Bytes,
        head: &Head,
        lines: &mut Lines,
    ) -> Result<(), NoMemory>
        requires step { step ≡ self.old.steps + 1 }
        requires last { self.old.next + 1 < 2 ^ 32 }
        requires frame { frame_of bytes ≡ Ok head.now }
        requires off_chip { chip_of self.old (domain_of self.old.setup.domains port) ≡ None }
        ensures { OnOk result (Added (Tells self.old (Rx port bytes) self.new) lines.old.lines lines.new.lines) }
    {
        lines.reserve(1, 0)?;
        let id = self.frames.next_id();
        let message = classify(bytes.as_slice(), head);
        let arrival = self.frames.arrive(port, bytes, head, &message, None);
        arrival.tell(id, lines);
        self.frames.settle(arrival);
        self.steps = step;
        Ok(())
    }

    /// A frame enters at a port of the domain, which has a chip.
    fn enter_chip(
        &mut self,
        step: u32,
        d: Dom,
        port: Port,
        b: Bytes,
        head: &Head,
        lines: &mut Lines,
    ) -> Result<(), NoMemory>
        requires step { step ≡ self.old.steps + 1 }
        requires last { self.old.next + 1 < 2 ^ 32 }
        requires frame { frame_of b ≡ Ok head.now }
        requires port { domain_of self.old.setup.domains port ≡ Some d }
        requires chip { is_some (chip_at self.old d) ≡ true }
        ensures { OnOk result (Added (Tells self.old (Rx port b) self.new) lines.old.lines lines.new.lines) }
    {
        let id = self.frames.next_id();
        let bytes = b.as_slice();
        let message = classify(bytes, head);
        let verdict = self.sides.decide(d, port, head, &message);
        let class = verdict.class;
        let out = Egress::of_share(&verdict, d, self.sides.domains());
        let decision = self.chip_line(id, d, class);
        make_room(lines, bytes)?;
        self.sides.note(d, port, head)?;
        lines.push_reserved(decision);
        send(id, bytes, head, &out, lines);
        let arrival = arrival(&self.frames, class, d, port, b, head, &message);
        arrival.tell(id, lines);
        self.frames.settle(arrival);
        self.steps = step;
        Ok(())
    }

    fn chip_line(&self, id: u32, d: Dom, class: Class) -> Line
        requires { is_some (chip_at self.now d) ≡ true }
        ensures line { (c : ChipValue) → chip_at self.now d ≡ Some c → result ≡ line.Chip id (length self.now.history) c.count class }
        ensures plain { IsPlain result }
    {
        Line::Chip {
            id,
            changes: self.sides.changes(),
            applied: self.sides.applied(d),
            class,
        }
    }

    /// A frame of these bytes enters at the port. The lines of the step are added.
    fn enter(&mut self, port: Port, bytes: Bytes, lines: &mut Lines) -> Result<(), NoMemory>
        ensures { OnOk result (Added (Tells self.old (Rx port bytes) self.new) lines.old.lines lines.new.lines) }
    {
        let step = next(self.steps)?;
        let id = self.frames.next_id();
        next(id)?;
        match parse(bytes.as_slice()) {
            Err(why) => {
                lines.push(Line::Unread { id, why })?;
                self.frames.settle(Arrival::PassesBy);
                self.steps = step;
                Ok(())
            }
            Ok(head) => match self.chip_of(port) {
                Some(d) => self.enter_chip(step, d, port, bytes, &head, lines),
                None => self.enter_software(step, port, bytes, &head, lines),
            },
        }
    }

    /// A command is given. The lines of the step are added.
    fn command(
        &mut self,
        alloc: Global,
        command: Command,
        lines: &mut Lines,
    ) -> Result<(), NoMemory>
        ensures { OnOk result (Added (Tells self.old (Cmd command) self.new) lines.old.lines lines.new.lines) }
    {
        let step = next(self.steps)?;
        self.sides.answer(alloc, step, &Event::Cmd(command), lines)?;
        self.steps = step;
        Ok(())
    }

    /// The moment comes. The lines of the step are added.
    fn moment(&mut self, alloc: Global, moment: u64, lines: &mut Lines) -> Result<(), NoMemory>
        requires { moment < 2 ^ 53 }
        ensures { OnOk result (Added (Tells self.old (Now moment) self.new) lines.old.lines lines.new.lines) }
    {
        let step = next(self.steps)?;
        self.sides
            .answer(alloc, step, &Event::Moment(moment), lines)?;
        self.steps = step;
        Ok(())
    }

    /// The oldest frame that waits is sent by what is published. The lines of the step are added.
    fn serve(&mut self, alloc: Global, lines: &mut Lines) -> Result<(), NoMemory>
        requires { IsWorld self.old }
        ensures { OnOk result (Added (Tells self.old Serve self.new) lines.old.lines lines.new.lines) }
    {
        let step = next(self.steps)?;
        let point = self.sides.published();
        let Some(frame) = self.frames.serve() else {
            let refusal = Refusal::NothingWaiting;
            lines.push(Line::Refused { step, refusal })?;
            self.steps = step;
            return Ok(());
        };
        self.sides.post(alloc, step, &frame, point, lines)?;
        self.steps = step;
        Ok(())
    }

    /// The oldest frame that waits is held. The line of the step is added.
    fn hold(&mut self, lines: &mut Lines) -> Result<(), NoMemory>
        ensures { OnOk result (Added (Tells self.old Hold self.new) lines.old.lines lines.new.lines) }
    {
        let step = next(self.steps)?;
        let floor = self.sides.published();
        lines.push(self.frames.hold_line(step, floor))?;
        self.frames.hold(floor)?;
        self.steps = step;
        Ok(())
    }

    /// The point by which the held frame with this id is posted, or why it isn't.
    fn point_of(&self, id: u32, named: Option<u32>) -> Result<u32, Refusal>
        requires { IsStrictlySortedBy nat_cmp self.now.counts }
        ensures { result ≡ point_of self.now (held_with self.now id) named }
    {
        let Some(holding) = self.frames.find(id) else {
            return Err(Refusal::NothingToPost);
        };
        let floor = holding.floor();
        match named {
            None => Ok(floor),
            Some(point) if self.sides.was_published(point) && floor <= point => Ok(point),
            Some(_) => Err(Refusal::NoSuchPoint),
        }
    }

    /// The held frame with this id is decided by its floor, or by the point that is named, and sent. The lines of the step are added.
    fn post(
        &mut self,
        alloc: Global,
        id: u32,
        named: Option<u32>,
        lines: &mut Lines,
    ) -> Result<(), NoMemory>
        requires { IsWorld self.old }
        ensures { OnOk result (Added (Tells self.old (Post id named) self.new) lines.old.lines lines.new.lines) }
    {
        let step = next(self.steps)?;
        match self.point_of(id, named) {
            Ok(point) => {
                let (sides, frames) = (&mut self.sides, &mut self.frames);
                post_held(alloc, sides, frames, step, id, point, lines)?;
            }
            Err(refusal) => lines.push(Line::Refused { step, refusal })?,
        }
        self.steps = step;
        Ok(())
    }

    /// The chip of the domain applies the next deferred change. The line of the step is added.
    fn turn(&mut self, d: Dom, lines: &mut Lines) -> Result<(), NoMemory>
        requires { is_some (chip_at self.old d) ≡ true }
        ensures { OnOk result (Added (Tells self.old (Turn d) self.new) lines.old.lines lines.new.lines) }
    {
        let step = next(self.steps)?;
        self.sides.turn(step, d, lines)?;
        self.steps = step;
        Ok(())
    }

    /// The bridge is told the oldest report of the domain's chip. The lines of the step are added.
    fn report(&mut self, alloc: Global, d: Dom, lines: &mut Lines) -> Result<(), NoMemory>
        requires { is_some (chip_at self.old d) ≡ true }
        ensures { OnOk result (Added (Tells self.old (Report d) self.new) lines.old.lines lines.new.lines) }
    {
        let step = next(self.steps)?;
        self.sides.report(alloc, step, d, lines)?;
        self.steps = step;
        Ok(())
    }

    /// The bridge forgets the stations that the domain's chip no longer sees. The lines of the step are added.
    fn sweep(&mut self, alloc: Global, d: Dom, lines: &mut Lines) -> Result<(), NoMemory>
        requires { is_some (chip_at self.old d) ≡ true }
        ensures { OnOk result (Added (Tells self.old (Sweep d) self.new) lines.old.lines lines.new.lines) }
    {
        let step = next(self.steps)?;
        self.sides.sweep(alloc, step, d, lines)?;
        self.steps = step;
        Ok(())
    }

    /// All accepted changes are published. The line of the step is added.
    fn publish(&mut self, lines: &mut Lines) -> Result<(), NoMemory>
        ensures { OnOk result (Added (Tells self.old Publish self.new) lines.old.lines lines.new.lines) }
    {
        let step = next(self.steps)?;
        self.sides.publish()?;
        lines.push(Line::Done { step, changes: 0 })?;
        self.steps = step;
        Ok(())
    }

    /// Does a step that a line of a check can give. The lines of the step are added.
    #[tactic(auto, using(crate::proofs::Worlds::chip_there))]
    pub fn step(&mut self, alloc: Global, step: Step, lines: &mut Lines) -> Result<(), NoMemory>
        requires world { IsWorld self.old }
        requires by_line { comes_by_line true (chip_domains self.old.setup.domains) step ≡ true }
        ensures { OnOk result (Added (Tells self.old step self.new) lines.old.lines lines.new.lines) }
    {
        match step {
            Step::Rx { port, bytes } => self.enter(port, bytes, lines),
            Step::Cmd(command) => self.command(alloc, command, lines),
            Step::Now(moment) => self.moment(alloc, moment, lines),
            Step::Serve => self.serve(alloc, lines),
            Step::Hold => self.hold(lines),
            Step::Post { id, point } => self.post(alloc, id, point, lines),
            Step::Turn(dom) => self.turn(dom, lines),
            Step::Report(dom) => self.report(alloc, dom, lines),
            Step::Sweep(dom) => self.sweep(alloc, dom, lines),
            Step::Publish => self.publish(lines),
        }
    }

    /// The declared ports with their domains.
    pub fn domains(&self) -> &Domains
        ensures { result.now ≡ self.now.setup.domains }
    {
        self.sides.domains()
    }

    /// The accepted changes, the oldest first.
    pub fn history(&self) -> &[Change]
        ensures value { result.now ≡ self.now.history }
        ensures within { AreWithin result.now }
    {
        self.sides.history()
    }

    /// How many of them are published.
    pub fn published(&self) -> u32
        ensures { result ≡ self.now.published }
    {
        self.sides.published()
    }

    /// How many deferred changes the chip of the domain has applied; none where it has no chip.
    pub fn applied(&self, dom: Dom) -> Option<u32>
        ensures { result ≡ option_map (λ c. c.count) (chip_at self.now dom) }
    {
        if self.sides.has_chip(dom) {
            Some(self.sides.applied(dom))
        } else {
            None
        }
    }

    /// The deferred change that the chip of the domain applies next, if one is pending.
    pub fn next_update(&self, dom: Dom) -> Option<Update>
        requires { is_some (chip_at self.now dom) ≡ true }
        ensures { (c : ChipValue) → chip_at self.now dom ≡ Some c
            → result ≡ slice_get (updates self.now.setup.domains.edition self.now.history) c.count }
    {
        self.sides.next_update(dom)
    }

    /// The last line of a run that ends here.
    pub fn end_line(&self) -> Line
        requires { IsWorld self.now }
        ensures { result ≡ end_line self.now }
    {
        Line::End {
            steps: self.steps,
            changes: self.sides.changes(),
            pending: self.sides.pending(),
            waiting: (self.frames.waiting() + self.frames.held()) as u32,
        }
    }
}
