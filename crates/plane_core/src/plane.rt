//! The kernel's side of a bridge and its chips together: each call is one step of the world.
ghost use Rattle.std.specs.Prelude.{◌≡◌, ℕ, ◌+◌, ◌<◌, ◌≤◌, ◌^◌, [], length, slice_get, true, None, Ok, Some, is_some, IfOk, IfNone, IfSome, OnErr, OnOk};
ghost use Rattle.std.specs.Option.{option_map};
ghost use Rattle.br_model.specs.declared.transcript.Line.TheVariants as line;
ghost use Rattle.chip_pipeline.specs.Passed.{IsPass};
ghost use Rattle.chip_tables.specs.Stands.{Stands};
ghost use Rattle.table_publish.specs.declared.seat.Seen.{Seen as SeenValue};
ghost use Rattle.br_model.specs.Table.Change.{updates};
ghost use Rattle.br_model.specs.Table.Domains.{domain_of, has_chip};
ghost use Rattle.br_model.specs.Wire.Frames.{frame as frame_of};
ghost use Rattle.br_model.specs.Wire.Messages.{message as message_of};
ghost use Rattle.br_model.specs.Theorems.Invariants.{IsWorld};
ghost use Rattle.br_model.specs.Plane.Chip.{Chip as ChipValue};
ghost use Rattle.br_model.specs.Plane.Entering.{chip_of};
ghost use Rattle.br_model.specs.Plane.Runs.{end_line, pending, pending_of};
ghost use Rattle.br_model.specs.Plane.Serving.{held_with};
ghost use Rattle.br_model.specs.declared.steps.Step.TheVariants.{Rx, Serve, Hold, Post, Publish, Report, Sweep, Turn};
ghost use Rattle.br_model.specs.Plane.Steps.{world_step};
ghost use Rattle.br_model.specs.Plane.World.{Holding as HoldingOf, chip_at, first_world, table_of_chip};
ghost use Rattle.table_publish.specs.Object.{Begins, IsPublished, first_object};
ghost use Rattle.plane_core.specs.Planes.{Accepts, DecidesFloor, DecidesOldest, IsCopy, IsDecidedBy, IsDecision, IsNamed, IsOnChip, NotTurned, Posted, PostedTo, Steps, Turned, TurnedTo, arrival_by, next_ticket, published_in, ticket_of};
ghost use Rattle.plane_parts.specs.Added.{Added, KeepsSaved};
ghost use Rattle.transcript_lines.specs.Rows.{IsPlain};
ghost use Rattle.plane_parts.specs.Arrivals.{IsArrival};
ghost use Rattle.plane_core.specs.Seats.{IsTold, Looks};
ghost use Rattle.plane_core.specs.Shown.{opened, shown_by};
ghost use Rattle.plane_core.specs.Sides.{HasBegun, SidesState, world_of};

use crate::NoMemory;
use crate::faults::{PostFault, TurnFault};
use crate::held::Held;
use crate::sending::egress_of;
use crate::sides::{Begun, Sides, begin};
use br_model::bytes::Bytes;
use br_model::change::{Change, Update};
use br_model::domains::Domains;
use br_model::frame::{Class, Head, McastMsg};
use br_model::numbers::{Dom, Mac, Port};
use br_model::steps::{Event, Refusal};
use br_model::transcript::Line;
use chip_pipeline::Pass;
use chip_tables::Tables;
use ether_frames::parse;
use forward_rules::Verdict;
use hwdom_chips::mark_of;
use igmp_mld::classify;
use learn_report::Report;
use plane_parts::{Arrival, Frames, make_room, send};
use std::alloc::{AllocError, Global};
use std::marker::Model;
use std::sync::Wait;
use table_publish::{Board, Seat, Seats, Seen};
use transcript_lines::Lines;

/// A bridge with its chips and its published tables, the frames on their way to software, and how many steps there were. Each step is
/// counted, a refused one too; where a call answers a fault, there was no step, and the plane is as before. It isn't `Drop`: end it by
/// `end`.
pub struct Plane {
    sides: Sides,
    frames: Frames,
    steps: u32,
}

impl Model for Plane {
    ghost use Rattle.br_model.specs.Theorems.Invariants.{IsWorld};
    ghost use Rattle.plane_core.specs.Planes.{PlaneState};
    ghost use Rattle.plane_core.specs.Sides.{world_of};

    ghost Value = { PlaneState };

    ghost view = { λ p. record { world = world_of p.sides p.frames p.steps; board = p.sides.board } };

    ghost invariant = { λ p. IsWorld (world_of p.sides p.frames p.steps) };
}

/// What a frame's entry comes to: the lines of the step, and the chip's answer, where it decided the frame.
#[derive(Drop)]
pub struct Entered {
    pub lines: Lines,
    pub pass: Option<Pass>,
}

/// The number after this one. Past the last one there is no memory for it.
fn next(number: u32) -> Result<u32, NoMemory>
    ensures { IfOk result (λ n. n ≡ number + 1) }
{
    number.checked_add(1).ok_or(AllocError)
}

fn ticket_of(update: &Option<Update>) -> Option<u32>
    ensures { result ≡ ticket_of update.now }
{
    match update {
        Some(update) => Some(update.ticket),
        None => None,
    }
}

/// What a plane over a board begins with, beside the board.
fn parts(alloc: Global, d: Domains, own: Mac) -> Result<(Begun, Frames), NoMemory>
    ensures begun { IfOk result (λ t. HasBegun (record { domains = d; own = own }) t.0.0 t.0.1 t.0.2) }
    ensures frames { IfOk result (λ t. t.1 ≡ record { waiting = []; held = []; next = 1 }) }
{
    let begun = begin(alloc, d, own)?;
    Ok((begun, Frames::make(alloc)?))
}

/// What becomes of a frame that the chip of the domain has decided so.
fn arrival(
    frames: &Frames,
    class: Class,
    d: Dom,
    p: Port,
    b: Bytes,
    head: &Head,
    message: &McastMsg,
) -> Arrival
    requires frame { frame_of b ≡ Ok head.now }
    requires message { message.now ≡ message_of b head.now }
    ensures value { (s : SidesState) (steps : ℕ) → domain_of s.setup.domains p ≡ Some d
        → result ≡ arrival_by class (world_of s frames.now steps) p b head.now }
    ensures room { IsArrival frames.now result }
{
    match class {
        Class::Drop | Class::Forward => Arrival::PassesBy,
        Class::Trap | Class::Copy => frames.arrive(p, b, head, message, mark_of(class, d)),
    }
}

impl Plane {
    /// A plane over this board, in which nothing has happened. It takes all its room but that of the history, of hits and of frames.
    /// After want of memory the board is ended.
    pub fn make<R: Wait>(
        rt: &R,
        alloc: Global,
        d: Domains,
        own: Mac,
        b: Board,
    ) -> Result<Plane, NoMemory>
        requires domains { b.board.domains ≡ d }
        requires object { b.object ≡ first_object }
        requires pending { b.pending ≡ [] }
        ensures { IfOk result (λ p. p ≡ record { world = first_world (record { domains = d; own = own }); board = b.board }) }
    {
        match parts(alloc, d, own) {
            Ok((begun, frames)) => Ok(Plane {
                sides: Sides::over(begun, b),
                frames,
                steps: 0,
            }),
            Err(error) => {
                b.end(rt);
                Err(error)
            }
        }
    }

    /// A plane in which nothing has happened, and the seats at its board: the board is made, and then the plane over it.
    pub fn with_seats<R: Wait>(
        rt: &R,
        alloc: Global,
        d: Domains,
        own: Mac,
        count: usize,
    ) -> Result<(Plane, Seats), NoMemory>
        requires some { 0 < count }
        requires few { count ≤ 17 }
        ensures plane { IfOk result (λ t. t.0 ≡ record { world = first_world (record { domains = d; own = own }); board = t.1.board }) }
        ensures seats { IfOk result (λ t. t.1.left ≡ count) }
    {
        let (board, seats) = Board::make(rt, alloc, &d, count)?;
        let plane = Plane::make(rt, alloc, d, own, board)?;
        Ok((plane, seats))
    }

    /// Ends the plane and its board.
    pub fn end<R: Wait>(self, rt: &R) {
        let Plane {
            sides,
            frames: _,
            steps: _,
        } = self;
        sides.end(rt);
    }

    /// A frame of these bytes enters at the port. At a port of the chip the chip decides it, by its rows alone.
    pub fn enter(&mut self, alloc: Global, p: Port, b: &[u8]) -> Result<Entered, NoMemory>
        ensures step { IfOk result (λ e. Steps self.old self.new (Rx p b.now) e.lines.lines) }
        ensures pass { IfOk result (λ e. IsDecidedBy self.old.world p b.now (frame_of b.now) e.pass) }
        ensures err { OnErr result (self.new ≡ self.old) }
    {
        let mut lines = Lines::new(alloc);
        let bytes = Bytes::copy_of(alloc, b)?;
        let pass = self.enter_to(p, bytes, &mut lines)?;
        Ok(Entered { lines, pass })
    }

    /// As `enter`, with the lines of the step behind these. Where the frame waits, these bytes wait; nothing is copied.
    #[inline(always)]
    pub fn enter_to(
        &mut self,
        port: Port,
        bytes: Bytes,
        lines: &mut Lines,
    ) -> Result<Option<Pass>, NoMemory>
        ensures step { OnOk result (Added (Steps self.old self.new (Rx port bytes)) lines.old.lines lines.new.lines) }
        ensures pass { IfOk result (IsDecidedBy self.old.world port bytes (frame_of bytes)) }
        ensures err { OnErr result (self.new ≡ self.old) }
        ensures lines { OnErr result (lines.new.lines ≡ lines.old.lines) }
        ensures saved { OnOk result (KeepsSaved lines.old lines.new) }
    {
        let step = next(self.steps)?;
        let id = self.frames.next_id();
        next(id)?;
        match parse(bytes.as_slice()) {
            Err(why) => {
                lines.push(Line::Unread { id, why })?;
                self.frames.settle(Arrival::PassesBy);
                self.steps = step;
                Ok(None)
            }
            Ok(head) => match self.chip_of(port) {
                Some(d) => Ok(Some(self.enter_chip(step, d, port, bytes, &head, lines)?)),
                None => {
                    self.enter_software(step, port, bytes, &head, lines)?;
                    Ok(None)
                }
            },
        }
    }

    /// The domain of the port, where it has a chip.
    fn chip_of(&self, p: Port) -> Option<Dom>
        ensures { IsOnChip self.now.world p result }
    {
        match self.sides.domains().of(p) {
            Some(d) if self.sides.has_chip(d) => Some(d),
            _ => None,
        }
    }

    /// A frame enters at a port of software.
    fn enter_software(
        &mut self,
        step: u32,
        p: Port,
        b: Bytes,
        head: &Head,
        lines: &mut Lines,
    ) -> Result<(), NoMemory>
        requires step { step ≡ self.old.world.steps + 1 }
        requires last { self.old.world.next + 1 < 2 ^ 32 }
        requires frame { frame_of b ≡ Ok head.now }
        requires off_chip { chip_of self.old.world (domain_of self.old.world.setup.domains p) ≡ None }
        ensures step { OnOk result (Added (Steps self.old self.new (Rx p b)) lines.old.lines lines.new.lines) }
        ensures err { OnErr result (self.new ≡ self.old) }
        ensures lines { OnErr result (lines.new.lines ≡ lines.old.lines) }
        ensures saved { lines.new.saved ≡ lines.old.saved }
    {
        lines.reserve(1, 0)?;
        let id = self.frames.next_id();
        let message = classify(b.as_slice(), head);
        let arrival = self.frames.arrive(p, b, head, &message, None);
        arrival.tell(id, lines);
        self.frames.settle(arrival);
        self.steps = step;
        Ok(())
    }

    /// A frame enters at a port of the domain, which has a chip.
    #[inline(always)]
    fn enter_chip(
        &mut self,
        step: u32,
        d: Dom,
        p: Port,
        b: Bytes,
        head: &Head,
        lines: &mut Lines,
    ) -> Result<Pass, NoMemory>
        requires step { step ≡ self.old.world.steps + 1 }
        requires last { self.old.world.next + 1 < 2 ^ 32 }
        requires frame { frame_of b ≡ Ok head.now }
        requires port { domain_of self.old.world.setup.domains p ≡ Some d }
        requires chip { is_some (chip_at self.old.world d) ≡ true }
        ensures step { OnOk result (Added (Steps self.old self.new (Rx p b)) lines.old.lines lines.new.lines) }
        ensures pass { IfOk result (λ pass. (c : ChipValue) → chip_at self.old.world d ≡ Some c
            → IsPass self.old.world.setup.domains (table_of_chip self.old.world c) p head.now (message_of b head.now) pass) }
        ensures err { OnErr result (self.new ≡ self.old) }
        ensures lines { OnErr result (lines.new.lines ≡ lines.old.lines) }
        ensures saved { lines.new.saved ≡ lines.old.saved }
    {
        let id = self.frames.next_id();
        let bytes = b.as_slice();
        let message = classify(bytes, head);
        let pass = self.sides.pass(d, p, head, &message);
        let class = pass.class();
        let decision = self.chip_line(id, d, class);
        make_room(lines, bytes)?;
        self.sides.note(d, p, &pass)?;
        lines.push_reserved(decision);
        send(id, bytes, head, &egress_of(&pass), lines);
        let arrival = arrival(&self.frames, class, d, p, b, head, &message);
        arrival.tell(id, lines);
        self.frames.settle(arrival);
        self.steps = step;
        Ok(pass)
    }

    fn chip_line(&self, id: u32, d: Dom, class: Class) -> Line
        requires { is_some (chip_at self.now.world d) ≡ true }
        ensures line { (c : ChipValue) → chip_at self.now.world d ≡ Some c
            → result ≡ line.Chip id (length self.now.world.history) c.count class }
        ensures plain { IsPlain result }
    {
        Line::Chip {
            id,
            changes: self.sides.history().len() as u32,
            applied: self.sides.applied(d),
            class,
        }
    }

    /// An event that a scenario names, a command or a moment before 2^53.
    pub fn accept(&mut self, alloc: Global, e: &Event) -> Result<Lines, NoMemory>
        requires { IsNamed e.now }
        ensures ok { IfOk result (λ lines. Accepts self.old self.new e.now lines.lines) }
        ensures err { OnErr result (self.new ≡ self.old) }
    {
        let mut lines = Lines::new(alloc);
        self.accept_to(alloc, e, &mut lines)?;
        Ok(lines)
    }

    /// As `accept`, with the lines of the step behind these.
    pub fn accept_to(
        &mut self,
        alloc: Global,
        event: &Event,
        lines: &mut Lines,
    ) -> Result<(), NoMemory>
        requires { IsNamed event.now }
        ensures ok { OnOk result (Added (Accepts self.old self.new event.now) lines.old.lines lines.new.lines) }
        ensures err { OnErr result (self.new ≡ self.old) }
        ensures lines { OnErr result (lines.new.lines ≡ lines.old.lines) }
        ensures saved { OnOk result (KeepsSaved lines.old lines.new) }
    {
        let step = next(self.steps)?;
        self.sides.answer(alloc, step, event, lines)?;
        self.steps = step;
        Ok(())
    }

    /// The chip of the domain applies the next deferred change of the history, which the update names by its ticket.
    pub fn turn(&mut self, alloc: Global, d: Dom, u: Option<Update>) -> Result<Lines, TurnFault>
        requires { has_chip self.old.world.setup.domains d ≡ true }
        ensures { Turned self.old self.new d u result }
    {
        let mut lines = Lines::new(alloc);
        self.turn_to(d, u, &mut lines)?;
        Ok(lines)
    }

    /// As `turn`, with the lines of the step behind these.
    pub fn turn_to(
        &mut self,
        dom: Dom,
        update: Option<Update>,
        lines: &mut Lines,
    ) -> Result<(), TurnFault>
        requires { has_chip self.old.world.setup.domains dom ≡ true }
        ensures turned { TurnedTo self.old self.new dom update lines.old.lines lines.new.lines result }
        ensures saved { OnOk result (KeepsSaved lines.old lines.new) }
    {
        match self.out_of_turn(dom, &update) {
            Some(fault) => Err(fault),
            None => {
                self.turn_next(dom, lines)?;
                Ok(())
            }
        }
    }

    /// Why it isn't the turn of this update, where another one is next.
    fn out_of_turn(&self, d: Dom, u: &Option<Update>) -> Option<TurnFault>
        requires { has_chip self.now.world.setup.domains d ≡ true }
        ensures some { IfSome result (λ fault. NotTurned self.now self.now d u.now fault) }
        ensures none { IfNone result (IfSome (next_ticket self.now.world (chip_at self.now.world d)) (λ ticket. ticket_of u.now ≡ Some ticket)) }
    {
        let Some(next) = self.sides.next_update(d) else {
            return None;
        };
        let got = ticket_of(u);
        if got != Some(next.ticket) {
            return Some(TurnFault::OutOfTurn {
                expected: next.ticket,
                got,
            });
        }
        None
    }

    /// The chip of the domain applies the deferred change that is next there. The lines of the step are added.
    pub fn turn_next(&mut self, dom: Dom, lines: &mut Lines) -> Result<(), NoMemory>
        requires { has_chip self.old.world.setup.domains dom ≡ true }
        ensures ok { OnOk result (Added (Steps self.old self.new (Turn dom)) lines.old.lines lines.new.lines) }
        ensures err { OnErr result (self.new ≡ self.old) }
        ensures lines { OnErr result (lines.new.lines ≡ lines.old.lines) }
        ensures saved { OnOk result (KeepsSaved lines.old lines.new) }
    {
        let step = next(self.steps)?;
        let Some(update) = self.sides.next_update(dom) else {
            let refusal = Refusal::NothingPending;
            lines.push(Line::Refused { step, refusal })?;
            self.steps = step;
            return Ok(());
        };
        lines.reserve(1, 0)?;
        self.sides.turn(dom, &update)?;
        lines.push_reserved(Line::Done { step, changes: 0 });
        self.steps = step;
        Ok(())
    }

    /// The oldest frame that waits is held, with what is published now as its floor, and the answer is a copy of it. `None` exactly
    /// where none waits, which is a refused step.
    pub fn open_frame(&mut self, alloc: Global) -> Result<Option<Held>, NoMemory>
        ensures step { IfOk result (λ held. (world_step self.old.world Hold).0 ≡ self.new.world) }
        ensures board { self.new.board ≡ self.old.board }
        ensures held { IfOk result (λ held. option_map shown_by held ≡ opened self.old.world.published self.old.world.waiting) }
        ensures err { OnErr result (self.new ≡ self.old) }
    {
        let step = next(self.steps)?;
        let floor = self.sides.published();
        let held = match self.frames.oldest() {
            Some(frame) => Some(Held::of(alloc, frame, floor)?),
            None => None,
        };
        self.frames.hold(floor)?;
        self.steps = step;
        Ok(held)
    }

    /// The id of the oldest frame that waits, and its decision by what is published. The seat is told of that first, whatever the
    /// answer. It is no step.
    pub fn decide_oldest(
        &mut self,
        alloc: Global,
        s: &mut Seat,
    ) -> Result<Option<(u32, Verdict)>, NoMemory>
        requires { s.old.board ≡ self.old.board }
        ensures decides { IfOk result (DecidesOldest self.old.world self.old.world.waiting) }
        ensures same { self.new ≡ self.old }
        ensures seat { IsTold s.old s.new (published_in self.old.world) }
    {
        self.tell(s);
        self.decide_told(alloc, s)
    }

    /// The same of a seat that was told.
    fn decide_told(&self, alloc: Global, s: &mut Seat) -> Result<Option<(u32, Verdict)>, NoMemory>
        requires board { s.old.board ≡ self.now.board }
        requires told { Begins s.old.object (published_in self.now.world) }
        requires published { IsPublished s.old.object }
        ensures decides { IfOk result (DecidesOldest self.now.world self.now.world.waiting) }
        ensures seat { Looks s.old s.new }
    {
        match self.frames.oldest() {
            Some(frame) => Ok(Some((frame.id(), self.sides.decide(alloc, s, frame)?))),
            None => Ok(None),
        }
    }

    /// The oldest frame that waits is held, with what is published now as its floor. The line of the step is added.
    pub fn hold_to(&mut self, lines: &mut Lines) -> Result<(), NoMemory>
        ensures ok { OnOk result (Added (Steps self.old self.new Hold) lines.old.lines lines.new.lines) }
        ensures err { OnErr result (self.new ≡ self.old) }
        ensures lines { OnErr result (lines.new.lines ≡ lines.old.lines) }
        ensures saved { OnOk result (KeepsSaved lines.old lines.new) }
    {
        let step = next(self.steps)?;
        let floor = self.sides.published();
        let line = self.frames.hold_line(step, floor);
        lines.reserve(1, 0)?;
        self.frames.hold(floor)?;
        lines.push_reserved(line);
        self.steps = step;
        Ok(())
    }

    /// The frame that is held under this id is sent by the verdict of its floor. The step is refused where none is held. The lines
    /// of the step are added.
    pub fn post_floor_to(
        &mut self,
        alloc: Global,
        id: u32,
        verdict: Option<Verdict>,
        lines: &mut Lines,
    ) -> Result<(), NoMemory>
        requires { (x : HoldingOf) → held_with self.old.world id ≡ Some x → DecidesFloor self.old.world x verdict }
        ensures ok { OnOk result (Added (Steps self.old self.new (Post id None)) lines.old.lines lines.new.lines) }
        ensures err { OnErr result (self.new ≡ self.old) }
        ensures lines { OnErr result (lines.new.lines ≡ lines.old.lines) }
        ensures saved { OnOk result (KeepsSaved lines.old lines.new) }
    {
        let step = next(self.steps)?;
        let Some(holding) = self.frames.find(id) else {
            let refusal = Refusal::NothingToPost;
            lines.push(Line::Refused { step, refusal })?;
            self.steps = step;
            return Ok(());
        };
        let Some(verdict) = verdict else {
            unreachable!();
        };
        let floor = holding.floor();
        self.sides
            .post(alloc, step, holding.frame(), &verdict, floor, lines)?;
        let _holding = self.frames.release(id);
        self.steps = step;
        Ok(())
    }

    /// A held frame is sent by this decision of it. The step is refused where no frame with its id is held.
    pub fn post(&mut self, alloc: Global, h: Held, s: Seen) -> Result<Lines, PostFault>
        requires floor { h.floor ≤ s.point }
        requires decision { (x : HoldingOf) → IsCopy self.old.world h x → s.point ≤ self.old.world.published → IsDecision self.old.world x s }
        ensures { Posted self.old self.new h s result }
    {
        let mut lines = Lines::new(alloc);
        self.post_to(alloc, h, s, &mut lines)?;
        Ok(lines)
    }

    /// As `post`, with the lines of the step behind these.
    pub fn post_to(
        &mut self,
        alloc: Global,
        held: Held,
        seen: Seen,
        lines: &mut Lines,
    ) -> Result<(), PostFault>
        requires floor { held.floor ≤ seen.point }
        requires decision { (x : HoldingOf) → IsCopy self.old.world held x → seen.point ≤ self.old.world.published → IsDecision self.old.world x seen }
        ensures posted { PostedTo self.old self.new held seen lines.old.lines lines.new.lines result }
        ensures saved { OnOk result (KeepsSaved lines.old lines.new) }
    {
        let Ok(step) = next(self.steps) else {
            return Err(PostFault::NoMemory(held));
        };
        let Some(holding) = self.frames.find(held.id) else {
            return self.post_none(step, held, lines);
        };
        if !held.is_of(holding) {
            return Err(PostFault::Stranger(held));
        }
        let published = self.sides.published();
        if seen.point > published {
            return Err(PostFault::Ahead {
                held,
                seen: seen.point,
                published,
            });
        }
        match self.sides.post(
            alloc,
            step,
            holding.frame(),
            &seen.verdict,
            seen.point,
            lines,
        ) {
            Ok(()) => {
                let _holding = self.frames.release(held.id);
                self.steps = step;
                Ok(())
            }
            Err(_) => Err(PostFault::NoMemory(held)),
        }
    }

    /// No frame with this id is held.
    fn post_none(&mut self, step: u32, h: Held, lines: &mut Lines) -> Result<(), PostFault>
        requires step { step ≡ self.old.world.steps + 1 }
        requires none { held_with self.old.world h.id ≡ None }
        ensures posted { (s : SeenValue) → PostedTo self.old self.new h s lines.old.lines lines.new.lines result }
        ensures saved { lines.new.saved ≡ lines.old.saved }
    {
        let refusal = Refusal::NothingToPost;
        match lines.push(Line::Refused { step, refusal }) {
            Ok(()) => {
                self.steps = step;
                Ok(())
            }
            Err(_) => Err(PostFault::NoMemory(h)),
        }
    }

    /// The oldest frame that waits is sent by what is published, of which the seat was told.
    fn serve_told(&mut self, alloc: Global, s: &mut Seat, lines: &mut Lines) -> Result<(), NoMemory>
        requires board { s.old.board ≡ self.old.board }
        requires told { Begins s.old.object (published_in self.old.world) }
        requires published { IsPublished s.old.object }
        ensures ok { OnOk result (Added (Steps self.old self.new Serve) lines.old.lines lines.new.lines) }
        ensures err { OnErr result (self.new ≡ self.old) }
        ensures lines { OnErr result (lines.new.lines ≡ lines.old.lines) }
        ensures saved { OnOk result (KeepsSaved lines.old lines.new) }
        ensures seat { Looks s.old s.new }
    {
        let step = next(self.steps)?;
        let Some(frame) = self.frames.oldest() else {
            let refusal = Refusal::NothingWaiting;
            lines.push(Line::Refused { step, refusal })?;
            self.steps = step;
            return Ok(());
        };
        self.sides.serve(alloc, step, s, frame, lines)?;
        let _frame = self.frames.serve();
        self.steps = step;
        Ok(())
    }

    /// The oldest frame that waits is sent by what is published. The seat is told of that first, whatever the answer.
    pub fn serve(&mut self, alloc: Global, s: &mut Seat) -> Result<Lines, NoMemory>
        requires { s.old.board ≡ self.old.board }
        ensures ok { IfOk result (λ lines. Steps self.old self.new Serve lines.lines) }
        ensures err { OnErr result (self.new ≡ self.old) }
        ensures seat { IsTold s.old s.new (published_in self.old.world) }
    {
        let mut lines = Lines::new(alloc);
        self.serve_to(alloc, s, &mut lines)?;
        Ok(lines)
    }

    /// As `serve`, with the lines of the step behind these.
    pub fn serve_to(
        &mut self,
        alloc: Global,
        s: &mut Seat,
        lines: &mut Lines,
    ) -> Result<(), NoMemory>
        requires { s.old.board ≡ self.old.board }
        ensures ok { OnOk result (Added (Steps self.old self.new Serve) lines.old.lines lines.new.lines) }
        ensures err { OnErr result (self.new ≡ self.old) }
        ensures lines { OnErr result (lines.new.lines ≡ lines.old.lines) }
        ensures saved { OnOk result (KeepsSaved lines.old lines.new) }
        ensures seat { IsTold s.old s.new (published_in self.old.world) }
    {
        self.tell(s);
        self.serve_told(alloc, s, lines)
    }

    /// All accepted changes are published.
    pub fn publish<R: Wait>(&mut self, rt: &R, alloc: Global) -> Result<Lines, NoMemory>
        ensures ok { IfOk result (λ lines. Steps self.old self.new Publish lines.lines) }
        ensures err { OnErr result (self.new ≡ self.old) }
    {
        let mut lines = Lines::new(alloc);
        self.publish_to(rt, alloc, &mut lines)?;
        Ok(lines)
    }

    /// As `publish`, with the lines of the step behind these.
    pub fn publish_to<R: Wait>(
        &mut self,
        rt: &R,
        alloc: Global,
        lines: &mut Lines,
    ) -> Result<(), NoMemory>
        ensures ok { OnOk result (Added (Steps self.old self.new Publish) lines.old.lines lines.new.lines) }
        ensures err { OnErr result (self.new ≡ self.old) }
        ensures lines { OnErr result (lines.new.lines ≡ lines.old.lines) }
        ensures saved { OnOk result (KeepsSaved lines.old lines.new) }
    {
        let step = next(self.steps)?;
        lines.reserve(1, 0)?;
        self.sides.publish(rt, alloc)?;
        lines.push_reserved(Line::Done { step, changes: 0 });
        self.steps = step;
        Ok(())
    }

    /// The bridge is told the oldest report of the domain's chip.
    pub fn report(&mut self, alloc: Global, d: Dom) -> Result<Lines, NoMemory>
        requires { has_chip self.old.world.setup.domains d ≡ true }
        ensures ok { IfOk result (λ lines. Steps self.old self.new (Report d) lines.lines) }
        ensures err { OnErr result (self.new ≡ self.old) }
    {
        let mut lines = Lines::new(alloc);
        self.report_to(alloc, d, &mut lines)?;
        Ok(lines)
    }

    /// As `report`, with the lines of the step behind these.
    pub fn report_to(&mut self, alloc: Global, dom: Dom, lines: &mut Lines) -> Result<(), NoMemory>
        requires { has_chip self.old.world.setup.domains dom ≡ true }
        ensures ok { OnOk result (Added (Steps self.old self.new (Report dom)) lines.old.lines lines.new.lines) }
        ensures err { OnErr result (self.new ≡ self.old) }
        ensures lines { OnErr result (lines.new.lines ≡ lines.old.lines) }
        ensures saved { OnOk result (KeepsSaved lines.old lines.new) }
    {
        let step = next(self.steps)?;
        self.sides.report(alloc, step, dom, lines)?;
        self.steps = step;
        Ok(())
    }

    /// The bridge forgets the stations that the chip of the domain no longer sees.
    pub fn sweep(&mut self, alloc: Global, d: Dom) -> Result<Lines, NoMemory>
        requires { has_chip self.old.world.setup.domains d ≡ true }
        ensures ok { IfOk result (λ lines. Steps self.old self.new (Sweep d) lines.lines) }
        ensures err { OnErr result (self.new ≡ self.old) }
    {
        let mut lines = Lines::new(alloc);
        self.sweep_to(alloc, d, &mut lines)?;
        Ok(lines)
    }

    /// As `sweep`, with the lines of the step behind these.
    pub fn sweep_to(&mut self, alloc: Global, dom: Dom, lines: &mut Lines) -> Result<(), NoMemory>
        requires { has_chip self.old.world.setup.domains dom ≡ true }
        ensures ok { OnOk result (Added (Steps self.old self.new (Sweep dom)) lines.old.lines lines.new.lines) }
        ensures err { OnErr result (self.new ≡ self.old) }
        ensures lines { OnErr result (lines.new.lines ≡ lines.old.lines) }
        ensures saved { OnOk result (KeepsSaved lines.old lines.new) }
    {
        let step = next(self.steps)?;
        self.sides.sweep(alloc, step, dom, lines)?;
        self.steps = step;
        Ok(())
    }

    /// Tells a seat what is published. It is no step.
    pub fn tell(&mut self, s: &mut Seat)
        requires { s.old.board ≡ self.old.board }
        ensures same { self.new ≡ self.old }
        ensures board { s.new.board ≡ s.old.board }
        ensures told { Begins s.new.object (published_in self.old.world) }
        ensures kept { Begins s.new.object s.old.object }
        ensures misses { s.new.misses ≡ s.old.misses }
        ensures published { IsPublished s.new.object }
    {
        self.sides.tell(s);
    }

    /// The accepted changes, in order.
    pub fn history(&self) -> &[Change]
        ensures { result.now ≡ self.now.world.history }
    {
        self.sides.history()
    }

    /// How many deferred changes the chip of the domain has applied.
    pub fn applied(&self, d: Dom) -> u32
        requires { has_chip self.now.world.setup.domains d ≡ true }
        ensures { option_map (λ c. c.count) (chip_at self.now.world d) ≡ Some result }
    {
        self.sides.applied(d)
    }

    /// How many changes are published.
    pub fn published(&self) -> u32
        ensures { result ≡ self.now.world.published }
    {
        self.sides.published()
    }

    /// How many deferred changes the chip of the domain hasn't applied.
    pub fn pending(&self, d: Dom) -> u32
        requires { has_chip self.now.world.setup.domains d ≡ true }
        ensures { option_map (pending_of self.now.world) (chip_at self.now.world d) ≡ Some result }
    {
        self.sides.pending(d)
    }

    /// The declared ports with their domains, and the edition.
    pub fn domains(&self) -> &Domains
        ensures { result.now ≡ self.now.world.setup.domains }
    {
        self.sides.domains()
    }

    /// The tables of the domain's chip. Its rows stand for the table by which it decides.
    pub fn tables(&self, dom: Dom) -> &Tables
        requires { has_chip self.now.world.setup.domains dom ≡ true }
        ensures { (c : ChipValue) → chip_at self.now.world dom ≡ Some c
            → Stands self.now.world.setup.domains dom result.now (table_of_chip self.now.world c) }
    {
        self.sides.tables(dom)
    }

    /// The oldest report of the domain's chip, which stays.
    pub fn first_report(&self, dom: Dom) -> Option<Report>
        requires { has_chip self.now.world.setup.domains dom ≡ true }
        ensures { option_map (λ c. slice_get c.reports 0) (chip_at self.now.world dom) ≡ Some result }
    {
        self.sides.first_report(dom)
    }

    /// How many updates are queued, for all chips together.
    pub fn pending_of_all(&self) -> u32
        ensures { result ≡ pending self.now.world }
    {
        self.sides.pending_of_all()
    }

    /// How many frames wait.
    pub fn waiting(&self) -> usize
        ensures { result ≡ length self.now.world.waiting }
    {
        self.frames.waiting()
    }

    /// How many frames are held.
    pub fn held(&self) -> usize
        ensures { result ≡ length self.now.world.held }
    {
        self.frames.held()
    }

    /// How many steps there were.
    pub fn steps(&self) -> u32
        ensures { result ≡ self.now.world.steps }
    {
        self.steps
    }

    /// The last line of the transcript of a run that ends here.
    pub fn end_line(&self) -> Line
        ensures { result ≡ end_line self.now.world }
    {
        // law: what holds of every plane
        self.stands();
        Line::End {
            steps: self.steps(),
            changes: self.history().len() as u32,
            pending: self.pending_of_all(),
            waiting: (self.waiting() + self.held()) as u32,
        }
    }

    /// The deferred change of the history with this ticket, found at once.
    pub fn update(&self, ticket: u32) -> Option<Update>
        ensures { result ≡ slice_get (updates self.now.world.setup.domains.edition self.now.world.history) ticket }
    {
        self.sides.update(ticket)
    }

    /// What holds of every plane: the law does nothing.
    pub fn stands(&self)
        ensures world { IsWorld self.now.world }
        ensures domains { self.now.board.domains ≡ self.now.world.setup.domains }
    {
        // law: the board has the bridge's domains
        self.sides.stands();
    }
}
