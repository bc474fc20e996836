//! The world of a run: a bridge with its chips, and the seat by which its software looks up.
ghost use Rattle.std.specs.Prelude.{◌≡◌, ◌<◌, ◌^◌, length, true, false, None, IfOk, OnOk, OnErr};
ghost use Rattle.br_model.specs.Plane.Runs.{end_line, pending};
ghost use Rattle.br_model.specs.declared.steps.Step.TheVariants.{Cmd, Hold, Now, Post, Publish, Report, Rx, Serve, Sweep, Turn};
ghost use Rattle.br_model.specs.Plane.World.{first_world};
ghost use Rattle.br_model.specs.Table.Domains.{chip_domains, has_chip};
ghost use Rattle.br_model.specs.Table.Limits.{AreWithin};
ghost use Rattle.run_world.specs.Voices.{IsNext};
ghost use Rattle.plane_parts.specs.Added.{Added};
ghost use Rattle.plane_core.specs.Planes.{Steps as IsStep};
ghost use Rattle.run_world.specs.Held.{AreDecided, AreSame, KeepsOldest};
ghost use Rattle.run_world.specs.Worlds.{Tells};
ghost use Rattle.br_model.specs.Text.LineForms.{comes_by_line};

use crate::NoMemory;
use crate::held::Verdicts;
use br_model::bytes::Bytes;
use br_model::change::{Change, Update};
use br_model::domains::Domains;
use br_model::numbers::{Dom, Mac, Port};
use br_model::steps::{Command, Event, Step};
use br_model::transcript::Line;
use plane_core::Plane;
use std::alloc::{AllocError, Global};
use std::marker::Model;
use std::sync::Wait;
use table_publish::Seat;
use transcript_lines::Lines;

/// The plane, the one seat at its board, and the decisions of held frames. The plane is large, so it stands on the heap: a call pays for the room of its locals.
/// It isn't `Drop`, since the board isn't: end it by `end`.
pub struct World {
    plane: Box<Plane>,
    seat: Seat,
    // Of the frames that are held.
    verdicts: Verdicts,
}

impl Model for World {
    ghost use Rattle.std.specs.Prelude.{◌≡◌};
    ghost use Rattle.br_model.specs.Plane.World.{World as WorldOf};
    ghost use Rattle.run_world.specs.Held.{AreDecided};

    ghost Value = { WorldOf };

    ghost view = { λ w. w.plane.value.world };

    ghost invariant = { λ w. (w.seat.board ≡ w.plane.value.board) × AreDecided w.plane.value.world w.verdicts };
}

/// All accepted changes.
fn history(plane: &Plane) -> &[Change]
    ensures value { result.now ≡ plane.now.world.history }
    ensures within { AreWithin result.now }
{
    // law: what holds of every plane
    plane.stands();
    plane.history()
}

/// The change that the domain's chip applies next, if there is one.
fn next_update(plane: &Plane, dom: Dom) -> Option<Update>
    requires { has_chip plane.now.world.setup.domains dom ≡ true }
    ensures { IsNext plane.now.world dom result }
{
    plane.update(plane.applied(dom))
}

/// The verdict of the oldest frame that waits is kept, by what is published.
fn decide_oldest(
    alloc: Global,
    plane: &mut Plane,
    seat: &mut Seat,
    verdicts: &mut Verdicts,
) -> Result<(), NoMemory>
    requires { seat.old.board ≡ plane.old.board }
    ensures ok { OnOk result (KeepsOldest plane.old.world plane.old.world.waiting verdicts.old verdicts.new) }
    ensures err { OnErr result (AreSame verdicts.old verdicts.new) }
    ensures same { plane.new ≡ plane.old }
    ensures over { seat.new.board ≡ seat.old.board }
{
    match plane.decide_oldest(alloc, seat)? {
        Some((id, verdict)) => verdicts.put(id, verdict),
        None => Ok(()),
    }
}

/// The oldest frame that waits is held, and decided. The line of the step is added.
fn hold(
    alloc: Global,
    plane: &mut Plane,
    seat: &mut Seat,
    verdicts: &mut Verdicts,
    lines: &mut Lines,
) -> Result<(), NoMemory>
    requires over { seat.old.board ≡ plane.old.board }
    requires decided { AreDecided plane.old.world verdicts.old }
    ensures ok { OnOk result (Added (IsStep plane.old plane.new Hold) lines.old.lines lines.new.lines) }
    ensures over { seat.new.board ≡ plane.new.board }
    ensures decided { AreDecided plane.new.world verdicts.new }
{
    // law: what holds of every plane
    plane.stands();
    decide_oldest(alloc, plane, seat, verdicts)?;
    plane.hold_to(lines)
}

/// The frame that is held under this id is sent as it was decided. The lines of the step are added.
fn post(
    alloc: Global,
    plane: &mut Plane,
    verdicts: &mut Verdicts,
    id: u32,
    lines: &mut Lines,
) -> Result<(), NoMemory>
    requires { AreDecided plane.old.world verdicts.old }
    ensures ok { OnOk result (Added (IsStep plane.old plane.new (Post id None)) lines.old.lines lines.new.lines) }
    ensures over { plane.new.board ≡ plane.old.board }
    ensures decided { AreDecided plane.new.world verdicts.new }
{
    // law: what holds of every plane
    plane.stands();
    plane.post_floor_to(alloc, id, verdicts.get(id), lines)?;
    verdicts.remove(id);
    Ok(())
}

// After want of memory a world isn't used again.
impl World {
    /// Before the first step of a run of a bridge with these domains and this address.
    pub fn make<R: Wait>(
        rt: &R,
        alloc: Global,
        domains: Domains,
        own: Mac,
    ) -> Result<World, NoMemory>
        ensures { IfOk result (λ w. w ≡ first_world (record { domains = domains; own = own })) }
    {
        let (plane, mut seats) = Plane::with_seats(rt, alloc, domains, own, 1)?;
        let Some(seat) = seats.next() else {
            unreachable!();
        };
        match Box::new(alloc, plane) {
            Ok(plane) => Ok(World {
                plane,
                seat,
                verdicts: Verdicts::new(alloc),
            }),
            Err(failed) => {
                failed.value.end(rt);
                Err(AllocError)
            }
        }
    }

    /// Ends the world.
    pub fn end<R: Wait>(self, rt: &R) {
        let World {
            plane,
            seat: _,
            verdicts: _,
        } = self;
        Box::into_inner(plane).end(rt);
    }

    /// A frame enters by this port. The lines of the step are added.
    #[tactic(auto, using(crate::proofs::Worlds::world_told, crate::proofs::Worlds::world_tells))]
    pub fn enter(&mut self, port: Port, bytes: Bytes, lines: &mut Lines) -> Result<(), NoMemory>
        ensures { OnOk result (Added (Tells self.old (Rx port bytes) self.new) lines.old.lines lines.new.lines) }
    {
        // law: what holds of every plane
        self.plane.stands();
        self.plane.enter_to(port, bytes, lines)?;
        Ok(())
    }

    /// A command is given. The lines of the step are added.
    #[tactic(auto, using(crate::proofs::Worlds::world_told, crate::proofs::Worlds::world_tells))]
    fn command(
        &mut self,
        alloc: Global,
        command: Command,
        lines: &mut Lines,
    ) -> Result<(), NoMemory>
        ensures { OnOk result (Added (Tells self.old (Cmd command) self.new) lines.old.lines lines.new.lines) }
    {
        // law: what holds of every plane
        self.plane.stands();
        self.plane.accept_to(alloc, &Event::Cmd(command), lines)
    }

    /// The moment comes. The lines of the step are added.
    #[tactic(auto, using(crate::proofs::Worlds::world_told, crate::proofs::Worlds::world_tells))]
    fn moment(&mut self, alloc: Global, moment: u64, lines: &mut Lines) -> Result<(), NoMemory>
        requires { moment < 2 ^ 53 }
        ensures { OnOk result (Added (Tells self.old (Now moment) self.new) lines.old.lines lines.new.lines) }
    {
        // law: what holds of every plane
        self.plane.stands();
        self.plane.accept_to(alloc, &Event::Moment(moment), lines)
    }

    /// The oldest frame that waits is sent. The lines of the step are added.
    #[tactic(auto, using(crate::proofs::Worlds::world_told, crate::proofs::Worlds::world_tells))]
    fn serve(&mut self, alloc: Global, lines: &mut Lines) -> Result<(), NoMemory>
        ensures { OnOk result (Added (Tells self.old Serve self.new) lines.old.lines lines.new.lines) }
    {
        // law: what holds of every plane
        self.plane.stands();
        self.plane.serve_to(alloc, &mut self.seat, lines)
    }

    /// The oldest frame that waits is held. The lines of the step are added.
    #[tactic(auto, using(crate::proofs::Worlds::world_told, crate::proofs::Worlds::world_tells))]
    fn hold(&mut self, alloc: Global, lines: &mut Lines) -> Result<(), NoMemory>
        ensures { OnOk result (Added (Tells self.old Hold self.new) lines.old.lines lines.new.lines) }
    {
        hold(
            alloc,
            &mut self.plane,
            &mut self.seat,
            &mut self.verdicts,
            lines,
        )
    }

    /// The frame that is held under this id is sent as it was decided. The lines of the step are added.
    #[tactic(auto, using(crate::proofs::Worlds::world_told, crate::proofs::Worlds::world_tells))]
    fn post(
        &mut self,
        alloc: Global,
        id: u32,
        point: Option<u32>,
        lines: &mut Lines,
    ) -> Result<(), NoMemory>
        requires { comes_by_line false (chip_domains self.old.setup.domains) (Post id point) ≡ true }
        ensures { OnOk result (Added (Tells self.old (Post id point) self.new) lines.old.lines lines.new.lines) }
    {
        match point {
            None => post(alloc, &mut self.plane, &mut self.verdicts, id, lines),
            Some(_) => unreachable!(),
        }
    }

    /// The chip of the domain applies the update whose turn it is. The lines of the step are added.
    #[tactic(auto, using(crate::proofs::Worlds::world_told, crate::proofs::Worlds::world_tells))]
    fn turn(&mut self, dom: Dom, lines: &mut Lines) -> Result<(), NoMemory>
        requires { has_chip self.old.setup.domains dom ≡ true }
        ensures { OnOk result (Added (Tells self.old (Turn dom) self.new) lines.old.lines lines.new.lines) }
    {
        // law: what holds of every plane
        self.plane.stands();
        self.plane.turn_next(dom, lines)
    }

    /// The bridge is told the oldest report of the domain's chip. The lines of the step are added.
    #[tactic(auto, using(crate::proofs::Worlds::world_told, crate::proofs::Worlds::world_tells))]
    fn report(&mut self, alloc: Global, dom: Dom, lines: &mut Lines) -> Result<(), NoMemory>
        requires { has_chip self.old.setup.domains dom ≡ true }
        ensures { OnOk result (Added (Tells self.old (Report dom) self.new) lines.old.lines lines.new.lines) }
    {
        // law: what holds of every plane
        self.plane.stands();
        self.plane.report_to(alloc, dom, lines)
    }

    /// The bridge forgets the stations that the domain's chip no longer sees. The lines of the step are added.
    #[tactic(auto, using(crate::proofs::Worlds::world_told, crate::proofs::Worlds::world_tells))]
    fn sweep(&mut self, alloc: Global, dom: Dom, lines: &mut Lines) -> Result<(), NoMemory>
        requires { has_chip self.old.setup.domains dom ≡ true }
        ensures { OnOk result (Added (Tells self.old (Sweep dom) self.new) lines.old.lines lines.new.lines) }
    {
        // law: what holds of every plane
        self.plane.stands();
        self.plane.sweep_to(alloc, dom, lines)
    }

    /// All accepted changes are published. The lines of the step are added.
    #[tactic(auto, using(crate::proofs::Worlds::world_told, crate::proofs::Worlds::world_tells))]
    fn publish<R: Wait>(&mut self, rt: &R, alloc: Global, lines: &mut Lines) -> Result<(), NoMemory>
        ensures { OnOk result (Added (Tells self.old Publish self.new) lines.old.lines lines.new.lines) }
    {
        // law: what holds of every plane
        self.plane.stands();
        self.plane.publish_to(rt, alloc, lines)
    }

    /// Does a step that a line can give. The lines of the step are added.
    #[inline(always)]
    pub fn step<R: Wait>(
        &mut self,
        rt: &R,
        alloc: Global,
        step: Step,
        lines: &mut Lines,
    ) -> Result<(), NoMemory>
        requires { comes_by_line false (chip_domains self.old.setup.domains) step ≡ true }
        ensures { OnOk result (Added (Tells self.old step self.new) lines.old.lines lines.new.lines) }
    {
        match step {
            Step::Rx { port, bytes } => self.enter(port, bytes, lines),
            Step::Cmd(command) => self.command(alloc, command, lines),
            Step::Now(moment) => self.moment(alloc, moment, lines),
            Step::Serve => self.serve(alloc, lines),
            Step::Hold => self.hold(alloc, lines),
            Step::Post { id, point } => self.post(alloc, id, point, lines),
            Step::Turn(dom) => self.turn(dom, lines),
            Step::Report(dom) => self.report(alloc, dom, lines),
            Step::Sweep(dom) => self.sweep(alloc, dom, lines),
            Step::Publish => self.publish(rt, alloc, lines),
        }
    }

    /// All accepted changes.
    pub fn history(&self) -> &[Change]
        ensures value { result.now ≡ self.now.history }
        ensures within { AreWithin result.now }
    {
        history(&self.plane)
    }

    /// The bridge with its chips.
    pub fn plane(&self) -> &Plane
        ensures { result.now.world ≡ self.now }
    {
        &self.plane
    }

    /// The change that the domain's chip applies next, if there is one.
    pub(crate) fn next_update(&self, dom: Dom) -> Option<Update>
        requires { has_chip self.now.setup.domains dom ≡ true }
        ensures { IsNext self.now dom result }
    {
        next_update(&self.plane, dom)
    }

    /// How many changes were accepted.
    pub fn changes(&self) -> u32
        ensures { result ≡ length self.now.history }
    {
        // law: what holds of every plane
        self.plane.stands();
        self.history().len() as u32
    }

    /// Deferred changes that chips haven't applied, all chips together.
    pub fn pending(&self) -> u32
        ensures { result ≡ pending self.now }
    {
        self.plane.pending_of_all()
    }

    /// The last line of a run that ends here.
    pub fn end_line(&self) -> Line
        ensures { result ≡ end_line self.now }
    {
        self.plane.end_line()
    }
}
