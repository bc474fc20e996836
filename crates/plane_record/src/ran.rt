//! A plane with the book that led to it.
ghost use Rattle.std.specs.Prelude.{◌≡◌, ◌<◌, ◌≤◌, ◌++◌, ◌∷◌, [], vec_len, vec_capacity, IfOk, IfErr, IfSome, None, OnErr, OnOk, Some, true};
ghost use Rattle.std.specs.List.{list_all};
ghost use Rattle.std.specs.Option.{option_map};
ghost use Rattle.br_model.specs.declared.steps.Step.TheVariants as steps;
ghost use Rattle.br_model.specs.Plane.Serving.{held_with};
ghost use Rattle.br_model.specs.Plane.World.{Holding as HoldingOf, chip_at, first_world};
ghost use Rattle.br_model.specs.Table.Domains.{chip_domains, has_chip};
ghost use Rattle.br_model.specs.Text.LineForms.{comes_by_line};
ghost use Rattle.br_model.specs.Wire.Frames.{frame as frame_of};
ghost use Rattle.plane_core.specs.Planes.{DecidesFloor, IsCopy, IsDecidedBy, IsDecision, IsNamed, NotPosted, NotTurned, next_ticket, published_in, ticket_of};
ghost use Rattle.plane_core.specs.Seats.{IsTold};
ghost use Rattle.plane_core.specs.Shown.{opened, shown_by};
ghost use Rattle.table_publish.specs.Object.{Begins, IsPublished};
ghost use Rattle.transcript_lines.specs.Rows.{IsPlain};
ghost use Rattle.plane_record.specs.Holds.{held_line};
ghost use Rattle.plane_record.specs.Pasts.{after, event_step, lines_of, post_step, said_by, state_of, world_of};
ghost use Rattle.plane_record.specs.Posts.{IsTheHeld};

use crate::NoMemory;
use br_model::bytes::Bytes;
use br_model::change::Update;
use br_model::numbers::{Dom, Port};
use br_model::steps::{Event, Refusal, Step};
use br_model::transcript::Line;
use forward_rules::Verdict;
use lists::Items;
use plane_core::{Entered, Held, Plane, PostFault, TurnFault};
use std::alloc::Global;
use std::marker::Model;
use std::sync::Wait;
use table_publish::{Seat, Seen};
use transcript_lines::Lines;

/// Steps in the order in which they were taken.
pub type StepList = Items<Step>;

/// The steps of a run and the lines that they wrote.
#[derive(Drop)]
pub struct Book {
    pub steps: StepList,
    pub lines: Lines,
}

/// A plane with the steps that led to it, and their lines: the lines of a step stand behind those of the steps before. Contracts see
/// its board, its setup and its steps, each of which a line for `check` can give. It isn't `Drop`, since the plane isn't: end it by `book`.
///
/// Each call that takes a step records it and answers the lines that it wrote. It takes the room for that before the plane's first
/// change: where it answers a fault, all is as before.
pub struct Ran {
    plane: Plane,
    steps: Vec<Step>,
    lines: Lines,
}

impl Model for Ran {
    ghost use Rattle.std.specs.Prelude.{◌≡◌, true};
    ghost use Rattle.std.specs.List.{list_all};
    ghost use Rattle.br_model.specs.Plane.Runs.{run};
    ghost use Rattle.br_model.specs.Table.Domains.{chip_domains};
    ghost use Rattle.br_model.specs.Text.LineForms.{comes_by_line};
    ghost use Rattle.plane_record.specs.Pasts.{Past};

    ghost Value = { Past };

    ghost view = { λ r. record { board = r.plane.board; setup = r.plane.world.setup; steps = r.steps.items } };

    ghost invariant = { λ r. (run r.plane.world.setup r.steps.items ≡ (r.plane.world, r.lines.lines))
        × (list_all (comes_by_line true (chip_domains r.plane.world.setup.domains)) r.steps.items ≡ true) };
}

/// The step that an event is.
fn step_of(e: &Event) -> Step
    requires { IsNamed e.now }
    ensures { result ≡ event_step e.now }
{
    match e {
        Event::Cmd(command) => Step::Cmd(*command),
        Event::Moment(now) => Step::Now(*now),
        Event::Sight { .. } => unreachable!(),
        Event::Told { .. } => unreachable!(),
        Event::Forget(_) => unreachable!(),
    }
}

/// Before a step: the savepoint is set behind the lines so far, and there is room for the step.
fn make_ready(steps: &mut Vec<Step>, lines: &mut Lines) -> Result<(), NoMemory>
    ensures steps { steps.new.items ≡ steps.old.items }
    ensures room { OnOk result (vec_len steps.new < vec_capacity steps.new) }
    ensures lines { lines.new.lines ≡ lines.old.lines }
    ensures saved { lines.new.saved ≡ lines.old.lines }
{
    lines.save();
    steps.reserve(1)
}

/// The step that was taken is written down, where there is room for it. The answer is a copy of its lines, those behind the savepoint.
fn write_down(alloc: Global, steps: &mut Vec<Step>, lines: &mut Lines, step: Step) -> Lines
    requires { vec_len steps.old < vec_capacity steps.old }
    ensures steps { steps.new.items ≡ steps.old.items ++ step ∷ [] }
    ensures lines { lines.new.lines ≡ lines.old.lines }
    ensures said { lines.old.lines ≡ lines.old.saved ++ result.lines }
{
    steps.push_reserved(step);
    lines.copy_out(alloc)
}

/// The line of a frame that is held, or of the refusal.
fn held_line(held: &Option<Held>, step: u32) -> Line
    ensures line { result ≡ held_line (option_map shown_by held.now) step }
    ensures plain { IsPlain result }
{
    match held {
        Some(held) => Line::Held {
            id: held.id,
            floor: held.floor,
        },
        None => Line::Refused {
            step,
            refusal: Refusal::NothingWaiting,
        },
    }
}

impl Ran {
    /// A run without steps.
    pub fn make(alloc: Global, p: Plane) -> Ran
        requires { p.world ≡ first_world p.world.setup }
        ensures { result ≡ record { board = p.board; setup = p.world.setup; steps = [] } }
    {
        Ran {
            plane: p,
            steps: Vec::new(alloc),
            lines: Lines::new(alloc),
        }
    }

    pub fn plane(&self) -> &Plane
        ensures { result.now ≡ state_of self.now }
    {
        &self.plane
    }

    /// The lines of all steps.
    pub fn lines(&self) -> &Lines
        ensures { result.now.lines ≡ lines_of self.now }
    {
        &self.lines
    }

    /// A frame of these bytes enters at the port. The answer is the chip's, where it decided the frame.
    pub fn enter(&mut self, alloc: Global, p: Port, b: &[u8]) -> Result<Entered, NoMemory>
        ensures ok { OnOk result (self.new ≡ after self.old (steps.Rx p b.now)) }
        ensures lines { IfOk result (λ e. e.lines.lines ≡ said_by self.old (steps.Rx p b.now)) }
        ensures pass { IfOk result (λ e. IsDecidedBy (world_of self.old) p b.now (frame_of b.now) e.pass) }
        ensures err { OnErr result (self.new ≡ self.old) }
    {
        make_ready(&mut self.steps, &mut self.lines)?;
        let bytes = Bytes::copy_of(alloc, b)?;
        let frame = Bytes::copy_of(alloc, b)?;
        let pass = self.plane.enter_to(p, frame, &mut self.lines)?;
        let step = Step::Rx { port: p, bytes };
        let lines = write_down(alloc, &mut self.steps, &mut self.lines, step);
        Ok(Entered { lines, pass })
    }

    /// An event that a scenario names, a command or a moment before 2^53.
    pub fn accept(&mut self, alloc: Global, e: &Event) -> Result<Lines, NoMemory>
        requires { IsNamed e.now }
        ensures ok { OnOk result (self.new ≡ after self.old (event_step e.now)) }
        ensures lines { IfOk result (λ lines. lines.lines ≡ said_by self.old (event_step e.now)) }
        ensures err { OnErr result (self.new ≡ self.old) }
    {
        make_ready(&mut self.steps, &mut self.lines)?;
        let step = step_of(e);
        self.plane.accept_to(alloc, e, &mut self.lines)?;
        Ok(write_down(alloc, &mut self.steps, &mut self.lines, step))
    }

    /// The chip of the domain applies the next deferred change, which the update names by its ticket.
    pub fn turn(&mut self, alloc: Global, d: Dom, u: Option<Update>) -> Result<Lines, TurnFault>
        requires { has_chip self.old.setup.domains d ≡ true }
        ensures ok { OnOk result (self.new ≡ after self.old (steps.Turn d)) }
        ensures lines { IfOk result (λ lines. lines.lines ≡ said_by self.old (steps.Turn d)) }
        ensures named { OnOk result (IfSome (next_ticket (world_of self.old) (chip_at (world_of self.old) d)) (λ ticket. ticket_of u ≡ Some ticket)) }
        ensures err { OnErr result (self.new ≡ self.old) }
        ensures fault { IfErr result (NotTurned (state_of self.old) (state_of self.new) d u) }
    {
        make_ready(&mut self.steps, &mut self.lines)?;
        self.plane.turn_to(d, u, &mut self.lines)?;
        let step = Step::Turn(d);
        Ok(write_down(alloc, &mut self.steps, &mut self.lines, step))
    }

    /// The chip of the domain applies the deferred change that is next there.
    pub fn turn_next(&mut self, alloc: Global, dom: Dom) -> Result<Lines, NoMemory>
        requires { has_chip self.old.setup.domains dom ≡ true }
        ensures ok { OnOk result (self.new ≡ after self.old (steps.Turn dom)) }
        ensures lines { IfOk result (λ lines. lines.lines ≡ said_by self.old (steps.Turn dom)) }
        ensures err { OnErr result (self.new ≡ self.old) }
    {
        make_ready(&mut self.steps, &mut self.lines)?;
        self.plane.turn_next(dom, &mut self.lines)?;
        let step = Step::Turn(dom);
        Ok(write_down(alloc, &mut self.steps, &mut self.lines, step))
    }

    /// The oldest frame that waits is held, and the answer is a copy of it. `None` exactly where none waits, which is a refused step.
    pub fn open_frame(&mut self, alloc: Global) -> Result<Option<Held>, NoMemory>
        ensures ok { OnOk result (self.new ≡ after self.old steps.Hold) }
        ensures held { IfOk result (λ held. option_map shown_by held ≡ opened (world_of self.old).published (world_of self.old).waiting) }
        ensures err { OnErr result (self.new ≡ self.old) }
    {
        self.steps.reserve(1)?;
        self.lines.reserve(1, 0)?;
        let held = self.plane.open_frame(alloc)?;
        let line = held_line(&held, self.plane.steps());
        self.lines.push_reserved(line);
        self.steps.push_reserved(Step::Hold);
        Ok(held)
    }

    /// A held frame is sent by this decision of it. The step is recorded without its point where no frame with the id is held.
    pub fn post(&mut self, alloc: Global, h: Held, s: Seen) -> Result<Lines, PostFault>
        requires floor { h.floor ≤ s.point }
        requires decision { (x : HoldingOf) → IsCopy (world_of self.old) h x → s.point ≤ (world_of self.old).published → IsDecision (world_of self.old) x s }
        ensures ok { OnOk result (self.new ≡ after self.old (post_step (held_with (world_of self.old) h.id) h.id s.point)) }
        ensures lines { IfOk result (λ lines. lines.lines ≡ said_by self.old (post_step (held_with (world_of self.old) h.id) h.id s.point)) }
        ensures held { OnOk result (IsTheHeld (world_of self.old) h s.point) }
        ensures err { OnErr result (self.new ≡ self.old) }
        ensures fault { IfErr result (NotPosted (state_of self.old) (state_of self.new) h s) }
    {
        if make_ready(&mut self.steps, &mut self.lines).is_err() {
            return Err(PostFault::NoMemory(h));
        }
        let id = h.id;
        let point = s.point;
        let held = self.plane.held();
        self.plane.post_to(alloc, h, s, &mut self.lines)?;
        let is_released = self.plane.held() < held;
        let point = if is_released { Some(point) } else { None };
        let step = Step::Post { id, point };
        Ok(write_down(alloc, &mut self.steps, &mut self.lines, step))
    }

    /// The frame that is held under this id is sent by the verdict of its floor. The step is refused where none is held.
    pub fn post_floor(
        &mut self,
        alloc: Global,
        id: u32,
        verdict: Option<Verdict>,
    ) -> Result<Lines, NoMemory>
        requires { (x : HoldingOf) → held_with (world_of self.old) id ≡ Some x → DecidesFloor (world_of self.old) x verdict }
        ensures ok { OnOk result (self.new ≡ after self.old (steps.Post id None)) }
        ensures lines { IfOk result (λ lines. lines.lines ≡ said_by self.old (steps.Post id None)) }
        ensures err { OnErr result (self.new ≡ self.old) }
    {
        make_ready(&mut self.steps, &mut self.lines)?;
        self.plane
            .post_floor_to(alloc, id, verdict, &mut self.lines)?;
        let step = Step::Post { id, point: None };
        Ok(write_down(alloc, &mut self.steps, &mut self.lines, step))
    }

    /// The oldest frame that waits is sent by what is published, of which the seat is told first.
    pub fn serve(&mut self, alloc: Global, s: &mut Seat) -> Result<Lines, NoMemory>
        requires { s.old.board ≡ self.old.board }
        ensures ok { OnOk result (self.new ≡ after self.old steps.Serve) }
        ensures lines { IfOk result (λ lines. lines.lines ≡ said_by self.old steps.Serve) }
        ensures err { OnErr result (self.new ≡ self.old) }
        ensures board { s.new.board ≡ s.old.board }
        ensures kept { Begins s.new.object s.old.object }
        ensures misses { s.old.misses ≤ s.new.misses }
        ensures seat { OnOk result (IsTold s.old s.new (published_in (world_of self.old))) }
    {
        make_ready(&mut self.steps, &mut self.lines)?;
        self.plane.serve_to(alloc, s, &mut self.lines)?;
        let step = Step::Serve;
        Ok(write_down(alloc, &mut self.steps, &mut self.lines, step))
    }

    /// The bridge is told the oldest report of the domain's chip.
    pub fn report(&mut self, alloc: Global, d: Dom) -> Result<Lines, NoMemory>
        requires { has_chip self.old.setup.domains d ≡ true }
        ensures ok { OnOk result (self.new ≡ after self.old (steps.Report d)) }
        ensures lines { IfOk result (λ lines. lines.lines ≡ said_by self.old (steps.Report d)) }
        ensures err { OnErr result (self.new ≡ self.old) }
    {
        make_ready(&mut self.steps, &mut self.lines)?;
        self.plane.report_to(alloc, d, &mut self.lines)?;
        let step = Step::Report(d);
        Ok(write_down(alloc, &mut self.steps, &mut self.lines, step))
    }

    /// The bridge forgets the stations that the chip of the domain no longer sees.
    pub fn sweep(&mut self, alloc: Global, d: Dom) -> Result<Lines, NoMemory>
        requires { has_chip self.old.setup.domains d ≡ true }
        ensures ok { OnOk result (self.new ≡ after self.old (steps.Sweep d)) }
        ensures lines { IfOk result (λ lines. lines.lines ≡ said_by self.old (steps.Sweep d)) }
        ensures err { OnErr result (self.new ≡ self.old) }
    {
        make_ready(&mut self.steps, &mut self.lines)?;
        self.plane.sweep_to(alloc, d, &mut self.lines)?;
        let step = Step::Sweep(d);
        Ok(write_down(alloc, &mut self.steps, &mut self.lines, step))
    }

    /// All accepted changes are published.
    pub fn publish<R: Wait>(&mut self, rt: &R, alloc: Global) -> Result<Lines, NoMemory>
        ensures ok { OnOk result (self.new ≡ after self.old steps.Publish) }
        ensures lines { IfOk result (λ lines. lines.lines ≡ said_by self.old steps.Publish) }
        ensures err { OnErr result (self.new ≡ self.old) }
    {
        make_ready(&mut self.steps, &mut self.lines)?;
        self.plane.publish_to(rt, alloc, &mut self.lines)?;
        let step = Step::Publish;
        Ok(write_down(alloc, &mut self.steps, &mut self.lines, step))
    }

    /// The same, where nobody asks for the lines.
    pub fn record_publish<R: Wait>(&mut self, rt: &R, alloc: Global) -> Result<(), NoMemory>
        ensures ok { OnOk result (self.new ≡ after self.old steps.Publish) }
        ensures err { OnErr result (self.new ≡ self.old) }
    {
        self.steps.reserve(1)?;
        self.plane.publish_to(rt, alloc, &mut self.lines)?;
        self.steps.push_reserved(Step::Publish);
        Ok(())
    }

    /// Tells a seat what is published. It records nothing.
    pub fn tell(&mut self, s: &mut Seat)
        requires { s.old.board ≡ self.old.board }
        ensures same { self.new ≡ self.old }
        ensures board { s.new.board ≡ s.old.board }
        ensures told { Begins s.new.object (published_in (world_of self.old)) }
        ensures kept { Begins s.new.object s.old.object }
        ensures misses { s.new.misses ≡ s.old.misses }
        ensures published { IsPublished s.new.object }
    {
        self.plane.tell(s);
    }

    /// The steps and the lines of the run, whose plane and board end.
    pub fn book<R: Wait>(self, rt: &R) -> Book
        ensures steps { result.steps ≡ self.steps }
        ensures lines { result.lines.lines ≡ lines_of self }
        ensures by_line { list_all (comes_by_line true (chip_domains self.setup.domains)) result.steps ≡ true }
    {
        let Ran {
            plane,
            steps,
            lines,
        } = self;
        plane.end(rt);
        Book {
            steps: Items::of(steps),
            lines,
        }
    }
}
