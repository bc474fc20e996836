//! A live run on one thread.
ghost use Rattle.std.specs.Prelude.{◌≡◌, [], ◌∷◌, true, false, IfOk, OnOk};
ghost use Rattle.std.specs.List.{list_all};
ghost use Rattle.br_model.specs.declared.steps.Step.TheVariants.{Rx, Serve, Sweep};
ghost use Rattle.br_model.specs.Plane.Runs.{end_line, run};
ghost use Rattle.br_model.specs.Program.LiveRun.{is_live_run};
ghost use Rattle.br_model.specs.Program.Runs.{setup_of};
ghost use Rattle.br_model.specs.Table.Domains.{chip_domains, has_chip};
ghost use Rattle.br_model.specs.Text.LineForms.{comes_by_line};
ghost use Rattle.br_model.specs.Text.Scenario.{Scenario};
ghost use Rattle.plane_core.specs.Planes.{IsNamed};
ghost use Rattle.plane_record.specs.Pasts.{acted, published_after};
ghost use Rattle.plane_record.specs.Pasts.{event_step};
ghost use Rattle.live_thread.specs.Taking.{Takes};

use crate::NoMemory;
use crate::drain::drain;
use crate::opening::open;
use br_model::domains::Domains;
use br_model::numbers::{Dom, Mac, Port};
use br_model::steps::{Event, Step};
use br_model::transcript::Line;
use plane_core::Plane;
use plane_record::{Book, Ran};
use std::alloc::Global;
use std::sync::Wait;
use table_publish::Seat;

/// What a run on one thread comes to.
#[derive(Drop)]
pub struct Taken {
    /// The steps that were taken, and their lines.
    pub book: Book,
    /// The last line of their transcript.
    pub end: Line,
}

/// Publishes, unless there are still just so many changes.
fn publish_since<R: Wait>(
    rt: &R,
    alloc: Global,
    ran: &mut Ran,
    changes: usize,
) -> Result<(), NoMemory>
    ensures { OnOk result (ran.new ≡ published_after changes ran.old) }
{
    if ran.plane().history().len() != changes {
        ran.publish(rt, alloc)?;
    }
    Ok(())
}

/// An event that a scenario names, and what it changed is published.
fn accept<R: Wait>(rt: &R, alloc: Global, ran: &mut Ran, event: &Event) -> Result<(), NoMemory>
    requires { IsNamed event.now }
    ensures { OnOk result (ran.new ≡ acted ran.old (event_step event.now)) }
{
    let changes = ran.plane().history().len();
    ran.accept(alloc, event)?;
    publish_since(rt, alloc, ran, changes)
}

/// The bridge forgets the stations that the chip of the domain no longer sees, and that is published.
fn sweep<R: Wait>(rt: &R, alloc: Global, ran: &mut Ran, dom: Dom) -> Result<(), NoMemory>
    requires { has_chip ran.old.setup.domains dom ≡ true }
    ensures { OnOk result (ran.new ≡ acted ran.old (Sweep dom)) }
{
    let changes = ran.plane().history().len();
    ran.sweep(alloc, dom)?;
    publish_since(rt, alloc, ran, changes)
}

/// The oldest frame that waits is sent, and what it taught is published.
fn serve<R: Wait>(rt: &R, alloc: Global, ran: &mut Ran, seat: &mut Seat) -> Result<(), NoMemory>
    requires { seat.old.board ≡ ran.old.board }
    ensures ok { OnOk result (ran.new ≡ acted ran.old Serve) }
    ensures board { seat.new.board ≡ seat.old.board }
{
    let changes = ran.plane().history().len();
    ran.serve(alloc, seat)?;
    publish_since(rt, alloc, ran, changes)
}

/// A frame enters, and is served where it goes to software.
fn enter<R: Wait>(
    rt: &R,
    alloc: Global,
    ran: &mut Ran,
    seat: &mut Seat,
    port: Port,
    bytes: &[u8],
) -> Result<(), NoMemory>
    requires { seat.old.board ≡ ran.old.board }
    ensures ok { OnOk result (Takes ran.old ran.new (Rx port bytes.now ∷ [])) }
    ensures board { seat.new.board ≡ seat.old.board }
{
    ran.enter(alloc, port, bytes)?;
    if ran.plane().waiting() > 0 {
        serve(rt, alloc, ran, seat)
    } else {
        Ok(())
    }
}

/// A frame enters, a command is given, a moment comes or a chip is swept. Other steps are skipped.
fn take_step<R: Wait>(
    rt: &R,
    alloc: Global,
    ran: &mut Ran,
    seat: &mut Seat,
    step: &Step,
) -> Result<(), NoMemory>
    requires seat { seat.old.board ≡ ran.old.board }
    requires by_line { comes_by_line false (chip_domains ran.old.setup.domains) step.now ≡ true }
    ensures ok { OnOk result (Takes ran.old ran.new (step.now ∷ [])) }
    ensures board { seat.new.board ≡ seat.old.board }
{
    match step {
        Step::Rx { port, bytes } => enter(rt, alloc, ran, seat, *port, bytes.as_slice()),
        Step::Cmd(command) => accept(rt, alloc, ran, &Event::Cmd(*command)),
        Step::Now(moment) => accept(rt, alloc, ran, &Event::Moment(*moment)),
        Step::Sweep(dom) => sweep(rt, alloc, ran, *dom),
        Step::Serve
        | Step::Hold
        | Step::Post { .. }
        | Step::Turn(_)
        | Step::Report(_)
        | Step::Publish => Ok(()),
    }
}

/// The same of each of these steps.
fn take_steps<R: Wait>(
    rt: &R,
    alloc: Global,
    ran: &mut Ran,
    seat: &mut Seat,
    steps: &[Step],
) -> Result<(), NoMemory>
    requires seat { seat.old.board ≡ ran.old.board }
    requires by_line { list_all (comes_by_line false (chip_domains ran.old.setup.domains)) steps.now ≡ true }
    ensures ok { OnOk result (Takes ran.old ran.new steps.now) }
    ensures board { seat.new.board ≡ seat.old.board }
{
    for place in 0..steps.len() {
        take_step(rt, alloc, ran, seat, &steps[place])?;
    }
    Ok(())
}

/// Takes a scenario's steps as a live run.
///
/// Those before its first frame are done as they are. Behind them each frame enters and is served at once, where it goes to software;
/// commands, moments and sweeps come in their order, and all other steps are skipped. What is accepted is published at once. At the end
/// nothing is left to do.
///
/// After want of memory the run stops at any of its steps.
pub fn take_alone<R: Wait>(
    rt: &R,
    alloc: Global,
    ran: &mut Ran,
    seat: &mut Seat,
    domains: &Domains,
    steps: &[Step],
) -> Result<(), NoMemory>
    requires seat { seat.old.board ≡ ran.old.board }
    requires domains { ran.old.setup.domains ≡ domains.now }
    requires none { ran.old.steps ≡ [] }
    requires by_line { list_all (comes_by_line false (chip_domains domains.now)) steps.now ≡ true }
    ensures live { OnOk result ((sc : Scenario) → setup_of sc.roster ≡ ran.old.setup → sc.steps ≡ steps.now → is_live_run ran.new.steps sc ≡ true) }
    ensures setup { OnOk result (ran.new.setup ≡ ran.old.setup) }
{
    let later = open(rt, alloc, ran, seat, steps)?;
    take_steps(rt, alloc, ran, seat, &steps[later..])?;
    drain(rt, alloc, ran, seat, domains)
}

/// Takes a scenario's steps as a live run of a bridge of its own, on these domains and with this address.
pub fn run_alone<R: Wait>(
    rt: &R,
    alloc: Global,
    domains: Domains,
    own: Mac,
    steps: &[Step],
) -> Result<Taken, NoMemory>
    requires { list_all (comes_by_line false (chip_domains domains)) steps.now ≡ true }
    ensures live { IfOk result (λ t. (sc : Scenario) → setup_of sc.roster ≡ record { domains = domains; own = own } → sc.steps ≡ steps.now
        → is_live_run t.book.steps sc ≡ true) }
    ensures lines { IfOk result (λ t. t.book.lines.lines ≡ (run (record { domains = domains; own = own }) t.book.steps).1) }
    ensures end { IfOk result (λ t. t.end ≡ end_line (run (record { domains = domains; own = own }) t.book.steps).0) }
    ensures by_line { IfOk result (λ t. list_all (comes_by_line true (chip_domains domains)) t.book.steps ≡ true) }
{
    let chips = domains.again();
    let (plane, mut seats) = Plane::with_seats(rt, alloc, domains, own, 1)?;
    let Some(mut seat) = seats.next() else {
        unreachable!();
    };
    let mut ran = Ran::make(alloc, plane);
    let taken = take_alone(rt, alloc, &mut ran, &mut seat, &chips, steps);
    let end = ran.plane().end_line();
    let book = ran.book(rt);
    taken?;
    Ok(Taken { book, end })
}
