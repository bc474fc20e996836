//! A run by workers, and the run on one thread that stands in its place where its book isn't a live run.
ghost use Rattle.std.specs.Prelude.{◌≡◌, ◌<◌, ◌≤◌, ◌+◌, ◌||◌, Bool, [], true, false, not, length, map, IfOk, IfSome, OnOk};
ghost use Rattle.std.specs.List.{All, list_all};
ghost use Rattle.br_model.specs.declared.steps.Step.{Step as StepValue};
ghost use Rattle.br_model.specs.Plane.Runs.{end_line, run};
ghost use Rattle.br_model.specs.Program.LiveRun.{is_live_run};
ghost use Rattle.br_model.specs.Program.Runs.{setup_of};
ghost use Rattle.br_model.specs.Table.Domains.{chip_domains};
ghost use Rattle.br_model.specs.Text.LineForms.{comes_by_line};
ghost use Rattle.br_model.specs.Text.Scenario.{Scenario};
ghost use Rattle.live_book.specs.Ends.{IsLeft};
ghost use Rattle.plane_record.specs.Pasts.{world_of};
ghost use Rattle.plane_lock.specs.Posted.{updates_of};
ghost use Rattle.live_workers.specs.Results.{IsSameBridge, IsTaken, is_taken};

use crate::NoMemory;
use crate::queues::{chips_of, queues_of};
use crate::remains::left_of;
use crate::stop::Stop;
use crate::workers::{Worker, drive_all};
use br_model::domains::Domains;
use br_model::numbers::{Dom, Mac};
use br_model::steps::Step;
use live_book::{Remains, is_live};
use live_thread::drain::drain;
use live_thread::{Taken, open, run_alone};
use plane_core::Plane;
use plane_lock::{Chair, Queues, Ran, Shared};
use port_workers::Gate;
use std::alloc::{AllocError, Global};
use std::marker::Brand;
use std::sync::{Mutex, Wait};
use std::thread::Threads;
use table_publish::{Name, Seat, Seats};

/// What is given to a run.
#[derive(Drop)]
struct Given<'a> {
    domains: &'a Domains,
    /// The domains that have a chip.
    chips: &'a [Dom],
    steps: &'a [Step],
    ghost have_chips: { chips.now ≡ chip_domains domains.now },
    ghost by_line: { list_all (comes_by_line false (chip_domains domains.now)) steps.now ≡ true },
}

/// So many workers, each with a seat of its own.
fn seat_all<N: Name>(
    alloc: Global,
    seats: &mut Seats,
    workers: usize,
) -> Result<Vec<Mutex<Worker<N>>>, NoMemory>
    requires board { seats.old.board ≡ N.board }
    requires seats { workers ≤ seats.old.left }
    ensures { IfOk result (λ all. length all.items ≡ workers) }
{
    let mut all = Vec::new(alloc);
    for number in 0..workers {
        let Some(seat) = seats.next() else {
            unreachable!();
        };
        all.push(Mutex::new(Worker::new(Chair::<N>::new(seat))))?;
    }
    Ok(all)
}

/// What is made before the workers begin.
#[derive(Drop)]
struct Made<N: Name> {
    workers: Vec<Mutex<Worker<N>>>,
    queues: Queues,
    /// How many steps stand before the first frame.
    opening: usize,
}

/// The steps before the first frame are done, and the workers and the chips' queues are made.
fn make<N: Name, R: Wait>(
    rt: &R,
    alloc: Global,
    ran: &mut Ran,
    seat: &mut Seat,
    seats: &mut Seats,
    workers: usize,
    given: &Given,
) -> Result<Made<N>, NoMemory>
    requires seat { seat.old.board ≡ ran.old.board }
    requires board { seats.old.board ≡ N.board }
    requires seats { workers ≤ seats.old.left }
    requires domains { ran.old.setup.domains ≡ given.now.domains.now }
    requires none { ran.old.steps ≡ [] }
    ensures past { OnOk result (IsSameBridge ran.old ran.new) }
    ensures board { seat.new.board ≡ seat.old.board }
    ensures workers { IfOk result (λ made. length made.workers.items ≡ workers) }
    ensures opening { IfOk result (λ made. made.opening ≤ length given.now.steps.now) }
    ensures doms { IfOk result (λ made. map (λ x. x.dom) made.queues ≡ given.now.chips.now) }
    ensures posted { IfOk result (λ made. All (λ x. x.poster.posted ≡ updates_of ran.new) made.queues) }
{
    let workers = seat_all(alloc, seats, workers)?;
    let opening = open(rt, alloc, ran, seat, given.steps)?;
    let queues = queues_of(rt, alloc, ran, given.chips)?;
    Ok(Made {
        workers,
        queues,
        opening,
    })
}

/// What is left to do is done, and what is left then is told. None where the run is given up.
fn end_run<R: Wait>(
    rt: &R,
    alloc: Global,
    ran: &mut Ran,
    seat: &mut Seat,
    stop: Option<Stop>,
    given: &Given,
) -> Result<Option<Remains>, NoMemory>
    requires seat { seat.old.board ≡ ran.old.board }
    requires domains { ran.old.setup.domains ≡ given.now.domains.now }
    ensures setup { OnOk result (ran.new.setup ≡ ran.old.setup) }
    ensures left { IfOk result (λ left. IfSome left (λ r. IsLeft r (world_of ran.new))) }
{
    match stop {
        Some(Stop::NoMemory) => return Err(AllocError),
        Some(Stop::GivenUp) => return Ok(None),
        None => {}
    }
    if ran.plane().held() > 0 {
        return Ok(None);
    }
    drain(rt, alloc, ran, seat, given.domains)?;
    Ok(Some(left_of(alloc, ran, given.chips)?))
}

/// The run ends, and its book is tested. None where it isn't a live run, or was given up.
fn close<R: Wait>(
    rt: &R,
    alloc: Global,
    ran: Ran,
    seat: Seat,
    stop: Option<Stop>,
    given: &Given,
) -> Result<Option<Taken>, NoMemory>
    requires seat { seat.board ≡ ran.board }
    requires domains { ran.setup.domains ≡ given.now.domains.now }
    ensures { IfOk result (λ taken. IfSome taken (IsTaken ran.setup given.now.steps.now)) }
{
    let mut ran = ran;
    let mut seat = seat;
    let ended = end_run(rt, alloc, &mut ran, &mut seat, stop, given);
    let end = ran.plane().end_line();
    let book = ran.book(rt);
    let Some(left) = ended? else {
        return Ok(None);
    };
    let taken = book.steps.as_slice();
    let passes = is_live(alloc, taken, &book.lines, given.steps, &left)?;
    if passes {
        Ok(Some(Taken { book, end }))
    } else {
        Ok(None)
    }
}

/// The workers take the steps from the first frame on.
fn take_later<N, R, G>(
    rt: &R,
    alloc: Global,
    gate: &G,
    ran: Ran,
    seat: Seat,
    made: Made<N>,
    given: &Given,
) -> Result<Option<Taken>, NoMemory>
where
    N: Name + Send + Sync,
    R: Threads + Wait + Sync,
    G: Gate + Sync,
    requires seat { seat.board ≡ N.board }
    requires board { ran.board ≡ N.board }
    requires setup { ran.setup ≡ record { domains = N.board.domains; own = N.own } }
    requires domains { N.board.domains ≡ given.now.domains.now }
    requires workers { (0 < length made.workers.items) × (length made.workers.items ≤ 16) }
    requires opening { made.opening ≤ length given.now.steps.now }
    requires doms { map (λ x. x.dom) made.queues ≡ given.now.chips.now }
    requires posted { All (λ x. x.poster.posted ≡ updates_of ran) made.queues }
    ensures { IfOk result (λ taken. IfSome taken (IsTaken ran.setup given.now.steps.now)) }
{
    let Made {
        workers,
        queues,
        opening,
    } = made;
    let shared = Shared::<N>::make(rt, alloc, ran, queues)?;
    let later = &given.steps[opening..];
    let stop = drive_all(rt, alloc, gate, &shared, &workers, given.chips, later);
    close(rt, alloc, shared.close(), seat, stop, given)
}

/// The run by workers on the board that N names.
fn take_named<N, R, G>(
    rt: &R,
    alloc: Global,
    gate: &G,
    ran: Ran,
    seats: Seats,
    workers: usize,
    given: &Given,
) -> Result<Option<Taken>, NoMemory>
where
    N: Name + Send + Sync,
    R: Threads + Wait + Sync,
    G: Gate + Sync,
    requires workers { (0 < workers) × (workers ≤ 16) }
    requires seats { seats ≡ record { board = N.board; left = workers + 1 } }
    requires board { ran.board ≡ N.board }
    requires setup { ran.setup ≡ record { domains = N.board.domains; own = N.own } }
    requires domains { N.board.domains ≡ given.now.domains.now }
    requires none { ran.steps ≡ [] }
    ensures { IfOk result (λ taken. IfSome taken (IsTaken ran.setup given.now.steps.now)) }
{
    let mut ran = ran;
    let mut seats = seats;
    let Some(mut seat) = seats.next() else {
        unreachable!();
    };
    match make::<N, R>(rt, alloc, &mut ran, &mut seat, &mut seats, workers, given) {
        Ok(made) => take_later(rt, alloc, gate, ran, seat, made, given),
        Err(error) => {
            let _book = ran.book(rt);
            Err(error)
        }
    }
}

/// The run by workers on a bridge of its own. None where it is given up, or isn't a live run.
fn take_by_workers<R: Threads + Wait + Sync, G: Gate + Sync>(
    rt: &R,
    alloc: Global,
    gate: &G,
    workers: usize,
    domains: &Domains,
    own: Mac,
    steps: &[Step],
) -> Result<Option<Taken>, NoMemory>
    requires workers { (0 < workers) × (workers ≤ 16) }
    requires by_line { list_all (comes_by_line false (chip_domains domains.now)) steps.now ≡ true }
    ensures { IfOk result (λ taken. IfSome taken (IsTaken (record { domains = domains.now; own = own }) steps.now)) }
{
    let chips = chips_of(alloc, domains)?;
    let (plane, seats) = Plane::with_seats(rt, alloc, domains.again(), own, workers + 1)?;
    let given = Given {
        domains,
        chips: chips.as_slice(),
        steps,
    };
    take_named::<Brand, R, G>(
        rt,
        alloc,
        gate,
        Ran::make(alloc, plane),
        seats,
        workers,
        &given,
    )
}

/// Takes a scenario's steps as a live run of a bridge of its own, by so many workers.
///
/// The steps before its first frame are done as they are. Then the workers let its frames enter in the order of each port, and its
/// commands, moments and sweeps in theirs, and hold, look up and post frames side by side; all other steps are skipped. What is accepted
/// is published at once. At the end the rest is done on one thread, and the book is tested. Where it isn't a live run, or a frame
/// couldn't be posted, the steps are taken anew on one thread.
pub fn take_steps<R: Threads + Wait + Sync, G: Gate + Sync>(
    rt: &R,
    alloc: Global,
    gate: &G,
    workers: usize,
    domains: Domains,
    own: Mac,
    steps: &[Step],
) -> Result<Taken, NoMemory>
    requires workers { (0 < workers) × (workers ≤ 16) }
    requires by_line { list_all (comes_by_line false (chip_domains domains)) steps.now ≡ true }
    ensures live { IfOk result (λ t. (sc : Scenario) → setup_of sc.roster ≡ record { domains = domains; own = own } → sc.steps ≡ steps.now
        → is_live_run t.book.steps sc ≡ true) }
    ensures lines { IfOk result (λ t. t.book.lines.lines ≡ (run (record { domains = domains; own = own }) t.book.steps).1) }
    ensures end { IfOk result (λ t. t.end ≡ end_line (run (record { domains = domains; own = own }) t.book.steps).0) }
    ensures by_line { IfOk result (λ t. list_all (comes_by_line true (chip_domains domains)) t.book.steps ≡ true) }
    ensures given { IfOk result (λ t. (sc : Scenario) → setup_of sc.roster ≡ record { domains = domains; own = own } → sc.steps ≡ steps.now
        → (p : StepValue → Bool) → list_all p steps.now ≡ true → list_all (λ s. not (is_taken s) || p s) t.book.steps ≡ true) }
{
    match take_by_workers(rt, alloc, gate, workers, &domains, own, steps)? {
        Some(taken) => Ok(taken),
        None => run_alone(rt, alloc, domains, own, steps),
    }
}
