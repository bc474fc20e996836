//! The workers. They share the locks of the plane, and take what comes next of the scenario.
ghost use Rattle.std.specs.Prelude.{◌≡◌, ◌<◌, ◌≤◌, length, true, false};
ghost use Rattle.std.specs.List.{list_all};
ghost use Rattle.br_model.specs.Table.Domains.{chip_domains, has_chip};
ghost use Rattle.br_model.specs.Text.LineForms.{comes_by_line};

use crate::frames::{hold, look_up, post};
use crate::stop::{Stop, Stops};
use br_model::numbers::Dom;
use br_model::steps::{Event, Step};
use plane_lock::{Chair, Locked, Shared};
use port_workers::{Gate, Task, drive};
use std::alloc::Global;
use std::sync::{Mutex, MutexGuard, Wait};
use std::thread::Threads;
use table_publish::Name;

/// How many steps, frames, reports or turns a worker takes at once, at most, while it has the plane's lock. The kernel takes as many
/// frames of a device at a time (`NAPI_POLL_WEIGHT`).
const MOST_AT_ONCE: usize = 64;

/// How many shares of frames pass between two publications of a worker's own.
const SHARES_A_PUBLICATION: u64 = 16;

/// What a worker keeps from one turn to the next.
#[derive(Drop)]
pub(crate) struct Worker<N: Name> {
    chair: Chair<N>,
    /// How many shares of frames it has posted.
    shares: u64,
}

impl<N: Name> Worker<N> {
    pub(crate) fn new(chair: Chair<N>) -> Worker<N> {
        Worker { chair, shares: 0 }
    }
}

/// The bridge is told the oldest reports of the domain's chip, while one waits, and at most so many as a worker takes at once.
fn report<N: Name, R: Wait>(
    rt: &R,
    alloc: Global,
    core: &mut Locked<N>,
    dom: Dom,
) -> Result<(), Stop>
    requires { has_chip N.board.domains dom ≡ true }
{
    for _ in 0..MOST_AT_ONCE {
        if core.first_report(dom).is_none() {
            break;
        }
        core.report(rt, alloc, dom)?;
    }
    Ok(())
}

/// What the workers share. The steps of the scenario enter one after another, so the frames of each port keep their order, and so do
/// commands, moments and sweeps; what workers do besides comes in any order.
#[derive(Drop)]
struct Work<'a, N: Name, R: Wait, G: Gate> {
    rt: &'a R,
    alloc: Global,
    gate: &'a G,
    shared: &'a Shared<N>,
    workers: &'a [Mutex<Worker<N>>],
    chips: &'a [Dom],
    steps: &'a [Step],
    /// How many of the steps are behind. Whoever lets one enter has this lock meanwhile.
    behind: Mutex<usize>,
    stops: Stops,
    ghost are_some: { 0 < length workers.now },
    ghost have_chips: { chips.now ≡ chip_domains N.board.domains },
    ghost by_line: { list_all (comes_by_line false (chip_domains N.board.domains)) steps.now ≡ true },
}

impl<'a, N: Name, R: Wait, G: Gate> Work<'a, N, R, G> {
    /// Lets the step enter, if it is one that workers take from a scenario.
    fn enter(&self, core: &mut Locked<N>, step: &Step) -> Result<(), Stop>
        requires { comes_by_line false (chip_domains N.board.domains) step.now ≡ true }
    {
        match step {
            Step::Rx { port, bytes } => {
                core.enter(self.alloc, *port, bytes.as_slice())?;
            }
            Step::Cmd(command) => {
                let event = Event::Cmd(*command);
                core.accept(self.rt, self.alloc, &event)?;
            }
            Step::Now(moment) => {
                let event = Event::Moment(*moment);
                core.accept(self.rt, self.alloc, &event)?;
            }
            Step::Sweep(dom) => {
                core.sweep(self.rt, self.alloc, *dom)?;
            }
            Step::Serve
            | Step::Hold
            | Step::Post { .. }
            | Step::Turn(_)
            | Step::Report(_)
            | Step::Publish => {}
        }
        Ok(())
    }

    /// The same of the next steps behind these, up to one that may change a table, so that frames before it are looked up beside it. How
    /// many steps are behind then.
    fn enter_from(&self, core: &mut Locked<N>, behind: usize) -> Result<usize, Stop> {
        let end = behind.saturating_add(MOST_AT_ONCE).min(self.steps.len());
        for place in behind..end {
            let step = &self.steps[place];
            if place > behind && step.is_ordered() {
                return Ok(place);
            }
            self.enter(core, step)?;
        }
        Ok(end)
    }

    /// The next steps of the scenario enter. False when none was left; after a fault none is.
    fn enter_next(&self, behind: &mut usize) -> Result<bool, Stop> {
        if *behind >= self.steps.len() {
            return Ok(false);
        }
        let mut core = self.shared.lock(self.rt);
        let entered = self.enter_from(&mut core, *behind);
        MutexGuard::unlock(core);
        *behind = match entered {
            Ok(next) => next,
            Err(_) => self.steps.len(),
        };
        entered?;
        Ok(true)
    }

    /// The same, where no other worker lets steps enter.
    fn try_to_enter(&self) -> Result<Option<bool>, Stop> {
        let Some(mut behind) = self.behind.try_lock() else {
            return Ok(None);
        };
        let entered = self.enter_next(&mut behind);
        MutexGuard::unlock(behind);
        Ok(Some(entered?))
    }

    /// The same, once no other worker does.
    fn wait_to_enter(&self) -> Result<bool, Stop> {
        let mut behind = self.behind.lock(self.rt);
        let entered = self.enter_next(&mut behind);
        MutexGuard::unlock(behind);
        entered
    }

    /// The worker's share of the frames that wait is held, looked up and posted. No lock is had between the holds and the posts. False
    /// where no frame waited.
    fn post_share(&self, worker: &mut Worker<N>) -> Result<bool, Stop> {
        let chair = &mut worker.chair;
        let mut core = self.shared.lock(self.rt);
        let share = core.waiting().div_ceil(self.workers.len());
        let held = hold(self.alloc, &mut core, chair, share.min(MOST_AT_ONCE));
        MutexGuard::unlock(core);
        let held = held?;
        if held.is_empty() {
            return Ok(false);
        }
        let looked = look_up(self.alloc, self.gate, chair, held)?;
        let mut core = self.shared.lock(self.rt);
        let posted = post(self.rt, self.alloc, &mut core, chair, looked);
        MutexGuard::unlock(core);
        posted?;
        worker.shares = worker.shares.wrapping_add(1);
        if worker.shares % SHARES_A_PUBLICATION == 1 {
            self.shared.publish(self.rt, self.alloc)?;
        }
        Ok(true)
    }

    /// The bridge is told the reports of the chip, and the chip takes the turns that its queue tells of.
    fn serve_chip(&self, dom: Dom) -> Result<(), Stop>
        requires { has_chip N.board.domains dom ≡ true }
    {
        let mut core = self.shared.lock(self.rt);
        let told = report(self.rt, self.alloc, &mut core, dom);
        MutexGuard::unlock(core);
        told?;
        self.shared.turns(self.rt, self.alloc, dom, MOST_AT_ONCE)?;
        Ok(())
    }

    fn serve_chips(&self) -> Result<(), Stop> {
        for dom in self.chips {
            self.serve_chip(*dom)?;
        }
        Ok(())
    }

    /// Some work of each kind. False only where every step had entered, and then no frame waited.
    fn go_on(&self, worker: &mut Worker<N>) -> Result<bool, Stop> {
        let entered = self.try_to_enter()?;
        let posted = self.post_share(worker)?;
        self.serve_chips()?;
        match entered {
            Some(entered) => Ok(entered || posted),
            None if posted => Ok(true),
            None => {
                self.wait_to_enter()?;
                Ok(true)
            }
        }
    }
}

impl<'a, N: Name, R: Wait, G: Gate> Task for Work<'a, N, R, G> {
    ghost finished = { λ _ _. Unit {0} };

    fn turn(&self, worker: usize) -> bool {
        let Some(place) = self.workers.get(worker) else {
            return false;
        };
        if self.stops.get().is_some() {
            return false;
        }
        let mut worker = place.lock(self.rt);
        let goes_on = self.go_on(&mut worker);
        MutexGuard::unlock(worker);
        match goes_on {
            Ok(goes_on) => goes_on,
            Err(stop) => {
                self.stops.set(stop);
                false
            }
        }
    }
}

/// Runs the workers, one for each of these. The answer is why they stopped before all was done, where they did.
pub(crate) fn drive_all<N: Name + Send + Sync, R: Threads + Wait + Sync, G: Gate + Sync>(
    rt: &R,
    alloc: Global,
    gate: &G,
    shared: &Shared<N>,
    workers: &[Mutex<Worker<N>>],
    chips: &[Dom],
    steps: &[Step],
) -> Option<Stop>
    requires workers { (0 < length workers.now) × (length workers.now ≤ 16) }
    requires chips { chips.now ≡ chip_domains N.board.domains }
    requires by_line { list_all (comes_by_line false (chip_domains N.board.domains)) steps.now ≡ true }
{
    let task = Work {
        rt,
        alloc,
        gate,
        shared,
        workers,
        chips,
        steps,
        behind: Mutex::new(0),
        stops: Stops::new(),
    };
    drive(rt, workers.len(), &task);
    task.stops.get()
}
