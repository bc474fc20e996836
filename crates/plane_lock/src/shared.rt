//! The locks.
ghost use Rattle.std.specs.Prelude.{◌≡◌, ◌<◌, ◌≤◌, ◌==◌, ◌⊎◌, [], get_or, length, map, true, IfOk, IfSome};
ghost use Rattle.std.specs.List.{All, list_any};
ghost use Rattle.std.specs.Sync.Mutex.{mutex_guard_value};
ghost use Rattle.br_model.specs.declared.steps.Step.TheVariants as steps;
ghost use Rattle.br_model.specs.Table.Domains.{chip_domains, has_chip};
ghost use Rattle.plane_core.specs.Planes.{IsNamed};
ghost use Rattle.plane_record.specs.Pasts.{event_step};
ghost use Rattle.table_publish.specs.Object.{Begins};
ghost use Rattle.plane_lock.specs.Calls.{ActsOnSome, EntersSome, IsOf, OpensSome, PostsOnSome, SaidBySome};
ghost use Rattle.plane_lock.specs.Posted.{updates_of};
ghost use Rattle.plane_lock.specs.Posts.{IsSeen};

use crate::NoMemory;
use crate::chair::Chair;
use crate::desk::Desk;
use crate::locked::{ActFault, Locked};
use crate::queues::{Driver, Queues};
use br_model::numbers::{Dom, Port};
use br_model::steps::Event;
use plane_core::{Entered, Held, PostFault};
use plane_record::Ran;
use std::alloc::Global;
use std::sync::{Mutex, MutexGuard, Wait};
use table_publish::{Name, Seen};
use transcript_lines::Lines;

/// The plane behind its lock, and a driver lock for each domain that has a chip, which is always taken first. It isn't `Drop`: end the
/// run that `close` gives.
///
/// Each call makes the call of its name of what the lock keeps, once it has the lock. Which past that is, its caller doesn't know, but
/// for the board, the domains and the address, which are N's.
pub struct Shared<N: Name> {
    core: Mutex<Locked<N>>,
    drivers: Vec<Driver>,
    ghost doms: { map (λ d. d.dom) drivers.items ≡ chip_domains N.board.domains },
}

/// Where the driver of the domain stands.
fn place_of(drivers: &[Driver], d: Dom) -> usize
    requires { list_any (λ k. k == d) (map (λ d. d.dom) drivers.now) ≡ true }
    ensures within { result < length drivers.now }
    ensures own { get_or (map (λ x. x.dom) drivers.now) result 0 ≡ d }
{
    for place in 0..drivers.len() {
        if drivers[place].dom == d {
            return place;
        }
    }
    unreachable!()
}

/// The chip of the domain applies the updates that the desk gives, at most so many.
fn apply_next<N: Name, R: Wait>(
    rt: &R,
    alloc: Global,
    desk: &mut Desk,
    core: &mut Locked<N>,
    d: Dom,
    most: usize,
) -> Result<(), NoMemory>
    requires { has_chip N.board.domains d ≡ true }
{
    for _ in 0..most {
        let Some(update) = desk.next(rt) else {
            break;
        };
        core.turn(alloc, d, update)?;
        desk.done(core.applied(d));
    }
    Ok(())
}

impl<N: Name> Shared<N> {
    /// The run behind the lock. Its queues are those of the domains that have a chip, ascending, and each has been posted the updates
    /// of the run. After want of memory the run and the queues are ended.
    pub fn make<R: Wait>(
        rt: &R,
        alloc: Global,
        ran: Ran,
        queues: Queues,
    ) -> Result<Shared<N>, NoMemory>
        requires board { ran.board ≡ N.board }
        requires setup { ran.setup ≡ record { domains = N.board.domains; own = N.own } }
        requires doms { map (λ x. x.dom) queues ≡ chip_domains N.board.domains }
        requires posted { All (λ x. x.poster.posted ≡ updates_of ran) queues }
    {
        match queues.split(alloc) {
            Ok((posters, drivers)) => Ok(Shared {
                core: Mutex::new(Locked::new(ran, posters)),
                drivers,
            }),
            Err(error) => {
                let _book = ran.book(rt);
                Err(error)
            }
        }
    }

    /// What the lock keeps, for calls between which no other worker's come.
    pub fn lock<'a, R: Wait>(&'a self, rt: &R) -> MutexGuard<'a, Locked<N>>
        ensures { IsOf N.board N.own (mutex_guard_value result) }
    {
        let core = self.core.lock(rt);
        // law: what is kept is of N's board
        core.stands();
        core
    }

    /// A frame of these bytes enters at the port. The answer is the chip's, where it decided the frame.
    pub fn enter<R: Wait>(
        &self,
        rt: &R,
        alloc: Global,
        p: Port,
        b: &[u8],
    ) -> Result<Entered, NoMemory>
        ensures { IfOk result (EntersSome N.board N.own p b.now) }
    {
        let mut core = self.lock(rt);
        let entered = core.enter(alloc, p, b);
        MutexGuard::unlock(core);
        entered
    }

    /// An event that a scenario names.
    pub fn accept<R: Wait>(&self, rt: &R, alloc: Global, e: &Event) -> Result<Lines, ActFault>
        requires { IsNamed e.now }
        ensures { ActsOnSome N.board N.own (event_step e.now) result }
    {
        let mut core = self.lock(rt);
        let done = core.accept(rt, alloc, e);
        MutexGuard::unlock(core);
        done
    }

    /// The chip of the domain applies the next deferred change, once the queue has told of one. No lines, and no step, where no update
    /// was kept from an earlier turn and the queue was empty at its take.
    pub fn turn<R: Wait>(&self, rt: &R, alloc: Global, d: Dom) -> Result<Lines, NoMemory>
        requires { has_chip N.board.domains d ≡ true }
        ensures { IfOk result (λ lines. (lines.lines ≡ []) ⊎ SaidBySome N.board N.own (steps.Turn d) lines.lines) }
    {
        let driver = &self.drivers[place_of(&self.drivers, d)];
        let mut desk = driver.desk.lock(rt);
        let Some(update) = desk.next(rt) else {
            return Ok(Lines::new(alloc));
        };
        let mut core = self.lock(rt);
        let turned = core.turn(alloc, d, update);
        let applied = core.applied(d);
        MutexGuard::unlock(core);
        desk.done(applied);
        turned
    }

    /// The same of updates one after another, at most so many, without the plane's lock where the queue tells of none. Nothing where
    /// another call has the driver's lock.
    pub fn turns<R: Wait>(
        &self,
        rt: &R,
        alloc: Global,
        dom: Dom,
        most: usize,
    ) -> Result<(), NoMemory>
        requires { has_chip N.board.domains dom ≡ true }
    {
        let driver = &self.drivers[place_of(&self.drivers, dom)];
        let Some(mut desk) = driver.desk.try_lock() else {
            return Ok(());
        };
        if desk.next(rt).is_none() {
            return Ok(());
        }
        let mut core = self.lock(rt);
        let done = apply_next(rt, alloc, &mut desk, &mut core, dom, most);
        MutexGuard::unlock(core);
        done
    }

    /// The bridge is told the oldest report of the domain's chip.
    pub fn report<R: Wait>(&self, rt: &R, alloc: Global, d: Dom) -> Result<Lines, ActFault>
        requires { has_chip N.board.domains d ≡ true }
        ensures { ActsOnSome N.board N.own (steps.Report d) result }
    {
        let mut core = self.lock(rt);
        let done = core.report(rt, alloc, d);
        MutexGuard::unlock(core);
        done
    }

    /// The bridge forgets the stations that the chip of the domain no longer sees.
    pub fn sweep<R: Wait>(&self, rt: &R, alloc: Global, d: Dom) -> Result<Lines, ActFault>
        requires { has_chip N.board.domains d ≡ true }
        ensures { ActsOnSome N.board N.own (steps.Sweep d) result }
    {
        let mut core = self.lock(rt);
        let done = core.sweep(rt, alloc, d);
        MutexGuard::unlock(core);
        done
    }

    /// All accepted changes are published.
    pub fn publish<R: Wait>(&self, rt: &R, alloc: Global) -> Result<Lines, NoMemory>
        ensures { IfOk result (λ lines. SaidBySome N.board N.own steps.Publish lines.lines) }
    {
        let mut core = self.lock(rt);
        let done = core.publish(rt, alloc);
        MutexGuard::unlock(core);
        done
    }

    /// The oldest frame that waits is held, and the chair is told of all that is published. No step where no frame waits.
    pub fn open_as<R: Wait>(
        &self,
        rt: &R,
        alloc: Global,
        c: &mut Chair<N>,
    ) -> Result<Option<Held>, NoMemory>
        ensures kept { Begins c.new.object c.old.object }
        ensures misses { c.new.misses ≡ c.old.misses }
        ensures held { IfOk result (OpensSome N.board N.own c.new.object) }
        ensures floor { IfOk result (λ held. IfSome held (λ h. h.floor ≤ length c.new.object.changes)) }
    {
        let mut core = self.lock(rt);
        let held = core.open_as(alloc, c);
        MutexGuard::unlock(core);
        held
    }

    /// A held frame is posted by a decision that the chair looked up.
    pub fn post_as<R: Wait>(
        &self,
        rt: &R,
        alloc: Global,
        c: &mut Chair<N>,
        h: Held,
        n: Seen,
    ) -> Result<Lines, PostFault>
        requires { IsSeen N.board.domains c.old.object h n }
        ensures posted { PostsOnSome N.board N.own h n c.new.object result }
        ensures kept { Begins c.new.object c.old.object }
        ensures misses { c.new.misses ≡ c.old.misses }
    {
        let mut core = self.lock(rt);
        let done = core.post_as(rt, alloc, c, h, n);
        MutexGuard::unlock(core);
        done
    }

    /// The run, once no call is under way.
    pub fn close(self) -> Ran
        ensures board { result.board ≡ N.board }
        ensures setup { result.setup ≡ record { domains = N.board.domains; own = N.own } }
    {
        let Shared { core, drivers: _ } = self;
        core.into_inner().into_ran()
    }
}
