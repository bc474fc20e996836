//! The two ends of the queue.
ghost use Rattle.std.specs.Prelude.{◌≡◌, ◌<◌, ◌≤◌, [], ◌∷◌, ◌++◌, length, drop, None, IfOk, IfSome, IfNone};
ghost use Rattle.std.specs.Arc.{arc_value};
ghost use Rattle.crossbeam_queue.specs.Passes.{view as knows, IsPassOf, ruled_capacity};
ghost use Rattle.deferred_queue.specs.Ends.{IsNext, Posting, Taking};
ghost use Rattle.br_model.specs.declared.limits.TheConstants.{MOST_CHANGES};
ghost use Rattle.deferred_queue.specs.Rule.{posting, taking};
ghost use Rattle.deferred_queue.specs.Tally.{counting, looking, posts_in, looks_in, KnownBut, Looked, Watches};

use crate::NoMemory;
use crate::rule::{Both, Line, Mark, Posted, Taken, Total, TwoEnds, Whole};
use crate::tally::{Tally, Watch};
use br_model::change::Update;
use br_model::limits::MOST_CHANGES as MOST_UPDATES;
use br_model::parcel::Parcel;
use std::alloc::Global;
use std::marker::Model;
use std::sync::{Arc, Wait};

/// The updates, and how many were posted.
#[derive(Drop)]
pub(crate) struct Queue {
    line: Line,
    tally: Tally,
}

/// The posting end. Contracts see which queue it is of, and all that was posted.
#[derive(Drop)]
pub struct Poster {
    queue: Arc<Queue, Global>,
    mark: Mark,
    watch: Watch,
    count: u32,
}

impl Model for Poster {
    ghost Value = { Posting };

    ghost view = { λ p. record { queue = (p.mark.table_id, p.watch.table_id); posted = (knows p.mark).posted } };

    ghost invariant = { λ p. IsPassOf (arc_value p.queue).line p.mark × (knows p.mark ≡ posting (knows p.mark).posted)
        × (ruled_capacity (arc_value p.queue).line ≡ MOST_CHANGES)
        × Watches p.watch (arc_value p.queue).tally.table.shared.table_id (counting p.watch.me.0.counted)
        × (posts_in p.watch.me.0.counted ≡ length (knows p.mark).posted) × (p.count ≡ length (knows p.mark).posted) };
}

/// The taking end. Contracts see which queue it is of, all that was taken, what is known to come next, and what had happened when
/// it last found nothing or was told.
#[derive(Drop)]
pub struct Taker {
    queue: Arc<Queue, Global>,
    mark: Mark,
    watch: Watch,
    count: u64,
}

impl Model for Taker {
    ghost Value = { Taking };

    ghost view = { λ t. record {
      queue = (t.mark.table_id, t.watch.table_id);
      taken = (knows t.mark).taken;
      ahead = (knows t.mark).ahead;
      past = t.watch.me.0.looked;
    } };

    ghost invariant = { λ t. IsPassOf (arc_value t.queue).line t.mark × (knows t.mark ≡ taking (knows t.mark).taken (knows t.mark).ahead)
        × Watches t.watch (arc_value t.queue).tally.table.shared.table_id (looking t.watch.me.0.looked) × (t.count ≡ length (knows t.mark).taken) };
}

/// The two ends of a queue that has room for as many updates as a run can have: one for each of its changes.
pub fn make(alloc: Global) -> Result<(Poster, Taker), NoMemory>
    ensures one_queue { IfOk result (λ ends. ends.0.queue ≡ ends.1.queue) }
    ensures empty { IfOk result (λ ends. (ends.0.posted ≡ []) × (ends.1.taken ≡ []) × (ends.1.ahead ≡ []) × (ends.1.past ≡ [])) }
{
    let (line, mut mark) = Line::ruled(alloc, MOST_UPDATES)?;
    let theirs = line.another::<TwoEnds>(&mut mark);
    let (tally, watch, their_watch) = Tally::make(alloc)?;
    let queue = Arc::new(alloc, Queue { line, tally })?;
    let taker = Taker {
        queue: Arc::try_clone(&queue)?,
        mark: theirs,
        watch: their_watch,
        count: 0,
    };
    let poster = Poster {
        queue,
        mark,
        watch,
        count: 0,
    };
    Ok((poster, taker))
}

impl Poster {
    /// Posts an update, for which there is room. It takes no memory.
    pub fn post<R: Wait>(&mut self, rt: &R, update: Update)
        requires ticket { update.ticket ≡ length self.old.posted }
        requires room { length self.old.posted < MOST_CHANGES }
        ensures { self.new ≡ record self.old { posted = self.old.posted ++ update ∷ [] } }
    {
        let queue: &Queue = &self.queue;
        let parcel = Parcel::of(update);
        match queue.line.push_as::<Posted, R>(rt, &mut self.mark, parcel) {
            Ok(()) => {}
            Err(_) => unreachable!(),
        }
        self.count += 1;
        queue.tally.count(&mut self.watch, u64::from(self.count));
    }

    /// How many updates were posted, which is the ticket of the next one.
    pub fn posted(&self) -> u32
        ensures { result ≡ length self.now.posted }
    {
        self.count
    }

    /// Tells the taker of this queue all that was posted: what was taken, followed by what lies ahead of the taker, is just that. The
    /// taker's past has just these posts then, and a `take` that answers `None` looks behind them: so they had all been taken.
    pub fn tell(&mut self, taker: &mut Taker)
        requires { taker.old.queue ≡ self.old.queue }
        ensures poster { self.new ≡ self.old }
        ensures taker { taker.new ≡ record taker.old { ahead = taker.new.ahead; past = taker.new.past } }
        ensures ahead { self.old.posted ≡ taker.old.taken ++ taker.new.ahead }
        ensures past { KnownBut looks_in taker.old.past taker.new.past × (posts_in taker.new.past ≡ length self.old.posted) }
    {
        let queue: &Queue = &self.queue;
        queue.tally.tell(&mut self.watch, &mut taker.watch);
        let line = &queue.line;
        let theirs = line.another::<Whole>(&mut taker.mark);
        line.absorb::<Both>(&mut self.mark, theirs);
        line.learn_as::<Total>(&mut self.mark);
        taker.mark = line.another::<TwoEnds>(&mut self.mark);
    }
}

impl Taker {
    /// The oldest update that wasn't taken, whose ticket is how many were. `None` only where, at one step of the call, all that had
    /// been posted had been taken.
    pub fn take<R: Wait>(&mut self, rt: &R) -> Option<Update>
        ensures ticket { IfSome result (λ u. u.ticket ≡ length self.old.taken) }
        ensures next { IfSome result (IsNext self.old.ahead) }
        ensures taken { IfSome result (λ u. self.new ≡ record self.old { taken = self.old.taken ++ u ∷ []; ahead = drop 1 self.old.ahead }) }
        ensures empty { IfNone result ((self.old.ahead ≡ []) × (self.new ≡ record self.old { past = self.new.past })) }
        ensures looked { IfNone result (Looked self.old.past self.new.past × (posts_in self.new.past ≤ length self.old.taken)) }
    {
        for _ in rt.forever() {
            if let Some(answer) = self.look(rt) {
                return answer;
            }
        }
        unreachable!()
    }

    /// The answer of `take`. None where an update was posted after the queue was found empty.
    fn look<R: Wait>(&mut self, rt: &R) -> Option<Option<Update>>
        ensures again { IfNone result (self.new ≡ self.old) }
        ensures ticket { IfSome result (λ answer. IfSome answer (λ u. u.ticket ≡ length self.old.taken)) }
        ensures next { IfSome result (λ answer. IfSome answer (IsNext self.old.ahead)) }
        ensures taken { IfSome result (λ answer. IfSome answer (λ u.
            self.new ≡ record self.old { taken = self.old.taken ++ u ∷ []; ahead = drop 1 self.old.ahead })) }
        ensures empty { IfSome result (λ answer. IfNone answer ((self.old.ahead ≡ []) × (self.new ≡ record self.old { past = self.new.past }))) }
        ensures looked { IfSome result (λ answer. IfNone answer (Looked self.old.past self.new.past × (posts_in self.new.past ≤ length self.old.taken))) }
    {
        let queue: &Queue = &self.queue;
        if let Some(parcel) = queue.line.pop_as::<Taken, R>(rt, &mut self.mark) {
            let update = parcel.update();
            self.count = u64::from(update.ticket) + 1;
            return Some(Some(update));
        }
        if queue.tally.is_at_most(&mut self.watch, self.count) {
            Some(None)
        } else {
            None
        }
    }
}
