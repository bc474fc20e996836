//! What the plane lock keeps, and the calls that are made under it.
ghost use Rattle.std.specs.Prelude.{◌≡◌, ◌≢◌, ◌≤◌, length, true, List, IfOk, IfErr, IfSome, OnErr, OnOk, Some};
ghost use Rattle.std.specs.List.{slice_get};
ghost use Rattle.std.specs.Option.{option_map};
ghost use mathlib.Core.List.{IsPrefix};
ghost use Rattle.br_model.specs.declared.change.Change.{Change as ChangeValue};
ghost use Rattle.br_model.specs.declared.change.Update.{Update as UpdateValue};
ghost use Rattle.br_model.specs.declared.steps.Step.TheVariants.{Publish, Report, Rx, Sweep, Turn};
ghost use Rattle.br_model.specs.Plane.Serving.{held_with};
ghost use Rattle.br_model.specs.Plane.World.{chip_at};
ghost use Rattle.br_model.specs.Table.Change.{updates};
ghost use Rattle.br_model.specs.Table.Domains.{chip_domains, has_chip};
ghost use Rattle.br_model.specs.Wire.Frames.{frame as frame_of};
ghost use Rattle.plane_core.specs.Planes.{IsDecidedBy, IsNamed, published_in};
ghost use Rattle.plane_core.specs.Shown.{opened, shown_by};
ghost use Rattle.table_publish.specs.Object.{Begins};
ghost use Rattle.plane_record.specs.Pasts.{acted, after, changes_of, event_step, held_after, post_step, published_after, said_by, world_of};
ghost use Rattle.plane_lock.specs.declared.locked.ActFault.TheVariants as act_faults;
ghost use Rattle.plane_lock.specs.Acts.{Acted, PostFails};
ghost use Rattle.plane_lock.specs.Calls.{IsOf};
ghost use Rattle.plane_lock.specs.Posted.{HavePosted, updates_of};
ghost use Rattle.plane_lock.specs.Posts.{IsSeen, IsTheHeld, Tells};

use crate::NoMemory;
use crate::chair::Chair;
use br_model::change::Update;
use br_model::limits::MOST_CHANGES;
use br_model::numbers::{Dom, Port};
use br_model::steps::Event;
use deferred_queue::Poster;
use learn_report::Report;
use plane_core::{Entered, Held, Plane, PostFault};
use plane_record::Ran;
use std::alloc::{AllocError, Global};
use std::marker::{Model, PhantomData};
use std::sync::Wait;
use table_publish::{Name, Seen};
use transcript_lines::Lines;

/// Why an event came to nothing, or its publication.
#[derive(Drop)]
pub enum ActFault {
    /// All is as before.
    NoMemory,
    /// The event stands and wrote these lines, and what it changed isn't published.
    Unpublished(Lines),
}

impl From<AllocError> for ActFault {
    ghost from_gives = { λ _ fault. fault ≡ act_faults.NoMemory };

    fn from(_: AllocError) -> ActFault {
        ActFault::NoMemory
    }
}

/// The run behind the lock, and the ends that post its updates, one for each domain that has a chip. Contracts see the run. It has N's
/// board, domains and address, and each end has posted just the updates of the accepted changes. It isn't `Drop`: end the run that `into_ran` gives.
pub struct Locked<N: Name> {
    ran: Ran,
    posters: Vec<Poster>,
    of: PhantomData<N>,
}

impl<N: Name> Model for Locked<N> {
    ghost use Rattle.std.specs.Prelude.{◌≡◌, length};
    ghost use Rattle.br_model.specs.Table.Domains.{chip_domains};
    ghost use Rattle.plane_record.specs.Pasts.{Past};
    ghost use Rattle.plane_lock.specs.Posted.{HavePosted, updates_of};

    ghost Value = { Past };

    ghost view = { λ l. l.ran };

    ghost invariant = { λ l. (l.ran.board ≡ N.board)
        × (l.ran.setup ≡ record { domains = N.board.domains; own = N.own }) × HavePosted (updates_of l.ran) l.posters.items
        × (length l.posters.items ≡ length (chip_domains N.board.domains)) };
}

/// Posts the updates that the plane has and the end hasn't posted.
pub fn post_updates<R: Wait>(rt: &R, poster: &mut Poster, plane: &Plane)
    requires { IsPrefix poster.old.posted (updates plane.now.world.setup.domains.edition plane.now.world.history) }
    ensures { poster.new ≡ record poster.old { posted = updates plane.now.world.setup.domains.edition plane.now.world.history } }
{
    // law: the history is within its limit
    plane.stands();
    for ticket in poster.posted()..MOST_CHANGES as u32 {
        match plane.update(ticket) {
            Some(update) => poster.post(rt, update),
            None => return,
        }
    }
}

/// The same for each end.
fn post_all<R: Wait>(rt: &R, posters: &mut Vec<Poster>, plane: &Plane)
    requires { (us : List UpdateValue) × HavePosted us posters.old.items × IsPrefix us (updates plane.now.world.setup.domains.edition plane.now.world.history) }
    ensures posted { HavePosted (updates plane.now.world.setup.domains.edition plane.now.world.history) posters.new.items }
    ensures ends { length posters.new.items ≡ length posters.old.items }
{
    for place in 0..posters.len() {
        post_updates(rt, &mut posters[place], plane);
    }
}

/// What a step that wrote these lines accepted behind so many changes is posted, and then published.
fn settle<R: Wait>(
    rt: &R,
    alloc: Global,
    ran: &mut Ran,
    posters: &mut Vec<Poster>,
    changes: usize,
    lines: Lines,
) -> Result<Lines, ActFault>
    requires { (h : List ChangeValue)
        × HavePosted (updates ran.old.setup.domains.edition h) posters.old.items × (changes ≡ length h) × IsPrefix h (world_of ran.old).history }
    ensures posted { HavePosted (updates_of ran.new) posters.new.items }
    ensures ends { length posters.new.items ≡ length posters.old.items }
    ensures done { OnOk result (ran.new ≡ published_after changes ran.old) }
    ensures said { IfOk result (λ said. said ≡ lines) }
    ensures undone { IfErr result (λ fault. (fault ≡ act_faults.Unpublished lines) × (ran.new ≡ ran.old) × (changes_of ran.old ≢ changes)) }
{
    if ran.plane().history().len() == changes {
        return Ok(lines);
    }
    post_all(rt, posters, ran.plane());
    match ran.record_publish(rt, alloc) {
        Ok(()) => Ok(lines),
        Err(_) => Err(ActFault::Unpublished(lines)),
    }
}

impl<N: Name> Locked<N> {
    pub fn new(ran: Ran, posters: Vec<Poster>) -> Locked<N>
        requires board { ran.board ≡ N.board }
        requires setup { ran.setup ≡ record { domains = N.board.domains; own = N.own } }
        requires posted { HavePosted (updates_of ran) posters.items }
        requires ends { length posters.items ≡ length (chip_domains N.board.domains) }
        ensures { result ≡ ran }
    {
        Locked {
            ran,
            posters,
            of: PhantomData,
        }
    }

    /// A frame of these bytes enters at the port. The answer is the chip's, where it decided the frame.
    pub fn enter(&mut self, alloc: Global, p: Port, b: &[u8]) -> Result<Entered, NoMemory>
        ensures ok { OnOk result (self.new ≡ after self.old (Rx p b.now)) }
        ensures lines { IfOk result (λ e. e.lines.lines ≡ said_by self.old (Rx p b.now)) }
        ensures pass { IfOk result (λ e. IsDecidedBy (world_of self.old) p b.now (frame_of b.now) e.pass) }
        ensures err { OnErr result (self.new ≡ self.old) }
    {
        self.ran.enter(alloc, p, b)
    }

    /// All accepted changes are published.
    pub fn publish<R: Wait>(&mut self, rt: &R, alloc: Global) -> Result<Lines, NoMemory>
        ensures ok { OnOk result (self.new ≡ after self.old Publish) }
        ensures lines { IfOk result (λ lines. lines.lines ≡ said_by self.old Publish) }
        ensures err { OnErr result (self.new ≡ self.old) }
    {
        self.ran.publish(rt, alloc)
    }

    /// An event that a scenario names. What it changes is posted and published.
    pub fn accept<R: Wait>(&mut self, rt: &R, alloc: Global, e: &Event) -> Result<Lines, ActFault>
        requires { IsNamed e.now }
        ensures { Acted self.old self.new (event_step e.now) result }
    {
        let changes = self.ran.plane().history().len();
        let lines = self.ran.accept(alloc, e)?;
        settle(rt, alloc, &mut self.ran, &mut self.posters, changes, lines)
    }

    /// The bridge is told the oldest report of the domain's chip. What that changes is posted and published.
    pub fn report<R: Wait>(&mut self, rt: &R, alloc: Global, d: Dom) -> Result<Lines, ActFault>
        requires { has_chip N.board.domains d ≡ true }
        ensures { Acted self.old self.new (Report d) result }
    {
        let changes = self.ran.plane().history().len();
        let lines = self.ran.report(alloc, d)?;
        settle(rt, alloc, &mut self.ran, &mut self.posters, changes, lines)
    }

    /// The bridge forgets the stations that the chip of the domain no longer sees. What that changes is posted and published.
    pub fn sweep<R: Wait>(&mut self, rt: &R, alloc: Global, d: Dom) -> Result<Lines, ActFault>
        requires { has_chip N.board.domains d ≡ true }
        ensures { Acted self.old self.new (Sweep d) result }
    {
        let changes = self.ran.plane().history().len();
        let lines = self.ran.sweep(alloc, d)?;
        settle(rt, alloc, &mut self.ran, &mut self.posters, changes, lines)
    }

    /// The chip of the domain applies the next deferred change, which the history names: an update that came late or twice asks for no
    /// other one.
    pub fn turn(&mut self, alloc: Global, d: Dom, _u: Update) -> Result<Lines, NoMemory>
        requires { has_chip N.board.domains d ≡ true }
        ensures ok { OnOk result (self.new ≡ after self.old (Turn d)) }
        ensures lines { IfOk result (λ lines. lines.lines ≡ said_by self.old (Turn d)) }
        ensures err { OnErr result (self.new ≡ self.old) }
    {
        self.ran.turn_next(alloc, d)
    }

    /// How many frames wait.
    pub fn waiting(&self) -> usize
        ensures { result ≡ length (world_of self.now).waiting }
    {
        self.ran.plane().waiting()
    }

    /// How many deferred changes the chip of the domain has applied.
    pub fn applied(&self, d: Dom) -> u32
        requires { has_chip N.board.domains d ≡ true }
        ensures { option_map (λ c. c.count) (chip_at (world_of self.now) d) ≡ Some result }
    {
        self.ran.plane().applied(d)
    }

    /// The oldest report of the domain's chip, which stays.
    pub fn first_report(&self, dom: Dom) -> Option<Report>
        requires { has_chip N.board.domains dom ≡ true }
        ensures { option_map (λ c. slice_get c.reports 0) (chip_at (world_of self.now) dom) ≡ Some result }
    {
        self.ran.plane().first_report(dom)
    }

    /// The chair is told what is published, and the oldest frame that waits is held, with that as its floor: the chair's next point
    /// isn't below it. There is no step where no frame waits.
    pub fn open_as(&mut self, alloc: Global, c: &mut Chair<N>) -> Result<Option<Held>, NoMemory>
        ensures ok { OnOk result (self.new ≡ held_after self.old (world_of self.old).waiting) }
        ensures held { IfOk result (λ held. option_map shown_by held ≡ opened (world_of self.old).published (world_of self.old).waiting) }
        ensures floor { IfOk result (λ held. IfSome held (λ h. h.floor ≤ length c.new.object.changes)) }
        ensures err { OnErr result (self.new ≡ self.old) }
        ensures kept { Begins c.new.object c.old.object }
        ensures told { Begins c.new.object (published_in (world_of self.old)) }
        ensures misses { c.new.misses ≡ c.old.misses }
    {
        self.ran.tell(&mut c.seat);
        if self.ran.plane().waiting() == 0 {
            return Ok(None);
        }
        self.ran.open_frame(alloc)
    }

    /// A frame is posted by a decision that the chair looked up. What its reaction changes is posted and published. The chair is told
    /// what is published, before and after.
    pub fn post_as<R: Wait>(
        &mut self,
        rt: &R,
        alloc: Global,
        c: &mut Chair<N>,
        h: Held,
        n: Seen,
    ) -> Result<Lines, PostFault>
        requires { IsSeen N.board.domains c.old.object h n }
        ensures ok { OnOk result (self.new ≡ acted self.old (post_step (held_with (world_of self.old) h.id) h.id n.point)) }
        ensures said { IfOk result (λ lines. lines.lines ≡ said_by self.old (post_step (held_with (world_of self.old) h.id) h.id n.point)) }
        ensures lines { IfOk result (λ lines. Tells (world_of self.old) (held_with (world_of self.old) h.id) h n.point lines.lines) }
        ensures held { OnOk result (IsTheHeld (world_of self.old) h n.point) }
        ensures err { IfErr result (PostFails self.old self.new (post_step (held_with (world_of self.old) h.id) h.id n.point) h n) }
        ensures kept { Begins c.new.object c.old.object }
        ensures told_before { Begins c.new.object (published_in (world_of self.old)) }
        ensures told { OnOk result (Begins c.new.object (published_in (world_of self.new))) }
        ensures misses { c.new.misses ≡ c.old.misses }
    {
        let changes = self.ran.plane().history().len();
        self.ran.tell(&mut c.seat);
        let lines = self.ran.post(alloc, h, n)?;
        match settle(rt, alloc, &mut self.ran, &mut self.posters, changes, lines) {
            Ok(lines) => {
                self.ran.tell(&mut c.seat);
                Ok(lines)
            }
            Err(ActFault::Unpublished(lines)) => Err(PostFault::Unpublished(lines)),
            Err(ActFault::NoMemory) => unreachable!(),
        }
    }

    /// The run is of N's board, domains and address: the law does nothing.
    pub fn stands(&self)
        ensures { IsOf N.board N.own self.now }
    {
        let _ran = &self.ran;
    }

    /// The run.
    pub fn into_ran(self) -> Ran
        ensures run { result ≡ self }
        ensures board { result.board ≡ N.board }
        ensures setup { result.setup ≡ record { domains = N.board.domains; own = N.own } }
    {
        let Locked {
            ran,
            posters: _,
            of: _,
        } = self;
        ran
    }
}
