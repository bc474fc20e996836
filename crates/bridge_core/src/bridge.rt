//! The control plane: the accepted changes, and the reaction to an event.
ghost use Rattle.std.specs.Prelude.{◌≡◌, ◌≤◌, ◌<◌, ◌+◌, ◌^◌, ◌++◌, ◌∷◌, [], List, length, drop, option_map, true, false, None, Some, Ok, IfOk, OnOk, OnErr, IfSome, IsSome, vec_len, vec_capacity};
ghost use Rattle.std.specs.List.{list_all};
ghost use Rattle.br_model.specs.Control.Control.{first_control};
ghost use Rattle.br_model.specs.Control.Course.{makes_all};
ghost use Rattle.br_model.specs.Control.Learning.{reported};
ghost use Rattle.br_model.specs.Control.Reaction.{learns, learns_of, react as reaction, sees};
ghost use Rattle.br_model.specs.Control.Snooping.{fastleave};
ghost use Rattle.br_model.specs.Control.TreeReaction.{heard};
ghost use Rattle.br_model.specs.Data.Maps.{get, pair_cmp};
ghost use Rattle.br_model.specs.Forward.Targets.{has_flag};
ghost use Rattle.br_model.specs.Table.Change.{is_of_address};
ghost use Rattle.br_model.specs.Table.Limits.{AreWithin, all_fit};
ghost use Rattle.br_model.specs.Table.Table.{table};
ghost use Rattle.br_model.specs.Wire.Frames.{frame};
ghost use Rattle.br_model.specs.Wire.Messages.{RecordsStand, message as message_in};
ghost use Rattle.br_model.specs.declared.transcript.Line.{Line};
ghost use Rattle.br_model.specs.declared.steps.Command.TheVariants as Command;
ghost use Rattle.br_model.specs.declared.steps.Event.TheVariants as Event;
ghost use Rattle.br_model.specs.declared.steps.Event.TheVariants.{Cmd, Forget, Moment, Sight};
ghost use Rattle.bridge_core.specs.Answers.{CarriesOut, CarriesQuietly, HasRoomFor, IsEvent, LacksRoomFor, Makes, PlansOf, Reacts, carried_out, comes_to, ctl_of, standing};
ghost use Rattle.bridge_state.specs.Hearing.{most, says};
ghost use Rattle.bridge_state.specs.Plans.{IsSound, renewed_at};
ghost use Rattle.bridge_state.specs.Standing.{clocked};
ghost use Rattle.fdb_core.specs.Fdb.{place};

use br_model::NoMemory;
use br_model::change::{Change, Flags, Kind};
use br_model::domains::Domains;
use br_model::frame::{Head, McastMsg};
use br_model::limits::MOST_CHANGES;
use br_model::numbers::{Mac, Port, Vid};
use br_model::steps::{Command, Event, Refusal, Triples};
use br_model::tree::TreeEvent;
use bridge_state::EventFault;
use bridge_state::ageing::{loses, passes_to};
use bridge_state::commands::{link_change, obey};
use bridge_state::learning::{Lesson, is_taken, learn, taught, teaches};
use bridge_state::plan::Plan;
use bridge_state::snooping::{Speaker, most_changes, who_speaks};
use bridge_state::spanning_tree::{add_frames, add_states, heard, reserve_frames};
use bridge_state::state::{Clock, State};
use fdb_core::{Entry, Key};
use igmp_mld::classify;
use std::alloc::Global;
use std::marker::Model;
use transcript_lines::Lines;

/// What an event came to: the changes of the history from the place `from` on, and the control frames that leave.
#[derive(Drop)]
pub struct Reaction {
    pub from: usize,
    pub ctl: Lines,
}

/// The accepted changes with their table, and what was said before them.
#[derive(Drop)]
pub struct Bridge {
    domains: Domains,
    own: Mac,
    history: Vec<Change>,
    state: State,
}

impl Model for Bridge {
    ghost use Rattle.bridge_core.specs.Kept.{Controlled};

    ghost Value = { Controlled };

    ghost use Rattle.std.specs.Prelude.{◌≡◌, ◌≤◌, ◌<◌, ◌^◌, IsTrue, length};
    ghost use Rattle.br_model.specs.Control.Course.{from};
    ghost use Rattle.br_model.specs.Theorems.EndsTied.{IsTied};
    ghost use Rattle.br_model.specs.Table.Limits.{most_changes, all_fit};
    ghost use Rattle.br_model.specs.Table.Table.{table, start};
    ghost use Rattle.bridge_state.specs.Standing.{table_of, control_of};

    ghost view = { λ b. record { setup = record { domains = b.domains; own = b.own }; history = b.history.items; control = control_of b.state } };

    ghost invariant = { λ b. (table_of b.state ≡ table b.history.items) × (length b.history.items ≤ most_changes)
        × IsTrue (all_fit start b.history.items) × (b.state.clock.now < 2 ^ 53) × IsTied (table_of b.state) b.state.groups };
}

/// Appends the changes, and takes the room for them. Where there are none, it does nothing.
#[inline(always)]
fn extend(history: &mut Vec<Change>, changes: &[Change]) -> Result<(), NoMemory>
    ensures ok { OnOk result (history.new.items ≡ history.old.items ++ changes.now) }
    ensures err { OnErr result (history.new.items ≡ history.old.items) }
    ensures capacity { vec_capacity history.old ≤ vec_capacity history.new }
    ensures full { OnErr result (vec_capacity history.old < vec_len history.old + length changes.now) }
{
    if changes.is_empty() {
        return Ok(());
    }
    history.extend_from_slice(changes)?;
    Ok(())
}

/// Appends the changes within the room that is there.
fn append(history: &mut Vec<Change>, changes: &[Change])
    requires { vec_len history.old + length changes.now ≤ vec_capacity history.old }
    ensures items { history.new.items ≡ history.old.items ++ changes.now }
    ensures len { vec_len history.new ≡ vec_len history.old + length changes.now }
    ensures capacity { vec_capacity history.old ≤ vec_capacity history.new }
{
    match extend(history, changes) {
        Ok(()) => {}
        Err(_) => unreachable!(),
    }
}

impl Bridge {
    /// A bridge with this address and the ports of these domains, in which nothing has happened. It takes the memory
    /// for its tables, but not for the changes to come.
    pub fn make(alloc: Global, domains: Domains, own: Mac) -> Result<Bridge, NoMemory>
        ensures { IfOk result (λ b. b ≡ record { setup = record { domains = domains; own = own }; history = []; control = first_control own }) }
    {
        Ok(Bridge {
            domains,
            own,
            history: Vec::new(alloc),
            state: State::make(alloc, own)?,
        })
    }

    /// What the frame teaches, where more is to be done than that.
    fn plan_taught(&self, alloc: Global, port: Port, head: &Head) -> Result<Plan, EventFault>
        ensures plans { PlansOf self.now result (Ok (learns_of self.now.setup port head.now (standing self.now))) }
        ensures told { IfOk result (λ plan. plan.tree_event ≡ None) }
        ensures clock { IfOk result (λ plan. plan.clock.now ≡ self.now.control.now) }
        ensures addresses { IfOk result (λ plan. list_all is_of_address plan.changes.items ≡ true) }
    {
        teaches(alloc, &self.domains, &self.state, port, head)
    }

    /// Makes one change, or refuses it where there is no room for it.
    #[inline(always)]
    fn make_change(&mut self, change: Change) -> Result<(), EventFault>
        requires { all_fit (table self.old.history) (change ∷ []) ≡ true }
        ensures { Makes self.old self.new self.old.control (change ∷ []) result }
    {
        if self.history.len() >= MOST_CHANGES {
            return Err(EventFault::Refused(Refusal::HistoryFull));
        }
        self.history.reserve(1)?;
        self.history.push_reserved(change);
        self.state.apply(&change);
        Ok(())
    }

    /// Sets the clock, renews the entry and makes the changes, or refuses them where they are too many.
    #[inline(always)]
    fn make_changes(
        &mut self,
        clock: Clock,
        renewed: Option<Key>,
        changes: &[Change],
    ) -> Result<(), EventFault>
        requires early { clock.now < 2 ^ 53 }
        requires there { IfSome renewed (λ key. IsSome (get pair_cmp (table self.old.history).addr key)) }
        requires fits { all_fit (table self.old.history) changes.now ≡ true }
        ensures { Makes self.old self.new (renewed_at (clocked clock self.old.control) renewed) changes.now result }
    {
        if changes.len() > MOST_CHANGES - self.history.len() {
            return Err(EventFault::Refused(Refusal::HistoryFull));
        }
        extend(&mut self.history, changes)?;
        self.state.prepare(clock, renewed);
        self.state.follow(changes);
        Ok(())
    }

    /// Near the end of the history, where the states that follow may be too many: the event happens in a copy of the tree, which
    /// takes its place unless that is so.
    #[inline(never)]
    fn try_told(
        &mut self,
        plan: Plan,
        event: &TreeEvent,
        lines: &mut Lines,
    ) -> Result<(), EventFault>
        requires sound { IsSound (table self.old.history) plan }
        requires told { plan.tree_event ≡ Some event.now }
        requires room { 1 ≤ lines.old.rows }
        ensures carries_out { CarriesOut self.old self.new lines.old.lines lines.new.lines result (Ok (carried_out self.old plan)) }
        ensures room { 1 ≤ lines.new.rows }
        ensures saved { lines.new.saved ≡ lines.old.saved }
    {
        let mut changes = plan.changes;
        changes.reserve(Port::PLACES)?;
        reserve_frames(lines)?;
        let own = self.own;
        let mut tree = self.state.tree.copy();
        let out = tree.act(event, plan.clock.now);
        add_states(&mut changes, &tree, out.moved);
        let answer = self.make_changes(plan.clock, plan.renewed, &changes);
        if answer.is_err() {
            return answer;
        }
        add_frames(own, &tree, &out, lines);
        *self.state.tree = tree;
        answer
    }

    /// Carries out a plan in which the spanning tree is told this. Room is taken first, so that nothing is refused once the event
    /// happened.
    #[inline(never)]
    fn accept_told(
        &mut self,
        plan: Plan,
        event: &TreeEvent,
        lines: &mut Lines,
    ) -> Result<(), EventFault>
        requires sound { IsSound (table self.old.history) plan }
        requires told { plan.tree_event ≡ Some event.now }
        requires room { 1 ≤ lines.old.rows }
        ensures carries_out { CarriesOut self.old self.new lines.old.lines lines.new.lines result (Ok (carried_out self.old plan)) }
        ensures room { 1 ≤ lines.new.rows }
        ensures saved { lines.new.saved ≡ lines.old.saved }
    {
        let most = plan.changes.len() + Port::PLACES;
        if most > MOST_CHANGES - self.history.len() {
            return self.try_told(plan, event, lines);
        }
        self.history.reserve(most)?;
        reserve_frames(lines)?;
        let from = self.history.len();
        append(&mut self.history, &plan.changes);
        let out = self.state.tree.act(event, plan.clock.now);
        add_states(&mut self.history, &self.state.tree, out.moved);
        add_frames(self.own, &self.state.tree, &out, lines);
        self.state.prepare(plan.clock, plan.renewed);
        self.state.follow(&self.history[from..]);
        Ok(())
    }

    /// Carries out a plan.
    #[inline(always)]
    fn accept(&mut self, plan: Plan, lines: &mut Lines) -> Result<(), EventFault>
        requires sound { IsSound (table self.old.history) plan }
        requires room { 1 ≤ lines.old.rows }
        ensures carries_out { CarriesOut self.old self.new lines.old.lines lines.new.lines result (Ok (carried_out self.old plan)) }
        ensures room { 1 ≤ lines.new.rows }
        ensures saved { lines.new.saved ≡ lines.old.saved }
    {
        let tree_event = plan.tree_event;
        match tree_event {
            Some(event) => self.accept_told(plan, &event, lines),
            None => self.make_changes(plan.clock, plan.renewed, &plan.changes),
        }
    }

    /// Whether the history has room for so many planned changes, and those of the message behind them. Only near the end of the
    /// history are the message's changes counted.
    fn has_room_for(
        &self,
        alloc: Global,
        planned: usize,
        speaker: &Speaker,
        bytes: &[u8],
        message: &McastMsg,
    ) -> Result<bool, NoMemory>
        requires early { speaker.now.moment < 2 ^ 53 }
        requires records { RecordsStand bytes.now message.now }
        ensures yes { IfOk result (λ fits. fits ≡ true → HasRoomFor self.now planned speaker.now bytes.now message.now) }
        ensures no { IfOk result (λ fits. fits ≡ false → LacksRoomFor self.now planned speaker.now bytes.now message.now) }
    {
        let room = MOST_CHANGES - self.history.len();
        let most = most_changes(message);
        if planned <= room && most <= room - planned {
            return Ok(true);
        }
        let mut groups = self.state.groups.copy(alloc)?;
        let mut changes = Vec::with_capacity(alloc, most)?;
        speaker.says(&mut groups, bytes, message, &mut changes);
        Ok(planned <= room && changes.len() <= room - planned)
    }

    /// Carries out the plan of a frame, and what its message says.
    #[inline(never)]
    fn accept_said(
        &mut self,
        alloc: Global,
        plan: Plan,
        speaker: &Speaker,
        bytes: &[u8],
        message: &McastMsg,
    ) -> Result<(), EventFault>
        requires sound { IsSound (table self.old.history) plan }
        requires untold { plan.tree_event ≡ None }
        requires addresses { list_all is_of_address plan.changes.items ≡ true }
        requires clock { plan.clock.now ≡ speaker.now.moment }
        requires leaves { has_flag (table self.old.history) speaker.now.port fastleave ≡ speaker.now.fastleave }
        requires records { RecordsStand bytes.now message.now }
        ensures { CarriesQuietly self.old self.new result (says speaker.now bytes.now message.now (carried_out self.old plan)) }
    {
        let planned = plan.changes.len();
        if !self.has_room_for(alloc, planned, speaker, bytes, message)? {
            return Err(EventFault::Refused(Refusal::HistoryFull));
        }
        self.history.reserve(planned + most_changes(message))?;
        self.state.prepare(plan.clock, plan.renewed);
        self.state.follow(&plan.changes);
        append(&mut self.history, &plan.changes);
        self.state.hear(speaker, bytes, message, &mut self.history);
        Ok(())
    }

    /// What comes of it that the address is seen behind the port.
    fn learn_at(&mut self, port: Port, vid: Vid, mac: Mac) -> Result<(), EventFault>
        ensures { CarriesQuietly self.old self.new result (learns port (Some (vid, mac)) (standing self.old)) }
    {
        match learn(&mut self.state, vid, mac, port) {
            Lesson::Known => Ok(()),
            Lesson::Renewed => Ok(()),
            Lesson::News => self.make_change(Change::AddrPut {
                vid,
                mac,
                port,
                kind: Kind::Learned,
            }),
        }
    }

    /// Learns what the frame teaches.
    fn learn(&mut self, port: Port, head: &Head) -> Result<(), EventFault>
        ensures { CarriesQuietly self.old self.new result (learns_of self.old.setup port head.now (standing self.old)) }
    {
        match taught(&self.domains, &self.state, port, head) {
            Some(key) => self.learn_at(port, key.0, key.1),
            None => Ok(()),
        }
    }

    /// What comes of a chip's report that the address is behind the port.
    fn take_report(&mut self, vid: Vid, mac: Mac, port: Port) -> Result<(), EventFault>
        ensures { CarriesQuietly self.old self.new result (makes_all (standing self.old) (reported (table self.old.history) (vid, mac) port)) }
    {
        if !is_taken(&self.state, vid, mac, port) {
            return Ok(());
        }
        self.make_change(Change::AddrPut {
            vid,
            mac,
            port,
            kind: Kind::Extern,
        })
    }

    /// What comes of a frame of which the spanning tree is told nothing.
    fn take_untold(
        &mut self,
        alloc: Global,
        port: Port,
        bytes: &[u8],
        head: &Head,
        message: &McastMsg,
    ) -> Result<(), EventFault>
        requires message { message.now ≡ message_in bytes.now head.now }
        requires untold { heard (table self.old.history) port bytes.now head.now ≡ None }
        ensures { CarriesQuietly self.old self.new result (sees self.old.setup port bytes.now head.now (standing self.old)) }
    {
        match who_speaks(&self.state, port, head, message) {
            Some(speaker) => {
                let plan = self.plan_taught(alloc, port, head)?;
                self.accept_said(alloc, plan, &speaker, bytes, message)
            }
            None => self.learn(port, head),
        }
    }

    /// What comes of the sight of a frame. One that the spanning tree reads teaches nothing, and says nothing to snooping.
    fn take_frame(
        &mut self,
        alloc: Global,
        port: Port,
        bytes: &[u8],
        head: &Head,
        message: &McastMsg,
        lines: &mut Lines,
    ) -> Result<(), EventFault>
        requires message { message.now ≡ message_in bytes.now head.now }
        requires room { 1 ≤ lines.old.rows }
        ensures carries_out { CarriesOut self.old self.new lines.old.lines lines.new.lines result (comes_to self.old (Sight port bytes.now head.now)) }
        ensures room { 1 ≤ lines.new.rows }
        ensures saved { lines.new.saved ≡ lines.old.saved }
    {
        match heard(&self.state, port, bytes, head) {
            Some(event) => {
                let plan = Plan::telling(alloc, self.state.clock, Some(event));
                self.accept_told(plan, &event, lines)
            }
            None => self.take_untold(alloc, port, bytes, head, message),
        }
    }

    fn plan_command(&self, alloc: Global, asked: &Command) -> Result<Plan, EventFault>
        ensures { PlansOf self.now result (comes_to self.now (Cmd asked.now)) }
    {
        obey(alloc, &self.state, asked)
    }

    fn plan_moment(&self, alloc: Global, now: u64) -> Result<Plan, EventFault>
        requires { now < 2 ^ 53 }
        ensures { PlansOf self.now result (comes_to self.now (Moment now)) }
    {
        passes_to(alloc, &self.state, now)
    }

    fn plan_loss(&self, alloc: Global, stations: &Triples) -> Result<Plan, EventFault>
        ensures { PlansOf self.now result (comes_to self.now (Forget stations.now)) }
    {
        loses(alloc, &self.state, stations)
    }

    /// What comes of `link`: at most one change, without a plan.
    fn take_link(&mut self, port: Port, flag: Flags, on: bool) -> Result<(), EventFault>
        ensures { (lines : List Line) → CarriesOut self.old self.new lines lines result (comes_to self.old (Cmd (Command.Link port flag on))) }
    {
        match link_change(&self.state, port, flag, on)? {
            Some(change) => self.make_change(change),
            None => Ok(()),
        }
    }

    /// What comes of a command.
    fn take_command(
        &mut self,
        alloc: Global,
        asked: &Command,
        lines: &mut Lines,
    ) -> Result<(), EventFault>
        requires room { 1 ≤ lines.old.rows }
        ensures carries_out { CarriesOut self.old self.new lines.old.lines lines.new.lines result (comes_to self.old (Cmd asked.now)) }
        ensures room { 1 ≤ lines.new.rows }
        ensures saved { lines.new.saved ≡ lines.old.saved }
    {
        match *asked {
            Command::Link { port, flag, on } => self.take_link(port, flag, on),
            _ => {
                let plan = self.plan_command(alloc, asked)?;
                self.accept(plan, lines)
            }
        }
    }

    /// What comes of the loss of these stations.
    #[inline(never)]
    fn take_loss(
        &mut self,
        alloc: Global,
        stations: &Triples,
        lines: &mut Lines,
    ) -> Result<(), EventFault>
        requires room { 1 ≤ lines.old.rows }
        ensures carries_out { CarriesOut self.old self.new lines.old.lines lines.new.lines result (comes_to self.old (Forget stations.now)) }
        ensures room { 1 ≤ lines.new.rows }
        ensures saved { lines.new.saved ≡ lines.old.saved }
    {
        let plan = self.plan_loss(alloc, stations)?;
        self.accept(plan, lines)
    }

    /// The moment comes.
    #[inline(never)]
    fn pass_to(&mut self, alloc: Global, now: u64, lines: &mut Lines) -> Result<(), EventFault>
        requires early { now < 2 ^ 53 }
        requires room { 1 ≤ lines.old.rows }
        ensures carries_out { CarriesOut self.old self.new lines.old.lines lines.new.lines result (comes_to self.old (Moment now)) }
        ensures room { 1 ≤ lines.new.rows }
        ensures saved { lines.new.saved ≡ lines.old.saved }
    {
        let plan = self.plan_moment(alloc, now)?;
        self.accept(plan, lines)?;
        self.state.settle();
        Ok(())
    }

    /// Carries out what the event comes to.
    fn take(&mut self, alloc: Global, event: &Event, lines: &mut Lines) -> Result<(), EventFault>
        requires event { IsEvent event.now }
        requires room { 1 ≤ lines.old.rows }
        ensures carries_out { CarriesOut self.old self.new lines.old.lines lines.new.lines result (comes_to self.old event.now) }
        ensures room { 1 ≤ lines.new.rows }
        ensures saved { lines.new.saved ≡ lines.old.saved }
    {
        match event {
            Event::Cmd(asked) => self.take_command(alloc, asked, lines),
            Event::Moment(now) => self.pass_to(alloc, *now, lines),
            Event::Sight { port, bytes, head } => {
                let bytes = bytes.as_slice();
                let message = classify(bytes, head);
                self.take_frame(alloc, *port, bytes, head, &message, lines)
            }
            Event::Told { vid, mac, port } => self.take_report(*vid, *mac, *port),
            Event::Forget(stations) => self.take_loss(alloc, stations, lines),
        }
    }

    /// Reacts to the event, and adds the lines of the control frames that leave, with room for another line behind them. The
    /// answer is the place of the first new change in the history. A refusal and want of memory leave the bridge as it was.
    #[inline(always)]
    #[tactic(auto, unfolding(br_model::specs::Control::Reaction::react))]
    pub fn answer(
        &mut self,
        alloc: Global,
        event: &Event,
        lines: &mut Lines,
    ) -> Result<usize, EventFault>
        requires event { IsEvent event.now }
        requires room { 1 ≤ lines.old.rows }
        ensures reacts { Reacts self.old self.new lines.old.lines lines.new.lines result (reaction self.old.setup self.old.history self.old.control event.now) }
        ensures from { IfOk result (λ from. from ≡ length self.old.history) }
        ensures room { 1 ≤ lines.new.rows }
        ensures saved { lines.new.saved ≡ lines.old.saved }
    {
        let from = self.history.len();
        self.take(alloc, event, lines)?;
        Ok(from)
    }

    /// Reacts to a frame that was sent, as to the event `Sight`, without a copy of its bytes. `message` is what the frame says to
    /// snooping.
    #[tactic(auto, unfolding(br_model::specs::Control::Reaction::react))]
    pub fn see(
        &mut self,
        alloc: Global,
        port: Port,
        bytes: &[u8],
        head: &Head,
        message: &McastMsg,
        lines: &mut Lines,
    ) -> Result<usize, EventFault>
        requires frame { frame bytes.now ≡ Ok head.now }
        requires message { message.now ≡ message_in bytes.now head.now }
        requires room { 1 ≤ lines.old.rows }
        ensures reacts { Reacts self.old self.new lines.old.lines lines.new.lines result
            (reaction self.old.setup self.old.history self.old.control (Event.Sight port bytes.now head.now)) }
        ensures from { IfOk result (λ from. from ≡ length self.old.history) }
        ensures room { 1 ≤ lines.new.rows }
        ensures saved { lines.new.saved ≡ lines.old.saved }
    {
        let from = self.history.len();
        self.take_frame(alloc, port, bytes, head, message, lines)?;
        Ok(from)
    }

    /// Reacts to the event. A refusal and want of memory leave the bridge as it was.
    pub fn react(&mut self, alloc: Global, event: &Event) -> Result<Reaction, EventFault>
        requires { IsEvent event.now }
        ensures reacts { Reacts self.old self.new [] (ctl_of result) result (reaction self.old.setup self.old.history self.old.control event.now) }
        ensures from { IfOk result (λ r. r.from ≡ length self.old.history) }
    {
        let mut lines = Lines::new(alloc);
        lines.reserve(1, 0)?;
        let from = self.answer(alloc, event, &mut lines)?;
        Ok(Reaction { from, ctl: lines })
    }

    /// The domains of the declared ports.
    pub fn domains(&self) -> &Domains
        ensures { result.now ≡ self.now.setup.domains }
    {
        &self.domains
    }

    /// The entry at the address in the table of all changes, with the moment when it was put there or renewed last.
    pub fn find(&self, vid: Vid, mac: Mac) -> Option<Entry>
        ensures place { option_map place result ≡ get pair_cmp (table self.now.history).addr (vid, mac) }
        ensures moment { option_map (λ e. e.updated) result ≡ get pair_cmp self.now.control.updated (vid, mac) }
    {
        self.state.addresses.entry(vid, mac)
    }

    /// The accepted changes behind the first `from` ones: with the `from` of a reaction, what it made and all since.
    pub fn since(&self, from: usize) -> &[Change]
        ensures { result.now ≡ drop from self.now.history }
    {
        let history = self.history();
        &history[from.min(history.len())..]
    }

    /// The accepted changes in order.
    pub fn history(&self) -> &[Change]
        ensures value { result.now ≡ self.now.history }
        ensures within { AreWithin self.now.history }
    {
        self.history.as_slice()
    }
}
