//! A bridge with the copies of its table that follow it: the rows of each chip, and the published tables.
ghost use Rattle.std.specs.Prelude.{◌≡◌, ℕ, ◌-◌, ◌<◌, ◌≤◌, ◌++◌, ◌∷◌, [], length, take, drop, slice_get, is_some, IfOk, OnOk, OnErr, Some, true};
ghost use Rattle.std.specs.List.{sum_by};
ghost use Rattle.std.specs.Option.{option_map};
ghost use Rattle.br_model.specs.Table.Change.{updates};
ghost use Rattle.br_model.specs.Plane.Chip.{Chip as ChipValue, applies, chip_in, chip_table, hits_entry, offers, put_chip};
ghost use Rattle.br_model.specs.Table.Cut.{deferred_count};
ghost use Rattle.br_model.specs.Table.Domains.{domain_of};
ghost use Rattle.br_model.specs.Wire.Messages.{message as message_of};
ghost use Rattle.br_model.specs.Plane.ChipSteps.{reports, sweeps};
ghost use Rattle.br_model.specs.Plane.Serving.{posts};
ghost use Rattle.br_model.specs.Plane.Steps.{publishes};
ghost use Rattle.br_model.specs.Plane.World.{answered, chip_at, reacts, sent};
ghost use Rattle.br_model.specs.Control.Reaction.{react as reaction};
ghost use Rattle.br_model.specs.Forward.Shares.{soft_out};
ghost use Rattle.br_model.specs.Table.Table.{table};
ghost use Rattle.br_model.specs.declared.steps.Event.TheVariants as Event;
ghost use Rattle.br_model.specs.declared.transcript.Line.TheVariants as line;
ghost use Rattle.bridge_core.specs.Answers.{IsEvent};
ghost use Rattle.chip_pipeline.specs.Passed.{IsPass};
ghost use Rattle.chip_tables.specs.Stands.{Stands};
ghost use Rattle.br_model.specs.Table.Limits.{AreWithin};
ghost use Rattle.forward_rules.specs.Decided.{Decides};
ghost use Rattle.table_publish.specs.Board.{all_of};
ghost use Rattle.table_publish.specs.Object.{Begins, IsPublished, first_object};
ghost use Rattle.hwdom_chips.specs.Chips.{AreChips, chips_of};
ghost use Rattle.plane_parts.specs.Places.{places};
ghost use Rattle.plane_parts.specs.Queued.{Queued};
ghost use Rattle.plane_reactions.specs.Reacted.{Comes, Reacted};
ghost use Rattle.plane_parts.specs.Added.{Added};
ghost use Rattle.plane_core.specs.Seats.{Looks};
ghost use Rattle.plane_core.specs.Sides.{of_sides, HasBegun, world_of, first_sides};

use crate::NoMemory;
use br_model::change::{Change, Update};
use br_model::domains::Domains;
use br_model::frame::{Head, McastMsg};
use br_model::numbers::{Dom, Mac, Port};
use br_model::steps::{Event, Refusal};
use br_model::transcript::Line;
use bridge_core::{Bridge, EventFault};
use chip_pipeline::{Pass, pass};
use chip_tables::Tables;
use forward_rules::{SoftTables, Verdict};
use hwdom_chips::Chips;
use learn_report::Report;
use plane_parts::{Egress, Updates, Waiting, make_room, send};
use plane_reactions::last_line;
use std::alloc::{AllocError, Global};
use std::marker::Model;
use std::sync::Wait;
use table_publish::{Board, Seat};
use transcript_lines::Lines;

/// The control plane, the chips and the board, with one history: each chip has applied a part of its deferred changes, the board
/// has published a front of it. It isn't `Drop`, since the board isn't: end it by `end`.
pub(crate) struct Sides {
    bridge: Bridge,
    chips: Chips,
    // The deferred changes of the history, for all chips.
    updates: Updates,
    board: Board,
}

impl Model for Sides {
    ghost use Rattle.hwdom_chips.specs.Chips.{chips_of};
    ghost use Rattle.plane_core.specs.Sides.{SidesState, AreSides};

    ghost Value = { SidesState };

    ghost view = { λ s. record {
      setup = s.bridge.setup;
      history = s.bridge.history;
      control = s.bridge.control;
      chips = chips_of s.chips;
      published = s.board.object;
      board = s.board.board;
    } };

    ghost invariant = { λ s. AreSides s.bridge s.chips s.updates s.board };
}

/// The chips and the board follow the changes that the history got behind its first `from` ones. The answer is how many they are.
fn follow(
    bridge: &Bridge,
    chips: &mut Chips,
    updates: &mut Updates,
    board: &mut Board,
    from: usize,
) -> u32
    requires from { from ≤ length bridge.now.history }
    requires chips { AreChips bridge.now.setup.domains (take from bridge.now.history) chips.old }
    requires updates { updates.old ≡ places bridge.now.setup.domains.edition (take from bridge.now.history) }
    requires board { all_of board.old ≡ take from bridge.now.history }
    ensures chips { AreChips bridge.now.setup.domains bridge.now.history chips.new }
    ensures kept { chips_of chips.new ≡ chips_of chips.old }
    ensures updates { updates.new ≡ places bridge.now.setup.domains.edition bridge.now.history }
    ensures board { board.new ≡ record board.old { pending = board.old.pending ++ drop from bridge.now.history } }
    ensures count { result ≡ length (drop from bridge.now.history) }
{
    let history = bridge.history();
    if from == history.len() {
        return 0;
    }
    let domains = bridge.domains();
    chips.follow(domains, history, from);
    updates.follow(history, from, domains.edition());
    board.append(&history[from..]);
    (history.len() - from) as u32
}

/// The decision of a frame by these changes. Tables are large, so it has a function of its own: each call pays for the room of its
/// locals.
#[inline(never)]
fn decide_anew(
    alloc: Global,
    domains: &Domains,
    changes: &[Change],
    frame: &Waiting,
) -> Result<Verdict, NoMemory>
    requires { AreWithin changes.now }
    ensures { IfOk result (Decides domains.now (table changes.now) frame.now.port frame.now.head (message_of frame.now.bytes frame.now.head)) }
{
    let mut tables = SoftTables::make(alloc)?;
    for i in 0..changes.len() {
        tables.apply(&changes[i]);
    }
    Ok(tables.decide(frame.port(), frame.head(), frame.message(), domains))
}

/// The control plane of a bridge in which nothing has happened, its chips, and the places of no deferred changes.
pub(crate) type Begun = (Bridge, Chips, Updates);

/// Makes all that stands beside a board.
pub(crate) fn begin(alloc: Global, domains: Domains, own: Mac) -> Result<Begun, NoMemory>
    ensures { IfOk result (λ t. HasBegun (record { domains = domains; own = own }) t.0 t.1 t.2) }
{
    let chips = Chips::make(alloc, &domains)?;
    let updates = Updates::make(alloc)?;
    Ok((Bridge::make(alloc, domains, own)?, chips, updates))
}

impl Sides {
    /// Those of a bridge in which nothing has happened, and its board.
    pub(crate) fn over(begun: Begun, board: Board) -> Sides
        requires begun { HasBegun (record { domains = board.board.domains; own = begun.0.setup.own }) begun.0 begun.1 begun.2 }
        requires object { board.object ≡ first_object }
        requires pending { board.pending ≡ [] }
        ensures { result ≡ first_sides begun.0.setup board.board }
    {
        let (bridge, chips, updates) = begun;
        Sides {
            bridge,
            chips,
            updates,
            board,
        }
    }

    /// Ends the board.
    pub(crate) fn end<R: Wait>(self, rt: &R) {
        let Sides {
            bridge: _,
            chips: _,
            updates: _,
            board,
        } = self;
        board.end(rt);
    }

    /// The bridge reacts to an event, and the lines of the control frames that leave are added, with room for another line behind
    /// them. The answer is how many changes it made.
    fn react(&mut self, alloc: Global, event: &Event, lines: &mut Lines) -> Result<u32, EventFault>
        requires event { IsEvent event.now }
        requires room { 1 ≤ lines.old.rows }
        ensures reacted { Reacted of_sides self.old self.new self.old.chips lines.old.lines lines.new.lines result
            (reaction self.old.setup self.old.history self.old.control event.now) }
        ensures saved { lines.new.saved ≡ lines.old.saved }
        ensures room { 1 ≤ lines.new.rows }
    {
        let from = self.bridge.answer(alloc, event, lines)?;
        Ok(follow(
            &self.bridge,
            &mut self.chips,
            &mut self.updates,
            &mut self.board,
            from,
        ))
    }

    /// The bridge sees a frame that software sent, as it reacts to an event.
    fn see(&mut self, alloc: Global, frame: &Waiting, lines: &mut Lines) -> Result<u32, EventFault>
        requires { 1 ≤ lines.old.rows }
        ensures reacted { Reacted of_sides self.old self.new self.old.chips lines.old.lines lines.new.lines result
            (reaction self.old.setup self.old.history self.old.control (Event.Sight frame.now.port frame.now.bytes frame.now.head)) }
        ensures saved { lines.new.saved ≡ lines.old.saved }
        ensures room { 1 ≤ lines.new.rows }
    {
        let from = self.bridge.see(
            alloc,
            frame.port(),
            frame.bytes(),
            frame.head(),
            frame.message(),
            lines,
        )?;
        Ok(follow(
            &self.bridge,
            &mut self.chips,
            &mut self.updates,
            &mut self.board,
            from,
        ))
    }

    /// The bridge reacts to the oldest report of the domain's chip, which leaves unless that is refused.
    fn react_to_report(
        &mut self,
        alloc: Global,
        event: &Event,
        d: Dom,
        lines: &mut Lines,
    ) -> Result<u32, EventFault>
        requires event { IsEvent event.now }
        requires chip { is_some (chip_in self.old.chips d) ≡ true }
        requires room { 1 ≤ lines.old.rows }
        ensures reacted { (c : ChipValue) → chip_in self.old.chips d ≡ Some c
            → Reacted of_sides self.old self.new (put_chip self.old.chips (record c { reports = drop 1 c.reports })) lines.old.lines lines.new.lines result
            (reaction self.old.setup self.old.history self.old.control event.now) }
        ensures saved { lines.new.saved ≡ lines.old.saved }
        ensures room { 1 ≤ lines.new.rows }
    {
        let changes = self.react(alloc, event, lines)?;
        let place = self.chips.place(d);
        self.chips.at_mut(place).drop_report();
        Ok(changes)
    }

    /// The bridge reacts to a sweep of the domain's chip, and no entry is hit there, unless that is refused.
    fn react_to_sweep(
        &mut self,
        alloc: Global,
        event: &Event,
        d: Dom,
        lines: &mut Lines,
    ) -> Result<u32, EventFault>
        requires event { IsEvent event.now }
        requires chip { is_some (chip_in self.old.chips d) ≡ true }
        requires room { 1 ≤ lines.old.rows }
        ensures reacted { (c : ChipValue) → chip_in self.old.chips d ≡ Some c
            → Reacted of_sides self.old self.new (put_chip self.old.chips (record c { hits = [] })) lines.old.lines lines.new.lines result
            (reaction self.old.setup self.old.history self.old.control event.now) }
        ensures saved { lines.new.saved ≡ lines.old.saved }
        ensures room { 1 ≤ lines.new.rows }
    {
        let changes = self.react(alloc, event, lines)?;
        let place = self.chips.place(d);
        self.chips.at_mut(place).clear_hits();
        Ok(changes)
    }

    /// The event of a step. The lines of the step are added. After want of memory all is as before, here and in what follows.
    pub(crate) fn answer(
        &mut self,
        alloc: Global,
        step: u32,
        event: &Event,
        lines: &mut Lines,
    ) -> Result<(), NoMemory>
        requires { IsEvent event.now }
        ensures ok { OnOk result (Added (Comes of_sides (λ w. answered w w (reacts w event.now)) self.old step self.new) lines.old.lines lines.new.lines) }
        ensures err { OnErr result (self.new ≡ self.old) }
        ensures lines { OnErr result (lines.new.lines ≡ lines.old.lines) }
        ensures saved { lines.new.saved ≡ lines.old.saved }
        ensures over { self.new.board ≡ self.old.board }
    {
        lines.reserve(1, 0)?;
        let outcome = self.react(alloc, event, lines);
        lines.push_reserved(last_line(step, outcome)?);
        Ok(())
    }

    /// The decision of a frame by what is published, by a seat that was told of it. Where the seat has no reading of just that, it is
    /// made anew.
    pub(crate) fn decide(
        &self,
        alloc: Global,
        seat: &mut Seat,
        frame: &Waiting,
    ) -> Result<Verdict, NoMemory>
        requires board { seat.old.board ≡ self.now.board }
        requires told { Begins seat.old.object (record {
          changes = take (length self.now.published.changes) self.now.history;
          counts = self.now.published.counts;
        }) }
        ensures seat { Looks seat.old seat.new }
        ensures verdict { IfOk result (Decides self.now.setup.domains (table (take (length self.now.published.changes) self.now.history))
            frame.now.port frame.now.head (message_of frame.now.bytes frame.now.head)) }
    {
        match seat.lookup(frame.port(), frame.head(), frame.message()) {
            Some(seen) if seen.point == self.board.published() => Ok(seen.verdict),
            _ => self.decide_anew(alloc, frame),
        }
    }

    /// The same by tables that are made anew.
    fn decide_anew(&self, alloc: Global, frame: &Waiting) -> Result<Verdict, NoMemory>
        ensures { IfOk result (Decides self.now.setup.domains (table (take (length self.now.published.changes) self.now.history))
            frame.now.port frame.now.head (message_of frame.now.bytes frame.now.head)) }
    {
        let published = self.board.published() as usize;
        decide_anew(
            alloc,
            self.bridge.domains(),
            &self.bridge.history()[..published],
            frame,
        )
    }

    /// Adds the lines of a frame that is sent by a decision of the table at this point, with room for another line behind them.
    fn soft_lines(
        &self,
        frame: &Waiting,
        verdict: &Verdict,
        point: u32,
        lines: &mut Lines,
    ) -> Result<(), NoMemory>
        requires { Decides self.now.setup.domains (table (take point self.now.history)) frame.now.port frame.now.head
            (message_of frame.now.bytes frame.now.head) verdict.now }
        ensures lines { OnOk result (lines.new.lines ≡ lines.old.lines ++ line.Soft frame.now.id point
            ∷ sent frame.now.id (soft_out self.now.setup.domains (table (take point self.now.history))
            frame.now.port frame.now.bytes frame.now.head frame.now.mark)) }
        ensures err { OnErr result (lines.new.lines ≡ lines.old.lines) }
        ensures saved { lines.new.saved ≡ lines.old.saved }
        ensures room { OnOk result (1 ≤ lines.new.rows) }
    {
        make_room(lines, frame.bytes())?;
        let id = frame.id();
        lines.push_reserved(Line::Soft { id, point });
        let out = Egress::of_verdict(verdict, frame.mark(), self.bridge.domains());
        send(id, frame.bytes(), frame.head(), &out, lines);
        Ok(())
    }

    /// Sends a frame by a decision of the table at this point, and lets the bridge see it. The lines of the step are added.
    pub(crate) fn post(
        &mut self,
        alloc: Global,
        step: u32,
        frame: &Waiting,
        verdict: &Verdict,
        point: u32,
        lines: &mut Lines,
    ) -> Result<(), NoMemory>
        requires { Decides self.old.setup.domains (table (take point self.old.history)) frame.now.port frame.now.head
            (message_of frame.now.bytes frame.now.head) verdict.now }
        ensures ok { OnOk result (Added (Comes of_sides (λ w. posts w frame.now point) self.old step self.new) lines.old.lines lines.new.lines) }
        ensures err { OnErr result (self.new ≡ self.old) }
        ensures lines { OnErr result (lines.new.lines ≡ lines.old.lines) }
        ensures saved { lines.new.saved ≡ lines.old.lines }
        ensures over { self.new.board ≡ self.old.board }
    {
        lines.save();
        self.soft_lines(frame, verdict, point, lines)?;
        let outcome = self.see(alloc, frame, lines);
        let Ok(last) = last_line(step, outcome) else {
            lines.cut();
            return Err(AllocError);
        };
        lines.push_reserved(last);
        Ok(())
    }

    /// Sends a frame by what is published, of which the seat was told, and lets the bridge see it.
    pub(crate) fn serve(
        &mut self,
        alloc: Global,
        step: u32,
        seat: &mut Seat,
        frame: &Waiting,
        lines: &mut Lines,
    ) -> Result<(), NoMemory>
        requires board { seat.old.board ≡ self.old.board }
        requires told { Begins seat.old.object (record {
          changes = take (length self.old.published.changes) self.old.history;
          counts = self.old.published.counts;
        }) }
        ensures ok { OnOk result (Added (Comes of_sides (λ w. posts w frame.now w.published) self.old step self.new) lines.old.lines lines.new.lines) }
        ensures err { OnErr result (self.new ≡ self.old) }
        ensures lines { OnErr result (lines.new.lines ≡ lines.old.lines) }
        ensures saved { OnOk result (lines.new.saved ≡ lines.old.lines) }
        ensures over { self.new.board ≡ self.old.board }
        ensures seat { Looks seat.old seat.new }
    {
        let point = self.board.published();
        match seat.lookup(frame.port(), frame.head(), frame.message()) {
            Some(seen) if seen.point == point => {
                self.post(alloc, step, frame, &seen.verdict, point, lines)
            }
            _ => {
                let verdict = self.decide_anew(alloc, frame)?;
                self.post(alloc, step, frame, &verdict, point, lines)
            }
        }
    }

    /// What the chip of the domain does with a frame that says this to snooping, at one of its ports.
    pub(crate) fn pass(&self, d: Dom, port: Port, head: &Head, message: &McastMsg) -> Pass
        requires port { domain_of self.now.setup.domains port ≡ Some d }
        requires chip { is_some (chip_in self.now.chips d) ≡ true }
        ensures { (c : ChipValue) → chip_in self.now.chips d ≡ Some c
            → IsPass self.now.setup.domains (chip_table self.now.setup.domains.edition self.now.history c) port head.now message.now result }
    {
        // law: the host is in software's domain
        let _host = self.bridge.domains().of(Port::HOST);
        pass(self.chips.at(d).tables(), port, head, message)
    }

    /// Whether the domain has a chip.
    pub(crate) fn has_chip(&self, d: Dom) -> bool
        ensures { result ≡ is_some (chip_in self.now.chips d) }
    {
        self.chips.has(d)
    }

    /// Notes in the chip of the domain what a frame at the port leaves there.
    pub(crate) fn note(&mut self, d: Dom, port: Port, pass: &Pass) -> Result<(), NoMemory>
        requires { is_some (chip_in self.old.chips d) ≡ true }
        ensures ok { OnOk result ((c : ChipValue) → chip_in self.old.chips d ≡ Some c
            → self.new ≡ record self.old { chips = put_chip self.old.chips (hits_entry pass.now.hit (offers port pass.now.report c)) }) }
        ensures err { OnErr result (self.new ≡ self.old) }
    {
        let place = self.chips.place(d);
        self.chips
            .at_mut(place)
            .note(port, pass.report(), pass.hit())
    }

    /// The chip of the domain applies the next deferred change.
    pub(crate) fn turn(&mut self, d: Dom, update: &Update) -> Result<(), NoMemory>
        requires chip { is_some (chip_in self.old.chips d) ≡ true }
        requires next { (c : ChipValue) → chip_in self.old.chips d ≡ Some c
            → slice_get (updates self.old.setup.domains.edition self.old.history) c.count ≡ Some update.now }
        ensures ok { OnOk result ((c : ChipValue) → chip_in self.old.chips d ≡ Some c
            → self.new ≡ record self.old { chips = put_chip self.old.chips (applies c update.now.change) }) }
        ensures err { OnErr result (self.new ≡ self.old) }
    {
        // law: the history is within the limits
        let _history = self.bridge.history();
        let place = self.chips.place(d);
        self.chips.at_mut(place).turn(update)
    }

    /// The bridge is told the oldest report of the domain's chip, which leaves unless that is refused.
    pub(crate) fn report(
        &mut self,
        alloc: Global,
        step: u32,
        d: Dom,
        lines: &mut Lines,
    ) -> Result<(), NoMemory>
        requires { is_some (chip_in self.old.chips d) ≡ true }
        ensures ok { OnOk result (Added (Comes of_sides (λ w. reports w (chip_at w d)) self.old step self.new) lines.old.lines lines.new.lines) }
        ensures err { OnErr result (self.new ≡ self.old) }
        ensures lines { OnErr result (lines.new.lines ≡ lines.old.lines) }
        ensures saved { lines.new.saved ≡ lines.old.saved }
        ensures over { self.new.board ≡ self.old.board }
    {
        lines.reserve(1, 0)?;
        let Some((vid, mac, port)) = self.chips.at(d).first_report() else {
            let refusal = Refusal::NothingReported;
            lines.push_reserved(Line::Refused { step, refusal });
            return Ok(());
        };
        let event = Event::Told { vid, mac, port };
        let outcome = self.react_to_report(alloc, &event, d, lines);
        lines.push_reserved(last_line(step, outcome)?);
        Ok(())
    }

    /// The bridge forgets what the chip of the domain no longer sees, and no entry is hit there, unless that is refused.
    pub(crate) fn sweep(
        &mut self,
        alloc: Global,
        step: u32,
        d: Dom,
        lines: &mut Lines,
    ) -> Result<(), NoMemory>
        requires { is_some (chip_in self.old.chips d) ≡ true }
        ensures ok { OnOk result (Added (Comes of_sides (λ w. sweeps w (chip_at w d)) self.old step self.new) lines.old.lines lines.new.lines) }
        ensures err { OnErr result (self.new ≡ self.old) }
        ensures lines { OnErr result (lines.new.lines ≡ lines.old.lines) }
        ensures saved { lines.new.saved ≡ lines.old.saved }
        ensures over { self.new.board ≡ self.old.board }
    {
        lines.reserve(1, 0)?;
        let event = Event::Forget(self.chips.at(d).unhit(alloc)?);
        let outcome = self.react_to_sweep(alloc, &event, d, lines);
        lines.push_reserved(last_line(step, outcome)?);
        Ok(())
    }

    /// All changes are published.
    pub(crate) fn publish<R: Wait>(&mut self, rt: &R, alloc: Global) -> Result<(), NoMemory>
        ensures ok { OnOk result ((q : Queued) (step : ℕ) → publishes (world_of self.old q step) (length self.old.history) ≡ world_of self.new q step) }
        ensures err { OnErr result (self.new ≡ self.old) }
        ensures over { self.new.board ≡ self.old.board }
    {
        self.board.publish(rt, alloc)?;
        Ok(())
    }

    /// The declared ports with their domains.
    pub(crate) fn domains(&self) -> &Domains
        ensures { result.now ≡ self.now.setup.domains }
    {
        self.bridge.domains()
    }

    /// The accepted changes.
    pub(crate) fn history(&self) -> &[Change]
        ensures { result.now ≡ self.now.history }
    {
        self.bridge.history()
    }

    /// How many deferred changes the chip of the domain has applied.
    pub(crate) fn applied(&self, d: Dom) -> u32
        requires { is_some (chip_in self.now.chips d) ≡ true }
        ensures { option_map (λ c. c.count) (chip_in self.now.chips d) ≡ Some result }
    {
        self.chips.at(d).count()
    }

    /// The tables of the chip of the domain, by which it decides.
    pub(crate) fn tables(&self, d: Dom) -> &Tables
        requires { is_some (chip_in self.now.chips d) ≡ true }
        ensures { (c : ChipValue) → chip_in self.now.chips d ≡ Some c
            → Stands self.now.setup.domains d result.now (chip_table self.now.setup.domains.edition self.now.history c) }
    {
        self.chips.at(d).tables()
    }

    /// The oldest report of the chip of the domain.
    pub(crate) fn first_report(&self, d: Dom) -> Option<Report>
        requires { is_some (chip_in self.now.chips d) ≡ true }
        ensures { option_map (λ c. slice_get c.reports 0) (chip_in self.now.chips d) ≡ Some result }
    {
        self.chips.at(d).first_report()
    }

    /// How many deferred changes it hasn't applied.
    pub(crate) fn pending(&self, d: Dom) -> u32
        requires { is_some (chip_in self.now.chips d) ≡ true }
        ensures { option_map (λ c. deferred_count self.now.setup.domains.edition self.now.history - c.count) (chip_in self.now.chips d) ≡ Some result }
    {
        self.updates.len() as u32 - self.chips.at(d).count()
    }

    /// And all chips together.
    pub(crate) fn pending_of_all(&self) -> u32
        ensures { result ≡ sum_by (λ c. deferred_count self.now.setup.domains.edition self.now.history - c.count) self.now.chips }
    {
        self.chips.pending(self.updates.len() as u32)
    }

    /// How many changes are published.
    pub(crate) fn published(&self) -> u32
        ensures { result ≡ length self.now.published.changes }
    {
        self.board.published()
    }

    /// The deferred change that the chip of the domain applies next, if one is pending.
    pub(crate) fn next_update(&self, d: Dom) -> Option<Update>
        requires { is_some (chip_in self.now.chips d) ≡ true }
        ensures { (c : ChipValue) → chip_in self.now.chips d ≡ Some c
            → result ≡ slice_get (updates self.now.setup.domains.edition self.now.history) c.count }
    {
        self.chips
            .at(d)
            .next_update(&self.updates, self.bridge.history())
    }

    /// The deferred change with this ticket.
    pub(crate) fn update(&self, ticket: u32) -> Option<Update>
        ensures { result ≡ slice_get (updates self.now.setup.domains.edition self.now.history) ticket }
    {
        self.updates.get(self.bridge.history(), ticket)
    }

    /// Tells a seat of the board what is published.
    pub(crate) fn tell(&mut self, seat: &mut Seat)
        requires { seat.old.board ≡ self.old.board }
        ensures same { self.new ≡ self.old }
        ensures board { seat.new.board ≡ seat.old.board }
        ensures told { Begins seat.new.object (record {
          changes = take (length self.old.published.changes) self.old.history;
          counts = self.old.published.counts;
        }) }
        ensures kept { Begins seat.new.object seat.old.object }
        ensures misses { seat.new.misses ≡ seat.old.misses }
        ensures published { IsPublished seat.new.object }
    {
        self.board.tell(seat);
    }

    /// The board has the domains of the bridge: the law does nothing.
    pub(crate) fn stands(&self)
        ensures { self.now.board.domains ≡ self.now.setup.domains }
    {
        // law: the invariant says it
        let _bridge = &self.bridge;
    }
}
