//! A bridge with the tables that follow it: that of each chip's cut, and that of a published point.
ghost use Rattle.std.specs.Prelude.{◌≡◌, ℕ, ◌-◌, ◌≤◌, ◌++◌, ◌∷◌, [], length, take, drop, IfOk, OnOk, Some, is_some, slice_get, true};
ghost use Rattle.std.specs.List.{sum_by};
ghost use Rattle.std.specs.List.Sorted.{IsStrictlySortedBy};
ghost use Rattle.std.specs.Option.{option_map};
ghost use Rattle.std.specs.Ordering.{nat_cmp};
ghost use Rattle.br_model.specs.Control.Reaction.{react as reaction};
ghost use Rattle.br_model.specs.Data.Maps.{has};
ghost use Rattle.br_model.specs.Forward.Shares.{soft_out};
ghost use Rattle.br_model.specs.Plane.Chip.{Chip as ChipValue, applies, chip_in, notes, put_chip};
ghost use Rattle.br_model.specs.Plane.ChipSteps.{reports, sweeps, turns};
ghost use Rattle.br_model.specs.Plane.Serving.{posts};
ghost use Rattle.br_model.specs.Plane.Steps.{publishes};
ghost use Rattle.br_model.specs.Plane.World.{answered, chip_at, reacts, sent};
ghost use Rattle.br_model.specs.Table.Change.{updates};
ghost use Rattle.br_model.specs.Table.Cut.{deferred_count};
ghost use Rattle.br_model.specs.Table.Limits.{AreWithin};
ghost use Rattle.br_model.specs.Table.Table.{table};
ghost use Rattle.br_model.specs.Wire.Messages.{message as message_of};
ghost use Rattle.br_model.specs.declared.steps.Event.TheVariants as Event;
ghost use Rattle.br_model.specs.declared.transcript.Line.TheVariants as line;
ghost use Rattle.bridge_core.specs.Answers.{IsEvent};
ghost use Rattle.plane_reactions.specs.Reacted.{Comes, Reacted};
ghost use Rattle.plane_parts.specs.Added.{Added};
ghost use Rattle.forward_rules.specs.Decided.{Decides};
ghost use Rattle.plane_parts.specs.Places.{places};
ghost use Rattle.check_world.specs.Cuts.{AreCuts, chips_of};
ghost use Rattle.plane_parts.specs.Queued.{Queued};
ghost use Rattle.check_world.specs.Sides.{of_sides, first_sides, table_of, world_of};

use crate::NoMemory;
use crate::cuts::Cuts;
use crate::point::Point;
use br_model::change::{Change, Update};
use br_model::domains::Domains;
use br_model::frame::{Head, McastMsg};
use br_model::numbers::{Dom, Mac, Port};
use br_model::steps::{Event, Refusal};
use br_model::transcript::Line;
use bridge_core::{Bridge, EventFault};
use forward_rules::Verdict;
use plane_parts::{Egress, Updates, Waiting, make_room, send};
use plane_reactions::last_line;
use std::alloc::Global;
use std::marker::Model;
use transcript_lines::Lines;

/// The control plane with its history, of which each chip has applied a part, and of which a front was published.
#[derive(Drop)]
pub(crate) struct Sides {
    bridge: Bridge,
    cuts: Cuts,
    // The deferred changes of the history, for all chips.
    updates: Updates,
    // The table by which software decided last.
    point: Point,
    published: u32,
    // Ascending.
    counts: Vec<u32>,
}

impl Model for Sides {
    ghost use Rattle.check_world.specs.Cuts.{chips_of};
    ghost use Rattle.check_world.specs.Sides.{AreSides, SidesState};

    ghost Value = { SidesState };

    ghost view = { λ s. record {
      setup = s.bridge.setup;
      history = s.bridge.history;
      control = s.bridge.control;
      chips = chips_of s.cuts;
      published = s.published;
      counts = s.counts.items;
    } };

    ghost invariant = { λ s. AreSides s.bridge s.cuts s.updates s.point };
}

/// The cuts follow the changes that the history got behind its first `from` ones. The answer is how many they are.
fn follow(bridge: &Bridge, cuts: &mut Cuts, updates: &mut Updates, from: usize) -> u32
    requires from { from ≤ length bridge.now.history }
    requires cuts { AreCuts bridge.now.setup.domains (take from bridge.now.history) cuts.old }
    requires updates { updates.old ≡ places bridge.now.setup.domains.edition (take from bridge.now.history) }
    ensures cuts { AreCuts bridge.now.setup.domains bridge.now.history cuts.new }
    ensures kept { chips_of cuts.new ≡ chips_of cuts.old }
    ensures updates { updates.new ≡ places bridge.now.setup.domains.edition bridge.now.history }
    ensures count { result ≡ length (drop from bridge.now.history) }
{
    let history = bridge.history();
    if from == history.len() {
        return 0;
    }
    let domains = bridge.domains();
    cuts.follow(domains, history, from);
    updates.follow(history, from, domains.edition());
    (history.len() - from) as u32
}

/// Whether the count is one of these, which ascend.
fn has(counts: &[u32], count: u32) -> bool
    requires { IsStrictlySortedBy nat_cmp counts.now }
    ensures { result ≡ has nat_cmp counts.now count }
{
    match counts.binary_search(&count) {
        Ok(_) => true,
        Err(_) => false,
    }
}

// After want of memory sides aren't used again.
impl Sides {
    /// Those of a bridge in which nothing has happened.
    pub(crate) fn make(alloc: Global, domains: Domains, own: Mac) -> Result<Sides, NoMemory>
        ensures { IfOk result (λ s. s ≡ first_sides (record { domains = domains; own = own })) }
    {
        let cuts = Cuts::make(alloc, &domains)?;
        let mut counts = Vec::new(alloc);
        counts.push(0)?;
        Ok(Sides {
            bridge: Bridge::make(alloc, domains, own)?,
            cuts,
            updates: Updates::make(alloc)?,
            point: Point::make(alloc)?,
            published: 0,
            counts,
        })
    }

    /// The bridge reacts to an event, and the lines of the control frames that leave are added, with room for another line behind
    /// them. The answer is how many changes it made.
    fn react(&mut self, alloc: Global, event: &Event, lines: &mut Lines) -> Result<u32, EventFault>
        requires event { IsEvent event.now }
        requires room { 1 ≤ lines.old.rows }
        ensures reacted { Reacted of_sides self.old self.new self.old.chips lines.old.lines lines.new.lines result
            (reaction self.old.setup self.old.history self.old.control event.now) }
        ensures room { 1 ≤ lines.new.rows }
    {
        let from = self.bridge.answer(alloc, event, lines)?;
        Ok(follow(&self.bridge, &mut self.cuts, &mut self.updates, from))
    }

    /// The bridge sees a frame that software sent, as it reacts to an event.
    fn see(&mut self, alloc: Global, frame: &Waiting, lines: &mut Lines) -> Result<u32, EventFault>
        requires { 1 ≤ lines.old.rows }
        ensures reacted { Reacted of_sides self.old self.new self.old.chips lines.old.lines lines.new.lines result
            (reaction self.old.setup self.old.history self.old.control (Event.Sight frame.now.port frame.now.bytes frame.now.head)) }
        ensures room { 1 ≤ lines.new.rows }
    {
        let from = self.bridge.see(
            alloc,
            frame.port(),
            frame.bytes(),
            frame.head(),
            frame.message(),
            lines,
        )?;
        Ok(follow(&self.bridge, &mut self.cuts, &mut self.updates, from))
    }

    /// The event of a step. The lines of the step are added.
    pub(crate) fn answer(
        &mut self,
        alloc: Global,
        step: u32,
        event: &Event,
        lines: &mut Lines,
    ) -> Result<(), NoMemory>
        requires { IsEvent event.now }
        ensures { OnOk result (Added (Comes of_sides (λ w. answered w w (reacts w event.now)) self.old step self.new) lines.old.lines lines.new.lines) }
    {
        lines.reserve(1, 0)?;
        let outcome = self.react(alloc, event, lines);
        lines.push_reserved(last_line(step, outcome)?);
        Ok(())
    }

    /// Adds the lines of a frame that is sent by a decision of the table at this point, with room for another line behind them.
    fn soft_lines(
        &self,
        frame: &Waiting,
        verdict: &Verdict,
        point: u32,
        lines: &mut Lines,
    ) -> Result<(), NoMemory>
        requires { Decides self.now.setup.domains (table (take point self.now.history)) frame.now.port frame.now.head
            (message_of frame.now.bytes frame.now.head) verdict.now }
        ensures lines { OnOk result (lines.new.lines ≡ lines.old.lines ++ line.Soft frame.now.id point
            ∷ sent frame.now.id (soft_out self.now.setup.domains (table (take point self.now.history))
            frame.now.port frame.now.bytes frame.now.head frame.now.mark)) }
        ensures room { OnOk result (1 ≤ lines.new.rows) }
    {
        make_room(lines, frame.bytes())?;
        let id = frame.id();
        lines.push_reserved(Line::Soft { id, point });
        let out = Egress::of_verdict(verdict, frame.mark(), self.bridge.domains());
        send(id, frame.bytes(), frame.head(), &out, lines);
        Ok(())
    }

    /// Adds the lines of a frame that is sent by the table of this point, with room for another line behind them.
    fn send_at(
        &mut self,
        alloc: Global,
        frame: &Waiting,
        point: u32,
        lines: &mut Lines,
    ) -> Result<(), NoMemory>
        requires { point ≤ length self.old.history }
        ensures same { OnOk result (self.new ≡ self.old) }
        ensures lines { OnOk result (lines.new.lines ≡ lines.old.lines ++ line.Soft frame.now.id point
            ∷ sent frame.now.id (soft_out self.old.setup.domains (table (take point self.old.history))
            frame.now.port frame.now.bytes frame.now.head frame.now.mark)) }
        ensures room { OnOk result (1 ≤ lines.new.rows) }
    {
        self.point.go_to(alloc, self.bridge.history(), point)?;
        let verdict = self.point.decide(frame, self.bridge.domains());
        self.soft_lines(frame, &verdict, point, lines)
    }

    /// Sends a frame by the table of this point, and lets the bridge see it. The lines of the step are added.
    pub(crate) fn post(
        &mut self,
        alloc: Global,
        step: u32,
        frame: &Waiting,
        point: u32,
        lines: &mut Lines,
    ) -> Result<(), NoMemory>
        requires { point ≤ length self.old.history }
        ensures { OnOk result (Added (Comes of_sides (λ w. posts w frame.now point) self.old step self.new) lines.old.lines lines.new.lines) }
    {
        self.send_at(alloc, frame, point, lines)?;
        let outcome = self.see(alloc, frame, lines);
        lines.push_reserved(last_line(step, outcome)?);
        Ok(())
    }

    /// What the chip of the domain decides of a frame at one of its ports, which says this to snooping.
    pub(crate) fn decide(&self, d: Dom, port: Port, head: &Head, message: &McastMsg) -> Verdict
        requires { is_some (chip_in self.now.chips d) ≡ true }
        ensures { (c : ChipValue) → chip_in self.now.chips d ≡ Some c → Decides self.now.setup.domains (table_of self.now c) port head.now message.now result }
    {
        self.cuts
            .at(d)
            .decide(port, head, message, self.bridge.domains())
    }

    /// Notes in the chip of the domain what a frame at the port leaves there.
    pub(crate) fn note(&mut self, d: Dom, port: Port, head: &Head) -> Result<(), NoMemory>
        requires { is_some (chip_in self.old.chips d) ≡ true }
        ensures { OnOk result ((c : ChipValue) → chip_in self.old.chips d ≡ Some c
            → self.new ≡ record self.old { chips = put_chip self.old.chips (notes (table_of self.old c) port head.now c) }) }
    {
        self.cuts.note(d, port, head)
    }

    /// Whether the domain has a chip.
    pub(crate) fn has_chip(&self, d: Dom) -> bool
        ensures { result ≡ is_some (chip_in self.now.chips d) }
    {
        self.cuts.has(d)
    }

    /// How many deferred changes the chip of the domain has applied.
    pub(crate) fn applied(&self, d: Dom) -> u32
        requires { is_some (chip_in self.now.chips d) ≡ true }
        ensures { option_map (λ c. c.count) (chip_in self.now.chips d) ≡ Some result }
    {
        self.cuts.at(d).count()
    }

    /// The deferred change with this ticket.
    fn update(&self, ticket: u32) -> Option<Update>
        ensures { result ≡ slice_get (updates self.now.setup.domains.edition self.now.history) ticket }
    {
        self.updates.get(self.bridge.history(), ticket)
    }

    /// The deferred change that the chip of the domain applies next, if one is pending.
    pub(crate) fn next_update(&self, d: Dom) -> Option<Update>
        requires { is_some (chip_in self.now.chips d) ≡ true }
        ensures { (c : ChipValue) → chip_in self.now.chips d ≡ Some c
            → result ≡ slice_get (updates self.now.setup.domains.edition self.now.history) c.count }
    {
        self.update(self.applied(d))
    }

    /// The chip of the domain applies the next deferred change.
    fn apply(&mut self, d: Dom, update: &Update) -> Result<(), NoMemory>
        requires chip { is_some (chip_in self.old.chips d) ≡ true }
        requires next { (c : ChipValue) → chip_in self.old.chips d ≡ Some c
            → slice_get (updates self.old.setup.domains.edition self.old.history) c.count ≡ Some update.now }
        ensures { OnOk result ((c : ChipValue) → chip_in self.old.chips d ≡ Some c
            → self.new ≡ record self.old { chips = put_chip self.old.chips (applies c update.now.change) }) }
    {
        // law: the history is within the limits
        let _history = self.bridge.history();
        self.cuts.turn(d, &update.change)
    }

    /// The chip of the domain applies the next deferred change. The line of the step is added.
    pub(crate) fn turn(&mut self, step: u32, d: Dom, lines: &mut Lines) -> Result<(), NoMemory>
        requires { is_some (chip_in self.old.chips d) ≡ true }
        ensures { OnOk result (Added (Comes of_sides (λ w. turns w (chip_at w d)) self.old step self.new) lines.old.lines lines.new.lines) }
    {
        let Some(update) = self.next_update(d) else {
            let refusal = Refusal::NothingPending;
            lines.push(Line::Refused { step, refusal })?;
            return Ok(());
        };
        self.apply(d, &update)?;
        lines.push(Line::Done { step, changes: 0 })?;
        Ok(())
    }

    /// The bridge is told the oldest report of the domain's chip, which leaves unless that is refused. The lines of the step are added.
    pub(crate) fn report(
        &mut self,
        alloc: Global,
        step: u32,
        d: Dom,
        lines: &mut Lines,
    ) -> Result<(), NoMemory>
        requires { is_some (chip_in self.old.chips d) ≡ true }
        ensures { OnOk result (Added (Comes of_sides (λ w. reports w (chip_at w d)) self.old step self.new) lines.old.lines lines.new.lines) }
    {
        lines.reserve(1, 0)?;
        let Some((vid, mac, port)) = self.cuts.at(d).first_report() else {
            let refusal = Refusal::NothingReported;
            lines.push_reserved(Line::Refused { step, refusal });
            return Ok(());
        };
        let event = Event::Told { vid, mac, port };
        let outcome = self.react_to_report(alloc, &event, d, lines);
        lines.push_reserved(last_line(step, outcome)?);
        Ok(())
    }

    /// The bridge reacts to the oldest report of the domain's chip, which leaves unless that is refused.
    fn react_to_report(
        &mut self,
        alloc: Global,
        event: &Event,
        d: Dom,
        lines: &mut Lines,
    ) -> Result<u32, EventFault>
        requires event { IsEvent event.now }
        requires chip { is_some (chip_in self.old.chips d) ≡ true }
        requires room { 1 ≤ lines.old.rows }
        ensures reacted { (c : ChipValue) → chip_in self.old.chips d ≡ Some c
            → Reacted of_sides self.old self.new (put_chip self.old.chips (record c { reports = drop 1 c.reports })) lines.old.lines lines.new.lines result
            (reaction self.old.setup self.old.history self.old.control event.now) }
        ensures room { 1 ≤ lines.new.rows }
    {
        let changes = self.react(alloc, event, lines)?;
        self.cuts.drop_report(d);
        Ok(changes)
    }

    /// The bridge reacts to a sweep of the domain's chip, and no entry is hit there, unless that is refused.
    fn react_to_sweep(
        &mut self,
        alloc: Global,
        event: &Event,
        d: Dom,
        lines: &mut Lines,
    ) -> Result<u32, EventFault>
        requires event { IsEvent event.now }
        requires chip { is_some (chip_in self.old.chips d) ≡ true }
        requires room { 1 ≤ lines.old.rows }
        ensures reacted { (c : ChipValue) → chip_in self.old.chips d ≡ Some c
            → Reacted of_sides self.old self.new (put_chip self.old.chips (record c { hits = [] })) lines.old.lines lines.new.lines result
            (reaction self.old.setup self.old.history self.old.control event.now) }
        ensures room { 1 ≤ lines.new.rows }
    {
        let changes = self.react(alloc, event, lines)?;
        self.cuts.clear_hits(d);
        Ok(changes)
    }

    /// The bridge forgets what the chip of the domain no longer sees, and no entry is hit there, unless that is refused. The lines of the
    /// step are added.
    pub(crate) fn sweep(
        &mut self,
        alloc: Global,
        step: u32,
        d: Dom,
        lines: &mut Lines,
    ) -> Result<(), NoMemory>
        requires { is_some (chip_in self.old.chips d) ≡ true }
        ensures { OnOk result (Added (Comes of_sides (λ w. sweeps w (chip_at w d)) self.old step self.new) lines.old.lines lines.new.lines) }
    {
        lines.reserve(1, 0)?;
        let stations = self.cuts.at(d).unhit(alloc, self.bridge.domains())?;
        let event = Event::Forget(stations);
        let outcome = self.react_to_sweep(alloc, &event, d, lines);
        lines.push_reserved(last_line(step, outcome)?);
        Ok(())
    }

    /// All changes are published.
    pub(crate) fn publish(&mut self) -> Result<(), NoMemory>
        ensures { OnOk result ((q : Queued) (step : ℕ) → publishes (world_of self.old q step) (length self.old.history) ≡ world_of self.new q step) }
    {
        let all = self.bridge.history().len() as u32;
        if all != self.published {
            self.counts.push(all)?;
            self.published = all;
        }
        Ok(())
    }

    /// The declared ports with their domains.
    pub(crate) fn domains(&self) -> &Domains
        ensures { result.now ≡ self.now.setup.domains }
    {
        self.bridge.domains()
    }

    /// The accepted changes, the oldest first.
    pub(crate) fn history(&self) -> &[Change]
        ensures value { result.now ≡ self.now.history }
        ensures within { AreWithin result.now }
    {
        self.bridge.history()
    }

    /// How many changes were accepted.
    pub(crate) fn changes(&self) -> u32
        ensures { result ≡ length self.now.history }
    {
        self.bridge.history().len() as u32
    }

    /// How many changes are published.
    pub(crate) fn published(&self) -> u32
        ensures { result ≡ self.now.published }
    {
        self.published
    }

    /// Whether this count was published.
    pub(crate) fn was_published(&self, point: u32) -> bool
        requires { IsStrictlySortedBy nat_cmp self.now.counts }
        ensures { result ≡ has nat_cmp self.now.counts point }
    {
        has(self.counts.as_slice(), point)
    }

    /// How many deferred changes chips haven't applied, all chips together.
    pub(crate) fn pending(&self) -> u32
        ensures { result ≡ sum_by (λ c. deferred_count self.now.setup.domains.edition self.now.history - c.count) self.now.chips }
    {
        self.cuts.pending(self.updates.len() as u32)
    }
}
