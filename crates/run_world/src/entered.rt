//! The general queries among the frames that have entered.
ghost use Rattle.std.specs.Prelude.{◌≡◌, ℕ, ◌-◌, ◌<◌, ◌^◌, ◌++◌, ◌∷◌, [], List, Option, ◌+◌, IfOk, OnOk};
ghost use Rattle.std.specs.Option.{is_some};
ghost use Rattle.std.specs.List.{flat_map};
ghost use Rattle.br_model.specs.declared.transcript.Line.TheVariants.{Tx};
ghost use Rattle.mcast_querier.specs.Hearing.{Asker, asker_in};
ghost use Rattle.mcast_querier.specs.Querier.{heard};
ghost use Rattle.mcast_querier.specs.Runs.{entered, heard_in};
ghost use Rattle.transcript_lines.specs.Rows.{expand_row, sent_lines};
ghost use Rattle.run_world.specs.Hearing.{Hears, Keeps, kept_at};

use crate::NoMemory;
use br_model::bytes::Bytes;
use br_model::steps::Step;
use br_model::transcript::Line;
use ether_frames::parse;
use mcast_querier::{Querier, asker};
use port_sets::Ports;
use std::alloc::{AllocError, Global};
use std::collections::BTreeMap;
use transcript_lines::{Lines, Row};

/// How many frames have entered, and those of them that are general queries: each by how many were before it.
#[derive(Drop)]
pub(crate) struct Entered {
    count: u32,
    queries: BTreeMap<u32, Bytes>,
}

/// Past the last number it answers want of memory.
fn one_more(count: u32) -> Result<u32, NoMemory>
    ensures { IfOk result (λ n. n ≡ count + 1) }
{
    count.checked_add(1).ok_or(AllocError)
}

/// Whether the bytes are a general query from an address.
fn asks(bytes: &[u8]) -> bool
    ensures { result ≡ is_some (asker_in bytes.now) }
{
    match parse(bytes) {
        Ok(head) => asker(bytes, &head).is_some(),
        Err(_) => false,
    }
}

impl Entered {
    pub(crate) fn none(alloc: Global) -> Entered
        ensures { Keeps result [] }
    {
        Entered {
            count: 0,
            queries: BTreeMap::new(alloc),
        }
    }

    /// Keeps the bytes that enter.
    fn keep(&mut self, alloc: Global, bytes: &[u8]) -> Result<(), NoMemory>
        ensures { OnOk result ((askers : List (Option Asker)) → Keeps self.old askers → Keeps self.new (askers ++ asker_in bytes.now ∷ [])) }
    {
        let place = self.count;
        self.count = one_more(place)?;
        if asks(bytes) {
            self.queries.insert(place, Bytes::copy_of(alloc, bytes)?)?;
        }
        Ok(())
    }

    /// Keeps the frame that enters by the step, if one does.
    pub(crate) fn enter(&mut self, alloc: Global, step: &Step) -> Result<(), NoMemory>
        ensures { OnOk result ((askers : List (Option Asker)) → Keeps self.old askers → Keeps self.new (askers ++ entered step.now)) }
    {
        match step {
            Step::Rx { bytes, .. } => self.keep(alloc, bytes.as_slice()),
            _ => Ok(()),
        }
    }

    /// The querier hears the frame with this id at this moment, if it is a query.
    fn hear(&self, id: u32, now: u64, querier: &mut Querier)
        requires { now < 2 ^ 53 }
        ensures { querier.new ≡ heard querier.old (kept_at self.now (id - 1)) now }
    {
        let Some(bytes) = self.queries.get(&id.saturating_sub(1)) else {
            return;
        };
        let Ok(head) = parse(bytes.as_slice()) else {
            return;
        };
        querier.heard(bytes.as_slice(), &head, now);
    }

    /// The same where the frame left this port, and it is the host.
    fn hear_at(&self, id: u32, port: u8, now: u64, querier: &mut Querier)
        requires { now < 2 ^ 53 }
        ensures { (askers : List (Option Asker)) (bytes : List ℕ) → Keeps self.now askers
            → Hears querier.old (heard_in askers now (Tx id port bytes)) querier.new }
    {
        if port == 0 {
            self.hear(id, now, querier);
        }
    }

    /// The same where the line says that the frame left for the host.
    fn hear_line(&self, line: &Line, now: u64, querier: &mut Querier)
        requires { now < 2 ^ 53 }
        ensures { (askers : List (Option Asker)) → Keeps self.now askers → Hears querier.old (heard_in askers now line.now) querier.new }
    {
        match line.leaving() {
            Some((id, port)) => self.hear_at(id, port.number(), now, querier),
            None => {}
        }
    }

    /// The same where a frame left these ports.
    fn hear_sent(&self, id: u32, ports: Ports, now: u64, querier: &mut Querier)
        requires { now < 2 ^ 53 }
        ensures { (askers : List (Option Asker)) (untagged plain tagged : List ℕ) → Keeps self.now askers
            → Hears querier.old (flat_map (heard_in askers now) (sent_lines id ports untagged plain tagged)) querier.new }
    {
        'ports: for port in ports.iter() {
            self.hear_at(id, port, now, querier);
        }
    }

    fn hear_row(&self, row: &Row, arena: &[u8], now: u64, querier: &mut Querier)
        requires { now < 2 ^ 53 }
        ensures { (askers : List (Option Asker)) → Keeps self.now askers
            → Hears querier.old (flat_map (heard_in askers now) (expand_row arena.now row.now)) querier.new }
    {
        match row {
            Row::One(line) => self.hear_line(line, now, querier),
            Row::Sent { id, ports, .. } => self.hear_sent(*id, *ports, now, querier),
            Row::Ctl { .. } => {}
        }
    }

    /// The querier hears what the lines say that left for the host, at this moment.
    pub(crate) fn hear_all(&self, lines: &Lines, now: u64, querier: &mut Querier)
        requires { now < 2 ^ 53 }
        ensures { (askers : List (Option Asker)) → Keeps self.now askers → Hears querier.old (flat_map (heard_in askers now) lines.now.lines) querier.new }
    {
        let (rows, arena) = lines.parts();
        for row in rows {
            self.hear_row(row, arena, now, querier);
        }
    }
}
