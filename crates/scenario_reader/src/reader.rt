//! What the lines of a scenario come to.
ghost use Rattle.std.specs.Prelude.{◌≡◌, ◌+◌, ◌-◌, ◌<◌, ◌≤◌, ◌^◌, IfOk, OnOk, length};
ghost use Rattle.br_model.specs.Text.Operands.{longest_section};
ghost use Rattle.br_model.specs.Text.Roster.{first_roster};
ghost use Rattle.br_model.specs.Text.Scenario.{Scenario, closes, longest_line};
ghost use Rattle.scenario_reader.specs.declared.reader.Last.TheVariants as Last;
ghost use Rattle.scenario_reader.specs.Reading.{Follows, IsCaptured, Takes, ending_of};

use crate::NoMemory;
use crate::section::captured_steps;
use br_model::scenario::{Item, LineWhy, Place};
use br_model::steps::Step;
use bridge_command::Roster;
use pcapng_read::CapFault;
use scenario_text::{read_line, says_end};
use std::alloc::{AllocError, Global};
use std::marker::Model;

/// How a scenario ends: by its line `end`, or by the bad line of that number, for that cause.
#[derive(Clone, Copy)]
pub enum Last {
    Ended,
    Bad(u32, LineWhy),
}

/// What a section gives.
#[derive(Drop)]
pub enum Captured {
    /// Its packets, as steps in their order.
    Steps(Vec<Step>),
    /// It is cut off, or one of its blocks is broken, so the scenario ends.
    End(Last),
}

/// What comes after a line.
#[derive(Drop)]
pub enum Next {
    /// The next line.
    Line,
    /// The line's step.
    Step(Step),
    /// The line's section, of so many bytes.
    Section(u32),
    /// Nothing: the scenario ends so.
    End(Last),
}

/// How many lines were read, and what they have declared.
#[derive(Drop)]
pub struct Reader {
    lines: u32,
    roster: Roster,
}

impl Model for Reader {
    ghost use Rattle.scenario_reader.specs.Reading.{ReaderState};

    ghost Value = { ReaderState };

    ghost view = { λ r. record { lines = r.lines; roster = r.roster } };
}

impl Reader {
    /// Before the first line of a scenario, whose command is `check` or not.
    pub fn make(alloc: Global, check: bool) -> Result<Reader, NoMemory>
        ensures { IfOk result (λ r. r ≡ record { lines = 0; roster = first_roster check }) }
    {
        Ok(Reader {
            lines: 0,
            roster: Roster::make(alloc, check)?,
        })
    }

    /// What was declared.
    pub fn roster(&self) -> &Roster
        ensures { result.now ≡ self.now.roster }
    {
        &self.roster
    }

    /// Reads a whole line within the limit of its length, without its line feed.
    #[inline(always)]
    pub fn take(&mut self, alloc: Global, line: &[u8]) -> Result<Next, NoMemory>
        requires short { length line.now ≤ longest_line }
        requires few { self.old.lines < 2 ^ 32 - 1 }
        ensures takes { IfOk result (Takes self.old line.now self.new) }
        ensures lines { OnOk result (self.new.lines ≤ self.old.lines + 1) }
    {
        let item = match read_line(alloc, line, &mut self.roster) {
            Ok(item) => item,
            Err(LineWhy::NoMemory) => return Err(AllocError),
            Err(why) => return Ok(Next::End(self.bad(why))),
        };
        self.lines += 1;
        match item {
            Item::Blank => Ok(Next::Line),
            Item::Scenario(_) => Ok(Next::Line),
            Item::Bridge(_) => Ok(Next::Line),
            Item::Declared(_) => Ok(Next::Line),
            Item::Step(step) => Ok(Next::Step(step)),
            Item::Capture(length) => Ok(Next::Section(length)),
            Item::End => Ok(Next::End(Last::Ended)),
        }
    }

    /// Reads the section of the line before.
    pub fn captured(&self, alloc: Global, section: &[u8]) -> Result<Captured, NoMemory>
        requires { length section.now ≤ longest_section }
        ensures { IfOk result (IsCaptured self.now section.now) }
    {
        match captured_steps(alloc, section, &self.roster) {
            Ok(steps) => Ok(Captured::Steps(steps)),
            Err(CapFault::At { offset, .. }) => {
                Ok(Captured::End(self.bad_section(LineWhy::Capture(offset))))
            }
            Err(CapFault::NoMemory) => Err(AllocError),
        }
    }

    /// How the scenario ends where its bytes end in this line.
    pub fn close(&self, rest: &[u8]) -> Last
        requires few { self.now.lines < 2 ^ 32 - 1 }
        ensures { (s : Scenario) → Follows s self.now → (closes s rest.now).ending ≡ ending_of result }
    {
        if !says_end(rest) {
            return self.bad(LineWhy::Unended);
        }
        match self.roster.stands(Place::Steps) {
            Ok(()) => Last::Ended,
            Err(_) => self.bad(LineWhy::Place),
        }
    }

    /// The next line is bad.
    pub fn bad(&self, why: LineWhy) -> Last
        requires few { self.now.lines < 2 ^ 32 - 1 }
        ensures { result ≡ Last.Bad (self.now.lines + 1) why }
    {
        Last::Bad(self.lines + 1, why)
    }

    /// The line before is bad, since its section is.
    pub fn bad_section(&self, why: LineWhy) -> Last
        ensures { result ≡ Last.Bad self.now.lines why }
    {
        Last::Bad(self.lines, why)
    }
}
