//! A scenario in memory, read to its end.
ghost use Rattle.std.specs.Prelude.{◌≡◌, ℕ, ◌+◌, ◌-◌, ◌<◌, ◌≤◌, ◌^◌, ◌++◌, ◌∷◌, Bool, List, None, Some, IfOk, OnOk, length, true};
ghost use Rattle.br_model.specs.Table.Limits.{most_bytes};
ghost use Rattle.br_model.specs.Text.Operands.{longest_section};
ghost use Rattle.br_model.specs.Text.Scenario.{Scenario, read};
ghost use Rattle.br_model.specs.Theorems.WholeLines.{is_line};
ghost use Rattle.scenario_reader.specs.Passing.{AtSection, CutsFront, Finishes, Goes, IsLeft, Stands, left_by};
ghost use Rattle.scenario_reader.specs.Whole.{SaysWhole};

use crate::NoMemory;
use crate::reader::{Captured, Last, Next, Reader};
use br_model::limits::LONGEST_LINE;
use br_model::scenario::LineWhy;
use br_model::steps::Step;
use bridge_command::Roster;
use memchr::memchr;
use std::alloc::Global;
use std::marker::Model;

/// What a whole scenario says: what it declares, its steps, and how it ends.
#[derive(Drop)]
pub struct Whole {
    reader: Reader,
    steps: Vec<Step>,
    last: Option<Last>,
    close: Last,
    behind: usize,
}

impl Model for Whole {
    ghost use Rattle.scenario_reader.specs.Whole.{WholeState};

    ghost Value = { WholeState };

    ghost view = { λ w. record { roster = w.reader.roster; steps = w.steps.items; last = w.last; close = w.close; behind = w.behind } };
}

impl Whole {
    /// What is declared.
    pub fn roster(&self) -> &Roster
        ensures { result.now ≡ self.now.roster }
    {
        self.reader.roster()
    }

    pub fn steps(&self) -> &[Step]
        ensures { result.now ≡ self.now.steps }
    {
        &self.steps
    }

    /// How the scenario's whole lines end it: by the line `end` or a bad one. `None` where it goes on.
    pub fn last(&self) -> Option<Last>
        ensures { result ≡ self.now.last }
    {
        self.last
    }

    /// How the scenario ends where nothing comes behind its bytes: as above, or by the line `end` without its line feed, or in a line
    /// or a section that isn't whole.
    pub fn close(&self) -> Last
        ensures { result ≡ self.now.close }
    {
        self.close
    }

    /// Where in the scenario's bytes stands what is behind the line `end` and its line feed. Behind all of them where nothing is.
    pub fn behind(&self) -> usize
        ensures { result ≡ self.now.behind }
    {
        self.behind
    }

    /// The steps alone.
    pub fn into_steps(self) -> Vec<Step>
        ensures { result.items ≡ self.steps }
    {
        self.steps
    }
}

/// The first line of some bytes, without its line feed, and what is behind it.
#[derive(Clone, Copy, Drop)]
struct Line<'a> {
    bytes: &'a [u8],
    behind: &'a [u8],
}

/// How a scenario ends where its bytes do, and how many of them are left.
#[derive(Clone, Copy, Drop)]
struct End {
    /// By its whole lines.
    last: Option<Last>,
    close: Last,
    left: usize,
}

/// What comes after a line: the scenario goes on with these bytes, or it ends so.
#[derive(Drop)]
enum Went<'a> {
    On(&'a [u8]),
    Ends(End),
}

/// The first line, where it has a line feed.
fn front(bytes: &[u8]) -> Option<Line<'_>>
    ensures { CutsFront bytes.now result }
{
    match memchr(b'\n', bytes) {
        Some(at) => Some(Line {
            bytes: &bytes[..at],
            behind: &bytes[at + 1..],
        }),
        None => None,
    }
}

impl End {
    /// By a whole line, in front of so many bytes. Nothing behind a bad line is the scenario's.
    fn by(last: Last, behind: usize) -> End
        ensures last { result.last ≡ Some last }
        ensures close { result.close ≡ last }
        ensures left { result.left ≡ left_by last behind }
    {
        End {
            last: Some(last),
            close: last,
            left: match last {
                Last::Ended => behind,
                Last::Bad(..) => 0,
            },
        }
    }

    /// Where the bytes end in a line or in a section.
    fn within(close: Last) -> End
        ensures last { result.last ≡ None }
        ensures close { result.close ≡ close }
        ensures left { result.left ≡ 0 }
    {
        End {
            last: None,
            close,
            left: 0,
        }
    }
}

/// A scenario while it is read: its lines so far, and their steps.
#[derive(Drop)]
struct Reading {
    reader: Reader,
    steps: Vec<Step>,
}

// After want of memory it isn't used again.
impl Reading {
    /// Reads the section of the line before, of so many of these bytes.
    fn section<'a>(
        &mut self,
        alloc: Global,
        length: u32,
        behind: &'a [u8],
    ) -> Result<Went<'a>, NoMemory>
        requires most { length ≤ longest_section }
        ensures lines { OnOk result (self.new.reader.lines ≡ self.old.reader.lines) }
        ensures left { IfOk result (IsLeft behind.now) }
        ensures goes { IfOk result (λ went. (check : Bool) (s : Scenario) (line : List ℕ) → AtSection check s line length self.old.reader self.old.steps.items
            → Goes check s (line ++ 10 ∷ behind.now) self.new.reader self.new.steps.items went) }
    {
        let length = length as usize;
        if behind.len() < length {
            let close = self.reader.bad_section(LineWhy::Unended);
            return Ok(Went::Ends(End::within(close)));
        }
        match self.reader.captured(alloc, &behind[..length])? {
            Captured::Steps(mut steps) => {
                self.steps.append(&mut steps)?;
                Ok(Went::On(&behind[length..]))
            }
            Captured::End(last) => Ok(Went::Ends(End::by(last, 0))),
        }
    }

    /// Reads a whole line, and its section where it has one.
    fn line<'a>(&mut self, alloc: Global, line: Line<'a>) -> Result<Went<'a>, NoMemory>
        requires few { self.old.reader.lines < 2 ^ 32 - 1 }
        requires feedless { is_line line.bytes.now ≡ true }
        ensures lines { OnOk result (self.new.reader.lines ≤ self.old.reader.lines + 1) }
        ensures left { IfOk result (IsLeft line.entry.behind.now) }
        ensures goes { IfOk result (λ went. (check : Bool) (s : Scenario) → Stands check s self.old.reader self.old.steps.items
            → Goes check s (line.entry.bytes.now ++ 10 ∷ line.entry.behind.now) self.new.reader self.new.steps.items went) }
    {
        if line.bytes.len() > LONGEST_LINE {
            let last = self.reader.bad(LineWhy::Long);
            return Ok(Went::Ends(End::by(last, 0)));
        }
        match self.reader.take(alloc, line.bytes)? {
            Next::Line => Ok(Went::On(line.behind)),
            Next::Step(step) => {
                self.steps.push(step)?;
                Ok(Went::On(line.behind))
            }
            Next::Section(length) => self.section(alloc, length, line.behind),
            Next::End(last) => Ok(Went::Ends(End::by(last, line.behind.len()))),
        }
    }

    /// How the scenario ends where its bytes end in this line.
    fn close(&self, rest: &[u8]) -> End
        requires few { self.now.reader.lines < 2 ^ 32 - 1 }
        requires feedless { is_line rest.now ≡ true }
        ensures { (check : Bool) (s : Scenario) → Stands check s self.now.reader self.now.steps.items
            → Finishes check rest.now (read 0 s rest.now) self.now.reader self.now.steps.items result }
    {
        if rest.len() > LONGEST_LINE {
            return End::by(self.reader.bad(LineWhy::Long), 0);
        }
        End::within(self.reader.close(rest))
    }

    /// Reads the scenario to its end.
    fn read(&mut self, alloc: Global, bytes: &[u8]) -> Result<End, NoMemory>
        requires few { self.old.reader.lines + length bytes.now ≤ most_bytes }
        ensures { IfOk result (λ end. (check : Bool) (s : Scenario) → Stands check s self.old.reader self.old.steps.items
            → Finishes check bytes.now (read 0 s bytes.now) self.new.reader self.new.steps.items end) }
    {
        let mut rest = bytes;
        while let Some(line) = front(rest) {
            match self.line(alloc, line)? {
                Went::On(behind) => rest = behind,
                Went::Ends(end) => return Ok(end),
            }
        }
        Ok(self.close(rest))
    }
}

/// Reads a scenario, whose command is `check` or not.
///
/// # Errors
///
/// `NoMemory` where its steps or names find no room.
pub fn read_scenario(alloc: Global, check: bool, bytes: &[u8]) -> Result<Whole, NoMemory>
    requires short { length bytes.now ≤ most_bytes }
    ensures says { IfOk result (SaysWhole check bytes.now) }
{
    let mut reading = Reading {
        reader: Reader::make(alloc, check)?,
        steps: Vec::new(alloc),
    };
    let end = reading.read(alloc, bytes)?;
    Ok(Whole {
        reader: reading.reader,
        steps: reading.steps,
        last: end.last,
        close: end.close,
        behind: bytes.len() - end.left,
    })
}
