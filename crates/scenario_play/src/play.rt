//! The lines of a scenario are played on a stage, and what they tell is written.
ghost use Rattle.std.specs.Prelude.{◌≡◌, ℕ, ◌+◌, ◌-◌, ◌<◌, ◌≤◌, ◌^◌, ◌∷◌, ◌++◌, [], List, IfOk, IfSome, OnErr, OnOk, false, length, string_bytes, true};
ghost use Rattle.std.specs.List.{list_all};
ghost use Rattle.br_model.specs.Table.Limits.{most_bytes};
ghost use Rattle.br_model.specs.Text.LineForms.{comes_by_line};
ghost use Rattle.br_model.specs.Text.Operands.{longest_section};
ghost use Rattle.br_model.specs.Text.Roster.{chips_of, first_roster};
ghost use Rattle.br_model.specs.Text.Scenario.{Scenario, opened, read, scenario};
ghost use Rattle.br_model.specs.Theorems.Invariants.{IsWorld};
ghost use Rattle.br_model.specs.Theorems.WholeLines.{is_line};
ghost use Rattle.transcript_text.specs.Extends.{Extends};
ghost use Rattle.scenario_play.specs.Playing.{After, AfterSection, AtSection, Does, DoesAll, Fits, Goes, HasBegun, IsBehind, IsDone, IsLeft, IsOver, IsReady, IsSteady, Stands, closing, last_line, played};
ghost use Rattle.scenario_play.specs.Stages.{Keeps};

use crate::NoMemory;
use crate::fronts::{Front, first_line};
use crate::stage::Stage;
use crate::torn::cut_if_torn;
use br_model::limits::LONGEST_LINE;
use br_model::scenario::LineWhy;
use br_model::steps::Step;
use bridge_command::Roster;
use scenario_reader::{Captured, Last, Next, Reader};
use std::alloc::Global;
use transcript_lines::Lines;
use transcript_text::{Writer, append_bad};

/// What comes after a line whose step, if it has one, is done.
#[derive(Clone, Copy)]
pub enum Taken {
    /// The next line.
    On,
    /// Its section, of so many bytes.
    Section(u32),
    /// Nothing: the scenario ends so.
    Ends(Last),
}

/// What comes after a line and its section: the scenario goes on with these bytes, or it ends so.
#[derive(Drop)]
enum Went<'a> {
    On(&'a [u8]),
    Ends(Last),
}

/// What has read the lines so far. The stage on which they are played, and the text behind which it is written what they tell, are handed to each
/// call.
#[derive(Drop)]
pub struct Play {
    reader: Reader,
    // Those of the last step, in the memory of those before.
    told: Lines,
    writer: Writer,
}

/// Makes the stage's world, where it has none.
#[inline(always)]
fn begin<W: Stage>(stage: &mut W, alloc: Global, roster: &Roster) -> Result<(), NoMemory>
    requires ready { IsReady roster.now (W.stands stage.old).world }
    requires fits { Fits roster.now (W.stands stage.old) }
    ensures { OnOk result (HasBegun roster.now (W.stands stage.old) (W.stands stage.new)) }
{
    if stage.has_begun() {
        return Ok(());
    }
    // law: what is declared fits beside each other
    roster.len();
    stage.begin(alloc, roster)
}

/// Does a step. Its lines are added.
#[inline(always)]
fn do_step<W: Stage>(
    stage: &mut W,
    alloc: Global,
    roster: &Roster,
    step: Step,
    lines: &mut Lines,
) -> Result<(), NoMemory>
    requires ready { IsReady roster.now (W.stands stage.old).world }
    requires fits { Fits roster.now (W.stands stage.old) }
    requires by_line { comes_by_line roster.now.check (chips_of roster.now.ports) step ≡ true }
    requires empty { lines.old.lines ≡ [] }
    ensures { OnOk result (IsDone roster.now (W.stands stage.old) step (W.stands stage.new) lines.new.lines) }
{
    begin(stage, alloc, roster)?;
    stage.step(alloc, step, lines)
}

// After want of memory it isn't used again. Then a call that does one step at most has left the text as it was.
impl Play {
    /// Before the first line of a scenario, whose command is `check` or not.
    pub fn make(alloc: Global, check: bool) -> Result<Play, NoMemory>
        ensures { IfOk result (λ x. x.reader ≡ record { lines = 0; roster = first_roster check }) }
    {
        Ok(Play {
            reader: Reader::make(alloc, check)?,
            told: Lines::new(alloc),
            writer: Writer::new(alloc),
        })
    }

    /// What was read.
    pub fn reader(&self) -> &Reader
        ensures { result.now ≡ self.now.reader }
    {
        &self.reader
    }

    /// Does a step, and writes its lines.
    #[inline(always)]
    pub fn step<W: Stage>(
        &mut self,
        stage: &mut W,
        alloc: Global,
        step: Step,
        text: &mut String,
    ) -> Result<(), NoMemory>
        requires ready { IsReady self.old.reader.roster (W.stands stage.old).world }
        requires fits { Fits self.old.reader.roster (W.stands stage.old) }
        requires by_line { comes_by_line self.old.reader.roster.check (chips_of self.old.reader.roster.ports) step ≡ true }
        ensures does { OnOk result (Does (played self.old (W.stands stage.old) (string_bytes text.old)) step
            (played self.new (W.stands stage.new) (string_bytes text.new))) }
        ensures err { OnErr result (string_bytes text.new ≡ string_bytes text.old) }
    {
        self.told.clear();
        let roster = self.reader.roster();
        do_step(stage, alloc, roster, step, &mut self.told)?;
        let whole = text.as_bytes().len();
        let appended = self.writer.append_lines(&self.told, text);
        cut_if_torn(appended, whole, text)
    }

    fn do_steps<W: Stage>(
        &mut self,
        stage: &mut W,
        alloc: Global,
        steps: Vec<Step>,
        text: &mut String,
    ) -> Result<(), NoMemory>
        requires ready { IsReady self.old.reader.roster (W.stands stage.old).world }
        requires fits { Fits self.old.reader.roster (W.stands stage.old) }
        requires by_line { list_all (comes_by_line self.old.reader.roster.check (chips_of self.old.reader.roster.ports)) steps.items ≡ true }
        ensures reader { OnOk result (self.new.reader ≡ self.old.reader) }
        ensures ready { OnOk result (IsReady self.new.reader.roster (W.stands stage.new).world) }
        ensures fits { OnOk result (Fits self.new.reader.roster (W.stands stage.new)) }
        ensures keeps { OnOk result (Keeps (W.stands stage.old) (W.stands stage.new)) }
        ensures does { OnOk result (DoesAll (played self.old (W.stands stage.old) (string_bytes text.old)) steps.items
            (played self.new (W.stands stage.new) (string_bytes text.new))) }
    {
        for step in steps {
            self.step(stage, alloc, step, text)?;
        }
        Ok(())
    }

    /// Does the steps of the section of the line before, or answers how the scenario ends in it. After want of memory some of the steps may have
    /// been told.
    pub fn take_section<W: Stage>(
        &mut self,
        stage: &mut W,
        alloc: Global,
        section: &[u8],
        text: &mut String,
    ) -> Result<Option<Last>, NoMemory>
        requires most { length section.now ≤ longest_section }
        requires ready { IsReady self.old.reader.roster (W.stands stage.old).world }
        requires fits { Fits self.old.reader.roster (W.stands stage.old) }
        ensures reader { OnOk result (self.new.reader ≡ self.old.reader) }
        ensures ready { OnOk result (IsReady self.new.reader.roster (W.stands stage.new).world) }
        ensures fits { OnOk result (Fits self.new.reader.roster (W.stands stage.new)) }
        ensures keeps { OnOk result (Keeps (W.stands stage.old) (W.stands stage.new)) }
        ensures after { IfOk result (λ end. (given : List ℕ) (s : Scenario) (line : List ℕ)
            → AtSection given s line (length section.now) (played self.old (W.stands stage.old) (string_bytes text.old))
            → AfterSection given s line section.now (played self.new (W.stands stage.new) (string_bytes text.new)) end) }
    {
        match self.reader.captured(alloc, section)? {
            Captured::Steps(steps) => {
                self.do_steps(stage, alloc, steps, text)?;
                Ok(None)
            }
            Captured::End(last) => Ok(Some(last)),
        }
    }

    /// Takes a whole line, up to its section where it has one.
    #[inline(always)]
    pub fn take<W: Stage>(
        &mut self,
        stage: &mut W,
        alloc: Global,
        line: &[u8],
        text: &mut String,
    ) -> Result<Taken, NoMemory>
        requires few { self.old.reader.lines < 2 ^ 32 - 1 }
        requires feedless { is_line line.now ≡ true }
        requires steady { IsSteady self.old.reader.roster (W.stands stage.old).world }
        requires fits { Fits self.old.reader.roster (W.stands stage.old) }
        ensures lines { OnOk result (self.new.reader.lines ≤ self.old.reader.lines + 1) }
        ensures steady { OnOk result (IsSteady self.new.reader.roster (W.stands stage.new).world) }
        ensures fits { OnOk result (Fits self.new.reader.roster (W.stands stage.new)) }
        ensures keeps { OnOk result (Keeps (W.stands stage.old) (W.stands stage.new)) }
        ensures behind { IfOk result (IsBehind self.new.reader.roster) }
        ensures after { IfOk result (λ taken. (given : List ℕ) (s : Scenario)
            → Stands given s (played self.old (W.stands stage.old) (string_bytes text.old))
            → After given s line.now (played self.new (W.stands stage.new) (string_bytes text.new)) taken) }
        ensures err { OnErr result (string_bytes text.new ≡ string_bytes text.old) }
    {
        if line.len() > LONGEST_LINE {
            return Ok(Taken::Ends(self.reader.bad(LineWhy::Long)));
        }
        match self.reader.take(alloc, line)? {
            Next::Line => Ok(Taken::On),
            Next::Step(step) => {
                self.step(stage, alloc, step, text)?;
                Ok(Taken::On)
            }
            Next::Section(length) => Ok(Taken::Section(length)),
            Next::End(last) => Ok(Taken::Ends(last)),
        }
    }

    /// Reads the section of the line before, of so many of these bytes, and does its steps.
    fn section<'a, W: Stage>(
        &mut self,
        stage: &mut W,
        alloc: Global,
        length: u32,
        behind: &'a [u8],
        text: &mut String,
    ) -> Result<Went<'a>, NoMemory>
        requires most { length ≤ longest_section }
        requires ready { IsReady self.old.reader.roster (W.stands stage.old).world }
        requires fits { Fits self.old.reader.roster (W.stands stage.old) }
        ensures lines { OnOk result (self.new.reader.lines ≡ self.old.reader.lines) }
        ensures left { IfOk result (IsLeft behind.now) }
        ensures goes { IfOk result (λ went. (s : Scenario) (line : List ℕ)
            → AtSection [] s line length (played self.old (W.stands stage.old) (string_bytes text.old))
            → Goes s (line ++ 10 ∷ behind.now) (played self.new (W.stands stage.new) (string_bytes text.new)) went) }
    {
        let length = length as usize;
        if behind.len() < length {
            return Ok(Went::Ends(self.reader.bad_section(LineWhy::Unended)));
        }
        match self.take_section(stage, alloc, &behind[..length], text)? {
            None => Ok(Went::On(&behind[length..])),
            Some(last) => Ok(Went::Ends(last)),
        }
    }

    /// Takes a whole line, and its section where it has one.
    fn line<'a, W: Stage>(
        &mut self,
        stage: &mut W,
        alloc: Global,
        front: Front<'a>,
        text: &mut String,
    ) -> Result<Went<'a>, NoMemory>
        requires few { self.old.reader.lines < 2 ^ 32 - 1 }
        requires feedless { is_line front.line.now ≡ true }
        requires steady { IsSteady self.old.reader.roster (W.stands stage.old).world }
        requires fits { Fits self.old.reader.roster (W.stands stage.old) }
        ensures lines { OnOk result (self.new.reader.lines ≤ self.old.reader.lines + 1) }
        ensures left { IfOk result (IsLeft front.entry.behind.now) }
        ensures goes { IfOk result (λ went. (s : Scenario)
            → Stands [] s (played self.old (W.stands stage.old) (string_bytes text.old))
            → Goes s (front.entry.line.now ++ 10 ∷ front.entry.behind.now) (played self.new (W.stands stage.new) (string_bytes text.new)) went) }
    {
        match self.take(stage, alloc, front.line, text)? {
            Taken::On => Ok(Went::On(front.behind)),
            Taken::Section(length) => self.section(stage, alloc, length, front.behind, text),
            Taken::Ends(last) => Ok(Went::Ends(last)),
        }
    }

    /// How the scenario ends where its bytes end in this line.
    fn close<W: Stage>(&self, stage: &W, rest: &[u8]) -> Last
        requires few { self.now.reader.lines < 2 ^ 32 - 1 }
        requires feedless { is_line rest.now ≡ true }
        ensures { (s : Scenario) (text : List ℕ) → Stands [] s (played self.now (W.stands stage.now) text)
            → IsOver [] (closing (read 0 s rest.now)) (W.stands stage.now) text result }
    {
        if rest.len() > LONGEST_LINE {
            return self.reader.bad(LineWhy::Long);
        }
        self.reader.close(rest)
    }

    /// Takes a whole scenario, and answers how it ends.
    pub fn read<W: Stage>(
        &mut self,
        stage: &mut W,
        alloc: Global,
        bytes: &[u8],
        text: &mut String,
    ) -> Result<Last, NoMemory>
        requires first { Stands [] (opened false) (played self.old (W.stands stage.old) (string_bytes text.old)) }
        requires fits { Fits self.old.reader.roster (W.stands stage.old) }
        requires few { length bytes.now ≤ most_bytes }
        ensures { IfOk result (IsOver [] (scenario bytes.now) (W.stands stage.new) (string_bytes text.new)) }
    {
        let mut rest = bytes;
        while let Some(front) = first_line(rest) {
            match self.line(stage, alloc, front, text)? {
                Went::On(behind) => rest = behind,
                Went::Ends(last) => return Ok(last),
            }
        }
        Ok(self.close(stage, rest))
    }

    /// Writes the last line of a scenario that ends so. After want of memory a part of it may stand there.
    fn write_last<W: Stage>(
        &mut self,
        stage: &W,
        last: Last,
        text: &mut String,
    ) -> Result<(), NoMemory>
        requires { IfSome (W.stands stage.now).world IsWorld }
        ensures reader { self.new.reader ≡ self.old.reader }
        ensures text { OnOk result (string_bytes text.new ≡ string_bytes text.old ++ last_line last (W.stands stage.now).world) }
        ensures err { OnErr result (Extends (string_bytes text.old) (string_bytes text.new)) }
    {
        match last {
            Last::Ended => {
                let line = stage.end_line();
                self.writer.append(&line, text)
            }
            Last::Bad(number, why) => append_bad(number, why, text),
        }
    }

    /// Writes the last line of a scenario that ends so.
    pub fn append_last<W: Stage>(
        &mut self,
        stage: &W,
        last: Last,
        text: &mut String,
    ) -> Result<(), NoMemory>
        requires { IfSome (W.stands stage.now).world IsWorld }
        ensures reader { self.new.reader ≡ self.old.reader }
        ensures text { OnOk result (string_bytes text.new ≡ string_bytes text.old ++ last_line last (W.stands stage.now).world) }
        ensures err { OnErr result (string_bytes text.new ≡ string_bytes text.old) }
    {
        let whole = text.as_bytes().len();
        let appended = self.write_last(stage, last, text);
        cut_if_torn(appended, whole, text)
    }
}
