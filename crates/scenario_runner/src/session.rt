//! A run of a scenario, line by line.
ghost use Rattle.std.specs.Prelude.{◌≡◌, ◌+◌, ◌-◌, ◌<◌, ◌≤◌, ◌^◌, ◌++◌, [], length, true, false, None, IfOk, OnOk, OnErr, string_bytes};
ghost use Rattle.br_model.specs.Text.Scenario.{opened, longest_line};
ghost use Rattle.br_model.specs.Table.Table.{table};
ghost use Rattle.scenario_reader.specs.Reading.{IsBehindDeclarations, ending_of};
ghost use Rattle.scenario_runner.specs.Session.{Follows, SaysNothing, SaysOn, Takes, IsAfter, IsReady, Does, world_of, end_line_of, last_line, history_of, listing_or_bad, audit_or_bad};
ghost use Rattle.br_model.specs.Text.LineForms.{comes_by_line};
ghost use Rattle.br_model.specs.Text.Roster.{chips_of};
ghost use Rattle.transcript_text.specs.Extends.{Extends};
ghost use Rattle.scenario_runner.specs.Speaking.{answer_at};
ghost use Rattle.run_world.specs.Voices.{lines_of, said_by};

use crate::audit::audit_text;
use br_model::NoMemory;
use br_model::listing::Listing;
use br_model::plain::table::Table;
use br_model::steps::Step;
use br_model::transcript::Line;
use run_status::{bad_text, cut_if_torn};
use run_world::World;
use run_world::voice::{Voice, begin, do_step, take_text};
use scenario_reader::{Last, Next as Read, Reader};
use scenario_text::list;
use std::alloc::Global;
use std::mem;
use std::sync::Wait;
use transcript_lines::Lines;
use transcript_text::{Writer, append_bad};

/// What comes after a line whose step, if it has one, is done.
#[derive(Clone, Copy)]
pub(crate) enum Next {
    /// The next line.
    Line,
    /// The line's section, of so many bytes.
    Section(u32),
    /// Nothing: the scenario ends so.
    End(Last),
}

/// What has read the lines so far, and the world after their steps, which is made at the first one. It isn't `Drop`, since a world
/// isn't: end it by `finish`.
pub(crate) struct Session {
    pub(crate) reader: Reader,
    world: Option<World>,
    // Those of the last step, in the memory of those before.
    told: Lines,
    writer: Writer,
    voice: Voice,
}

impl Session {
    pub(crate) fn new(alloc: Global, voice: Voice) -> Result<Session, NoMemory>
        requires { SaysNothing voice }
        ensures follows { IfOk result (Follows (opened false)) }
        ensures voice { IfOk result (λ x. x.voice ≡ voice) }
        ensures lines { IfOk result (λ x. x.reader.lines ≡ 0) }
    {
        Ok(Session {
            reader: Reader::make(alloc, false)?,
            world: None,
            told: Lines::new(alloc),
            writer: Writer::new(alloc),
            voice,
        })
    }

    /// Reads a whole line, without its line feed, does its step, and writes the step's lines after the text. After want of
    /// memory the session isn't used again.
    #[inline(always)]
    pub(crate) fn take<R: Wait>(
        &mut self,
        rt: &R,
        alloc: Global,
        line: &[u8],
        text: &mut String,
    ) -> Result<Next, NoMemory>
        requires short { length line.now ≤ longest_line }
        requires few { self.old.reader.lines < 2 ^ 32 - 1 }
        requires ready { IsReady self.old.reader.roster self.old.world self.old.voice }
        ensures ready { OnOk result (IsReady self.new.reader.roster self.new.world self.new.voice) }
        ensures takes { IfOk result (Takes self.old line.now (string_bytes text.old) self.new (string_bytes text.new)) }
        ensures lines { OnOk result (self.new.reader.lines ≤ self.old.reader.lines + 1) }
        ensures same { OnOk result (lines_of self.new.voice ≡ lines_of self.old.voice) }
        ensures err { OnErr result (string_bytes text.new ≡ string_bytes text.old) }
    {
        match self.reader.take(alloc, line)? {
            Read::Line => Ok(Next::Line),
            Read::Step(step) => {
                self.step(rt, alloc, step, text)?;
                Ok(Next::Line)
            }
            Read::Section(length) => Ok(Next::Section(length)),
            Read::End(last) => Ok(Next::End(last)),
        }
    }

    /// Does the first step, in a new world. A world is large, so its making has a function of its own: each call pays for the room
    /// of its locals.
    #[inline(never)]
    fn begin<R: Wait>(&mut self, rt: &R, alloc: Global, step: Step) -> Result<(), NoMemory>
        requires first { self.old.world ≡ None }
        requires replays { self.old.reader.roster.check ≡ false }
        requires by_line { comes_by_line false (chips_of self.old.reader.roster.ports) step ≡ true }
        requires behind { IsBehindDeclarations self.old.reader.roster }
        requires empty { self.old.told.lines ≡ [] }
        ensures reader { OnOk result (self.new.reader ≡ self.old.reader) }
        ensures ready { OnOk result (IsReady self.new.reader.roster self.new.world self.new.voice) }
        ensures does { OnOk result (IsAfter (world_of self.old.reader.roster None) step self.new) }
        ensures says { OnOk result (SaysOn self.old step self.new) }
        ensures same { OnOk result (lines_of self.new.voice ≡ lines_of self.old.voice) }
    {
        let roster = self.reader.roster();
        let own = roster.own();
        begin(alloc, &mut self.voice, roster.domains(), own)?;
        let domains = roster.domains();
        let mut world = World::make(rt, alloc, domains, own)?;
        match do_step(rt, alloc, &mut self.voice, &mut world, step, &mut self.told) {
            Ok(()) => {
                match mem::replace(&mut self.world, Some(world)) {
                    None => {}
                    Some(_) => unreachable!(),
                }
                Ok(())
            }
            Err(error) => {
                world.end(rt);
                Err(error)
            }
        }
    }

    /// Does a step in the world that is there, or in a new one.
    #[inline(always)]
    fn go_on<R: Wait>(&mut self, rt: &R, alloc: Global, step: Step) -> Result<(), NoMemory>
        requires by_line { comes_by_line false (chips_of self.old.reader.roster.ports) step ≡ true }
        requires ready { IsReady self.old.reader.roster self.old.world self.old.voice }
        requires behind { IsBehindDeclarations self.old.reader.roster }
        requires empty { self.old.told.lines ≡ [] }
        ensures reader { OnOk result (self.new.reader ≡ self.old.reader) }
        ensures ready { OnOk result (IsReady self.new.reader.roster self.new.world self.new.voice) }
        ensures does { OnOk result (IsAfter (world_of self.old.reader.roster self.old.world) step self.new) }
        ensures says { OnOk result (SaysOn self.old step self.new) }
        ensures same { OnOk result (lines_of self.new.voice ≡ lines_of self.old.voice) }
    {
        match &mut self.world {
            Some(world) => do_step(rt, alloc, &mut self.voice, world, step, &mut self.told),
            None => self.begin(rt, alloc, step),
        }
    }

    /// Does a step, and writes its lines.
    #[inline(always)]
    pub(crate) fn step<R: Wait>(
        &mut self,
        rt: &R,
        alloc: Global,
        step: Step,
        text: &mut String,
    ) -> Result<(), NoMemory>
        requires by_line { comes_by_line false (chips_of self.old.reader.roster.ports) step ≡ true }
        requires ready { IsReady self.old.reader.roster self.old.world self.old.voice }
        requires behind { IsBehindDeclarations self.old.reader.roster }
        ensures ready { OnOk result (IsReady self.new.reader.roster self.new.world self.new.voice) }
        ensures same { OnOk result (lines_of self.new.voice ≡ lines_of self.old.voice) }
        ensures does { OnOk result (Does self.old step (string_bytes text.old) self.new (string_bytes text.new)) }
        ensures err { OnErr result (string_bytes text.new ≡ string_bytes text.old) }
    {
        self.told.clear();
        self.go_on(rt, alloc, step)?;
        let whole = text.as_bytes().len();
        let appended = self.writer.append_lines(&self.told, text);
        cut_if_torn(appended, whole, text)
    }

    /// The table of the whole history.
    fn table(&self, alloc: Global) -> Result<Table, NoMemory>
        ensures { IfOk result (λ t. t ≡ table (history_of self.now.world)) }
    {
        match &self.world {
            Some(world) => Table::of(alloc, world.history()),
            None => Table::of(alloc, &[]),
        }
    }

    /// The listing of the whole history's table, or the bad line.
    pub(crate) fn list(
        &self,
        alloc: Global,
        listing: Listing,
        last: Last,
    ) -> Result<String, NoMemory>
        ensures { IfOk result (λ text. string_bytes text ≡ listing_or_bad listing last self.now.reader.roster.ports self.now.world) }
    {
        match last {
            Last::Ended => list(alloc, listing, &self.table(alloc)?, self.reader.roster()),
            Last::Bad(number, why) => bad_text(alloc, number, why),
        }
    }

    /// The audit of the chips as the run has left them, or the bad line.
    pub(crate) fn audit<R: Wait>(
        &self,
        rt: &R,
        alloc: Global,
        last: Last,
    ) -> Result<String, NoMemory>
        ensures { IfOk result (λ text. string_bytes text ≡ audit_or_bad last self.now.reader.roster self.now.world) }
    {
        match last {
            Last::Ended => audit_text(rt, alloc, self.reader.roster(), &self.world),
            Last::Bad(number, why) => bad_text(alloc, number, why),
        }
    }

    /// All that was said, with its last line, or the bad line. Nothing of it is kept.
    pub(crate) fn take_said(&mut self, alloc: Global, last: Last) -> Result<String, NoMemory>
        ensures { IfOk result (λ text. string_bytes text ≡ answer_at (ending_of last) (said_by self.old.voice)) }
    {
        match last {
            Last::Ended => {
                let mut text = take_text(alloc, &mut self.voice);
                text.push_str("end\n")?;
                Ok(text)
            }
            Last::Bad(number, why) => bad_text(alloc, number, why),
        }
    }

    fn end_line(&self) -> Line
        ensures { result ≡ end_line_of self.now.world }
    {
        match &self.world {
            Some(world) => world.end_line(),
            None => Line::End {
                steps: 0,
                changes: 0,
                pending: 0,
                waiting: 0,
            },
        }
    }

    /// Appends the last line. After want of memory a part of it may stand there.
    fn append_last(&mut self, last: Last, text: &mut String) -> Result<(), NoMemory>
        ensures reader { self.new.reader ≡ self.old.reader }
        ensures world { self.new.world ≡ self.old.world }
        ensures voice { self.new.voice ≡ self.old.voice }
        ensures ok { OnOk result (string_bytes text.new ≡ string_bytes text.old ++ last_line last self.old.world) }
        ensures err { OnErr result (Extends (string_bytes text.old) (string_bytes text.new)) }
    {
        match last {
            Last::Ended => {
                let line = self.end_line();
                self.writer.append(&line, text)
            }
            Last::Bad(number, why) => append_bad(number, why, text),
        }
    }

    /// Writes the last line after the text.
    pub(crate) fn end(&mut self, last: Last, text: &mut String) -> Result<(), NoMemory>
        ensures reader { self.new.reader ≡ self.old.reader }
        ensures world { self.new.world ≡ self.old.world }
        ensures voice { self.new.voice ≡ self.old.voice }
        ensures ok { OnOk result (string_bytes text.new ≡ string_bytes text.old ++ last_line last self.old.world) }
        ensures err { OnErr result (string_bytes text.new ≡ string_bytes text.old) }
    {
        let whole = text.as_bytes().len();
        let appended = self.append_last(last, text);
        cut_if_torn(appended, whole, text)
    }

    /// Ends the session and its world.
    pub(crate) fn finish<R: Wait>(self, rt: &R) {
        let Session {
            reader: _,
            world,
            told: _,
            writer: _,
            voice: _,
        } = self;
        match world {
            Some(world) => world.end(rt),
            None => {}
        }
    }
}
