//! A scenario line by line, and what is told of it.
ghost use Rattle.std.specs.Prelude.{◌≡◌, ℕ, ◌≤◌, ◌∷◌, ◌++◌, [], List, IfOk, IfSome, OnOk, false, length, string_bytes};
ghost use Rattle.br_model.specs.Text.Operands.{longest_section};
ghost use Rattle.br_model.specs.Text.Scenario.{opened, reads};
ghost use Rattle.br_model.specs.Theorems.Invariants.{IsWorld};
ghost use Rattle.scenario_reader.specs.Reading.{IsBehindDeclarations};
ghost use Rattle.whole_texts.specs.Sessions.{Admits, EndsSection, Goes, HasFinished, IsAt, IsSectionWanted, IsSound, IsWanted, RefusesLine, RefusesSection, Takes, end_of, ended_of, told_so_far};
ghost use Rattle.scenario_play.specs.Playing.{IsSteady};
ghost use Rattle.whole_texts.specs.Tables.{shown};
ghost use Rattle.whole_texts.specs.Trials.{TellsEnd, Tries, ending_with};

use crate::NoMemory;
use crate::lone::Lone;
use crate::replaying::{Told, first_text, is_well};
use crate::showing::listing_of;
use crate::trying::{bad_text, end_by};
use br_model::limits::MOST_BYTES;
use br_model::listing::Listing;
use scenario_play::{Play, Taken, first_line};
use scenario_reader::Last;
use std::alloc::Global;

/// What a session waits for.
#[derive(Clone, Copy)]
enum Awaits {
    /// The next line.
    Line,
    /// The section of the line before, of so many bytes.
    Section(u32),
    /// Nothing: the scenario has ended, well by its line `end`.
    Nothing { well: bool },
}

/// Why a line or a section isn't taken. But for want of memory the session is as before.
#[derive(Drop)]
pub enum SessionFault {
    /// The scenario has ended.
    Ended,
    /// The line has a line feed, or a section is wanted; no section is wanted, or one of another length.
    Misplaced,
    /// With it more than `MOST_BYTES` bytes would be taken.
    TooLong,
    /// The session isn't used again.
    NoMemory,
}

/// A scenario that is taken line by line, each with its section, up to its end or its first bad line.
#[derive(Drop)]
pub struct Session {
    play: Play,
    stage: Lone,
    // What isn't let go.
    text: String,
    awaits: Awaits,
    taken: usize,
}

impl Session {
    /// Before the first line.
    ///
    /// # Errors
    ///
    /// `NoMemory` where it finds no room.
    pub fn open(alloc: Global) -> Result<Session, NoMemory>
        ensures sound { IfOk result IsSound }
        ensures at { IfOk result (IsAt [] []) }
    {
        Ok(Session {
            play: Play::make(alloc, false)?,
            stage: Lone::new(),
            text: first_text(alloc)?,
            awaits: Awaits::Line,
            taken: 0,
        })
    }

    /// Whether the line is wanted.
    fn admit_line(&self, line: &[u8]) -> Result<(), SessionFault>
        requires { IsSound self.now }
        ensures { Admits (IsWanted self.now line.now) (RefusesLine self.now line.now) result }
    {
        match self.awaits {
            Awaits::Line => {
                if first_line(line).is_some() {
                    return Err(SessionFault::Misplaced);
                }
                if line.len() >= MOST_BYTES as usize - self.taken {
                    return Err(SessionFault::TooLong);
                }
                Ok(())
            }
            Awaits::Section(_) => Err(SessionFault::Misplaced),
            Awaits::Nothing { .. } => Err(SessionFault::Ended),
        }
    }

    /// Whether the section is wanted.
    fn admit_section(&self, section: &[u8]) -> Result<(), SessionFault>
        requires { IsSound self.now }
        ensures { Admits (IsSectionWanted self.now section.now) (RefusesSection self.now section.now) result }
    {
        match self.awaits {
            Awaits::Line => Err(SessionFault::Misplaced),
            Awaits::Section(length) => {
                if section.len() != length as usize {
                    return Err(SessionFault::Misplaced);
                }
                if section.len() > MOST_BYTES as usize - self.taken {
                    return Err(SessionFault::TooLong);
                }
                Ok(())
            }
            Awaits::Nothing { .. } => Err(SessionFault::Ended),
        }
    }

    /// The scenario ends so.
    fn finish(&mut self, last: Last) -> Result<(), NoMemory>
        requires { IfSome self.old.stage.world IsWorld }
        ensures { OnOk result (HasFinished self.old last self.new) }
    {
        self.play.append_last(&self.stage, last, &mut self.text)?;
        self.awaits = Awaits::Nothing {
            well: is_well(last),
        };
        Ok(())
    }

    /// Takes the section of the line before.
    fn end_section(&mut self, alloc: Global, section: &[u8]) -> Result<(), NoMemory>
        requires steady { IsSteady self.old.play.reader.roster self.old.stage.world }
        requires lines { self.old.play.reader.lines ≤ self.old.taken }
        requires most { length section.now ≤ longest_section }
        requires behind { IsBehindDeclarations self.old.play.reader.roster }
        ensures { OnOk result (EndsSection self.old section.now self.new) }
    {
        match self
            .play
            .take_section(&mut self.stage, alloc, section, &mut self.text)?
        {
            None => {
                self.awaits = Awaits::Line;
                Ok(())
            }
            Some(last) => self.finish(last),
        }
    }

    /// Takes a line that is wanted.
    fn take_line(&mut self, alloc: Global, line: &[u8]) -> Result<(), NoMemory>
        requires sound { IsSound self.old }
        requires wanted { IsWanted self.old line.now }
        ensures { OnOk result (Takes self.old (line.now ++ 10 ∷ []) self.new) }
    {
        let taken = self
            .play
            .take(&mut self.stage, alloc, line, &mut self.text)?;
        self.taken += line.len() + 1;
        match taken {
            Taken::On => Ok(()),
            Taken::Section(length) => {
                if length == 0 {
                    return self.end_section(alloc, b"");
                }
                self.awaits = Awaits::Section(length);
                Ok(())
            }
            Taken::Ends(last) => self.finish(last),
        }
    }

    /// Takes the next line, without its line feed.
    ///
    /// # Errors
    ///
    /// A `SessionFault`.
    pub fn line(&mut self, alloc: Global, line: &[u8]) -> Result<(), SessionFault>
        requires { IsSound self.old }
        ensures { Goes self.old (line.now ++ 10 ∷ []) (IsWanted self.old line.now) (RefusesLine self.old line.now) self.new result }
    {
        self.admit_line(line)?;
        match self.take_line(alloc, line) {
            Ok(()) => Ok(()),
            Err(_) => Err(SessionFault::NoMemory),
        }
    }

    /// Tells what would become of the next line, which isn't taken: the last line of the transcript where it is bad, and else nothing.
    ///
    /// # Errors
    ///
    /// A `SessionFault`. After want of memory, too, the session is as before.
    pub fn try_line(&self, alloc: Global, line: &[u8]) -> Result<Told, SessionFault>
        requires { IsSound self.now }
        ensures { Tries self.now line.now result }
    {
        self.admit_line(line)?;
        match self.trial(alloc, line) {
            Ok(told) => Ok(told),
            Err(_) => Err(SessionFault::NoMemory),
        }
    }

    /// The same of a line that is wanted.
    fn trial(&self, alloc: Global, line: &[u8]) -> Result<Told, NoMemory>
        requires sound { IsSound self.now }
        requires wanted { IsWanted self.now line.now }
        ensures { IfOk result (λ told. (bytes given : List ℕ) → IsAt bytes given self.now → TellsEnd (ending_with bytes line.now) told) }
    {
        let end = end_by(alloc, self.play.reader(), line)?;
        bad_text(alloc, end)
    }

    /// The listing of the table of all that was taken, wherever the scenario stands.
    ///
    /// # Errors
    ///
    /// `NoMemory` where the table or the text finds no room.
    pub fn shown(&self, alloc: Global, listing: Listing) -> Result<String, NoMemory>
        ensures { IfOk result (λ text. (bytes given : List ℕ) → IsAt bytes given self.now → string_bytes text ≡ shown listing bytes) }
    {
        listing_of(alloc, listing, self.play.reader().roster(), &self.stage)
    }

    /// Takes the whole section of the line before.
    ///
    /// # Errors
    ///
    /// A `SessionFault`.
    pub fn section(&mut self, alloc: Global, section: &[u8]) -> Result<(), SessionFault>
        requires { IsSound self.old }
        ensures { Goes self.old section.now (IsSectionWanted self.old section.now) (RefusesSection self.old section.now) self.new result }
    {
        self.admit_section(section)?;
        match self.end_section(alloc, section) {
            Ok(()) => {
                self.taken += section.len();
                Ok(())
            }
            Err(_) => Err(SessionFault::NoMemory),
        }
    }

    /// What is told of all that was taken, without what was let go.
    pub fn told(&self) -> &[u8]
        ensures { (bytes given : List ℕ) → IsAt bytes given self.now → given ++ result.now ≡ told_so_far bytes }
    {
        self.text.as_bytes()
    }

    /// Lets go what is told.
    pub fn let_go(&mut self)
        requires { IsSound self.old }
        ensures sound { IsSound self.new }
        ensures awaits { self.new.awaits ≡ self.old.awaits }
        ensures at { (bytes given : List ℕ) → IsAt bytes given self.old → IsAt bytes (told_so_far bytes) self.new }
    {
        self.text.clear();
    }

    /// Whether the scenario has ended, and by its line `end`.
    pub fn ended(&self) -> Option<bool>
        ensures awaits { result ≡ end_of self.now.awaits }
        ensures ends { (bytes given : List ℕ) → IsAt bytes given self.now → result ≡ ended_of (reads (opened false) bytes).ending }
    {
        match self.awaits {
            Awaits::Line => None,
            Awaits::Section(_) => None,
            Awaits::Nothing { well } => Some(well),
        }
    }
}
