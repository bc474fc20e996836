//! A line as an item, and the roster after it.
ghost use Rattle.std.specs.Prelude.{◌≡◌, ◌⊎◌, true, Err, IfOk, IfErr, OnErr};
ghost use Rattle.br_model.specs.declared.scenario.LineWhy.TheVariants.{NoMemory as NoMemoryLeft};
ghost use Rattle.br_model.specs.Text.LineForms.{line_says, all_say};
ghost use Rattle.br_model.specs.Text.Scenario.{is_end};
ghost use Rattle.br_model.specs.Text.Words.{words};
ghost use Rattle.bridge_command.specs.Seen.{OrNoMemory};
ghost use Rattle.scenario_text.specs.Items.{Reads, comes_in_place, fits_roster, is_in_range};

use crate::lines::read_words;
use crate::plain::plain_step;
use crate::words::find_words;
use arrayvec::ArrayVec;
use br_model::scenario::{Item, LineWhy, Place, Said};
use bridge_command::Roster;
use std::alloc::Global;

/// Reads one line, without its line feed and within the limit of its length, and takes the roster on.
///
/// `LineWhy::NoMemory` is no cause: there was no memory for a frame's bytes or a port's name.
#[inline(always)]
pub fn read_line(alloc: Global, bytes: &[u8], r: &mut Roster) -> Result<Item, LineWhy>
    ensures read { IfOk result (Reads r.old r.new bytes.now) }
    ensures early { IfOk result (λ item. comes_in_place r.old.place item ≡ true) }
    ensures range { IfOk result (λ item. is_in_range r.old item ≡ true) }
    ensures bad { IfErr result (λ why. (why ≡ NoMemoryLeft) ⊎ (line_says r.old bytes.now ≡ Err why)) }
    ensures unchanged { OnErr result (r.new ≡ r.old) }
{
    match what_says(alloc, bytes, r)? {
        Said::Blank => Ok(Item::Blank),
        Said::Opens(edition) => {
            r.open(edition);
            Ok(Item::Scenario(edition))
        }
        Said::Bridge(own) => {
            r.set_own(own);
            Ok(Item::Bridge(own))
        }
        Said::Declares { port, name, dom } => match r.declare(port, name, dom) {
            Ok(()) => Ok(Item::Declared(port)),
            Err(_) => Err(LineWhy::NoMemory),
        },
        Said::Does(step) => {
            r.reach(Place::Steps);
            Ok(Item::Step(step))
        }
        Said::Captures(length) => {
            r.reach(Place::Steps);
            Ok(Item::Capture(length))
        }
        Said::Ends => Ok(Item::End),
    }
}

/// What a line says to a roster that stays as it is.
#[tactic(auto, unfolding(br_model::specs::Text::LineForms::line_says))]
#[inline(always)]
fn what_says(alloc: Global, line: &[u8], r: &Roster) -> Result<Said, LineWhy>
    ensures value { OrNoMemory result (line_says r.now line.now) }
    ensures fits { IfOk result (λ said. fits_roster r.now said ≡ true) }
{
    if line.is_empty() || line[0] == b'#' {
        return Ok(Said::Blank);
    }
    what_steps_say(alloc, line, r)
}

/// The same of a line that is no comment: a frequent step in its plainest spelling, or word by word.
#[inline(always)]
fn what_steps_say(alloc: Global, line: &[u8], r: &Roster) -> Result<Said, LineWhy>
    ensures value { OrNoMemory result (all_say r.now (words line.now)) }
    ensures fits { IfOk result (λ said. fits_roster r.now said ≡ true) }
{
    match plain_step(alloc, line, r) {
        Some(step) => Ok(Said::Does(step)),
        None => what_words_say(alloc, line, r),
    }
}

/// The same, word by word.
#[inline(never)]
fn what_words_say(alloc: Global, line: &[u8], r: &Roster) -> Result<Said, LineWhy>
    ensures value { OrNoMemory result (all_say r.now (words line.now)) }
    ensures fits { IfOk result (λ said. fits_roster r.now said ≡ true) }
{
    let mut found = ArrayVec::new();
    let Some(()) = find_words(line, &mut found) else {
        return Err(LineWhy::Word);
    };
    if found.is_empty() {
        return Ok(Said::Blank);
    }
    read_words(alloc, found.as_slice(), r)
}

/// Whether the bytes are the line `end`. The last line of a scenario may lack its line feed where they are.
pub fn says_end(bytes: &[u8]) -> bool
    ensures { result ≡ is_end (words bytes.now) }
{
    let mut found = ArrayVec::new();
    let Some(()) = find_words(bytes, &mut found) else {
        return false;
    };
    match *found.as_slice() {
        [word] => word == "end",
        _ => false,
    }
}
