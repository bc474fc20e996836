//! What would become of a line, without taking it.
ghost use Rattle.std.specs.Prelude.{◌≡◌, ◌-◌, ◌<◌, ◌^◌, ◌∷◌, ◌++◌, [], IfOk, true};
ghost use Rattle.br_model.specs.Text.Scenario.{Scenario, reads};
ghost use Rattle.br_model.specs.Theorems.WholeLines.{is_line};
ghost use Rattle.scenario_reader.specs.Reading.{Follows};
ghost use Rattle.whole_texts.specs.Trials.{EndsFor, TellsEnd, ending_at, item_ends};

use crate::NoMemory;
use crate::copying::copy_of;
use crate::replaying::Told;
use br_model::limits::LONGEST_LINE;
use br_model::scenario::{Item, LineWhy};
use scenario_reader::{Last, Reader};
use scenario_text::read_line;
use std::alloc::{AllocError, Global};
use transcript_text::append_bad;

/// How a scenario would end with this line, if it would.
fn end_of_item(item: &Item) -> Option<Last>
    ensures { result ≡ item_ends item.now }
{
    match item {
        Item::End => Some(Last::Ended),
        _ => None,
    }
}

/// How a scenario would end with a line for which this was answered.
fn end_of_fault(reader: &Reader, why: LineWhy) -> Result<Option<Last>, NoMemory>
    requires { reader.now.lines < 2 ^ 32 - 1 }
    ensures { IfOk result (EndsFor reader.now.lines why) }
{
    match why {
        LineWhy::NoMemory => Err(AllocError),
        _ => Ok(Some(reader.bad(why))),
    }
}

/// How the scenario would end with this line more, if it would.
pub(crate) fn end_by(alloc: Global, reader: &Reader, line: &[u8]) -> Result<Option<Last>, NoMemory>
    requires few { reader.now.lines < 2 ^ 32 - 1 }
    requires feedless { is_line line.now ≡ true }
    ensures { IfOk result (λ last. (s : Scenario) → Follows s reader.now → ending_at last ≡ (reads s (line.now ++ 10 ∷ [])).ending) }
{
    if line.len() > LONGEST_LINE {
        return Ok(Some(reader.bad(LineWhy::Long)));
    }
    let mut roster = copy_of(alloc, reader.roster())?;
    match read_line(alloc, line, &mut roster) {
        Ok(item) => Ok(end_of_item(&item)),
        Err(why) => end_of_fault(reader, why),
    }
}

/// The last line of a scenario that ends so by a bad line, and else nothing.
pub(crate) fn bad_text(alloc: Global, end: Option<Last>) -> Result<Told, NoMemory>
    ensures { IfOk result (TellsEnd (ending_at end)) }
{
    let mut text = String::new(alloc);
    match end {
        Some(Last::Bad(number, why)) => {
            append_bad(number, why, &mut text)?;
            Ok(Told { text, well: false })
        }
        Some(Last::Ended) => Ok(Told { text, well: true }),
        None => Ok(Told { text, well: true }),
    }
}
