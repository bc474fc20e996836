//! The transcript of a scenario.
ghost use Rattle.std.specs.Prelude.{◌≡◌, ◌≤◌, ◌∷◌, ◌++◌, [], IfOk, codes, length, string_bytes};
ghost use Rattle.br_model.specs.Program.Runs.{told};
ghost use Rattle.br_model.specs.Table.Limits.{most_bytes};
ghost use Rattle.scenario_reader.specs.Reading.{ending_of};
ghost use Rattle.whole_texts.specs.Texts.{TellsWhole, ends_well};

use crate::NoMemory;
use crate::lone::Lone;
use scenario_play::Play;
use scenario_reader::Last;
use std::alloc::Global;

/// All that is written, its last line too, and whether what was read ends well.
#[derive(Drop)]
pub struct Told {
    pub text: String,
    pub well: bool,
}

/// Whether it is the line `end`.
pub(crate) fn is_well(last: Last) -> bool
    ensures { result ≡ ends_well (ending_of last) }
{
    match last {
        Last::Ended => true,
        Last::Bad(..) => false,
    }
}

/// A text that begins a transcript.
pub(crate) fn first_text(alloc: Global) -> Result<String, NoMemory>
    ensures { IfOk result (λ text. string_bytes text ≡ codes "transcript 1" ++ 10 ∷ []) }
{
    let mut text = String::new(alloc);
    text.push_str("transcript 1\n")?;
    Ok(text)
}

/// The transcript of a scenario, up to its end or its first bad line.
///
/// # Errors
///
/// `NoMemory` where the world, the text or a step's lines find no room.
pub fn replay(alloc: Global, scenario: &[u8]) -> Result<Told, NoMemory>
    requires { length scenario.now ≤ most_bytes }
    ensures { IfOk result (TellsWhole told scenario.now) }
{
    let mut stage = Lone::new();
    let mut play = Play::make(alloc, false)?;
    let mut text = first_text(alloc)?;
    let last = play.read(&mut stage, alloc, scenario, &mut text)?;
    play.append_last(&stage, last, &mut text)?;
    Ok(Told {
        text,
        well: is_well(last),
    })
}
