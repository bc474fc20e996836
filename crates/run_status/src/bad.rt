//! The text of a scenario's bad line.
ghost use Rattle.std.specs.Prelude.{◌≡◌, IfOk, string_bytes};
ghost use Rattle.br_model.specs.Text.Transcript.{bad_text};

use br_model::NoMemory;
use br_model::scenario::LineWhy;
use std::alloc::Global;
use transcript_text::append_bad;

/// The last line of a run whose scenario has this bad line.
pub fn bad_text(alloc: Global, line: u32, why: LineWhy) -> Result<String, NoMemory>
    ensures { IfOk result (λ text. string_bytes text ≡ bad_text line why) }
{
    let mut text = String::new(alloc);
    append_bad(line, why, &mut text)?;
    Ok(text)
}
