//! The text of a live run.
ghost use Rattle.std.specs.Prelude.{◌≡◌, ◌∷◌, ◌++◌, true, codes, IfOk, string_bytes};
ghost use Rattle.std.specs.List.{list_all};
ghost use Rattle.br_model.specs.Program.LiveText.{steps_scenario};
ghost use Rattle.br_model.specs.Text.ScenarioText.{names_declared};
ghost use Rattle.br_model.specs.Text.Transcript.{line_text, text as text_of};

use br_model::NoMemory;
use br_model::steps::Step;
use br_model::transcript::Line;
use bridge_command::Roster;
use scenario_text::append_scenario;
use std::alloc::Global;
use transcript_lines::Lines;
use transcript_text::Writer;

/// The scenario of these steps, and its transcript: these lines and the last one.
pub fn live_text(
    alloc: Global,
    roster: &Roster,
    steps: &[Step],
    lines: &Lines,
    end: &Line,
) -> Result<String, NoMemory>
    requires { list_all (names_declared roster.now.ports) steps.now ≡ true }
    ensures { IfOk result (λ text. string_bytes text ≡ steps_scenario roster.now steps.now
        ++ (codes "transcript 1" ++ 10 ∷ (text_of lines.now.lines ++ line_text end.now))) }
{
    let mut text = String::new(alloc);
    append_scenario(steps, roster, &mut text)?;
    text.push_str("transcript 1\n")?;
    let mut writer = Writer::new(alloc);
    writer.append_lines(lines, &mut text)?;
    writer.append(end, &mut text)?;
    Ok(text)
}
