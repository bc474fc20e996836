//! Whether words are of a scenario's form, wherever it may stand.
ghost use Rattle.std.specs.Prelude.{◌≡◌, length};
ghost use Rattle.std.specs.Option.{is_some};
ghost use Rattle.br_model.specs.Text.CommandForms.{commands};
ghost use Rattle.br_model.specs.Text.Forms.{pick};
ghost use Rattle.br_model.specs.Text.LineForms.{declarations, frames, steps, lines};
ghost use Rattle.bridge_command.specs.Seen.{word};

use br_model::scenario::LineWhy;
use bridge_command::{Roster, read_command};

/// The first line, or a declaration.
#[tactic(auto, using(br_model::proofs::Text::Words::words))]
fn is_declaration(words: &[&str]) -> bool
    ensures { result ≡ is_some (pick declarations (length words.now) (word words.now)) }
{
    match *words {
        ["scenario", "1"] => true,
        ["scenario", "2"] => true,
        ["bridge", _] => true,
        ["port", _, _, "soft"] => true,
        ["port", _, _, "chip", _] => true,
        _ => false,
    }
}

/// A step of a frame on its way through software.
#[tactic(auto, using(br_model::proofs::Text::Words::words))]
fn is_of_frame(words: &[&str]) -> bool
    ensures { result ≡ is_some (pick frames (length words.now) (word words.now)) }
{
    match *words {
        ["rx", _, _] => true,
        ["serve"] => true,
        ["hold"] => true,
        ["post", _] => true,
        ["post", _, "at", _] => true,
        _ => false,
    }
}

/// Another step but a command, a capture, or the last line.
#[tactic(auto, using(br_model::proofs::Text::Words::words))]
fn is_step(words: &[&str]) -> bool
    ensures { result ≡ is_some (pick steps (length words.now) (word words.now)) }
{
    match *words {
        ["now", _] => true,
        ["turn", _] => true,
        ["report", _] => true,
        ["sweep", _] => true,
        ["publish"] => true,
        ["capture", _] => true,
        ["end"] => true,
        _ => false,
    }
}

/// Whether the words are of the form of a scenario's line that isn't a command.
#[tactic(auto, using(br_model::proofs::Text::Words::words))]
pub fn is_line(words: &[&str]) -> bool
    ensures { result ≡ is_some (pick lines (length words.now) (word words.now)) }
{
    match *words {
        ["scenario" | "bridge" | "port", ..] => is_declaration(words),
        ["rx" | "serve" | "hold" | "post", ..] => is_of_frame(words),
        _ => is_step(words),
    }
}

/// Whether the words behind `cmd` are of a command's form.
pub fn is_command(words: &[&str], roster: &Roster) -> bool
    ensures { result ≡ is_some (pick commands (length words.now) (word words.now)) }
{
    match read_command(words, roster) {
        Err(LineWhy::Word) => false,
        Err(_) => true,
        Ok(_) => true,
    }
}
