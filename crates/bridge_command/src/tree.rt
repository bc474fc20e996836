//! The commands of the spanning tree: `stp`. Those of a port's cost and priority are forms of `link`.
ghost use Rattle.std.specs.Prelude.{◌≡◌, length};
ghost use Rattle.br_model.specs.Text.CommandForms.{trees};
ghost use Rattle.br_model.specs.Text.Forms.{line};
ghost use Rattle.bridge_command.specs.Seen.{word};

use crate::operands::priority;
use crate::roster::Roster;
use br_model::scenario::{LineWhy, Place};
use br_model::steps::Command;

#[tactic(auto, using(br_model::proofs::Text::Words::words))]
pub(crate) fn stp_command(words: &[&str], r: &Roster) -> Result<Command, LineWhy>
    ensures { result ≡ line trees r.now (length words.now) (word words.now) }
{
    match *words {
        ["stp", "on"] => {
            r.stands(Place::Steps)?;
            Ok(Command::Stp(true))
        }
        ["stp", "off"] => {
            r.stands(Place::Steps)?;
            Ok(Command::Stp(false))
        }
        ["stp", "priority", number] => {
            r.stands(Place::Steps)?;
            Ok(Command::Priority(priority(number)?))
        }
        _ => Err(LineWhy::Word),
    }
}
