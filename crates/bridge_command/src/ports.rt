//! The commands of ports, of their flags, and of their places in the spanning tree: `port` and `link`.
ghost use Rattle.std.specs.Prelude.{◌≡◌, length, Ok};
ghost use Rattle.br_model.specs.declared.steps.Command.TheVariants.{Cost, PortPriority};
ghost use Rattle.br_model.specs.Text.CommandForms.{ports, links};
ghost use Rattle.br_model.specs.Text.Forms.{line, after};
ghost use Rattle.br_model.specs.Text.Operands.{number as number_of, port_name, most_cost, most_port_priority};
ghost use Rattle.bridge_command.specs.Seen.{word, placed, switched};

use crate::flags::flag;
use crate::operands::{cost, port_priority};
use crate::roster::Roster;
use br_model::change::Flags;
use br_model::scenario::{LineWhy, Place};
use br_model::steps::Command;

#[tactic(auto, using(br_model::proofs::Text::Words::words))]
pub(crate) fn port_command(words: &[&str], r: &Roster) -> Result<Command, LineWhy>
    ensures { result ≡ line ports r.now (length words.now) (word words.now) }
{
    match *words {
        ["port", "up", name] => {
            r.stands(Place::Steps)?;
            Ok(Command::PortUp(r.named(name)?))
        }
        ["port", "down", name] => {
            r.stands(Place::Steps)?;
            Ok(Command::PortDown(r.named(name)?))
        }
        _ => Err(LineWhy::Word),
    }
}

/// `link` of a flag, if its name is one.
fn switched(name: &str, flag: Option<Flags>, on: bool, r: &Roster) -> Result<Command, LineWhy>
    ensures { result ≡ switched r.now name.now flag on }
{
    let Some(flag) = flag else {
        return Err(LineWhy::Word);
    };
    r.stands(Place::Steps)?;
    let port = r.named(name)?;
    Ok(Command::Link { port, flag, on })
}

/// `link` of the cost of a port's path.
fn with_cost(name: &str, number: &str, r: &Roster) -> Result<Command, LineWhy>
    ensures { result ≡ placed r.now (after (port_name r.now.ports name.now) (λ p. after (number_of 1 most_cost number.now) (λ n. Ok (Cost p n)))) }
{
    r.stands(Place::Steps)?;
    let port = r.named(name)?;
    let n = cost(number)?;
    Ok(Command::Cost { port, n })
}

/// `link` of a port's priority.
fn with_priority(name: &str, number: &str, r: &Roster) -> Result<Command, LineWhy>
    ensures { result ≡ placed r.now (after (port_name r.now.ports name.now) (λ p. after (number_of 0 most_port_priority number.now) (λ n. Ok (PortPriority p n)))) }
{
    r.stands(Place::Steps)?;
    let port = r.named(name)?;
    let n = port_priority(number)?;
    Ok(Command::PortPriority { port, n })
}

#[tactic(auto, using(br_model::proofs::Text::Words::words))]
pub(crate) fn link_command(words: &[&str], r: &Roster) -> Result<Command, LineWhy>
    ensures { result ≡ line links r.now (length words.now) (word words.now) }
{
    match *words {
        ["link", name, "cost", number] => with_cost(name, number, r),
        ["link", name, "priority", number] => with_priority(name, number, r),
        ["link", name, word, "on"] => switched(name, flag(word), true, r),
        ["link", name, word, "off"] => switched(name, flag(word), false, r),
        _ => Err(LineWhy::Word),
    }
}
