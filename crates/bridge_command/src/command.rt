//! Commands, by the first word after `cmd`.
ghost use Rattle.std.specs.Prelude.{◌≡◌, length};
ghost use Rattle.br_model.specs.Text.CommandForms.{commands};
ghost use Rattle.br_model.specs.Text.Forms.{line};
ghost use Rattle.bridge_command.specs.Seen.{word, later_commands};

use crate::addresses::{ageing_command, fdb_command};
use crate::groups::{mdb_command, snooping_command};
use crate::ports::{link_command, port_command};
use crate::roster::Roster;
use crate::tree::stp_command;
use crate::vlans::vlan_command;
use br_model::scenario::LineWhy;
use br_model::steps::Command;

/// The commands of groups and of the whole bridge.
#[tactic(auto, using(br_model::proofs::Text::Words::words))]
fn later_command(words: &[&str], r: &Roster) -> Result<Command, LineWhy>
    ensures { result ≡ line later_commands r.now (length words.now) (word words.now) }
{
    match *words {
        ["mdb", ..] => mdb_command(words, r),
        ["stp", ..] => stp_command(words, r),
        ["ageing", ..] => ageing_command(words, r),
        ["snooping", ..] => snooping_command(words, r),
        _ => Err(LineWhy::Word),
    }
}

/// The command that the words after `cmd` say, or the cause for which its line is bad.
#[tactic(auto, using(br_model::proofs::Text::Words::words))]
pub fn read_command(words: &[&str], roster: &Roster) -> Result<Command, LineWhy>
    ensures { result ≡ line commands roster.now (length words.now) (word words.now) }
{
    match *words {
        ["port", ..] => port_command(words, roster),
        ["link", ..] => link_command(words, roster),
        ["vlan", ..] => vlan_command(words, roster),
        ["fdb", ..] => fdb_command(words, roster),
        _ => later_command(words, roster),
    }
}
