//! The commands of groups: `mdb` and `snooping`.
ghost use Rattle.std.specs.Prelude.{◌≡◌, length, Ok};
ghost use Rattle.br_model.specs.declared.steps.Command.TheVariants.{MdbAdd, MdbDel};
ghost use Rattle.br_model.specs.Text.CommandForms.{mdbs, snoopings};
ghost use Rattle.br_model.specs.Text.Forms.{line, after};
ghost use Rattle.br_model.specs.Text.Operands.{number as number_of, group as group_of, device as device_of};
ghost use Rattle.bridge_command.specs.Seen.{word, placed};

use crate::ip_words::group;
use crate::operands::vlan;
use crate::roster::Roster;
use br_model::scenario::{LineWhy, Place};
use br_model::steps::Command;

/// `mdb add` of a group's port.
fn added(address: &str, name: &str, vid: &str, r: &Roster) -> Result<Command, LineWhy>
    ensures { result
        ≡ placed r.now (after (group_of address.now) (λ g. after (device_of r.now.ports name.now)
        (λ p. after (number_of 1 4094 vid.now) (λ v. Ok (MdbAdd p v g))))) }
{
    r.stands(Place::Steps)?;
    let group = group(address)?;
    let port = r.device(name)?;
    let vid = vlan(vid)?;
    Ok(Command::MdbAdd { port, vid, group })
}

/// `mdb del` of a group's port.
fn deleted(address: &str, name: &str, vid: &str, r: &Roster) -> Result<Command, LineWhy>
    ensures { result
        ≡ placed r.now (after (group_of address.now) (λ g. after (device_of r.now.ports name.now)
        (λ p. after (number_of 1 4094 vid.now) (λ v. Ok (MdbDel p v g))))) }
{
    r.stands(Place::Steps)?;
    let group = group(address)?;
    let port = r.device(name)?;
    let vid = vlan(vid)?;
    Ok(Command::MdbDel { port, vid, group })
}

#[tactic(auto, using(br_model::proofs::Text::Words::words))]
pub(crate) fn mdb_command(words: &[&str], r: &Roster) -> Result<Command, LineWhy>
    ensures { result ≡ line mdbs r.now (length words.now) (word words.now) }
{
    match *words {
        ["mdb", "add", address, "dev", name, "vlan", vid] => added(address, name, vid, r),
        ["mdb", "del", address, "dev", name, "vlan", vid] => deleted(address, name, vid, r),
        _ => Err(LineWhy::Word),
    }
}

#[tactic(auto, using(br_model::proofs::Text::Words::words))]
pub(crate) fn snooping_command(words: &[&str], r: &Roster) -> Result<Command, LineWhy>
    ensures { result ≡ line snoopings r.now (length words.now) (word words.now) }
{
    match *words {
        ["snooping", "on"] => {
            r.stands(Place::Steps)?;
            Ok(Command::Snooping(true))
        }
        ["snooping", "off"] => {
            r.stands(Place::Steps)?;
            Ok(Command::Snooping(false))
        }
        _ => Err(LineWhy::Word),
    }
}
