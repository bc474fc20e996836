//! The commands of VLANs: `vlan`.
ghost use Rattle.std.specs.Prelude.{◌≡◌, length, Ok};
ghost use Rattle.br_model.specs.declared.steps.Command.TheVariants.{VlanAdd, VlanDel};
ghost use Rattle.br_model.specs.Text.CommandForms.{vlans};
ghost use Rattle.br_model.specs.Text.Forms.{line, after};
ghost use Rattle.br_model.specs.Text.Operands.{number as number_of, device as device_of};
ghost use Rattle.bridge_command.specs.Seen.{word, placed, unmarked, marked_once, marked_twice, vlan_adds, vlan_dels};

use crate::operands::vlan;
use crate::roster::Roster;
use br_model::scenario::{LineWhy, Place};
use br_model::steps::Command;

/// `vlan add` of a device, with the marks that were read.
fn added(vid: &str, name: &str, untagged: bool, pvid: bool, r: &Roster) -> Result<Command, LineWhy>
    ensures { result ≡ placed r.now (after (number_of 1 4094 vid.now) (λ v. after (device_of r.now.ports name.now) (λ p. Ok (VlanAdd p v untagged pvid)))) }
{
    r.stands(Place::Steps)?;
    let vid = vlan(vid)?;
    let port = r.device(name)?;
    Ok(Command::VlanAdd {
        port,
        vid,
        untagged,
        pvid,
    })
}

#[tactic(auto, using(br_model::proofs::Text::Words::words))]
fn unmarked(words: &[&str], r: &Roster) -> Result<Command, LineWhy>
    ensures { result ≡ line unmarked r.now (length words.now) (word words.now) }
{
    match *words {
        ["vlan", "add", "vid", vid, "dev", name] => added(vid, name, false, false, r),
        _ => Err(LineWhy::Word),
    }
}

#[tactic(auto, using(br_model::proofs::Text::Words::words))]
fn marked_once(words: &[&str], r: &Roster) -> Result<Command, LineWhy>
    ensures { result ≡ line marked_once r.now (length words.now) (word words.now) }
{
    match *words {
        ["vlan", "add", "vid", vid, "dev", name, "pvid"] => added(vid, name, false, true, r),
        ["vlan", "add", "vid", vid, "dev", name, "untagged"] => added(vid, name, true, false, r),
        _ => Err(LineWhy::Word),
    }
}

#[tactic(auto, using(br_model::proofs::Text::Words::words))]
fn marked_twice(words: &[&str], r: &Roster) -> Result<Command, LineWhy>
    ensures { result ≡ line marked_twice r.now (length words.now) (word words.now) }
{
    match *words {
        ["vlan", "add", "vid", vid, "dev", name, "pvid", "untagged"] => {
            added(vid, name, true, true, r)
        }
        _ => Err(LineWhy::Word),
    }
}

#[tactic(auto, using(br_model::proofs::Text::Words::words))]
fn vlan_add(words: &[&str], r: &Roster) -> Result<Command, LineWhy>
    ensures { result ≡ line vlan_adds r.now (length words.now) (word words.now) }
{
    match words.len() {
        7 => marked_once(words, r),
        8 => marked_twice(words, r),
        _ => unmarked(words, r),
    }
}

/// `vlan del` of a device.
fn deleted(vid: &str, name: &str, r: &Roster) -> Result<Command, LineWhy>
    ensures { result ≡ placed r.now (after (number_of 1 4094 vid.now) (λ v. after (device_of r.now.ports name.now) (λ p. Ok (VlanDel p v)))) }
{
    r.stands(Place::Steps)?;
    let vid = vlan(vid)?;
    let port = r.device(name)?;
    Ok(Command::VlanDel { port, vid })
}

#[tactic(auto, using(br_model::proofs::Text::Words::words))]
fn vlan_del(words: &[&str], r: &Roster) -> Result<Command, LineWhy>
    ensures { result ≡ line vlan_dels r.now (length words.now) (word words.now) }
{
    match *words {
        ["vlan", "del", "vid", vid, "dev", name] => deleted(vid, name, r),
        _ => Err(LineWhy::Word),
    }
}

#[tactic(auto, using(br_model::proofs::Text::Words::words))]
pub(crate) fn vlan_command(words: &[&str], r: &Roster) -> Result<Command, LineWhy>
    ensures { result ≡ line vlans r.now (length words.now) (word words.now) }
{
    match *words {
        ["vlan", "add", ..] => vlan_add(words, r),
        ["vlan", "del", ..] => vlan_del(words, r),
        _ => Err(LineWhy::Word),
    }
}
