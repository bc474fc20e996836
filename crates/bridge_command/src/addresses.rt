//! The commands of the forwarding database: `fdb` and `ageing`.
ghost use Rattle.std.specs.Prelude.{◌≡◌, length, Ok};
ghost use Rattle.br_model.specs.declared.change.Kind.TheVariants.{Local};
ghost use Rattle.br_model.specs.declared.steps.Command.TheVariants.{FdbAdd};
ghost use Rattle.br_model.specs.Table.Domains.{host};
ghost use Rattle.br_model.specs.Text.CommandForms.{fdbs, ageings};
ghost use Rattle.br_model.specs.Text.Forms.{line, after};
ghost use Rattle.br_model.specs.Text.Operands.{number as number_of, port_name, mac as mac_of};
ghost use Rattle.bridge_command.specs.Seen.{word, placed, fdb_adds, fdb_dels};

use crate::operands::{mac, seconds, vlan};
use crate::roster::Roster;
use br_model::change::Kind;
use br_model::numbers::Port;
use br_model::scenario::{LineWhy, Place};
use br_model::steps::Command;

/// `fdb add` of an address behind a port.
fn added(address: &str, name: &str, vid: &str, kind: Kind, r: &Roster) -> Result<Command, LineWhy>
    ensures { result
        ≡ placed r.now (after (mac_of address.now) (λ a. after (port_name r.now.ports name.now)
        (λ p. after (number_of 1 4094 vid.now) (λ v. Ok (FdbAdd v a p kind))))) }
{
    r.stands(Place::Steps)?;
    let mac = mac(address)?;
    let port = r.named(name)?;
    let vid = vlan(vid)?;
    Ok(Command::FdbAdd {
        vid,
        mac,
        port,
        kind,
    })
}

/// `fdb add` of an address of the host's own.
fn local(address: &str, vid: &str, r: &Roster) -> Result<Command, LineWhy>
    ensures { result
        ≡ placed r.now (after (mac_of address.now) (λ a. after (number_of 1 4094 vid.now) (λ v. Ok (FdbAdd v a host Local)))) }
{
    r.stands(Place::Steps)?;
    let mac = mac(address)?;
    let vid = vlan(vid)?;
    Ok(Command::FdbAdd {
        vid,
        mac,
        port: Port::HOST,
        kind: Kind::Local,
    })
}

#[tactic(auto, using(br_model::proofs::Text::Words::words))]
fn fdb_add(words: &[&str], r: &Roster) -> Result<Command, LineWhy>
    ensures { result ≡ line fdb_adds r.now (length words.now) (word words.now) }
{
    match *words {
        ["fdb", "add", address, "dev", "host", "vlan", vid, "local"] => local(address, vid, r),
        ["fdb", "add", address, "dev", name, "vlan", vid, "static"] => {
            added(address, name, vid, Kind::Static, r)
        }
        ["fdb", "add", address, "dev", name, "vlan", vid, "extern"] => {
            added(address, name, vid, Kind::Extern, r)
        }
        _ => Err(LineWhy::Word),
    }
}

#[tactic(auto, using(br_model::proofs::Text::Words::words))]
fn fdb_del(words: &[&str], r: &Roster) -> Result<Command, LineWhy>
    ensures { result ≡ line fdb_dels r.now (length words.now) (word words.now) }
{
    match *words {
        ["fdb", "del", address, "vlan", vid] => {
            r.stands(Place::Steps)?;
            let mac = mac(address)?;
            let vid = vlan(vid)?;
            Ok(Command::FdbDel { vid, mac })
        }
        _ => Err(LineWhy::Word),
    }
}

#[tactic(auto, using(br_model::proofs::Text::Words::words))]
pub(crate) fn fdb_command(words: &[&str], r: &Roster) -> Result<Command, LineWhy>
    ensures { result ≡ line fdbs r.now (length words.now) (word words.now) }
{
    match *words {
        ["fdb", "add", ..] => fdb_add(words, r),
        ["fdb", "del", ..] => fdb_del(words, r),
        _ => Err(LineWhy::Word),
    }
}

#[tactic(auto, using(br_model::proofs::Text::Words::words))]
pub(crate) fn ageing_command(words: &[&str], r: &Roster) -> Result<Command, LineWhy>
    ensures { result ≡ line ageings r.now (length words.now) (word words.now) }
{
    match *words {
        ["ageing", time] => {
            r.stands(Place::Steps)?;
            Ok(Command::Ageing(seconds(time)?))
        }
        _ => Err(LineWhy::Word),
    }
}
