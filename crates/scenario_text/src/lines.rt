//! Lines, by their first word.
ghost use Rattle.std.specs.Prelude.{◌≡◌, ◌<◌, ◌&&◌, if◌then◌else◌, length, true, None, Some, Ok, Err, IfOk};
ghost use Rattle.br_model.specs.Table.Domains.{first_chip_domain, last_chip};
ghost use Rattle.br_model.specs.Text.CommandForms.{commands, step};
ghost use Rattle.br_model.specs.Text.Forms.{line, after};
ghost use Rattle.br_model.specs.Text.LineForms.{declarations, frames, steps, lines, commanded, words_say, opening, header, comes_by_line};
ghost use Rattle.br_model.specs.Text.Operands.{number as number_of, mac as mac_of, hex as hex_of, port_number, chip_domain, last_id, last_point, last_moment, longest_section};
ghost use Rattle.br_model.specs.Text.Roster.{chips_of, is_chip};
ghost use Rattle.bridge_command.specs.Seen.{word, placed, OrNoMemory};
ghost use Rattle.scenario_text.specs.Items.{declares, fits_roster};

use crate::digits::hex_bytes;
use br_model::domains::Edition;
use br_model::numbers::Dom;
use br_model::scenario::{LineWhy, Place, Said};
use br_model::steps::Step;
use bridge_command::{Roster, frame_number, mac, milliseconds, read_command, section_length};
use std::alloc::Global;

/// The declaration of a port of this domain, where it is one.
fn declared(
    alloc: Global,
    number: &str,
    name: &str,
    dom: Result<Dom, LineWhy>,
    r: &Roster,
) -> Result<Said, LineWhy>
    ensures value { OrNoMemory result (declares r.now number.now name.now dom) }
    ensures fits { IfOk result (λ said. fits_roster r.now said ≡ true) }
{
    r.stands(Place::Declarations)?;
    let port = r.new_port(number)?;
    let name = r.new_name(alloc, name)?;
    let dom = dom?;
    Ok(Said::Declares { port, name, dom })
}

/// The declaration of a port of a switch chip.
fn declared_on_chip(
    alloc: Global,
    number: &str,
    name: &str,
    dom: &str,
    r: &Roster,
) -> Result<Said, LineWhy>
    ensures value { OrNoMemory result (declares r.now number.now name.now (number_of first_chip_domain last_chip dom.now)) }
    ensures fits { IfOk result (λ said. fits_roster r.now said ≡ true) }
{
    declared(alloc, number, name, r.chip_domain(dom), r)
}

/// The first line of a scenario of this edition.
fn opened(edition: Edition, r: &Roster) -> Result<Said, LineWhy>
    ensures value { result ≡ (if opening r.now.place then Ok (Said.Opens edition) else Err LineWhy.Place) }
    ensures fits { IfOk result (λ said. fits_roster r.now said ≡ true) }
{
    r.stands(Place::Opening)?;
    Ok(Said::Opens(edition))
}

/// The declaration of the bridge's address.
fn addressed(address: &str, r: &Roster) -> Result<Said, LineWhy>
    ensures value { result ≡ (if header r.now.place then after (mac_of address.now) (λ own. Ok (Said.Bridge own)) else Err LineWhy.Place) }
    ensures fits { IfOk result (λ said. fits_roster r.now said ≡ true) }
{
    r.stands(Place::Header)?;
    let own = mac(address)?;
    Ok(Said::Bridge(own))
}

/// The first line, and the declarations.
#[tactic(auto, using(br_model::proofs::Text::Words::words))]
fn declaration_line(alloc: Global, words: &[&str], r: &Roster) -> Result<Said, LineWhy>
    ensures value { OrNoMemory result (line declarations r.now (length words.now) (word words.now)) }
    ensures fits { IfOk result (λ said. fits_roster r.now said ≡ true) }
{
    match *words {
        ["scenario", "1"] => opened(Edition::One, r),
        ["scenario", "2"] => opened(Edition::Two, r),
        ["bridge", address] => addressed(address, r),
        ["port", number, name, "soft"] => declared(alloc, number, name, Ok(Dom::SOFTWARE), r),
        ["port", number, name, "chip", dom] => declared_on_chip(alloc, number, name, dom, r),
        _ => Err(LineWhy::Word),
    }
}

/// A step without operands.
fn alone(step: Step, r: &Roster) -> Result<Said, LineWhy>
    requires { comes_by_line r.now.check (chips_of r.now.ports) step ≡ true }
    ensures value { result ≡ placed r.now (Ok (Said.Does step)) }
    ensures fits { IfOk result (λ said. fits_roster r.now said ≡ true) }
{
    r.stands(Place::Steps)?;
    Ok(Said::Does(step))
}

/// The step by which a frame enters.
fn entered(alloc: Global, port: &str, digits: &str, r: &Roster) -> Result<Said, LineWhy>
    ensures value { OrNoMemory result (placed r.now (after (port_number r.now.ports port.now) (λ p. after (hex_of digits.now) (λ bytes. Ok (Said.Does (Step.Rx p bytes)))))) }
    ensures fits { IfOk result (λ said. fits_roster r.now said ≡ true) }
{
    r.stands(Place::Steps)?;
    let port = r.numbered(port)?;
    let bytes = hex_bytes(alloc, digits)?;
    Ok(Said::Does(Step::Rx { port, bytes }))
}

/// The step by which a frame is posted.
fn posted(id: &str, r: &Roster) -> Result<Said, LineWhy>
    ensures value { result ≡ placed r.now (after (number_of 0 last_id id.now) (λ n. Ok (Said.Does (Step.Post n None)))) }
    ensures fits { IfOk result (λ said. fits_roster r.now said ≡ true) }
{
    r.stands(Place::Steps)?;
    let id = frame_number(id)?;
    Ok(Said::Does(Step::Post { id, point: None }))
}

/// The same with its point, in a check.
fn posted_at(id: &str, point: &str, r: &Roster) -> Result<Said, LineWhy>
    ensures value { result ≡ (if r.now.check && step r.now.place
        then after (number_of 0 last_id id.now) (λ n. after (number_of 0 last_point point.now) (λ at. Ok (Said.Does (Step.Post n (Some at))))) else Err LineWhy.Place) }
    ensures fits { IfOk result (λ said. fits_roster r.now said ≡ true) }
{
    r.stands_in_check()?;
    let id = frame_number(id)?;
    let point = Some(frame_number(point)?);
    Ok(Said::Does(Step::Post { id, point }))
}

/// The steps of a frame on its way through software.
#[tactic(auto, using(br_model::proofs::Text::Words::words))]
fn frame_line(alloc: Global, words: &[&str], r: &Roster) -> Result<Said, LineWhy>
    ensures value { OrNoMemory result (line frames r.now (length words.now) (word words.now)) }
    ensures fits { IfOk result (λ said. fits_roster r.now said ≡ true) }
{
    match *words {
        ["rx", port, digits] => entered(alloc, port, digits, r),
        ["serve"] => alone(Step::Serve, r),
        ["hold"] => alone(Step::Hold, r),
        ["post", id] => posted(id, r),
        ["post", id, "at", point] => posted_at(id, point, r),
        _ => Err(LineWhy::Word),
    }
}

/// The step to a moment.
fn moved(moment: &str, r: &Roster) -> Result<Said, LineWhy>
    ensures value { result ≡ placed r.now (after (number_of 0 last_moment moment.now) (λ ms. Ok (Said.Does (Step.Now ms)))) }
    ensures fits { IfOk result (λ said. fits_roster r.now said ≡ true) }
{
    r.stands(Place::Steps)?;
    let moment = milliseconds(moment)?;
    Ok(Said::Does(Step::Now(moment)))
}

/// The chip that the word names, where a step stands.
fn chip(dom: &str, r: &Roster) -> Result<Dom, LineWhy>
    ensures value { result ≡ placed r.now (chip_domain r.now.ports dom.now) }
    ensures exists { IfOk result (λ dom. is_chip r.now.ports dom ≡ true) }
{
    r.stands(Place::Steps)?;
    r.chip(dom)
}

/// A section of a capture, of so many bytes.
fn captured(length: &str, r: &Roster) -> Result<Said, LineWhy>
    ensures value { result ≡ placed r.now (after (number_of 0 longest_section length.now) (λ n. Ok (Said.Captures n))) }
    ensures fits { IfOk result (λ said. fits_roster r.now said ≡ true) }
{
    r.stands(Place::Steps)?;
    let length = section_length(length)?;
    Ok(Said::Captures(length))
}

/// The other steps but for commands; captures, and the last line.
#[tactic(auto, using(br_model::proofs::Text::Words::words))]
fn step_line(words: &[&str], r: &Roster) -> Result<Said, LineWhy>
    ensures value { result ≡ line steps r.now (length words.now) (word words.now) }
    ensures fits { IfOk result (λ said. fits_roster r.now said ≡ true) }
{
    match *words {
        ["now", moment] => moved(moment, r),
        ["turn", dom] => Ok(Said::Does(Step::Turn(chip(dom, r)?))),
        ["report", dom] => Ok(Said::Does(Step::Report(chip(dom, r)?))),
        ["sweep", dom] => Ok(Said::Does(Step::Sweep(chip(dom, r)?))),
        ["publish"] => alone(Step::Publish, r),
        ["capture", length] => captured(length, r),
        ["end"] => {
            r.stands(Place::Steps)?;
            Ok(Said::Ends)
        }
        _ => Err(LineWhy::Word),
    }
}

/// Any line but a command.
#[tactic(auto, using(br_model::proofs::Text::Words::words))]
fn other_line(alloc: Global, words: &[&str], r: &Roster) -> Result<Said, LineWhy>
    ensures value { OrNoMemory result (line lines r.now (length words.now) (word words.now)) }
    ensures fits { IfOk result (λ said. fits_roster r.now said ≡ true) }
{
    match *words {
        ["scenario" | "bridge" | "port", ..] => declaration_line(alloc, words, r),
        ["rx" | "serve" | "hold" | "post", ..] => frame_line(alloc, words, r),
        _ => step_line(words, r),
    }
}

/// The step of the command that the words behind `cmd` say.
fn command_step(command: &[&str], r: &Roster) -> Result<Said, LineWhy>
    ensures value { result ≡ commanded (line commands r.now (length command.now) (word command.now)) }
    ensures fits { IfOk result (λ said. fits_roster r.now said ≡ true) }
{
    match read_command(command, r) {
        Ok(command) => Ok(Said::Does(Step::Cmd(command))),
        Err(why) => Err(why),
    }
}

/// What the words of a line say; no words say nothing.
#[tactic(auto, using(br_model::proofs::Text::Words::words))]
pub(crate) fn read_words(alloc: Global, words: &[&str], r: &Roster) -> Result<Said, LineWhy>
    requires { 0 < length words.now }
    ensures value { OrNoMemory result (words_say r.now (length words.now) (word words.now)) }
    ensures fits { IfOk result (λ said. fits_roster r.now said ≡ true) }
{
    match *words {
        ["cmd", ref command @ ..] => command_step(command, r),
        _ => other_line(alloc, words, r),
    }
}
