//! The most frequent steps, in their plainest spelling: one space between two words, and none at either end.
ghost use Rattle.std.specs.Prelude.{◌≡◌, ◌≢◌, ◌≤◌, [], ◌∷◌, length, true, Ok, Some, IfSome};
ghost use Rattle.br_model.specs.Data.Digits.{bytes_from_hex, decimal_from};
ghost use Rattle.br_model.specs.declared.scenario.Said.TheVariants.{Does};
ghost use Rattle.br_model.specs.declared.steps.Command.TheVariants.{Link};
ghost use Rattle.br_model.specs.Text.CommandForms.{step};
ghost use Rattle.br_model.specs.Text.LineForms.{all_say, comes_by_line};
ghost use Rattle.br_model.specs.Text.Roster.{chips_of};
ghost use Rattle.br_model.specs.Text.Words.{words, readable as readable_of};
ghost use Rattle.scenario_text.specs.Parts.{Member, Numbered, enters, joins, links, moves, switch_word};

use crate::digits::decoded;
use crate::words::readable;
use br_model::bytes::Bytes;
use br_model::numbers::{Dom, Port, Vid};
use br_model::scenario::Place;
use br_model::steps::{Command, Step};
use bridge_command::{Roster, flag, milliseconds};
use memchr::memchr;
use std::alloc::Global;

/// The number that a digit spells.
fn one_digit(a: u8) -> Option<u16>
    ensures { IfSome result (λ n. decimal_from (a ∷ []) ≡ Some n) }
{
    if a.is_ascii_digit() {
        Some(u16::from(a - b'0'))
    } else {
        None
    }
}

/// The number that two digits spell.
fn two_digits(a: u8, b: u8) -> Option<u16>
    ensures spelled { IfSome result (λ n. decimal_from (a ∷ b ∷ []) ≡ Some n) }
    ensures most { IfSome result (λ n. n ≤ 99) }
{
    if a.is_ascii_digit() && a != b'0' && b.is_ascii_digit() {
        Some(10 * u16::from(a - b'0') + u16::from(b - b'0'))
    } else {
        None
    }
}

/// The number that three digits spell.
fn three_digits(a: u8, b: u8, c: u8) -> Option<u16>
    ensures spelled { IfSome result (λ n. decimal_from (a ∷ b ∷ c ∷ []) ≡ Some n) }
    ensures most { IfSome result (λ n. n ≤ 999) }
{
    let front = two_digits(a, b)?;
    if c.is_ascii_digit() {
        Some(10 * front + u16::from(c - b'0'))
    } else {
        None
    }
}

/// The number that four digits spell.
fn four_digits(a: u8, b: u8, c: u8, d: u8) -> Option<u16>
    ensures { IfSome result (λ n. decimal_from (a ∷ b ∷ c ∷ d ∷ []) ≡ Some n) }
{
    let front = three_digits(a, b, c)?;
    if d.is_ascii_digit() {
        Some(10 * front + u16::from(d - b'0'))
    } else {
        None
    }
}

/// The number of at most four digits that the first word spells, and what follows the space after that word.
#[inline(always)]
fn first_number(entry: &[u8]) -> Option<(u16, &[u8])>
    ensures { IfSome result (λ found. Numbered entry.now found.0 found.1.now) }
{
    if let [a, b' ', rest @ ..] = entry {
        let number = one_digit(*a)?;
        return Some((number, rest));
    }
    if let [a, b, b' ', rest @ ..] = entry {
        let number = two_digits(*a, *b)?;
        return Some((number, rest));
    }
    if let [a, b, c, b' ', rest @ ..] = entry {
        let number = three_digits(*a, *b, *c)?;
        return Some((number, rest));
    }
    if let [a, b, c, d, b' ', rest @ ..] = entry {
        let number = four_digits(*a, *b, *c, *d)?;
        return Some((number, rest));
    }
    None
}

/// At least one byte, where the digits spell some and there is memory for them.
fn plain_bytes(alloc: Global, digits: &[u8]) -> Option<Bytes>
    ensures spelled { IfSome result (λ bytes. bytes_from_hex digits.now ≡ Some bytes) }
    ensures some { IfSome result (λ bytes. length bytes ≢ 0) }
{
    let Ok(decoded) = decoded(alloc, digits) else {
        return None;
    };
    let bytes = decoded?;
    if bytes.is_empty() { None } else { Some(bytes) }
}

/// The frame that enters, by what follows `rx`.
fn plain_entry(alloc: Global, entry: &[u8], r: &Roster) -> Option<Step>
    requires { step r.now.place ≡ true }
    ensures says { IfSome result (λ it. all_say r.now (words (enters entry.now)) ≡ Ok (Does it)) }
    ensures by_line { IfSome result (λ it. comes_by_line r.now.check (chips_of r.now.ports) it ≡ true) }
{
    let found = first_number(entry)?;
    let Ok(number) = u8::try_from(found.0) else {
        return None;
    };
    let port = r.port_of(number)?;
    let bytes = plain_bytes(alloc, found.1)?;
    Some(Step::Rx { port, bytes })
}

/// The word that stands first, and what follows the space after it.
fn cut(text: &[u8]) -> Option<(&[u8], &[u8])>
    ensures { IfSome result (λ found. words text.now ≡ readable_of found.0.now ∷ words found.1.now) }
{
    let end = memchr(b' ', text)?;
    if end == 0 {
        return None;
    }
    let (word, after) = text.split_at(end);
    Some((word, &after[1..]))
}

/// Whether a flag is to be on.
fn switch(word: &[u8]) -> Option<bool>
    ensures { IfSome result (λ on. word.now ≡ switch_word on) }
{
    match word {
        b"on" => Some(true),
        b"off" => Some(false),
        _ => None,
    }
}

/// The command of a port's flag, by what follows `cmd link`.
fn plain_link(text: &[u8], r: &Roster) -> Option<Step>
    requires { step r.now.place ≡ true }
    ensures says { IfSome result (λ it. all_say r.now (words (links text.now)) ≡ Ok (Does it)) }
    ensures by_line { IfSome result (λ it. comes_by_line r.now.check (chips_of r.now.ports) it ≡ true) }
{
    let named = cut(text)?;
    let flagged = cut(named.1)?;
    let on = switch(flagged.1)?;
    let flag = flag(readable(flagged.0))?;
    let Ok(port) = r.named(readable(named.0)) else {
        return None;
    };
    Some(Step::Cmd(Command::Link { port, flag, on }))
}

/// Whether the text is one word.
fn is_one_word(text: &[u8]) -> bool
    ensures { result ≡ true → words text.now ≡ readable_of text.now ∷ [] }
{
    !text.is_empty() && memchr(b' ', text).is_none()
}

/// The VLAN and the port that `VID dev NAME` names.
fn member(entry: &[u8], r: &Roster) -> Option<(Vid, Port)>
    ensures { IfSome result (λ m. Member r.now.ports entry.now m.0 m.1) }
{
    let found = first_number(entry)?;
    let vid = Vid::new(found.0)?;
    let [b'd', b'e', b'v', b' ', word @ ..] = found.1 else {
        return None;
    };
    if !is_one_word(word) {
        return None;
    }
    let name = readable(word);
    if name == "host" {
        return None;
    }
    let Ok(port) = r.named(name) else {
        return None;
    };
    Some((vid, port))
}

/// The command of a VLAN's member, by what follows `cmd vlan`.
fn plain_vlan(text: &[u8], r: &Roster) -> Option<Step>
    requires { step r.now.place ≡ true }
    ensures says { IfSome result (λ it. all_say r.now (words (joins text.now)) ≡ Ok (Does it)) }
    ensures by_line { IfSome result (λ it. comes_by_line r.now.check (chips_of r.now.ports) it ≡ true) }
{
    if let [b'a', b'd', b'd', b' ', b'v', b'i', b'd', b' ', entry @ ..] = text {
        let (vid, port) = member(entry, r)?;
        return Some(Step::Cmd(Command::VlanAdd {
            port,
            vid,
            untagged: false,
            pvid: false,
        }));
    }
    if let [b'd', b'e', b'l', b' ', b'v', b'i', b'd', b' ', entry @ ..] = text {
        let (vid, port) = member(entry, r)?;
        return Some(Step::Cmd(Command::VlanDel { port, vid }));
    }
    None
}

/// The step to a moment, by what follows `now`.
fn plain_moment(text: &[u8], r: &Roster) -> Option<Step>
    requires { step r.now.place ≡ true }
    ensures says { IfSome result (λ it. all_say r.now (words (moves text.now)) ≡ Ok (Does it)) }
    ensures by_line { IfSome result (λ it. comes_by_line r.now.check (chips_of r.now.ports) it ≡ true) }
{
    match milliseconds(readable(text)) {
        Ok(moment) => Some(Step::Now(moment)),
        Err(_) => None,
    }
}

/// The step of a line that is so spelled. `None` says nothing of a line: it is to be read word by word.
pub(crate) fn plain_step(alloc: Global, line: &[u8], r: &Roster) -> Option<Step>
    ensures says { IfSome result (λ it. all_say r.now (words line.now) ≡ Ok (Does it)) }
    ensures by_line { IfSome result (λ it. comes_by_line r.now.check (chips_of r.now.ports) it ≡ true) }
{
    let Ok(()) = r.stands(Place::Steps) else {
        return None;
    };
    if let [b'r', b'x', b' ', entry @ ..] = line {
        return plain_entry(alloc, entry, r);
    }
    if let [
        b'c',
        b'm',
        b'd',
        b' ',
        b'l',
        b'i',
        b'n',
        b'k',
        b' ',
        text @ ..,
    ] = line
    {
        return plain_link(text, r);
    }
    if let [
        b'c',
        b'm',
        b'd',
        b' ',
        b'v',
        b'l',
        b'a',
        b'n',
        b' ',
        text @ ..,
    ] = line
    {
        return plain_vlan(text, r);
    }
    if let [b'n', b'o', b'w', b' ', text @ ..] = line {
        return plain_moment(text, r);
    }
    match line {
        b"serve" => Some(Step::Serve),
        b"report 1" => Some(Step::Report(Dom::CHIP)),
        b"turn 1" => Some(Step::Turn(Dom::CHIP)),
        b"publish" => Some(Step::Publish),
        _ => None,
    }
}
