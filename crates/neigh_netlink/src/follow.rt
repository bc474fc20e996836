//! Lines of messages, as they are read.
ghost use Rattle.std.specs.Prelude.{◌≡◌, ◌++◌, OnOk, ◌≢◌, ◌≤◌, Err, ℕ, true, false, length, take, drop, is_some, ◌∷◌};
ghost use Rattle.std.specs.List.{list_all};
ghost use Rattle.std.specs.Option.{option_map};
ghost use Rattle.std.specs.String.{string_bytes};
ghost use Rattle.br_model.specs.Data.Digits.{bytes_from_hex, nibble};
ghost use Rattle.br_model.specs.Text.Scenario.{is_end};
ghost use Rattle.neigh_netlink.specs.Follow.{bad_text, bytes_say, line_says, takes, why_taken, why_text, words, words_say, Going};
ghost use Rattle.neigh_netlink.specs.Lines.{after_line, begins_with_space, is_cut, is_no_space, with_first};

use crate::NoMemory;
use crate::neigh::Neigh;
use crate::reading::read;
use crate::table::{Table, TakeFault};
use crate::writing::LENGTH;
use hex::decode_to_slice;

/// The digits of a message.
const DIGITS: usize = 2 * LENGTH;

/// Why a line is bad, by the first test that it fails, in this order.
#[derive(Clone, Copy, PartialEq, Eq)]
pub enum LineFault {
    /// It has more than 20,000 bytes without a line feed, whether one follows or not.
    Long,
    /// The input ends in this line, and it isn't `end`.
    Unended,
    /// The words are of no form.
    Word,
    /// The digits aren't those of bytes.
    Hex,
    /// The bytes are no message.
    Message,
    /// The entry that goes isn't there with that port and kind.
    Absent,
    /// There is no room for one more entry.
    Full,
}

/// What a line says.
#[derive(Clone, Copy)]
pub enum Said {
    /// Nothing: it has no words, or is a comment.
    Blank,
    Tells(Neigh),
    /// It is the last line.
    Ends,
}

impl LineFault {
    /// Its word in the last line.
    pub fn word(self) -> &'static str
        ensures { result.now ≡ why_text self }
    {
        match self {
            LineFault::Long => "long",
            LineFault::Unended => "unended",
            LineFault::Word => "word",
            LineFault::Hex => "hex",
            LineFault::Message => "message",
            LineFault::Absent => "absent",
            LineFault::Full => "full",
        }
    }
}

/// Writes the last line behind the text, where this line, counted from 1, is bad. After want of memory a part of it may stand there.
pub fn append_bad(line: u32, why: LineFault, text: &mut String) -> Result<(), NoMemory>
    ensures { OnOk result (string_bytes text.new ≡ string_bytes text.old ++ bad_text line why) }
{
    let why = why.word();
    writeln!(text, "bad {line} {why}")
}

impl From<TakeFault> for LineFault {
    ghost from_gives = { λ why fault. fault ≡ why_taken why };

    fn from(why: TakeFault) -> LineFault {
        match why {
            TakeFault::Absent => LineFault::Absent,
            TakeFault::Full => LineFault::Full,
        }
    }
}

// Lets go of the spaces in front.
fn trimmed(line: &[u8]) -> &[u8]
    ensures same { words result.now ≡ words line.now }
    ensures word { begins_with_space result.now ≡ false }
{
    let mut rest = line;
    while let [b' ', behind @ ..] = rest {
        rest = behind;
    }
    rest
}

// How many bytes are in front of the first space, or all.
fn word_length(line: &[u8]) -> usize
    ensures within { result ≤ length line.now }
    ensures word { list_all is_no_space (take result line.now) ≡ true }
    ensures behind { is_cut (drop result line.now) ≡ true }
{
    let mut end = 0;
    while end < line.len() && line[end] != b' ' {
        end += 1;
    }
    end
}

// The first word, and what is behind it.
fn first_word(line: &[u8]) -> Option<(&[u8], &[u8])>
    ensures { words line.now ≡ with_first (option_map (λ p. (p.0.now, p.1.now)) result) }
{
    let rest = trimmed(line);
    if rest.is_empty() {
        return None;
    }
    Some(rest.split_at(word_length(rest)))
}

fn is_digit(c: u8) -> bool
    ensures { result ≡ is_some (nibble c) }
{
    c.is_ascii_hexdigit()
}

// Whether the digits are those of bytes.
fn is_hex(digits: &[u8]) -> bool
    ensures { result ≡ is_some (bytes_from_hex digits.now) }
{
    let mut rest = digits;
    while let [high, low, behind @ ..] = rest {
        if !is_digit(*high) || !is_digit(*low) {
            return false;
        }
        rest = behind;
    }
    rest.is_empty()
}

// Why digits that aren't as many as those of a message tell none.
fn other_digits(digits: &[u8]) -> LineFault
    requires { length digits.now ≢ 96 }
    ensures { bytes_say (bytes_from_hex digits.now) ≡ Err result }
{
    if is_hex(digits) {
        return LineFault::Message;
    }
    LineFault::Hex
}

// The bytes of as many digits as those of a message.
fn decoded(digits: &[u8]) -> Option<[u8; LENGTH]>
    requires { length digits.now ≡ 96 }
    ensures { result ≡ bytes_from_hex digits.now }
{
    let mut bytes = [0; LENGTH];
    match decode_to_slice(digits, &mut bytes) {
        Ok(()) => Some(bytes),
        Err(_) => None,
    }
}

// What the digits say.
fn digits_say(digits: &[u8]) -> Result<Said, LineFault>
    ensures { result ≡ bytes_say (bytes_from_hex digits.now) }
{
    if digits.len() != DIGITS {
        return Err(other_digits(digits));
    }
    let Some(bytes) = decoded(digits) else {
        return Err(LineFault::Hex);
    };
    match read(&bytes) {
        Some(message) => Ok(Said::Tells(message)),
        None => Err(LineFault::Message),
    }
}

// What the words of a line say, of which these are the first one and what is behind it.
fn words_say(word: &[u8], behind: &[u8]) -> Result<Said, LineFault>
    ensures { result ≡ words_say (word.now ∷ words behind.now) }
{
    match first_word(behind) {
        None => {
            if word == b"end".as_slice() {
                Ok(Said::Ends)
            } else {
                Err(LineFault::Word)
            }
        }
        Some((digits, rest)) => {
            if first_word(rest).is_none() && word == b"nl".as_slice() {
                digits_say(digits)
            } else {
                Err(LineFault::Word)
            }
        }
    }
}

/// What a line says, without its line feed. Allocates nothing.
pub fn read_line(line: &[u8]) -> Result<Said, LineFault>
    ensures { result ≡ line_says line.now }
{
    if let [b'#', ..] = line {
        return Ok(Said::Blank);
    }
    match first_word(line) {
        None => Ok(Said::Blank),
        Some((word, behind)) => words_say(word, behind),
    }
}

/// Whether what stands behind the last line feed is the line `end`, which may lack its own.
pub fn says_end(rest: &[u8]) -> bool
    ensures { result ≡ is_end (words rest.now) }
{
    match first_word(rest) {
        None => false,
        Some((word, behind)) => word == b"end".as_slice() && first_word(behind).is_none(),
    }
}

impl Table {
    /// Takes what a line says, without its line feed, and answers whether it is the last one. After a fault the table is as before.
    /// Allocates nothing.
    pub fn follow(&mut self, line: &[u8]) -> Result<bool, LineFault>
        ensures { (n : ℕ) → takes (record { lines = n; table = self.old; ending = Going }) (line_says line.now) ≡ after_line n result self.new }
    {
        match read_line(line)? {
            Said::Blank => Ok(false),
            Said::Tells(message) => {
                self.take(&message)?;
                Ok(false)
            }
            Said::Ends => Ok(true),
        }
    }
}
