//! The line of a message.
ghost use Rattle.std.specs.Prelude.{◌≡◌, ◌*◌, ◌++◌, length, OnOk, OnErr};
ghost use Rattle.std.specs.String.{string_bytes};
ghost use Rattle.br_model.specs.Data.Digits.{hex_of};
ghost use Rattle.hex.specs.Hex.{IsBytes};
ghost use Rattle.neigh_netlink.specs.Messages.{written as written_of};
ghost use Rattle.neigh_netlink.specs.Monitor.{message_line};

use crate::NoMemory;
use crate::neigh::Neigh;
use crate::writing::{LENGTH, written};
use hex::encode_to_slice;
use std::str;

/// The digits of a message.
const DIGITS: usize = 2 * LENGTH;

/// The bytes of its line: the word and a space before them, and the line feed.
const LINE: usize = 3 + DIGITS + 1;

// Puts the digits of the bytes in the place of others.
fn write_hex(bytes: &[u8], digits: &mut [u8])
    requires { length digits.old ≡ 2 * length bytes.now }
    ensures value { digits.new ≡ hex_of bytes.now }
    ensures bytes { IsBytes bytes.now }
{
    match encode_to_slice(bytes, digits) {
        Ok(()) => {}
        Err(_) => unreachable!(),
    }
}

fn digits(m: &Neigh) -> [u8; DIGITS]
    ensures value { result ≡ hex_of (written_of m.now) }
    ensures bytes { IsBytes (written_of m.now) }
{
    let bytes = written(m);
    let mut digits = [0; DIGITS];
    write_hex(&bytes, &mut digits);
    digits
}

fn line(m: &Neigh) -> [u8; LINE]
    ensures value { result ≡ message_line m.now }
    ensures bytes { IsBytes (written_of m.now) }
{
    let mut line = [b'\n'; LINE];
    line[..3].copy_from_slice(b"nl ");
    line[3..3 + DIGITS].copy_from_slice(&digits(m));
    line
}

/// Writes the message's line behind the text.
pub fn append_line(neigh: &Neigh, text: &mut String) -> Result<(), NoMemory>
    ensures ok { OnOk result (string_bytes text.new ≡ string_bytes text.old ++ message_line neigh.now) }
    ensures err { OnErr result (string_bytes text.new ≡ string_bytes text.old) }
{
    let line = line(neigh);
    // It is ASCII.
    text.push_str(unsafe { str::from_utf8_unchecked(&line) })
}
