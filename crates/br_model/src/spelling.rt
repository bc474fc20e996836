//! Addresses and kinds as text.
ghost use Rattle.std.specs.Prelude.{◌≡◌, ◌<◌, ◌++◌, ◌∷◌, [], OnOk};
ghost use Rattle.std.specs.String.{string_bytes};
ghost use Rattle.br_model.specs.Data.Digits.{hex_digit, hex_of};
ghost use Rattle.br_model.specs.Text.Spelling.{byte_at, kind_word as word_of_kind, mac_text};

use crate::NoMemory;
use crate::change::Kind;
use crate::numbers::Mac;

/// The digit of a half of a byte.
fn digit(half: u8) -> char
    requires { half < 16 }
    ensures { result ≡ hex_digit half }
{
    if half < 10 {
        char::from(b'0' + half)
    } else {
        char::from(b'a' + (half - 10))
    }
}

/// Two digits in lower case for each byte.
pub fn append_hex(bytes: &[u8], to: &mut String) -> Result<(), NoMemory>
    ensures { OnOk result (string_bytes to.new ≡ string_bytes to.old ++ hex_of bytes.now) }
{
    for byte in bytes {
        to.push(digit(*byte >> 4))?;
        to.push(digit(*byte & 15))?;
    }
    Ok(())
}

/// The byte that stands so many bits above the address's lowest.
fn byte(mac: Mac, bits: u32) -> u8
    requires { bits < 64 }
    ensures { result ≡ byte_at mac bits }
{
    ((mac.number() >> bits) % 256) as u8
}

/// Three pairs of digits, joined by colons.
fn append_three(a: u8, b: u8, c: u8, to: &mut String) -> Result<(), NoMemory>
    ensures { OnOk result (string_bytes to.new ≡ string_bytes to.old ++ (hex_of (a ∷ []) ++ (58 ∷ hex_of (b ∷ []) ++ (58 ∷ hex_of (c ∷ []))))) }
{
    append_hex(&[a], to)?;
    to.push(':')?;
    append_hex(&[b], to)?;
    to.push(':')?;
    append_hex(&[c], to)
}

/// Six pairs of digits in lower case, joined by colons.
pub fn append_mac(mac: Mac, to: &mut String) -> Result<(), NoMemory>
    ensures { OnOk result (string_bytes to.new ≡ string_bytes to.old ++ mac_text mac) }
{
    append_three(byte(mac, 40), byte(mac, 32), byte(mac, 24), to)?;
    to.push(':')?;
    append_three(byte(mac, 16), byte(mac, 8), byte(mac, 0), to)
}

/// The word of a kind in a line.
pub fn kind_word(kind: Kind) -> &'static str
    ensures { result.now ≡ word_of_kind kind }
{
    match kind {
        Kind::Local => "local",
        Kind::Static => "static",
        Kind::Learned => "learned",
        Kind::Extern => "extern",
    }
}
