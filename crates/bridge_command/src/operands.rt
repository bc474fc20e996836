//! Operands, as words spell them.
ghost use Rattle.std.specs.Prelude.{◌≡◌, length, ◌≤◌, nat_le, true, IfOk, IfSome};
ghost use Rattle.std.specs.List.{list_all};
ghost use Rattle.br_model.specs.declared.scenario.LineWhy.TheVariants.{Address};
ghost use Rattle.br_model.specs.Data.Digits.{is_decimal as is_a_decimal, is_digit, station as station_of, bytes_from_hex};
ghost use Rattle.br_model.specs.Text.Operands.{number as number_of, mac as mac_of, has_colons as has_colons_at, twelve, found, most_cost, most_port_priority, most_priority, most_seconds, last_id, last_moment, last_point, longest_section};
ghost use Rattle.br_model.specs.Text.Roster.{is_name as is_a_name, is_name_byte as is_a_name_byte};
ghost use Rattle.br_model.specs.Data.Digits.{number_up_to as number_up_to_of};

use br_model::numbers::{Mac, Vid};
use br_model::scenario::LineWhy;
use hex::FromHex;

fn has_digits(word: &[u8]) -> bool
    ensures { result ≡ list_all is_digit word.now }
{
    word.iter().all(|byte| byte.is_ascii_digit())
}

/// Whether the word spells a number, however large.
pub(crate) fn is_decimal(word: &str) -> bool
    ensures { result ≡ is_a_decimal word.now }
{
    let digits = word.as_bytes();
    !digits.is_empty() && has_digits(digits) && (digits.len() == 1 || digits[0] != b'0')
}

/// The number that the word spells, where it is no larger than `most`.
pub fn number_up_to(word: &str, most: u64) -> Option<u64>
    ensures value { result ≡ number_up_to_of most word.now }
    ensures most { IfSome result (λ n. n ≤ most) }
{
    if !is_decimal(word) {
        return None;
    }
    let mut number = 0u64;
    for digit in word.as_bytes() {
        let digit = u64::from(*digit - b'0');
        number = number.checked_mul(10)?.checked_add(digit)?;
    }
    if number <= most { Some(number) } else { None }
}

/// A number from `low` to `high`.
#[tactic(auto, unfolding(br_model::specs::Text::Operands::number))]
pub(crate) fn number(word: &str, low: u64, high: u64) -> Result<u64, LineWhy>
    ensures value { result ≡ number_of low high word.now }
    ensures least { IfOk result (λ n. low ≤ n) }
    ensures most { IfOk result (λ n. n ≤ high) }
{
    match number_up_to(word, high) {
        Some(number) if number >= low => Ok(number),
        _ => Err(LineWhy::Number),
    }
}

pub(crate) fn vlan(word: &str) -> Result<Vid, LineWhy>
    ensures { result ≡ number_of 1 4094 word.now }
{
    let number = number(word, 1, 4094)?;
    match Vid::new(number as u16) {
        Some(vid) => Ok(vid),
        None => Err(LineWhy::Number),
    }
}

/// The highest cost of a port's path (IEEE 802.1D-1998 section 8.10.2).
const MOST_COST: u64 = 65_535;

pub(crate) fn cost(word: &str) -> Result<u16, LineWhy>
    ensures { result ≡ number_of 1 most_cost word.now }
{
    Ok(number(word, 1, MOST_COST)? as u16)
}

/// The highest priority of a port.
const MOST_PORT_PRIORITY: u64 = 255;

pub(crate) fn port_priority(word: &str) -> Result<u8, LineWhy>
    ensures { result ≡ number_of 0 most_port_priority word.now }
{
    Ok(number(word, 0, MOST_PORT_PRIORITY)? as u8)
}

/// The highest priority of a bridge.
const MOST_PRIORITY: u64 = 65_535;

pub(crate) fn priority(word: &str) -> Result<u16, LineWhy>
    ensures { result ≡ number_of 0 most_priority word.now }
{
    Ok(number(word, 0, MOST_PRIORITY)? as u16)
}

/// The most seconds of ageing.
const MOST_SECONDS: u64 = 1_000_000;

pub(crate) fn seconds(word: &str) -> Result<u32, LineWhy>
    ensures { result ≡ number_of 1 most_seconds word.now }
{
    Ok(number(word, 1, MOST_SECONDS)? as u32)
}

/// The last moment, in milliseconds: 2^53 - 1.
const LAST_MOMENT: u64 = 9_007_199_254_740_991;

/// A moment, in milliseconds.
pub fn milliseconds(word: &str) -> Result<u64, LineWhy>
    ensures value { result ≡ number_of 0 last_moment word.now }
    ensures most { IfOk result (λ n. nat_le n last_moment ≡ true) }
{
    number(word, 0, LAST_MOMENT)
}

/// The id of a frame, or a point: a number of 32 bits.
pub fn frame_number(word: &str) -> Result<u32, LineWhy>
    ensures id { result ≡ number_of 0 last_id word.now }
    ensures point { result ≡ number_of 0 last_point word.now }
{
    Ok(number(word, 0, u64::from(u32::MAX))? as u32)
}

/// The bytes of the longest section: 2^24.
const LONGEST_SECTION: u64 = 16_777_216;

/// How many bytes a section has.
pub fn section_length(word: &str) -> Result<u32, LineWhy>
    ensures value { result ≡ number_of 0 longest_section word.now }
    ensures most { IfOk result (λ n. nat_le n longest_section ≡ true) }
{
    Ok(number(word, 0, LONGEST_SECTION)? as u32)
}

/// The bytes of the longest name.
const LONGEST_NAME: usize = 15;

fn is_name_byte(byte: u8) -> bool
    ensures { result ≡ is_a_name_byte byte }
{
    byte.is_ascii_alphanumeric() || byte == b'.' || byte == b'-' || byte == b'_'
}

fn has_name_bytes(word: &[u8]) -> bool
    ensures { result ≡ list_all is_a_name_byte word.now }
{
    word.iter().all(|byte| is_name_byte(*byte))
}

/// Whether a port can have the name.
pub(crate) fn is_name(word: &str) -> bool
    ensures { result ≡ is_a_name word.now }
{
    !word.is_empty()
        && word.len() <= LONGEST_NAME
        && has_name_bytes(word.as_bytes())
        && word != "host"
}

/// The address, unless it names a group or is all zeros.
fn station(bytes: [u8; 6]) -> Result<Mac, LineWhy>
    ensures { result ≡ found Address (station_of bytes) }
{
    let address = Mac::new(bytes);
    if address.is_multicast() || address.number() == 0 {
        Err(LineWhy::Address)
    } else {
        Ok(address)
    }
}

fn has_colons(text: &[u8]) -> bool
    requires { length text.now ≡ 17 }
    ensures { result ≡ has_colons_at text.now }
{
    text[2] == b':' && text[5] == b':' && text[8] == b':' && text[11] == b':' && text[14] == b':'
}

/// The digits of an address, without its colons.
fn digits_of(text: &[u8]) -> [u8; 12]
    requires { length text.now ≡ 17 }
    ensures { result ≡ twelve text.now }
{
    [
        text[0], text[1], text[3], text[4], text[6], text[7], text[9], text[10], text[12],
        text[13], text[15], text[16],
    ]
}

fn six_bytes(digits: &[u8]) -> Option<[u8; 6]>
    requires { length digits.now ≡ 12 }
    ensures { result ≡ bytes_from_hex digits.now }
{
    match <[u8; 6]>::from_hex(digits) {
        Ok(bytes) => Some(bytes),
        Err(_) => None,
    }
}

/// The address of one station.
#[tactic(auto, unfolding(br_model::specs::Text::Operands::mac))]
pub fn mac(word: &str) -> Result<Mac, LineWhy>
    ensures { result ≡ mac_of word.now }
{
    let text = word.as_bytes();
    if text.len() != 17 || !has_colons(text) {
        return Err(LineWhy::Address);
    }
    let digits = digits_of(text);
    match six_bytes(digits.as_slice()) {
        Some(bytes) => station(bytes),
        None => Err(LineWhy::Address),
    }
}
