//! IP addresses, as words spell them.
ghost use Rattle.std.specs.Prelude.{◌≡◌, length};
ghost use Rattle.br_model.specs.Data.Digits.{bytes_from_hex};
ghost use Rattle.br_model.specs.Text.IpWords.{octet as octet_of, four_digits as four_digits_of, address_four, address_six};
ghost use Rattle.br_model.specs.Text.Operands.{group as group_of};

use crate::operands::number_up_to;
use br_model::group::Ip;
use br_model::scenario::LineWhy;
use hex::FromHex;

/// A decimal number up to 255.
fn octet(word: &str) -> Option<u8>
    ensures { result ≡ octet_of word.now }
{
    Some(number_up_to(word, 255)? as u8)
}

fn two_bytes(digits: &[u8]) -> Option<[u8; 2]>
    requires { length digits.now ≡ 4 }
    ensures { result ≡ bytes_from_hex digits.now }
{
    match <[u8; 2]>::from_hex(digits) {
        Ok(bytes) => Some(bytes),
        Err(_) => None,
    }
}

/// The number of four hexadecimal digits.
fn four_digits(word: &str) -> Option<u16>
    ensures { result ≡ four_digits_of word.now }
{
    let digits = word.as_bytes();
    if digits.len() != 4 {
        return None;
    }
    let [high, low] = two_bytes(digits)?;
    Some(u16::from(high) * 256 + u16::from(low))
}

/// The parts of an address of version 4, and of version 6.
const OCTETS: usize = 4;

const GROUPS: usize = 8;

/// The address of version 4 in dotted decimal.
pub fn address_four(word: &str) -> Option<u32>
    ensures { result ≡ address_four word.now }
{
    let mut address = 0;
    let mut count = 0;
    for part in word.split('.') {
        if count == OCTETS {
            return None;
        }
        address = address * 256 + u32::from(octet(part)?);
        count += 1;
    }
    if count == OCTETS { Some(address) } else { None }
}

/// The address of version 6, of which no part is left out.
pub fn address_six(word: &str) -> Option<u128>
    ensures { result ≡ address_six word.now }
{
    let mut address = 0;
    let mut count = 0;
    for part in word.split(':') {
        if count == GROUPS {
            return None;
        }
        address = address * 65_536 + u128::from(four_digits(part)?);
        count += 1;
    }
    if count == GROUPS { Some(address) } else { None }
}

/// The address that names a group, or is to be refused as none.
#[tactic(auto, unfolding(br_model::specs::Text::Operands::group))]
pub(crate) fn group(word: &str) -> Result<Ip, LineWhy>
    ensures { result ≡ group_of word.now }
{
    if let Some(address) = address_four(word) {
        return Ok(Ip::V4(address));
    }
    match address_six(word) {
        Some(address) => Ok(Ip::V6(address)),
        None => Err(LineWhy::Address),
    }
}
