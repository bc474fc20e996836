//! Bytes, as digits spell them.
ghost use Rattle.std.specs.Prelude.{◌≡◌, ◌<◌, ◌≤◌, ◌*◌, length, Some, None, IfOk};
ghost use Rattle.std.specs.Bool.{MatchBool};
ghost use Rattle.br_model.specs.Data.Digits.{nibble, byte_of, bytes_from_hex};
ghost use Rattle.br_model.specs.Text.Operands.{hex as hex_of};
ghost use Rattle.bridge_command.specs.Seen.{OrNoMemory};

use br_model::NoMemory;
use br_model::bytes::Bytes;
use br_model::scenario::LineWhy;
use std::alloc::Global;

/// What each byte stands for as the first of a byte's two digits, in either case. 256 stands for a byte that is no digit.
const HIGH: [u16; 256] = [
    256, 256, 256, 256, 256, 256, 256, 256, 256, 256, 256, 256, 256, 256, 256, 256, 256, 256, 256,
    256, 256, 256, 256, 256, 256, 256, 256, 256, 256, 256, 256, 256, 256, 256, 256, 256, 256, 256,
    256, 256, 256, 256, 256, 256, 256, 256, 256, 256, 0, 16, 32, 48, 64, 80, 96, 112, 128, 144,
    256, 256, 256, 256, 256, 256, 256, 160, 176, 192, 208, 224, 240, 256, 256, 256, 256, 256, 256,
    256, 256, 256, 256, 256, 256, 256, 256, 256, 256, 256, 256, 256, 256, 256, 256, 256, 256, 256,
    256, 160, 176, 192, 208, 224, 240, 256, 256, 256, 256, 256, 256, 256, 256, 256, 256, 256, 256,
    256, 256, 256, 256, 256, 256, 256, 256, 256, 256, 256, 256, 256, 256, 256, 256, 256, 256, 256,
    256, 256, 256, 256, 256, 256, 256, 256, 256, 256, 256, 256, 256, 256, 256, 256, 256, 256, 256,
    256, 256, 256, 256, 256, 256, 256, 256, 256, 256, 256, 256, 256, 256, 256, 256, 256, 256, 256,
    256, 256, 256, 256, 256, 256, 256, 256, 256, 256, 256, 256, 256, 256, 256, 256, 256, 256, 256,
    256, 256, 256, 256, 256, 256, 256, 256, 256, 256, 256, 256, 256, 256, 256, 256, 256, 256, 256,
    256, 256, 256, 256, 256, 256, 256, 256, 256, 256, 256, 256, 256, 256, 256, 256, 256, 256, 256,
    256, 256, 256, 256, 256, 256, 256, 256, 256, 256, 256, 256, 256, 256, 256, 256, 256, 256, 256,
    256, 256, 256, 256, 256, 256, 256, 256,
];

/// The same of the second.
const LOW: [u16; 256] = [
    256, 256, 256, 256, 256, 256, 256, 256, 256, 256, 256, 256, 256, 256, 256, 256, 256, 256, 256,
    256, 256, 256, 256, 256, 256, 256, 256, 256, 256, 256, 256, 256, 256, 256, 256, 256, 256, 256,
    256, 256, 256, 256, 256, 256, 256, 256, 256, 256, 0, 1, 2, 3, 4, 5, 6, 7, 8, 9, 256, 256, 256,
    256, 256, 256, 256, 10, 11, 12, 13, 14, 15, 256, 256, 256, 256, 256, 256, 256, 256, 256, 256,
    256, 256, 256, 256, 256, 256, 256, 256, 256, 256, 256, 256, 256, 256, 256, 256, 10, 11, 12, 13,
    14, 15, 256, 256, 256, 256, 256, 256, 256, 256, 256, 256, 256, 256, 256, 256, 256, 256, 256,
    256, 256, 256, 256, 256, 256, 256, 256, 256, 256, 256, 256, 256, 256, 256, 256, 256, 256, 256,
    256, 256, 256, 256, 256, 256, 256, 256, 256, 256, 256, 256, 256, 256, 256, 256, 256, 256, 256,
    256, 256, 256, 256, 256, 256, 256, 256, 256, 256, 256, 256, 256, 256, 256, 256, 256, 256, 256,
    256, 256, 256, 256, 256, 256, 256, 256, 256, 256, 256, 256, 256, 256, 256, 256, 256, 256, 256,
    256, 256, 256, 256, 256, 256, 256, 256, 256, 256, 256, 256, 256, 256, 256, 256, 256, 256, 256,
    256, 256, 256, 256, 256, 256, 256, 256, 256, 256, 256, 256, 256, 256, 256, 256, 256, 256, 256,
    256, 256, 256, 256, 256, 256, 256, 256, 256, 256, 256, 256, 256, 256, 256, 256, 256, 256, 256,
    256, 256, 256,
];

/// The byte that two digits spell, or 256 or more where one of them is no digit.
#[inline(always)]
fn pair(high: u8, low: u8) -> u16
    ensures byte { result < 256 → byte_of (nibble high) (nibble low) ≡ Some result }
    ensures bad { 256 ≤ result → byte_of (nibble high) (nibble low) ≡ None }
{
    HIGH[usize::from(high)] + LOW[usize::from(low)]
}

/// Writes the bytes that the digits spell. `false` where one is no digit: what is written then means nothing.
fn write_bytes(digits: &[u8], out: &mut [u8]) -> bool
    requires { length digits.now ≡ 2 * length out.old }
    ensures { MatchBool result (bytes_from_hex digits.now ≡ Some out.new) (bytes_from_hex digits.now ≡ None) }
{
    let mut all = 0u16;
    for i in 0..out.len() {
        let byte = pair(digits[2 * i], digits[2 * i + 1]);
        all |= byte;
        out[i] = (byte % 256) as u8;
    }
    all < 256
}

/// The bytes that digits of either case spell.
pub(crate) fn decoded(alloc: Global, digits: &[u8]) -> Result<Option<Bytes>, NoMemory>
    ensures { IfOk result (λ bytes. bytes ≡ bytes_from_hex digits.now) }
{
    if digits.len() % 2 != 0 {
        return Ok(None);
    }
    let mut bytes = vec![in alloc; 0u8; digits.len() / 2]?;
    if write_bytes(digits, bytes.as_mut_slice()) {
        Ok(Some(Bytes::of(bytes)))
    } else {
        Ok(None)
    }
}

/// At least one byte.
#[tactic(auto, unfolding(br_model::specs::Text::Operands::hex))]
pub(crate) fn hex_bytes(alloc: Global, word: &str) -> Result<Bytes, LineWhy>
    ensures { OrNoMemory result (hex_of word.now) }
{
    match decoded(alloc, word.as_bytes()) {
        Ok(Some(bytes)) => {
            if bytes.is_empty() {
                Err(LineWhy::Hex)
            } else {
                Ok(bytes)
            }
        }
        Ok(None) => Err(LineWhy::Hex),
        Err(_) => Err(LineWhy::NoMemory),
    }
}
