//! What single words spell.
ghost use Rattle.std.specs.Prelude.{◌≡◌, ◌<◌, IfOk};
ghost use Rattle.std.specs.List.{list_all};
ghost use Rattle.transcript_text.specs.Reading.{number as number_of, port as port_of, frame as frame_of, is_lower as is_a_lower, class as class_of, fault as fault_of, refusal as refusal_of};

use br_model::NoMemory;
use br_model::bytes::Bytes;
use br_model::frame::{Class, FrameFault};
use br_model::numbers::Port;
use br_model::steps::Refusal;
use hex::FromHexError;
use std::alloc::{AllocError, Global};

/// A number in decimal, without a leading zero.
pub(crate) fn number(word: &str) -> Option<u32>
    ensures { result ≡ number_of word.now }
{
    let digits = word.as_bytes();
    if digits.is_empty() || digits[0] == b'+' || (digits.len() > 1 && digits[0] == b'0') {
        return None;
    }
    word.parse().ok()
}

pub(crate) fn port(word: &str) -> Option<Port>
    ensures { result ≡ port_of word.now }
{
    let number = u8::try_from(number(word)?).ok()?;
    Port::new(number)
}

fn is_lower(digit: u8) -> bool
    ensures { result ≡ is_a_lower digit }
{
    !digit.is_ascii_uppercase()
}

fn are_lower(digits: &[u8]) -> bool
    ensures { result ≡ list_all is_a_lower digits.now }
{
    digits.iter().all(|digit| is_lower(*digit))
}

/// At least one byte, in digits of lower case.
pub(crate) fn frame(alloc: Global, word: &str) -> Result<Option<Bytes>, NoMemory>
    ensures { IfOk result (λ bytes. bytes ≡ frame_of word.now) }
{
    let digits = word.as_bytes();
    if digits.is_empty() || !are_lower(digits) {
        return Ok(None);
    }
    match hex::decode(alloc, digits) {
        Ok(bytes) => Ok(Some(Bytes::of(bytes))),
        Err(FromHexError::OutOfMemory) => Err(AllocError),
        Err(
            FromHexError::InvalidHexCharacter { .. }
            | FromHexError::OddLength
            | FromHexError::InvalidStringLength,
        ) => Ok(None),
    }
}

pub(crate) fn class(word: &str) -> Option<Class>
    ensures { result ≡ class_of word.now }
{
    match word {
        "drop" => Some(Class::Drop),
        "trap" => Some(Class::Trap),
        "copy" => Some(Class::Copy),
        "forward" => Some(Class::Forward),
        _ => None,
    }
}

pub(crate) fn fault(word: &str) -> Option<FrameFault>
    ensures { result ≡ fault_of word.now }
{
    match word {
        "short" => Some(FrameFault::Short),
        "long" => Some(FrameFault::Long),
        "tagshort" => Some(FrameFault::TagShort),
        _ => None,
    }
}

pub(crate) fn refusal(word: &str) -> Option<Refusal>
    ensures { result ≡ refusal_of word.now }
{
    Refusal::from_number(number(word)?)
}
