//! Bytes, as digits of either case spell them.
ghost use Rattle.std.specs.Prelude.{◌≡◌, ◌≢◌, IfOk, IfErr, Some, None};
ghost use Rattle.br_model.specs.declared.scenario.LineWhy.TheVariants.{NoMemory as NoMemoryLeft};
ghost use Rattle.br_model.specs.Data.Digits.{bytes_from_hex};
ghost use Rattle.br_model.specs.Text.Operands.{hex as hex_of};
ghost use Rattle.bridge_command.specs.Seen.{OrNoMemory};

use br_model::NoMemory;
use br_model::bytes::Bytes;
use br_model::scenario::LineWhy;
use hex::{FromHexError, decode};
use std::alloc::{AllocError, Global};

/// The bytes that the digits spell. `None` where they spell none.
fn decoded(alloc: Global, digits: &str) -> Result<Option<Bytes>, NoMemory>
    ensures { IfOk result (λ bytes. bytes ≡ bytes_from_hex digits.now) }
{
    match decode(alloc, digits) {
        Ok(bytes) => Ok(Some(Bytes::of(bytes))),
        Err(FromHexError::OutOfMemory) => Err(AllocError),
        Err(_) => Ok(None),
    }
}

/// At least one byte.
#[tactic(auto, unfolding(br_model::specs::Text::Operands::hex))]
pub fn hex_bytes(alloc: Global, word: &str) -> Result<Bytes, LineWhy>
    ensures { OrNoMemory result (hex_of word.now) }
{
    match decoded(alloc, word) {
        Ok(Some(bytes)) => {
            if bytes.is_empty() {
                Err(LineWhy::Hex)
            } else {
                Ok(bytes)
            }
        }
        Ok(None) => Err(LineWhy::Hex),
        Err(_) => Err(LineWhy::NoMemory),
    }
}
