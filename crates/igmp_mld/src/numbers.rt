//! Numbers in bytes, the highest byte first.
ghost use Rattle.std.specs.Prelude.{◌≡◌, ◌≤◌, ◌+◌, length};
ghost use Rattle.br_model.specs.Wire.Frames.{number_at};

use byteorder::{BigEndian, ByteOrder};

/// The number in the two bytes from place `at` on.
pub fn two_at(bytes: &[u8], at: usize) -> u16
    requires { at + 2 ≤ length bytes.now }
    ensures { result ≡ number_at bytes.now at 2 }
{
    BigEndian::read_u16(&bytes[at..])
}

/// The number in the four bytes from place `at` on.
#[tactic(auto, using(crate::proofs::BigEndian::number_at_read))]
pub fn four_at(bytes: &[u8], at: usize) -> u32
    requires { at + 4 ≤ length bytes.now }
    ensures { result ≡ number_at bytes.now at 4 }
{
    BigEndian::read_u32(&bytes[at..])
}

/// The number in the sixteen bytes from place `at` on.
#[tactic(auto, using(crate::proofs::BigEndian::number_at_read))]
pub fn sixteen_at(bytes: &[u8], at: usize) -> u128
    requires { at + 16 ≤ length bytes.now }
    ensures { result ≡ number_at bytes.now at 16 }
{
    BigEndian::read_u128(&bytes[at..])
}
