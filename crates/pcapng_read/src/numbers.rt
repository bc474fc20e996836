//! Numbers in bytes, in the byte order of a section.
ghost use Rattle.std.specs.Prelude.{◌≡◌, ◌≤◌, ◌+◌, length};
ghost use Rattle.br_model.specs.Wire.Captures.{number_in};

use br_model::capture::Order;
use byteorder::{BigEndian, ByteOrder, LittleEndian};

/// The number in the two bytes from place `at` on.
pub fn two_at(order: Order, bytes: &[u8], at: usize) -> u16
    requires { at + 2 ≤ length bytes.now }
    ensures { result ≡ number_in order bytes.now at 2 }
{
    match order {
        Order::HighFirst => BigEndian::read_u16(&bytes[at..]),
        Order::LowFirst => LittleEndian::read_u16(&bytes[at..]),
    }
}

/// The number in the four bytes from place `at` on.
pub fn four_at(order: Order, bytes: &[u8], at: usize) -> u32
    requires { at + 4 ≤ length bytes.now }
    ensures { result ≡ number_in order bytes.now at 4 }
{
    match order {
        Order::HighFirst => BigEndian::read_u32(&bytes[at..]),
        Order::LowFirst => LittleEndian::read_u32(&bytes[at..]),
    }
}
