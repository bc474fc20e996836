//! The digits of numbers that come near one another.
ghost use Rattle.std.specs.Prelude.{◌≡◌, ◌+◌, ◌/◌, ◌%◌, ◌<◌, ◌≤◌, ◌∷◌, ◌++◌, length, drop, decimal};

use crate::line_end::{put_chunk, put_number};
use itoa::write_digits;
use std::marker::Model;

/// The two digits of each number below 100.
const PAIRS: [u8; 200] =
    *b"00010203040506070809101112131415161718192021222324252627282930313233343536373839404142434445464748495051525354555657585960616263646566676869707172737475767778798081828384858687888990919293949596979899";

/// The digits that a hundred numbers share, all but their last two. Ids, steps and changes go on by little.
#[derive(Drop)]
pub(crate) struct Digits {
    first: u32,
    shared: [u8; 8],
    from: usize,
}

impl Model for Digits {
    ghost use Rattle.std.specs.Prelude.{◌≡◌, ◌≤◌, ◌/◌, ◌%◌, ℕ, drop, decimal};

    ghost Value = { ℕ };

    ghost view = { λ d. d.first };

    ghost invariant = { λ d. (100 ≤ d.first) × (d.first % 100 ≡ 0) × (d.from ≤ 8) × (drop d.from d.shared ≡ decimal (d.first / 100)) };
}

/// Puts the two digits of a number below 100 at this place.
#[inline(always)]
fn write_pair(pair: usize, bytes: &mut [u8], at: usize)
    requires { (pair < 100) × (at + 2 ≤ length bytes.old) }
    ensures written { drop at bytes.new ≡ (48 + pair / 10) ∷ (48 + pair % 10) ∷ drop (at + 2) bytes.old }
    ensures len { length bytes.new ≡ length bytes.old }
{
    let (tens, ones) = (PAIRS[2 * pair], PAIRS[2 * pair + 1]);
    bytes[at] = tens;
    bytes[at + 1] = ones;
}

impl Digits {
    /// Those of 100 to 199.
    pub(crate) fn new() -> Digits {
        Digits {
            first: 100,
            shared: *b"00000001",
            from: 7,
        }
    }

    /// Puts a number before this place, and answers where it begins.
    #[inline(always)]
    pub(crate) fn put(&mut self, bytes: &mut [u8], end: usize, number: u32) -> usize
        requires fits { 10 ≤ end }
        requires inside { end ≤ length bytes.old }
        ensures start { result + length (decimal number) ≡ end }
        ensures least { end ≤ result + 10 }
        ensures written { drop result bytes.new ≡ decimal number ++ drop end bytes.old }
        ensures len { length bytes.new ≡ length bytes.old }
    {
        if number < self.first || number - self.first >= 100 {
            return self.put_anew(bytes, end, number);
        }
        let last = end - 2;
        write_pair((number - self.first) as usize, bytes, last);
        put_chunk::<8>(bytes, last, &self.shared) + self.from
    }

    /// Puts it where it isn't of the hundred, and keeps what its hundred share.
    #[inline(never)]
    fn put_anew(&mut self, bytes: &mut [u8], end: usize, number: u32) -> usize
        requires fits { 10 ≤ end }
        requires inside { end ≤ length bytes.old }
        ensures start { result + length (decimal number) ≡ end }
        ensures least { end ≤ result + 10 }
        ensures written { drop result bytes.new ≡ decimal number ++ drop end bytes.old }
        ensures len { length bytes.new ≡ length bytes.old }
    {
        let hundreds = number / 100;
        if hundreds > 0 {
            self.first = 100 * hundreds;
            self.from = write_digits(u64::from(hundreds), &mut self.shared, 8);
        }
        put_number(bytes, end, number)
    }
}
