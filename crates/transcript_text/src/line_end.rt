//! A short line, put together from its end.
ghost use Rattle.std.specs.Prelude.{◌≡◌, ◌+◌, ◌≤◌, ◌++◌, [], length, drop, OnOk, OnErr, decimal};
ghost use Rattle.std.specs.Str.{IsUtf8};
ghost use Rattle.std.specs.String.{string_bytes};

use crate::digits::Digits;
use br_model::NoMemory;
use itoa::write_digits;
use std::marker::Model;
use std::simd::Simd;
use std::str;

/// The most bytes of a line that has no frame.
const ROOM: usize = 64;

/// Where the bytes begin that are copied with a short line.
const LAST: usize = 48;

/// What stands at the end of a line. Digits of a number come from the last to the first, so a line is put together from its end.
#[derive(Drop)]
pub(crate) struct LineEnd {
    bytes: [u8; ROOM],
    from: usize,
}

impl Model for LineEnd {
    ghost use Rattle.std.specs.Prelude.{◌≤◌, List, ℕ, drop};
    ghost use Rattle.std.specs.Str.{IsUtf8};

    ghost Value = { List ℕ };

    ghost view = { λ l. drop l.from l.bytes };

    ghost invariant = { λ l. (l.from ≤ 64) × IsUtf8 (drop l.from l.bytes) };
}

/// Puts a word before this place, and answers where it begins.
#[inline(always)]
pub(crate) fn put_before(bytes: &mut [u8], end: usize, word: &[u8]) -> usize
    requires fits { length word.now ≤ end }
    requires inside { end ≤ length bytes.old }
    ensures from { result + length word.now ≡ end }
    ensures written { drop result bytes.new ≡ word.now ++ drop end bytes.old }
    ensures len { length bytes.new ≡ length bytes.old }
{
    let from = end - word.len();
    bytes[from..end].copy_from_slice(word);
    from
}

/// The same for a word whose length is known, in one store.
#[inline(always)]
pub(crate) fn put_chunk<const N: usize>(bytes: &mut [u8], end: usize, word: &[u8]) -> usize
    requires whole { length word.now ≡ N }
    requires fits { N ≤ end }
    requires inside { end ≤ length bytes.old }
    ensures from { result + N ≡ end }
    ensures written { drop result bytes.new ≡ word.now ++ drop end bytes.old }
    ensures len { length bytes.new ≡ length bytes.old }
{
    let from = end - N;
    Simd::<u8, N>::from_slice(word).copy_to_slice(&mut bytes[from..]);
    from
}

/// Puts a number before this place, and answers where it begins.
#[inline(always)]
pub(crate) fn put_number(bytes: &mut [u8], end: usize, number: u32) -> usize
    requires fits { 10 ≤ end }
    requires inside { end ≤ length bytes.old }
    ensures start { result + length (decimal number) ≡ end }
    ensures least { end ≤ result + 10 }
    ensures written { drop result bytes.new ≡ decimal number ++ drop end bytes.old }
    ensures len { length bytes.new ≡ length bytes.old }
{
    write_digits(u64::from(number), bytes, end)
}

impl LineEnd {
    #[inline(always)]
    pub(crate) fn new() -> LineEnd
        ensures { result ≡ [] }
    {
        LineEnd {
            bytes: [0; ROOM],
            from: ROOM,
        }
    }

    /// A word in front of what stands there.
    #[inline(always)]
    pub(crate) fn word(&mut self, word: &str)
        requires { length word.now + length self.old ≤ 64 }
        ensures text { self.new ≡ word.now ++ self.old }
        ensures len { length self.new ≡ length word.now + length self.old }
    {
        self.from = put_before(&mut self.bytes, self.from, word.as_bytes());
    }

    /// A number in front of what stands there.
    #[inline(always)]
    pub(crate) fn number(&mut self, number: u32)
        requires { 10 + length self.old ≤ 64 }
        ensures text { self.new ≡ decimal number ++ self.old }
        ensures len { length self.new ≤ 10 + length self.old }
    {
        self.from = put_number(&mut self.bytes, self.from, number);
    }

    /// A number in front of what stands there, by the digits of those near it.
    #[inline(always)]
    pub(crate) fn number_near(&mut self, number: u32, digits: &mut Digits)
        requires { 10 + length self.old ≤ 64 }
        ensures text { self.new ≡ decimal number ++ self.old }
        ensures len { length self.new ≤ 10 + length self.old }
    {
        self.from = digits.put(&mut self.bytes, self.from, number);
    }

    /// Puts it before this place of another text, and answers where it begins. 16 bytes are written there, whatever it is.
    #[inline(always)]
    pub(crate) fn copy_before(&self, text: &mut [u8], end: usize) -> usize
        requires short { length self.now ≤ 16 }
        requires fits { 16 ≤ end }
        requires inside { end ≤ length text.old }
        ensures from { result + length self.now ≡ end }
        ensures written { drop result text.new ≡ self.now ++ drop end text.old }
        ensures utf8 { IsUtf8 self.now }
    {
        put_chunk::<16>(text, end, &self.bytes[LAST..]);
        end - (ROOM - self.from)
    }

    /// Writes it behind the text.
    #[inline(always)]
    pub(crate) fn append_to(&self, to: &mut String) -> Result<(), NoMemory>
        ensures ok { OnOk result (string_bytes to.new ≡ string_bytes to.old ++ self.now) }
        ensures err { OnErr result (string_bytes to.new ≡ string_bytes to.old) }
    {
        // Words and digits are UTF-8.
        to.push_str(unsafe { str::from_utf8_unchecked(&self.bytes[self.from..]) })
    }
}
