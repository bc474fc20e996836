//! Packed rows as a switch chip has them, and banks of such rows.
#![tactic(auto)]

ghost use Rattle.std.specs.Prelude.{◌≡◌, ℕ, ◌+◌, ◌-◌, ◌*◌, ◌/◌, ◌%◌, ◌^◌, ◌==◌, ◌<◌, ◌≤◌, List, IfOk, length, slice_set, slice_index, replicate};
ghost use Rattle.chip_regs.specs.Rows.{number, field, with_field, bit_of};

use lists::padded::put_item;
use std::alloc::{AllocError, Global};
use std::marker::Model;

/// A row of bytes. Bit i is bit i % 8, counted from the least, of byte i / 8.
///
/// Contracts see the number that has these bits.
#[derive(Clone, Copy)]
pub struct Row<const BYTES: usize> {
    bytes: [u8; BYTES],
}

impl<const BYTES: usize> Model for Row<BYTES> {
    ghost use Rattle.std.specs.Prelude.{ℕ};
    ghost use Rattle.chip_regs.specs.Rows.{number, bytes_of, AreBytes};
    ghost use Rattle.chip_regs.specs.BytesOfNumbers.{bytes_of-number};

    ghost Value = { ℕ };

    ghost view = { λ r. number r.bytes };

    ghost invariant = { λ r. AreBytes BYTES r.bytes };

    ghost inverse = { λ n. record { bytes = bytes_of BYTES n } };

    ghost inverse_ok = { λ r h i. record { bytes = bytes_of-number BYTES r.bytes h i } };
}

/// Bits of a row: how many from which on. The first is the least.
#[derive(Clone, Copy)]
pub struct Field {
    pub at: u16,
    pub width: u8,
}

/// The shift and mask code of a field: its number, or with one more argument the whole with another number in the field.
macro_rules! field {
    ($whole:expr, $at:expr, $width:expr) => {
        ($whole >> $at) & ((1 << $width) - 1)
    };
    ($whole:expr, $at:expr, $width:expr, $number:expr) => {
        ((($whole >> ($at + $width)) << $width) | $number) << $at | ($whole & ((1 << $at) - 1))
    };
}

/// The number in a field of a window.
#[inline(always)]
fn field_in(window: u128, at: u16, width: u16) -> u64
    requires at { at < 8 }
    requires width { width ≤ 64 }
    ensures { result ≡ window / 2 ^ at % 2 ^ width }
{
    field!(window, at, width) as u64
}

/// The window with another number in a field.
#[inline(always)]
fn window_with(window: u128, at: u16, width: u16, number: u64) -> u128
    requires window { window < 2 ^ 72 }
    requires at { at < 8 }
    requires width { width ≤ 64 }
    requires number { number < 2 ^ width }
    ensures { result ≡ with_field window at width number }
{
    field!(window, at, width, u128::from(number))
}

/// The byte with a bit set or cleared.
#[inline(always)]
fn byte_with(byte: u8, at: usize, on: bool) -> u8
    requires { at < 8 }
    ensures { result ≡ with_field byte at 1 (bit_of on) }
{
    if on {
        byte | 1 << at
    } else {
        byte & !(1 << at)
    }
}

/// How many bytes a field lies in.
#[inline(always)]
fn byte_count(f: Field) -> usize
    requires { f.width ≤ 64 }
    ensures covers { f.at % 8 + f.width ≤ 8 * result }
    ensures few { result ≤ 9 }
    ensures within { 8 * (f.at / 8 + result) < f.at + f.width + 8 }
{
    usize::from((f.at % 8 + u16::from(f.width) + 7) / 8)
}

impl<const BYTES: usize> Row<BYTES> {
    /// The row whose bits are all 0.
    pub fn zero() -> Row<BYTES>
        ensures { result ≡ 0 }
    {
        Row { bytes: [0; BYTES] }
    }

    /// The bytes of the row, as they stand in a register.
    pub fn bytes(&self) -> &[u8]
        ensures value { number result.now ≡ self.now }
        ensures len { length result.now ≡ BYTES }
    {
        self.bytes.as_slice()
    }

    /// The number of the bytes from `first` on, as far as a field may reach.
    #[inline(always)]
    fn window(&self, first: usize, count: usize) -> u128
        requires count { count ≤ 9 }
        requires within { first + count ≤ BYTES }
        ensures { result ≡ self.now / 2 ^ (8 * first) % 2 ^ (8 * count) }
    {
        let mut number = 0;
        for i in 0..count {
            number |= u128::from(self.bytes[first + i]) << (8 * i);
        }
        number
    }

    /// Writes the low bytes of a number from `first` on.
    #[inline(always)]
    fn write(&mut self, first: usize, count: usize, number: u128)
        requires count { count ≤ 9 }
        requires within { first + count ≤ BYTES }
        requires narrow { number < 2 ^ (8 * count) }
        ensures { self.new ≡ with_field self.old (8 * first) (8 * count) number }
    {
        for i in 0..count {
            self.bytes[first + i] = (number >> (8 * i) & 0xff) as u8;
        }
    }

    /// The number in a field.
    #[inline(always)]
    pub fn get(&self, f: Field) -> u64
        requires within { f.at + f.width ≤ 8 * BYTES }
        requires narrow { f.width ≤ 64 }
        ensures value { result ≡ field self.now f.at f.width }
        ensures below { result < 2 ^ f.width }
    {
        let first = usize::from(f.at / 8);
        let window = self.window(first, byte_count(f));
        field_in(window, f.at % 8, u16::from(f.width))
    }

    /// Writes the number into a field, and leaves every other bit.
    #[inline(always)]
    pub fn set(&mut self, f: Field, n: u64)
        requires within { f.at + f.width ≤ 8 * BYTES }
        requires narrow { f.width ≤ 64 }
        requires fits { n < 2 ^ f.width }
        ensures { self.new ≡ with_field self.old f.at f.width n }
    {
        let first = usize::from(f.at / 8);
        let count = byte_count(f);
        let window = self.window(first, count);
        let changed = window_with(window, f.at % 8, u16::from(f.width), n);
        self.write(first, count, changed);
    }

    /// Whether a bit is set.
    #[inline(always)]
    pub fn bit(&self, at: usize) -> bool
        requires { at < 8 * BYTES }
        ensures { result ≡ (field self.now at 1 == 1) }
    {
        (self.bytes[at / 8] >> (at % 8)) & 1 == 1
    }

    /// Sets a bit or clears it, and leaves every other. It writes one byte.
    #[inline(always)]
    pub fn set_bit(&mut self, at: usize, on: bool)
        requires { at < 8 * BYTES }
        ensures { self.new ≡ with_field self.old at 1 (bit_of on) }
    {
        self.bytes[at / 8] = byte_with(self.bytes[at / 8], at % 8, on);
    }
}

/// A bank of rows, which takes its room at its making.
///
/// Contracts see the list of the rows.
#[derive(Drop)]
pub struct Bank<const ROWS: usize, const BYTES: usize> {
    // Those behind were never written to, and read as the blank one.
    rows: Vec<Row<BYTES>>,
    blank: Row<BYTES>,
}

impl<const ROWS: usize, const BYTES: usize> Model for Bank<ROWS, BYTES> {
    ghost use Rattle.std.specs.Prelude.{◌≡◌, ◌≤◌, ℕ, List, length, vec_capacity};
    ghost use Rattle.lists.specs.Padded.{padded};

    ghost Value = { List ℕ };

    ghost view = { λ b. padded 0 ROWS b.rows.items };

    ghost invariant = { λ b. (ROWS ≤ vec_capacity b.rows) × (b.blank ≡ 0) × (length b.rows.items ≤ ROWS) };
}

impl<const ROWS: usize, const BYTES: usize> Bank<ROWS, BYTES> {
    /// A bank of rows whose bits are all 0.
    pub fn make(alloc: Global) -> Result<Bank<ROWS, BYTES>, AllocError>
        requires { BYTES < 2 ^ 16 }
        ensures { IfOk result (λ b. b ≡ replicate ROWS 0) }
    {
        let rows = Vec::with_capacity(alloc, ROWS)?;
        Ok(Bank {
            rows,
            blank: Row::zero(),
        })
    }

    /// Before which place all rows stand that were written to. The others are blank.
    pub fn written(&self) -> usize
        ensures few { result ≤ ROWS }
        ensures rest { (i : ℕ) → result ≤ i → i < ROWS → 0 ≡ slice_index self.now i }
        ensures len { length self.now ≡ ROWS }
    {
        self.rows.len()
    }

    /// The row at a place below `ROWS`, where it stands.
    #[inline(always)]
    pub fn at(&self, i: usize) -> &Row<BYTES>
        requires { i < ROWS }
        ensures value { result.now ≡ slice_index self.now i }
        ensures len { length self.now ≡ ROWS }
    {
        if i < self.rows.len() {
            &self.rows[i]
        } else {
            &self.blank
        }
    }

    /// Changes the row at a place below `ROWS`, and no other.
    #[inline(always)]
    pub fn put(&mut self, i: usize, row: Row<BYTES>)
        requires { i < ROWS }
        ensures value { self.new ≡ slice_set self.old i row.entry }
        ensures len { length self.old ≡ ROWS }
    {
        if i < self.rows.len() {
            self.rows[i] = row;
            return;
        }
        put_item(&mut self.rows, i, row, self.blank);
    }

    /// Sets a bit of the row at a place below `ROWS` or clears it, and changes nothing else. Of a row that was written to before it
    /// writes one byte.
    #[inline(always)]
    pub fn set_bit(&mut self, i: usize, at: usize, on: bool)
        requires row { i < ROWS }
        requires bit { at < 8 * BYTES }
        ensures value { self.new ≡ slice_set self.old i (with_field (slice_index self.old i) at 1 (bit_of on)) }
        ensures len { length self.old ≡ ROWS }
    {
        if i < self.rows.len() {
            self.rows[i].set_bit(at, on);
            return;
        }
        let mut row = self.blank;
        row.set_bit(at, on);
        self.put(i, row);
    }
}
