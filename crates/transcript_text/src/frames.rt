//! The lines of frames, whose bytes stand in hexadecimal digits.
ghost use Rattle.std.specs.Prelude.{◌≡◌, ◌≤◌, ◌*◌, ◌++◌, ◌∷◌, length, drop, decimal, None, Some, IfSome, IfOk, OnOk, OnErr, true};
ghost use Rattle.std.specs.Str.{IsUtf8};
ghost use Rattle.std.specs.String.{string_bytes};
ghost use Rattle.std.specs.Option.{is_some};
ghost use Rattle.br_model.specs.Data.Digits.{hex_of};
ghost use Rattle.transcript_text.specs.Frames.{frame_end};

use crate::line_end::{LineEnd, put_before, put_number};
use br_model::NoMemory;
use std::alloc::{AllocError, Global};
use std::marker::Model;
use std::{mem, str};

/// The room before a frame's digits, where the start of a line is put.
const ROOM: usize = 32;

/// The digits of each byte.
const PAIRS: [u8; 512] =
    *b"000102030405060708090a0b0c0d0e0f101112131415161718191a1b1c1d1e1f202122232425262728292a2b2c2d2e2f303132333435363738393a3b3c3d3e3f404142434445464748494a4b4c4d4e4f505152535455565758595a5b5c5d5e5f606162636465666768696a6b6c6d6e6f707172737475767778797a7b7c7d7e7f808182838485868788898a8b8c8d8e8f909192939495969798999a9b9c9d9e9fa0a1a2a3a4a5a6a7a8a9aaabacadaeafb0b1b2b3b4b5b6b7b8b9babbbcbdbebfc0c1c2c3c4c5c6c7c8c9cacbcccdcecfd0d1d2d3d4d5d6d7d8d9dadbdcdddedfe0e1e2e3e4e5e6e7e8e9eaebecedeeeff0f1f2f3f4f5f6f7f8f9fafbfcfdfeff";

/// The digits of a frame's bytes and the line feed, once they are made, behind room for the start of a line. A frame leaves by
/// many ports.
#[derive(Drop)]
pub(crate) struct FrameLine {
    alloc: Global,
    text: Vec<u8>,
    is_made: bool,
}

impl Model for FrameLine {
    ghost use Rattle.std.specs.Prelude.{◌≤◌, if◌then◌else◌, List, ℕ, Option, Some, None, drop, true, ◌≡◌};
    ghost use Rattle.std.specs.Str.{IsUtf8};

    ghost Value = { Option (List ℕ) };

    ghost view = { λ f. if f.is_made then Some (drop 32 f.text.items) else None };

    ghost invariant = { λ f. f.is_made ≡ true → (32 ≤ f.text.len) × IsUtf8 (drop 32 f.text.items) };
}

/// Puts the digits of the bytes in the place of others.
fn write_hex(bytes: &[u8], digits: &mut [u8])
    requires { length digits.old ≡ 2 * length bytes.now }
    ensures { digits.new ≡ hex_of bytes.now }
{
    for i in 0..bytes.len() {
        let pair = 2 * usize::from(bytes[i]);
        digits[2 * i] = PAIRS[pair];
        digits[2 * i + 1] = PAIRS[pair + 1];
    }
}

/// The end of the frame's lines behind the room, in the memory of another text.
fn end_text(memory: Vec<u8>, bytes: &[u8]) -> Result<Vec<u8>, NoMemory>
    ensures text { IfOk result (λ text. drop 32 text.items ≡ frame_end bytes.now) }
    ensures room { IfOk result (λ text. 32 ≤ text.len) }
{
    let mut text = memory;
    let Some(end) = (2 * bytes.len()).checked_add(ROOM) else {
        return Err(AllocError);
    };
    text.resize(end, 0)?;
    write_hex(bytes, &mut text.as_mut_slice()[ROOM..]);
    text.push(b'\n')?;
    Ok(text)
}

/// Puts the start of a line and `PORT ` into the room, and answers where they begin.
#[inline(always)]
fn put_start(start: &LineEnd, port: u8, text: &mut [u8]) -> usize
    requires short { length start.now ≤ 16 }
    requires room { 32 ≤ length text.old }
    ensures start { drop result text.new ≡ start.now ++ (decimal port ++ 32 ∷ drop 32 text.old) }
    ensures room { result ≤ 32 }
    ensures same { drop 32 text.new ≡ drop 32 text.old }
    ensures utf8 { IsUtf8 start.now }
{
    let space = put_before(text, ROOM, b" ");
    let number = put_number(text, space, u32::from(port));
    start.copy_before(text, number)
}

impl FrameLine {
    pub(crate) fn new(alloc: Global) -> FrameLine
        ensures { result ≡ None }
    {
        FrameLine {
            alloc,
            text: Vec::new(alloc),
            is_made: false,
        }
    }

    /// Another frame comes.
    pub(crate) fn forget(&mut self)
        ensures { self.new ≡ None }
    {
        self.is_made = false;
    }

    /// The frame's digits are made, if they aren't.
    #[inline(always)]
    fn make(&mut self, bytes: &[u8]) -> Result<(), NoMemory>
        requires { IfSome self.old (λ text. text ≡ frame_end bytes.now) }
        ensures ok { OnOk result (self.new ≡ Some (frame_end bytes.now)) }
        ensures err { OnErr result (self.new ≡ None) }
    {
        if self.is_made {
            return Ok(());
        }
        let memory = mem::replace(&mut self.text, Vec::new(self.alloc));
        self.text = end_text(memory, bytes)?;
        self.is_made = true;
        Ok(())
    }

    /// Writes the line behind the text, where the frame's digits are made.
    #[inline(always)]
    fn put(&mut self, start: &LineEnd, port: u8, to: &mut String) -> Result<(), NoMemory>
        requires made { is_some self.old ≡ true }
        requires short { length start.now ≤ 16 }
        ensures same { self.new ≡ self.old }
        ensures ok { OnOk result (IfSome self.old (λ text. string_bytes to.new ≡ string_bytes to.old ++ (start.now ++ (decimal port ++ 32 ∷ text)))) }
        ensures err { OnErr result (string_bytes to.new ≡ string_bytes to.old) }
    {
        let from = put_start(start, port, self.text.as_mut_slice());
        // Digits and words are ASCII.
        to.push_str(unsafe { str::from_utf8_unchecked(&self.text.as_slice()[from..]) })
    }

    /// Writes the frame's line behind the text: its start, the port and a space, the digits and the line feed.
    #[inline(always)]
    pub(crate) fn append(
        &mut self,
        start: &LineEnd,
        port: u8,
        bytes: &[u8],
        to: &mut String,
    ) -> Result<(), NoMemory>
        requires made { IfSome self.old (λ text. text ≡ frame_end bytes.now) }
        requires short { length start.now ≤ 16 }
        ensures frame { IfSome self.new (λ text. text ≡ frame_end bytes.now) }
        ensures ok { OnOk result (string_bytes to.new ≡ string_bytes to.old ++ (start.now ++ (decimal port ++ 32 ∷ frame_end bytes.now))) }
        ensures err { OnErr result (string_bytes to.new ≡ string_bytes to.old) }
    {
        self.make(bytes)?;
        self.put(start, port, to)
    }
}
