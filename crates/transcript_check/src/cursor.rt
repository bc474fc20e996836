//! A transcript beside what is told, which comes in pieces of whole lines.
ghost use Rattle.std.specs.Prelude.{◌≡◌, ◌+◌, ◌<◌, ◌≤◌, ◌^◌, [], true, length, IfOk};
ghost use Rattle.br_model.specs.Program.Checks.{lines_in};
ghost use Rattle.transcript_check.specs.Lines.{is_whole};
ghost use Rattle.transcript_check.specs.Comparing.{Advances, Compares, EndsThere, PassesLine, first_in};

use crate::NoMemory;
use crate::lines::first_line;
use br_model::bytes::Bytes;
use std::alloc::Global;
use std::marker::Model;

/// The first line that differs, as it should be and as it is; nothing where that text has ended.
#[derive(Drop)]
pub(crate) struct Difference {
    pub(crate) line: u32,
    pub(crate) expected: Bytes,
    pub(crate) found: Bytes,
}

impl Model for Difference {
    ghost use Rattle.br_model.specs.Program.Checks.{Difference};

    ghost Value = { Difference };

    ghost view = { λ d. record { line = d.line; expected = d.expected; found = d.found } };
}

/// How far a transcript is as it should be: the number of its next line, and its bytes from there on.
#[derive(Drop)]
pub(crate) struct Cursor<'a> {
    line: u32,
    rest: &'a [u8],
}

impl<'a> Model for Cursor<'a> {
    ghost use Rattle.std.specs.Prelude.{◌+◌, ◌<◌, ◌^◌, length};
    ghost use Rattle.transcript_check.specs.Comparing.{Standing};

    ghost Value = { Standing };

    ghost view = { λ c. record { line = c.line; rest = c.rest.now } };

    ghost invariant = { λ c. c.line + length c.rest.now < 2 ^ 32 };
}

/// How many lines there are.
fn count(lines: &[u8]) -> usize
    requires { is_whole lines.now ≡ true }
    ensures count { result ≡ length (lines_in lines.now) }
    ensures few { result ≤ length lines.now }
{
    let mut count = 0;
    for byte in lines {
        if *byte == b'\n' {
            count += 1;
        }
    }
    count
}

impl<'a> Cursor<'a> {
    /// At the first line.
    pub(crate) fn over(transcript: &'a [u8]) -> Cursor<'a>
        requires { length transcript.now < 2 ^ 28 }
        ensures { result ≡ record { line = 1; rest = transcript.now } }
    {
        Cursor {
            line: 1,
            rest: transcript,
        }
    }

    /// The difference at the next line, which should be this one, or nothing.
    fn difference(&self, alloc: Global, line: &[u8]) -> Result<Difference, NoMemory>
        ensures { IfOk result (λ d. d ≡ record { line = self.now.line; expected = line.now; found = first_in self.now.rest }) }
    {
        Ok(Difference {
            line: self.line,
            expected: Bytes::copy_of(alloc, line)?,
            found: Bytes::copy_of(alloc, first_line(self.rest).line)?,
        })
    }

    /// Goes past these whole lines where they stand next, all at once.
    fn pass(&mut self, lines: &[u8]) -> bool
        requires { is_whole lines.now ≡ true }
        ensures { Advances self.old self.new (lines_in lines.now) result }
    {
        if !self.rest.starts_with(lines) {
            return false;
        }
        self.line += count(lines) as u32;
        self.rest = &self.rest[lines.len()..];
        true
    }

    /// Goes past this line where it stands next.
    fn pass_line(&mut self, line: &[u8]) -> bool
        ensures { PassesLine self.old self.new line.now result }
    {
        let next = first_line(self.rest);
        if self.rest.is_empty() || next.line != line {
            return false;
        }
        self.line += 1;
        self.rest = next.behind;
        true
    }

    /// Goes past these lines one by one, up to the first that differs.
    fn compare_lines(&mut self, alloc: Global, lines: &[u8]) -> Result<Option<Difference>, NoMemory>
        ensures { IfOk result (Compares self.old self.new (lines_in lines.now)) }
    {
        let mut left = lines;
        while !left.is_empty() {
            let next = first_line(left);
            if !self.pass_line(next.line) {
                return Ok(Some(self.difference(alloc, next.line)?));
            }
            left = next.behind;
        }
        Ok(None)
    }

    /// Goes past these whole lines, the next ones that are told, up to the first that differs.
    pub(crate) fn compare(
        &mut self,
        alloc: Global,
        lines: &[u8],
    ) -> Result<Option<Difference>, NoMemory>
        requires { is_whole lines.now ≡ true }
        ensures { IfOk result (Compares self.old self.new (lines_in lines.now)) }
    {
        if self.pass(lines) {
            return Ok(None);
        }
        self.compare_lines(alloc, lines)
    }

    /// Nothing more is told: a line that still stands here differs.
    pub(crate) fn end(&self, alloc: Global) -> Result<Option<Difference>, NoMemory>
        ensures { IfOk result (EndsThere self.now) }
    {
        if self.rest.is_empty() {
            return Ok(None);
        }
        Ok(Some(self.difference(alloc, &[])?))
    }
}
