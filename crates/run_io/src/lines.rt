//! Lines and pieces, cut out of the bytes of a source as they come.
ghost use Rattle.std.specs.Prelude.{◌≡◌, ◌+◌, ◌-◌, ◌<◌, ◌≤◌, [], None, Some, take, drop, length, vec_len, slice_range, IfOk, IfErr, IfSome, IsSome, OnOk, OnErr, MatchOption, true, false};
ghost use Rattle.std.specs.Borrow.{sem};
ghost use Rattle.std.specs.Io.BufRead.{Rests};
ghost use Rattle.std.specs.Io.KnownBytes.{Consumes, Keeps, IsAtEnd};
ghost use Rattle.run_io.specs.Causes.{HasCause};
ghost use Rattle.run_io.specs.Finding.{IsFirstFeed, FillCause, LineStands, FindsLine, FindsPiece, WantsMore, least_room};
ghost use Rattle.run_io.specs.Reading.{Reads, Calls, IsEnd, ReadsLine, ReadsPiece, LineCause, PieceCause, holds_next, HoldsLongLine};
ghost use Rattle.run_io.specs.contracts.lines.LineReader.{the_row};

use crate::NoMemory;
use crate::sources::{Failed, Source};
use memchr::memchr;
use std::alloc::{AllocError, Global};
use std::marker::Model;
use thiserror::Error;

/// How many bytes a reader has room for, at least.
const ROOM: usize = 65_536;

/// The longest line, without its line feed.
pub const MAX_LINE: usize = 20_000;

/// Why there is no next line or piece.
#[derive(Clone, Copy, Debug, PartialEq, Eq, Error)]
pub enum LineFault {
    /// A read failed.
    #[error("read fault")]
    ReadFault,
    /// More than `MAX_LINE` bytes came without a line feed.
    #[error("a line is longer than {MAX_LINE} bytes")]
    LineTooLong,
    /// As many bytes were taken as may be, and what is held of them is no whole line or piece.
    #[error("too long")]
    TooLong,
    /// An allocation was refused.
    #[error("no memory")]
    NoMemory,
}

impl From<AllocError> for LineFault {
    ghost use Rattle.run_io.specs.declared.lines.LineFault.TheVariants.{NoMemory};

    ghost from_gives = { λ _ fault. fault ≡ NoMemory };

    fn from(_error: AllocError) -> LineFault {
        LineFault::NoMemory
    }
}

/// A line without its line feed, and whether it had one. Or a piece, and whether it is as long as it
/// was asked for. The bytes stand in the reader's buffer.
#[derive(Drop)]
pub struct Got<'a> {
    pub bytes: &'a [u8],
    pub whole: bool,
}

/// Reads lines and pieces, up to a limit of bytes. After a fault it gives the same fault.
///
/// `buffer[start..end]` was taken from the source and not handed out, and `line` is the length of
/// its first line.
#[derive(Drop)]
pub struct LineReader {
    buffer: Vec<u8>,
    start: usize,
    end: usize,
    line: Option<usize>,
    taken: u32,
    limit: u32,
    fault: Option<LineFault>,
}

impl Model for LineReader {
    ghost use Rattle.std.specs.Prelude.{slice_range};
    ghost use Rattle.run_io.specs.Reading.{Reading};

    ghost Value = { Reading };

    ghost use Rattle.run_io.specs.Buffered.{IsSound};

    ghost view = { λ r. record { held = slice_range r.buffer.items r.start r.end; taken = r.taken; limit = r.limit; fault = r.fault } };

    ghost invariant = { IsSound };
}

/// Where a line or a piece stands in what is held: how long it is, and up to where it is let go of.
#[derive(Clone, Copy)]
struct Span {
    len: usize,
    past: usize,
    whole: bool,
}

/// More than `MAX_LINE` bytes are held without a line feed.
#[derive(Clone, Copy)]
struct LongLine;

/// Where the first line feed is.
fn first_feed(bytes: &[u8]) -> Option<usize>
    ensures { IsFirstFeed bytes.now result }
{
    memchr(b'\n', bytes)
}

/// The length of the first line once the first `past` bytes are gone. It was `line`. No byte is
/// searched again.
#[inline(always)]
fn line_after(held: &[u8], line: Option<usize>, past: usize) -> Option<usize>
    requires past { past ≤ length held.now }
    requires line { IsFirstFeed held.now line }
    ensures { IsFirstFeed (drop past held.now) result }
{
    match line {
        None => None,
        Some(len) if past <= len => Some(len - past),
        Some(_) => first_feed(&held[past..]),
    }
}

/// The length of the first line once more bytes came after the first `held`, whose was `line`.
fn line_before(bytes: &[u8], line: Option<usize>, held: usize) -> Option<usize>
    requires held { held ≤ length bytes.now }
    requires line { IsFirstFeed (take held bytes.now) line }
    ensures { IsFirstFeed bytes.now result }
{
    match line {
        Some(len) => Some(len),
        None => match first_feed(&bytes[held..]) {
            Some(at) => Some(held + at),
            None => None,
        },
    }
}

/// Moves `buffer[start..end]` to the front.
fn move_to_front(buffer: &mut Vec<u8>, start: usize, end: usize)
    requires ordered { start ≤ end }
    requires within { end ≤ vec_len buffer.old }
    ensures len { vec_len buffer.new ≡ vec_len buffer.old }
    ensures moved { take (end - start) buffer.new.items ≡ slice_range buffer.old.items start end }
{
    if start > 0 {
        buffer.copy_within(start..end, 0);
    }
}

fn zeroes(alloc: Global, len: usize) -> Result<Vec<u8>, NoMemory>
    ensures { IfOk result (λ bytes. vec_len bytes ≡ len) }
{
    vec![in alloc; 0u8; len]
}

/// Takes room for the first bytes, and more where all of it is used.
pub(crate) fn make_room(alloc: Global, buffer: &mut Vec<u8>, used: usize) -> Result<(), NoMemory>
    requires within { used ≤ vec_len buffer.old }
    ensures kept { take used buffer.new.items ≡ take used buffer.old.items }
    ensures room { OnOk result (used < vec_len buffer.new) }
    ensures least { OnOk result (vec_len buffer.old ≡ 0 → least_room ≤ vec_len buffer.new) }
    ensures longer { vec_len buffer.old ≤ vec_len buffer.new }
    ensures unchanged { OnErr result (buffer.new.items ≡ buffer.old.items) }
    ensures err { OnErr result (used ≡ vec_len buffer.old) }
{
    if buffer.is_empty() {
        *buffer = zeroes(alloc, ROOM)?;
    } else if used == buffer.len() {
        buffer.resize(2 * used, 0)?;
    }
    Ok(())
}

/// Reads after the bytes that are used, at most `most` of them, and says how many came.
pub(crate) fn read_after<S: Source>(
    src: &mut S,
    buffer: &mut Vec<u8>,
    used: usize,
    most: usize,
) -> Result<usize, Failed>
    requires used { used < vec_len buffer.old }
    requires most { 0 < most }
    ensures len { vec_len buffer.new ≡ vec_len buffer.old }
    ensures kept { take used buffer.new.items ≡ take used buffer.old.items }
    ensures within { IfOk result (λ n. used + n ≤ length buffer.new.items) }
    ensures most { IfOk result (λ n. n ≤ most) }
    ensures given { IfOk result (λ n. Consumes (S.left src.old) (S.left src.new) (take n (drop used buffer.new.items))) }
    ensures end { IfOk result (λ n. n ≡ 0 → IsAtEnd (S.left src.new)) }
    ensures failed { OnErr result (Keeps (S.left src.old) (S.left src.new)) }
    ensures cause { HasCause (S.faults src.old) (S.faults src.new) result }
{
    let asked = most.min(buffer.len() - used);
    src.read(&mut buffer[used..used + asked])
}

impl LineReader {
    /// Takes no memory. The first read takes it.
    pub fn make(alloc: Global, limit: u32) -> LineReader
        ensures held { result.held ≡ [] }
        ensures taken { result.taken ≡ 0 }
        ensures limit { result.limit ≡ limit }
        ensures fault { result.fault ≡ None }
    {
        LineReader {
            buffer: Vec::new(alloc),
            start: 0,
            end: 0,
            line: None,
            taken: 0,
            limit,
            fault: None,
        }
    }

    /// Whether the next `next` answers without a read: a whole line is held, or a fault was given,
    /// or comes of what is held.
    pub fn holds_line(&self) -> bool
        ensures { result ≡ holds_next self.now }
    {
        self.fault.is_some()
            || self.line.is_some()
            || self.end - self.start > MAX_LINE
            || self.taken == self.limit
    }

    /// Takes more bytes from the source, and says how many.
    #[inline(never)]
    fn fill<S: Source>(&mut self, alloc: Global, src: &mut S) -> Result<usize, LineFault>
        ensures reads { Reads self.old self.new (S.left src.old) (S.left src.new) [] }
        ensures count { IfOk result (λ n. self.new.taken ≡ self.old.taken + n) }
        ensures end { IfOk result (λ n. n ≡ 0 → IsAtEnd (S.left src.new) × (self.new ≡ self.old)) }
        ensures ok { OnOk result (self.old.taken < self.old.limit) }
        ensures kept { OnErr result (self.new ≡ self.old) }
        ensures cause { IfErr result (λ f. FillCause f self.old (S.faults src.old) (S.faults src.new)) }
        ensures fault { self.new.fault ≡ self.old.fault }
        ensures within { self.new.taken ≤ self.new.limit }
        ensures full { self.old.taken ≡ self.old.limit → src.new ≡ src.old }
        ensures later { S.faults src.old ≤ S.faults src.new }
    {
        let most = (self.limit - self.taken) as usize;
        if most == 0 {
            return Err(LineFault::TooLong);
        }
        move_to_front(&mut self.buffer, self.start, self.end);
        self.end -= self.start;
        self.start = 0;
        make_room(alloc, &mut self.buffer, self.end)?;
        let Ok(count) = read_after(src, &mut self.buffer, self.end, most) else {
            return Err(LineFault::ReadFault);
        };
        let held = self.end;
        self.end += count;
        self.taken += count as u32;
        self.line = line_before(&self.buffer[..self.end], self.line, held);
        Ok(count)
    }

    /// How many bytes are held.
    fn held_len(&self) -> usize
        ensures len { result ≡ length self.now.held }
        ensures within { self.now.taken ≤ self.now.limit }
    {
        self.end - self.start
    }

    /// The first line, where a whole one is held.
    #[inline(always)]
    fn held_line(&self) -> Result<Option<Span>, LongLine>
        ensures line { IfOk result (λ o. MatchOption o (WantsMore self.now) (LineStands self.now true)) }
        ensures long { OnErr result (HoldsLongLine self.now) }
        ensures within { self.now.taken ≤ self.now.limit }
    {
        match self.line {
            Some(len) if len <= MAX_LINE => Ok(Some(Span {
                len,
                past: len + 1,
                whole: true,
            })),
            None if self.held_len() <= MAX_LINE => Ok(None),
            _ => Err(LongLine),
        }
    }

    /// All that is held.
    fn rest(&self) -> Span
        ensures len { result.len ≡ length self.now.held }
        ensures past { result.past ≡ length self.now.held }
        ensures whole { result.whole ≡ false }
        ensures within { self.now.taken ≤ self.now.limit }
    {
        let len = self.held_len();
        Span {
            len,
            past: len,
            whole: false,
        }
    }

    /// Hands out the bytes of a span, and lets go of what is past.
    #[inline(always)]
    fn hand_out<'a>(&'a mut self, span: Span) -> Got<'a>
        requires len { span.len ≤ span.past }
        requires past { span.past ≤ length self.old.held }
        ensures bytes { result.bytes.now ≡ take span.len self.old.held }
        ensures whole { result.whole ≡ span.whole }
        ensures* rests { sem 𝓛 (Rests the_row self.entry (λ new. new ≡ record self.old { held = drop span.past self.old.held })) }
    {
        let start = self.start;
        self.line = line_after(&self.buffer[start..self.end], self.line, span.past);
        self.start += span.past;
        Got {
            bytes: &self.buffer[start..start + span.len],
            whole: span.whole,
        }
    }

    /// Gives a fault from now on.
    fn fail(&mut self, fault: LineFault) -> LineFault
        ensures fault { result ≡ fault }
        ensures kept { self.new ≡ record self.old { fault = Some fault } }
    {
        self.fault = Some(fault);
        fault
    }

    /// Reads until a whole line is held, and gives it. At the end what is left is the last line.
    #[inline(always)]
    fn find_line<S: Source>(
        &mut self,
        alloc: Global,
        src: &mut S,
    ) -> Result<Option<Span>, LineFault>
        requires { self.old.fault ≡ None }
        ensures reads { Reads self.old self.new (S.left src.old) (S.left src.new) [] }
        ensures line { IfOk result (λ o. MatchOption o (IsEnd self.new (S.left src.new)) (λ span. FindsLine self.new (S.left src.new) span)) }
        ensures cause { IfErr result (λ f. LineCause f self.new (S.faults src.old) (S.faults src.new)) }
        ensures fault { self.new.fault ≡ self.old.fault }
        ensures within { self.new.taken ≤ self.new.limit }
        ensures unread { holds_next self.old ≡ true → src.new ≡ src.old }
        ensures later { S.faults src.old ≤ S.faults src.new }
    {
        loop {
            let Ok(held) = self.held_line() else {
                return Err(LineFault::LineTooLong);
            };
            if let Some(span) = held {
                return Ok(Some(span));
            }
            if self.fill(alloc, src)? == 0 {
                let rest = self.rest();
                return Ok(if rest.len == 0 { None } else { Some(rest) });
            }
        }
    }

    /// Reads until `n` bytes are held, and gives them. At the end it gives what is left.
    fn find_piece<S: Source>(
        &mut self,
        alloc: Global,
        src: &mut S,
        n: usize,
    ) -> Result<Span, LineFault>
        ensures reads { Reads self.old self.new (S.left src.old) (S.left src.new) [] }
        ensures piece { IfOk result (FindsPiece self.new (S.left src.new) n) }
        ensures cause { IfErr result (λ f. PieceCause f n self.new (S.faults src.old) (S.faults src.new)) }
        ensures fault { self.new.fault ≡ self.old.fault }
        ensures within { self.new.taken ≤ self.new.limit }
        ensures later { S.faults src.old ≤ S.faults src.new }
    {
        while self.held_len() < n {
            if self.fill(alloc, src)? == 0 {
                return Ok(self.rest());
            }
        }
        Ok(Span {
            len: n,
            past: n,
            whole: true,
        })
    }

    /// The same as `find_line`, and after a fault this fault.
    #[inline(always)]
    fn seek_line<S: Source>(
        &mut self,
        alloc: Global,
        src: &mut S,
    ) -> Result<Option<Span>, LineFault>
        ensures calls { Calls self.old self.new (S.left src.old) (S.left src.new) [] result }
        ensures line { IfOk result (λ o. MatchOption o (IsEnd self.new (S.left src.new)) (λ span. FindsLine self.new (S.left src.new) span)) }
        ensures cause { self.old.fault ≡ None → IfErr result (λ f. LineCause f self.new (S.faults src.old) (S.faults src.new)) }
        ensures again { IfSome self.old.fault (λ f. result ≡ Err f) }
        ensures unread { holds_next self.old ≡ true → src.new ≡ src.old }
        ensures later { S.faults src.old ≤ S.faults src.new }
    {
        if let Some(fault) = self.fault {
            return Err(fault);
        }
        match self.find_line(alloc, src) {
            Ok(span) => Ok(span),
            Err(fault) => Err(self.fail(fault)),
        }
    }

    /// The same as `find_piece`, and after a fault this fault.
    fn seek_piece<S: Source>(
        &mut self,
        alloc: Global,
        src: &mut S,
        n: usize,
    ) -> Result<Span, LineFault>
        ensures calls { Calls self.old self.new (S.left src.old) (S.left src.new) [] result }
        ensures piece { IfOk result (FindsPiece self.new (S.left src.new) n) }
        ensures cause { self.old.fault ≡ None → IfErr result (λ f. PieceCause f n self.new (S.faults src.old) (S.faults src.new)) }
        ensures again { IfSome self.old.fault (λ f. result ≡ Err f) }
        ensures still { IsSome self.old.fault → src.new ≡ src.old }
        ensures later { S.faults src.old ≤ S.faults src.new }
    {
        if let Some(fault) = self.fault {
            return Err(fault);
        }
        match self.find_piece(alloc, src, n) {
            Ok(span) => Ok(span),
            Err(fault) => Err(self.fail(fault)),
        }
    }

    /// The next line. `None` is the end.
    ///
    /// # Errors
    ///
    /// Each `LineFault`, and the same one from then on.
    #[inline(always)]
    pub fn next<'a, S: Source>(
        &'a mut self,
        alloc: Global,
        src: &mut S,
    ) -> Result<Option<Got<'a>>, LineFault>
        ensures again { IfSome self.old.fault (λ f. result ≡ Err f) }
        ensures unread { holds_next self.old ≡ true → src.new ≡ src.old }
        ensures later { S.faults src.old ≤ S.faults src.new }
        ensures* reads { sem 𝓛 (Rests the_row self.entry
            (λ new. ReadsLine self.old new (S.left src.old) (S.left src.new) (S.faults src.old) (S.faults src.new) result)) }
    {
        match self.seek_line(alloc, src) {
            Ok(Some(span)) => Ok(Some(self.hand_out(span))),
            Ok(None) => Ok(None),
            Err(fault) => Err(fault),
        }
    }

    /// The next `n` bytes, or all that is left where these are fewer. A line feed is a byte like any other.
    ///
    /// # Errors
    ///
    /// Each `LineFault` but `LineTooLong`, and the same one from then on.
    pub fn take<'a, S: Source>(
        &'a mut self,
        alloc: Global,
        src: &mut S,
        n: u32,
    ) -> Result<Got<'a>, LineFault>
        ensures again { IfSome self.old.fault (λ f. result ≡ Err f) }
        ensures still { IsSome self.old.fault → src.new ≡ src.old }
        ensures later { S.faults src.old ≤ S.faults src.new }
        ensures* reads { sem 𝓛 (Rests the_row self.entry
            (λ new. ReadsPiece self.old new (S.left src.old) (S.left src.new) (S.faults src.old) (S.faults src.new) n result)) }
    {
        match self.seek_piece(alloc, src, n as usize) {
            Ok(span) => Ok(self.hand_out(span)),
            Err(fault) => Err(fault),
        }
    }
}
