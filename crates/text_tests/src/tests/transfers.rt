//! Texts and faults by table, and pieces over the borders of the buffer.
use super::common::{assert_bytes, assert_same, assert_text, assert_that, bytes_of};
use run_io::lines::{Got, LineFault, LineReader};
use run_io::output::Output;
use run_io::sinks::{MemSink, StdSink, put};
use run_io::sources::{MemSource, Source, StdSource};
use run_io::whole::{Stop, take_all};
use std::alloc::Global;
use std::process::Abort;

fn push(rt: &impl Abort, text: &mut String, more: &str) {
    text.push_str(more).expect(rt, "memory for a text");
}

/// A bar follows a whole line, a dot the last one.
fn add_line(rt: &impl Abort, told: &mut String, line: &Got) {
    push(
        rt,
        told,
        std::str::from_utf8(line.bytes).expect(rt, "a text"),
    );
    push(rt, told, if line.whole { "|" } else { "." });
}

fn add_fault(rt: &impl Abort, told: &mut String, fault: LineFault) {
    write!(told, "{fault}").expect(rt, "memory for a text");
}

/// Adds what a reader gives next. Whether it was a line.
fn add_next<S: Source>(
    rt: &impl Abort,
    alloc: Global,
    reader: &mut LineReader,
    source: &mut S,
    told: &mut String,
) -> bool {
    match reader.next(alloc, source) {
        Ok(Some(line)) => {
            add_line(rt, told, &line);
            true
        }
        Ok(None) => {
            push(rt, told, "end");
            false
        }
        Err(fault) => {
            add_fault(rt, told, fault);
            false
        }
    }
}

/// What a reader gives until the end or a fault: a plus stands before what needed no read.
fn told<S: Source>(rt: &impl Abort, alloc: Global, limit: u32, source: &mut S) -> String {
    let mut reader = LineReader::make(alloc, limit);
    let mut told = String::new(alloc);
    for _ in 0..16 {
        if reader.holds_line() {
            push(rt, &mut told, "+");
        }
        if !add_next(rt, alloc, &mut reader, source, &mut told) {
            break;
        }
    }
    told
}

fn source_of(rt: &impl Abort, alloc: Global, text: &[u8], fails: &[u32]) -> MemSource {
    let fails = Vec::from_slice(alloc, fails).expect(rt, "memory for the numbers");
    MemSource::make(bytes_of(rt, alloc, text), fails)
}

/// So many letters `a`.
fn letters(rt: &impl Abort, alloc: Global, count: usize) -> Vec<u8> {
    vec![in alloc; b'a'; count].expect(rt, "memory for letters")
}

fn source_of_letters(rt: &impl Abort, alloc: Global, count: usize, fails: &[u32]) -> MemSource {
    source_of(rt, alloc, &letters(rt, alloc, count), fails)
}

/// A reader gives this of a source.
fn is_told<S: Source>(rt: &impl Abort, alloc: Global, limit: u32, source: &mut S, want: &str) {
    let got = told(rt, alloc, limit, source);
    assert_text(rt, got.as_str(), want, "what is told");
}

/// Texts, the limits of their readers, and what these give.
const TEXTS: &[(&str, u32, &str)] = &[
    ("", 64, "end"),
    ("a\nbc\n", 64, "a|+bc|end"),
    ("a\nbc", 64, "a|bc.end"),
    ("\n\nc", 64, "|+|c.end"),
    ("\n\nc", 3, "|+|+too long"),
    ("\n\nc", 2, "|+|+too long"),
    ("", 0, "+too long"),
];

fn text_is_told(rt: &impl Abort, alloc: Global, text: &str, limit: u32, want: &str) {
    let mut source = source_of(rt, alloc, text.as_bytes(), &[]);
    is_told(rt, alloc, limit, &mut source, want);
    let mut source = StdSource::make(text.as_bytes());
    is_told(rt, alloc, limit, &mut source, want);
}

#[test]
fn lines_of_a_text(rt: HostRuntime) {
    for (text, limit, want) in TEXTS {
        text_is_told(&rt, rt.alloc(), text, *limit, want);
    }
}

/// The read that fails, and what a reader gives.
const FAILING_READS: &[(u32, &str)] = &[
    (1, "read fault"),
    (2, "a|read fault"),
    (3, "a|b.read fault"),
    (4, "a|b.end"),
];

#[test]
fn reads_that_fail(rt: HostRuntime) {
    for (call, want) in FAILING_READS {
        let mut source = source_of(&rt, rt.alloc(), b"a\nb", &[*call]);
        is_told(&rt, rt.alloc(), 64, &mut source, want);
    }
}

/// The length of the next line, and whether it is whole.
fn next_length(
    rt: &impl Abort,
    alloc: Global,
    reader: &mut LineReader,
    source: &mut MemSource,
) -> Result<(usize, bool), LineFault> {
    match reader.next(alloc, source) {
        Ok(Some(line)) => Ok((line.bytes.len(), line.whole)),
        Ok(None) => panic!(rt; "no line"),
        Err(fault) => Err(fault),
    }
}

/// How many letters a line has, and what comes of it.
const LENGTHS: &[(usize, Result<(usize, bool), LineFault>)] = &[
    (20_000, Ok((20_000, true))),
    (20_001, Err(LineFault::LineTooLong)),
];

fn line_of_letters(rt: &impl Abort, alloc: Global, count: usize) -> MemSource {
    let mut text = letters(rt, alloc, count);
    text.push(b'\n').expect(rt, "memory for a line feed");
    source_of(rt, alloc, &text, &[])
}

#[test]
fn longest_line(rt: HostRuntime) {
    let alloc = rt.alloc();
    for (count, wanted) in LENGTHS {
        let mut source = line_of_letters(&rt, alloc, *count);
        let mut reader = LineReader::make(alloc, 1 << 28);
        let found = next_length(&rt, alloc, &mut reader, &mut source);
        assert_same(&rt, &found, wanted, "a long line");
    }
}

/// So many lines of 9,999 letters.
fn many_lines(rt: &impl Abort, alloc: Global) -> MemSource {
    let mut text = letters(rt, alloc, 150_000);
    for byte in text.iter_mut().skip(9_999).step_by(10_000) {
        *byte = b'\n';
    }
    source_of(rt, alloc, &text, &[])
}

/// The buffer ends within a line.
#[test]
fn lines_over_the_buffer(rt: HostRuntime) {
    let alloc = rt.alloc();
    let mut source = many_lines(&rt, alloc);
    let mut reader = LineReader::make(alloc, 1 << 28);
    for _ in 0..15 {
        line_is(
            &rt,
            alloc,
            &mut reader,
            &mut source,
            &letters(&rt, alloc, 9_999),
        );
    }
    let end = reader.next(alloc, &mut source).expect(&rt, "no fault");
    assert_that(&rt, end.is_none(), "the end");
}

/// The next line has these bytes.
fn line_is(
    rt: &impl Abort,
    alloc: Global,
    reader: &mut LineReader,
    source: &mut MemSource,
    wanted: &[u8],
) {
    let line = reader.next(alloc, source).expect(rt, "no fault");
    let line = line.expect(rt, "a line");
    assert_bytes(rt, line.bytes, wanted, "a line");
    assert_that(rt, line.whole, "a whole line");
}

/// The next piece has these bytes.
fn piece_is(
    rt: &impl Abort,
    alloc: Global,
    reader: &mut LineReader,
    source: &mut MemSource,
    asked: u32,
    (wanted, whole): (&[u8], bool),
) {
    let piece = reader.take(alloc, source, asked).expect(rt, "no fault");
    assert_bytes(rt, piece.bytes, wanted, "a piece");
    assert_same(rt, &piece.whole, &whole, "whether it is whole");
}

fn is_too_long(rt: &impl Abort, fault: Option<LineFault>) {
    assert_same(rt, &fault, &Some(LineFault::TooLong), "the fault");
}

#[test]
fn reader_limit(rt: HostRuntime) {
    let alloc = rt.alloc();
    let mut source = source_of_letters(&rt, alloc, 65, &[]);
    let mut reader = LineReader::make(alloc, 64);
    for _ in 0..2 {
        is_too_long(&rt, reader.next(alloc, &mut source).err());
    }
    is_too_long(&rt, reader.take(alloc, &mut source, 1).err());
}

/// The lengths that are asked for, the pieces' own, and whether these are whole.
const PIECES: &[(u32, usize, bool)] = &[
    (65_535, 65_535, true),
    (3, 3, true),
    (0, 0, true),
    (70_000, 70_000, true),
    (20_000, 14_462, false),
    (1, 0, false),
    (0, 0, true),
];

#[test]
fn pieces_over_the_buffer(rt: HostRuntime) {
    let alloc = rt.alloc();
    let mut source = source_of_letters(&rt, alloc, 150_000, &[]);
    let mut reader = LineReader::make(alloc, 1 << 28);
    for (asked, len, whole) in PIECES {
        let wanted = letters(&rt, alloc, *len);
        piece_is(
            &rt,
            alloc,
            &mut reader,
            &mut source,
            *asked,
            (&wanted, *whole),
        );
    }
}

#[test]
fn pieces_between_lines(rt: HostRuntime) {
    let alloc = rt.alloc();
    let mut source = source_of(&rt, alloc, b"ab\ncd\nef", &[]);
    let mut reader = LineReader::make(alloc, 8);
    piece_is(&rt, alloc, &mut reader, &mut source, 1, (b"a", true));
    line_is(&rt, alloc, &mut reader, &mut source, b"b");
    piece_is(&rt, alloc, &mut reader, &mut source, 4, (b"cd\ne", true));
    is_too_long(&rt, reader.take(alloc, &mut source, 2).err());
}

/// Limits, the bytes that are taken, and why no more are.
const LIMITS: &[(u32, &str, Stop)] = &[
    (4, "abc", Stop::Ended),
    (3, "abc", Stop::Full),
    (2, "ab", Stop::Full),
    (0, "", Stop::Full),
];

#[test]
fn sources_taken_whole(rt: HostRuntime) {
    let alloc = rt.alloc();
    for (limit, want, stop) in LIMITS {
        let mut source = source_of(&rt, alloc, b"abc", &[]);
        let whole = take_all(alloc, &mut source, *limit).expect(&rt, "memory");
        assert_bytes(&rt, whole.bytes.as_slice(), want.as_bytes(), want);
        assert_same(&rt, &whole.stop, stop, want);
    }
}

/// The read that fails, how many bytes are taken, and why no more are. The second read takes the last bytes, and the third sees
/// that none is left.
const FAILING_WHOLE: &[(u32, usize, Stop)] = &[
    (1, 0, Stop::ReadFault),
    (2, 65_536, Stop::ReadFault),
    (3, 70_000, Stop::ReadFault),
    (4, 70_000, Stop::Ended),
];

#[test]
fn whole_sources_that_fail(rt: HostRuntime) {
    let alloc = rt.alloc();
    for (call, len, stop) in FAILING_WHOLE {
        let mut source = source_of_letters(&rt, alloc, 70_000, &[*call]);
        let whole = take_all(alloc, &mut source, 1 << 28).expect(&rt, "memory");
        assert_same(
            &rt,
            &(whole.bytes.len(), whole.stop),
            &(*len, *stop),
            "a read",
        );
    }
}

fn sink_of(rt: &impl Abort, alloc: Global, room: u32, call: u32) -> MemSink {
    let fails = Vec::from_slice(alloc, &[call]).expect(rt, "memory for the number");
    MemSink::make(alloc, room, fails).expect(rt, "memory for a sink")
}

/// The write that fails, the room, and what is taken of two pieces.
const FAILING_WRITES: &[(u32, u32, &str)] = &[
    (1, 8, "cd"),
    (2, 8, "ab"),
    (3, 8, "abcd"),
    (3, 3, "abc"),
    (3, 0, ""),
];

fn write_twice(rt: &impl Abort, sink: &mut MemSink, want: &str) {
    let first = put(sink, b"ab").is_ok();
    let second = put(sink, b"cd").is_ok();
    assert_bytes(rt, sink.bytes(), want.as_bytes(), want);
    assert_same(rt, &first, &want.starts_with("ab"), want);
    assert_same(rt, &second, &want.ends_with("cd"), want);
}

#[test]
fn writes_that_fail(rt: HostRuntime) {
    for (call, room, want) in FAILING_WRITES {
        let mut sink = sink_of(&rt, rt.alloc(), *room, *call);
        write_twice(&rt, &mut sink, want);
    }
}

#[test]
fn writes_to_a_writer(rt: HostRuntime) {
    let mut out = Vec::new(rt.alloc());
    let taken = put(&mut StdSink::make(&mut out), b"ab");
    assert_that(&rt, taken.is_ok(), "a write");
    assert_bytes(&rt, out.as_slice(), b"ab", "what is taken");
}

/// Two lines.
fn write_lines(rt: &impl Abort, output: &mut Output) {
    push(rt, &mut output.text, "a\n");
    write!(output.text, "{}\n", 7).expect(rt, "memory for a text");
}

/// So many letters.
fn write_letters(rt: &impl Abort, output: &mut Output, count: u32) {
    for _ in 0..count {
        push(rt, &mut output.text, "a");
    }
}

/// How many letters come, and whether the output is full then.
const LETTERS: &[(u32, bool)] = &[(65_535, false), (1, true)];

fn flush(rt: &impl Abort, output: &mut Output, sink: &mut MemSink, is_taken: bool) {
    let flushed = output.flush(sink).is_ok();
    assert_same(rt, &flushed, &is_taken, "whether it is written");
}

/// The second write fails.
#[test]
fn output_in_one_piece(rt: HostRuntime) {
    let mut sink = sink_of(&rt, rt.alloc(), 100_000, 2);
    let mut output = Output::make(rt.alloc()).expect(&rt, "memory");
    write_lines(&rt, &mut output);
    flush(&rt, &mut output, &mut sink, true);
    assert_bytes(&rt, sink.bytes(), b"a\n7\n", "two lines");
    for (count, full) in LETTERS {
        write_letters(&rt, &mut output, *count);
        assert_same(&rt, &output.is_full(), full, "whether it is full");
    }
    flush(&rt, &mut output, &mut sink, false);
    flush(&rt, &mut output, &mut sink, true);
    assert_same(&rt, &sink.bytes().len(), &65_540, "all of it");
}
