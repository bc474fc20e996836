//! Runs over memory: what they answer, and what they write.
mod captures;
mod checks;
mod chips;
mod commands;
mod failing_calls;
mod faults;
mod limits;
mod live;
mod messages;
mod queriers;
mod rows;
mod snooping;
mod starts;
mod trees;
mod trunks;

use capture_runner::{Status, run};
use port_workers::{Gate, Open};
use run_io::sinks::MemSink;
use run_io::sources::MemSource;
use std::alloc::Global;
use std::fmt::Debug;
use std::process::Abort;
use std::str;
use std::sync::Wait;
use std::thread::Threads;

/// The room of a sink.
const ROOM: u32 = 1 << 25;

/// What a run answered, and what its sink took.
#[derive(Drop)]
struct Outcome {
    status: Status,
    wrote: Vec<u8>,
}

fn source_of(rt: &impl Abort, alloc: Global, input: &[u8], fails: &[u32]) -> MemSource {
    let bytes = Vec::from_slice(alloc, input).expect(rt, "memory for the input");
    let fails = Vec::from_slice(alloc, fails).expect(rt, "memory for the numbers");
    MemSource::make(bytes, fails)
}

fn sink_of(rt: &impl Abort, alloc: Global, room: u32, fails: &[u32]) -> MemSink {
    let fails = Vec::from_slice(alloc, fails).expect(rt, "memory for the numbers");
    MemSink::make(alloc, room, fails).expect(rt, "memory for a sink")
}

fn push_word(rt: &impl Abort, alloc: Global, words: &mut Vec<String>, word: &str) {
    let word = String::from_str(alloc, word).expect(rt, "memory for a word");
    words.push(word).expect(rt, "memory for the words");
}

fn words_of(rt: &impl Abort, alloc: Global, line: &str) -> Vec<String> {
    let mut words = Vec::new(alloc);
    for word in line.split_whitespace() {
        push_word(rt, alloc, &mut words, word);
    }
    words
}

/// Runs these words.
fn ran_words(
    rt: &(impl Abort + Threads + Wait + Sync),
    alloc: Global,
    words: &[String],
    source: &mut MemSource,
    sink: &mut MemSink,
    gate: &(impl Gate + Sync),
) -> Outcome {
    let status = run(rt, alloc, words, source, sink, gate);
    let wrote = Vec::from_slice(alloc, sink.bytes()).expect(rt, "memory for what was written");
    Outcome { status, wrote }
}

/// Runs the words of this line over a sink of so much room.
fn ran_line(
    rt: &(impl Abort + Threads + Wait + Sync),
    alloc: Global,
    line: &str,
    source: &mut MemSource,
    room: u32,
) -> Outcome {
    let words = words_of(rt, alloc, line);
    let mut sink = sink_of(rt, alloc, room, &[]);
    ran_words(rt, alloc, &words, source, &mut sink, &Open)
}

/// Runs the words of this line, where the reads and writes of these numbers fail.
fn ran_failing(
    rt: &(impl Abort + Threads + Wait + Sync),
    alloc: Global,
    line: &str,
    input: &[u8],
    (read_fails, write_fails): (&[u32], &[u32]),
) -> Outcome {
    let words = words_of(rt, alloc, line);
    let mut source = source_of(rt, alloc, input, read_fails);
    let mut sink = sink_of(rt, alloc, ROOM, write_fails);
    ran_words(rt, alloc, &words, &mut source, &mut sink, &Open)
}

/// Runs the words of this line, where nothing fails.
fn ran(
    rt: &(impl Abort + Threads + Wait + Sync),
    alloc: Global,
    line: &str,
    input: &[u8],
) -> Outcome {
    let mut source = source_of(rt, alloc, input, &[]);
    ran_line(rt, alloc, line, &mut source, ROOM)
}

fn assert_same<T: PartialEq + Debug>(rt: &impl Abort, found: &T, wanted: &T, at: &str) {
    assert_eq!(rt; found, wanted, "at {at}");
}

fn assert_bytes(rt: &impl Abort, found: &[u8], wanted: &[u8], at: &str) {
    assert_eq!(rt; found, wanted, "at {at}");
}

fn assert_text(rt: &impl Abort, found: &str, wanted: &str, at: &str) {
    assert_eq!(rt; found, wanted, "at {at}");
}

fn assert_that(rt: &impl Abort, holds: bool, at: &str) {
    assert!(rt; holds, "at {at}");
}

/// What a run answered, and all that it wrote. `at` names the run.
fn comes_to(rt: &impl Abort, outcome: &Outcome, at: &str, (status, wrote): (Status, &str)) {
    assert_same(rt, &outcome.status, &status, at);
    assert_bytes(rt, outcome.wrote.as_slice(), wrote.as_bytes(), at);
}

/// Runs a line of words over an input, where the reads of these numbers fail. It writes just this.
fn writes(
    rt: &(impl Abort + Threads + Wait + Sync),
    alloc: Global,
    line: &str,
    (input, fails): (&[u8], &[u32]),
    (status, wrote): (Status, &str),
) {
    let outcome = ran_failing(rt, alloc, line, input, (fails, &[]));
    comes_to(rt, &outcome, line, (status, wrote));
}

/// Runs a scenario. `told` is what its transcript has after the line `transcript 1`.
fn is_told(
    rt: &(impl Abort + Threads + Wait + Sync),
    alloc: Global,
    input: &[u8],
    (status, told): (Status, &str),
) {
    let wrote = format!(in alloc; "transcript 1\n{told}").expect(rt, "memory");
    let outcome = ran(rt, alloc, "replay", input);
    comes_to(rt, &outcome, told, (status, wrote.as_str()));
}

/// Runs a scenario whose transcript ends in this.
fn ends_in(
    rt: &(impl Abort + Threads + Wait + Sync),
    alloc: Global,
    input: &[u8],
    (status, told): (Status, &str),
) {
    let outcome = ran(rt, alloc, "replay", input);
    assert_same(rt, &outcome.status, &status, told);
    let wrote = outcome.wrote.as_slice();
    let (_, end) = wrote.split_at(wrote.len() - told.len().min(wrote.len()));
    assert_bytes(rt, end, told.as_bytes(), told);
}

/// What a run wrote, as text.
fn text_of<'a>(rt: &impl Abort, outcome: &'a Outcome) -> &'a str {
    str::from_utf8(outcome.wrote.as_slice()).expect(rt, "a text")
}

fn last_line<'a>(rt: &impl Abort, text: &'a str) -> &'a str {
    text.lines().last().expect(rt, "a last line")
}

/// How many lines of a text begin so.
fn count_lines(text: &str, begins: &str) -> usize {
    text.lines().filter(|line| line.starts_with(begins)).count()
}

fn push(rt: &impl Abort, text: &mut String, more: &str) {
    text.push_str(more).expect(rt, "memory for a text");
}

fn extend(rt: &impl Abort, bytes: &mut Vec<u8>, more: &[u8]) {
    bytes.extend_from_slice(more).expect(rt, "memory for bytes");
}

/// These pieces one behind another.
fn joined(rt: &impl Abort, alloc: Global, pieces: &[&[u8]]) -> Vec<u8> {
    let mut bytes = Vec::new(alloc);
    for piece in pieces {
        extend(rt, &mut bytes, piece);
    }
    bytes
}

/// A scenario, and what its transcript has after the line `transcript 1`.
#[derive(Drop)]
struct Row {
    input: String,
    told: String,
}

/// Each line of the text is a line of the scenario, and after `=>` stand the lines that it writes, with `;` between them.
/// A scenario's last line has a line feed where the text's has one.
fn read_row(rt: &impl Abort, alloc: Global, text: &str) -> Row {
    let mut row = Row {
        input: String::new(alloc),
        told: String::new(alloc),
    };
    for line in text.split_inclusive('\n') {
        add_line(rt, &mut row, line);
    }
    row
}

fn add_line(rt: &impl Abort, row: &mut Row, whole: &str) {
    let (line, feed) = match whole.strip_suffix("\n") {
        Some(line) => (line, "\n"),
        None => (whole, ""),
    };
    match line.split_once(" => ") {
        Some((said, answers)) => {
            push(rt, &mut row.input, said);
            push(rt, &mut row.input, feed);
            add_answers(rt, &mut row.told, answers);
        }
        None => push(rt, &mut row.input, whole),
    }
}

fn add_answers(rt: &impl Abort, told: &mut String, answers: &str) {
    for answer in answers.split("; ") {
        push(rt, told, answer);
        push(rt, told, "\n");
    }
}
