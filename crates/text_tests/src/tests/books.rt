//! A book of two workers, and others that differ from it.
use super::common::{assert_same, port};
use br_model::bytes::Bytes;
use br_model::numbers::Dom;
use br_model::steps::{Command, Step};
use br_model::transcript::Line;
use lists::Items;
use live_book::{Remains, is_live};
use std::alloc::Global;
use std::process::Abort;
use transcript_lines::Lines;

/// The numbers of the steps that end in a line `ok`, and how many changes each accepted.
const DONE: &[(u32, u32)] = &[
    (1, 3),
    (2, 3),
    (3, 0),
    (8, 1),
    (9, 0),
    (10, 1),
    (11, 0),
    (12, 0),
    (13, 0),
    (14, 0),
];

/// A frame between the stations 10 and 11, which enters at the port.
fn frame(rt: &impl Abort, alloc: Global, number: u8, to: u8, from: u8) -> Step {
    let bytes = [2, 0, 0, 0, 0, to, 2, 0, 0, 0, 0, from, 0x88, 0xB5, 1, 2];
    Step::Rx {
        port: port(rt, number),
        bytes: Bytes::copy_of(alloc, &bytes).expect(rt, "memory for a frame"),
    }
}

/// A step, with its ports and ids as numbers.
#[derive(Clone, Copy)]
enum Row {
    PortUp(u8),
    /// A frame to a station from another, which enters at the port.
    Frame(u8, u8, u8),
    Serve,
    Hold,
    Post(u32, u32),
    Turn,
    Publish,
}

fn step_of(rt: &impl Abort, alloc: Global, row: Row) -> Step {
    match row {
        Row::PortUp(number) => Step::Cmd(Command::PortUp(port(rt, number))),
        Row::Frame(number, to, from) => frame(rt, alloc, number, to, from),
        Row::Serve => Step::Serve,
        Row::Hold => Step::Hold,
        Row::Post(id, point) => Step::Post {
            id,
            point: Some(point),
        },
        Row::Turn => Step::Turn(Dom::CHIP),
        Row::Publish => Step::Publish,
    }
}

fn push_step(rt: &impl Abort, alloc: Global, steps: &mut Vec<Step>, row: Row) {
    let step = step_of(rt, alloc, row);
    steps.push(step).expect(rt, "memory for steps");
}

fn steps_of(rt: &impl Abort, alloc: Global, parts: &[&[Row]]) -> Vec<Step> {
    let mut steps = Vec::new(alloc);
    for part in parts {
        for row in *part {
            push_step(rt, alloc, &mut steps, *row);
        }
    }
    steps
}

/// The steps before the first frame.
const OPENING: &[Row] = &[Row::PortUp(1), Row::PortUp(2), Row::Publish];

/// The steps of the scenario from the first frame on.
const SCENARIO: &[Row] = &[Row::Frame(1, 11, 10), Row::Serve, Row::Frame(2, 10, 11)];

const FRAMELESS: &[&[Row]] = &[OPENING];

const GIVEN: &[&[Row]] = &[OPENING, SCENARIO];

/// Both frames are held before the first is posted.
const FIRST_POST: &[Row] = &[
    Row::Frame(1, 11, 10),
    Row::Frame(2, 10, 11),
    Row::Hold,
    Row::Hold,
    Row::Post(1, 6),
];

/// From the second post on.
const SECOND_POST: &[Row] = &[
    Row::Post(2, 7),
    Row::Publish,
    Row::Turn,
    Row::Turn,
    Row::Publish,
];

const TAKEN: &[&[Row]] = &[OPENING, FIRST_POST, &[Row::Publish], SECOND_POST];

/// The first post isn't followed by a publication.
const HELD: &[&[Row]] = &[OPENING, FIRST_POST, &[Row::Hold], SECOND_POST];

fn push_done(rt: &impl Abort, lines: &mut Lines, step: u32, changes: u32) {
    let line = Line::Done { step, changes };
    lines.push(line).expect(rt, "memory for lines");
}

fn lines(rt: &impl Abort, alloc: Global) -> Lines {
    let mut lines = Lines::new(alloc);
    for (step, changes) in DONE {
        push_done(rt, &mut lines, *step, *changes);
    }
    lines
}

/// So many frames wait.
fn left(alloc: Global, waiting: usize) -> Remains {
    Remains {
        waiting,
        held: 0,
        pending: 0,
        reporting: Items::new(alloc),
    }
}

/// The steps of the book, those of the scenario, how many frames wait at the end, and whether the book is live.
type Book = (
    &'static [&'static [Row]],
    &'static [&'static [Row]],
    usize,
    bool,
);

const BOOKS: &[Book] = &[
    (TAKEN, GIVEN, 0, true),
    (TAKEN, GIVEN, 1, false),
    (TAKEN, FRAMELESS, 0, false),
    (GIVEN, TAKEN, 0, false),
    (HELD, GIVEN, 0, false),
];

fn assert_book(rt: &impl Abort, alloc: Global, (taken, given, waiting, live): Book) {
    let taken = steps_of(rt, alloc, taken);
    let given = steps_of(rt, alloc, given);
    let lines = lines(rt, alloc);
    let left = left(alloc, waiting);
    let found = is_live(alloc, &taken, &lines, &given, &left).expect(rt, "memory");
    assert_same(rt, &found, &live, "whether it is live");
}

#[test]
fn a_book_of_two_workers_is_live(rt: HostRuntime) {
    for book in BOOKS {
        assert_book(&rt, rt.alloc(), *book);
    }
}
