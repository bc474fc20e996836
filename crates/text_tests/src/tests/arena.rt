//! Lines as rows over an arena of bytes.
use super::common::{assert_bytes, assert_same, assert_that};
use br_model::numbers::Port;
use br_model::steps::Refusal;
use br_model::transcript::Line;
use port_sets::Ports;
use std::alloc::Global;
use std::process::Abort;
use transcript_lines::{Lines, Row, Span};

/// A frame that leaves by three ports, by port 5 without its tag, behind a frame of the bridge and before a plain line.
fn lines(rt: &impl Abort, alloc: Global) -> Lines {
    let ports = Ports::empty().with(1).with(5).with(9);
    let untagged = Ports::empty().with(5);
    let mut lines = Lines::new(alloc);
    lines
        .push(Line::Soft { id: 7, point: 3 })
        .expect(rt, "memory");
    lines.reserve(3, 64).expect(rt, "memory");
    lines.push_ctl(Port::HOST, &[6, 6]);
    lines.push_sent(7, ports, untagged, &[1, 2, 3], &[9, 9], &[4, 5]);
    lines.push_reserved(Line::Done {
        step: 1,
        changes: 0,
    });
    lines
}

fn assert_ctl(rt: &impl Abort, row: &Row, arena: &[u8], wanted: &[u8]) {
    match row {
        Row::Ctl { port, bytes } => {
            assert_same(rt, port, &Port::HOST, "the port");
            assert_bytes(rt, bytes.of(arena), wanted, "the bridge's frame");
        }
        Row::One(_) | Row::Sent { .. } => panic!(rt; "another row"),
    }
}

fn assert_sent(rt: &impl Abort, row: &Row, arena: &[u8]) {
    match row {
        Row::Sent {
            id,
            ports,
            untagged,
            plain,
            tagged,
        } => {
            assert_same(rt, id, &7, "the frame's id");
            let by = Ports::empty().with(1).with(5).with(9);
            assert_same(rt, ports, &by, "the ports");
            assert_that(rt, untagged.has(5), "port 5 without a tag");
            assert_bytes(rt, plain.of(arena), &[1, 2, 3, 4, 5], "plain");
            assert_bytes(rt, tagged.of(arena), &[1, 2, 3, 9, 9, 4, 5], "tagged");
        }
        Row::One(_) | Row::Ctl { .. } => panic!(rt; "another row"),
    }
}

fn assert_rows(rt: &impl Abort, lines: &Lines, count: usize) {
    assert_same(rt, &lines.parts().0.len(), &count, "how many rows");
}

#[test]
fn a_frame_is_one_row_over_the_arena(rt: HostRuntime) {
    let lines = lines(&rt, rt.alloc());
    let (rows, arena) = lines.parts();
    assert!(rt; rows.len() == 4);
    assert_ctl(&rt, &rows[1], arena, &[6, 6]);
    assert_sent(&rt, &rows[2], arena);
}

#[test]
fn lines_are_cut_at_the_savepoint(rt: HostRuntime) {
    let mut lines = lines(&rt, rt.alloc());
    lines.save();
    let done = Line::Done {
        step: 2,
        changes: 0,
    };
    lines.push(done).expect(&rt, "memory");
    assert_rows(&rt, &lines, 5);
    lines.cut();
    assert_rows(&rt, &lines, 4);
    lines.clear();
    assert_rows(&rt, &lines, 0);
    assert_bytes(&rt, lines.parts().1, &[], "the arena");
}

/// A row before the savepoint, and two behind it.
fn saved(rt: &impl Abort, alloc: Global) -> Lines {
    let mut lines = Lines::new(alloc);
    lines.reserve(3, 64).expect(rt, "memory");
    lines.push_ctl(Port::HOST, &[6, 6]);
    lines.save();
    lines.push_ctl(Port::HOST, &[7, 7, 7]);
    lines.push_reserved(Line::Soft { id: 7, point: 3 });
    lines
}

fn is_soft(row: &Row) -> bool {
    matches!(row, Row::One(Line::Soft { id: 7, point: 3 }))
}

/// The rows of the copy name the same bytes in an arena of their own.
#[test]
fn a_copy_is_what_stands_behind_the_savepoint(rt: HostRuntime) {
    let mut lines = saved(&rt, rt.alloc());
    let copy = lines.copy_out(rt.alloc());
    let (rows, arena) = copy.parts();
    assert!(rt; rows.len() == 2);
    assert_bytes(&rt, arena, &[7, 7, 7], "the copy's arena");
    assert_ctl(&rt, &rows[0], arena, &[7, 7, 7]);
    assert_that(&rt, is_soft(&rows[1]), "the plain line");
    assert_rows(&rt, &lines, 3);
    assert_rows(&rt, &lines.copy_out(rt.alloc()), 0);
}

fn is_refused(line: &Line) -> bool {
    matches!(line.refusal(), Some(Refusal::NothingWaiting))
}

/// Whether the row says that step 2 is refused.
fn refuses(row: &Row) -> bool {
    matches!(row.answer(), Some((2, Err(Refusal::NothingWaiting))))
}

#[test]
fn a_line_says_how_its_step_ended(rt: HostRuntime) {
    assert_that(&rt, lines(&rt, rt.alloc()).any_done(), "step 1 was done");
    let mut lines = saved(&rt, rt.alloc());
    let line = Line::Refused {
        step: 2,
        refusal: Refusal::NothingWaiting,
    };
    assert_that(&rt, is_refused(&line), "a refusal");
    lines.push(line).expect(&rt, "memory");
    let (rows, _) = lines.parts();
    assert!(rt; rows.len() == 4);
    assert_that(&rt, refuses(&rows[3]), "step 2 is refused");
    assert_that(&rt, !lines.any_done(), "no step was done");
}

/// Where spans begin, their lengths, and what they hold of three bytes.
const SPANS: &[(usize, usize, &[u8])] = &[(1, 1, &[2]), (2, 9, &[3]), (7, 1, &[])];

#[test]
fn a_span_ends_with_the_arena(rt: HostRuntime) {
    let arena = [1, 2, 3];
    for (from, len, wanted) in SPANS {
        let (from, len) = (*from, *len);
        assert_bytes(&rt, Span { from, len }.of(&arena), wanted, "a span");
    }
    assert_bytes(&rt, Span::NONE.of(&arena), &[], "no span");
}
