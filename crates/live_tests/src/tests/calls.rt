//! The plane's calls that answer the lines of their step, beside a run of the same steps by the calls of the program.
ghost use Rattle.std.specs.Prelude.{◌≡◌, IfOk, OnOk};
ghost use Rattle.plane_lock.specs.Posts.{IsSeen};
ghost use Rattle.table_publish.specs.Object.{Begins, IsPublished};

use super::common::{assert_same, assert_that};
use super::lock::{FIRST_OF_TWELVE, FRAME, address, domains, port};
use br_model::numbers::{Dom, Mac};
use br_model::steps::{Command, Event};
use br_model::transcript::Line;
use ether_frames::parse;
use forward_rules::Verdict;
use igmp_mld::classify;
use plane_core::{Held, Plane, TurnFault};
use plane_record::Ran;
use std::alloc::Global;
use std::process::Abort;
use std::sync::Wait;
use std::test::Fail;
use table_publish::{Seat, Seen};
use transcript_lines::{Lines, Row};
use transcript_text::Writer;

fn text_of(alloc: Global, lines: &Lines) -> Result<String, Fail> {
    let mut text = String::new(alloc);
    Writer::new(alloc).append_lines(lines, &mut text)?;
    Ok(text)
}

fn is_refusal(lines: &Lines) -> bool {
    matches!(lines.parts().0, [Row::One(Line::Refused { .. })])
}

/// Both calls answer the same lines, which are no refusal. They are added to the text of the steps before.
fn note(
    rt: &impl Abort,
    alloc: Global,
    lines: &Lines,
    others: &Lines,
    text: &mut String,
) -> Result<(), Fail> {
    assert_that(rt, !is_refusal(lines), "a step that is done");
    let told = text_of(alloc, lines)?;
    assert_same(rt, &told, &text_of(alloc, others)?, "the lines of a step");
    text.push_str(&told)?;
    Ok(())
}

fn obey<R: Abort>(
    rt: &R,
    alloc: Global,
    plane: &mut Plane,
    ran: &mut Ran,
    command: Command,
    text: &mut String,
) -> Result<(), Fail>
    ensures plane { OnOk result (plane.new.board ≡ plane.old.board) }
    ensures ran { OnOk result (ran.new.board ≡ ran.old.board) }
{
    let event = Event::Cmd(command);
    let lines = plane.accept(alloc, &event)?;
    let others = ran.accept(alloc, &event)?;
    note(rt, alloc, &lines, &others, text)
}

fn publish<R: Wait + Abort>(
    rt: &R,
    alloc: Global,
    plane: &mut Plane,
    ran: &mut Ran,
    text: &mut String,
) -> Result<(), Fail>
    ensures plane { OnOk result (plane.new.board ≡ plane.old.board) }
    ensures ran { OnOk result (ran.new.board ≡ ran.old.board) }
{
    let lines = plane.publish(rt, alloc)?;
    let others = ran.publish(rt, alloc)?;
    let published = plane.published();
    assert_same(
        rt,
        &published,
        &ran.plane().published(),
        "what is published",
    );
    assert_same(
        rt,
        &(published as usize),
        &plane.history().len(),
        "all changes",
    );
    note(rt, alloc, &lines, &others, text)
}

/// The ports come up, and station 11 is entered at port 2.
fn begin<R: Wait + Abort>(
    rt: &R,
    alloc: Global,
    plane: &mut Plane,
    ran: &mut Ran,
    text: &mut String,
) -> Result<(), Fail>
    ensures plane { OnOk result (plane.new.board ≡ plane.old.board) }
    ensures ran { OnOk result (ran.new.board ≡ ran.old.board) }
{
    obey(rt, alloc, plane, ran, Command::PortUp(port(1)?), text)?;
    obey(rt, alloc, plane, ran, Command::PortUp(port(2)?), text)?;
    obey(rt, alloc, plane, ran, Command::PortUp(port(3)?), text)?;
    obey(rt, alloc, plane, ran, address(11)?, text)?;
    publish(rt, alloc, plane, ran, text)
}

/// A frame of station 10 enters at port 1, whose chip decides it.
fn enter<R: Abort>(
    rt: &R,
    alloc: Global,
    plane: &mut Plane,
    ran: &mut Ran,
    text: &mut String,
) -> Result<(), Fail>
    ensures plane { OnOk result (plane.new.board ≡ plane.old.board) }
    ensures ran { OnOk result (ran.new.board ≡ ran.old.board) }
{
    let entered = plane.enter(alloc, port(1)?, FRAME)?;
    let others = ran.enter(alloc, port(1)?, FRAME)?;
    assert_that(rt, entered.pass.is_some(), "a pass");
    assert_that(rt, others.pass.is_some(), "the same pass");
    note(rt, alloc, &entered.lines, &others.lines, text)
}

/// That frame is served.
fn serve<R: Abort>(
    rt: &R,
    alloc: Global,
    plane: &mut Plane,
    seat: &mut Seat,
    ran: &mut Ran,
    other: &mut Seat,
    text: &mut String,
) -> Result<(), Fail>
    requires seat { seat.old.board ≡ plane.old.board }
    requires other { other.old.board ≡ ran.old.board }
    ensures seat { OnOk result (seat.new.board ≡ plane.new.board) }
    ensures other { OnOk result (other.new.board ≡ ran.new.board) }
{
    let lines = plane.serve(alloc, seat)?;
    let others = ran.serve(alloc, other)?;
    note(rt, alloc, &lines, &others, text)
}

/// The chip takes a turn by each call: by one with the update that is next, which is another one's refusal, and by one that finds it.
fn turn<R: Abort>(
    rt: &R,
    alloc: Global,
    plane: &mut Plane,
    ran: &mut Ran,
    text: &mut String,
) -> Result<(), Fail> {
    let ticket = plane.applied(Dom::CHIP);
    let wanted = TurnFault::OutOfTurn {
        expected: ticket,
        got: None,
    };
    assert_that(
        rt,
        matches!(plane.turn(alloc, Dom::CHIP, None), Err(fault) if fault == wanted),
        "out of turn",
    );
    assert_that(
        rt,
        matches!(ran.turn(alloc, Dom::CHIP, None), Err(fault) if fault == wanted),
        "out of turn in a run",
    );
    let lines = plane.turn(alloc, Dom::CHIP, plane.update(ticket))?;
    let others = ran.turn_next(alloc, Dom::CHIP)?;
    note(rt, alloc, &lines, &others, text)
}

/// The next turn, with the calls changed over.
fn turn_over<R: Abort>(
    rt: &R,
    alloc: Global,
    plane: &mut Plane,
    ran: &mut Ran,
    text: &mut String,
) -> Result<(), Fail> {
    let update = ran.plane().update(ran.plane().applied(Dom::CHIP));
    let others = ran.turn(alloc, Dom::CHIP, update)?;
    let mut lines = Lines::new(alloc);
    plane.turn_next(Dom::CHIP, &mut lines)?;
    note(rt, alloc, &lines, &others, text)
}

/// The seat's decision of a held frame.
fn decide(seat: &mut Seat, held: &Held) -> Result<Seen, Fail>
    ensures seen { IfOk result (IsSeen seat.new.board.domains seat.new.object held.now) }
    ensures begins { OnOk result (Begins seat.new.object seat.old.object) }
    ensures board { OnOk result (seat.new.board ≡ seat.old.board) }
    ensures published { OnOk result (IsPublished seat.new.object) }
{
    let head = parse(held.bytes.as_slice())?;
    let message = classify(held.bytes.as_slice(), &head);
    let seen = seat.lookup(held.port, &head, &message).ok_or("no reading")?;
    if seen.point < held.floor {
        return Err(Fail::new("below the floor"));
    }
    Ok(seen)
}

/// The oldest frame that waits is held, and posted by the seat's decision.
fn post(alloc: Global, plane: &mut Plane, seat: &mut Seat) -> Result<Lines, Fail>
    requires { seat.old.board ≡ plane.old.board }
{
    let held = plane.open_frame(alloc)?.ok_or("no frame")?;
    let seen = decide(seat, &held)?;
    // `post` takes the verdict along: its type has to be named once for the proof.
    let _verdict: Verdict = seen.verdict;
    plane.tell(seat);
    plane.stands();
    match plane.post(alloc, held, seen) {
        Ok(lines) => Ok(lines),
        Err(_) => Err(Fail::new("not posted")),
    }
}

/// The same in a run.
fn post_in_run(alloc: Global, ran: &mut Ran, seat: &mut Seat) -> Result<Lines, Fail>
    requires { seat.old.board ≡ ran.old.board }
{
    let held = ran.open_frame(alloc)?.ok_or("no frame")?;
    let seen = decide(seat, &held)?;
    // As in `post`.
    let _verdict: Verdict = seen.verdict;
    ran.tell(seat);
    ran.plane().stands();
    match ran.post(alloc, held, seen) {
        Ok(lines) => Ok(lines),
        Err(_) => Err(Fail::new("not posted")),
    }
}

/// A frame of station 12 enters at port 3, is held and posted.
fn teach<R: Abort>(
    rt: &R,
    alloc: Global,
    plane: &mut Plane,
    seat: &mut Seat,
    ran: &mut Ran,
    other: &mut Seat,
    text: &mut String,
) -> Result<(), Fail>
    requires seat { seat.old.board ≡ plane.old.board }
    requires other { other.old.board ≡ ran.old.board }
{
    let entered = plane.enter(alloc, port(3)?, FIRST_OF_TWELVE)?;
    let others = ran.enter(alloc, port(3)?, FIRST_OF_TWELVE)?;
    assert_that(rt, entered.pass.is_none(), "no pass");
    note(rt, alloc, &entered.lines, &others.lines, text)?;
    // That it is held is a line of the run alone.
    text.push_str("held 2 10\n")?;
    let lines = post(alloc, plane, seat)?;
    let others = post_in_run(alloc, ran, other)?;
    note(rt, alloc, &lines, &others, text)
}

/// The chip reports station 10, takes a turn, and is swept twice: the second time it has forgotten the station.
fn tend<R: Wait + Abort>(
    rt: &R,
    alloc: Global,
    plane: &mut Plane,
    ran: &mut Ran,
    text: &mut String,
) -> Result<(), Fail> {
    let lines = plane.report(alloc, Dom::CHIP)?;
    let others = ran.report(alloc, Dom::CHIP)?;
    note(rt, alloc, &lines, &others, text)?;
    turn_over(rt, alloc, plane, ran, text)?;
    for _ in 0..2 {
        let lines = plane.sweep(alloc, Dom::CHIP)?;
        let others = ran.sweep(alloc, Dom::CHIP)?;
        note(rt, alloc, &lines, &others, text)?;
    }
    publish(rt, alloc, plane, ran, text)
}

fn use_calls<R: Wait + Abort>(
    rt: &R,
    alloc: Global,
    plane: &mut Plane,
    seat: &mut Seat,
    ran: &mut Ran,
    other: &mut Seat,
) -> Result<(), Fail>
    requires seat { seat.old.board ≡ plane.old.board }
    requires other { other.old.board ≡ ran.old.board }
{
    let mut text = String::new(alloc);
    begin(rt, alloc, plane, ran, &mut text)?;
    enter(rt, alloc, plane, ran, &mut text)?;
    serve(rt, alloc, plane, seat, ran, other, &mut text)?;
    teach(rt, alloc, plane, seat, ran, other, &mut text)?;
    turn(rt, alloc, plane, ran, &mut text)?;
    tend(rt, alloc, plane, ran, &mut text)?;
    assert_same(
        rt,
        &text,
        &text_of(alloc, ran.lines())?,
        "the lines of the run",
    );
    Ok(())
}

#[test]
fn calls_answer_what_the_program_writes(rt: HostRuntime) -> Result<(), Fail> {
    let alloc = rt.alloc();
    let all = domains()?;
    let same = all.again();
    let (mut plane, mut seats) = Plane::with_seats(&rt, alloc, all, Mac::FIRST_OWN, 1)?;
    let (of_run, mut others) = match Plane::with_seats(&rt, alloc, same, Mac::FIRST_OWN, 1) {
        Ok(made) => made,
        Err(error) => {
            plane.end(&rt);
            return Err(Fail::from(error));
        }
    };
    let mut ran = Ran::make(alloc, of_run);
    let (Some(mut seat), Some(mut other)) = (seats.next(), others.next()) else {
        unreachable!();
    };
    let used = use_calls(&rt, alloc, &mut plane, &mut seat, &mut ran, &mut other);
    let _book = ran.book(&rt);
    plane.end(&rt);
    used
}
