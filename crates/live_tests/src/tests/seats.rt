//! What a seat answers before and after a publication, and beside a writer.
ghost use Rattle.std.specs.Prelude.{◌≡◌, ◌<◌, ◌+◌, [], true, length};
ghost use Rattle.br_model.specs.Table.Limits.{all_fit};
ghost use Rattle.br_model.specs.Table.Table.{start};
ghost use Rattle.table_publish.specs.Board.{all_of};

use super::common::{assert_same, assert_that};
use br_model::change::{Change, FORWARDING, Flags};
use br_model::domains::Domains;
use br_model::frame::{Head, McastMsg};
use br_model::numbers::{Mac, Port, Vid};
use std::alloc::Global;
use std::process::Abort;
use std::sync::Wait;
use std::test::Fail;
use std::thread::{Threads, join_mut};
use table_publish::{Board, Seat};

fn port(number: u8) -> Result<Port, Fail> {
    Ok(Port::new(number).ok_or("port")?)
}

/// A broadcast.
fn head() -> Head {
    Head {
        dst: Mac::new([255; 6]),
        src: Mac::new([2, 0, 0, 0, 0, 0x0E]),
        tag: None,
        kind: 0x88B5,
        body: 14,
    }
}

/// The port comes up, forwards, and gets the frames of VLAN 1.
fn append_port(board: &mut Board, port: Port)
    requires { all_of board.old ≡ [] }
    ensures { board.new.board ≡ board.old.board }
{
    board.append(&[
        Change::PortUp(port),
        Change::SetState(port, FORWARDING),
        Change::VlanAdd {
            port,
            vid: Vid::DEFAULT,
            untagged: true,
            pvid: true,
        },
    ]);
}

/// By how many changes a broadcast that came by port 1 is decided, and the first port that it leaves.
fn assert_answer(
    rt: &impl Abort,
    seat: &mut Seat,
    point: u32,
    first: Option<u8>,
) -> Result<(), Fail>
    ensures { seat.new.board ≡ seat.old.board }
{
    let seen = seat
        .lookup(port(1)?, &head(), &McastMsg::Plain)
        .ok_or("no reading")?;
    assert_same(rt, &seen.point, &point, "the point");
    assert_same(rt, &seen.verdict.ports.first(), &first, "the first port");
    assert_same(rt, &seat.misses(), &0, "misses");
    Ok(())
}

/// The same after the seat was told.
fn assert_told(
    rt: &impl Abort,
    board: &mut Board,
    seat: &mut Seat,
    point: u32,
    first: Option<u8>,
) -> Result<(), Fail>
    requires { seat.old.board ≡ board.old.board }
    ensures board { board.new ≡ board.old }
    ensures seat { seat.new.board ≡ seat.old.board }
{
    board.tell(seat);
    assert_answer(rt, seat, point, first)
}

fn assert_published<R: Wait + Abort>(
    rt: &R,
    alloc: Global,
    board: &mut Board,
    count: u32,
) -> Result<(), Fail>
    ensures { board.new.board ≡ board.old.board }
{
    let published = board.publish(rt, alloc)?;
    assert_same(rt, &published, &count, "what is published");
    Ok(())
}

/// Port 1 comes up. What waits to be published is in no answer.
fn assert_waiting(
    rt: &impl Abort,
    board: &mut Board,
    told: &mut Seat,
    untold: &mut Seat,
) -> Result<(), Fail>
    requires empty { all_of board.old ≡ [] }
    requires told { told.old.board ≡ board.old.board }
    ensures board { board.new.board ≡ board.old.board }
    ensures told { told.new.board ≡ told.old.board }
    ensures untold { untold.new.board ≡ untold.old.board }
{
    append_port(board, port(1)?);
    assert_told(rt, board, told, 0, None)?;
    assert_answer(rt, untold, 0, None)
}

/// The same, and what is published then is in the next answer of each seat.
fn assert_answers<R: Wait + Abort>(
    rt: &R,
    alloc: Global,
    board: &mut Board,
    told: &mut Seat,
    untold: &mut Seat,
) -> Result<(), Fail>
    requires empty { all_of board.old ≡ [] }
    requires told { told.old.board ≡ board.old.board }
    requires untold { untold.old.board ≡ board.old.board }
{
    assert_waiting(rt, board, told, untold)?;
    assert_published(rt, alloc, board, 3)?;
    assert_told(rt, board, told, 3, Some(0))?;
    assert_answer(rt, untold, 3, Some(0))?;
    assert_published(rt, alloc, board, 3)?;
    assert_told(rt, board, untold, 3, Some(0))
}

#[test]
fn a_seat_answers_by_what_is_published(rt: HostRuntime) -> Result<(), Fail> {
    let (mut board, mut seats) = Board::make(&rt, rt.alloc(), &Domains::make(), 2)?;
    let Some(mut told) = seats.next() else {
        unreachable!()
    };
    let Some(mut untold) = seats.next() else {
        unreachable!()
    };
    assert!(rt; seats.next().is_none());
    let answered = assert_answers(&rt, rt.alloc(), &mut board, &mut told, &mut untold);
    board.end(&rt);
    answered
}

/// How many changes the writer publishes, one by one.
const CHANGES: u8 = 100;

/// How often the seat looks up meanwhile, and how many of the lookups have to get a reading.
const LOOKUPS: u32 = 10_000;

const READINGS: u32 = 5_000;

/// Publishes one change of the flags of a port. Whether there was memory.
fn publish_flags<R: Wait>(
    rt: &R,
    alloc: Global,
    board: &mut Board,
    port: Port,
    flags: Flags,
) -> bool
    requires fit { all_fit start (all_of board.old) ≡ true }
    requires few { length (all_of board.old) < 1000 }
    ensures fit { all_fit start (all_of board.new) ≡ true }
    ensures count { length (all_of board.new) ≡ length (all_of board.old) + 1 }
    ensures board { board.new.board ≡ board.old.board }
{
    board.append(&[Change::SetFlags(port, flags)]);
    match board.publish(rt, alloc) {
        Ok(_) => true,
        Err(_) => false,
    }
}

/// Publishes changes of the flags of a port one by one. Whether there was memory for each.
fn publish_all<R: Wait>(rt: &R, alloc: Global, board: &mut Board) -> bool
    requires { all_of board.old ≡ [] }
    ensures { board.new.board ≡ board.old.board }
{
    let Some(port) = Port::new(1) else {
        return false;
    };
    let mut all = true;
    for i in 0..CHANGES {
        if let Some(flags) = Flags::new(i % 64) {
            all &= publish_flags(rt, alloc, board, port, flags);
        }
    }
    all
}

/// Looks up many times. How many readings there were, and whether the points never fell.
fn look_all(mut seat: Seat) -> (Seat, u32, bool)
    ensures { result.0.board ≡ seat.board }
{
    let head = head();
    let mut last = 0;
    let mut readings = 0u32;
    let mut rises = true;
    for _ in 0..LOOKUPS {
        if let Some(seen) = seat.lookup(Port::HOST, &head, &McastMsg::Plain) {
            rises &= last <= seen.point;
            last = seen.point;
            readings = readings.saturating_add(1);
        }
    }
    (seat, readings, rises)
}

/// A writer in one thread, a seat in another.
fn beside<R: Wait + Threads + Sync>(
    rt: &R,
    alloc: Global,
    board: &mut Board,
    seat: Seat,
) -> (bool, (Seat, u32, bool))
    requires { all_of board.old ≡ [] }
    ensures { (board.new.board ≡ board.old.board) × (result.1.0.board ≡ seat.board) }
{
    let mut seat = Some(seat);
    join_mut(
        rt,
        &mut || publish_all(rt, alloc, board),
        &mut || look_all(seat.take().unwrap()),
    )
}

/// By how many changes the seat answers.
fn point_of(seat: &mut Seat) -> Result<u32, Fail>
    ensures { seat.new.board ≡ seat.old.board }
{
    let seen = seat
        .lookup(Port::HOST, &head(), &McastMsg::Plain)
        .ok_or("no reading")?;
    Ok(seen.point)
}

#[test]
fn a_seat_reads_beside_a_writer(rt: HostRuntime) -> Result<(), Fail> {
    let (mut board, mut seats) = Board::make(&rt, rt.alloc(), &Domains::make(), 1)?;
    let Some(seat) = seats.next() else {
        unreachable!()
    };
    let (all, (mut seat, readings, rises)) = beside(&rt, rt.alloc(), &mut board, seat);
    board.tell(&mut seat);
    let published = board.published();
    let point = point_of(&mut seat);
    board.end(&rt);
    assert_that(&rt, all, "memory");
    assert_that(&rt, readings >= READINGS, "readings");
    assert_that(&rt, rises, "points that never fall");
    assert_same(&rt, &published, &100, "what is published");
    assert_that(&rt, point? >= published, "the last point");
    Ok(())
}
