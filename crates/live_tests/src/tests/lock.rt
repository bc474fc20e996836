//! The queue's use, and each call of the locks where it has work.
ghost use Rattle.std.specs.Prelude.{◌≡◌, ◌<◌, ◌≤◌, [], ◌∷◌, map, true, length, IfOk};
ghost use Rattle.std.specs.List.{All};
ghost use Rattle.br_model.specs.Table.Domains.{chip_domains, has_chip};
ghost use Rattle.plane_lock.specs.Posted.{updates_of};
ghost use Rattle.plane_lock.specs.Posts.{IsSeen};
ghost use Rattle.table_publish.specs.Board.{newcomer};

use super::common::{assert_same, assert_that};
use br_model::change::Kind;
use br_model::domains::Domains;
use br_model::numbers::{Dom, Mac, Port, Vid};
use br_model::steps::{Command, Event};
use br_model::transcript::Line;
use ether_frames::parse;
use igmp_mld::classify;
use plane_core::{Held, Plane};
use plane_lock::{ActFault, Chair, Queue, Queues, Ran, Shared, post_updates};
use std::alloc::Global;
use std::marker::Brand;
use std::process::Abort;
use std::sync::{MutexGuard, Wait};
use std::test::Fail;
use table_publish::{Board, Name, Seat, Seen};
use transcript_lines::{Lines, Row};

pub(super) fn port(number: u8) -> Result<Port, Fail>
    ensures { IfOk result (λ p. p ≡ number) }
{
    Ok(Port::new(number).ok_or("port")?)
}

/// Two ports of the chip, and one of software.
pub(super) fn domains() -> Result<Domains, Fail>
    ensures { IfOk result (λ d. chip_domains d ≡ 1 ∷ []) }
{
    let mut domains = Domains::make();
    domains.set(port(1)?, Dom::CHIP);
    domains.set(port(2)?, Dom::CHIP);
    domains.set(port(3)?, Dom::SOFTWARE);
    Ok(domains)
}

fn second_chip() -> Result<Dom, Fail>
    ensures { IfOk result (λ d. d ≡ 2) }
{
    Ok(Dom::new(2).ok_or("domain")?)
}

/// A port of each of two chips, and one of software.
fn domains_of_two() -> Result<Domains, Fail>
    ensures { IfOk result (λ d. chip_domains d ≡ 1 ∷ 2 ∷ []) }
{
    let mut domains = Domains::make();
    domains.set(port(1)?, Dom::CHIP);
    domains.set(port(2)?, second_chip()?);
    domains.set(port(3)?, Dom::SOFTWARE);
    Ok(domains)
}

/// The address of station `number`.
fn station(number: u8) -> Mac {
    Mac::new([2, 0, 0, 0, 0, number])
}

/// A static address of station `number` at port 2.
pub(super) fn address(number: u8) -> Result<Command, Fail> {
    Ok(Command::FdbAdd {
        vid: Vid::DEFAULT,
        mac: station(number),
        port: port(2)?,
        kind: Kind::Static,
    })
}

/// A frame of station 10 to station 11.
pub(super) const FRAME: &[u8] = &[2, 0, 0, 0, 0, 11, 2, 0, 0, 0, 0, 10, 0x88, 0xB5, 0, 0];

/// A frame of station 12 to station 10.
pub(super) const FIRST_OF_TWELVE: &[u8] = &[2, 0, 0, 0, 0, 10, 2, 0, 0, 0, 0, 12, 0x88, 0xB5, 0, 0];

/// A frame of station 10 to station 12.
const ANSWER: &[u8] = &[2, 0, 0, 0, 0, 12, 2, 0, 0, 0, 0, 10, 0x88, 0xB5, 0, 0];

fn command(alloc: Global, ran: &mut Ran, command: Command) -> Result<(), Fail>
    ensures board { ran.new.board ≡ ran.old.board }
    ensures setup { ran.new.setup ≡ ran.old.setup }
{
    ran.accept(alloc, &Event::Cmd(command))?;
    Ok(())
}

fn bring_up(alloc: Global, ran: &mut Ran, number: u8) -> Result<(), Fail>
    ensures board { ran.new.board ≡ ran.old.board }
    ensures setup { ran.new.setup ≡ ran.old.setup }
{
    command(alloc, ran, Command::PortUp(port(number)?))
}

fn add_address(alloc: Global, ran: &mut Ran, number: u8) -> Result<(), Fail>
    ensures board { ran.new.board ≡ ran.old.board }
    ensures setup { ran.new.setup ≡ ran.old.setup }
{
    command(alloc, ran, address(number)?)
}

/// The three ports come up, and that is published.
fn begin<R: Wait>(rt: &R, alloc: Global, ran: &mut Ran) -> Result<(), Fail>
    ensures board { ran.new.board ≡ ran.old.board }
    ensures setup { ran.new.setup ≡ ran.old.setup }
{
    bring_up(alloc, ran, 1)?;
    bring_up(alloc, ran, 2)?;
    bring_up(alloc, ran, 3)?;
    ran.publish(rt, alloc)?;
    Ok(())
}

/// The queue of a chip, which has been posted the updates of the run, of which so many were taken.
fn queue_of<R: Wait>(rt: &R, alloc: Global, ran: &Ran, dom: Dom, taken: u32) -> Result<Queue, Fail>
    ensures dom { IfOk result (λ q. q.dom ≡ dom) }
    ensures posted { IfOk result (λ q. q.poster.posted ≡ updates_of ran.now) }
{
    let (mut poster, mut taker) = deferred_queue::make(alloc)?;
    post_updates(rt, &mut poster, ran.plane());
    for _ in 0..taken {
        let _update = taker.take(rt);
    }
    Ok(Queue { dom, poster, taker })
}

fn one_queue<R: Wait>(rt: &R, alloc: Global, ran: &Ran, taken: u32) -> Result<Queues, Fail>
    ensures doms { IfOk result (λ q. map (λ x. x.dom) q ≡ 1 ∷ []) }
    ensures posted { IfOk result (λ q. All (λ x. x.poster.posted ≡ updates_of ran.now) q) }
{
    let mut queues = Queues::new(alloc);
    queues.push(queue_of(rt, alloc, ran, Dom::CHIP, taken)?)?;
    Ok(queues)
}

/// The queues of two chips, of the first of which so many updates were taken.
fn two_queues<R: Wait>(rt: &R, alloc: Global, ran: &Ran, taken: u32) -> Result<Queues, Fail>
    ensures doms { IfOk result (λ q. map (λ x. x.dom) q ≡ 1 ∷ 2 ∷ []) }
    ensures posted { IfOk result (λ q. All (λ x. x.poster.posted ≡ updates_of ran.now) q) }
{
    let mut queues = one_queue(rt, alloc, ran, taken)?;
    queues.push(queue_of(rt, alloc, ran, second_chip()?, 0)?)?;
    Ok(queues)
}

/// A run of two static addresses whose updates were posted and taken.
fn emptied_queue<R: Wait>(rt: &R, alloc: Global, ran: &mut Ran) -> Result<Queues, Fail>
    ensures board { ran.new.board ≡ ran.old.board }
    ensures setup { ran.new.setup ≡ ran.old.setup }
    ensures doms { IfOk result (λ q. map (λ x. x.dom) q ≡ 1 ∷ []) }
    ensures posted { IfOk result (λ q. All (λ x. x.poster.posted ≡ updates_of ran.new) q) }
{
    begin(rt, alloc, ran)?;
    add_address(alloc, ran, 11)?;
    add_address(alloc, ran, 12)?;
    one_queue(rt, alloc, ran, 2)
}

/// A run of two static addresses, whose updates were taken from the first chip's queue alone.
fn one_of_two_emptied<R: Wait>(rt: &R, alloc: Global, ran: &mut Ran) -> Result<Queues, Fail>
    ensures board { ran.new.board ≡ ran.old.board }
    ensures setup { ran.new.setup ≡ ran.old.setup }
    ensures doms { IfOk result (λ q. map (λ x. x.dom) q ≡ 1 ∷ 2 ∷ []) }
    ensures posted { IfOk result (λ q. All (λ x. x.poster.posted ≡ updates_of ran.new) q) }
{
    begin(rt, alloc, ran)?;
    add_address(alloc, ran, 11)?;
    add_address(alloc, ran, 12)?;
    two_queues(rt, alloc, ran, 2)
}

/// A run whose ports are up, with its queue.
fn begun_queue<R: Wait>(rt: &R, alloc: Global, ran: &mut Ran) -> Result<Queues, Fail>
    ensures board { ran.new.board ≡ ran.old.board }
    ensures setup { ran.new.setup ≡ ran.old.setup }
    ensures doms { IfOk result (λ q. map (λ x. x.dom) q ≡ 1 ∷ []) }
    ensures posted { IfOk result (λ q. All (λ x. x.poster.posted ≡ updates_of ran.new) q) }
{
    begin(rt, alloc, ran)?;
    one_queue(rt, alloc, ran, 0)
}

fn wrote(lines: &Lines) -> bool {
    !lines.parts().0.is_empty()
}

/// Whether the one line says that a step was done.
fn is_done(lines: &Lines) -> bool {
    matches!(lines.parts().0, [Row::One(Line::Done { .. })])
}

fn acted(done: Result<Lines, ActFault>) -> Result<Lines, Fail> {
    match done {
        Ok(lines) => Ok(lines),
        Err(_) => Err(Fail::new("no memory")),
    }
}

/// No step before the third address. Then a step for each update, the third of which is kept meanwhile.
fn turn_by_the_queue<N: Name, R: Wait + Abort>(
    rt: &R,
    alloc: Global,
    shared: &Shared<N>,
) -> Result<(), Fail>
    requires { has_chip N.board.domains 1 ≡ true }
{
    assert_that(rt, !wrote(&shared.turn(rt, alloc, Dom::CHIP)?), "no update");
    assert_that(
        rt,
        is_done(&acted(shared.accept(rt, alloc, &Event::Cmd(address(13)?)))?),
        "a command",
    );
    for _ in 0..3 {
        assert_that(rt, is_done(&shared.turn(rt, alloc, Dom::CHIP)?), "a turn");
    }
    assert_that(rt, !wrote(&shared.turn(rt, alloc, Dom::CHIP)?), "no update");
    Ok(())
}

fn use_queue<N: Name, R: Wait + Abort>(rt: &R, alloc: Global, ran: Ran) -> Result<(), Fail>
    requires board { ran.board ≡ N.board }
    requires setup { ran.setup ≡ record { domains = N.board.domains; own = N.own } }
    requires chips { chip_domains N.board.domains ≡ 1 ∷ [] }
{
    let mut ran = ran;
    match emptied_queue(rt, alloc, &mut ran) {
        Ok(queues) => {
            let shared = Shared::<N>::make(rt, alloc, ran, queues)?;
            let turned = turn_by_the_queue(rt, alloc, &shared);
            let ran = shared.close();
            let applied = ran.plane().applied(Dom::CHIP);
            let book = ran.book(rt);
            turned?;
            assert_same(rt, &applied, &3, "applied updates");
            // Four steps before the first address, three addresses, a publication and three turns.
            assert_same(rt, &book.steps.len(), &11, "the steps");
            Ok(())
        }
        Err(error) => {
            let _book = ran.book(rt);
            Err(error)
        }
    }
}

#[test]
fn turns_go_by_the_queue(rt: HostRuntime) -> Result<(), Fail> {
    let alloc = rt.alloc();
    let domains = domains()?;
    let (board, _seats) = Board::make(&rt, alloc, &domains, 1)?;
    let plane = Plane::make(&rt, alloc, domains, Mac::FIRST_OWN, board)?;
    use_queue::<Brand, HostRuntime>(&rt, alloc, Ran::make(alloc, plane))
}

/// The chip takes turns, at most two. How many updates it has applied then.
fn applied_by_turns<N: Name, R: Wait>(
    rt: &R,
    alloc: Global,
    shared: &Shared<N>,
    dom: Dom,
) -> Result<u32, Fail>
    requires { has_chip N.board.domains dom ≡ true }
{
    shared.turns(rt, alloc, dom, 2)?;
    let core = shared.lock(rt);
    let applied = core.applied(dom);
    MutexGuard::unlock(core);
    Ok(applied)
}

/// The first chip's queue was emptied; the second chip's has two updates, of which `turn` takes one, and `turns` the other alone.
fn turn_by_own_queue<N: Name, R: Wait + Abort>(
    rt: &R,
    alloc: Global,
    shared: &Shared<N>,
) -> Result<(), Fail>
    requires { chip_domains N.board.domains ≡ 1 ∷ 2 ∷ [] }
{
    let second = second_chip()?;
    assert_that(rt, !wrote(&shared.turn(rt, alloc, Dom::CHIP)?), "no update");
    assert_that(rt, is_done(&shared.turn(rt, alloc, second)?), "a turn");
    let first = applied_by_turns(rt, alloc, shared, Dom::CHIP)?;
    assert_same(rt, &first, &0, "turns over an emptied queue");
    let both = applied_by_turns(rt, alloc, shared, second)?;
    assert_same(rt, &both, &2, "turns over one update");
    assert_that(rt, !wrote(&shared.turn(rt, alloc, second)?), "no update");
    Ok(())
}

/// How many changes the one line tells, where it says that a step was done.
fn changes_of(lines: &Lines) -> Option<u32> {
    match lines.parts().0 {
        [Row::One(Line::Done { changes, .. })] => Some(*changes),
        _ => None,
    }
}

/// A frame of a new station enters at the second chip, which alone reports it. Once the chip has the entry, its sweeps alone forget it:
/// the first finds it used, the next doesn't.
fn serve_own_chip<N: Name, R: Wait + Abort>(
    rt: &R,
    alloc: Global,
    shared: &Shared<N>,
) -> Result<(), Fail>
    requires { chip_domains N.board.domains ≡ 1 ∷ 2 ∷ [] }
{
    let second = second_chip()?;
    let _entered = shared.enter(rt, alloc, port(2)?, FRAME)?;
    let first = acted(shared.report(rt, alloc, Dom::CHIP))?;
    let own = acted(shared.report(rt, alloc, second))?;
    assert_same(
        rt,
        &[changes_of(&first), changes_of(&own)],
        &[None, Some(1)],
        "reports",
    );
    let applied = applied_by_turns(rt, alloc, shared, second)?;
    assert_same(rt, &applied, &3, "applied updates");
    let used = acted(shared.sweep(rt, alloc, second))?;
    let first = acted(shared.sweep(rt, alloc, Dom::CHIP))?;
    let own = acted(shared.sweep(rt, alloc, second))?;
    let forgotten = [changes_of(&used), changes_of(&first), changes_of(&own)];
    assert_same(rt, &forgotten, &[Some(0), Some(0), Some(1)], "sweeps");
    Ok(())
}

fn name_each_chip<N: Name, R: Wait + Abort>(
    rt: &R,
    alloc: Global,
    shared: &Shared<N>,
) -> Result<(), Fail>
    requires { chip_domains N.board.domains ≡ 1 ∷ 2 ∷ [] }
{
    turn_by_own_queue(rt, alloc, shared)?;
    serve_own_chip(rt, alloc, shared)
}

fn use_two_chips<N: Name, R: Wait + Abort>(rt: &R, alloc: Global, ran: Ran) -> Result<(), Fail>
    requires board { ran.board ≡ N.board }
    requires setup { ran.setup ≡ record { domains = N.board.domains; own = N.own } }
    requires chips { chip_domains N.board.domains ≡ 1 ∷ 2 ∷ [] }
{
    let mut ran = ran;
    match one_of_two_emptied(rt, alloc, &mut ran) {
        Ok(queues) => {
            let shared = Shared::<N>::make(rt, alloc, ran, queues)?;
            let named = name_each_chip(rt, alloc, &shared);
            let _book = shared.close().book(rt);
            named
        }
        Err(error) => {
            let _book = ran.book(rt);
            Err(error)
        }
    }
}

#[test]
fn calls_serve_the_chip_they_name(rt: HostRuntime) -> Result<(), Fail> {
    let alloc = rt.alloc();
    let domains = domains_of_two()?;
    let (board, _seats) = Board::make(&rt, alloc, &domains, 1)?;
    let plane = Plane::make(&rt, alloc, domains, Mac::FIRST_OWN, board)?;
    use_two_chips::<Brand, HostRuntime>(&rt, alloc, Ran::make(alloc, plane))
}

fn is_sent<T: Send>() {}

fn is_shared<T: Sync>() {}

/// Threads share the locks, and a chair, a held frame and a decision of it go from one to another.
fn serve_threads<N: Name + Send + Sync>() {
    is_shared::<Shared<N>>();
    is_sent::<Chair<N>>();
    is_sent::<Held>();
    is_sent::<Seen>();
}

/// The chair's decision of a held frame.
fn decide<N: Name>(chair: &mut Chair<N>, held: &Held) -> Result<Seen, Fail>
    requires { held.now.floor ≤ length chair.old.object.changes }
    ensures { IfOk result (IsSeen N.board.domains chair.new.object held.now) }
{
    let head = parse(held.bytes.as_slice())?;
    let message = classify(held.bytes.as_slice(), &head);
    Ok(
        chair
            .lookup(held.port, &head, &message)
            .ok_or("no reading")?,
    )
}

/// The oldest frame that waits is posted by the chair's decision. The answer is by how many changes that was.
fn post_frame<N: Name, R: Wait + Abort>(
    rt: &R,
    alloc: Global,
    shared: &Shared<N>,
    chair: &mut Chair<N>,
) -> Result<u32, Fail> {
    let Some(held) = shared.open_as(rt, alloc, chair)? else {
        return Err(Fail::new("no frame"));
    };
    let seen = decide(chair, &held)?;
    let point = seen.point;
    match shared.post_as(rt, alloc, chair, held, seen) {
        Ok(lines) => {
            assert_that(rt, wrote(&lines), "lines");
            Ok(point)
        }
        Err(_) => Err(Fail::new("not posted")),
    }
}

/// The chair's decision of the answer to station 12, at port 1.
fn decide_answer<N: Name>(chair: &mut Chair<N>) -> Result<Seen, Fail> {
    let head = parse(ANSWER)?;
    let message = classify(ANSWER, &head);
    Ok(chair.lookup(port(1)?, &head, &message).ok_or("no reading")?)
}

/// The answer to station 12 leaves port 3 alone, by more changes than so many.
fn assert_taught<R: Abort>(rt: &R, seen: Seen, point: u32) -> Result<(), Fail> {
    assert_that(rt, seen.point > point, "what was taught");
    assert_same(rt, &seen.verdict.ports.first(), &Some(3), "port 3");
    assert_that(
        rt,
        seen.verdict.ports.without(3).is_empty(),
        "no other port",
    );
    Ok(())
}

/// A frame of a new station is posted, and the next lookup of the chair that posted it knows where that station is.
fn use_taught_address<N: Name, R: Wait + Abort>(
    rt: &R,
    alloc: Global,
    shared: &Shared<N>,
    chair: &mut Chair<N>,
) -> Result<(), Fail> {
    let entered = shared.enter(rt, alloc, port(3)?, FIRST_OF_TWELVE)?;
    assert_that(rt, entered.pass.is_none(), "no pass");
    assert_that(rt, !wrote(&entered.lines), "no line");
    let point = post_frame(rt, alloc, shared, chair)?;
    let seen = decide_answer(chair)?;
    assert_taught(rt, seen, point)
}

/// A frame at a port of the chip is held and posted.
fn use_frame<N: Name, R: Wait + Abort>(
    rt: &R,
    alloc: Global,
    shared: &Shared<N>,
    chair: &mut Chair<N>,
) -> Result<(), Fail> {
    let entered = shared.enter(rt, alloc, port(1)?, FRAME)?;
    assert_that(rt, entered.pass.is_some(), "a pass");
    assert_that(rt, wrote(&entered.lines), "lines");
    let _point = post_frame(rt, alloc, shared, chair)?;
    Ok(())
}

/// Each call but `lock`, `accept` and `turn`, where it has work (the one update is applied by `turns`): a frame at a port of the chip is
/// held, posted and reported; one sweep finds its station used, the next forgets it. Then a frame of a new station is posted.
fn use_each_call<N: Name, R: Wait + Abort>(
    rt: &R,
    alloc: Global,
    shared: &Shared<N>,
    chair: &mut Chair<N>,
) -> Result<(), Fail>
    requires { has_chip N.board.domains 1 ≡ true }
{
    use_frame(rt, alloc, shared, chair)?;
    assert_that(
        rt,
        is_done(&acted(shared.report(rt, alloc, Dom::CHIP))?),
        "a report",
    );
    shared.turns(rt, alloc, Dom::CHIP, 2)?;
    assert_that(
        rt,
        is_done(&acted(shared.sweep(rt, alloc, Dom::CHIP))?),
        "a sweep",
    );
    assert_that(
        rt,
        is_done(&acted(shared.sweep(rt, alloc, Dom::CHIP))?),
        "a sweep",
    );
    assert_that(rt, is_done(&shared.publish(rt, alloc)?), "a publication");
    use_taught_address(rt, alloc, shared, chair)
}

fn use_locks<N: Name, R: Wait + Abort>(
    rt: &R,
    alloc: Global,
    ran: Ran,
    seat: Seat,
) -> Result<(), Fail>
    requires board { ran.board ≡ N.board }
    requires setup { ran.setup ≡ record { domains = N.board.domains; own = N.own } }
    requires chips { chip_domains N.board.domains ≡ 1 ∷ [] }
    requires seat { seat ≡ newcomer N.board }
{
    let mut ran = ran;
    let mut chair = Chair::<N>::new(seat);
    match begun_queue(rt, alloc, &mut ran) {
        Ok(queues) => {
            let shared = Shared::<N>::make(rt, alloc, ran, queues)?;
            let used = use_each_call(rt, alloc, &shared, &mut chair);
            let book = shared.close().book(rt);
            used?;
            // The first post and the first sweep change nothing, so of the calls the report, the second sweep and the second post alone
            // are followed by a publication.
            assert_same(rt, &book.steps.len(), &18, "the steps");
            Ok(())
        }
        Err(error) => {
            let _book = ran.book(rt);
            Err(error)
        }
    }
}

#[test]
fn each_call_has_work(rt: HostRuntime) -> Result<(), Fail> {
    serve_threads::<Brand>();
    let alloc = rt.alloc();
    let domains = domains()?;
    let (board, mut seats) = Board::make(&rt, alloc, &domains, 1)?;
    let Some(seat) = seats.next() else {
        unreachable!()
    };
    let plane = Plane::make(&rt, alloc, domains, Mac::FIRST_OWN, board)?;
    use_locks::<Brand, HostRuntime>(&rt, alloc, Ran::make(alloc, plane), seat)
}
