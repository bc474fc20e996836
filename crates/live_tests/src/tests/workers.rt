//! Scenarios by several workers.
ghost use Rattle.std.specs.Prelude.{◌≡◌, ◌<◌, ◌≤◌, [], ◌∷◌, true, false, IfOk};
ghost use Rattle.std.specs.List.{list_all};
ghost use Rattle.br_model.specs.Table.Domains.{chip_domains};
ghost use Rattle.br_model.specs.Text.LineForms.{comes_by_line};

use super::alone::{frame, port};
use super::common::{assert_same, assert_that, is_done};
use br_model::domains::Domains;
use br_model::numbers::{Dom, Mac};
use br_model::steps::{Command, Step};
use live_workers::take_steps;
use port_workers::{Gate, Open};
use std::alloc::Global;
use std::process::Abort;
use std::sync::Wait;
use std::sync::atomic::{AtomicU64, Ordering};
use std::test::Fail;
use std::thread::Threads;

/// The gate of so many workers. Each looks at its frame whether all have come.
#[derive(Drop)]
struct Meet {
    workers: u64,
    here: AtomicU64,
    met: AtomicU64,
}

impl Gate for Meet {
    fn held(&self, _id: u32) {
        self.here.fetch_add(1, Ordering::SeqCst);
        for _ in 0..4_294_967_296u64 {
            if self.here.load(Ordering::SeqCst) >= self.workers {
                self.met.fetch_add(1, Ordering::SeqCst);
                return;
            }
        }
    }
}

/// Two ports of software.
fn software() -> Result<Domains, Fail>
    ensures { IfOk result (λ d. chip_domains d ≡ 1 ∷ []) }
{
    let mut domains = Domains::make();
    domains.set(port(1)?, Dom::SOFTWARE);
    domains.set(port(2)?, Dom::SOFTWARE);
    Ok(domains)
}

/// One port of the chip, and one of software.
fn with_chip() -> Result<Domains, Fail>
    ensures { IfOk result (λ d. chip_domains d ≡ 1 ∷ []) }
{
    let mut domains = Domains::make();
    domains.set(port(1)?, Dom::CHIP);
    domains.set(port(2)?, Dom::SOFTWARE);
    Ok(domains)
}

/// The ports come up, and then a frame of a new station enters at each of them, so many times. All are to a station that never sends.
fn given(alloc: Global, times: usize) -> Result<Vec<Step>, Fail>
    ensures { IfOk result (λ v. list_all (comes_by_line false (1 ∷ [])) v.items ≡ true) }
{
    let mut steps = Vec::new(alloc);
    steps.push(Step::Cmd(Command::PortUp(port(1)?)))?;
    steps.push(Step::Cmd(Command::PortUp(port(2)?)))?;
    steps.push(Step::Publish)?;
    let mut from = 10u8;
    for _ in 0..times {
        steps.push(frame(alloc, 1, 9, from)?)?;
        steps.push(frame(alloc, 2, 9, from.wrapping_add(100))?)?;
        from = from.wrapping_add(1);
    }
    Ok(steps)
}

/// How many frames entered, were held, were posted and were served.
fn counts(steps: &[Step]) -> [usize; 4] {
    let (mut entered, mut held, mut posted, mut served) = (0usize, 0usize, 0usize, 0usize);
    for step in steps {
        match step {
            Step::Rx { .. } => entered = entered.wrapping_add(1),
            Step::Hold => held = held.wrapping_add(1),
            Step::Post { .. } => posted = posted.wrapping_add(1),
            Step::Serve => served = served.wrapping_add(1),
            _ => {}
        }
    }
    [entered, held, posted, served]
}

/// How many frames were held before the first was posted.
fn held_first(steps: &[Step]) -> usize {
    let mut held = 0usize;
    for step in steps {
        match step {
            Step::Hold => held = held.wrapping_add(1),
            Step::Post { .. } => return held,
            _ => {}
        }
    }
    held
}

/// Of so many workers each comes to the gate before any leaves it. There are so many frames, at least one for each, and each is held before
/// the first is posted.
fn all_meet<R: Threads + Wait + Abort + Sync>(
    rt: &R,
    alloc: Global,
    workers: usize,
    steps: &[Step],
    frames: usize,
) -> Result<(), Fail>
    requires workers { (0 < workers) × (workers ≤ 16) }
    requires by_line { list_all (comes_by_line false (1 ∷ [])) steps.now ≡ true }
{
    let gate = Meet {
        workers: workers as u64,
        here: AtomicU64::new(0),
        met: AtomicU64::new(0),
    };
    let domains = software()?;
    let taken = take_steps(rt, alloc, &gate, workers, domains, Mac::FIRST_OWN, steps)?;
    let took = taken.book.steps.as_slice();
    assert_same(
        rt,
        &gate.met.load(Ordering::SeqCst),
        &(frames as u64),
        "how many met",
    );
    assert_same(rt, &held_first(took), &frames, "how many were held first");
    assert_same(
        rt,
        &counts(took),
        &[frames, frames, frames, 0],
        "how many steps",
    );
    Ok(())
}

#[test]
fn as_many_workers_meet_at_the_gate(rt: HostRuntime) -> Result<(), Fail> {
    let alloc = rt.alloc();
    let two = given(alloc, 1)?;
    all_meet(&rt, alloc, 2, &two, 2)?;
    let four = given(alloc, 2)?;
    all_meet(&rt, alloc, 3, &four, 4)?;
    let sixteen = given(alloc, 8)?;
    all_meet(&rt, alloc, 16, &sixteen, 16)
}

/// Whether so many workers post all of these frames.
fn post_all<R: Threads + Wait + Sync>(
    rt: &R,
    alloc: Global,
    workers: usize,
    steps: &[Step],
) -> Result<bool, Fail>
    requires workers { (0 < workers) × (workers ≤ 16) }
    requires by_line { list_all (comes_by_line false (1 ∷ [])) steps.now ≡ true }
{
    let domains = software()?;
    let taken = take_steps(rt, alloc, &Open, workers, domains, Mac::FIRST_OWN, steps)?;
    Ok(counts(taken.book.steps.as_slice()) == [40, 40, 40, 0] && is_done(&taken.end))
}

/// No frame is left to the thread that ends the run.
#[test]
fn workers_leave_no_frame(rt: HostRuntime) -> Result<(), Fail> {
    let alloc = rt.alloc();
    let given = given(alloc, 20)?;
    assert_that(&rt, post_all(&rt, alloc, 1, &given)?, "one worker");
    assert_that(&rt, post_all(&rt, alloc, 2, &given)?, "two workers");
    assert_that(&rt, post_all(&rt, alloc, 16, &given)?, "sixteen workers");
    Ok(())
}

/// How many reports and turns stand before the last post.
fn served_first(steps: &[Step]) -> [usize; 2] {
    let (mut reports, mut turns) = (0usize, 0usize);
    let mut before = [0usize, 0usize];
    for step in steps {
        match step {
            Step::Report(_) => reports = reports.wrapping_add(1),
            Step::Turn(_) => turns = turns.wrapping_add(1),
            Step::Post { .. } => before = [reports, turns],
            _ => {}
        }
    }
    before
}

/// So many workers take these steps, of 130 frames. How many reports and turns stand before their last post.
fn serve_all<R: Threads + Wait + Abort + Sync>(
    rt: &R,
    alloc: Global,
    workers: usize,
    steps: &[Step],
) -> Result<[usize; 2], Fail>
    requires workers { (0 < workers) × (workers ≤ 16) }
    requires by_line { list_all (comes_by_line false (1 ∷ [])) steps.now ≡ true }
{
    let domains = with_chip()?;
    let taken = take_steps(rt, alloc, &Open, workers, domains, Mac::FIRST_OWN, steps)?;
    let counts = counts(taken.book.steps.as_slice());
    assert_same(rt, &counts, &[130, 130, 130, 0], "how many steps");
    assert_that(rt, is_done(&taken.end), "the end");
    Ok(served_first(taken.book.steps.as_slice()))
}

/// A worker posts at most 64 frames before it serves the chips. So of 130 frames one worker posts some behind a report and a turn, and two
/// workers behind a report. (Of the turns, one of two workers may leave all to the other.) The thread that ends the run posts none.
#[test]
fn workers_serve_the_chip(rt: HostRuntime) -> Result<(), Fail> {
    let alloc = rt.alloc();
    let given = given(alloc, 65)?;
    let [reports, turns] = serve_all(&rt, alloc, 1, &given)?;
    assert_that(&rt, reports > 0, "reports to one worker");
    assert_that(&rt, turns > 0, "turns by one worker");
    let [reports, _turns] = serve_all(&rt, alloc, 2, &given)?;
    assert_that(&rt, reports > 0, "reports to two workers");
    Ok(())
}
