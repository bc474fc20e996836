//! A scenario on one thread.
ghost use Rattle.std.specs.Prelude.{◌≡◌, [], ◌∷◌, true, false, IfOk};
ghost use Rattle.std.specs.List.{list_all};
ghost use Rattle.br_model.specs.Table.Domains.{chip_domains};
ghost use Rattle.br_model.specs.Text.LineForms.{comes_by_line};

use super::common::{assert_same, assert_that, is_done};
use br_model::bytes::Bytes;
use br_model::domains::Domains;
use br_model::numbers::{Dom, Mac, Port};
use br_model::steps::{Command, Step};
use live_workers::run_alone;
use std::alloc::Global;
use std::process::Abort;
use std::sync::Wait;
use std::test::Fail;

pub(crate) fn port(number: u8) -> Result<Port, Fail>
    ensures { IfOk result (λ p. p ≡ number) }
{
    Ok(Port::new(number).ok_or("port")?)
}

/// A frame of one station to another, which enters at the port.
pub(crate) fn frame(alloc: Global, number: u8, to: u8, from: u8) -> Result<Step, Fail>
    ensures { IfOk result (λ s. comes_by_line false (1 ∷ []) s ≡ true) }
{
    let bytes = [2, 0, 0, 0, 0, to, 2, 0, 0, 0, 0, from, 0x88, 0xB5, 1, 2];
    Ok(Step::Rx {
        port: port(number)?,
        bytes: Bytes::copy_of(alloc, &bytes)?,
    })
}

/// One port of the chip, and two of software.
fn domains() -> Result<Domains, Fail>
    ensures { IfOk result (λ d. chip_domains d ≡ 1 ∷ []) }
{
    let mut domains = Domains::make();
    domains.set(port(1)?, Dom::CHIP);
    domains.set(port(2)?, Dom::SOFTWARE);
    domains.set(port(3)?, Dom::SOFTWARE);
    Ok(domains)
}

/// The steps before the first frame, among them a post of a frame that isn't held.
fn opening(alloc: Global) -> Result<Vec<Step>, Fail>
    ensures { IfOk result (λ v. list_all (comes_by_line false (1 ∷ [])) v.items ≡ true) }
{
    let mut steps = Vec::new(alloc);
    steps.push(Step::Cmd(Command::PortUp(port(1)?)))?;
    steps.push(Step::Cmd(Command::PortUp(port(2)?)))?;
    steps.push(Step::Hold)?;
    steps.push(Step::Post { id: 1, point: None })?;
    steps.push(Step::Cmd(Command::PortUp(port(3)?)))?;
    Ok(steps)
}

fn given(alloc: Global) -> Result<Vec<Step>, Fail>
    ensures { IfOk result (λ v. list_all (comes_by_line false (1 ∷ [])) v.items ≡ true) }
{
    let mut steps = opening(alloc)?;
    steps.push(frame(alloc, 2, 11, 10)?)?;
    steps.push(Step::Hold)?;
    steps.push(Step::Sweep(Dom::CHIP))?;
    steps.push(frame(alloc, 1, 10, 11)?)?;
    steps.push(Step::Turn(Dom::CHIP))?;
    steps.push(Step::Post { id: 1, point: None })?;
    Ok(steps)
}

/// The steps that are taken of it. The first frame teaches its station, and the chip reports that of the second one.
fn wanted(alloc: Global) -> Result<Vec<Step>, Fail> {
    let mut steps = opening(alloc)?;
    steps.push(frame(alloc, 2, 11, 10)?)?;
    steps.push(Step::Serve)?;
    steps.push(Step::Publish)?;
    steps.push(Step::Sweep(Dom::CHIP))?;
    steps.push(frame(alloc, 1, 10, 11)?)?;
    steps.push(Step::Serve)?;
    steps.push(Step::Report(Dom::CHIP))?;
    steps.push(Step::Turn(Dom::CHIP))?;
    steps.push(Step::Turn(Dom::CHIP))?;
    steps.push(Step::Publish)?;
    Ok(steps)
}

fn assert_steps(rt: &impl Abort, found: &[Step], wanted: &[Step]) {
    assert_same(rt, &found.len(), &wanted.len(), "how many steps");
    for (step, other) in found.iter().zip(wanted) {
        assert_that(rt, *step == *other, "a step");
    }
}

#[test]
fn frames_are_served_at_once(rt: HostRuntime) -> Result<(), Fail> {
    let alloc = rt.alloc();
    let given = given(alloc)?;
    let taken = run_alone(&rt, alloc, domains()?, Mac::new([2, 0, 0, 0, 0, 1]), &given)?;
    let wanted = wanted(alloc)?;
    assert_steps(&rt, taken.book.steps.as_slice(), &wanted);
    assert_that(&rt, is_done(&taken.end), "the end");
    Ok(())
}
