//! The steps before a scenario's first frame, done as they are given.
ghost use Rattle.std.specs.Prelude.{◌≡◌, ◌≤◌, [], length, drop, true, false, IfOk, OnOk};
ghost use Rattle.std.specs.List.{list_all};
ghost use Rattle.br_model.specs.Program.LiveRun.{from_frame, until_frame};
ghost use Rattle.br_model.specs.Table.Domains.{chip_domains};
ghost use Rattle.br_model.specs.Text.LineForms.{comes_by_line};
ghost use Rattle.plane_record.specs.Pasts.{after, world_of};
ghost use Rattle.live_thread.specs.Taking.{behind};
ghost use Rattle.live_thread.specs.Worlds.{IsIdle};

use crate::NoMemory;
use br_model::steps::{Event, Step};
use plane_record::Ran;
use std::alloc::Global;
use std::sync::Wait;
use table_publish::Seat;

/// Does a step that a line of a scenario can give, where no frame is held.
fn do_step<R: Wait>(
    rt: &R,
    alloc: Global,
    ran: &mut Ran,
    seat: &mut Seat,
    step: &Step,
) -> Result<(), NoMemory>
    requires seat { seat.old.board ≡ ran.old.board }
    requires by_line { comes_by_line false (chip_domains ran.old.setup.domains) step.now ≡ true }
    requires held { (world_of ran.old).held ≡ [] }
    ensures ok { OnOk result (ran.new ≡ after ran.old step.now) }
    ensures board { seat.new.board ≡ seat.old.board }
{
    match step {
        Step::Rx { port, bytes } => {
            ran.enter(alloc, *port, bytes.as_slice())?;
        }
        Step::Cmd(command) => {
            ran.accept(alloc, &Event::Cmd(*command))?;
        }
        Step::Now(moment) => {
            ran.accept(alloc, &Event::Moment(*moment))?;
        }
        Step::Serve => {
            ran.serve(alloc, seat)?;
        }
        Step::Hold => {
            ran.open_frame(alloc)?;
        }
        // None is held, so it is refused.
        Step::Post { id, .. } => {
            ran.post_floor(alloc, *id, None)?;
        }
        Step::Turn(dom) => {
            ran.turn_next(alloc, *dom)?;
        }
        Step::Report(dom) => {
            ran.report(alloc, *dom)?;
        }
        Step::Sweep(dom) => {
            ran.sweep(alloc, *dom)?;
        }
        Step::Publish => {
            ran.publish(rt, alloc)?;
        }
    }
    Ok(())
}

/// Does the steps before the first frame. The answer is how many they are: there the others begin.
pub fn open<R: Wait>(
    rt: &R,
    alloc: Global,
    ran: &mut Ran,
    seat: &mut Seat,
    steps: &[Step],
) -> Result<usize, NoMemory>
    requires seat { seat.old.board ≡ ran.old.board }
    requires by_line { list_all (comes_by_line false (chip_domains ran.old.setup.domains)) steps.now ≡ true }
    requires idle { IsIdle (world_of ran.old) }
    ensures opened { OnOk result (ran.new ≡ behind ran.old (until_frame steps.now)) }
    ensures later { IfOk result (λ n. (n ≤ length steps.now) × (drop n steps.now ≡ from_frame steps.now)) }
    ensures idle { OnOk result (IsIdle (world_of ran.new)) }
    ensures board { seat.new.board ≡ seat.old.board }
{
    for place in 0..steps.len() {
        let step = &steps[place];
        if step.is_frame() {
            return Ok(place);
        }
        do_step(rt, alloc, ran, seat, step)?;
    }
    Ok(steps.len())
}
