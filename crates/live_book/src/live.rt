//! The test of a closed book.
ghost use Rattle.std.specs.Prelude.{◌≡◌, ◌&&◌, ℕ, List, IfOk};
ghost use Rattle.std.specs.List.{list_all};
ghost use Rattle.br_model.specs.Program.LiveRun.{ends_with_publish, is_live_run};
ghost use Rattle.br_model.specs.Text.Scenario.{Scenario};
ghost use Rattle.transcript_lines.specs.Rows.{expand};
ghost use Rattle.live_book.specs.Ends.{IsBook, is_idle};
ghost use Rattle.live_book.specs.Reading.{is_published, may_change, was_refused};

use crate::drained::{Remains, is_drained};
use crate::lanes::keep_order;
use crate::published::are_published;
use crate::{NoMemory, parts};
use br_model::steps::Step;
use std::alloc::Global;
use transcript_lines::{Lines, Row};

/// Whether the steps end with a publication, when nothing is left to do.
fn is_finished(rows: &[Row], steps: &[Step], left: &Remains) -> bool
    ensures { (arena : List ℕ) → result ≡ (ends_with_publish steps.now
        && (is_idle left.now && list_all (was_refused steps.now (expand arena rows.now)) left.now.reporting)) }
{
    parts::ends_with_publish(steps) && is_drained(left, rows, steps)
}

/// Whether what was accepted behind the first part is published at once, and the steps are finished.
fn is_settled(rows: &[Row], steps: &[Step], first: usize, drain: usize, left: &Remains) -> bool
    ensures { (arena : List ℕ) → result ≡ (list_all (is_published (may_change steps.now first drain)) (expand arena rows.now)
        && (ends_with_publish steps.now && (is_idle left.now && list_all (was_refused steps.now (expand arena rows.now)) left.now.reporting))) }
{
    are_published(rows, steps, first, drain) && is_finished(rows, steps, left)
}

/// Whether these steps with their lines, which left so much to do, are a live run of a scenario of the given steps.
///
/// It goes over the steps, the lines and the given steps a number of times that doesn't grow with them, and once more over the lines for
/// each chip that has reports left.
pub fn is_live(
    alloc: Global,
    steps: &[Step],
    lines: &Lines,
    given: &[Step],
    left: &Remains,
) -> Result<bool, NoMemory>
    ensures { IfOk result (λ live. (sc : Scenario) → IsBook sc given.now steps.now lines.now.lines left.now → live ≡ is_live_run steps.now sc) }
{
    let opening = parts::before_frame(given);
    let Some(first) = parts::first_part(&given[..opening], steps) else {
        return Ok(false);
    };
    let (rows, _) = lines.parts();
    let drain = parts::before_drain(steps);
    if !is_settled(rows, steps, first, drain, left) {
        return Ok(false);
    }
    keep_order(alloc, &steps[first..], &given[opening..])
}
