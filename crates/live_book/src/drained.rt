//! Whether nothing is left to do at the end of a run.
ghost use Rattle.std.specs.Prelude.{◌≡◌, ◌&&◌, ℕ, List};
ghost use Rattle.std.specs.List.{fold, list_all};
ghost use Rattle.transcript_lines.specs.Rows.{expand, expand_row};
ghost use Rattle.live_book.specs.Ends.{is_idle};
ghost use Rattle.live_book.specs.Reading.{refused_after, refused_by, reports, was_refused};

use br_model::numbers::Dom;
use br_model::steps::{Refusal, Step};
use lists::Items;
use transcript_lines::Row;

/// What is left to do at the end of a run.
#[derive(Drop)]
pub struct Remains {
    /// How many frames wait.
    pub waiting: usize,
    /// How many frames are held.
    pub held: usize,
    /// How many deferred changes aren't applied.
    pub pending: u32,
    /// The domains whose chips have reports that wait, ascending.
    pub reporting: Items<Dom>,
}

/// Whether the step of this number is a report of the domain's chip.
fn reports(steps: &[Step], dom: Dom, number: u32) -> bool
    ensures { result ≡ reports steps.now dom number }
{
    match steps.get((number as usize).saturating_sub(1)) {
        Some(Step::Report(d)) => *d == dom,
        _ => false,
    }
}

/// Whether the last report of the domain's chip was refused for want of room, after a step that ends so.
fn refused_by(
    before: bool,
    answer: Option<(u32, Result<u32, Refusal>)>,
    steps: &[Step],
    dom: Dom,
) -> bool
    ensures { result ≡ refused_by (reports steps.now dom) before answer }
{
    match answer {
        Some((step, Ok(_))) => before && !reports(steps, dom, step),
        Some((step, Err(refusal))) => {
            if reports(steps, dom, step) {
                refusal.number() == Refusal::HistoryFull.number()
            } else {
                before
            }
        }
        None => before,
    }
}

/// The same after a row more.
fn after_row(before: bool, row: &Row, steps: &[Step], dom: Dom) -> bool
    ensures { (arena : List ℕ) → result ≡ fold (refused_after (reports steps.now dom)) before (expand_row arena row.now) }
{
    refused_by(before, row.answer(), steps, dom)
}

fn was_refused(rows: &[Row], steps: &[Step], dom: Dom) -> bool
    ensures { (arena : List ℕ) → result ≡ was_refused steps.now (expand arena rows.now) dom }
{
    let mut refused = false;
    for row in rows {
        refused = after_row(refused, row, steps, dom);
    }
    refused
}

fn were_refused(doms: &[Dom], rows: &[Row], steps: &[Step]) -> bool
    ensures { (arena : List ℕ) → result ≡ list_all (was_refused steps.now (expand arena rows.now)) doms.now }
{
    for dom in doms {
        if !was_refused(rows, steps, *dom) {
            return false;
        }
    }
    true
}

/// Whether no frame waits or is held, and no change is pending.
fn is_idle(left: &Remains) -> bool
    ensures { result ≡ is_idle left.now }
{
    left.waiting == 0 && left.held == 0 && left.pending == 0
}

/// Whether nothing waits, is held or is pending, and the chips have reported, but for what was refused for want of room.
pub(crate) fn is_drained(left: &Remains, rows: &[Row], steps: &[Step]) -> bool
    ensures { (arena : List ℕ) → result ≡ (is_idle left.now && list_all (was_refused steps.now (expand arena rows.now)) left.now.reporting) }
{
    is_idle(left) && were_refused(left.reporting.as_slice(), rows, steps)
}
