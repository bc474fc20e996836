//! What was accepted is published at once, as the lines tell it.
ghost use Rattle.std.specs.Prelude.{◌≡◌, ℕ, List};
ghost use Rattle.std.specs.List.{list_all};
ghost use Rattle.transcript_lines.specs.Rows.{expand, expand_row};
ghost use Rattle.live_book.specs.Reading.{is_end_published, is_published, may_change};

use br_model::steps::{Refusal, Step};
use transcript_lines::Row;

fn may_change(steps: &[Step], first: usize, drain: usize, number: u32) -> bool
    ensures { result ≡ may_change steps.now first drain number }
{
    let number = number as usize;
    number <= first || drain < number || steps.get(number).is_some_and(Step::is_publish)
}

fn is_end_published(
    answer: Option<(u32, Result<u32, Refusal>)>,
    steps: &[Step],
    first: usize,
    drain: usize,
) -> bool
    ensures { result ≡ is_end_published (may_change steps.now first drain) answer }
{
    match answer {
        Some((step, Ok(changes))) => changes == 0 || may_change(steps, first, drain, step),
        Some((_, Err(_))) | None => true,
    }
}

fn is_published(row: &Row, steps: &[Step], first: usize, drain: usize) -> bool
    ensures { (arena : List ℕ) → result ≡ list_all (is_published (may_change steps.now first drain)) (expand_row arena row.now) }
{
    is_end_published(row.answer(), steps, first, drain)
}

/// Whether each step that accepted changes, behind the first part and before the drain, is directly followed by a publication.
pub(crate) fn are_published(rows: &[Row], steps: &[Step], first: usize, drain: usize) -> bool
    ensures { (arena : List ℕ) → result ≡ list_all (is_published (may_change steps.now first drain)) (expand arena rows.now) }
{
    for row in rows {
        if !is_published(row, steps, first, drain) {
            return false;
        }
    }
    true
}
