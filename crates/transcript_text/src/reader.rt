//! Lines, read from their words.
ghost use Rattle.std.specs.Prelude.{◌≡◌, ◌↔◌, true, length, IfOk};
ghost use Rattle.br_model.specs.declared.transcript.Line.{Line as ALine};
ghost use Rattle.br_model.specs.Text.Transcript.{line_text};
ghost use Rattle.transcript_text.specs.Lines.{is_line};
ghost use Rattle.transcript_text.specs.Reading.{word, says, chip as chip_of, unread as unread_of, soft as soft_of, held as held_of, tx as tx_of, ctl as ctl_of, overrun as overrun_of, done as done_of, refused as refused_of, ended as ended_of};

use crate::fields::{class, fault, frame, number, port, refusal};
use crate::words::{find_words, text};
use arrayvec::ArrayVec;
use br_model::NoMemory;
use br_model::transcript::Line;
use std::alloc::Global;

fn chip(id: &str, changes: &str, applied: &str, class_word: &str) -> Option<Line>
    ensures { result ≡ chip_of id.now changes.now applied.now class_word.now }
{
    Some(Line::Chip {
        id: number(id)?,
        changes: number(changes)?,
        applied: number(applied)?,
        class: class(class_word)?,
    })
}

fn unread(id: &str, why: &str) -> Option<Line>
    ensures { result ≡ unread_of id.now why.now }
{
    Some(Line::Unread {
        id: number(id)?,
        why: fault(why)?,
    })
}

fn soft(id: &str, point: &str) -> Option<Line>
    ensures { result ≡ soft_of id.now point.now }
{
    Some(Line::Soft {
        id: number(id)?,
        point: number(point)?,
    })
}

fn held(id: &str, floor: &str) -> Option<Line>
    ensures { result ≡ held_of id.now floor.now }
{
    Some(Line::Held {
        id: number(id)?,
        floor: number(floor)?,
    })
}

fn tx(alloc: Global, id: &str, out: &str, digits: &str) -> Result<Option<Line>, NoMemory>
    ensures { IfOk result (λ line. line ≡ tx_of id.now out.now digits.now) }
{
    let (Some(id), Some(port)) = (number(id), port(out)) else {
        return Ok(None);
    };
    match frame(alloc, digits)? {
        Some(bytes) => Ok(Some(Line::Tx { id, port, bytes })),
        None => Ok(None),
    }
}

fn ctl(alloc: Global, out: &str, digits: &str) -> Result<Option<Line>, NoMemory>
    ensures { IfOk result (λ line. line ≡ ctl_of out.now digits.now) }
{
    let Some(port) = port(out) else {
        return Ok(None);
    };
    match frame(alloc, digits)? {
        Some(bytes) => Ok(Some(Line::Ctl { port, bytes })),
        None => Ok(None),
    }
}

fn overrun(id: &str) -> Option<Line>
    ensures { result ≡ overrun_of id.now }
{
    Some(Line::Overrun { id: number(id)? })
}

fn done(step: &str, changes: &str) -> Option<Line>
    ensures { result ≡ done_of step.now changes.now }
{
    Some(Line::Done {
        step: number(step)?,
        changes: number(changes)?,
    })
}

fn refused(step: &str, why: &str) -> Option<Line>
    ensures { result ≡ refused_of step.now why.now }
{
    Some(Line::Refused {
        step: number(step)?,
        refusal: refusal(why)?,
    })
}

fn end(steps: &str, changes: &str, pending: &str, waiting: &str) -> Option<Line>
    ensures { result ≡ ended_of steps.now changes.now pending.now waiting.now }
{
    Some(Line::End {
        steps: number(steps)?,
        changes: number(changes)?,
        pending: number(pending)?,
        waiting: number(waiting)?,
    })
}

#[tactic(auto, using(br_model::proofs::Text::Words::words))]
fn read_words(alloc: Global, words: &[&str]) -> Result<Option<Line>, NoMemory>
    ensures { IfOk result (λ line. line ≡ says (length words.now) (word words.now)) }
{
    match *words {
        ["chip", id, "at", changes, applied, class] => Ok(chip(id, changes, applied, class)),
        ["unread", id, why] => Ok(unread(id, why)),
        ["soft", id, "at", point] => Ok(soft(id, point)),
        ["held", id, floor] => Ok(held(id, floor)),
        ["tx", id, port, digits] => tx(alloc, id, port, digits),
        ["ctl", port, digits] => ctl(alloc, port, digits),
        ["overrun", id] => Ok(overrun(id)),
        ["ok", step, changes] => Ok(done(step, changes)),
        ["refused", step, why] => Ok(refused(step, why)),
        ["end", steps, changes, pending, waiting] => Ok(end(steps, changes, pending, waiting)),
        _ => Ok(None),
    }
}

/// The line with this text, its line feed included. `None` exactly where no line has it. No two lines have one text.
pub fn read(alloc: Global, bytes: &[u8]) -> Result<Option<Line>, NoMemory>
    ensures { IfOk result (λ line. (l : ALine) → (line ≡ Some l) ↔ ((is_line l ≡ true) × (line_text l ≡ bytes.now))) }
{
    let Some(line) = text(bytes) else {
        return Ok(None);
    };
    let mut words = ArrayVec::new();
    match find_words(line, &mut words) {
        Some(()) => read_words(alloc, words.as_slice()),
        None => Ok(None),
    }
}
