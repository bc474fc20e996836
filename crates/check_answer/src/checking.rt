//! `check`: a scenario, and the transcript behind it, which is compared with what is told of the scenario.
ghost use Rattle.std.specs.Prelude.{◌≡◌, ◌∷◌, ◌++◌, ◌<◌, ◌≤◌, ◌^◌, [], List, ℕ, IfOk, OnOk, Some, codes, decimal, length, true};
ghost use Rattle.br_model.specs.Program.Checks.{answer_text, with_text};
ghost use Rattle.br_model.specs.Table.Limits.{most_bytes};
ghost use Rattle.br_model.specs.Text.Scenario.{behind_end};
ghost use Rattle.run_io.specs.Causes.{Rose};
ghost use Rattle.scenario_reader.specs.Whole.{SaysWhole};
ghost use Rattle.transcript_check.specs.Checking.{difference_of};
ghost use Rattle.run_status.specs.Stopping.{Caused as StopsBy};
ghost use Rattle.check_answer.specs.Checking.{ChecksSo, IsFound, IsFoundBad, IsSaid, SeesBadOr, answer_status};
ghost use Rattle.run_status.specs.Statuses.{Caused, EndsIn, call_of, check_ways};

use br_model::NoMemory;
use br_model::limits::MOST_BYTES;
use br_model::scenario::LineWhy;
use run_io::sinks::Sink;
use run_io::sources::Source;
use run_io::whole::{Stop as TakingStop, take_all};
use run_status::{Status, Stop, bad_text, put_last};
use scenario_reader::{Last, Whole, read_scenario};
use std::alloc::Global;
use transcript_check::{Answer, compare};

/// All that a check writes, and its status.
#[derive(Drop)]
struct Found {
    text: Vec<u8>,
    status: Status,
}

/// Adds a line: the word, and the text behind it if there is any.
fn add_line(word: &[u8], text: &[u8], to: &mut Vec<u8>) -> Result<(), NoMemory>
    ensures { OnOk result (to.new.items ≡ to.old.items ++ with_text word.now text.now) }
{
    to.extend_from_slice(word)?;
    if text.is_empty() {
        to.push(b'\n')?;
        return Ok(());
    }
    to.push(b' ')?;
    to.extend_from_slice(text)?;
    to.push(b'\n')?;
    Ok(())
}

/// The first line where a line differs.
fn line_of_no(alloc: Global, line: u32) -> Result<Vec<u8>, NoMemory>
    ensures { IfOk result (λ text. text.items ≡ codes "no " ++ (decimal line ++ 10 ∷ [])) }
{
    Ok(format!(in alloc; "no {line}\n")?.into_bytes())
}

/// The lines where this line differs.
fn lines_of_no(alloc: Global, line: u32, expected: &[u8], found: &[u8]) -> Result<Vec<u8>, NoMemory>
    ensures { IfOk result (λ lines. lines.items ≡ answer_text (Some (record { line = line; expected = expected.now; found = found.now }))) }
{
    let mut lines = line_of_no(alloc, line)?;
    add_line(b"expected", expected, &mut lines)?;
    add_line(b"found", found, &mut lines)?;
    Ok(lines)
}

/// The lines of an answer.
fn lines_of_answer(alloc: Global, answer: &Answer) -> Result<Vec<u8>, NoMemory>
    ensures { IfOk result (λ lines. lines.items ≡ answer_text (difference_of answer.now)) }
{
    match answer {
        Answer::Yes => Vec::from_slice(alloc, b"yes\n"),
        Answer::No {
            line,
            expected,
            found,
        } => lines_of_no(alloc, *line, expected.as_slice(), found.as_slice()),
    }
}

fn status_of_answer(answer: &Answer) -> Status
    ensures { result ≡ answer_status (difference_of answer.now) }
{
    match answer {
        Answer::Yes => Status::Ok,
        Answer::No { .. } => Status::No,
    }
}

/// The scenario has this bad line.
fn found_bad(alloc: Global, line: u32, why: LineWhy) -> Result<Found, NoMemory>
    ensures { IfOk result (IsFoundBad line why) }
{
    let text = bad_text(alloc, line, why)?;
    Ok(Found {
        text: text.into_bytes(),
        status: Status::BadLine,
    })
}

/// What is found in a scenario and the transcript behind its end.
fn find(alloc: Global, scenario: Whole, transcript: &[u8]) -> Result<Found, NoMemory>
    requires says { (bytes : List ℕ) × SaysWhole true bytes scenario }
    requires few { length transcript.now < 2 ^ 28 }
    ensures { IfOk result (λ found. (bytes : List ℕ) → SaysWhole true bytes scenario → transcript.now ≡ behind_end true bytes
        → IsFound bytes found) }
{
    match scenario.close() {
        Last::Bad(line, why) => found_bad(alloc, line, why),
        Last::Ended => {
            let answer = compare(alloc, scenario, transcript)?;
            Ok(Found {
                text: lines_of_answer(alloc, &answer)?,
                status: status_of_answer(&answer),
            })
        }
    }
}

/// What is found in these bytes, which are all.
fn find_whole(alloc: Global, bytes: &[u8]) -> Result<Found, NoMemory>
    requires { length bytes.now < most_bytes }
    ensures { IfOk result (IsFound bytes.now) }
{
    let scenario = read_scenario(alloc, true, bytes)?;
    let behind = scenario.behind();
    find(alloc, scenario, &bytes[behind..])
}

/// What is found in the first bytes of an input, of which no more are taken for this cause: a bad line, whatever follows, or nothing.
fn find_bad(alloc: Global, bytes: &[u8], stop: Stop) -> Result<Found, Stop>
    requires { length bytes.now ≤ most_bytes }
    ensures { SeesBadOr bytes.now stop result }
{
    let scenario = read_scenario(alloc, true, bytes)?;
    match scenario.last() {
        Some(Last::Bad(line, why)) => Ok(found_bad(alloc, line, why)?),
        Some(Last::Ended) => Err(stop),
        None => Err(stop),
    }
}

/// Takes all of the source, and says what is found in it.
fn find_in<S: Source>(alloc: Global, source: &mut S) -> Result<Found, Stop>
    ensures checks { ChecksSo (Rose (S.faults source.old) (S.faults source.new)) (S.left source.old) (S.left source.new) result }
    ensures said { IfOk result (λ found. IsSaid found.status) }
    ensures cause { StopsBy (S.faults source.old) (S.faults source.new) result }
{
    let taken = take_all(alloc, source, MOST_BYTES)?;
    let bytes = taken.bytes.as_slice();
    match taken.stop {
        TakingStop::Ended => Ok(find_whole(alloc, bytes)?),
        TakingStop::Full => find_bad(alloc, bytes, Stop::TooLong),
        TakingStop::ReadFault => find_bad(alloc, bytes, Stop::ReadFault),
    }
}

/// `check`: a bad line comes before everything, and a fault of reading or too many bytes before a difference.
pub fn check_all<S: Source, K: Sink>(alloc: Global, source: &mut S, sink: &mut K) -> Status
    ensures outcome { EndsIn (check_ways (Rose (S.faults source.old) (S.faults source.new))) result
        (call_of (S.left source.old) (S.left source.new) (K.taken sink.old) (K.taken sink.new)) }
    ensures cause { Caused result (S.faults source.old) (S.faults source.new) (K.faults sink.old) (K.faults sink.new) }
{
    match find_in(alloc, source) {
        Ok(found) => put_last(sink, found.text.as_slice(), found.status),
        Err(stop) => put_last(sink, stop.line(), stop.status()),
    }
}
