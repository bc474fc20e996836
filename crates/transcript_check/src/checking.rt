//! Whether a transcript is what is told of a scenario.
ghost use Rattle.std.specs.Prelude.{◌≡◌, ◌<◌, ◌≤◌, ◌^◌, List, ℕ, IfOk, OnOk, true, length};
ghost use Rattle.std.specs.List.{list_all};
ghost use Rattle.br_model.specs.declared.steps.Step.{Step as StepValue};
ghost use Rattle.br_model.specs.Program.Checks.{differs};
ghost use Rattle.br_model.specs.Table.Domains.{chip_domains};
ghost use Rattle.br_model.specs.Table.Limits.{most_bytes};
ghost use Rattle.br_model.specs.Table.Setup.{Setup};
ghost use Rattle.br_model.specs.Text.LineForms.{comes_by_line};
ghost use Rattle.scenario_reader.specs.declared.reader.Last.TheVariants as Last;
ghost use Rattle.scenario_reader.specs.Whole.{SaysWhole};
ghost use Rattle.transcript_check.specs.Besides.{IsBeside};
ghost use Rattle.transcript_check.specs.Checking.{Checks, ComparesSteps, difference_of};

use crate::NoMemory;
use crate::beside::Beside;
use crate::cursor::Difference;
use br_model::bytes::Bytes;
use br_model::scenario::LineWhy;
use br_model::steps::Step;
use scenario_reader::{Last, Whole, read_scenario};
use std::alloc::{AllocError, Global};

/// What a check finds.
#[derive(Drop)]
pub enum Answer {
    /// Each line is as it is told.
    Yes,
    /// The first line that differs, as it should be and as it is; nothing where that text has ended.
    No {
        line: u32,
        expected: Bytes,
        found: Bytes,
    },
}

/// Why nothing is found.
#[derive(Clone, Copy, PartialEq, Eq)]
pub enum CheckFault {
    /// This line of the scenario is bad, for this cause.
    BadLine { line: u32, why: LineWhy },
    NoMemory,
}

impl From<AllocError> for CheckFault {
    ghost use Rattle.transcript_check.specs.declared.checking.CheckFault.TheVariants as faults;

    ghost from_gives = { λ _ fault. fault ≡ faults.NoMemory };

    fn from(_: AllocError) -> CheckFault {
        CheckFault::NoMemory
    }
}

/// Does these steps, and compares their lines.
fn compare_steps(alloc: Global, steps: Vec<Step>, beside: &mut Beside<'_>) -> Result<(), NoMemory>
    requires stands { (transcript : List ℕ) × (setup : Setup) × (before : List StepValue)
        × IsBeside transcript setup before beside.old.world.value beside.old.cursor beside.old.differs }
    requires by_line { list_all (comes_by_line true (chip_domains beside.old.world.value.setup.domains)) steps.items ≡ true }
    ensures { OnOk result (ComparesSteps beside.old steps.items beside.new) }
{
    for step in steps {
        beside.step(alloc, step)?;
    }
    Ok(())
}

fn answer_of(difference: Option<Difference>) -> Answer
    ensures { difference_of result ≡ difference }
{
    match difference {
        None => Answer::Yes,
        Some(difference) => Answer::No {
            line: difference.line,
            expected: difference.expected,
            found: difference.found,
        },
    }
}

/// Compares a transcript with what is told of a scenario that ends well: it is run by the control plane and tables of software alone.
pub fn compare(alloc: Global, scenario: Whole, transcript: &[u8]) -> Result<Answer, NoMemory>
    requires says { (bytes : List ℕ) × SaysWhole true bytes scenario }
    requires few { length transcript.now < 2 ^ 28 }
    ensures { IfOk result (λ answer. (bytes : List ℕ) → SaysWhole true bytes scenario → scenario.close ≡ Last.Ended
        → differs bytes transcript.now ≡ difference_of answer) }
{
    let roster = scenario.roster();
    let mut beside = Beside::make(alloc, roster.domains(), roster.own(), transcript)?;
    compare_steps(alloc, scenario.into_steps(), &mut beside)?;
    let difference = beside.end(alloc)?;
    Ok(answer_of(difference))
}

/// Reads the scenario, and compares the transcript with what is told of it. A bad line of the scenario comes before everything.
pub fn check(alloc: Global, scenario: &[u8], transcript: &[u8]) -> Result<Answer, CheckFault>
    requires scenario { length scenario.now ≤ most_bytes }
    requires transcript { length transcript.now < 2 ^ 28 }
    ensures { Checks scenario.now transcript.now result }
{
    let whole = read_scenario(alloc, true, scenario)?;
    match whole.close() {
        Last::Bad(line, why) => Err(CheckFault::BadLine { line, why }),
        Last::Ended => Ok(compare(alloc, whole, transcript)?),
    }
}
