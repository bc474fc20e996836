//! A whole scenario is run, and nothing is told of it.
ghost use Rattle.std.specs.Prelude.{◌≡◌, ℕ, List, IfOk, false, true};
ghost use Rattle.std.specs.List.{list_all};
ghost use Rattle.br_model.specs.Text.LineForms.{comes_by_line};
ghost use Rattle.br_model.specs.Text.Roster.{chips_of};
ghost use Rattle.br_model.specs.Text.Scenario.{scenario as scenario_of};
ghost use Rattle.scenario_reader.specs.declared.reader.Last.TheVariants.{Ended};
ghost use Rattle.scenario_reader.specs.Whole.{SaysWhole};
ghost use Rattle.whole_texts.specs.Runs.{HasDone};
ghost use Rattle.whole_texts.specs.Sessions.{Agrees};
ghost use Rattle.whole_texts.specs.Stages.{lone};

use crate::NoMemory;
use crate::copying::copy_of;
use crate::lone::Lone;
use br_model::steps::Step;
use bridge_command::Roster;
use scenario_play::Stage;
use scenario_reader::Whole;
use std::alloc::Global;
use transcript_lines::Lines;

/// What a scenario has declared, and where its steps have led.
#[derive(Drop)]
pub(crate) struct Ran {
    pub(crate) roster: Roster,
    pub(crate) stage: Lone,
}

fn do_steps(alloc: Global, roster: &Roster, steps: Vec<Step>) -> Result<Lone, NoMemory>
    requires { list_all (comes_by_line roster.now.check (chips_of roster.now.ports)) steps.items ≡ true }
    ensures { IfOk result (λ x. HasDone roster.now steps.items (lone x.world)) }
{
    // law: what is declared fits beside each other
    roster.len();
    let mut stage = Lone::new();
    stage.begin(alloc, roster)?;
    let mut told = Lines::new(alloc);
    for step in steps {
        told.clear();
        stage.step(alloc, step, &mut told)?;
    }
    Ok(stage)
}

/// Does all steps of a scenario.
pub(crate) fn run(alloc: Global, scenario: Whole) -> Result<Ran, NoMemory>
    requires { (bytes : List ℕ) × SaysWhole false bytes scenario }
    ensures { IfOk result (λ ran. (bytes : List ℕ) → SaysWhole false bytes scenario → scenario.close ≡ Ended
        → Agrees (scenario_of bytes) ran.roster (lone ran.stage.world)) }
{
    let roster = copy_of(alloc, scenario.roster())?;
    let stage = do_steps(alloc, &roster, scenario.into_steps())?;
    Ok(Ran { roster, stage })
}
