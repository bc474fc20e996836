//! What a scenario is played on.
ghost use Rattle.std.specs.Prelude.{◌≡◌, [], IfSome, None, OnOk};
ghost use Rattle.std.specs.Option.{is_some};
ghost use Rattle.br_model.specs.Program.Runs.{setup_of};
ghost use Rattle.br_model.specs.Theorems.Invariants.{IsWorld};
ghost use Rattle.plane_parts.specs.Added.{Added};
ghost use Rattle.scenario_play.specs.Stages.{Begins, CanStep, Standing, StepsTo, end_line_of};

use crate::NoMemory;
use br_model::steps::Step;
use br_model::transcript::Line;
use bridge_command::Roster;
use std::alloc::Global;
use transcript_lines::Lines;

/// A world that is made before the first step, and does steps. A stage that needs the runtime holds a reference to it, and one on which somebody
/// speaks of the run holds the speaker. After want of memory it isn't used again.
pub trait Stage {
    ghost stands: { Self → Standing };

    /// Whether the world was made.
    fn has_begun(&self) -> bool
        ensures { result ≡ is_some (stands self.now).world };

    /// Makes the world of a bridge in which nothing has happened.
    fn begin(&mut self, alloc: Global, roster: &Roster) -> Result<(), NoMemory>
        requires first { (stands self.old).world ≡ None }
        requires sound { (stands self.old).sound }
        ensures { OnOk result (Begins (stands self.old) (setup_of roster.now) (stands self.new)) };

    /// Does a step. Its lines are added.
    fn step(&mut self, alloc: Global, step: Step, lines: &mut Lines) -> Result<(), NoMemory>
        requires can { CanStep (stands self.old) step }
        requires empty { lines.old.lines ≡ [] }
        ensures { OnOk result (Added (StepsTo (stands self.old) step (stands self.new)) lines.old.lines lines.new.lines) };

    /// The last line of a run that ends here.
    fn end_line(&self) -> Line
        requires { IfSome (stands self.now).world IsWorld }
        ensures { result ≡ end_line_of (stands self.now).world };
}
