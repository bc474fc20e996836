//! The steps of a generated scenario's frames, one at a time.
ghost use Rattle.std.specs.Prelude.{◌≡◌, ◌<◌, ◌≤◌, ◌∷◌, ◌++◌, true, false, IfSome};
ghost use Rattle.br_model.specs.Program.Generator.{most_frames, ports, steps as all_steps, first_steps};
ghost use Rattle.br_model.specs.Text.LineForms.{comes_by_line};
ghost use Rattle.br_model.specs.Text.Roster.{chips_of};
ghost use Rattle.scenario_generator.specs.declared.frame_steps.Stage.TheVariants.{Serve as ServeNext, Report as ReportNext, Turn as TurnNext, Publish as PublishNext, Moment as MomentNext};
ghost use Rattle.scenario_generator.specs.Generating.{next_steps, steps_left};
ghost use Rattle.scenario_generator.specs.Stepping.{following, step_of, Gives, GivesMade};

use crate::generator::{Generator, frame, port};
use br_model::numbers::{Dom, Port};
use br_model::steps::Step;
use std::marker::Model;

/// A step of a generated scenario.
#[derive(Drop)]
pub enum Made {
    /// A frame enters. Its bytes have no memory of their own.
    Enters { port: Port, bytes: [u8; 16] },
    /// What comes with it.
    Follows(Step),
}

/// What is next: a step that comes with a frame, or another frame.
#[derive(Clone, Copy)]
enum Stage {
    Serve,
    Report,
    Turn,
    Publish,
    Moment,
    Frame,
}

/// The steps that still come with frame i.
#[derive(Clone, Copy)]
struct Following {
    i: u32,
    stage: Stage,
}

impl Following {
    fn moment(&mut self) -> Option<Step>
        requires { self.old.i ≤ most_frames }
        ensures gives { Gives (following MomentNext self.old.i) self.new result }
        ensures i { self.new.i ≡ self.old.i }
        ensures by_line { IfSome result (λ step. comes_by_line false (chips_of ports) step ≡ true) }
    {
        self.stage = Stage::Frame;
        if self.i % 64 == 0 {
            Some(Step::Now(u64::from(1000 * self.i)))
        } else {
            None
        }
    }

    fn publish(&mut self) -> Option<Step>
        requires { self.old.i ≤ most_frames }
        ensures gives { Gives (following PublishNext self.old.i) self.new result }
        ensures i { self.new.i ≡ self.old.i }
        ensures by_line { IfSome result (λ step. comes_by_line false (chips_of ports) step ≡ true) }
    {
        if self.i % 7 != 0 {
            return self.moment();
        }
        self.stage = Stage::Moment;
        Some(Step::Publish)
    }

    fn turn(&mut self) -> Option<Step>
        requires { self.old.i ≤ most_frames }
        ensures gives { Gives (following TurnNext self.old.i) self.new result }
        ensures i { self.new.i ≡ self.old.i }
        ensures by_line { IfSome result (λ step. comes_by_line false (chips_of ports) step ≡ true) }
    {
        if self.i % 5 != 0 {
            return self.publish();
        }
        self.stage = Stage::Publish;
        Some(Step::Turn(Dom::CHIP))
    }

    fn report(&mut self) -> Option<Step>
        requires { self.old.i ≤ most_frames }
        ensures gives { Gives (following ReportNext self.old.i) self.new result }
        ensures i { self.new.i ≡ self.old.i }
        ensures by_line { IfSome result (λ step. comes_by_line false (chips_of ports) step ≡ true) }
    {
        if self.i % 3 != 0 {
            return self.turn();
        }
        self.stage = Stage::Turn;
        Some(Step::Report(Dom::CHIP))
    }

    fn next(&mut self) -> Option<Step>
        requires { self.old.i ≤ most_frames }
        ensures gives { Gives (following self.old.stage self.old.i) self.new result }
        ensures i { self.new.i ≡ self.old.i }
        ensures by_line { IfSome result (λ step. comes_by_line false (chips_of ports) step ≡ true) }
    {
        match self.stage {
            Stage::Serve => {
                self.stage = Stage::Report;
                Some(Step::Serve)
            }
            Stage::Report => self.report(),
            Stage::Turn => self.turn(),
            Stage::Publish => self.publish(),
            Stage::Moment => self.moment(),
            Stage::Frame => None,
        }
    }
}

/// The next frame enters. The answer is its place, too.
fn enter(frames: &mut Generator) -> (u32, Made)
    requires { 0 < frames.old.left }
    ensures made { step_of result.1 ∷ following ServeNext result.0 ≡ next_steps frames.old }
    ensures rest { steps_left frames.old ≡ next_steps frames.old ++ steps_left frames.new }
    ensures few { result.0 ≤ most_frames }
{
    let (i, n) = frames.draw();
    let made = Made::Enters {
        port: port((n % 6 + 1) as u8),
        bytes: frame(n),
    };
    (i, made)
}

/// The steps of a generated scenario's frames that are left, seen as their list.
#[derive(Drop)]
pub struct FrameSteps {
    frames: Generator,
    coming: Following,
}

impl Model for FrameSteps {
    ghost use Rattle.std.specs.Prelude.{◌≤◌, ◌++◌, List};
    ghost use Rattle.br_model.specs.declared.steps.Step.{Step};
    ghost use Rattle.br_model.specs.Program.Generator.{most_frames};
    ghost use Rattle.scenario_generator.specs.Generating.{steps_left};
    ghost use Rattle.scenario_generator.specs.Stepping.{following};

    ghost Value = { List Step };

    ghost view = { λ s. following s.coming.stage s.coming.i ++ steps_left s.frames };

    ghost invariant = { λ s. s.coming.i ≤ most_frames };
}

impl FrameSteps {
    /// Before the first of so many frames. `x` is the NUMBER of `gen`, the first state.
    pub fn new(x: u64, count: u32) -> FrameSteps
        requires { count ≤ most_frames }
        ensures { first_steps ++ result ≡ all_steps x count }
    {
        FrameSteps {
            frames: Generator::new(x, count),
            coming: Following {
                i: 0,
                stage: Stage::Frame,
            },
        }
    }

    /// The next step, or none where none is left.
    pub fn next(&mut self) -> Option<Made>
        ensures gives { GivesMade self.old self.new result }
        ensures by_line { IfSome result (λ made. comes_by_line false (chips_of ports) (step_of made) ≡ true) }
    {
        if let Some(step) = self.coming.next() {
            return Some(Made::Follows(step));
        }
        if self.frames.left() == 0 {
            return None;
        }
        let (i, made) = enter(&mut self.frames);
        self.coming = Following {
            i,
            stage: Stage::Serve,
        };
        Some(made)
    }
}
