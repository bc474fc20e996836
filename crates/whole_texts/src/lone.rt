//! What a scenario is played on here.
ghost use Rattle.std.specs.Prelude.{◌≡◌, None};
ghost use Rattle.std.specs.Option.{option_map};
ghost use Rattle.whole_texts.specs.Tables.{history_of};

use crate::NoMemory;
use crate::heap_world::HeapWorld;
use br_model::change::Change;
use br_model::steps::Step;
use br_model::transcript::Line;
use bridge_command::Roster;
use check_world::World;
use scenario_play::Stage;
use std::alloc::Global;
use transcript_lines::Lines;

/// A world on the heap alone, once it was made.
#[derive(Drop)]
pub struct Lone {
    world: Option<HeapWorld>,
}

impl Lone {
    /// Before the first step.
    pub fn new() -> Lone
        ensures { result.world ≡ None }
    {
        Lone { world: None }
    }

    /// The world behind the steps so far. `None` before the first one.
    pub fn world(&self) -> Option<&World>
        ensures { option_map (λ w. w.now) result ≡ self.now.world }
    {
        match &self.world {
            Some(world) => Some(world.world()),
            None => None,
        }
    }

    /// The accepted changes, the oldest first.
    pub(crate) fn history(&self) -> &[Change]
        ensures { result.now ≡ history_of self.now.world }
    {
        match &self.world {
            Some(world) => world.world().history(),
            None => &[],
        }
    }
}

impl Stage for Lone {
    ghost use Rattle.whole_texts.specs.Stages.{lone};

    ghost stands = { λ s. lone s.world };

    fn has_begun(&self) -> bool {
        self.world.is_some()
    }

    fn begin(&mut self, alloc: Global, roster: &Roster) -> Result<(), NoMemory> {
        self.world = Some(HeapWorld::make(alloc, roster.domains(), roster.own())?);
        Ok(())
    }

    fn step(&mut self, alloc: Global, step: Step, lines: &mut Lines) -> Result<(), NoMemory> {
        match &mut self.world {
            Some(world) => world.step(alloc, step, lines),
            None => unreachable!(),
        }
    }

    fn end_line(&self) -> Line {
        match &self.world {
            Some(world) => world.end_line(),
            None => Line::End {
                steps: 0,
                changes: 0,
                pending: 0,
                waiting: 0,
            },
        }
    }
}
