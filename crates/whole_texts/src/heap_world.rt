//! A world on the heap: it is large, and a call pays for the room of its locals.
ghost use Rattle.std.specs.Prelude.{◌≡◌, IfOk, OnOk, true};
ghost use Rattle.br_model.specs.Plane.Runs.{end_line};
ghost use Rattle.br_model.specs.Plane.World.{first_world};
ghost use Rattle.br_model.specs.Table.Domains.{chip_domains};
ghost use Rattle.br_model.specs.Text.LineForms.{comes_by_line};
ghost use Rattle.br_model.specs.Theorems.Invariants.{IsWorld};
ghost use Rattle.check_world.specs.Worlds.{Tells};
ghost use Rattle.plane_parts.specs.Added.{Added};

use crate::NoMemory;
use br_model::domains::Domains;
use br_model::numbers::Mac;
use br_model::steps::Step;
use br_model::transcript::Line;
use check_world::World;
use std::alloc::Global;
use std::marker::Model;
use transcript_lines::Lines;

/// A `World` in a box.
#[derive(Drop)]
pub(crate) struct HeapWorld {
    world: Box<World>,
}

impl Model for HeapWorld {
    ghost use Rattle.br_model.specs.Plane.World.{World as WorldOf};

    ghost Value = { WorldOf };

    ghost view = { λ w. w.world.value };
}

// After want of memory a world isn't used again.
impl HeapWorld {
    /// That of a bridge in which nothing has happened.
    #[inline(never)]
    pub(crate) fn make(alloc: Global, domains: Domains, own: Mac) -> Result<HeapWorld, NoMemory>
        ensures { IfOk result (λ w. w ≡ first_world (record { domains = domains; own = own })) }
    {
        let world = Box::new(alloc, World::make(alloc, domains, own)?)?;
        Ok(HeapWorld { world })
    }

    pub(crate) fn world(&self) -> &World
        ensures { result.now ≡ self.now }
    {
        &self.world
    }

    /// Does a step that a line of a check can give. The lines of the step are added.
    pub(crate) fn step(
        &mut self,
        alloc: Global,
        step: Step,
        lines: &mut Lines,
    ) -> Result<(), NoMemory>
        requires world { IsWorld self.old }
        requires by_line { comes_by_line true (chip_domains self.old.setup.domains) step ≡ true }
        ensures { OnOk result (Added (Tells self.old step self.new) lines.old.lines lines.new.lines) }
    {
        self.world.step(alloc, step, lines)
    }

    /// The last line of a run that ends here.
    pub(crate) fn end_line(&self) -> Line
        requires { IsWorld self.now }
        ensures { result ≡ end_line self.now }
    {
        self.world.end_line()
    }
}
