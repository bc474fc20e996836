//! A run of the world beside a transcript.
ghost use Rattle.std.specs.Prelude.{◌≡◌, ◌∷◌, ◌++◌, ◌<◌, ◌^◌, ℕ, List, [], IfOk, OnOk, length, true};
ghost use Rattle.br_model.specs.declared.steps.Step.{Step as StepValue};
ghost use Rattle.br_model.specs.Plane.Runs.{end_line, run};
ghost use Rattle.br_model.specs.Plane.World.{first_world};
ghost use Rattle.br_model.specs.Program.Checks.{difference};
ghost use Rattle.br_model.specs.Program.Runs.{body_of};
ghost use Rattle.br_model.specs.Table.Domains.{chip_domains};
ghost use Rattle.br_model.specs.Table.Setup.{Setup};
ghost use Rattle.br_model.specs.Text.LineForms.{comes_by_line};
ghost use Rattle.br_model.specs.Text.Transcript.{line_text};
ghost use Rattle.br_model.specs.Theorems.Invariants.{IsWorld};
ghost use Rattle.transcript_check.specs.Besides.{IsBeside};

use crate::NoMemory;
use crate::cursor::{Cursor, Difference};
use br_model::domains::Domains;
use br_model::numbers::Mac;
use br_model::steps::Step;
use check_world::World;
use std::alloc::Global;
use transcript_lines::Lines;
use transcript_text::Writer;

/// The world after the steps so far, and how far the transcript has their lines. Once a line differs, steps are passed over.
#[derive(Drop)]
pub(crate) struct Beside<'a> {
    world: Box<World>,
    // The lines of a step and their text, in the memory of those before.
    told: Lines,
    writer: Writer,
    text: String,
    cursor: Cursor<'a>,
    differs: Option<Difference>,
}

/// The world before any step, on the heap: it is large, and so is its drop.
fn first_world(alloc: Global, domains: Domains, own: Mac) -> Result<Box<World>, NoMemory>
    ensures { IfOk result (λ world. world.value ≡ first_world (record { domains = domains; own = own })) }
{
    Ok(Box::new(alloc, World::make(alloc, domains, own)?)?)
}

// After want of memory it isn't used again.
impl<'a> Beside<'a> {
    /// Before any step: the transcript's first line is compared.
    pub(crate) fn make(
        alloc: Global,
        domains: Domains,
        own: Mac,
        transcript: &'a [u8],
    ) -> Result<Beside<'a>, NoMemory>
        requires { length transcript.now < 2 ^ 28 }
        ensures { IfOk result (λ b. IsBeside transcript.now (record { domains = domains; own = own }) [] b.world.value b.cursor b.differs) }
    {
        let mut cursor = Cursor::over(transcript);
        let differs = cursor.compare(alloc, b"transcript 1\n")?;
        Ok(Beside {
            world: first_world(alloc, domains, own)?,
            told: Lines::new(alloc),
            writer: Writer::new(alloc),
            text: String::new(alloc),
            cursor,
            differs,
        })
    }

    /// Does a step that a line of a check can give, and compares its lines.
    pub(crate) fn step(&mut self, alloc: Global, step: Step) -> Result<(), NoMemory>
        requires world { IsWorld self.old.world.value }
        requires by_line { comes_by_line true (chip_domains self.old.world.value.setup.domains) step ≡ true }
        ensures { OnOk result ((transcript : List ℕ) (setup : Setup) (steps : List StepValue)
            → IsBeside transcript setup steps self.old.world.value self.old.cursor self.old.differs
            → IsBeside transcript setup (steps ++ step ∷ []) self.new.world.value self.new.cursor self.new.differs) }
    {
        if self.differs.is_some() {
            return Ok(());
        }
        self.told.clear();
        self.text.clear();
        self.world.step(alloc, step, &mut self.told)?;
        self.writer.append_lines(&self.told, &mut self.text)?;
        self.differs = self.cursor.compare(alloc, self.text.as_bytes())?;
        Ok(())
    }

    /// The run ends here: compares the last line, and answers where the transcript differs.
    pub(crate) fn end(&mut self, alloc: Global) -> Result<Option<Difference>, NoMemory>
        requires { IsWorld self.old.world.value }
        ensures { IfOk result (λ d. (transcript : List ℕ) (setup : Setup) (steps : List StepValue)
            → IsBeside transcript setup steps self.old.world.value self.old.cursor self.old.differs
            → difference (body_of (run setup steps) ++ line_text (end_line (run setup steps).0)) transcript ≡ d) }
    {
        if let Some(difference) = self.differs.take() {
            return Ok(Some(difference));
        }
        self.text.clear();
        let last = self.world.end_line();
        self.writer.append(&last, &mut self.text)?;
        match self.cursor.compare(alloc, self.text.as_bytes())? {
            Some(difference) => Ok(Some(difference)),
            None => self.cursor.end(alloc),
        }
    }
}
