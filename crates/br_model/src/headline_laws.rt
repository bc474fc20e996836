//! The law of the whole: what the transcript says of each frame. A law is a function that does nothing: its contract says it.
ghost use Rattle.std.specs.Prelude.{◌≡◌, ℕ, ◌<◌, ◌≤◌, List, [], ◌∷◌, ◌++◌, Ok, Err, None, Some};
ghost use Rattle.std.specs.declared.option.Option.{Option};
ghost use Rattle.br_model.specs.declared.frame.FrameFault.{FrameFault};
ghost use Rattle.br_model.specs.declared.frame.Head.{Head};
ghost use Rattle.br_model.specs.declared.steps.Step.{Step};
ghost use Rattle.br_model.specs.declared.steps.Step.TheVariants.{Rx};
ghost use Rattle.br_model.specs.declared.transcript.Line.TheVariants.{Unread};
ghost use Rattle.br_model.specs.Plane.Chip.{Chip};
ghost use Rattle.br_model.specs.Plane.Entering.{chip_of};
ghost use Rattle.br_model.specs.Plane.Runs.{run};
ghost use Rattle.br_model.specs.Plane.Steps.{world_step};
ghost use Rattle.br_model.specs.Plane.World.{Waiting};
ghost use Rattle.br_model.specs.Plane.Sending.{times, sent_of};
ghost use Rattle.br_model.specs.Table.Domains.{domain_of};
ghost use Rattle.br_model.specs.Table.Setup.{Setup};
ghost use Rattle.br_model.specs.Theorems.FrameLines.{lines_of, places, entering, ByChip, BySoftware, EntersIn, Moves};
ghost use Rattle.br_model.specs.Wire.Frames.{frame};

/// Whatever steps come before and after, a frame that enters by a port of a chip leaves just those ports of the chip, and comes to
/// software (or, where no more frames may wait, is an overrun) just where, the one-table bridge says by the chip's cut; software sends
/// what came to it to just the remaining ports that this bridge gives at its published point; and no frame leaves a port twice.
pub fn headline()
    ensures chip { (setup : Setup) (before after : List Step) (port : ℕ) (bytes : List ℕ) (head : Head) (chip : Chip)
        → frame bytes ≡ Ok head → chip_of (run setup before).0 (domain_of setup.domains port) ≡ Some chip
        → ByChip (run setup before).0 chip (entering (run setup before).0 port bytes head) (run setup (before ++ Rx port bytes ∷ after)) }
    ensures software { (setup : Setup) (before after : List Step) (port : ℕ) (bytes : List ℕ) (head : Head)
        → frame bytes ≡ Ok head → chip_of (run setup before).0 (domain_of setup.domains port) ≡ None
        → BySoftware (run setup before).0 (entering (run setup before).0 port bytes head) (run setup (before ++ Rx port bytes ∷ after)) }
    ensures step { (setup : Setup) (steps : List Step) (step : Step) (f : Waiting) (floor : Option ℕ) → places f.id (run setup steps).0 ≡ (f, floor) ∷ []
        → Moves (run setup steps).0 f floor (world_step (run setup steps).0 step) }
    ensures unread { (setup : Setup) (before after : List Step) (port : ℕ) (bytes : List ℕ) (why : FrameFault) → frame bytes ≡ Err why
        → lines_of (run setup before).0.next (run setup (before ++ Rx port bytes ∷ after)).1 ≡ Unread (run setup before).0.next why ∷ [] }
    ensures each { (setup : Setup) (steps : List Step) (id : ℕ) → 1 ≤ id → id < (run setup steps).0.next → EntersIn setup steps id }
    ensures zero { (setup : Setup) (steps : List Step) → lines_of 0 (run setup steps).1 ≡ [] }
    ensures others { (setup : Setup) (steps : List Step) (id : ℕ) → (run setup steps).0.next ≤ id → lines_of id (run setup steps).1 ≡ [] }
    ensures once { (setup : Setup) (steps : List Step) (id port : ℕ) → times port (sent_of id (run setup steps).1) ≤ 1 }
{}
