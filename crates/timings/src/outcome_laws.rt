//! Laws about `outcomes`: its rows are complete and sound.
ghost use Rattle.std.specs.Prelude.{◌≡◌, ◌++◌, ℕ, true, List, Some};
ghost use Rattle.std.specs.List.{All, list_any};
ghost use Rattle.std.specs.declared.option.Option.{Option};
ghost use Rattle.br_model.specs.declared.frame.Head.{Head};
ghost use Rattle.br_model.specs.declared.steps.Step.{Step};
ghost use Rattle.br_model.specs.Plane.Chip.{Chip};
ghost use Rattle.br_model.specs.Plane.Entering.{chip_of};
ghost use Rattle.br_model.specs.Plane.Runs.{run};
ghost use Rattle.br_model.specs.Plane.World.{table_of_chip};
ghost use Rattle.br_model.specs.Table.Domains.{domain_of};
ghost use Rattle.br_model.specs.Table.Setup.{Setup};
ghost use Rattle.timings.specs.Meanwhile.{ChipComesTo, SoftwareComesTo, is_meanwhile, value_at};
ghost use Rattle.timings.specs.Outcomes.{chip_rows, deed_by, same_class, soft_ports, soft_rows};

/// Whatever turns and publications follow a run: what the chip of the port then does with a frame, and by which ports software sends it
/// by what is published then, is what the rows say of so many updates and of so many changes. A row of the chip has each class with which
/// software may get the frame.
pub fn outcomes_are_complete()
    ensures chip { (setup : Setup) (before : List Step) (port : ℕ) (bytes : List ℕ) (head : Head) (meanwhile : List Step) (first chip : Chip)
        → is_meanwhile meanwhile ≡ true → chip_of (run setup before).0 (domain_of setup.domains port) ≡ Some first
        → let w = (run setup (before ++ meanwhile)).0 in chip_of w (domain_of setup.domains port) ≡ Some chip
        → value_at (chip_rows (run setup before).0 first port bytes head) chip.count ≡ Some (deed_by w (table_of_chip w chip) port bytes head) }
    ensures classes { (setup : Setup) (before : List Step) (port : ℕ) (bytes : List ℕ) (head : Head) (meanwhile : List Step) (first chip : Chip)
        → is_meanwhile meanwhile ≡ true → chip_of (run setup before).0 (domain_of setup.domains port) ≡ Some first
        → let w = (run setup (before ++ meanwhile)).0 in chip_of w (domain_of setup.domains port) ≡ Some chip
        → list_any (λ r. same_class r.1.0 (deed_by w (table_of_chip w chip) port bytes head).0) (chip_rows (run setup before).0 first port bytes head) ≡ true }
    ensures software { (setup : Setup) (before : List Step) (port : ℕ) (bytes : List ℕ) (head : Head) (mark : Option ℕ) (meanwhile : List Step)
        → is_meanwhile meanwhile ≡ true → let w = (run setup (before ++ meanwhile)).0 in
        value_at (soft_rows (run setup before).0 port bytes head mark) w.published ≡ Some (soft_ports w port bytes head mark w.published) }
{}

/// Some turns and publications lead to each row.
pub fn outcomes_are_sound()
    ensures chip { (setup : Setup) (before : List Step) (port : ℕ) (bytes : List ℕ) (head : Head) (chip : Chip)
        → chip_of (run setup before).0 (domain_of setup.domains port) ≡ Some chip
        → All (ChipComesTo setup before port bytes head) (chip_rows (run setup before).0 chip port bytes head) }
    ensures software { (setup : Setup) (before : List Step) (port : ℕ) (bytes : List ℕ) (head : Head) (mark : Option ℕ)
        → All (SoftwareComesTo setup before port bytes head mark) (soft_rows (run setup before).0 port bytes head mark) }
{}
