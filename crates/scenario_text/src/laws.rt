//! What is written is read back, and what is read can be written. A law is a function that does nothing: its contract says it.
ghost use Rattle.std.specs.Prelude.{◌≡◌, ◌++◌, ℕ, Bool, true, List, Ok};
ghost use Rattle.br_model.specs.declared.scenario.Said.TheVariants.{Does};
ghost use Rattle.br_model.specs.declared.steps.Step.{Step};
ghost use Rattle.br_model.specs.Text.Declarations.{are_declared};
ghost use Rattle.br_model.specs.Text.Head.{head_text};
ghost use Rattle.br_model.specs.Text.LineForms.{line_says};
ghost use Rattle.br_model.specs.Text.Operands.{is_station};
ghost use Rattle.br_model.specs.Text.Roster.{Roster};
ghost use Rattle.br_model.specs.Text.Scenario.{opened, read};
ghost use Rattle.br_model.specs.Text.ScenarioText.{has_line};
ghost use Rattle.scenario_text.specs.Heads.{behind_head};

/// The lines before the first step are read back: the same edition, the bridge's own address, where it is one of one station, and the
/// same ports. What follows is read as if it stood alone.
pub fn head_is_read()
    ensures { (check : Bool) (r : Roster) (more : List ℕ) → are_declared r.ports ≡ true → is_station r.own ≡ true
        → read 0 (opened check) (head_text r ++ more) ≡ read 0 (behind_head check r) more }
{}

/// A step that a line gives has a line, where the same ports are declared.
pub fn given_steps_have_lines()
    ensures { (r : Roster) (line : List ℕ) (s : Step) → line_says r line ≡ Ok (Does s) → has_line r.ports s ≡ true }
{}
