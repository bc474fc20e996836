//! What a scenario says can be written. A law is a function that does nothing: its contract says it.
ghost use Rattle.std.specs.Prelude.{◌≡◌, ℕ, Bool, true, List};
ghost use Rattle.std.specs.List.{list_all};
ghost use Rattle.br_model.specs.Text.Declarations.{are_declared};
ghost use Rattle.br_model.specs.Text.Operands.{is_byte};
ghost use Rattle.br_model.specs.Text.Scenario.{scenario_by};
ghost use Rattle.br_model.specs.Text.ScenarioText.{has_line};

/// Each step of a scenario has a line, by the ports that the scenario declares.
pub fn scenario_steps_have_lines()
    ensures { (check : Bool) (bytes : List ℕ) → list_all is_byte bytes ≡ true
        → list_all (has_line (scenario_by check bytes).roster.ports) (scenario_by check bytes).steps ≡ true }
{}

/// The ports that a scenario declares fit beside each other.
pub fn scenario_ports_are_declared()
    ensures { (check : Bool) (bytes : List ℕ) → are_declared (scenario_by check bytes).roster.ports ≡ true }
{}
