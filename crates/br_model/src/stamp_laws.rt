//! Laws about the moments of addresses. A law is a function that does nothing: its contract says it.
ghost use Rattle.std.specs.Prelude.{◌≡◌, ℕ, List, [], ◌∷◌, ◌++◌, is_some};
ghost use Rattle.std.specs.declared.result.Result.TheVariants.{Ok};
ghost use Rattle.br_model.specs.declared.change.Change.{Change};
ghost use Rattle.br_model.specs.declared.steps.Event.{Event};
ghost use Rattle.br_model.specs.declared.steps.Step.{Step};
ghost use Rattle.br_model.specs.Control.Control.{Control, first_control, keeps_up};
ghost use Rattle.br_model.specs.Control.Reaction.{Reaction, react};
ghost use Rattle.br_model.specs.Data.Maps.{pair_cmp, get};
ghost use Rattle.br_model.specs.Plane.Runs.{run};
ghost use Rattle.br_model.specs.Table.Setup.{Setup};
ghost use Rattle.br_model.specs.Table.Table.{Table, start, apply, table};
ghost use Rattle.br_model.specs.Theorems.StampsTied.{AreStamped};
ghost use Rattle.br_model.specs.Worked.Hold.{soft_ports, station_b};
ghost use Rattle.br_model.specs.Worked.Laws.{moment_steps, station_a, station_c};

/// Each address entry has its moment beside it, and nothing else has one: at first, after each change, after every reaction, and so
/// after every run. So no entry that may expire is without the moment from which its time is counted.
pub fn stamps_are_tied()
    ensures first { (own : ℕ) → AreStamped start (first_control own) }
    ensures changed { (t : Table) (k : Control) (c : Change) → AreStamped t k → AreStamped (apply t c) (keeps_up k c) }
    ensures kept { (history : List Change) (setup : Setup) (control : Control) (event : Event) (r : Reaction)
        → AreStamped (table history) control → react setup history control event ≡ Ok r → AreStamped (table (history ++ r.changes)) r.control }
    ensures run { (setup : Setup) (steps : List Step) → AreStamped (table (run setup steps).0.history) (run setup steps).0.control }
    ensures each { (setup : Setup) (steps : List Step) (key : ℕ × ℕ)
        → is_some (get pair_cmp (run setup steps).0.control.updated key) ≡ is_some (get pair_cmp (table (run setup steps).0.history).addr key) }
{}

/// A learned, a static and an extern entry, each with its moment; an entry that went has none.
pub fn moments_of_a_run()
    ensures { (run soft_ports moment_steps).0.control.updated ≡ ((1, station_a), 3000) ∷ ((1, station_b), 1000) ∷ ((1, station_c), 2000) ∷ [] }
{}
