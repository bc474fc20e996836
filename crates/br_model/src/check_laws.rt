//! Laws about checks of transcripts. A law is a function that does nothing: its contract says it.
ghost use Rattle.std.specs.Prelude.{◌≡◌, ℕ, false, List, None};
ghost use Rattle.br_model.specs.Program.Checks.{difference, FindsBad, HasChecked, ReadsOn};
ghost use Rattle.br_model.specs.Program.Outcomes.{Call, StopsFull};
ghost use Rattle.br_model.specs.Program.Runs.{told, told_by};
ghost use Rattle.br_model.specs.Theorems.WholeLines.{with_feed};
ghost use Rattle.br_model.specs.Worked.Checks.{answered, answers, points_scenario, points_elsewhere};

/// No line of a text differs from those of another exactly where they are the same once each has a line feed at its end.
pub fn no_difference()
    ensures only { (expected found : List ℕ) → difference expected found ≡ None → with_feed found ≡ with_feed expected }
    ensures always { (expected found : List ℕ) → with_feed found ≡ with_feed expected → difference expected found ≡ None }
{}

/// What is told where the command isn't `check`.
pub fn told_by_others()
    ensures { (bytes : List ℕ) → told bytes ≡ told_by false bytes }
{}

/// Where the source has a whole input below the limit, whose scenario ends well, a check isn't told of a bad line, and doesn't stop
/// since it has read so many bytes.
pub fn what_is_whole_is_checked()
    ensures bad { (limit : ℕ) (call : Call) → HasChecked limit call → FindsBad limit call → ⊥ }
    ensures full { (limit : ℕ) (before : List ℕ → List ℕ) (call : Call) (last : List ℕ) → HasChecked limit call → StopsFull limit ReadsOn before call last → ⊥ }
{}

/// Worked checks: posts by points, a line feed more or less, lines more and less, a line that differs, a bad scenario.
pub fn worked_checks()
    ensures { answered ≡ answers }
{}

/// A post that names a point is bad elsewhere.
pub fn points_elsewhere_are_bad()
    ensures { told points_scenario ≡ points_elsewhere }
{}
