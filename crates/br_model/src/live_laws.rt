//! Laws about runs by workers. A law is a function that does nothing: its contract says it.
ghost use Rattle.std.specs.Prelude.{◌≡◌, true, List};
ghost use Rattle.br_model.specs.declared.steps.Step.{Step};
ghost use Rattle.br_model.specs.Program.LiveRun.{is_live_run};
ghost use Rattle.br_model.specs.Program.SameSteps.{same_step};
ghost use Rattle.br_model.specs.Text.Scenario.{Scenario};
ghost use Rattle.br_model.specs.Program.LiveRules.{IsLiveRun};
ghost use Rattle.br_model.specs.Worked.LiveRuns.{judged, may_be, may_not_be, six_times, twelve_times_not, workers_written, workers_lines};

/// Steps are the same where `==` says so.
pub fn steps_are_told_apart()
    ensures only { (a b : Step) → same_step a b ≡ true → a ≡ b }
    ensures always { (a b : Step) → a ≡ b → same_step a b ≡ true }
{}

/// The test of a live run says what its rules say, for any first part: the shortest one is as good.
pub fn live_runs_keep_the_rules()
    ensures only { (steps : List Step) (sc : Scenario) → is_live_run steps sc ≡ true → IsLiveRun steps sc }
    ensures always { (steps : List Step) (sc : Scenario) → IsLiveRun steps sc → is_live_run steps sc ≡ true }
{}

/// Steps that workers may have taken, and steps that they may not.
pub fn worked_live_runs()
    ensures live { judged may_be ≡ six_times }
    ensures not_live { judged may_not_be ≡ twelve_times_not }
{}

/// The scenario and the transcript of two workers' steps.
pub fn live_steps_are_written()
    ensures { workers_written ≡ workers_lines }
{}
