//! Worked inputs of `outcomes` and `explain`. A law is a function that does nothing: its contract says it.
ghost use Rattle.std.specs.Prelude.{◌≡◌, map, take};
ghost use Rattle.br_model.specs.Text.Scenario.{Ended, Going};
ghost use Rattle.timings.specs.ExplainText.{explain_of};
ghost use Rattle.timings.specs.InputLines.{observation_lines, question_lines};
ghost use Rattle.timings.specs.OutcomesText.{outcomes_of};
ghost use Rattle.timings.specs.Worked.{bad_lines, bad_observations, is_bad, kept_flooding, kept_flooding_says, meanwhile, meanwhile_says, moved_twice, moved_twice_says};

/// What each of three frames would do, at each number of updates that may be applied and by what software may have published.
pub fn worked_outcomes()
    ensures { outcomes_of meanwhile ≡ meanwhile_says }
{}

/// Updates may have been late; an update that the driver has acknowledged isn't late.
pub fn worked_explanations()
    ensures late { explain_of moved_twice ≡ moved_twice_says }
    ensures not_late { explain_of kept_flooding ≡ kept_flooding_says }
{}

/// Which lines of an observation are bad, and why.
pub fn bad_observation_lines()
    ensures { map explain_of bad_observations ≡ map is_bad bad_lines }
{}

/// Before the last line of its second section an input goes on, and behind it nothing more is read.
pub fn inputs_so_far()
    ensures observation_goes_on { observation_lines.so_far (take 200 moved_twice) ≡ Going }
    ensures observation_ends { observation_lines.so_far moved_twice ≡ Ended }
    ensures question_goes_on { question_lines.so_far (take 300 meanwhile) ≡ Going }
    ensures question_ends { question_lines.so_far meanwhile ≡ Ended }
{}
