//! Laws about how runs end. A law is a function that does nothing: its contract says it.
ghost use Rattle.std.specs.Prelude.{◌≡◌, ℕ, ◌+◌, ◌≤◌, List, ◌++◌, length};
ghost use Rattle.std.specs.Io.{StartsWith};
ghost use Rattle.br_model.specs.Program.Outcomes.{Call, AnswersBad, GoesOn, StopsFull, EndsWithin, HasLines, scenario_lines};
ghost use Rattle.br_model.specs.Program.Runs.{body, body_parts};
ghost use Rattle.br_model.specs.Text.Scenario.{scenario};
ghost use Rattle.br_model.specs.Worked.Endings.{parts_of_first_frame, first_frame_parts, ended_text, unfed_text};

/// What stands before the last line for some bytes is a front of what does where more bytes follow. Its parts are fronts of it, the
/// same where more bytes follow, and together all of it.
pub fn body_is_a_front()
    ensures whole { (bytes more : List ℕ) → StartsWith (body (bytes ++ more)) (body bytes) }
    ensures parts { (n : ℕ) (bytes : List ℕ) → StartsWith (body bytes) (body_parts n bytes) }
    ensures same { (n : ℕ) (bytes more : List ℕ) → n ≤ length (scenario bytes).steps + 1 → body_parts n (bytes ++ more) ≡ body_parts n bytes }
    ensures all { (bytes : List ℕ) → body_parts (length (scenario bytes).steps + 1) bytes ≡ body bytes }
{}

/// Where the source has a scenario that ends well within so many bytes, a run isn't told of a bad line, and doesn't stop since it has
/// read so many bytes.
pub fn what_ends_is_answered()
    ensures bad { (answer : List ℕ → List ℕ) (call : Call) (limit : ℕ) → HasLines scenario_lines limit call
        → AnswersBad scenario_lines answer call → ⊥ }
    ensures full { (limit : ℕ) (before : List ℕ → List ℕ) (call : Call) (last : List ℕ) → HasLines scenario_lines limit call
        → StopsFull limit (GoesOn scenario_lines) before call last → ⊥ }
{}

/// The parts of a worked transcript.
pub fn parts_of_a_transcript()
    ensures { parts_of_first_frame ≡ first_frame_parts }
{}

/// A scenario of 15 bytes ends within 15, and not within 14. Without its last line feed it has 14, and ends within 15 and not within 14.
pub fn ends_at_the_limit()
    ensures within { EndsWithin scenario_lines 15 ended_text }
    ensures beyond { EndsWithin scenario_lines 14 ended_text → ⊥ }
    ensures unfed { EndsWithin scenario_lines 15 unfed_text }
    ensures unfed_beyond { EndsWithin scenario_lines 14 unfed_text → ⊥ }
{}
