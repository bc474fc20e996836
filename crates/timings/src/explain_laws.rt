//! Laws about `explain`: its answer is sound, complete, and the least one.
ghost use Rattle.std.specs.Prelude.{◌≡◌, ◌≤◌, ◌+◌, ◌==◌, ℕ, false, true, List, [], take};
ghost use Rattle.std.specs.List.{filter};
ghost use Rattle.br_model.specs.Plane.Sending.{Sent};
ghost use Rattle.br_model.specs.Plane.World.{Stepped};
ghost use Rattle.br_model.specs.Table.Setup.{Setup};
ghost use Rattle.timings.specs.Explained.{Explains, IsTiming, Mark, Sights, Timing, count_at, is_blind, timing, watched};
ghost use Rattle.timings.specs.Greedy.{No, Yes, explain};
ghost use Rattle.timings.specs.Refuted.{IsRefuted};
ghost use Rattle.timings.specs.Telling.{sights_of};

/// The timing that is found is one: its turns are of updates that wait, and it keeps each bound; and it explains every frame.
pub fn explain_is_sound()
    ensures timing { (setup : Setup) (s : Sights) (marks : List Mark) (t : Timing) → explain setup s marks ≡ Yes t → IsTiming setup marks t }
    ensures explains { (setup : Setup) (s : Sights) (marks : List Mark) (t : Timing) → explain setup s marks ≡ Yes t
        → Explains setup s (timing setup t).0.next t }
{}

/// Where none is found, none explains the frame that is named and all frames before it; but some timing explains those before it.
pub fn explain_is_complete()
    ensures none { (setup : Setup) (s : Sights) (marks : List Mark) (id : ℕ) (x : Stepped) → explain setup s marks ≡ No id x
        → (t : Timing) → IsTiming setup marks t → Explains setup s (id + 1) t → ⊥ }
    ensures refuted { (setup : Setup) (s : Sights) (marks : List Mark) (id : ℕ) (x : Stepped) → explain setup s marks ≡ No id x
        → IsRefuted setup s marks id x }
{}

/// At each line no chip has applied more than in any timing that explains the frames up to there.
pub fn explain_is_least()
    ensures yes { (setup : Setup) (s : Sights) (marks : List Mark) (t : Timing) → explain setup s marks ≡ Yes t
        → (other : Timing) → IsTiming setup marks other → (next : ℕ) → Explains setup s next other
        → (n dom : ℕ) → (timing setup (take n other)).0.next ≤ next
        → count_at (timing setup (take n t)).0 dom ≤ count_at (timing setup (take n other)).0 dom }
{}

/// Every run explains itself: what a timing sends of each frame, told as seen, is explained.
pub fn runs_explain_themselves()
    ensures { (setup : Setup) (marks : List Mark) (t : Timing) (blind ignored : List ℕ) → IsTiming setup marks t
        → (found : Timing) × (explain setup (sights_of blind ignored (timing setup t).1) marks ≡ Yes found) }
{}

/// What is compared is what left by each port, in its order: nothing of a port at which nobody looks, and all of every other one.
pub fn watched_ports()
    ensures blind { (s : Sights) (port : ℕ) (sent : Sent) → is_blind s port ≡ true → filter (λ x. x.0 == port) (watched s sent) ≡ [] }
    ensures others { (s : Sights) (port : ℕ) (sent : Sent) → is_blind s port ≡ false
        → filter (λ x. x.0 == port) (watched s sent) ≡ filter (λ x. x.0 == port) sent }
{}
