//! Laws about steps that are refused. A law is a function that does nothing: its contract says it.
ghost use Rattle.std.specs.Prelude.{◌≡◌, ◌+◌, ℕ, [], ◌∷◌, map};
ghost use Rattle.std.specs.List.{Contains};
ghost use Rattle.br_model.specs.declared.steps.Refusal.{Refusal};
ghost use Rattle.br_model.specs.declared.steps.Step.{Step};
ghost use Rattle.br_model.specs.declared.transcript.Line.TheVariants.{Refused};
ghost use Rattle.br_model.specs.Plane.Steps.{world_step};
ghost use Rattle.br_model.specs.Plane.World.{World};
ghost use Rattle.br_model.specs.Theorems.Refused.{IsRefused};
ghost use Rattle.br_model.specs.Worked.Laws.{at_first, refused_at_first};

/// A refused step changes nothing but the number of steps, and has one line; but where the history is full, a frame that was to be
/// sent is sent and gone, and only the reaction to it is refused.
pub fn refused_steps()
    ensures number { (w : World) (step : Step) (n : ℕ) (why : Refusal) → Contains (world_step w step).1 (Refused n why) → n ≡ w.steps + 1 }
    ensures world { (w : World) (step : Step) (n : ℕ) (why : Refusal) → Contains (world_step w step).1 (Refused n why)
        → IsRefused w step why (world_step w step) }
{}

/// Steps that are refused before any other: each is counted, and its only line is the refusal.
pub fn refused_first()
    ensures { map (λ x. world_step at_first x.0) refused_at_first ≡ map (λ x. (record at_first { steps = 1 }, Refused 1 x.1 ∷ [])) refused_at_first }
{}
