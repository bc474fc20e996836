//! Laws about how many updates the chips have applied.
ghost use Rattle.std.specs.Prelude.{◌≡◌, ◌≤◌, ◌+◌, ◌==◌, ℕ, is_some, false, true, min, None, List};
ghost use Rattle.std.specs.List.{fold};
ghost use Rattle.br_model.specs.declared.steps.Step.{Step};
ghost use Rattle.br_model.specs.declared.steps.Step.TheVariants.{Turn};
ghost use Rattle.br_model.specs.Plane.Sending.{sent_of};
ghost use Rattle.br_model.specs.Plane.Steps.{world_step};
ghost use Rattle.br_model.specs.Plane.Traits.{traits};
ghost use Rattle.br_model.specs.Plane.World.{Stepped, World, chip_at};
ghost use Rattle.br_model.specs.Table.Setup.{Setup};
ghost use Rattle.br_model.specs.Theorems.Invariants.{IsWorld};
ghost use Rattle.timings.specs.Explained.{Timing, count_at, frame_sent, goes, timing, updates_in};
ghost use Rattle.timings.specs.Greedy.{repeated};
ghost use Rattle.timings.specs.Timings.{Enters, Seen, plays, turned};

/// A turn counts one update more of its own chip, where one waits, and none of another chip. No other step counts any.
pub fn turns_count()
    ensures own { (w : World) (dom : ℕ) → IsWorld w → is_some (chip_at w dom) ≡ true
        → count_at (world_step w (Turn dom)).0 dom ≡ min (count_at w dom + 1) (updates_in w) }
    ensures other { (w : World) (dom turned : ℕ) → (turned == dom) ≡ false → count_at (world_step w (Turn turned)).0 dom ≡ count_at w dom }
    ensures still { (w : World) (step : Step) (dom : ℕ) → (traits step).turn ≡ None → count_at (world_step w step).0 dom ≡ count_at w dom }
    ensures most { (w : World) (dom : ℕ) → IsWorld w → count_at w dom ≤ updates_in w }
    ensures in_a_row { (x : Stepped) (dom n : ℕ) → IsWorld x.0 → is_some (chip_at x.0 dom) ≡ true
        → count_at (turned x (repeated dom n)).0 dom ≡ min (count_at x.0 dom + n) (updates_in x.0) }
    ensures played { (x : Stepped) (s : Seen) (dom : ℕ) → count_at (plays x s).0 dom ≡ count_at x.0 dom }
{}

/// What is sent of a frame is sent where it enters: all lines of a timing say of its id just what it sends there.
pub fn own_lines()
    ensures { (setup : Setup) (before later : Timing) (doms : List ℕ) (port : ℕ) (bytes : List ℕ)
        → let y = turned (timing setup before) doms in
        sent_of y.0.next (fold goes (plays y (Enters port bytes)) later).1 ≡ frame_sent y.0 port bytes }
{}
