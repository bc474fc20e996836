//! Laws about walks. A law is a function that does nothing: its contract says it.
ghost use Rattle.std.specs.Prelude.{◌≡◌, ℕ, ◌+◌, ◌<◌, IsTrue, List, Some, []};
ghost use Rattle.br_model.specs.declared.change.Change.{Change};
ghost use Rattle.br_model.specs.declared.domains.Edition.{Edition};
ghost use Rattle.br_model.specs.Table.Cut.{deferred_at, deferred_count};
ghost use Rattle.br_model.specs.Table.Limits.{AreWithin, fits};
ghost use Rattle.br_model.specs.Table.Table.{apply, start};
ghost use Rattle.cut_walk.specs.Walked.{IsWalk, Walked};

/// The table before any change is a walk's; the next update fits a walk's table, and with it that is a walk's again.
pub fn walks()
    ensures first { (edition : Edition) → IsWalk edition [] (record { table = start; count = 0 }) }
    ensures fits { (edition : Edition) (history : List Change) (w : Walked) (d : Change) → IsWalk edition history w → AreWithin history
        → deferred_at edition history w.count ≡ Some d → IsTrue (fits w.table d) }
    ensures turn { (edition : Edition) (history : List Change) (w : Walked) (d : Change) → IsWalk edition history w
        → deferred_at edition history w.count ≡ Some d → IsWalk edition history (record { table = apply w.table d; count = w.count + 1 }) }
    ensures more { (edition : Edition) (history : List Change) (w : Walked) (d : Change) → deferred_at edition history w.count ≡ Some d
        → w.count < deferred_count edition history }
{}
