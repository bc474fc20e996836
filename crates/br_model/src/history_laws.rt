//! Laws about the history of a run, and about published lists that begin it. A law is a function that does nothing: its contract
//! says it.
ghost use Rattle.std.specs.Prelude.{◌≡◌, ℕ, ◌≤◌, true, List, length, take, None, Some};
ghost use Rattle.std.specs.List.{All, last_or};
ghost use Rattle.std.specs.List.Sorted.{IsStrictlySortedBy};
ghost use Rattle.std.specs.Ordering.{nat_cmp};
ghost use Rattle.br_model.specs.declared.change.Change.{Change};
ghost use Rattle.br_model.specs.declared.steps.Step.{Step};
ghost use Rattle.br_model.specs.Data.Maps.{has};
ghost use Rattle.br_model.specs.Plane.Runs.{run};
ghost use Rattle.br_model.specs.Plane.World.{World};
ghost use Rattle.br_model.specs.Table.GroupPairs.{group_pairs, max_pairs};
ghost use Rattle.br_model.specs.Table.Limits.{AreWithin, most_addresses, most_changes};
ghost use Rattle.br_model.specs.Table.Setup.{Setup};
ghost use Rattle.br_model.specs.Table.Table.{table};
ghost use Rattle.br_model.specs.Theorems.Invariants.{HistoryStands, IsWorld};
ghost use mathlib.Core.List.{IsPrefix};

/// What the world keeps of its history is the premise of `limits_kept`, and no more. So each front of the history of any run
/// holds the limits of a table.
pub fn limits_hold()
    ensures within { (history : List Change) → HistoryStands history → AreWithin history }
    ensures stands { (history : List Change) → AreWithin history → HistoryStands history }
    ensures world { (w : World) → IsWorld w → AreWithin w.history }
    ensures run { (setup : Setup) (steps : List Step) → AreWithin (run setup steps).0.history }
    ensures changes { (setup : Setup) (steps : List Step) → length (run setup steps).0.history ≤ most_changes }
    ensures addresses { (setup : Setup) (steps : List Step) (n : ℕ) → length (table (take n (run setup steps).0.history)).addr ≤ most_addresses }
    ensures pairs { (setup : Setup) (steps : List Step) (n : ℕ)
        → length (group_pairs (table (take n (run setup steps).0.history)).groups) ≤ max_pairs }
{}

/// Two published lists, each with its counts, begin one list with its counts. Then a count of the first that isn't above the length
/// of the second is a count of the second, and so many changes are the same in both.
pub fn one_list()
    ensures { (whole first second : List Change) (counts first_counts second_counts : List ℕ)
        → IsPrefix first whole → IsPrefix first_counts counts → IsPrefix second whole → IsPrefix second_counts counts → IsStrictlySortedBy nat_cmp counts
        → All (λ n. n ≤ length first) first_counts → last_or None second_counts ≡ Some (length second)
        → (n : ℕ) → has nat_cmp first_counts n ≡ true → n ≤ length second → (has nat_cmp second_counts n ≡ true) × (take n first ≡ take n second) }
{}
