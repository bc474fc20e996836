//! Laws about the states of ports. A law is a function that does nothing: its contract says it.
ghost use Rattle.std.specs.Prelude.{◌≡◌, ℕ, true, List, [], ◌∷◌, ◌++◌, map, Some};
ghost use Rattle.std.specs.List.{All};
ghost use Rattle.std.specs.Ordering.{nat_cmp};
ghost use Rattle.std.specs.declared.result.Result.TheVariants.{Ok};
ghost use Rattle.br_model.specs.declared.change.Change.{Change};
ghost use Rattle.br_model.specs.declared.steps.Event.{Event};
ghost use Rattle.br_model.specs.declared.steps.Step.{Step};
ghost use Rattle.br_model.specs.declared.tree.TreeEvent.{TreeEvent};
ghost use Rattle.br_model.specs.Control.Control.{Control};
ghost use Rattle.br_model.specs.Control.Course.{Course, makes};
ghost use Rattle.br_model.specs.Control.Reaction.{Reaction, react};
ghost use Rattle.br_model.specs.Control.TreeReaction.{states};
ghost use Rattle.br_model.specs.Data.Maps.{get};
ghost use Rattle.br_model.specs.Forward.Admission.{is_up};
ghost use Rattle.br_model.specs.Plane.Runs.{run};
ghost use Rattle.br_model.specs.Table.Setup.{Setup};
ghost use Rattle.br_model.specs.Table.Table.{Table, start, table};
ghost use Rattle.br_model.specs.Theorems.StatesAgree.{StatesAgree, IsBeyond, IsUnknown, with_change};
ghost use Rattle.br_model.specs.Tree.Step.{tree_step};
ghost use Rattle.br_model.specs.Tree.Tree.{Tree, first_tree, state_at};
ghost use Rattle.br_model.specs.Worked.Hold.{soft_ports};
ghost use Rattle.br_model.specs.Worked.Laws.{full_of_addresses, one_address_more, tree_steps};

/// The table and the spanning tree have the same ports up, each in the same state: at first, after every reaction, and so after every
/// run, whether the tree is on or off.
pub fn states_agree()
    ensures first { (own : ℕ) → StatesAgree start (first_tree own) }
    ensures kept { (history : List Change) (setup : Setup) (control : Control) (event : Event) (r : Reaction)
        → StatesAgree (table history) control.tree → react setup history control event ≡ Ok r → StatesAgree (table (history ++ r.changes)) r.control.tree }
    ensures run { (setup : Setup) (steps : List Step) → StatesAgree (table (run setup steps).0.history) (run setup steps).0.control.tree }
    ensures each { (setup : Setup) (steps : List Step) (port : ℕ) → is_up (table (run setup steps).0.history) port ≡ true
        → get nat_cmp (table (run setup steps).0.history).state port ≡ Some (state_at (run setup steps).0.control.tree port) }
{}

/// A change is left out of a reaction just where it comes on top of a full table: it is a new address, or a new pair of VLAN and group,
/// beyond the limit. A state that Linux doesn't number would be left out too, but in no run does the spanning tree have one.
pub fn beyond_is_left_out()
    ensures made { (r : Course) (c : Change) → (¬ IsBeyond r.table c) → (¬ IsUnknown c) → makes r c ≡ with_change r c }
    ensures beyond { (r : Course) (c : Change) → IsBeyond r.table c → makes r c ≡ r }
    ensures unknown { (r : Course) (c : Change) → IsUnknown c → makes r c ≡ r }
    ensures run { (setup : Setup) (steps : List Step) (now : ℕ) (event : TreeEvent)
        → All (λ c. ¬ IsUnknown c) (states (run setup steps).0.control.tree (tree_step (run setup steps).0.control.tree now event).tree) }
{}

/// One port learns while the other one listens, in the table and in the tree.
pub fn states_of_a_run()
    ensures table { (table (run soft_ports tree_steps).0.history).state ≡ (1, 2) ∷ (2, 1) ∷ [] }
    ensures tree { map (state_at (run soft_ports tree_steps).0.control.tree) (1 ∷ 2 ∷ []) ≡ 2 ∷ 1 ∷ [] }
{}

/// An address on top of as many as may be.
pub fn one_address_too_many()
    ensures { IsBeyond full_of_addresses.table one_address_more }
{}
