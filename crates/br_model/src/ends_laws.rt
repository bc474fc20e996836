//! Laws about the ends of what snooping learned. A law is a function that does nothing: its contract says it.
ghost use Rattle.std.specs.Prelude.{◌≡◌, ℕ, List, ◌++◌};
ghost use Rattle.std.specs.declared.result.Result.TheVariants.{Ok};
ghost use Rattle.br_model.specs.declared.change.Change.{Change};
ghost use Rattle.br_model.specs.declared.frame.McastMsg.{McastMsg};
ghost use Rattle.br_model.specs.declared.steps.Event.{Event};
ghost use Rattle.br_model.specs.Control.Control.{Control, keeps_up};
ghost use Rattle.br_model.specs.Control.Course.{Course};
ghost use Rattle.br_model.specs.Control.Ends.{no_ends};
ghost use Rattle.br_model.specs.Theorems.EndsTied.{IsTied};
ghost use Rattle.br_model.specs.Control.Reaction.{Reaction, react};
ghost use Rattle.br_model.specs.Table.Setup.{Setup};
ghost use Rattle.br_model.specs.Control.Snooping.{said};
ghost use Rattle.br_model.specs.Table.Table.{Table, start, apply, table};

/// What snooping learned has its end beside it, and nothing else has one: at first, after each change, after a message, and
/// after every reaction.
pub fn ends_are_tied()
    ensures first { IsTied start no_ends }
    ensures changed { (t : Table) (k : Control) (c : Change) → IsTied t k.ends → IsTied (apply t c) (keeps_up k c).ends }
    ensures told { (port vid : ℕ) (bytes : List ℕ) (m : McastMsg) (r : Course) → IsTied r.table r.control.ends
        → IsTied (said port vid bytes m r).table (said port vid bytes m r).control.ends }
    ensures kept { (history : List Change) (setup : Setup) (control : Control) (event : Event) (r : Reaction)
        → IsTied (table history) control.ends → react setup history control event ≡ Ok r → IsTied (table (history ++ r.changes)) r.control.ends }
{}
