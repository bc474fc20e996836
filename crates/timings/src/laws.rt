//! Laws about timings. A law is a function that does nothing: its contract says it.
ghost use Rattle.std.specs.Prelude.{◌≡◌, ◌≤◌, ◌+◌, is_some, ℕ, Bool, Some, true, false, List};
ghost use Rattle.br_model.specs.declared.steps.Command.{Command};
ghost use Rattle.br_model.specs.declared.steps.Step.TheVariants.{Cmd, Now, Publish, Serve, Turn};
ghost use Rattle.br_model.specs.Plane.Chip.{Chip};
ghost use Rattle.br_model.specs.Plane.Entering.{chip_of};
ghost use Rattle.br_model.specs.Plane.Steps.{world_step};
ghost use Rattle.br_model.specs.Plane.World.{World};
ghost use Rattle.std.specs.Option.{option_map};
ghost use Rattle.br_model.specs.declared.change.Change.{Change};
ghost use Rattle.br_model.specs.declared.domains.Edition.{Edition};
ghost use Rattle.br_model.specs.declared.frame.Class.TheVariants.{Trap};
ghost use Rattle.br_model.specs.declared.frame.Head.{Head};
ghost use Rattle.br_model.specs.Control.Course.{Course};
ghost use Rattle.br_model.specs.Control.Reaction.{sees};
ghost use Rattle.br_model.specs.Forward.Class.{class};
ghost use Rattle.br_model.specs.Table.Cut.{cut};
ghost use Rattle.br_model.specs.Table.DomainPorts.{is_in_domain};
ghost use Rattle.br_model.specs.Table.Domains.{Domains, domain_of, software};
ghost use Rattle.br_model.specs.Table.Setup.{Setup};
ghost use Rattle.br_model.specs.Table.Table.{table};
ghost use Rattle.br_model.specs.Wire.Messages.{message};
ghost use Rattle.timings.specs.Reading.{is_read};
ghost use Rattle.timings.specs.Explained.{frame_sent};
ghost use Rattle.timings.specs.Greedy.{least_from};
ghost use Rattle.timings.specs.Timings.{Alike, Moment, seen_of, timed};

/// A turn changes nothing but the chips and the number of steps.
pub fn turns_are_alike()
    ensures turn { (w : World) (dom : ℕ) → Alike (world_step w (Turn dom)).0 w }
    ensures serve { (w v : World) → Alike w v → Alike (world_step w Serve).0 (world_step v Serve).0 }
    ensures publish { (w v : World) → Alike w v → Alike (world_step w Publish).0 (world_step v Publish).0 }
    ensures command { (c : Command) (w v : World) → Alike w v → Alike (world_step w (Cmd c)).0 (world_step v (Cmd c)).0 }
    ensures moment { (moment : ℕ) (w v : World) → Alike w v → Alike (world_step w (Now moment)).0 (world_step v (Now moment)).0 }
{}

/// A frame that snooping or the spanning tree reads is trapped by every cut of the history, and by which it is read doesn't matter; one
/// that isn't read, and came by a port of a chip, changes nothing when software sees it.
pub fn what_is_read()
    ensures trapped { (domains : Domains) (edition : Edition) (history : List Change) (k port : ℕ) (bytes : List ℕ) (head : Head)
        → is_read (table history) port head (message bytes head) ≡ true → class domains (table (cut edition history k)) port head (message bytes head) ≡ Trap }
    ensures still { (setup : Setup) (port : ℕ) (bytes : List ℕ) (head : Head) (r : Course) → is_in_domain setup.domains software port ≡ false
        → is_read r.table port head (message bytes head) ≡ false → sees setup port bytes head r ≡ r }
{}

/// Whenever the chips apply their updates: two timings of one observation give the same history, control state and frames on their way.
pub fn timings_agree()
    ensures { (setup : Setup) (ms ns : List Moment) → seen_of ms ≡ seen_of ns → Alike (timed setup ms).0 (timed setup ns).0 }
{}

/// What is sent of a frame depends on how much the chip of its own port has applied, and on no other chip.
pub fn own_count()
    ensures { (w v : World) → Alike w v → (port : ℕ) (bytes : List ℕ)
        → option_map (λ (c : Chip). c.count) (chip_of w (domain_of w.setup.domains port)) ≡ option_map (λ (c : Chip). c.count) (chip_of v (domain_of v.setup.domains port))
        → frame_sent w port bytes ≡ frame_sent v port bytes }
{}

/// The search for the fewest turns: what it finds passes, nothing from its start on that passes is below it, and where something within its
/// reach passes, it finds something.
pub fn least_is_least()
    ensures least { (p : ℕ → Bool) (n more k : ℕ) → least_from p n more ≡ Some k → (j : ℕ) → n ≤ j → p j ≡ true → k ≤ j }
    ensures passes { (p : ℕ → Bool) (n more k : ℕ) → least_from p n more ≡ Some k → p k ≡ true }
    ensures found { (p : ℕ → Bool) (n more j : ℕ) → n ≤ j → j ≤ n + more → p j ≡ true → is_some (least_from p n more) ≡ true }
{}
