//! Laws about the world of a bridge with chips. A law is a function that does nothing: its contract says it.
ghost use Rattle.std.specs.Prelude.{◌≡◌, ◌≤◌, ℕ, true, List, ◌∷◌, ◌++◌, take, is_some, Ok, Some};
ghost use Rattle.br_model.specs.declared.frame.Head.{Head};
ghost use Rattle.br_model.specs.declared.steps.Step.{Step};
ghost use Rattle.br_model.specs.declared.steps.Step.TheVariants.{Rx};
ghost use Rattle.br_model.specs.Table.Domains.{Domains, domain_of, has_chip};
ghost use Rattle.br_model.specs.Wire.Frames.{frame};
ghost use Rattle.br_model.specs.Forward.Leave.{leave};
ghost use Rattle.br_model.specs.Table.Cut.{deferred_of, synchronous_of};
ghost use Rattle.br_model.specs.Theorems.Agreement.{IsSettled, IsUndisturbed};
ghost use Rattle.br_model.specs.Theorems.Applied.{applied};
ghost use Rattle.br_model.specs.Plane.Runs.{run};
ghost use Rattle.br_model.specs.Theorems.Invariants.{IsWorld};
ghost use Rattle.br_model.specs.Theorems.OnceOnly.{LinesStand};
ghost use Rattle.br_model.specs.Plane.Steps.{world_step};
ghost use Rattle.br_model.specs.Plane.World.{World, first_world, chip_at, table_of_chip};
ghost use Rattle.br_model.specs.Table.Setup.{Setup};
ghost use Rattle.br_model.specs.Plane.Chip.{Chip};
ghost use Rattle.br_model.specs.Plane.Sending.{times, sent_of, in_port_order, both_shares};
ghost use Rattle.br_model.specs.Table.Table.{Table, table};

/// By one table the chip and software together send a frame to the ports that one bridge gives.
pub fn shares_together()
    ensures { (domains : Domains) (t : Table) (port : ℕ) (bytes : List ℕ) (head : Head) → is_some (domain_of domains port) ≡ true
        → in_port_order (both_shares domains t t port bytes head) ≡ leave t port bytes head }
{}

/// The chip and software never both send a frame to one port, by whichever table software decides later.
pub fn shares_apart()
    ensures { (domains : Domains) (t later : Table) (port : ℕ) (bytes : List ℕ) (head : Head) → is_some (domain_of domains port) ≡ true
        → (q : ℕ) → times q (both_shares domains t later port bytes head) ≤ 1 }
{}

/// What holds of the first world, and what each step keeps.
pub fn kept()
    ensures first { (setup : Setup) → IsWorld (first_world setup) }
    ensures step { (w : World) (step : Step) → IsWorld w → IsWorld (world_step w step).0 }
    ensures run { (setup : Setup) (steps : List Step) → IsWorld (run setup steps).0 }
{}

/// Each chip decides by the table of what it has applied, which holds each synchronous change and the first deferred ones once,
/// each kind in order.
pub fn applied()
    ensures table { (setup : Setup) (steps : List Step) (dom : ℕ) (c : Chip) → chip_at (run setup steps).0 dom ≡ Some c
        → table (applied setup dom steps) ≡ table_of_chip (run setup steps).0 c }
    ensures synchronous { (setup : Setup) (steps : List Step) (dom : ℕ) (c : Chip) → chip_at (run setup steps).0 dom ≡ Some c
        → synchronous_of setup.domains.edition (applied setup dom steps) ≡ synchronous_of setup.domains.edition (run setup steps).0.history }
    ensures deferred { (setup : Setup) (steps : List Step) (dom : ℕ) (c : Chip) → chip_at (run setup steps).0 dom ≡ Some c
        → deferred_of setup.domains.edition (applied setup dom steps) ≡ take c.count (deferred_of setup.domains.edition (run setup steps).0.history) }
{}

/// There is a chip for just each domain that exists.
pub fn chips_stay()
    ensures { (setup : Setup) (steps : List Step) (dom : ℕ) → is_some (chip_at (run setup steps).0 dom) ≡ has_chip setup.domains dom }
{}

/// No frame leaves a port twice.
pub fn once_only()
    ensures { (setup : Setup) (steps : List Step) (id port : ℕ) → times port (sent_of id (run setup steps).1) ≤ 1 }
{}

/// What the lines of a run say of frames that wait or are held, and of those that are sent.
pub fn lines_stand()
    ensures { (setup : Setup) (steps : List Step) → LinesStand (run setup steps).0 (run setup steps).1 }
{}

/// A frame that enters a settled bridge by a port of a chip, and is sent before another change is accepted, leaves as by one
/// bridge.
pub fn agreement()
    ensures { (setup : Setup) (before after : List Step) (port : ℕ) (bytes : List ℕ) (head : Head)
        → frame bytes ≡ Ok head → IsSettled (run setup before).0 port → IsUndisturbed setup before port bytes after
        → in_port_order (sent_of (run setup before).0.next (run setup (before ++ Rx port bytes ∷ after)).1)
        ≡ leave (table (run setup before).0.history) port bytes head }
{}
