//! Laws about the notices of a run. A law is a function that does nothing: its contract says it.
ghost use Rattle.std.specs.Prelude.{◌≡◌, ◌==◌, ◌+◌, ◌++◌, ◌∷◌, [], ℕ, List, None, Some, if◌then◌else◌, length, map, take};
ghost use Rattle.std.specs.List.{flat_map};
ghost use Rattle.br_model.specs.declared.change.Change.{Change};
ghost use Rattle.br_model.specs.declared.domains.Edition.{Edition};
ghost use Rattle.br_model.specs.declared.steps.Step.{Step};
ghost use Rattle.br_model.specs.Plane.Runs.{run};
ghost use Rattle.br_model.specs.Plane.Chip.{Chip};
ghost use Rattle.br_model.specs.Plane.World.{World, chip_at};
ghost use Rattle.br_model.specs.Table.Change.{deferred};
ghost use Rattle.br_model.specs.Table.Setup.{Setup};
ghost use Rattle.br_model.specs.Theorems.Applied.{accepted_in, applied, applied_in};
ghost use Rattle.driver_notices.specs.Notices.{lines, lines_in, notices_of};
ghost use Rattle.driver_notices.specs.Views.{accepted_by, of_step, queue, queued_by, reached_by, taken_by};
ghost use Rattle.driver_notices.specs.Worked.{bad_notices, bad_text, station_notices, station_text, two_queues_notices, two_queues_text};
ghost use Rattle.switchdev_notify.specs.Notices.{notice, told_in};

/// Each accepted change is told or put into the queues once, and in order.
pub fn changes_are_told()
    ensures { (setup : Setup) (steps : List Step) → flat_map accepted_by (lines setup steps) ≡ (run setup steps).0.history }
{}

/// What is put into the queues is the list of updates, numbered from 1.
pub fn updates_are_queued()
    ensures { (setup : Setup) (steps : List Step) → flat_map queued_by (lines setup steps) ≡ queue setup.domains.edition (run setup steps).0.history }
{}

/// What the chip of a domain takes is the beginning of the queue, in order, as long as its count says. So no update comes twice or out of
/// order. Where there is no chip, nothing is taken.
pub fn turns_take_the_beginning()
    ensures chip { (setup : Setup) (steps : List Step) (dom : ℕ) (c : Chip) → chip_at (run setup steps).0 dom ≡ Some c
        → flat_map (taken_by dom) (lines setup steps) ≡ take c.count (queue setup.domains.edition (run setup steps).0.history) }
    ensures none { (setup : Setup) (steps : List Step) (dom : ℕ) → chip_at (run setup steps).0 dom ≡ None
        → flat_map (taken_by dom) (lines setup steps) ≡ [] }
{}

/// The lines with the number of a step are just its own. They say what it accepts, and what it brings to the chip of a domain.
pub fn lines_stand_under_their_step()
    ensures own { (setup : Setup) (before : List Step) (step : Step) (after : List Step)
        → of_step (length before + 1) (lines setup (before ++ step ∷ after)) ≡ lines_in (run setup before).0 step }
    ensures accepted { (w : World) (step : Step) → flat_map accepted_by (lines_in w step) ≡ accepted_in w step }
    ensures reached { (w : World) (step : Step) (dom : ℕ) → flat_map (reached_by dom) (lines_in w step) ≡ applied_in dom w step }
{}

/// What the lines bring to the chip of a domain is what it has applied, in its order. So the chip decides by the table of these changes.
pub fn lines_reach_the_chips()
    ensures { (setup : Setup) (steps : List Step) (dom : ℕ) → flat_map (reached_by dom) (lines setup steps) ≡ applied setup dom steps }
{}

/// A driver is told at once of just the changes that aren't put into its queue, by their notices.
pub fn told_by_notices()
    ensures { (edition : Edition) (c : Change) → told_in edition (notice c) ≡ (if deferred edition c then None else Some c) }
{}

/// A port of a chip joins, gets a VLAN, learns a station and loses it.
pub fn station()
    ensures { notices_of station_text ≡ station_notices }
{}

/// Two chips, each with its own turns, in edition 2.
pub fn two_queues()
    ensures { notices_of two_queues_text ≡ two_queues_notices }
{}

/// A bad line ends the notices, too.
pub fn bad_line()
    ensures { notices_of bad_text ≡ bad_notices }
{}
