//! Laws. A law is a function that does nothing: its contract says it.
ghost use Rattle.std.specs.Prelude.{◌≡◌, List};
ghost use Rattle.std.specs.List.{filter};
ghost use Rattle.br_model.specs.declared.steps.Step.{Step};
ghost use Rattle.br_model.specs.Plane.Runs.{run};
ghost use Rattle.br_model.specs.Plane.World.{chip_at};
ghost use Rattle.br_model.specs.Table.Domains.{chip_domains};
ghost use Rattle.br_model.specs.Table.Setup.{Setup};
ghost use Rattle.live_book.specs.Ends.{has_reports_at, reporting};

/// The chips that have reports left are found by looking up each domain's.
pub fn reports_are_looked_up()
    ensures { (setup : Setup) (steps : List Step) → reporting (run setup steps).0
        ≡ filter (λ d. has_reports_at (chip_at (run setup steps).0 d)) (chip_domains setup.domains) }
{}
