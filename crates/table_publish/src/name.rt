//! Boards by their names in proofs.
use std::marker::Brand;

/// Which board it is, which ports are in which domain there, and the address of the bridge whose plane stands over it. Each call
/// of a program picks it. A name does nothing.
pub trait Name {
    ghost use Rattle.std.specs.Prelude.{ℕ};
    ghost use Rattle.table_publish.specs.Object.{Whose};

    ghost board: { Whose };

    ghost own: { ℕ };
}

impl Name for Brand {
    ghost use Rattle.std.specs.Prelude.{[]};
    ghost use Rattle.br_model.specs.declared.domains.Edition.TheVariants.{One};

    ghost board = { record { book = record { number = 0; log_name = 0; cells_name = 0 }; domains = record { edition = One; ports = [] } } };

    ghost own = { 0 };
}
