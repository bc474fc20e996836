//! What the row of a port tells.
ghost use Rattle.std.specs.Prelude.{◌≡◌, ◌<◌};
ghost use Rattle.br_model.specs.Forward.Admission.{learning, forwarding};
ghost use Rattle.br_model.specs.Control.Learning.{learning_flag};
ghost use Rattle.br_model.specs.Forward.Targets.{isolated};
ghost use Rattle.chip_tables.specs.Flags.{row_has_flag, row_is_in};

use br_model::change::{FORWARDING, Flags, LEARNING};
use chip_tables::PortRow;

/// Whether the port is up and forwards.
pub fn forwards(row: &PortRow) -> bool
    ensures { result ≡ row_is_in row.now forwarding }
{
    row.up && row.state == FORWARDING
}

/// Whether the port is up and its state is `learning`.
pub fn is_learning(row: &PortRow) -> bool
    ensures { result ≡ row_is_in row.now learning }
{
    row.up && row.state == LEARNING
}

fn has_flag(row: &PortRow, flag: u8) -> bool
    requires { flag < 8 }
    ensures { result ≡ row_has_flag row.now flag }
{
    row.flags.bits() >> flag & 1 == 1
}

/// Whether the port has the flag `isolated` (Linux's BR_ISOLATED).
pub fn is_isolated(row: &PortRow) -> bool
    ensures { result ≡ row_has_flag row.now isolated }
{
    has_flag(row, Flags::ISOLATED)
}

/// Whether the port has the flag `learning` (Linux's BR_LEARNING), whatever its state is.
pub fn learns(row: &PortRow) -> bool
    ensures { result ≡ row_has_flag row.now learning_flag }
{
    has_flag(row, Flags::LEARNING)
}
