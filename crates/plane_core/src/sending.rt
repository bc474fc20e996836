//! By which ports the chip sends a frame.
ghost use Rattle.std.specs.Prelude.{◌≡◌, ℕ, List};
ghost use Rattle.br_model.specs.Forward.Shares.{chip_out};
ghost use Rattle.br_model.specs.Plane.World.{sent};
ghost use Rattle.br_model.specs.Table.Domains.{Domains};
ghost use Rattle.br_model.specs.Table.Table.{Table};
ghost use Rattle.br_model.specs.Wire.Messages.{message};
ghost use Rattle.br_model.specs.declared.frame.Head.{Head};
ghost use Rattle.chip_pipeline.specs.Passed.{IsPass};
ghost use Rattle.plane_parts.specs.Sent.{lines_of};

use chip_pipeline::Pass;
use plane_parts::Egress;

/// The ports by which the chip that answered so sends the frame.
pub(crate) fn egress_of(pass: &Pass) -> Egress
    ensures { (domains : Domains) (t : Table) (port : ℕ) (bytes : List ℕ) (head : Head) → IsPass domains t port head (message bytes head) pass.now
        → (id : ℕ) → lines_of id bytes head result ≡ sent id (chip_out domains t port bytes head) }
{
    Egress::at_chip(pass.vid(), pass.ports(), pass.untagged())
}
