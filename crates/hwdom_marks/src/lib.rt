//! Marks of frames: the domain of a switch chip that has forwarded a frame already, so that software doesn't send it there.
//!
//! It is the kernel's `offload_fwd_mark` with the hardware domain of the port by which the frame came.
#![tactic(auto)]

ghost use Rattle.std.specs.Prelude.{◌≡◌, not};
ghost use Rattle.std.specs.List.{filter};
ghost use Rattle.br_model.specs.Table.DomainPorts.{is_marked};
ghost use Rattle.hwdom_marks.specs.Marks.{domain_marked};

use br_model::domains::Domains;
use br_model::numbers::Dom;
use port_sets::Ports;

/// The mark of a frame that its chip has forwarded to the ports of the domain.
#[derive(Clone, Copy, PartialEq, Eq)]
pub struct Mark {
    pub dom: Dom,
}

/// The ports to which software sends a frame with this mark, of those that the frame is to leave by: the kernel's
/// `nbp_switchdev_allowed_egress`.
pub fn remaining(ports: Ports, mark: Option<Mark>, d: &Domains) -> Ports
    ensures { result ≡ filter (λ port. not (is_marked d.now (domain_marked mark) port)) ports }
{
    match mark {
        Some(mark) => {
            // law: the members ascend
            ports.members_ascend();
            ports.minus(d.ports_of(mark.dom))
        }
        None => ports,
    }
}
