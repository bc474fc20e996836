//! The ports of one VLAN.
ghost use Rattle.std.specs.Prelude.{◌≡◌, ℕ, ◌==◌, ◌&&◌, Some, None, is_some, false, if◌then◌else◌};
ghost use Rattle.std.specs.Option.{unwrap_or};
ghost use Rattle.vlan_groups.specs.Rows.{at_port, no_ports, ports_where};

use br_model::numbers::Port;
use port_sets::Ports;

/// The members of a VLAN, and which of them its frames leave untagged. Whether a port that isn't a member stands among the
/// latter means nothing.
#[derive(Clone, Copy)]
pub struct Row {
    members: Ports,
    untagged: Ports,
}

impl Row {
    /// The row of no member.
    pub fn empty() -> Row
        ensures { result ≡ no_ports }
    {
        Row {
            members: Ports::empty(),
            untagged: Ports::empty(),
        }
    }

    pub fn has(&self, port: Port) -> bool
        ensures { result ≡ is_some (at_port self.now port) }
    {
        self.members.has(port.number())
    }

    /// Whether the port is a member that the VLAN's frames leave without a tag.
    pub fn is_untagged(&self, port: Port) -> bool
        ensures { result ≡ unwrap_or (at_port self.now port) false }
    {
        self.has(port) && self.untagged.has(port.number())
    }

    pub fn members(&self) -> Ports
        ensures { result ≡ ports_where (λ port. is_some (at_port self.now port)) }
    {
        // law: the members ascend
        self.members.members_ascend();
        self.members
    }

    /// The members that the VLAN's frames leave without a tag.
    pub fn untagged(&self) -> Ports
        ensures { result ≡ ports_where (λ port. unwrap_or (at_port self.now port) false) }
    {
        self.members.and(self.untagged)
    }

    /// The row in which the port is a member.
    pub fn with(&self, port: Port, untagged: bool) -> Row
        ensures { (q : ℕ) → at_port result q ≡ (if q == port then Some untagged else at_port self.now q) }
    {
        let number = port.number();
        Row {
            members: self.members.with(number),
            untagged: if untagged {
                self.untagged.with(number)
            } else {
                self.untagged.without(number)
            },
        }
    }

    /// The row in which the port is none.
    pub fn without(&self, port: Port) -> Row
        ensures { (q : ℕ) → at_port result q ≡ (if q == port then None else at_port self.now q) }
    {
        Row {
            members: self.members.without(port.number()),
            untagged: self.untagged,
        }
    }
}
