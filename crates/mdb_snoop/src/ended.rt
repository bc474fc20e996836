//! Lists of memberships, and what ends at a moment.
ghost use Rattle.std.specs.Prelude.{◌≡◌, [], false};

use br_model::group::Group;
use br_model::numbers::{Port, Vid};
use port_sets::Ports;
use std::alloc::Global;
use std::marker::Model;

/// Groups in VLANs, ascending by VLAN and group, version 4 first.
#[derive(Drop)]
pub struct Pairs {
    pairs: Vec<(Vid, Group)>,
}

impl Model for Pairs {
    ghost use Rattle.std.specs.Prelude.{List};
    ghost use Rattle.br_model.specs.Table.GroupPairs.{GroupPair};

    ghost Value = { List GroupPair };

    ghost view = { λ p. p.pairs.items };
}

impl Pairs {
    pub(crate) fn of(pairs: Vec<(Vid, Group)>) -> Pairs
        ensures { result ≡ pairs.items }
    {
        Pairs { pairs }
    }

    pub fn as_slice(&self) -> &[(Vid, Group)]
        ensures { result.now ≡ self.now }
    {
        self.pairs.as_slice()
    }
}

/// Memberships, ascending by VLAN, group and port.
#[derive(Drop)]
pub struct Memberships {
    members: Vec<(Vid, Group, Port)>,
}

impl Model for Memberships {
    ghost use Rattle.std.specs.Prelude.{List};
    ghost use Rattle.br_model.specs.Table.Groups.{Membership};

    ghost Value = { List Membership };

    ghost view = { λ m. m.members.items };
}

impl Memberships {
    pub(crate) fn of(members: Vec<(Vid, Group, Port)>) -> Memberships
        ensures { result ≡ members.items }
    {
        Memberships { members }
    }

    pub fn as_slice(&self) -> &[(Vid, Group, Port)]
        ensures { result.now ≡ self.now }
    {
        self.members.as_slice()
    }
}

/// What ends at a moment or before it: memberships, router ports, and the queriers of IP versions 4 and 6.
#[derive(Drop)]
pub struct Ended {
    pub groups: Memberships,
    pub routers: Ports,
    pub four: bool,
    pub six: bool,
}

impl Ended {
    pub(crate) fn nothing(alloc: Global) -> Ended
        ensures groups { result.groups ≡ [] }
        ensures routers { result.routers ≡ [] }
        ensures four { result.four ≡ false }
        ensures six { result.six ≡ false }
    {
        Ended {
            groups: Memberships::of(Vec::new(alloc)),
            routers: Ports::empty(),
            four: false,
            six: false,
        }
    }
}
