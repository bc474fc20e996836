//! Numbers that their types keep in range: ports, domains, VLANs and addresses.
ghost use Rattle.std.specs.Prelude.{◌≡◌, ◌==◌, ◌≤◌, ◌<◌, ◌+◌, ◌*◌, ◌^◌, ◌↔◌, IsSome, IfSome};
ghost use Rattle.br_model.specs.Data.Numbers.{number, is_multicast};
ghost use Rattle.br_model.specs.Forward.Targets.{is_for_the_host};
ghost use Rattle.br_model.specs.Table.Domains.{last_chip, last_port, port_places};

use std::marker::Model;

/// A port of the bridge, from 0 to `LAST`. Port 0 is the host.
#[derive(Clone, Copy, PartialEq, Eq, PartialOrd, Ord, Debug)]
pub struct Port {
    number: u8,
}

impl Model for Port {
    ghost use Rattle.std.specs.Prelude.{ℕ, ◌≤◌};
    ghost use Rattle.br_model.specs.Table.Domains.{last_port};

    ghost Value = { ℕ };

    ghost view = { λ p. p.number };

    ghost invariant = { λ p. p.number ≤ last_port };

    ghost inverse = { λ n. record { number = n } };
}

impl Port {
    pub const HOST: Port = Port { number: 0 };

    /// The number of the last port.
    pub const LAST: u8 = 254;

    /// How many places a set of ports and a table by port have, from 0 on: as many at least as there are ports.
    pub const PLACES: usize = 256;

    /// The port of a number that stands in the program, as in `Port::of::<3>()`.
    pub fn of<const N: u8>() -> Port
        requires { N ≤ last_port }
        ensures { result ≡ N }
    {
        Port { number: N }
    }

    /// `None` exactly above `LAST`.
    pub fn new(number: u8) -> Option<Port>
        ensures found { IsSome result ↔ (number ≤ last_port) }
        ensures value { IfSome result (λ p. p ≡ number) }
    {
        if number <= Port::LAST {
            Some(Port { number })
        } else {
            None
        }
    }

    pub fn number(self) -> u8
        ensures value { result ≡ self }
        ensures last { self ≤ last_port }
        ensures below { self < port_places }
    {
        self.number
    }

    pub fn is_host(self) -> bool
        ensures { result ≡ (self == 0) }
    {
        self.number == 0
    }
}

/// The domain of a port, from 0 to `LAST`: 0 is software, the others are of chips.
#[derive(Clone, Copy, PartialEq, Eq, Debug)]
pub struct Dom {
    number: u8,
}

impl Model for Dom {
    ghost use Rattle.std.specs.Prelude.{ℕ, ◌≤◌};
    ghost use Rattle.br_model.specs.Table.Domains.{last_chip};

    ghost Value = { ℕ };

    ghost view = { λ d. d.number };

    ghost invariant = { λ d. d.number ≤ last_chip };

    ghost inverse = { λ n. record { number = n } };
}

impl Dom {
    pub const SOFTWARE: Dom = Dom { number: 0 };

    /// The domain that always has a chip.
    pub const CHIP: Dom = Dom { number: 1 };

    /// The number of the last domain.
    pub const LAST: u8 = 4;

    /// How many places a table by domain has, from 0 on.
    pub const PLACES: usize = 5;

    /// `None` exactly above `LAST`.
    pub fn new(number: u8) -> Option<Dom>
        ensures found { IsSome result ↔ (number ≤ last_chip) }
        ensures value { IfSome result (λ d. d ≡ number) }
    {
        if number <= Dom::LAST {
            Some(Dom { number })
        } else {
            None
        }
    }

    pub fn number(self) -> u8
        ensures value { result ≡ self }
        ensures below { self ≤ last_chip }
    {
        self.number
    }
}

/// A VLAN, from 1 to 4094.
#[derive(Clone, Copy, PartialEq, Eq, PartialOrd, Ord, Debug)]
pub struct Vid {
    number: u16,
}

impl Model for Vid {
    ghost use Rattle.std.specs.Prelude.{ℕ, ◌<◌, ◌≤◌};

    ghost Value = { ℕ };

    ghost view = { λ v. v.number };

    ghost invariant = { λ v. (1 ≤ v.number) × (v.number ≤ 4094) };

    ghost inverse = { λ n. record { number = n } };
}

impl Vid {
    /// The VLAN that a port is a member of when it comes up.
    pub const DEFAULT: Vid = Vid { number: 1 };

    /// `None` exactly outside 1 to 4094.
    pub fn new(number: u16) -> Option<Vid>
        ensures found { IsSome result ↔ ((1 ≤ number) × (number ≤ 4094)) }
        ensures value { IfSome result (λ v. v ≡ number) }
    {
        if number >= 1 && number <= 4094 {
            Some(Vid { number })
        } else {
            None
        }
    }

    pub fn number(self) -> u16
        ensures value { result ≡ self }
        ensures low { 1 ≤ self }
        ensures high { self ≤ 4094 }
    {
        self.number
    }
}

/// A MAC address, seen as the number that its six bytes spell, the first byte highest.
#[derive(Clone, Copy, PartialEq, Eq, PartialOrd, Ord, Debug)]
pub struct Mac {
    number: u64,
}

impl Model for Mac {
    ghost use Rattle.std.specs.Prelude.{ℕ, ◌<◌, ◌^◌};

    ghost Value = { ℕ };

    ghost view = { λ m. m.number };

    ghost invariant = { λ m. m.number < 2 ^ 48 };

    ghost inverse = { λ n. record { number = n } };
}

impl Mac {
    /// 01-80-C2-00-00-00, the bridge group address (IEEE 802.1D-1998 table 7-9), as a number.
    pub const BRIDGE_GROUP_ADDRESS: u64 = 0x0180_C200_0000;

    /// 01-80-C2-00-00-01, the address of PAUSE frames (IEEE 802.3 annex 31B), as a number.
    pub const PAUSE_ADDRESS: u64 = 0x0180_C200_0001;

    /// 01-80-C2-00-00-0F, the last reserved address (IEEE 802.1D-1998 table 7-9), as a number.
    pub const LAST_RESERVED_ADDRESS: u64 = 0x0180_C200_000F;

    /// FF-FF-FF-FF-FF-FF, as a number.
    pub const BROADCAST_ADDRESS: u64 = 0xFFFF_FFFF_FFFF;

    /// How far apart the numbers of one address in two VLANs that follow one another are.
    pub const VLAN_STEP: u64 = 1 << 48;

    /// 02:00:00:00:00:01, the bridge's own address where a scenario names none.
    pub const FIRST_OWN: Mac = Mac {
        number: 0x0200_0000_0001,
    };

    /// Of the bytes in the order of the wire.
    pub fn new(b: [u8; 6]) -> Mac
        ensures { result ≡ number b }
    {
        let mut number = 0u64;
        for byte in b {
            number = 256 * number + u64::from(byte);
        }
        Mac { number }
    }

    /// `None` exactly from 2^48 on.
    pub fn from_number(number: u64) -> Option<Mac>
        ensures found { IsSome result ↔ (number < 2 ^ 48) }
        ensures value { IfSome result (λ m. m ≡ number) }
    {
        if number < 1 << 48 {
            Some(Mac { number })
        } else {
            None
        }
    }

    pub fn number(self) -> u64
        ensures value { result ≡ self }
        ensures below { self < 2 ^ 48 }
    {
        self.number
    }

    /// The number of the address in a VLAN: the VLAN above the 48 bits of the address.
    #[inline(always)]
    pub fn in_vlan(self, vid: Vid) -> u64
        ensures value { result ≡ vid * 2 ^ 48 + self }
        ensures low { 1 ≤ vid }
        ensures high { vid ≤ 4094 }
        ensures below { self < 2 ^ 48 }
    {
        u64::from(vid.number()) * Mac::VLAN_STEP + self.number
    }

    /// Whether it names a group: the lowest bit of the first byte.
    pub fn is_multicast(self) -> bool
        ensures { result ≡ is_multicast self }
    {
        self.number >> 40 & 1 == 1
    }

    /// Whether it is one of 01-80-C2-00-00-02 to 0F.
    pub fn is_for_the_host(self) -> bool
        ensures { result ≡ is_for_the_host self }
    {
        Mac::PAUSE_ADDRESS < self.number && self.number <= Mac::LAST_RESERVED_ADDRESS
    }
}
