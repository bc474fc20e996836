//! Addresses of IP groups.
ghost use Rattle.std.specs.Prelude.{◌≡◌, ◌↔◌, IsSome, IfSome, IsTrue};
ghost use Rattle.br_model.specs.Table.Groups.{is_six, is_link_local};
ghost use Rattle.br_model.specs.Data.Numbers.{is_group_four, is_group_six};

/// An IP multicast address, as the number that its bytes spell, the first byte highest.
#[derive(Clone, Copy, PartialEq, Eq, PartialOrd, Ord, Debug)]
pub enum Group {
    V4(u32),
    V6(u128),
}

/// Any IP address, as the number that its bytes spell. Not each is a group's.
#[derive(Clone, Copy, PartialEq, Eq)]
pub enum Ip {
    V4(u32),
    V6(u128),
}

impl Group {
    /// `None` exactly where it isn't in 224.0.0.0/4.
    pub fn v4(n: u32) -> Option<Group>
        ensures found { IsSome result ↔ IsTrue (is_group_four n) }
        ensures value { IfSome result (λ g. g ≡ Group.V4 n) }
    {
        if n >> 28 == 14 {
            Some(Group::V4(n))
        } else {
            None
        }
    }

    /// `None` exactly where it isn't in ff00::/8.
    pub fn v6(n: u128) -> Option<Group>
        ensures found { IsSome result ↔ IsTrue (is_group_six n) }
        ensures value { IfSome result (λ g. g ≡ Group.V6 n) }
    {
        if n >> 120 == 255 {
            Some(Group::V6(n))
        } else {
            None
        }
    }

    /// Whether it is an address of IP version 6.
    pub fn is_six(self) -> bool
        ensures { result ≡ is_six self }
    {
        match self {
            Group::V4(_) => false,
            Group::V6(_) => true,
        }
    }

    /// In 224.0.0.0/24, or ff02::1: a group that is always flooded.
    pub fn is_link_local(self) -> bool
        ensures { result ≡ is_link_local self }
    {
        match self {
            Group::V4(n) => n >> 8 == 0x00E0_0000,
            Group::V6(n) => n == 0xFF02_0000_0000_0000_0000_0000_0000_0001,
        }
    }
}
