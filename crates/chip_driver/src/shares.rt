//! What a port has in the rows of a VLAN, and which of them a change touches.
ghost use Rattle.std.specs.Prelude.{◌≡◌, ◌&&◌, not, false};
ghost use Rattle.chip_driver.specs.Shares.{shares_of, Touches};

use crate::shadow::Shadow;
use br_model::numbers::Port;

/// What a port has in one row: whether it is among the row's ports, and whether it asks for each of the two bits.
#[derive(Clone, Copy)]
pub struct Share {
    pub ports: bool,
    pub isolated: bool,
    pub plain: bool,
}

/// What a port has in each row of a VLAN of which it is a member or not, and in the row of a group of which it is a member.
#[derive(Clone, Copy)]
pub struct Shares {
    pub unicast: Share,
    pub mcast: Share,
    pub bcast: Share,
    pub routers: Share,
    pub groups: Share,
}

/// Which rows of a VLAN a change of one port touches: each of the others is what it was.
#[derive(Clone, Copy)]
pub struct Touched {
    pub unicast: bool,
    pub mcast: bool,
    pub bcast: bool,
    pub routers: bool,
    pub groups: bool,
}

/// What a port of the chip or another one has in a row, as a target or not, by whether it may get frames from a plain ingress port
/// and from an isolated one.
#[inline(always)]
fn share_of(own: bool, eligible: bool, free: bool, target: bool) -> Share
    ensures { result ≡ record { ports = own && target; isolated = not own && (target && free); plain = not own && (target && eligible) } }
{
    Share {
        ports: own && target,
        isolated: !own && (target && free),
        plain: !own && (target && eligible),
    }
}

/// Whether the two differ.
#[inline(always)]
fn differ(old: Share, new: Share) -> bool
    ensures { result ≡ false → old ≡ new }
{
    old.ports != new.ports || old.isolated != new.isolated || old.plain != new.plain
}

impl Touched {
    /// Where the port was a member of a VLAN or not, and is now or isn't.
    #[inline(always)]
    pub fn by_member(shadow: &Shadow, port: Port, was: bool, is: bool) -> Touched
        ensures { Touches (shares_of shadow.now port was) (shares_of shadow.now port is) result }
    {
        let n = port.number();
        let host = port.is_host();
        let switched = was != is;
        Touched {
            unicast: switched && shadow.flood.has(n),
            mcast: switched && (host || shadow.mcast_flood.has(n)),
            bcast: switched && (host || shadow.bcast_flood.has(n)),
            routers: switched && shadow.routers.has(n),
            groups: switched && !shadow.own.has(n),
        }
    }
}

impl Shares {
    /// What the port has in the rows of a VLAN, as a member of it or not.
    #[inline(always)]
    pub fn of(shadow: &Shadow, port: Port, member: bool) -> Shares
        ensures { result ≡ shares_of shadow.now port member }
    {
        let n = port.number();
        let host = port.is_host();
        let own = shadow.own.has(n);
        let eligible = member && (host || shadow.forwarding.has(n));
        let free = eligible && (host || !shadow.isolated.has(n));
        let mcast = host || (member && shadow.mcast_flood.has(n));
        let bcast = host || (member && shadow.bcast_flood.has(n));
        Shares {
            unicast: share_of(own, eligible, free, member && shadow.flood.has(n)),
            mcast: share_of(own, eligible, free, mcast),
            bcast: share_of(own, eligible, free, bcast),
            routers: share_of(own, eligible, free, shadow.routers.has(n) && member),
            groups: share_of(own, eligible, free, true),
        }
    }

    /// The rows in which the port now has something else.
    #[inline(always)]
    pub fn touched(&self, new: &Shares) -> Touched
        ensures { Touches self.now new.now result }
    {
        Touched {
            unicast: differ(self.unicast, new.unicast),
            mcast: differ(self.mcast, new.mcast),
            bcast: differ(self.bcast, new.bcast),
            routers: differ(self.routers, new.routers),
            groups: differ(self.groups, new.groups),
        }
    }
}
