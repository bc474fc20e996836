//! Updates and changes in few bytes.
ghost use Rattle.std.specs.Prelude.{◌≡◌};
ghost use Rattle.br_model.specs.Table.Parcels.{change_in, update_of, whole};

use crate::change::{Change, Flags, Kind, Update};
use crate::group::Group;
use crate::numbers::{Mac, Port, Vid};
use std::marker::Model;
use std::mem::size_of;

/// An update in few bytes, since a queue has room for all that a run can have. Contracts see it as the update.
#[derive(Drop)]
pub struct Parcel {
    form: Form,
}

const _: () = prove!(size_of::<Parcel>() == 24);

impl Model for Parcel {
    ghost use Rattle.br_model.specs.declared.change.Update.{Update};
    ghost use Rattle.br_model.specs.Table.Parcels.{update_of};

    ghost Value = { Update };

    ghost view = { λ p. update_of p.form };
}

/// A change with its ticket; an IPv6 group is in two halves. Ports, VLANs and tickets stand in front of what is wider, so that no byte
/// is lost between them.
#[derive(Clone, Copy)]
enum Form {
    PortUp(Port, u32),
    PortDown(Port, u32),
    SetFlags(Port, u32, Flags),
    SetState(Port, u32, u8),
    VlanAdd(Port, Vid, u32, bool, bool),
    VlanDel(Port, Vid, u32),
    JoinFour(Port, Vid, u32, u32),
    JoinSix(Port, Vid, u32, u64, u64),
    PartFour(Port, Vid, u32, u32),
    PartSix(Port, Vid, u32, u64, u64),
    Router(Port, u32, bool),
    Querier(u32, bool, bool),
    Snoop(u32, bool),
    Stp(u32, bool),
    AddrPut(Port, Vid, u32, Mac, Kind),
    AddrDel(Vid, u32, Mac),
}

impl Parcel {
    pub fn of(update: Update) -> Parcel
        ensures { result ≡ update }
    {
        Parcel {
            form: form_of(update.ticket, update.change),
        }
    }

    pub fn update(self) -> Update
        ensures { result ≡ self }
    {
        Update {
            ticket: self.form.ticket(),
            change: self.form.change(),
        }
    }
}

/// A change in few bytes, since changes that aren't published may be as many as a run can have. `change_in` says which it is.
#[derive(Clone, Copy)]
pub struct Slip {
    // The ticket is 0.
    form: Form,
}

const _: () = prove!(size_of::<Slip>() == 24);

impl Slip {
    pub fn of(change: Change) -> Slip
        ensures { change_in result ≡ change }
    {
        Slip {
            form: form_of(0, change),
        }
    }

    pub fn change(self) -> Change
        ensures { result ≡ change_in self }
    {
        self.form.change()
    }
}

fn form_of(n: u32, change: Change) -> Form
    ensures { update_of result ≡ record { ticket = n; change = change } }
{
    match change {
        Change::PortUp(port) => Form::PortUp(port, n),
        Change::PortDown(port) => Form::PortDown(port, n),
        Change::SetFlags(port, flags) => Form::SetFlags(port, n, flags),
        Change::SetState(port, state) => Form::SetState(port, n, state),
        Change::VlanAdd {
            port,
            vid,
            untagged,
            pvid,
        } => Form::VlanAdd(port, vid, n, untagged, pvid),
        Change::VlanDel { port, vid } => Form::VlanDel(port, vid, n),
        Change::GroupJoin { port, vid, group } => join(port, vid, n, group),
        Change::GroupPart { port, vid, group } => part(port, vid, n, group),
        Change::Router { port, on } => Form::Router(port, n, on),
        Change::Querier { six, on } => Form::Querier(n, six, on),
        Change::Snoop(on) => Form::Snoop(n, on),
        Change::Stp(on) => Form::Stp(n, on),
        Change::AddrPut {
            vid,
            mac,
            port,
            kind,
        } => Form::AddrPut(port, vid, n, mac, kind),
        Change::AddrDel { vid, mac } => Form::AddrDel(vid, n, mac),
    }
}

fn join(port: Port, vid: Vid, n: u32, group: Group) -> Form
    ensures { update_of result ≡ record { ticket = n; change = Change.GroupJoin port vid group } }
{
    match group {
        Group::V4(address) => Form::JoinFour(port, vid, n, address),
        Group::V6(address) => {
            let (high, low) = halves(address);
            Form::JoinSix(port, vid, n, high, low)
        }
    }
}

fn part(port: Port, vid: Vid, n: u32, group: Group) -> Form
    ensures { update_of result ≡ record { ticket = n; change = Change.GroupPart port vid group } }
{
    match group {
        Group::V4(address) => Form::PartFour(port, vid, n, address),
        Group::V6(address) => {
            let (high, low) = halves(address);
            Form::PartSix(port, vid, n, high, low)
        }
    }
}

impl Form {
    fn ticket(self) -> u32
        ensures { result ≡ (update_of self).ticket }
    {
        match self {
            Form::PortUp(_, n)
            | Form::PortDown(_, n)
            | Form::SetFlags(_, n, _)
            | Form::SetState(_, n, _)
            | Form::VlanAdd(_, _, n, _, _)
            | Form::VlanDel(_, _, n)
            | Form::JoinFour(_, _, n, _)
            | Form::JoinSix(_, _, n, _, _)
            | Form::PartFour(_, _, n, _)
            | Form::PartSix(_, _, n, _, _)
            | Form::Router(_, n, _)
            | Form::Querier(n, _, _)
            | Form::Snoop(n, _)
            | Form::Stp(n, _)
            | Form::AddrPut(_, _, n, _, _)
            | Form::AddrDel(_, n, _) => n,
        }
    }

    fn change(self) -> Change
        ensures { result ≡ (update_of self).change }
    {
        match self {
            Form::PortUp(port, _) => Change::PortUp(port),
            Form::PortDown(port, _) => Change::PortDown(port),
            Form::SetFlags(port, _, flags) => Change::SetFlags(port, flags),
            Form::SetState(port, _, state) => Change::SetState(port, state),
            Form::VlanAdd(port, vid, _, untagged, pvid) => Change::VlanAdd {
                port,
                vid,
                untagged,
                pvid,
            },
            Form::VlanDel(port, vid, _) => Change::VlanDel { port, vid },
            Form::JoinFour(port, vid, _, address) => joined(port, vid, Group::V4(address)),
            Form::JoinSix(port, vid, _, high, low) => joined(port, vid, group_six(high, low)),
            Form::PartFour(port, vid, _, address) => parted(port, vid, Group::V4(address)),
            Form::PartSix(port, vid, _, high, low) => parted(port, vid, group_six(high, low)),
            Form::Router(port, _, on) => Change::Router { port, on },
            Form::Querier(_, six, on) => Change::Querier { six, on },
            Form::Snoop(_, on) => Change::Snoop(on),
            Form::Stp(_, on) => Change::Stp(on),
            Form::AddrPut(port, vid, _, mac, kind) => Change::AddrPut {
                vid,
                mac,
                port,
                kind,
            },
            Form::AddrDel(vid, _, mac) => Change::AddrDel { vid, mac },
        }
    }
}

fn joined(port: Port, vid: Vid, group: Group) -> Change
    ensures { result ≡ Change.GroupJoin port vid group }
{
    Change::GroupJoin { port, vid, group }
}

fn parted(port: Port, vid: Vid, group: Group) -> Change
    ensures { result ≡ Change.GroupPart port vid group }
{
    Change::GroupPart { port, vid, group }
}

/// The high and the low half of an address.
fn halves(address: u128) -> (u64, u64)
    ensures { whole result.0 result.1 ≡ address }
{
    ((address >> 64) as u64, (address % (1 << 64)) as u64)
}

fn group_six(high: u64, low: u64) -> Group
    ensures { result ≡ Group.V6 (whole high low) }
{
    Group::V6((u128::from(high) << 64) + u128::from(low))
}
