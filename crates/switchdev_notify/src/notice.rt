//! Notices, and the changes that they tell.
ghost use Rattle.std.specs.Prelude.{◌≡◌, Some, None, if◌then◌else◌};
ghost use Rattle.br_model.specs.Table.Change.{is_of_address};
ghost use Rattle.switchdev_notify.specs.Notices.{notice, change_of};

use br_model::change::{Change, Flags};
use br_model::group::Group;
use br_model::numbers::{Port, Vid};

/// An object of a port: the kernel's `struct switchdev_obj`.
#[derive(Clone, Copy)]
pub enum Object {
    /// `SWITCHDEV_OBJ_ID_PORT_VLAN`, with the flags `BRIDGE_VLAN_INFO_UNTAGGED` and `BRIDGE_VLAN_INFO_PVID`. Where the object
    /// goes, both are false.
    Vlan {
        port: Port,
        vid: Vid,
        untagged: bool,
        pvid: bool,
    },
    /// `SWITCHDEV_OBJ_ID_PORT_MDB`, and for the host's memberships `SWITCHDEV_OBJ_ID_HOST_MDB`. The kernel tells the group by
    /// its MAC address.
    Group {
        port: Port,
        vid: Vid,
        group: Group,
    },
}

/// An attribute of a port or of the bridge: the kernel's `struct switchdev_attr`.
#[derive(Clone, Copy)]
pub enum Attribute {
    /// In the kernel no attribute, but `NETDEV_UP`.
    PortUp(Port),
    /// In the kernel no attribute, but `NETDEV_GOING_DOWN`.
    PortDown(Port),
    /// `SWITCHDEV_ATTR_ID_PORT_BRIDGE_FLAGS`.
    Flags(Port, Flags),
    /// `SWITCHDEV_ATTR_ID_PORT_STP_STATE`.
    State(Port, u8),
    /// `SWITCHDEV_ATTR_ID_PORT_MROUTER`.
    Router { port: Port, on: bool },
    /// Whether a querier of this IP version is known. The kernel doesn't tell it.
    Querier { six: bool, on: bool },
    /// `SWITCHDEV_ATTR_ID_BRIDGE_MC_DISABLED`, the other way round.
    Snoop(bool),
    /// Whether the bridge runs the spanning tree. The kernel doesn't tell it.
    Stp(bool),
}

/// What is told of one change.
#[derive(Clone, Copy)]
pub enum Notice {
    /// `SWITCHDEV_PORT_OBJ_ADD`, which `switchdev_port_obj_add` sends.
    ObjAdd(Object),
    /// `SWITCHDEV_PORT_OBJ_DEL`, which `switchdev_port_obj_del` sends.
    ObjDel(Object),
    /// `SWITCHDEV_PORT_ATTR_SET`, which `switchdev_port_attr_set` sends.
    Attr(Attribute),
    /// `SWITCHDEV_FDB_ADD_TO_DEVICE` or `SWITCHDEV_FDB_DEL_TO_DEVICE`, which `br_switchdev_fdb_notify` sends. They leave the
    /// entry to a queue.
    Address,
}

/// What is told of the change.
pub fn notice_of(c: &Change) -> Notice
    ensures value { result ≡ notice c.now }
    ensures change { change_of result ≡ (if is_of_address c.now then None else Some c.now) }
{
    match *c {
        Change::PortUp(port) => Notice::Attr(Attribute::PortUp(port)),
        Change::PortDown(port) => Notice::Attr(Attribute::PortDown(port)),
        Change::SetFlags(port, flags) => Notice::Attr(Attribute::Flags(port, flags)),
        Change::SetState(port, state) => Notice::Attr(Attribute::State(port, state)),
        Change::VlanAdd {
            port,
            vid,
            untagged,
            pvid,
        } => Notice::ObjAdd(Object::Vlan {
            port,
            vid,
            untagged,
            pvid,
        }),
        Change::VlanDel { port, vid } => Notice::ObjDel(Object::Vlan {
            port,
            vid,
            untagged: false,
            pvid: false,
        }),
        Change::GroupJoin { port, vid, group } => {
            Notice::ObjAdd(Object::Group { port, vid, group })
        }
        Change::GroupPart { port, vid, group } => {
            Notice::ObjDel(Object::Group { port, vid, group })
        }
        Change::Router { port, on } => Notice::Attr(Attribute::Router { port, on }),
        Change::Querier { six, on } => Notice::Attr(Attribute::Querier { six, on }),
        Change::Snoop(on) => Notice::Attr(Attribute::Snoop(on)),
        Change::Stp(on) => Notice::Attr(Attribute::Stp(on)),
        Change::AddrPut { .. } | Change::AddrDel { .. } => Notice::Address,
    }
}
