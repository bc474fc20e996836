//! A switch driver of one's own, which keeps what it is told, beside a bridge whose commands it is told of.
#![tactic(auto)]

ghost use Rattle.std.specs.Prelude.{◌≡◌, ◌<◌, ◌++◌, ◌∷◌, [], vec_len, vec_capacity};
ghost use Rattle.std.specs.List.{fold};
ghost use Rattle.br_model.specs.Table.Table.{start};
ghost use Rattle.switchdev_notify.specs.Notices.{after_told, change_of};

use br_model::change::{Change, Kind};
use br_model::domains::{Domains, Edition};
use br_model::group::Ip;
use br_model::numbers::{Dom, Mac, Port, Vid};
use br_model::steps::{Command, Event};
use bridge_core::{Bridge, EventFault};
use std::alloc::Global;
use std::io;
use switchdev_notify::{Attribute, Notice, Object, SwitchOps, deliver, notice_of};

/// What the driver was told, as far as there is room.
#[derive(Drop)]
struct Log {
    told: Vec<Notice>,
}

impl Log {
    fn keep(&mut self, notice: Notice)
        requires { vec_len self.old.told < vec_capacity self.old.told }
        ensures { self.new.told.items ≡ self.old.told.items ++ notice ∷ [] }
    {
        // The check of `push` wants these types named here.
        let _none: Option<(Object, Attribute)> = None;
        match self.told.push(notice) {
            Ok(()) => {}
            Err(_) => unreachable!(),
        }
    }
}

impl SwitchOps for Log {
    // All that it was told comes to this table.
    ghost means = { λ domains log table. table ≡ fold (λ table n. after_told table (change_of n)) start log.told.items };

    // It takes any change, if there is room.
    ghost takes = { λ log c. vec_len log.told < vec_capacity log.told };

    fn obj_add(&mut self, o: &Object) {
        self.keep(Notice::ObjAdd(*o));
    }

    fn obj_del(&mut self, o: &Object) {
        self.keep(Notice::ObjDel(*o));
    }

    fn attr_set(&mut self, a: &Attribute) {
        self.keep(Notice::Attr(*a));
    }
}

fn tell(log: &mut Log, change: &Change, edition: Edition)
    requires { vec_len log.old.told < vec_capacity log.old.told }
{
    deliver(log, &notice_of(change), edition);
}

/// The bridge carries the command out, and the driver is told of each change.
fn obey(
    alloc: Global,
    bridge: &mut Bridge,
    log: &mut Log,
    command: Command,
) -> Result<(), EventFault> {
    let reaction = bridge.react(alloc, &Event::Cmd(command))?;
    let edition = bridge.domains().edition();
    for change in bridge.since(reaction.from) {
        log.told.reserve(1)?;
        tell(log, change, edition);
    }
    Ok(())
}

fn print(rt: &impl Print, notice: &Notice) -> io::Result<()> {
    match notice {
        Notice::ObjAdd(Object::Vlan { vid, .. }) => println!(rt; "  VLAN {} comes", vid.number()),
        Notice::ObjDel(Object::Vlan { vid, .. }) => println!(rt; "  VLAN {} goes", vid.number()),
        Notice::ObjAdd(Object::Group { .. }) => println!(rt; "  a group comes"),
        Notice::ObjDel(Object::Group { .. }) => println!(rt; "  a group goes"),
        Notice::Attr(Attribute::PortUp(_)) => println!(rt; "  the port is up"),
        Notice::Attr(Attribute::State(_, state)) => println!(rt; "  the port is in state {state}"),
        Notice::Attr(Attribute::Stp(on)) => println!(rt; "  the spanning tree is on: {on}"),
        Notice::Attr(_) => println!(rt; "  another attribute"),
        Notice::Address => println!(rt; "  an address"),
    }
}

/// Commands, as a scenario spells them; p1 is this port.
fn commands(port: Port) -> [(&'static str, Command); 5] {
    let vid = Vid::DEFAULT;
    let group = Ip::V4(0xEF01_0203);
    let entry = Command::FdbAdd {
        vid,
        mac: Mac::new([2, 0, 0, 0, 0, 0xB]),
        port,
        kind: Kind::Static,
    };
    [
        ("port up p1", Command::PortUp(port)),
        ("fdb add 02:00:00:00:00:0b dev p1 vlan 1 static", entry),
        (
            "mdb add 239.1.2.3 dev p1 vlan 1",
            Command::MdbAdd { port, vid, group },
        ),
        ("stp on", Command::Stp(true)),
        ("vlan del vid 1 dev p1", Command::VlanDel { port, vid }),
    ]
}

fn main(rt: HostRuntime) -> io::Result<()> {
    let port = Port::of::<1>();
    let alloc = rt.alloc();
    // In this edition the queue has the members of groups, too.
    let mut domains = Domains::make().with_edition(Edition::Two);
    domains.set(port, Dom::CHIP);
    let mut bridge = Bridge::make(alloc, domains, Mac::FIRST_OWN)?;
    let mut log = Log {
        told: Vec::new(alloc),
    };
    for (line, command) in commands(port) {
        println!(rt; "{line}")?;
        let before = log.told.len();
        if obey(alloc, &mut bridge, &mut log, command).is_err() {
            println!(rt; "  refused")?;
        }
        for notice in log.told.iter().skip(before) {
            print(&rt, notice)?;
        }
    }
    Ok(())
}
