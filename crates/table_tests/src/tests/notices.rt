//! A driver that logs what it is told.
ghost use Rattle.std.specs.Prelude.{◌≡◌, ◌<◌, ◌++◌, ◌∷◌, [], ◌↔◌, IsTrue, vec_len, vec_capacity};
ghost use Rattle.std.specs.List.{fold};
ghost use Rattle.br_model.specs.Table.Table.{start};
ghost use Rattle.switchdev_notify.specs.Notices.{after_told, change_of};

use super::common::{assert_that, port, station, vid};
use br_model::change::{Change, Kind};
use br_model::domains::Edition;
use br_model::group::Group;
use br_model::numbers::Port;
use switchdev_notify::{Attribute, Notice, Object, SwitchOps, deliver, notice_of};

/// A driver that keeps what it was told, as far as its room goes.
#[derive(Drop)]
struct Log {
    notices: Vec<Notice>,
}

impl Log {
    fn has_room(&self) -> bool
        ensures { IsTrue result ↔ (vec_len self.now.notices < vec_capacity self.now.notices) }
    {
        self.notices.len() < self.notices.capacity()
    }

    fn keep(&mut self, n: Notice)
        requires { vec_len self.old.notices < vec_capacity self.old.notices }
        ensures { self.new.notices.items ≡ self.old.notices.items ++ n ∷ [] }
    {
        // The check of `push` wants these types named here.
        let _none: Option<(Object, Attribute)> = None;
        match self.notices.push(n) {
            Ok(()) => {}
            Err(_) => unreachable!(),
        }
    }
}

impl SwitchOps for Log {
    ghost domain = { λ log. 1 };

    ghost means = { λ domains log t. t ≡ fold (λ t n. after_told t (change_of n)) start log.notices.items };

    ghost takes = { λ log c. vec_len log.notices < vec_capacity log.notices };

    fn obj_add(&mut self, o: &Object) {
        self.keep(Notice::ObjAdd(*o));
    }

    fn obj_del(&mut self, o: &Object) {
        self.keep(Notice::ObjDel(*o));
    }

    fn attr_set(&mut self, a: &Attribute) {
        self.keep(Notice::Attr(*a));
    }
}

/// The deletion of VLAN 7 at the port, with which neither of its flags comes.
fn is_deletion(notice: &Notice, at: Port) -> bool {
    matches!(
        notice,
        Notice::ObjDel(Object::Vlan { port, vid, untagged: false, pvid: false })
            if *port == at && vid.number() == 7
    )
}

fn is_state(notice: &Notice, at: Port) -> bool {
    matches!(notice, Notice::Attr(Attribute::State(port, 3)) if *port == at)
}

/// In edition 1 the entry is deferred, and in edition 2 the member, too.
#[test]
fn a_log_is_told_all_but_what_is_deferred(rt: HostRuntime) {
    let (port, vid) = (port(&rt, 3), vid(&rt, 7));
    let notices = Vec::with_capacity(rt.alloc(), 2).expect(&rt, "memory");
    let mut log = Log { notices };
    assert!(rt; log.has_room());
    let deletion = Change::VlanDel { port, vid };
    deliver(&mut log, &notice_of(&deletion), Edition::One);
    let entry = Change::AddrPut {
        vid,
        mac: station(10),
        port,
        kind: Kind::Static,
    };
    deliver(&mut log, &notice_of(&entry), Edition::One);
    let group = Group::V4(0xEF01_0203);
    let member = Change::GroupJoin { port, vid, group };
    deliver(&mut log, &notice_of(&member), Edition::Two);
    assert!(rt; log.has_room());
    let state = Change::SetState(port, 3);
    deliver(&mut log, &notice_of(&state), Edition::Two);
    assert!(rt; log.notices.len() == 2);
    assert_that(&rt, is_deletion(&log.notices[0], port), "the deletion");
    assert_that(&rt, is_state(&log.notices[1], port), "the state");
}
