//! Drivers that are told.
ghost use Rattle.std.specs.Prelude.{◌≡◌, ℕ, List, [], ◌∷◌, ◌++◌, None};
ghost use Rattle.br_model.specs.Table.Change.{deferred};
ghost use Rattle.br_model.specs.Table.Cut.{synchronous_of};
ghost use Rattle.br_model.specs.Table.Domains.{Domains, first_chip_domain};
ghost use Rattle.br_model.specs.Table.Table.{Table, apply, table};
ghost use Rattle.br_model.specs.declared.change.Change.{Change};
ghost use Rattle.switchdev_notify.specs.Notices.{notice, change_added, change_removed, change_of_attribute, told_in, after, Takes};

use crate::notice::{Attribute, Notice, Object};
use br_model::domains::Edition;

/// A switch driver. The kernel's drivers answer a port's notifications by the functions that they pass to
/// `switchdev_handle_port_obj_add`, `switchdev_handle_port_obj_del` and `switchdev_handle_port_attr_set`.
///
/// These may refuse. Here a driver says beforehand what it `takes`. One that says nothing of its ghost members takes any change, and
/// claims nothing of what it does.
pub trait SwitchOps {
    /// The domain of the driver's chip, which stays.
    ghost domain: { Self → ℕ } = { λ driver. first_chip_domain };

    /// How many deferred changes it has applied. These come by a call of its own, and the ones below leave the number.
    ghost count: { Self → ℕ } = { λ driver. 0 };

    /// Whether the driver has a chip with these domains do what the table says.
    ghost means: { Domains → Self → Table → Type 0 } = { λ domains driver table. Unit {0} };

    /// Whether the driver takes the change as it stands, such as whether its chip has room for it.
    ghost takes: { Self → Change → Type 0 } = { λ driver change. Unit {0} };

    /// Answers `SWITCHDEV_PORT_OBJ_ADD`.
    fn obj_add(&mut self, o: &Object)
        requires { takes self.old (change_added o.now) }
        ensures told { (d : Domains) (t : Table) → means d self.old t → means d self.new (apply t (change_added o.now)) }
        ensures domain { domain self.new ≡ domain self.old }
        ensures count { count self.new ≡ count self.old };

    /// Answers `SWITCHDEV_PORT_OBJ_DEL`.
    fn obj_del(&mut self, o: &Object)
        requires { takes self.old (change_removed o.now) }
        ensures told { (d : Domains) (t : Table) → means d self.old t → means d self.new (apply t (change_removed o.now)) }
        ensures domain { domain self.new ≡ domain self.old }
        ensures count { count self.new ≡ count self.old };

    /// Answers `SWITCHDEV_PORT_ATTR_SET`.
    fn attr_set(&mut self, a: &Attribute)
        requires { takes self.old (change_of_attribute a.now) }
        ensures told { (d : Domains) (t : Table) → means d self.old t → means d self.new (apply t (change_of_attribute a.now)) }
        ensures domain { domain self.new ≡ domain self.old }
        ensures count { count self.new ≡ count self.old };
}

/// Tells a driver of a change, as `switchdev_port_obj_add`, `switchdev_port_obj_del` and `switchdev_port_attr_set` do. What is
/// deferred in the edition is left to the queue, as the kernel does with `SWITCHDEV_F_DEFER`, and the driver isn't called.
pub fn deliver<D: SwitchOps>(d: &mut D, n: &Notice, edition: Edition)
    requires { Takes (D.takes d.old) edition n.now }
    ensures told { (domains : Domains) (t : Table) → D.means domains d.old t → D.means domains d.new (after edition t n.now) }
    ensures list { (domains : Domains) (list : List Change) (c : Change) → n.now ≡ notice c
        → D.means domains d.old (table list) → D.means domains d.new (table (list ++ synchronous_of edition (c ∷ []))) }
    ensures deferred { told_in edition n.now ≡ None → d.new ≡ d.old }
    ensures domain { D.domain d.new ≡ D.domain d.old }
    ensures count { D.count d.new ≡ D.count d.old }
{
    match n {
        Notice::ObjAdd(object) => {
            if !is_deferred(object, edition) {
                d.obj_add(object);
            }
        }
        Notice::ObjDel(object) => {
            if !is_deferred(object, edition) {
                d.obj_del(object);
            }
        }
        Notice::Attr(attribute) => d.attr_set(attribute),
        Notice::Address => {}
    }
}

/// Whether the object comes and goes through the queue.
fn is_deferred(o: &Object, e: Edition) -> bool
    ensures added { result ≡ deferred e (change_added o.now) }
    ensures removed { result ≡ deferred e (change_removed o.now) }
{
    match o {
        Object::Vlan { .. } => false,
        Object::Group { .. } => e.defers_groups(),
    }
}
