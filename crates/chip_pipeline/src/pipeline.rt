//! The pass of a frame through all stages.
ghost use Rattle.std.specs.Prelude.{ℕ, ◌≡◌, ◌&&◌, [], false, if◌then◌else◌, IfSome, Some, None};
ghost use Rattle.br_model.specs.Forward.Admission.{admit, has_valid_source, is_forwarding, vlan_of};
ghost use Rattle.br_model.specs.Table.Domains.{Domains};
ghost use Rattle.br_model.specs.Table.Table.{Table};
ghost use Rattle.br_model.specs.Forward.Targets.{to_tree};
ghost use Rattle.chip_tables.specs.Rows.{port_at};
ghost use Rattle.chip_tables.specs.Stands.{IsVid, Stands};
ghost use Rattle.chip_pipeline.specs.Passed.{AtChip, IsPass, IsSent};

use crate::answer::{Pass, Sent};
use crate::egress::send;
use crate::lookup::lookup;
use crate::ports::forwards;
use crate::sources::sight;
use crate::traps::{catches, is_for_tree};
use crate::vlans::vlan_of;
use br_model::frame::{Class, Head, McastMsg};
use br_model::numbers::{Port, Vid};
use chip_tables::{PortRow, Tables};
use port_sets::Ports;

/// What the chip does with a frame that enters at one of its ports, by its tables alone. The message is the one that the frame
/// says to snooping.
pub fn pass(t: &Tables, p: Port, h: &Head, m: &McastMsg) -> Pass
    ensures { (d : Domains) (dom : ℕ) (table : Table) → AtChip d dom t.now table p → IsPass d table p h.now m.now result }
{
    let row = t.port(p);
    let vid = vlan_of(t, p, &row, h);
    let sighting = sight(t, p, &row, &vid, h);
    let sent = forward(t, p, &row, vid, h, m);
    Pass::of(sent, sighting)
}

/// Of a frame in this VLAN, if it is in one.
fn forward(t: &Tables, p: Port, row: &PortRow, vid: Option<Vid>, h: &Head, m: &McastMsg) -> Sent
    requires row { row.now ≡ port_at t.now p }
    requires range { IfSome vid IsVid }
    ensures { (d : Domains) (dom : ℕ) (table : Table) → AtChip d dom t.now table p → vid ≡ vlan_of table p h.now → IsSent d table p h.now m.now result }
{
    let admitted = admitted(t, p, row, vid, h);
    if is_for_tree(t, p, row, h) {
        return nowhere(Class::Trap, admitted);
    }
    match admitted {
        Some(vid) => forward_in(t, p, row, vid, h, m),
        None => nowhere(Class::Drop, None),
    }
}

/// The VLAN, where the port admits the frame.
fn admitted(t: &Tables, p: Port, row: &PortRow, vid: Option<Vid>, h: &Head) -> Option<Vid>
    requires { row.now ≡ port_at t.now p }
    ensures same { IfSome result (λ v. vid ≡ Some v) }
    ensures vid { (d : Domains) (dom : ℕ) (table : Table) → Stands d dom t.now table
        → result ≡ (if is_forwarding table p && has_valid_source h.now then vid else None) }
{
    // law: the port is in range
    let _number = p.number();
    if forwards(row) && h.has_valid_source() {
        vid
    } else {
        None
    }
}

/// Of a frame that is for no port of the chip.
fn nowhere(class: Class, vid: Option<Vid>) -> Sent
    ensures { result ≡ record { class = class; vid = vid; ports = []; untagged = [] } }
{
    Sent {
        class,
        vid,
        ports: Ports::empty(),
        untagged: Ports::empty(),
    }
}

/// Of an admitted frame that isn't for the spanning tree.
fn forward_in(t: &Tables, p: Port, row: &PortRow, vid: Vid, h: &Head, m: &McastMsg) -> Sent
    requires row { row.now ≡ port_at t.now p }
    requires range { IsVid vid }
    ensures { (d : Domains) (dom : ℕ) (table : Table) → AtChip d dom t.now table p → to_tree table p h.now ≡ false
        → Some vid ≡ admit table p h.now → IsSent d table p h.now m.now result }
{
    if catches(t, m) {
        return nowhere(Class::Trap, Some(vid));
    }
    let way = lookup(t, vid, h, m);
    let out = send(t, p, row, vid, &way);
    // law: the members ascend
    out.ports.members_ascend();
    Sent {
        class: out.class,
        vid: Some(vid),
        ports: out.ports,
        untagged: out.ports.and(t.untagged(vid)),
    }
}
