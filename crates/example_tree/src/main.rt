//! Two bridges with two cables between them, which are a loop: the spanning tree blocks one port, and opens it once the other cable is
//! cut.
#![tactic(auto)]

ghost use Rattle.std.specs.Prelude.{◌<◌, ◌≤◌, ◌^◌};

use br_model::bpdu::BpduMsg;
use br_model::numbers::{Mac, Port};
use port_sets::Ports;
use std::io;
use stp_core::{Tree, TreeOut};

/// What Linux calls a port's states, by their numbers.
const STATES: [&str; 5] = [
    "disabled",
    "listening",
    "learning",
    "forwarding",
    "blocking",
];

/// The second in which the first cable is cut.
const CUT: u64 = 40;

/// What a bridge does of itself in this second; `cable` is the port that is cut.
fn act(tree: &mut Tree, cable: Port, second: u64) -> TreeOut
    requires { second ≤ 100 }
{
    let now = 1000 * second;
    if second == 0 {
        tree.switch(true, now)
    } else if second == CUT {
        tree.port_down(cable, now)
    } else {
        tree.tick(now)
    }
}

fn add(out: &mut TreeOut, more: TreeOut) {
    out.moved = out.moved.or(more.moved);
    out.config = out.config.or(more.config);
    out.tcn = out.tcn.or(more.tcn);
}

/// A bridge hears what the other one sent, each message at the port with the number of the one that it left by. What it does then is
/// added to `out`.
fn hear(tree: &mut Tree, out: &mut TreeOut, other: &Tree, sent: &TreeOut, now: u64)
    requires { now < 2 ^ 53 }
{
    for port in sent.config.iter().filter_map(Port::new) {
        if let Some(message) = other.last_message(port) {
            add(out, tree.bpdu(port, &message, now));
        }
    }
    if let Some(port) = sent.tcn {
        add(out, tree.bpdu(port, &BpduMsg::Tcn, now));
    }
}

fn state(tree: &Tree, port: Port) -> &'static str {
    STATES[usize::from(tree.state(port))]
}

fn main(rt: HostRuntime) -> io::Result<()> {
    let (p, q) = (Port::of::<1>(), Port::of::<2>());
    let mut a = Tree::make(Mac::new([2, 0, 0, 0, 0, 0xA]));
    let mut b = Tree::make(Mac::new([2, 0, 0, 0, 0, 0xB]));
    for port in [p, q] {
        a.port_up(port, 0);
        b.port_up(port, 0);
    }
    let mut by_b = TreeOut {
        moved: Ports::empty(),
        config: Ports::empty(),
        tcn: None,
    };
    for second in 0..75u64 {
        let mut by_a = act(&mut a, p, second);
        hear(&mut a, &mut by_a, &b, &by_b, 1000 * second);
        by_b = act(&mut b, p, second);
        hear(&mut b, &mut by_b, &a, &by_a, 1000 * second);
        if !by_a.moved.is_empty() || !by_b.moved.is_empty() {
            let (ap, aq, bp, bq) = (state(&a, p), state(&a, q), state(&b, p), state(&b, q));
            println!(rt; "{second} s: a {ap} {aq}, b {bp} {bq}")?;
        }
    }
    Ok(())
}
