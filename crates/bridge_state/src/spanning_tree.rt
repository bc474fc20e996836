//! How the spanning tree takes part: what it is told, the states that follow it, and the frames that carry its messages.
ghost use Rattle.std.specs.Prelude.{◌≡◌, ◌+◌, ◌++◌, ◌∷◌, [], ◌<◌, ◌≤◌, length, map, OnOk, vec_len, vec_capacity};
ghost use Rattle.std.specs.List.{All};
ghost use Rattle.br_model.specs.Table.Domains.{last_port, port_places};
ghost use Rattle.br_model.specs.Control.Commands.{tells};
ghost use Rattle.br_model.specs.Plane.World.{control_line, control_lines};
ghost use Rattle.br_model.specs.Control.TreeReaction.{heard};
ghost use Rattle.br_model.specs.Tree.Step.{sent};
ghost use Rattle.bridge_state.specs.Following.{HasFrameRoom, state_change, config_lines, acted_by};
ghost use Rattle.bridge_state.specs.Standing.{table_of};

use crate::state::State;
use br_model::NoMemory;
use br_model::bpdu::BpduMsg;
use br_model::change::Change;
use br_model::frame::Head;
use br_model::numbers::{Mac, Port};
use br_model::steps::Command;
use br_model::tree::TreeEvent;
use ether_frames::{BPDU_LENGTH, bpdu_frame, bpdu_read};
use port_sets::Ports;
use stp_core::{Tree, TreeOut};
use transcript_lines::Lines;

/// What the command tells the spanning tree.
pub fn tells(state: &State, command: &Command) -> Option<TreeEvent>
    ensures { result ≡ tells (table_of state.now) command.now }
{
    match *command {
        Command::PortUp(port) => Some(TreeEvent::Up(port)),
        Command::PortDown(port) => Some(TreeEvent::Down(port)),
        Command::Cost { port, n } => Some(TreeEvent::Cost(port, n)),
        Command::PortPriority { port, n } => Some(TreeEvent::PortPriority(port, n)),
        Command::Stp(on) if on != state.ports.stp() => Some(TreeEvent::Switch(on)),
        Command::Priority(n) => Some(TreeEvent::Priority(n)),
        _ => None,
    }
}

/// The message that the frame has for the spanning tree.
pub fn heard(state: &State, port: Port, bytes: &[u8], head: &Head) -> Option<TreeEvent>
    ensures { result ≡ heard (table_of state.now) port bytes.now head.now }
{
    if !state.ports.is_for_tree(port, head) {
        return None;
    }
    match bpdu_read(bytes) {
        Some(message) => Some(TreeEvent::Message(port, message)),
        None => None,
    }
}

/// Adds the state of each port that has another one than before, for which there is room.
pub fn add_states(changes: &mut Vec<Change>, tree: &Tree, moved: Ports)
    requires ports { All (λ n. n ≤ last_port) moved }
    requires room { vec_len changes.old + port_places ≤ vec_capacity changes.old }
    ensures states { changes.new.items ≡ changes.old.items ++ map (state_change tree.now) moved }
    ensures few { length changes.new.items ≤ length changes.old.items + port_places }
{
    for number in moved.iter() {
        let Some(port) = Port::new(number) else {
            unreachable!();
        };
        changes.push_reserved(Change::SetState(port, tree.state(port)));
    }
}

/// How many frames an event of the tree sends at most: one by each port, and a notification.
const MOST_FRAMES: usize = Port::PLACES + 1;

/// Takes room for the frames that an event sends at most, and for another row behind them.
pub fn reserve_frames(lines: &mut Lines) -> Result<(), NoMemory>
    ensures lines { lines.new.lines ≡ lines.old.lines }
    ensures saved { lines.new.saved ≡ lines.old.saved }
    ensures rows { lines.old.rows ≤ lines.new.rows }
    ensures room { OnOk result (HasFrameRoom lines.new) }
{
    lines.reserve(MOST_FRAMES + 1, BPDU_LENGTH * MOST_FRAMES)
}

/// Adds the line of the frame that carries the message by the port, for which there is room.
fn add_frame(own: Mac, port: Port, message: &BpduMsg, lines: &mut Lines)
    requires rows { 1 ≤ lines.old.rows }
    requires bytes { 60 ≤ lines.old.bytes }
    ensures lines { lines.new.lines ≡ lines.old.lines ++ control_line own (port, message.now) ∷ [] }
    ensures saved { lines.new.saved ≡ lines.old.saved }
    ensures rows { lines.old.rows ≤ lines.new.rows + 1 }
    ensures bytes { lines.old.bytes ≤ lines.new.bytes + 60 }
{
    lines.push_ctl(port, &bpdu_frame(own, message));
}

/// Adds the line of the configuration message that went out last on the port of this number.
fn add_config(own: Mac, tree: &Tree, number: u8, lines: &mut Lines)
    requires number { number ≤ last_port }
    requires rows { 1 ≤ lines.old.rows }
    requires bytes { 60 ≤ lines.old.bytes }
    ensures lines { lines.new.lines ≡ lines.old.lines ++ config_lines own tree.now number }
    ensures saved { lines.new.saved ≡ lines.old.saved }
    ensures rows { lines.old.rows ≤ lines.new.rows + 1 }
    ensures bytes { lines.old.bytes ≤ lines.new.bytes + 60 }
{
    let Some(port) = Port::new(number) else {
        unreachable!();
    };
    if let Some(message) = tree.last_message(port) {
        add_frame(own, port, &message, lines);
    }
}

/// Adds the lines of the frames that go out, for which there is room: configuration messages by port, and then the notification.
pub fn add_frames(own: Mac, tree: &Tree, out: &TreeOut, lines: &mut Lines)
    requires ports { All (λ n. n ≤ last_port) out.now.config }
    requires room { HasFrameRoom lines.old }
    ensures lines { lines.new.lines ≡ lines.old.lines ++ control_lines own (sent (acted_by tree.now out.now)) }
    ensures saved { lines.new.saved ≡ lines.old.saved }
    ensures room { 1 ≤ lines.new.rows }
{
    for number in out.config.iter() {
        add_config(own, tree, number, lines);
    }
    if let Some(port) = out.tcn {
        add_frame(own, port, &BpduMsg::Tcn, lines);
    }
}
