//! Laws about the definitions of the spanning tree, and worked runs of it. A law is a function that does nothing: its
//! contract says it.
ghost use Rattle.std.specs.Prelude.{◌≡◌, ◌≤◌, ℕ, true};
ghost use Rattle.std.specs.declared.option.Option.TheVariants.{Some};
ghost use Rattle.br_model.specs.Wire.Bpdus.{bpdu, written};
ghost use Rattle.br_model.specs.declared.bpdu.BpduMsg.{BpduMsg};
ghost use Rattle.br_model.specs.declared.tree.TreeEvent.{TreeEvent};
ghost use Rattle.br_model.specs.Tree.Tree.{Tree, first_tree, state_at};
ghost use Rattle.br_model.specs.Tree.Step.{tree_step};
ghost use Rattle.br_model.specs.Theorems.TreeLaws.{Fits, HasLeastRoot, RolesStand, knows_states, HaveSent};
ghost use Rattle.br_model.specs.Worked.TreeRows.{answers, own, tie_events, tie_answers, chip_port_events, chip_port_answers, acknowledged_events, acknowledged_answers, put_off_events, put_off_answers, aged_out_events, aged_out_answers, own_message_events, own_message_answers, managed_events, managed_answers, frames_said, frames_expected, frames_written, frames_digits};

/// The root port offers the least of all candidates.
pub fn least_root()
    ensures { (t : Tree) → HasLeastRoot t }
{}

/// Roles that are taken stand: what is forgotten by them changes neither the root nor a role.
pub fn roles_stand()
    ensures { (t : Tree) → RolesStand t }
{}

/// The states of ports stay among those that Linux numbers.
pub fn known_states()
    ensures first { (own : ℕ) → knows_states (first_tree own) ≡ true }
    ensures kept { (t : Tree) (now : ℕ) (event : TreeEvent) → knows_states t ≡ true → knows_states (tree_step t now event).tree ≡ true }
    ensures read { (t : Tree) (p : ℕ) → knows_states t ≡ true → state_at t p ≤ 4 }
{}

/// Where a configuration message goes out, it can be read afterwards.
pub fn messages_went_out()
    ensures { (t : Tree) (now : ℕ) (event : TreeEvent) → HaveSent (tree_step t now event).tree (tree_step t now event).config }
{}

/// No event changes the address of the bridge.
pub fn own_stays()
    ensures { (t : Tree) (now : ℕ) (event : TreeEvent) → (tree_step t now event).tree.own ≡ t.own }
{}

/// Two bridges, tied by root, cost and bridge; then the root is lost.
pub fn tie_and_lost_root()
    ensures { answers own tie_events ≡ tie_answers }
{}

/// A message of a better bridge moves no state by itself.
pub fn bpdu_at_a_chip_port()
    ensures { answers own chip_port_events ≡ chip_port_answers }
{}

/// A topology change is told until it is acknowledged, and acknowledged in turn.
pub fn acknowledged_change()
    ensures { answers own acknowledged_events ≡ acknowledged_answers }
{}

/// A message that comes too soon goes out a second after the last one, if its port is designated then.
pub fn put_off_message()
    ensures { answers own put_off_events ≡ put_off_answers }
{}

/// A message that ages out leaves this bridge the root.
pub fn aged_out_message()
    ensures { answers own aged_out_events ≡ aged_out_answers }
{}

/// A message of this bridge that comes back blocks its port and offers no root.
pub fn own_message_returns()
    ensures { answers own own_message_events ≡ own_message_answers }
{}

/// Costs and priorities move the root port and the root.
pub fn managed_tree()
    ensures { answers own managed_events ≡ managed_answers }
{}

/// Frames that are BPDUs, and frames that are none.
pub fn bpdu_frames()
    ensures read { frames_said ≡ frames_expected }
    ensures written { frames_written ≡ frames_digits }
{}

/// What is written as a frame is read back.
pub fn written_bpdu()
    ensures { (own : ℕ) (m : BpduMsg) → Fits m → bpdu (written own m) ≡ Some m }
{}
