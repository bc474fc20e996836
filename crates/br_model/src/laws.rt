//! Laws about the definitions. A law is a function that does nothing: its contract says it.
ghost use Rattle.std.specs.Prelude.{◌≡◌, ℕ, true, List, ◌∷◌, ◌++◌, length, map, Ok};
ghost use Rattle.br_model.specs.Text.IpWords.{address};
ghost use Rattle.br_model.specs.declared.scenario.Said.{Said};
ghost use Rattle.br_model.specs.Program.Runs.{told};
ghost use Rattle.br_model.specs.Text.Scenario.{Scenario, Going, read, scenario, section_length, takes, whole_says};
ghost use Rattle.br_model.specs.Theorems.WholeLines.{is_line};
ghost use Rattle.br_model.specs.Worked.Rows.{first_frame_text, first_frame_told, first_refusals_text, first_refusals_told, empty_scenario_text, empty_scenario_told};
ghost use Rattle.br_model.specs.Worked.Vlans.{priority_tag_text, priority_tag_told, edges_of_the_vlan_range_text, edges_of_the_vlan_range_told, isolated_ports_text, isolated_ports_told};
ghost use Rattle.br_model.specs.Worked.Addresses.{address_moves_text, address_moves_told, local_address_text, local_address_told, published_point_text, published_point_told, destination_on_its_ingress_port_text, destination_on_its_ingress_port_told, ageing_text, ageing_told};
ghost use Rattle.br_model.specs.Worked.Chip.{unknown_unicast_split_text, unknown_unicast_split_told, two_points_differ_text, two_points_differ_told, moved_to_a_foreign_port_text, moved_to_a_foreign_port_told, moved_to_a_chip_port_text, moved_to_a_chip_port_told, port_down_and_up_text, port_down_and_up_told, isolated_ingress_text, isolated_ingress_told, plain_ingress_text, plain_ingress_told, bits_follow_a_foreign_port_text, bits_follow_a_foreign_port_told, sweep_text, sweep_told, hit_by_a_frame_text, hit_by_a_frame_told, refusals_without_post_text, refusals_without_post_told};
ghost use Rattle.br_model.specs.Worked.Captures.{capture_text, capture_told, bad_captures, bad_captures_told};
ghost use Rattle.br_model.specs.Worked.Hold.{hold_told, hold_lines, no_chip_told, no_chip_lines};
ghost use Rattle.br_model.specs.Worked.Domains.{groups_deferred_text, groups_deferred_told, groups_at_once_text, groups_at_once_told, two_chips_text, two_chips_told, one_turn_less_text, one_turn_less_told, bad_domains, bad_domains_told};
ghost use Rattle.br_model.specs.Worked.Groups.{address_words, address_words_read, groups_by_command_text, groups_by_command_told, bad_group_text, bad_group_told};
ghost use Rattle.br_model.specs.Worked.Tree.{bpdu_at_a_chip_port_text, bpdu_at_a_chip_port_told, tie_and_lost_root_text, tie_and_lost_root_told};

/// A line is read with its section, and what is behind them as if it stood alone.
pub fn line_after_line()
    ensures { (s : Scenario) (said : Said) (line section more : List ℕ) → s.ending ≡ Going → is_line line ≡ true
        → whole_says s.roster line ≡ Ok said → length section ≡ section_length said
        → read 0 s (line ++ 10 ∷ (section ++ more)) ≡ read 0 (takes s said section) more }
{}

/// Every scenario ends, well or badly.
pub fn every_scenario_ends()
    ensures { (bytes : List ℕ) → (scenario bytes).ending ≡ Going → ⊥ }
{}

/// A frame to a known station leaves by its port.
pub fn first_frame()
    ensures { told first_frame_text ≡ first_frame_told }
{}

/// Commands, a serve and a turn are refused, and the scenario has no last line.
pub fn first_refusals()
    ensures { told first_refusals_text ≡ first_refusals_told }
{}

/// No step, and a last line without its line feed.
pub fn empty_scenario()
    ensures { told empty_scenario_text ≡ empty_scenario_told }
{}

/// A tag with VID 0 gives a priority alone, which the tag that leaves keeps.
pub fn priority_tag()
    ensures { told priority_tag_text ≡ priority_tag_told }
{}

/// The last VLAN is one, VID 4095 is none, and without a PVID an untagged frame has none.
pub fn edges_of_the_vlan_range()
    ensures { told edges_of_the_vlan_range_text ≡ edges_of_the_vlan_range_told }
{}

/// An isolated port reaches no other isolated one.
pub fn isolated_ports()
    ensures { told isolated_ports_text ≡ isolated_ports_told }
{}

/// A station that is seen behind another port has moved there.
pub fn address_moves()
    ensures { told address_moves_text ≡ address_moves_told }
{}

/// A frame to a local address goes to the host.
pub fn local_address()
    ensures { told local_address_text ≡ local_address_told }
{}

/// Software decides by what is published, not by what was accepted since.
pub fn published_point()
    ensures { told published_point_text ≡ published_point_told }
{}

/// A frame to a station behind its own port leaves nowhere.
pub fn destination_on_its_ingress_port()
    ensures { told destination_on_its_ingress_port_text ≡ destination_on_its_ingress_port_told }
{}

/// Learned entries get old, others stay; a moment that goes back is refused.
pub fn ageing()
    ensures { told ageing_text ≡ ageing_told }
{}

/// The chip and software share a frame to an unknown station.
pub fn unknown_unicast_split()
    ensures { told unknown_unicast_split_text ≡ unknown_unicast_split_told }
{}

/// Software decides by what is published, the chip by what it has applied.
pub fn two_points_differ()
    ensures { told two_points_differ_text ≡ two_points_differ_told }
{}

/// A station has moved to a foreign port, and the chip learns of it by a turn.
pub fn moved_to_a_foreign_port()
    ensures { told moved_to_a_foreign_port_text ≡ moved_to_a_foreign_port_told }
{}

/// A station has moved to a port of the chip, and the chip applies it by a turn.
pub fn moved_to_a_chip_port()
    ensures { told moved_to_a_chip_port_text ≡ moved_to_a_chip_port_told }
{}

/// A port goes down and comes up while the deletion of its station waits.
pub fn port_down_and_up()
    ensures { told port_down_and_up_text ≡ port_down_and_up_told }
{}

/// A frame by an isolated port goes to no isolated one elsewhere.
pub fn isolated_ingress()
    ensures { told isolated_ingress_text ≡ isolated_ingress_told }
{}

/// A frame by a port that is not isolated goes to an isolated one elsewhere.
pub fn plain_ingress()
    ensures { told plain_ingress_text ≡ plain_ingress_told }
{}

/// Whether software has a share follows a foreign port at once.
pub fn bits_follow_a_foreign_port()
    ensures { told bits_follow_a_foreign_port_text ≡ bits_follow_a_foreign_port_told }
{}

/// A station that no frame hits is forgotten, but the turn that put it has hit it once.
pub fn sweep()
    ensures { told sweep_text ≡ sweep_told }
{}

/// A frame of a station saves its entry once.
pub fn hit_by_a_frame()
    ensures { told hit_by_a_frame_text ≡ hit_by_a_frame_told }
{}

/// Commands and steps that have nothing to do are refused.
pub fn refusals_without_post()
    ensures { told refusals_without_post_text ≡ refusals_without_post_told }
{}

/// A frame that is held is decided by what was published then.
pub fn hold()
    ensures { hold_told ≡ hold_lines }
{}

/// A step of a domain without a chip is refused; a sweep there forgets nothing.
pub fn no_chip()
    ensures { no_chip_told ≡ no_chip_lines }
{}

/// A message of the spanning tree is trapped at a port of the chip, and read when software posts it.
pub fn bpdu_at_a_chip_port()
    ensures { told bpdu_at_a_chip_port_text ≡ bpdu_at_a_chip_port_told }
{}

/// Of two ports towards one root the lesser one by the other bridge's port is taken; and a root that is heard no more is lost.
pub fn tie_and_lost_root()
    ensures { told tie_and_lost_root_text ≡ tie_and_lost_root_told }
{}

/// Words are read as the IP addresses that they spell, and others as none.
pub fn address_words()
    ensures { map address address_words ≡ address_words_read }
{}

/// Memberships are made and taken by command, and refused in order; snooping is switched.
pub fn groups_by_command()
    ensures told { told groups_by_command_text ≡ groups_by_command_told }
    ensures bad { told bad_group_text ≡ bad_group_told }
{}

/// The packet of a capture is a step.
pub fn capture()
    ensures { told capture_text ≡ capture_told }
{}

/// Captures that are cut short or broken; and what may come after one.
pub fn bad_captures()
    ensures { map told bad_captures ≡ bad_captures_told }
{}

/// In edition 2 a member of a group reaches the chip by a turn of its queue, and its router port at once.
pub fn groups_deferred()
    ensures { told groups_deferred_text ≡ groups_deferred_told }
{}

/// In edition 1 both reach it at once.
pub fn groups_at_once()
    ensures { told groups_at_once_text ≡ groups_at_once_told }
{}

/// Each of two chips applies an address by a turn of its own queue.
pub fn two_chips()
    ensures { told two_chips_text ≡ two_chips_told }
{}

/// What one chip hasn't applied is pending, whatever another one has.
pub fn one_turn_less()
    ensures { told one_turn_less_text ≡ one_turn_less_told }
{}

/// Editions that there aren't, ports above the last one, domains above 4 and 0, and chips that aren't there are bad.
pub fn bad_domains()
    ensures { map told bad_domains ≡ bad_domains_told }
{}
