//! Worked runs of snooping. A law is a function that does nothing: its contract says it.
ghost use Rattle.std.specs.Prelude.{◌≡◌, []};
ghost use Rattle.br_model.specs.Program.Runs.{told};
ghost use Rattle.br_model.specs.Worked.Snooping.{snooping_text, snooping_told, mld_report_text, mld_report_told, truncated_record_text, truncated_record_told, report_at_a_chip_port_text, report_at_a_chip_port_told, ends_of_members_text, ends_of_members_told, all_ends_text, all_ends_told, members_by_command_text, members_by_command_told, learned_of, all_ends_learned, states_behind_text, states_behind_learned, report, late_records, swapping_records, full, snooped_of, with_ends, left_out, late, swapped};

/// A report, a query and a leave move a stream to where it is wanted.
pub fn snooping()
    ensures { told snooping_text ≡ snooping_told }
{}

/// A report of MLD lasts for 260 seconds.
pub fn mld_report()
    ensures { told mld_report_text ≡ mld_report_told }
{}

/// A record that is cut short makes no member.
pub fn truncated_record()
    ensures { told truncated_record_text ≡ truncated_record_told }
{}

/// A report at a port of the chip makes a member when software posts it.
pub fn report_at_a_chip_port()
    ensures { told report_at_a_chip_port_text ≡ report_at_a_chip_port_told }
{}

/// Leaves, reports, queries and a pause of snooping, and when what was learned ends.
pub fn ends_of_members()
    ensures { told ends_of_members_text ≡ ends_of_members_told }
{}

/// What ends at one moment goes in order, behind the addresses that expire.
pub fn all_ends()
    ensures told { told all_ends_text ≡ all_ends_told }
    ensures learned { learned_of all_ends_text ≡ all_ends_learned }
{}

/// What commands made neither leaves nor ends, and what they take has no end left.
pub fn members_by_command()
    ensures { told members_by_command_text ≡ members_by_command_told }
{}

/// What ends goes before the spanning tree moves a state, and only a forwarding port hears a report.
pub fn states_behind()
    ensures { learned_of states_behind_text ≡ states_behind_learned }
{}

/// A report of one group more than there is room for is left out; records act one after another, each in the room that it finds.
pub fn room_for_groups()
    ensures not_taken { (snooped_of 1 report full).changes ≡ [] }
    ensures no_room { with_ends 260000 (snooped_of 1 report full) ≡ left_out }
    ensures too_late { with_ends 259999 (snooped_of 1 late_records full) ≡ late }
    ensures in_turn { with_ends 260000 (snooped_of 1 swapping_records full) ≡ swapped }
{}
